ghost use Rattle.std.specs.Prelude.{◌≡◌, ◌++◌, IfOk, OnOk, map};
ghost use Rattle.og_canonical.specs.Tokens.{commas, optional};
ghost use Rattle.og_canonical.specs.Programs.{kind_text, game_param_text, enum_text, alias_text, fn_front};
ghost use Rattle.og_canonical.specs.Programs.{game_front, decl_text, version_text, program_text};

use crate::expressions::write_expr;
use crate::games::write_game;
use crate::tokens::{write_mark, write_number, write_token, write_word};
use crate::types::{write_names, write_params, write_type};
use og_lex::{Mark, Word};
use og_list::{List, Text};
use og_syntax::{Decl, GameParam, NameTree, ParamKind, ParamTree, Program, TyTree};
use std::alloc::{AllocError, Global};

/// The canonical text of a program: its tokens, each with one space or line feed behind it, every field of a
/// block and a line, also an empty one, and round brackets only where the grammar asks for them. That of
/// `type A={B,C};` has three lines: `type A = {`, `B , C }` and `;`.
pub fn print_program(alloc: Global, program: &Program) -> Result<Text, AllocError>
    ensures { IfOk result (λ made. made ≡ program_text program.now) }
{
    let mut out = Text::from(alloc, "")?;
    write_version(alloc, program.version, &mut out)?;
    'decls: for decl in program.decls.as_slice() {
        write_decl(decl, alloc, &mut out)?;
    }
    Ok(out)
}

/// Adds what stands first: the version where it is 2, else nothing.
#[tactic(auto, unfolding(crate::specs::Programs::version_text))]
fn write_version(alloc: Global, version: u32, out: &mut Text) -> Result<(), AllocError>
    ensures { OnOk result (out.new ≡ out.old ++ version_text version) }
{
    if version != 2 {
        return Ok(());
    }
    write_word(Word::Version, out)?;
    write_number(alloc, 2, out)?;
    write_mark(Mark::Semicolon, out)
}

/// Adds a declaration.
#[tactic(auto, unfolding(crate::specs::Programs::decl_text))]
fn write_decl(decl: &Decl, alloc: Global, out: &mut Text) -> Result<(), AllocError>
    ensures { OnOk result (out.new ≡ out.old ++ decl_text decl.now) }
{
    match decl {
        Decl::Enum { name, cases, .. } => write_enum(name.as_str(), cases, out)?,
        Decl::Alias { name, ty, .. } => write_alias(name.as_str(), ty, alloc, out)?,
        Decl::Fn {
            name,
            params,
            answer,
            body,
            ..
        } => {
            write_fn_front(name.as_str(), params, answer, alloc, out)?;
            write_expr(body, alloc, out)?;
        }
        Decl::Game {
            name,
            params,
            body,
            ..
        } => {
            write_game_front(name.as_str(), params, alloc, out)?;
            write_game(body, alloc, out)?;
        }
    }
    write_mark(Mark::Semicolon, out)
}

/// Adds a type by its cases.
#[tactic(auto, unfolding(crate::specs::Programs::enum_text))]
fn write_enum(name: &str, cases: &List<NameTree>, out: &mut Text) -> Result<(), AllocError>
    ensures { OnOk result (out.new ≡ out.old ++ enum_text name.now cases.now) }
{
    write_word(Word::Type, out)?;
    write_token(name, out)?;
    write_mark(Mark::Assign, out)?;
    write_mark(Mark::LeftBrace, out)?;
    write_names(cases, out)?;
    write_mark(Mark::RightBrace, out)
}

/// Adds a name for a type.
#[tactic(auto, unfolding(crate::specs::Programs::alias_text))]
fn write_alias(name: &str, ty: &TyTree, alloc: Global, out: &mut Text) -> Result<(), AllocError>
    ensures { OnOk result (out.new ≡ out.old ++ alias_text name.now ty.now) }
{
    write_word(Word::Type, out)?;
    write_token(name, out)?;
    write_mark(Mark::Assign, out)?;
    write_type(ty, alloc, out)
}

/// Adds a function up to its `=`.
#[tactic(auto, unfolding(crate::specs::Programs::fn_front))]
fn write_fn_front(
    name: &str,
    params: &List<ParamTree>,
    answer: &TyTree,
    alloc: Global,
    out: &mut Text,
) -> Result<(), AllocError>
    ensures { OnOk result (out.new ≡ out.old ++ fn_front name.now params.now answer.now) }
{
    write_word(Word::Fn, out)?;
    write_token(name, out)?;
    write_mark(Mark::LeftParen, out)?;
    write_params(params, alloc, out)?;
    write_mark(Mark::RightParen, out)?;
    write_mark(Mark::Colon, out)?;
    write_type(answer, alloc, out)?;
    write_mark(Mark::Assign, out)
}

/// Adds a game up to its `=`.
#[tactic(auto, unfolding(crate::specs::Programs::game_front))]
fn write_game_front(
    name: &str,
    params: &List<GameParam>,
    alloc: Global,
    out: &mut Text,
) -> Result<(), AllocError>
    ensures { OnOk result (out.new ≡ out.old ++ game_front name.now params.now) }
{
    write_word(Word::Game, out)?;
    write_token(name, out)?;
    write_optional(params, alloc, out)?;
    write_mark(Mark::Assign, out)
}

/// Adds the parameters of a game in round brackets, and nothing where there is none.
#[tactic(auto, using(crate::proofs::Optional::optional_forms))]
fn write_optional(params: &List<GameParam>, alloc: Global, out: &mut Text) -> Result<(), AllocError>
    ensures { OnOk result (out.new ≡ out.old ++ optional (map game_param_text params.now)) }
{
    if params.is_empty() {
        return Ok(());
    }
    write_mark(Mark::LeftParen, out)?;
    write_game_params(params, alloc, out)?;
    write_mark(Mark::RightParen, out)
}

/// Adds the parameters of a game, with a comma between each two.
fn write_game_params(
    params: &List<GameParam>,
    alloc: Global,
    out: &mut Text,
) -> Result<(), AllocError>
    ensures { OnOk result (out.new ≡ out.old ++ commas (map game_param_text params.now)) }
{
    'params: for (at, param) in params.as_slice().iter().enumerate() {
        if at > 0 {
            write_mark(Mark::Comma, out)?;
        }
        write_game_param(param, alloc, out)?;
    }
    Ok(())
}

/// Adds a parameter of a game.
#[tactic(auto, unfolding(crate::specs::Programs::game_param_text))]
fn write_game_param(param: &GameParam, alloc: Global, out: &mut Text) -> Result<(), AllocError>
    ensures { OnOk result (out.new ≡ out.old ++ game_param_text param.now) }
{
    write_token(param.name.as_str(), out)?;
    write_mark(Mark::Colon, out)?;
    write_kind(&param.kind, alloc, out)
}

/// Adds what a parameter of a game stands for.
#[tactic(auto, unfolding(crate::specs::Programs::kind_text))]
fn write_kind(kind: &ParamKind, alloc: Global, out: &mut Text) -> Result<(), AllocError>
    ensures { OnOk result (out.new ≡ out.old ++ kind_text kind.now) }
{
    match kind {
        ParamKind::Agent => write_word(Word::Agent, out),
        ParamKind::Of(ty) => write_type(ty, alloc, out),
    }
}
