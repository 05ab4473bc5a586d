ghost use Rattle.std.specs.Prelude.{◌≡◌, ◌++◌, OnOk, map};
ghost use Rattle.og_canonical.specs.Tokens.{commas, in_parens};
ghost use Rattle.og_canonical.specs.Types.{range_text, ty_text, tys_text, param_text, params_text, names_text};

use crate::tokens::{write_mark, write_token, write_whole, write_word};
use og_lex::{Mark, Word};
use og_list::{List, Text};
use og_syntax::{NameTree, ParamTree, TyTree};
use std::alloc::{AllocError, Global};

/// Adds two bounds with `..` between them.
#[tactic(auto, unfolding(crate::specs::Types::range_text))]
pub(crate) fn write_range(
    alloc: Global,
    low: i64,
    high: i64,
    out: &mut Text,
) -> Result<(), AllocError>
    ensures { OnOk result (out.new ≡ out.old ++ range_text low high) }
{
    write_whole(alloc, low, out)?;
    write_mark(Mark::DotDot, out)?;
    write_whole(alloc, high, out)
}

/// Adds a type.
#[cycle(type_texts)]
#[tactic(auto, using(crate::proofs::TypeForms::tuple_text))]
pub(crate) fn write_type(ty: &TyTree, alloc: Global, out: &mut Text) -> Result<(), AllocError>
    ensures { OnOk result (out.new ≡ out.old ++ ty_text ty.now) }
{
    match ty {
        TyTree::Name(_, name) => write_token(name.as_str(), out),
        TyTree::Bool(_) => write_word(Word::Bool, out),
        TyTree::Number(_) => write_word(Word::Number, out),
        TyTree::Range(_, low, high) => write_range(alloc, *low, *high, out),
        TyTree::Tuple(_, parts) => {
            write_mark(Mark::LeftParen, out)?;
            write_list(parts, alloc, out)?;
            write_mark(Mark::RightParen, out)
        }
    }
}

/// Adds the types, with a comma between each two.
#[cycle(type_texts)]
fn write_list(types: &List<TyTree>, alloc: Global, out: &mut Text) -> Result<(), AllocError>
    ensures { OnOk result (out.new ≡ out.old ++ commas (map ty_text types.now)) }
{
    'types: for (at, ty) in types.as_slice().iter().enumerate() {
        if at > 0 {
            write_mark(Mark::Comma, out)?;
        }
        write_type(ty, alloc, out)?;
    }
    Ok(())
}

/// Adds the types in square brackets.
pub(crate) fn write_types(
    types: &List<TyTree>,
    alloc: Global,
    out: &mut Text,
) -> Result<(), AllocError>
    ensures { OnOk result (out.new ≡ out.old ++ tys_text types.now) }
{
    write_mark(Mark::LeftBracket, out)?;
    write_list(types, alloc, out)?;
    write_mark(Mark::RightBracket, out)
}

/// Adds a variable with its type.
#[tactic(auto, unfolding(crate::specs::Types::param_text))]
fn write_param(param: &ParamTree, alloc: Global, out: &mut Text) -> Result<(), AllocError>
    ensures { OnOk result (out.new ≡ out.old ++ param_text param.now) }
{
    write_token(param.name.as_str(), out)?;
    write_mark(Mark::Colon, out)?;
    write_type(&param.ty, alloc, out)
}

/// Adds the variables with their types, with a comma between each two.
pub(crate) fn write_params(
    params: &List<ParamTree>,
    alloc: Global,
    out: &mut Text,
) -> Result<(), AllocError>
    ensures { OnOk result (out.new ≡ out.old ++ params_text params.now) }
{
    'params: for (at, param) in params.as_slice().iter().enumerate() {
        if at > 0 {
            write_mark(Mark::Comma, out)?;
        }
        write_param(param, alloc, out)?;
    }
    Ok(())
}

/// Adds the names, with a comma between each two.
pub(crate) fn write_names(names: &List<NameTree>, out: &mut Text) -> Result<(), AllocError>
    ensures { OnOk result (out.new ≡ out.old ++ names_text names.now) }
{
    'names: for (at, name) in names.as_slice().iter().enumerate() {
        if at > 0 {
            write_mark(Mark::Comma, out)?;
        }
        write_token(name.name.as_str(), out)?;
    }
    Ok(())
}
