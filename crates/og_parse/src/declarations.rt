ghost use Rattle.og_terms.specs.Rooms.{Reads};
ghost use Rattle.og_language.specs.Grammar as grammar;

use crate::atoms::params_in_brackets;
use crate::games::game;
use og_grammar::{Fault, Terminal, Tokens, separated, with};
use og_lex::{Mark, Word};
use og_list::List;
use og_syntax::{Decl, ExprTree, GameParam, GameTree, NameTree, ParamKind, TyTree};
use og_terms::{expr, name_tree, placed_name, some_names, ty};
use std::alloc::Global;

/// `{ NAME , .. }`
#[tactic(auto, unfolding(og_language::specs::Grammar::cases))]
fn cases(alloc: Global, tokens: &mut Tokens<'_>, room: usize) -> Result<List<NameTree>, Fault>
    ensures { Reads room grammar.cases tokens.old result tokens.new }
{
    tokens.take(Terminal::Mark(Mark::LeftBrace))?;
    let names = some_names(alloc, tokens, room)?;
    tokens.take(Terminal::Mark(Mark::RightBrace))?;
    Ok(names)
}

/// `type NAME = CASES ;`, or `type NAME = TYPE ;`.
#[tactic(auto, unfolding(og_language::specs::Grammar::type_decl, og_language::specs::Grammar::cases_or_type, og_language::specs::Grammar::cases))]
fn type_decl(alloc: Global, tokens: &mut Tokens<'_>, room: usize) -> Result<Decl, Fault>
    ensures { Reads room grammar.type_decl tokens.old result tokens.new }
{
    tokens.take(Terminal::Word(Word::Type))?;
    let NameTree { at, name } = placed_name(alloc, tokens, room)?;
    tokens.take(Terminal::Mark(Mark::Assign))?;
    if tokens.sees(Terminal::Mark(Mark::LeftBrace)) {
        let cases = cases(alloc, tokens, room)?;
        tokens.take(Terminal::Mark(Mark::Semicolon))?;
        Ok(Decl::Enum { at, name, cases })
    } else {
        let ty = ty(alloc, tokens, room)?;
        let (ty, _) = with(ty, tokens.take(Terminal::Mark(Mark::Semicolon)))?;
        Ok(Decl::Alias { at, name, ty })
    }
}

/// `: TYPE = EXPRESSION`
#[tactic(auto, unfolding(og_language::specs::Grammar::answer))]
fn answer(alloc: Global, tokens: &mut Tokens<'_>, room: usize) -> Result<(TyTree, ExprTree), Fault>
    ensures { Reads room grammar.answer tokens.old result tokens.new }
{
    tokens.take(Terminal::Mark(Mark::Colon))?;
    let ty = ty(alloc, tokens, room)?;
    let (ty, _) = with(ty, tokens.take(Terminal::Mark(Mark::Assign)))?;
    with(ty, expr(alloc, tokens, room))
}

/// `fn NAME ( PARAMS ) ANSWER ;`
#[tactic(auto, unfolding(og_language::specs::Grammar::fn_decl))]
fn fn_decl(alloc: Global, tokens: &mut Tokens<'_>, room: usize) -> Result<Decl, Fault>
    ensures { Reads room grammar.fn_decl tokens.old result tokens.new }
{
    tokens.take(Terminal::Word(Word::Fn))?;
    let name = placed_name(alloc, tokens, room)?;
    let params = params_in_brackets(alloc, tokens, room)?;
    let given = answer(alloc, tokens, room)?;
    let ((answer, body), _) = with(given, tokens.take(Terminal::Mark(Mark::Semicolon)))?;
    Ok(Decl::Fn {
        at: name.at,
        name: name.name,
        params,
        answer,
        body,
    })
}

/// `agent`, or a type.
#[tactic(auto, unfolding(og_language::specs::Grammar::param_kind))]
fn param_kind(alloc: Global, tokens: &mut Tokens<'_>, room: usize) -> Result<ParamKind, Fault>
    ensures { Reads room grammar.param_kind tokens.old result tokens.new }
{
    if tokens.sees(Terminal::Word(Word::Agent)) {
        tokens.take(Terminal::Word(Word::Agent))?;
        Ok(ParamKind::Agent)
    } else {
        Ok(ParamKind::Of(ty(alloc, tokens, room)?))
    }
}

/// `VARIABLE : KIND`
#[tactic(auto, unfolding(og_language::specs::Grammar::game_param))]
fn game_param(alloc: Global, tokens: &mut Tokens<'_>, room: usize) -> Result<GameParam, Fault>
    ensures { Reads room grammar.game_param tokens.old result tokens.new }
{
    let name = name_tree(alloc, tokens, room)?;
    tokens.take(Terminal::Mark(Mark::Colon))?;
    let kind = param_kind(alloc, tokens, room)?;
    Ok(GameParam {
        at: name.at,
        name: name.name,
        kind,
    })
}

/// Parameters of a game with commas between, one or more.
fn some_game_params(
    alloc: Global,
    tokens: &mut Tokens<'_>,
    room: usize,
) -> Result<List<GameParam>, Fault>
    ensures { Reads room grammar.some_game_params tokens.old result tokens.new }
{
    separated(alloc, tokens, room, Terminal::Mark(Mark::Comma), game_param)
}

/// `( GAME_PARAM , .. )`
#[tactic(auto, unfolding(og_language::specs::Grammar::game_params))]
fn game_params(
    alloc: Global,
    tokens: &mut Tokens<'_>,
    room: usize,
) -> Result<List<GameParam>, Fault>
    ensures { Reads room grammar.game_params tokens.old result tokens.new }
{
    tokens.take(Terminal::Mark(Mark::LeftParen))?;
    let params = some_game_params(alloc, tokens, room)?;
    tokens.take(Terminal::Mark(Mark::RightParen))?;
    Ok(params)
}

/// Parameters of a game, or none.
#[tactic(auto, unfolding(og_language::specs::Grammar::game_params_or_none, og_language::specs::Grammar::game_params))]
fn game_params_or_none(
    alloc: Global,
    tokens: &mut Tokens<'_>,
    room: usize,
) -> Result<List<GameParam>, Fault>
    ensures { Reads room grammar.game_params_or_none tokens.old result tokens.new }
{
    if tokens.sees(Terminal::Mark(Mark::LeftParen)) {
        game_params(alloc, tokens, room)
    } else {
        Ok(List::new(alloc))
    }
}

/// `= GAME ;`
#[tactic(auto, unfolding(og_language::specs::Grammar::game_body))]
fn game_body(
    alloc: Global,
    tokens: &mut Tokens<'_>,
    room: usize,
    branches: bool,
) -> Result<GameTree, Fault>
    ensures { Reads room (grammar.game_body branches) tokens.old result tokens.new }
{
    tokens.take(Terminal::Mark(Mark::Assign))?;
    let body = game(alloc, tokens, room, branches)?;
    let (body, _) = with(body, tokens.take(Terminal::Mark(Mark::Semicolon)))?;
    Ok(body)
}

/// `game NAME = GAME ;`, with parameters or without.
#[tactic(auto, unfolding(og_language::specs::Grammar::game_decl))]
fn game_decl(
    alloc: Global,
    tokens: &mut Tokens<'_>,
    room: usize,
    branches: bool,
) -> Result<Decl, Fault>
    ensures { Reads room (grammar.game_decl branches) tokens.old result tokens.new }
{
    tokens.take(Terminal::Word(Word::Game))?;
    let name = placed_name(alloc, tokens, room)?;
    let params = game_params_or_none(alloc, tokens, room)?;
    let body = game_body(alloc, tokens, room, branches)?;
    Ok(Decl::Game {
        at: name.at,
        name: name.name,
        params,
        body,
    })
}

/// A declaration.
#[tactic(auto, unfolding(og_language::specs::Grammar::decl, og_language::specs::Grammar::type_decl, og_language::specs::Grammar::fn_decl))]
pub(crate) fn decl(
    alloc: Global,
    tokens: &mut Tokens<'_>,
    room: usize,
    branches: bool,
) -> Result<Decl, Fault>
    ensures { Reads room (grammar.decl branches) tokens.old result tokens.new }
{
    if tokens.sees(Terminal::Word(Word::Type)) {
        type_decl(alloc, tokens, room)
    } else if tokens.sees(Terminal::Word(Word::Fn)) {
        fn_decl(alloc, tokens, room)
    } else {
        game_decl(alloc, tokens, room, branches)
    }
}
