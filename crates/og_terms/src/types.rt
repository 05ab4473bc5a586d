ghost use Rattle.og_terms.specs.Rooms.{Reads};
ghost use Rattle.og_language.specs.Grammar as grammar;

use crate::names::{bound, name, variable};
use og_grammar::{Fault, Terminal, Tokens, commas_or_none, two_or_more};
use og_lex::{Mark, Word};
use og_list::List;
use og_syntax::{ParamTree, TyTree};
use std::alloc::Global;

/// A type. Where no room is left, nothing is read.
#[cycle(type_readers)]
#[tactic(auto, using(crate::proofs::Rooms::symbol_reads, crate::proofs::Rooms::no_room))]
pub fn ty(alloc: Global, tokens: &mut Tokens<'_>, room: usize) -> Result<TyTree, Fault>
    ensures { Reads room grammar.ty tokens.old result tokens.new }
{
    if room == 0 {
        return Err(Fault::Syntax(tokens.left()));
    }
    type_rule(alloc, tokens, room - 1)
}

/// One form of a type, by the next token.
#[cycle(type_readers)]
#[tactic(auto, unfolding(og_language::specs::Grammar::type_rule, og_language::specs::Grammar::name, og_language::specs::Grammar::range, og_language::specs::Grammar::bound))]
fn type_rule(alloc: Global, tokens: &mut Tokens<'_>, room: usize) -> Result<TyTree, Fault>
    ensures { Reads room grammar.type_rule tokens.old result tokens.new }
{
    if tokens.sees(Terminal::Name) {
        let at = tokens.place();
        let name = name(alloc, tokens, room)?;
        Ok(TyTree::Name(at, name))
    } else if tokens.sees(Terminal::Word(Word::Bool)) {
        Ok(TyTree::Bool(tokens.take(Terminal::Word(Word::Bool))?))
    } else if tokens.sees(Terminal::Word(Word::Number)) {
        Ok(TyTree::Number(tokens.take(Terminal::Word(Word::Number))?))
    } else if tokens.sees(Terminal::Mark(Mark::Minus)) || tokens.sees(Terminal::Number) {
        range(tokens, room)
    } else {
        tuple_type(alloc, tokens, room)
    }
}

/// `BOUND .. BOUND`
#[tactic(auto, unfolding(og_language::specs::Grammar::range))]
pub(crate) fn range(tokens: &mut Tokens<'_>, room: usize) -> Result<TyTree, Fault>
    ensures { Reads room grammar.range tokens.old result tokens.new }
{
    let at = tokens.place();
    let low = bound(tokens, room)?;
    tokens.take(Terminal::Mark(Mark::DotDot))?;
    let high = bound(tokens, room)?;
    Ok(TyTree::Range(at, low, high))
}

/// `( TYPE , TYPE , .. )`
#[cycle(type_readers)]
#[tactic(auto, unfolding(og_language::specs::Grammar::tuple_type))]
fn tuple_type(alloc: Global, tokens: &mut Tokens<'_>, room: usize) -> Result<TyTree, Fault>
    ensures { Reads room grammar.tuple_type tokens.old result tokens.new }
{
    let at = tokens.take(Terminal::Mark(Mark::LeftParen))?;
    let parts = type_parts(alloc, tokens, room)?;
    tokens.take(Terminal::Mark(Mark::RightParen))?;
    Ok(TyTree::Tuple(at, parts))
}

/// `TYPE , TYPE , ..`, two or more.
#[cycle(type_readers)]
#[tactic(auto, unfolding(og_language::specs::Grammar::type_parts))]
fn type_parts(alloc: Global, tokens: &mut Tokens<'_>, room: usize) -> Result<List<TyTree>, Fault>
    ensures { Reads room grammar.type_parts tokens.old result tokens.new }
{
    two_or_more(alloc, tokens, room, ty)
}

/// `[ TYPE , .. ]`, or `[ ]`.
#[tactic(auto, unfolding(og_language::specs::Grammar::type_list))]
pub fn type_list(alloc: Global, tokens: &mut Tokens<'_>, room: usize) -> Result<List<TyTree>, Fault>
    ensures { Reads room grammar.type_list tokens.old result tokens.new }
{
    tokens.take(Terminal::Mark(Mark::LeftBracket))?;
    let found = types_or_none(alloc, tokens, room)?;
    tokens.take(Terminal::Mark(Mark::RightBracket))?;
    Ok(found)
}

/// Types with commas between, or none.
fn types_or_none(alloc: Global, tokens: &mut Tokens<'_>, room: usize) -> Result<List<TyTree>, Fault>
    ensures { Reads room grammar.types_or_none tokens.old result tokens.new }
{
    let begins = [
        Terminal::Name,
        Terminal::Word(Word::Bool),
        Terminal::Word(Word::Number),
        Terminal::Mark(Mark::Minus),
        Terminal::Number,
        Terminal::Mark(Mark::LeftParen),
    ];
    commas_or_none(alloc, tokens, room, &begins, ty)
}

/// `VARIABLE : TYPE`
#[tactic(auto, unfolding(og_language::specs::Grammar::param))]
pub fn param(alloc: Global, tokens: &mut Tokens<'_>, room: usize) -> Result<ParamTree, Fault>
    ensures { Reads room grammar.param tokens.old result tokens.new }
{
    let at = tokens.place();
    let name = variable(alloc, tokens, room)?;
    tokens.take(Terminal::Mark(Mark::Colon))?;
    let ty = ty(alloc, tokens, room)?;
    Ok(ParamTree { at, name, ty })
}

/// Parameters with commas between, or none.
pub fn params(alloc: Global, tokens: &mut Tokens<'_>, room: usize) -> Result<List<ParamTree>, Fault>
    ensures { Reads room grammar.params tokens.old result tokens.new }
{
    commas_or_none(
        alloc,
        tokens,
        room,
        &[Terminal::Name, Terminal::Under],
        param,
    )
}
