//! Whole files.
ghost use Rattle.og_terms.specs.Rooms.{Reads};
ghost use Rattle.og_language.specs.Grammar as grammar;

use crate::declarations::decl;
use og_grammar::{Fault, Terminal, Tokens, many};
use og_lex::{Mark, Word};
use og_list::List;
use og_syntax::{Decl, Section};
use og_terms::{placed_quoted, rows};
use std::alloc::Global;

/// The number 2.
#[tactic(auto, unfolding(og_language::specs::Grammar::second, og_grammar::specs::Reading::read_token, og_grammar::specs::Reading::next_value))]
fn second(tokens: &mut Tokens<'_>, room: usize) -> Result<u32, Fault>
    ensures { Reads room grammar.second tokens.old result tokens.new }
{
    if tokens.value() != 2 {
        return Err(Fault::Syntax(tokens.left()));
    }
    tokens.number()?;
    Ok(2)
}

/// `version 2 ;`
#[tactic(auto, unfolding(og_language::specs::Grammar::header))]
fn header(tokens: &mut Tokens<'_>, room: usize) -> Result<u32, Fault>
    ensures { Reads room grammar.header tokens.old result tokens.new }
{
    tokens.take(Terminal::Word(Word::Version))?;
    let version = second(tokens, room)?;
    tokens.take(Terminal::Mark(Mark::Semicolon))?;
    Ok(version)
}

/// Declarations, as many as there are. Branches may stand in them or not.
fn declarations(
    alloc: Global,
    tokens: &mut Tokens<'_>,
    room: usize,
    branches: bool,
) -> Result<List<Decl>, Fault>
    ensures { Reads room (grammar.declarations branches) tokens.old result tokens.new }
{
    let begins = [
        Terminal::Word(Word::Type),
        Terminal::Word(Word::Fn),
        Terminal::Word(Word::Game),
    ];
    many(
        alloc,
        tokens,
        room,
        &begins,
        |alloc, tokens: &mut Tokens<'_>, room| decl(alloc, tokens, room, branches),
    )
}

/// A program: its version and its declarations. What is left behind them is no part of it.
#[tactic(auto, unfolding(og_language::specs::Grammar::program, og_language::specs::Grammar::header))]
pub fn program(
    alloc: Global,
    tokens: &mut Tokens<'_>,
    room: usize,
) -> Result<(u32, List<Decl>), Fault>
    ensures { Reads room grammar.program tokens.old result tokens.new }
{
    if tokens.sees(Terminal::Word(Word::Version)) {
        let version = header(tokens, room)?;
        let decls = declarations(alloc, tokens, room, true)?;
        Ok((version, decls))
    } else {
        let decls = declarations(alloc, tokens, room, false)?;
        Ok((1, decls))
    }
}

/// `strategy NAME ROWS`
#[tactic(auto, unfolding(og_language::specs::Grammar::section))]
fn section(alloc: Global, tokens: &mut Tokens<'_>, room: usize) -> Result<Section, Fault>
    ensures { Reads room grammar.section tokens.old result tokens.new }
{
    let at = tokens.take(Terminal::Word(Word::Strategy))?;
    let agent = placed_quoted(alloc, tokens, room)?;
    let rows = rows(alloc, tokens, room)?;
    Ok(Section { at, agent, rows })
}

/// The sections of a strategy file, as many as there are.
pub fn strategy(alloc: Global, tokens: &mut Tokens<'_>, room: usize) -> Result<List<Section>, Fault>
    ensures { Reads room grammar.strategy tokens.old result tokens.new }
{
    many(
        alloc,
        tokens,
        room,
        &[Terminal::Word(Word::Strategy)],
        section,
    )
}
