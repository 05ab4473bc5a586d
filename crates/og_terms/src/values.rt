ghost use Rattle.og_terms.specs.Rooms.{Reads};
ghost use Rattle.og_language.specs.Grammar as grammar;

use crate::names::{bound, name, nonzero};
use og_grammar::{Fault, Terminal, Tokens, commas_or_none, many, separated, two_or_more};
use og_lex::{Mark, Word};
use og_list::List;
use og_syntax::{EntryTree, RowTree, ValueTree};
use std::alloc::Global;

/// A value. Where no room is left, nothing is read.
#[cycle(value_readers)]
#[tactic(auto, using(crate::proofs::Rooms::symbol_reads, crate::proofs::Rooms::no_room))]
pub fn value(alloc: Global, tokens: &mut Tokens<'_>, room: usize) -> Result<ValueTree, Fault>
    ensures { Reads room grammar.value_part tokens.old result tokens.new }
{
    if room == 0 {
        return Err(Fault::Syntax(tokens.left()));
    }
    value_rule(alloc, tokens, room - 1)
}

/// One form of a value, by the next token.
#[cycle(value_readers)]
#[tactic(auto, unfolding(og_language::specs::Grammar::value_rule, og_language::specs::Grammar::name, og_language::specs::Grammar::bound))]
fn value_rule(alloc: Global, tokens: &mut Tokens<'_>, room: usize) -> Result<ValueTree, Fault>
    ensures { Reads room grammar.value_rule tokens.old result tokens.new }
{
    let at = tokens.place();
    if tokens.sees(Terminal::Name) {
        let name = name(alloc, tokens, room)?;
        Ok(ValueTree::Name(at, name))
    } else if tokens.sees(Terminal::Word(Word::True)) {
        let at = tokens.take(Terminal::Word(Word::True))?;
        Ok(ValueTree::Flag(at, true))
    } else if tokens.sees(Terminal::Word(Word::False)) {
        let at = tokens.take(Terminal::Word(Word::False))?;
        Ok(ValueTree::Flag(at, false))
    } else if tokens.sees(Terminal::Mark(Mark::Minus)) || tokens.sees(Terminal::Number) {
        let number = bound(tokens, room)?;
        Ok(ValueTree::Number(at, number))
    } else {
        tuple_value(alloc, tokens, room)
    }
}

/// `( VALUE , VALUE , .. )`
#[cycle(value_readers)]
#[tactic(auto, unfolding(og_language::specs::Grammar::tuple_value))]
fn tuple_value(alloc: Global, tokens: &mut Tokens<'_>, room: usize) -> Result<ValueTree, Fault>
    ensures { Reads room grammar.tuple_value tokens.old result tokens.new }
{
    let at = tokens.take(Terminal::Mark(Mark::LeftParen))?;
    let parts = value_parts(alloc, tokens, room)?;
    tokens.take(Terminal::Mark(Mark::RightParen))?;
    Ok(ValueTree::Tuple(at, parts))
}

/// `VALUE , VALUE , ..`, two or more.
#[cycle(value_readers)]
#[tactic(auto, unfolding(og_language::specs::Grammar::value_parts))]
fn value_parts(
    alloc: Global,
    tokens: &mut Tokens<'_>,
    room: usize,
) -> Result<List<ValueTree>, Fault>
    ensures { Reads room grammar.value_parts tokens.old result tokens.new }
{
    two_or_more(alloc, tokens, room, value)
}

/// Values with commas between, or none.
fn values_or_none(
    alloc: Global,
    tokens: &mut Tokens<'_>,
    room: usize,
) -> Result<List<ValueTree>, Fault>
    ensures { Reads room grammar.values_or_none tokens.old result tokens.new }
{
    let begins = [
        Terminal::Name,
        Terminal::Word(Word::True),
        Terminal::Word(Word::False),
        Terminal::Mark(Mark::Minus),
        Terminal::Number,
        Terminal::Mark(Mark::LeftParen),
    ];
    commas_or_none(alloc, tokens, room, &begins, value)
}

/// Values with commas between, one or more.
pub fn some_values(
    alloc: Global,
    tokens: &mut Tokens<'_>,
    room: usize,
) -> Result<List<ValueTree>, Fault>
    ensures { Reads room grammar.some_values tokens.old result tokens.new }
{
    separated(alloc, tokens, room, Terminal::Mark(Mark::Comma), value)
}

/// `( VALUE , .. )`, or `( )`, with its place.
#[tactic(auto, unfolding(og_language::specs::Grammar::key))]
pub fn key(
    alloc: Global,
    tokens: &mut Tokens<'_>,
    room: usize,
) -> Result<(u32, List<ValueTree>), Fault>
    ensures { Reads room grammar.key tokens.old result tokens.new }
{
    let at = tokens.take(Terminal::Mark(Mark::LeftParen))?;
    let key = values_or_none(alloc, tokens, room)?;
    tokens.take(Terminal::Mark(Mark::RightParen))?;
    Ok((at, key))
}

/// `: NUMBER`, or `: NUMBER / NUMBER`.
#[tactic(auto, unfolding(og_language::specs::Grammar::weight))]
fn weight(tokens: &mut Tokens<'_>, room: usize) -> Result<(u64, Option<u64>), Fault>
    ensures { Reads room grammar.weight tokens.old result tokens.new }
{
    tokens.take(Terminal::Mark(Mark::Colon))?;
    let num = tokens.number()?;
    if tokens.sees(Terminal::Mark(Mark::Slash)) {
        tokens.take(Terminal::Mark(Mark::Slash))?;
        let den = nonzero(tokens, room)?;
        Ok((num, Some(den)))
    } else {
        Ok((num, None))
    }
}

/// A value with its weight, or without one.
#[tactic(auto, unfolding(og_language::specs::Grammar::entry, og_language::specs::Grammar::weight))]
fn entry(alloc: Global, tokens: &mut Tokens<'_>, room: usize) -> Result<EntryTree, Fault>
    ensures { Reads room grammar.entry tokens.old result tokens.new }
{
    let value = value(alloc, tokens, room)?;
    if tokens.sees(Terminal::Mark(Mark::Colon)) {
        let (num, den) = weight(tokens, room)?;
        let den = den.unwrap_or(1);
        Ok(EntryTree { value, num, den })
    } else {
        Ok(EntryTree {
            value,
            num: 1,
            den: 1,
        })
    }
}

/// Entries with commas between, one or more.
fn entries(alloc: Global, tokens: &mut Tokens<'_>, room: usize) -> Result<List<EntryTree>, Fault>
    ensures { Reads room grammar.entries tokens.old result tokens.new }
{
    separated(alloc, tokens, room, Terminal::Mark(Mark::Comma), entry)
}

/// `KEY -> ENTRY , .. ;`
#[tactic(auto, unfolding(og_language::specs::Grammar::row))]
fn row(alloc: Global, tokens: &mut Tokens<'_>, room: usize) -> Result<RowTree, Fault>
    ensures { Reads room grammar.row tokens.old result tokens.new }
{
    let (at, key) = key(alloc, tokens, room)?;
    tokens.take(Terminal::Mark(Mark::Arrow))?;
    let entries = entries(alloc, tokens, room)?;
    tokens.take(Terminal::Mark(Mark::Semicolon))?;
    Ok(RowTree { at, key, entries })
}

/// Rows, as many as there are.
fn rows_or_none(alloc: Global, tokens: &mut Tokens<'_>, room: usize) -> Result<List<RowTree>, Fault>
    ensures { Reads room grammar.rows_or_none tokens.old result tokens.new }
{
    many(alloc, tokens, room, &[Terminal::Mark(Mark::LeftParen)], row)
}

/// `{ ROW .. }`
#[tactic(auto, unfolding(og_language::specs::Grammar::rows))]
pub fn rows(alloc: Global, tokens: &mut Tokens<'_>, room: usize) -> Result<List<RowTree>, Fault>
    ensures { Reads room grammar.rows tokens.old result tokens.new }
{
    tokens.take(Terminal::Mark(Mark::LeftBrace))?;
    let rows = rows_or_none(alloc, tokens, room)?;
    tokens.take(Terminal::Mark(Mark::RightBrace))?;
    Ok(rows)
}
