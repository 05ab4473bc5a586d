ghost use Rattle.og_grammar.specs.Reads.{Reads};
ghost use Rattle.og_read.specs.Grammar as spec;

use crate::lexemes::{name, names};
use og_grammar::{Fault, Terminal, Tokens, many, separated};
use og_lex::{Mark, Word};
use og_list::List;
use og_small::{Key, Row};
use std::alloc::Global;

/// `NAME : NAME`
#[tactic(auto, unfolding(crate::specs::Grammar::key))]
fn key(alloc: Global, tokens: &mut Tokens<'_>, _room: usize) -> Result<Key, Fault>
    ensures { Reads spec.reads spec.key tokens.old result tokens.new }
{
    let output = name(alloc, tokens, 0)?;
    tokens.take(Terminal::Mark(Mark::Colon))?;
    let action = name(alloc, tokens, 0)?;
    Ok(Key { output, action })
}

/// One or more keys, with commas between.
#[tactic(auto, unfolding(crate::specs::Grammar::keys))]
fn keys(alloc: Global, tokens: &mut Tokens<'_>) -> Result<List<Key>, Fault>
    ensures { Reads spec.reads spec.keys tokens.old result tokens.new }
{
    separated(alloc, tokens, 0, Terminal::Mark(Mark::Comma), key)
}

/// Keys in parentheses.
#[tactic(auto, unfolding(crate::specs::Grammar::columns))]
fn columns(alloc: Global, tokens: &mut Tokens<'_>) -> Result<List<Key>, Fault>
    ensures { Reads spec.reads spec.columns tokens.old result tokens.new }
{
    tokens.take(Terminal::Mark(Mark::LeftParen))?;
    let keys = keys(alloc, tokens)?;
    tokens.take(Terminal::Mark(Mark::RightParen))?;
    Ok(keys)
}

/// Names in parentheses.
#[tactic(auto, unfolding(crate::specs::Grammar::outcome))]
fn outcome(alloc: Global, tokens: &mut Tokens<'_>) -> Result<List<List<u8>>, Fault>
    ensures { Reads spec.reads spec.outcome tokens.old result tokens.new }
{
    tokens.take(Terminal::Mark(Mark::LeftParen))?;
    let cases = names(alloc, tokens)?;
    tokens.take(Terminal::Mark(Mark::RightParen))?;
    Ok(cases)
}

/// `(NAME, ..) -> NUMBER;`
#[tactic(auto, unfolding(crate::specs::Grammar::row))]
fn row(alloc: Global, tokens: &mut Tokens<'_>, _room: usize) -> Result<Row, Fault>
    ensures { Reads spec.reads spec.row tokens.old result tokens.new }
{
    let cases = outcome(alloc, tokens)?;
    tokens.take(Terminal::Mark(Mark::Arrow))?;
    let pay = tokens.number()?;
    tokens.take(Terminal::Mark(Mark::Semicolon))?;
    Ok(Row { cases, pay })
}

/// Rows, as many as there are.
#[tactic(auto, unfolding(crate::specs::Grammar::rows, crate::specs::Grammar::row, crate::specs::Grammar::outcome))]
fn rows(alloc: Global, tokens: &mut Tokens<'_>) -> Result<List<Row>, Fault>
    ensures { Reads spec.reads spec.rows tokens.old result tokens.new }
{
    many(alloc, tokens, 0, &[Terminal::Mark(Mark::LeftParen)], row)
}

/// Rows in braces.
#[tactic(auto, unfolding(crate::specs::Grammar::rows_inside))]
fn rows_inside(alloc: Global, tokens: &mut Tokens<'_>) -> Result<List<Row>, Fault>
    ensures { Reads spec.reads spec.rows_inside tokens.old result tokens.new }
{
    tokens.take(Terminal::Mark(Mark::LeftBrace))?;
    let rows = rows(alloc, tokens)?;
    tokens.take(Terminal::Mark(Mark::RightBrace))?;
    Ok(rows)
}

/// `table (KEY, ..) { ROW .. };`
#[tactic(auto, unfolding(crate::specs::Grammar::table))]
pub(crate) fn table(alloc: Global, tokens: &mut Tokens<'_>) -> Result<(List<Key>, List<Row>), Fault>
    ensures { Reads spec.reads spec.table tokens.old result tokens.new }
{
    tokens.take(Terminal::Word(Word::Table))?;
    let keys = columns(alloc, tokens)?;
    let rows = rows_inside(alloc, tokens)?;
    tokens.take(Terminal::Mark(Mark::Semicolon))?;
    Ok((keys, rows))
}
