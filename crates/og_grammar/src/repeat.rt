//! Repetitions, read once for all: a reader of items is handed in, which is called in the room that is given: how
//! deep nonterminals may still stand in one another.
ghost use Rattle.og_grammar.specs.Items.{IsCallable, ReadsEach};
ghost use Rattle.og_grammar.specs.Reading as reading;

use crate::fault::Fault;
use crate::terminal::Terminal;
use crate::tokens::Tokens;
use og_lex::Mark;
use og_list::List;
use std::alloc::Global;

/// Items in turn, while the next token is for one of the terminals.
pub fn many<T: Drop, F: Fn(Global, &mut Tokens<'_>, usize) -> Result<T, Fault>>(
    alloc: Global,
    tokens: &mut Tokens<'_>,
    room: usize,
    terminals: &[Terminal],
    item: F,
) -> Result<List<T>, Fault>
    requires { IsCallable room (F.pre item) }
    ensures { ReadsEach room (F.post item) (reading.read_all terminals.now) tokens.old result tokens.new }
{
    let mut found = List::new(alloc);
    'turns: for _ in 0..tokens.left() {
        if !tokens.sees_any(terminals) {
            return Ok(found);
        }
        found.add(item(alloc, tokens, room)?)?;
    }
    Ok(found)
}

/// A token for the terminal, and an item behind it.
fn next<T: Drop, F: Fn(Global, &mut Tokens<'_>, usize) -> Result<T, Fault>>(
    alloc: Global,
    tokens: &mut Tokens<'_>,
    room: usize,
    between: Terminal,
    item: &F,
) -> Result<T, Fault>
    requires { IsCallable room (F.pre item.now) }
    ensures { ReadsEach room (F.post item.now) (reading.read_behind between) tokens.old result tokens.new }
{
    tokens.take(between)?;
    item(alloc, tokens, room)
}

/// An item, and further ones with a token for the terminal between each two, behind those that were found
/// before.
pub fn separated_onto<T: Drop, F: Fn(Global, &mut Tokens<'_>, usize) -> Result<T, Fault>>(
    alloc: Global,
    tokens: &mut Tokens<'_>,
    room: usize,
    between: Terminal,
    before: List<T>,
    item: F,
) -> Result<List<T>, Fault>
    requires { IsCallable room (F.pre item) }
    ensures { ReadsEach room (F.post item) (reading.read_separated_onto between before) tokens.old result tokens.new }
{
    let mut found = before;
    found.add(item(alloc, tokens, room)?)?;
    'turns: for _ in 0..tokens.left() {
        if !tokens.sees(between) {
            return Ok(found);
        }
        found.add(next(alloc, tokens, room, between, &item)?)?;
    }
    Ok(found)
}

/// An item, and further ones with a token for the terminal between each two.
pub fn separated<T: Drop, F: Fn(Global, &mut Tokens<'_>, usize) -> Result<T, Fault>>(
    alloc: Global,
    tokens: &mut Tokens<'_>,
    room: usize,
    between: Terminal,
    item: F,
) -> Result<List<T>, Fault>
    requires { IsCallable room (F.pre item) }
    ensures { ReadsEach room (F.post item) (reading.read_separated between) tokens.old result tokens.new }
{
    separated_onto(alloc, tokens, room, between, List::new(alloc), item)
}

/// Items with commas between, two or more.
pub fn two_or_more<T: Drop, F: Fn(Global, &mut Tokens<'_>, usize) -> Result<T, Fault>>(
    alloc: Global,
    tokens: &mut Tokens<'_>,
    room: usize,
    item: F,
) -> Result<List<T>, Fault>
    requires { IsCallable room (F.pre item) }
    ensures { ReadsEach room (F.post item) reading.read_two_or_more tokens.old result tokens.new }
{
    let mut found = List::new(alloc);
    found.add(item(alloc, tokens, room)?)?;
    tokens.take(Terminal::Mark(Mark::Comma))?;
    separated_onto(
        alloc,
        tokens,
        room,
        Terminal::Mark(Mark::Comma),
        found,
        item,
    )
}

/// Items with commas between, or none where the next token is for none of the terminals.
pub fn commas_or_none<T: Drop, F: Fn(Global, &mut Tokens<'_>, usize) -> Result<T, Fault>>(
    alloc: Global,
    tokens: &mut Tokens<'_>,
    room: usize,
    terminals: &[Terminal],
    item: F,
) -> Result<List<T>, Fault>
    requires { IsCallable room (F.pre item) }
    ensures { ReadsEach room (F.post item) (reading.read_commas_or_none terminals.now) tokens.old result tokens.new }
{
    if tokens.sees_any(terminals) {
        separated(alloc, tokens, room, Terminal::Mark(Mark::Comma), item)
    } else {
        Ok(List::new(alloc))
    }
}
