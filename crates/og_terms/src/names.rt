ghost use Rattle.og_terms.specs.Rooms.{Reads};
ghost use Rattle.og_language.specs.Grammar as grammar;

use og_grammar::{Fault, Terminal, Tokens, commas_or_none, separated};
use og_lex::Mark;
use og_list::{List, Text};
use og_syntax::NameTree;
use std::alloc::Global;

/// A name.
#[tactic(auto, unfolding(og_language::specs::Grammar::name))]
pub fn name(alloc: Global, tokens: &mut Tokens<'_>, room: usize) -> Result<Text, Fault>
    ensures { Reads room grammar.name tokens.old result tokens.new }
{
    tokens.spelled(alloc, Terminal::Name)
}

/// A variable.
#[tactic(auto, unfolding(og_language::specs::Grammar::variable))]
pub fn variable(alloc: Global, tokens: &mut Tokens<'_>, room: usize) -> Result<Text, Fault>
    ensures { Reads room grammar.variable tokens.old result tokens.new }
{
    if tokens.sees(Terminal::Name) {
        tokens.spelled(alloc, Terminal::Name)
    } else {
        tokens.spelled(alloc, Terminal::Under)
    }
}

/// A variable with its place.
#[tactic(auto, unfolding(og_language::specs::Grammar::name_tree))]
pub fn name_tree(alloc: Global, tokens: &mut Tokens<'_>, room: usize) -> Result<NameTree, Fault>
    ensures { Reads room grammar.name_tree tokens.old result tokens.new }
{
    let at = tokens.place();
    let name = variable(alloc, tokens, room)?;
    Ok(NameTree { at, name })
}

/// A name with its place.
#[tactic(auto, unfolding(og_language::specs::Grammar::placed_name))]
pub fn placed_name(alloc: Global, tokens: &mut Tokens<'_>, room: usize) -> Result<NameTree, Fault>
    ensures { Reads room grammar.placed_name tokens.old result tokens.new }
{
    let at = tokens.place();
    let name = name(alloc, tokens, room)?;
    Ok(NameTree { at, name })
}

/// A text in quotes with its place, as what stands between the quotes.
#[tactic(auto, unfolding(og_language::specs::Grammar::placed_quoted))]
pub fn placed_quoted(alloc: Global, tokens: &mut Tokens<'_>, room: usize) -> Result<NameTree, Fault>
    ensures { Reads room grammar.placed_quoted tokens.old result tokens.new }
{
    let at = tokens.place();
    let name = tokens.quoted(alloc)?;
    Ok(NameTree { at, name })
}

/// Variables with commas between, or none.
pub fn names_or_none(
    alloc: Global,
    tokens: &mut Tokens<'_>,
    room: usize,
) -> Result<List<NameTree>, Fault>
    ensures { Reads room grammar.names_or_none tokens.old result tokens.new }
{
    commas_or_none(
        alloc,
        tokens,
        room,
        &[Terminal::Name, Terminal::Under],
        name_tree,
    )
}

/// Names with commas between, one or more.
pub fn some_names(
    alloc: Global,
    tokens: &mut Tokens<'_>,
    room: usize,
) -> Result<List<NameTree>, Fault>
    ensures { Reads room grammar.some_names tokens.old result tokens.new }
{
    separated(
        alloc,
        tokens,
        room,
        Terminal::Mark(Mark::Comma),
        placed_name,
    )
}

/// A number that isn't 0.
#[tactic(auto, unfolding(og_language::specs::Grammar::nonzero, og_grammar::specs::Reading::read_token, og_grammar::specs::Reading::next_value))]
pub fn nonzero(tokens: &mut Tokens<'_>, room: usize) -> Result<u64, Fault>
    ensures { Reads room grammar.nonzero tokens.old result tokens.new }
{
    if tokens.value() == 0 {
        return Err(Fault::Syntax(tokens.left()));
    }
    tokens.number()
}

/// A whole number, with a minus before it or not.
#[tactic(auto, unfolding(og_language::specs::Grammar::bound))]
pub(crate) fn bound(tokens: &mut Tokens<'_>, room: usize) -> Result<i64, Fault>
    ensures { Reads room grammar.bound tokens.old result tokens.new }
{
    if tokens.sees(Terminal::Mark(Mark::Minus)) {
        tokens.take(Terminal::Mark(Mark::Minus))?;
        let size = tokens.number()?;
        Ok(0 - size as i64)
    } else {
        let size = tokens.number()?;
        Ok(size as i64)
    }
}
