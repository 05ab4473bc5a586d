ghost use Rattle.std.specs.Prelude.{◌≡◌};
ghost use Rattle.og_grammar.specs.Reads.{Reads};
ghost use Rattle.og_read.specs.Grammar as spec;

use og_grammar::{Fault, Terminal, Tokens, separated};
use og_lex::Mark;
use og_list::List;
use std::alloc::Global;

/// The bytes of a name.
#[tactic(auto, unfolding(crate::specs::Grammar::name))]
pub(crate) fn name(alloc: Global, tokens: &mut Tokens<'_>, _room: usize) -> Result<List<u8>, Fault>
    ensures { Reads spec.reads spec.name tokens.old result tokens.new }
{
    let name = tokens.spelled(alloc, Terminal::Name)?;
    Ok(List::from_slice(alloc, name.as_str().as_bytes())?)
}

/// The bytes of a text, without its quotes.
#[tactic(auto, unfolding(crate::specs::Grammar::quotation))]
pub(crate) fn quotation(alloc: Global, tokens: &mut Tokens<'_>) -> Result<List<u8>, Fault>
    ensures { Reads spec.reads spec.quotation tokens.old result tokens.new }
{
    let quotation = tokens.spelled(alloc, Terminal::Text)?;
    Ok(List::from_slice(alloc, inside_quotes(quotation.as_str().as_bytes()))?)
}

/// All but the first byte and the last.
fn inside_quotes(quotation: &[u8]) -> &[u8]
    ensures { result.now ≡ spec.inside_quotes quotation.now }
{
    match quotation {
        [_, inside @ .., _] => inside,
        _ => &[],
    }
}

/// `NAME, NAME, ..`, one or more.
#[tactic(auto, unfolding(crate::specs::Grammar::names))]
pub(crate) fn names(alloc: Global, tokens: &mut Tokens<'_>) -> Result<List<List<u8>>, Fault>
    ensures { Reads spec.reads spec.names tokens.old result tokens.new }
{
    separated(alloc, tokens, 0, Terminal::Mark(Mark::Comma), name)
}

/// The name `main`.
#[tactic(auto, unfolding(crate::specs::Grammar::main, og_grammar::specs::Reading::read_token, og_grammar::specs::Reading::next_spelling))]
pub(crate) fn main_name(tokens: &mut Tokens<'_>) -> Result<u32, Fault>
    ensures { Reads spec.reads spec.main tokens.old result tokens.new }
{
    if tokens.spelling().as_bytes() == b"main".as_slice() {
        tokens.take(Terminal::Name)
    } else {
        Err(Fault::Syntax(tokens.left()))
    }
}
