ghost use Rattle.std.specs.Prelude.{All, IfOk};
ghost use Rattle.og_lex.specs.Spelling.{IsTokenOf};
ghost use Rattle.og_grammar.specs.Reads.{Reads};
ghost use Rattle.og_read.specs.Grammar as spec;
ghost use Rattle.og_read.specs.Spelled.{FindsStrategy};

use crate::lexemes::{name, quotation};
use og_grammar::{Fault, Terminal, Tokens, many};
use og_lex::{Mark, Token, Word};
use og_list::List;
use og_small::Section;
use std::alloc::{AllocError, Global};

/// `() -> NAME;`
#[tactic(auto, unfolding(crate::specs::Grammar::choice))]
fn choice(alloc: Global, tokens: &mut Tokens<'_>) -> Result<List<u8>, Fault>
    ensures { Reads spec.reads spec.choice tokens.old result tokens.new }
{
    tokens.take(Terminal::Mark(Mark::LeftParen))?;
    tokens.take(Terminal::Mark(Mark::RightParen))?;
    tokens.take(Terminal::Mark(Mark::Arrow))?;
    let choice = name(alloc, tokens, 0)?;
    tokens.take(Terminal::Mark(Mark::Semicolon))?;
    Ok(choice)
}

/// `strategy TEXT { () -> NAME; }`
#[tactic(auto, unfolding(crate::specs::Grammar::section))]
fn section(alloc: Global, tokens: &mut Tokens<'_>, _room: usize) -> Result<Section, Fault>
    ensures { Reads spec.reads spec.section tokens.old result tokens.new }
{
    tokens.take(Terminal::Word(Word::Strategy))?;
    let agent = quotation(alloc, tokens)?;
    tokens.take(Terminal::Mark(Mark::LeftBrace))?;
    let choice = choice(alloc, tokens)?;
    tokens.take(Terminal::Mark(Mark::RightBrace))?;
    Ok(Section { agent, choice })
}

/// Sections, as many as there are.
#[tactic(auto, unfolding(crate::specs::Grammar::strategy, crate::specs::Grammar::section))]
fn strategy(alloc: Global, tokens: &mut Tokens<'_>) -> Result<List<Section>, Fault>
    ensures { Reads spec.reads spec.strategy tokens.old result tokens.new }
{
    many(alloc, tokens, 0, &[Terminal::Word(Word::Strategy)], section)
}

/// Reads the tokens, which are tokens of the text, as the sections of a strategy. The answer is `None`
/// exactly where they are none.
pub fn read_strategy(
    alloc: Global,
    text: &str,
    tokens: &[Token],
) -> Result<Option<List<Section>>, AllocError>
    requires { All (IsTokenOf text.now) tokens.now }
    ensures { IfOk result (FindsStrategy text.now tokens.now) }
{
    let mut rest = Tokens::new(text, tokens);
    match strategy(alloc, &mut rest) {
        Ok(sections) => {
            if rest.is_done() {
                Ok(Some(sections))
            } else {
                Ok(None)
            }
        }
        Err(Fault::Syntax(_)) => Ok(None),
        Err(Fault::Memory) => Err(AllocError),
    }
}
