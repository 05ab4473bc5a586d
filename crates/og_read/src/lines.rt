ghost use Rattle.og_grammar.specs.Reads.{Reads};
ghost use Rattle.og_read.specs.Grammar as spec;

use crate::lexemes::{name, quotation};
use crate::tables::table;
use og_grammar::{Fault, Terminal, Tokens, many};
use og_lex::{Mark, Word};
use og_list::List;
use og_small::{Key, Line, Row};
use std::alloc::Global;

/// `KEYWORD : ;`, or nothing.
#[tactic(auto, unfolding(crate::specs::Grammar::empty_field))]
pub(crate) fn empty_field(tokens: &mut Tokens<'_>, keyword: Word) -> Result<(), Fault>
    ensures { Reads spec.reads (spec.empty_field keyword) tokens.old result tokens.new }
{
    if tokens.sees(Terminal::Word(keyword)) {
        tokens.take(Terminal::Word(keyword))?;
        tokens.take(Terminal::Mark(Mark::Colon))?;
        tokens.take(Terminal::Mark(Mark::Semicolon))?;
    }
    Ok(())
}

/// `dependentDecision TEXT [] NAME`, for the agent and the type.
#[tactic(auto, unfolding(crate::specs::Grammar::decision))]
fn decision(alloc: Global, tokens: &mut Tokens<'_>) -> Result<(List<u8>, List<u8>), Fault>
    ensures { Reads spec.reads spec.decision tokens.old result tokens.new }
{
    tokens.take(Terminal::Word(Word::DependentDecision))?;
    let agent = quotation(alloc, tokens)?;
    tokens.take(Terminal::Mark(Mark::LeftBracket))?;
    tokens.take(Terminal::Mark(Mark::RightBracket))?;
    let action = name(alloc, tokens, 0)?;
    Ok((agent, action))
}

/// `operation : DECISION ;`
#[tactic(auto, unfolding(crate::specs::Grammar::operation))]
fn operation(alloc: Global, tokens: &mut Tokens<'_>) -> Result<(List<u8>, List<u8>), Fault>
    ensures { Reads spec.reads spec.operation tokens.old result tokens.new }
{
    tokens.take(Terminal::Word(Word::Operation))?;
    tokens.take(Terminal::Mark(Mark::Colon))?;
    let decision = decision(alloc, tokens)?;
    tokens.take(Terminal::Mark(Mark::Semicolon))?;
    Ok(decision)
}

/// `outputs : NAME ;`
#[tactic(auto, unfolding(crate::specs::Grammar::output))]
fn output(alloc: Global, tokens: &mut Tokens<'_>) -> Result<List<u8>, Fault>
    ensures { Reads spec.reads spec.output tokens.old result tokens.new }
{
    tokens.take(Terminal::Word(Word::Outputs))?;
    tokens.take(Terminal::Mark(Mark::Colon))?;
    let output = name(alloc, tokens, 0)?;
    tokens.take(Terminal::Mark(Mark::Semicolon))?;
    Ok(output)
}

/// `returns : TABLE`
#[tactic(auto, unfolding(crate::specs::Grammar::payment))]
fn payment(alloc: Global, tokens: &mut Tokens<'_>) -> Result<(List<Key>, List<Row>), Fault>
    ensures { Reads spec.reads spec.payment tokens.old result tokens.new }
{
    tokens.take(Terminal::Word(Word::Returns))?;
    tokens.take(Terminal::Mark(Mark::Colon))?;
    table(alloc, tokens)
}

/// A decision: what is empty, the operation, the output and the payment.
#[tactic(auto, unfolding(crate::specs::Grammar::line))]
fn line(alloc: Global, tokens: &mut Tokens<'_>, _room: usize) -> Result<Line, Fault>
    ensures { Reads spec.reads spec.line tokens.old result tokens.new }
{
    empty_field(tokens, Word::Inputs)?;
    empty_field(tokens, Word::Feedback)?;
    let (agent, action) = operation(alloc, tokens)?;
    let output = output(alloc, tokens)?;
    let (keys, rows) = payment(alloc, tokens)?;
    Ok(Line {
        agent,
        action,
        output,
        keys,
        rows,
    })
}

/// Lines, as many as there are.
#[tactic(auto, unfolding(crate::specs::Grammar::lines, crate::specs::Grammar::line, crate::specs::Grammar::empty_field, crate::specs::Grammar::operation))]
pub(crate) fn lines(alloc: Global, tokens: &mut Tokens<'_>) -> Result<List<Line>, Fault>
    ensures { Reads spec.reads spec.lines tokens.old result tokens.new }
{
    let begins = [
        Terminal::Word(Word::Inputs),
        Terminal::Word(Word::Feedback),
        Terminal::Word(Word::Operation),
    ];
    many(alloc, tokens, 0, &begins, line)
}
