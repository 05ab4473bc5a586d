ghost use Rattle.og_terms.specs.Rooms.{Reads};
ghost use Rattle.og_language.specs.Grammar as grammar;

use og_grammar::{Fault, Terminal, Tokens};
use og_lex::{Mark, Word};
use og_list::List;
use og_syntax::{ExprTree, NameTree, ParamTree, ResultTree};
use og_terms::{exprs_or_none, names_or_none, params, results};
use std::alloc::Global;

/// `KEYWORD : PARAMS ;`, or nothing.
#[tactic(auto, unfolding(og_language::specs::Grammar::params_field))]
pub(crate) fn params_field(
    alloc: Global,
    tokens: &mut Tokens<'_>,
    room: usize,
    keyword: Word,
) -> Result<List<ParamTree>, Fault>
    ensures { Reads room (grammar.params_field keyword) tokens.old result tokens.new }
{
    if !tokens.sees(Terminal::Word(keyword)) {
        return Ok(List::new(alloc));
    }
    tokens.take(Terminal::Word(keyword))?;
    tokens.take(Terminal::Mark(Mark::Colon))?;
    let items = params(alloc, tokens, room)?;
    tokens.take(Terminal::Mark(Mark::Semicolon))?;
    Ok(items)
}

/// `KEYWORD : RESULTS ;`, or nothing.
#[tactic(auto, unfolding(og_language::specs::Grammar::results_field))]
pub(crate) fn results_field(
    alloc: Global,
    tokens: &mut Tokens<'_>,
    room: usize,
    keyword: Word,
) -> Result<List<ResultTree>, Fault>
    ensures { Reads room (grammar.results_field keyword) tokens.old result tokens.new }
{
    if !tokens.sees(Terminal::Word(keyword)) {
        return Ok(List::new(alloc));
    }
    tokens.take(Terminal::Word(keyword))?;
    tokens.take(Terminal::Mark(Mark::Colon))?;
    let items = results(alloc, tokens, room)?;
    tokens.take(Terminal::Mark(Mark::Semicolon))?;
    Ok(items)
}

/// `KEYWORD : EXPRESSIONS ;`, or nothing.
#[tactic(auto, unfolding(og_language::specs::Grammar::exprs_field))]
pub(crate) fn exprs_field(
    alloc: Global,
    tokens: &mut Tokens<'_>,
    room: usize,
    keyword: Word,
) -> Result<List<ExprTree>, Fault>
    ensures { Reads room (grammar.exprs_field keyword) tokens.old result tokens.new }
{
    if !tokens.sees(Terminal::Word(keyword)) {
        return Ok(List::new(alloc));
    }
    tokens.take(Terminal::Word(keyword))?;
    tokens.take(Terminal::Mark(Mark::Colon))?;
    let items = exprs_or_none(alloc, tokens, room)?;
    tokens.take(Terminal::Mark(Mark::Semicolon))?;
    Ok(items)
}

/// `KEYWORD : VARIABLES ;`, or nothing.
#[tactic(auto, unfolding(og_language::specs::Grammar::names_field))]
pub(crate) fn names_field(
    alloc: Global,
    tokens: &mut Tokens<'_>,
    room: usize,
    keyword: Word,
) -> Result<List<NameTree>, Fault>
    ensures { Reads room (grammar.names_field keyword) tokens.old result tokens.new }
{
    if !tokens.sees(Terminal::Word(keyword)) {
        return Ok(List::new(alloc));
    }
    tokens.take(Terminal::Word(keyword))?;
    tokens.take(Terminal::Mark(Mark::Colon))?;
    let items = names_or_none(alloc, tokens, room)?;
    tokens.take(Terminal::Mark(Mark::Semicolon))?;
    Ok(items)
}
