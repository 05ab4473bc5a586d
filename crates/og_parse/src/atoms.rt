ghost use Rattle.og_terms.specs.Rooms.{Reads};
ghost use Rattle.og_language.specs.Grammar as grammar;

use og_grammar::{Fault, Terminal, Tokens, many, separated, with};
use og_lex::{Mark, Word};
use og_list::List;
use og_syntax::{AgentTree, Among, AmongTree, ArgTree, GameTree, ParamTree, ResultTree, TyTree};
use og_terms::{
    key, name, params, placed_name, results, rows, some_values, ty, type_list, value, variable,
};
use std::alloc::Global;

/// An agent in quotes, a parameter or a value.
#[tactic(auto, unfolding(og_language::specs::Grammar::argument))]
fn argument(alloc: Global, tokens: &mut Tokens<'_>, room: usize) -> Result<ArgTree, Fault>
    ensures { Reads room grammar.argument tokens.old result tokens.new }
{
    let at = tokens.place();
    if tokens.sees(Terminal::Text) {
        let name = tokens.quoted(alloc)?;
        Ok(ArgTree::Quoted(at, name))
    } else if tokens.sees(Terminal::Under) {
        let name = tokens.spelled(alloc, Terminal::Under)?;
        Ok(ArgTree::Var(at, name))
    } else {
        Ok(ArgTree::Val(value(alloc, tokens, room)?))
    }
}

/// Arguments with commas between, one or more.
fn some_arguments(
    alloc: Global,
    tokens: &mut Tokens<'_>,
    room: usize,
) -> Result<List<ArgTree>, Fault>
    ensures { Reads room grammar.some_arguments tokens.old result tokens.new }
{
    separated(alloc, tokens, room, Terminal::Mark(Mark::Comma), argument)
}

/// `( ARGUMENT , .. )`
#[tactic(auto, unfolding(og_language::specs::Grammar::arguments))]
fn arguments(alloc: Global, tokens: &mut Tokens<'_>, room: usize) -> Result<List<ArgTree>, Fault>
    ensures { Reads room grammar.arguments tokens.old result tokens.new }
{
    tokens.take(Terminal::Mark(Mark::LeftParen))?;
    let args = some_arguments(alloc, tokens, room)?;
    tokens.take(Terminal::Mark(Mark::RightParen))?;
    Ok(args)
}

/// A game by its name, with arguments or without.
#[tactic(auto, unfolding(og_language::specs::Grammar::call, og_language::specs::Grammar::arguments))]
pub(crate) fn call(alloc: Global, tokens: &mut Tokens<'_>, room: usize) -> Result<GameTree, Fault>
    ensures { Reads room grammar.call tokens.old result tokens.new }
{
    let at = tokens.place();
    let name = name(alloc, tokens, room)?;
    let args = if tokens.sees(Terminal::Mark(Mark::LeftParen)) {
        arguments(alloc, tokens, room)?
    } else {
        List::new(alloc)
    };
    Ok(GameTree::Call { at, name, args })
}

/// An agent in quotes, or a parameter.
#[tactic(auto, unfolding(og_language::specs::Grammar::agent))]
fn agent(alloc: Global, tokens: &mut Tokens<'_>, room: usize) -> Result<AgentTree, Fault>
    ensures { Reads room grammar.agent tokens.old result tokens.new }
{
    let at = tokens.place();
    if tokens.sees(Terminal::Text) {
        let name = tokens.quoted(alloc)?;
        Ok(AgentTree::Quoted(at, name))
    } else {
        let name = variable(alloc, tokens, room)?;
        Ok(AgentTree::Var(at, name))
    }
}

/// `KEY -> VALUE , .. ;`
#[tactic(auto, unfolding(og_language::specs::Grammar::among_row))]
fn among_row(alloc: Global, tokens: &mut Tokens<'_>, room: usize) -> Result<AmongTree, Fault>
    ensures { Reads room grammar.among_row tokens.old result tokens.new }
{
    let (at, key) = key(alloc, tokens, room)?;
    tokens.take(Terminal::Mark(Mark::Arrow))?;
    let actions = some_values(alloc, tokens, room)?;
    tokens.take(Terminal::Mark(Mark::Semicolon))?;
    Ok(AmongTree { at, key, actions })
}

/// Rows of allowed actions, as many as there are.
fn among_rows(alloc: Global, tokens: &mut Tokens<'_>, room: usize) -> Result<List<AmongTree>, Fault>
    ensures { Reads room grammar.among_rows tokens.old result tokens.new }
{
    many(
        alloc,
        tokens,
        room,
        &[Terminal::Mark(Mark::LeftParen)],
        among_row,
    )
}

/// `among { AMONG_ROW .. }`
#[tactic(auto, unfolding(og_language::specs::Grammar::among))]
fn among(alloc: Global, tokens: &mut Tokens<'_>, room: usize) -> Result<Among, Fault>
    ensures { Reads room grammar.among tokens.old result tokens.new }
{
    let at = tokens.take(Terminal::Word(Word::Among))?;
    tokens.take(Terminal::Mark(Mark::LeftBrace))?;
    let rows = among_rows(alloc, tokens, room)?;
    tokens.take(Terminal::Mark(Mark::RightBrace))?;
    Ok(Among { at, rows })
}

/// The allowed actions, where they are written.
#[tactic(auto, unfolding(og_language::specs::Grammar::among_or_all, og_language::specs::Grammar::among))]
fn among_or_all(alloc: Global, tokens: &mut Tokens<'_>, room: usize) -> Result<Option<Among>, Fault>
    ensures { Reads room grammar.among_or_all tokens.old result tokens.new }
{
    if tokens.sees(Terminal::Word(Word::Among)) {
        Ok(Some(among(alloc, tokens, room)?))
    } else {
        Ok(None)
    }
}

/// `dependentDecision AGENT TYPES TYPE`, with its allowed actions or without.
#[tactic(auto, unfolding(og_language::specs::Grammar::decision, og_language::specs::Grammar::decided))]
pub(crate) fn decision(
    alloc: Global,
    tokens: &mut Tokens<'_>,
    room: usize,
) -> Result<GameTree, Fault>
    ensures { Reads room grammar.decision tokens.old result tokens.new }
{
    let at = tokens.take(Terminal::Word(Word::DependentDecision))?;
    let (agent, observes) = with(agent(alloc, tokens, room)?, type_list(alloc, tokens, room))?;
    let (action, among) = with(ty(alloc, tokens, room)?, among_or_all(alloc, tokens, room))?;
    Ok(GameTree::Decision {
        at,
        agent,
        observes,
        action,
        among,
    })
}

/// `nature TYPES TYPE ROWS`
#[tactic(auto, unfolding(og_language::specs::Grammar::nature))]
pub(crate) fn nature(alloc: Global, tokens: &mut Tokens<'_>, room: usize) -> Result<GameTree, Fault>
    ensures { Reads room grammar.nature tokens.old result tokens.new }
{
    let at = tokens.take(Terminal::Word(Word::Nature))?;
    let observes = type_list(alloc, tokens, room)?;
    let (outcome, rows) = with(ty(alloc, tokens, room)?, rows(alloc, tokens, room))?;
    Ok(GameTree::Nature {
        at,
        observes,
        outcome,
        rows,
    })
}

/// `( PARAMS )`
#[tactic(auto, unfolding(og_language::specs::Grammar::params_in_brackets))]
pub(crate) fn params_in_brackets(
    alloc: Global,
    tokens: &mut Tokens<'_>,
    room: usize,
) -> Result<List<ParamTree>, Fault>
    ensures { Reads room grammar.params_in_brackets tokens.old result tokens.new }
{
    tokens.take(Terminal::Mark(Mark::LeftParen))?;
    let params = params(alloc, tokens, room)?;
    tokens.take(Terminal::Mark(Mark::RightParen))?;
    Ok(params)
}

/// `( RESULTS )`
#[tactic(auto, unfolding(og_language::specs::Grammar::results_in_brackets))]
fn results_in_brackets(
    alloc: Global,
    tokens: &mut Tokens<'_>,
    room: usize,
) -> Result<List<ResultTree>, Fault>
    ensures { Reads room grammar.results_in_brackets tokens.old result tokens.new }
{
    tokens.take(Terminal::Mark(Mark::LeftParen))?;
    let results = results(alloc, tokens, room)?;
    tokens.take(Terminal::Mark(Mark::RightParen))?;
    Ok(results)
}

/// `( PARAMS ) -> ( RESULTS )`
#[tactic(auto, unfolding(og_language::specs::Grammar::signature))]
fn signature(
    alloc: Global,
    tokens: &mut Tokens<'_>,
    room: usize,
) -> Result<(List<ParamTree>, List<ResultTree>), Fault>
    ensures { Reads room grammar.signature tokens.old result tokens.new }
{
    let params = params_in_brackets(alloc, tokens, room)?;
    tokens.take(Terminal::Mark(Mark::Arrow))?;
    let results = results_in_brackets(alloc, tokens, room)?;
    Ok((params, results))
}

/// `forwardFunction SIGNATURE`, or `backwardFunction SIGNATURE`.
#[tactic(auto, unfolding(og_language::specs::Grammar::function))]
pub(crate) fn function(
    alloc: Global,
    tokens: &mut Tokens<'_>,
    room: usize,
) -> Result<GameTree, Fault>
    ensures { Reads room grammar.function tokens.old result tokens.new }
{
    if tokens.sees(Terminal::Word(Word::ForwardFunction)) {
        let at = tokens.take(Terminal::Word(Word::ForwardFunction))?;
        let (params, results) = signature(alloc, tokens, room)?;
        Ok(GameTree::Forward {
            at,
            params,
            results,
        })
    } else {
        let at = tokens.take(Terminal::Word(Word::BackwardFunction))?;
        let (params, results) = signature(alloc, tokens, room)?;
        Ok(GameTree::Backward {
            at,
            params,
            results,
        })
    }
}

/// `identity TYPES TYPES`
#[tactic(auto, unfolding(og_language::specs::Grammar::identity))]
pub(crate) fn identity(
    alloc: Global,
    tokens: &mut Tokens<'_>,
    room: usize,
) -> Result<GameTree, Fault>
    ensures { Reads room grammar.identity tokens.old result tokens.new }
{
    let at = tokens.take(Terminal::Word(Word::Identity))?;
    let forward = type_list(alloc, tokens, room)?;
    let backward = type_list(alloc, tokens, room)?;
    Ok(GameTree::Identity {
        at,
        forward,
        backward,
    })
}

/// `library NAME`
#[tactic(auto, unfolding(og_language::specs::Grammar::library))]
pub(crate) fn library(
    alloc: Global,
    tokens: &mut Tokens<'_>,
    room: usize,
) -> Result<GameTree, Fault>
    ensures { Reads room grammar.library tokens.old result tokens.new }
{
    let at = tokens.take(Terminal::Word(Word::Library))?;
    let name = placed_name(alloc, tokens, room)?;
    Ok(GameTree::Library { at, name })
}
