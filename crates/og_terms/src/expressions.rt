ghost use Rattle.og_terms.specs.Rooms.{Reads};
ghost use Rattle.og_language.specs.Grammar as grammar;

use crate::inner::Inner;
use og_grammar::{Fault, Terminal, Tokens, commas_or_none};
use og_lex::{Mark, Word};
use og_list::List;
use og_syntax::{ExprTree, ResultTree};
use std::alloc::Global;

/// An expression. Where no room is left, nothing is read.
#[tactic(auto, using(crate::proofs::Rooms::symbol_reads, crate::proofs::Rooms::no_room))]
pub fn expr(alloc: Global, tokens: &mut Tokens<'_>, room: usize) -> Result<ExprTree, Fault>
    ensures { Reads room grammar.expr tokens.old result tokens.new }
{
    if room == 0 {
        return Err(Fault::Syntax(tokens.left()));
    }
    let inner = Inner {
        alloc,
        room: room - 1,
        expr,
    };
    inner.expression_rule(tokens)
}

/// Expressions with commas between, or none.
pub fn exprs_or_none(
    alloc: Global,
    tokens: &mut Tokens<'_>,
    room: usize,
) -> Result<List<ExprTree>, Fault>
    ensures { Reads room grammar.exprs_or_none tokens.old result tokens.new }
{
    let inner = Inner { alloc, room, expr };
    inner.exprs_or_none(tokens)
}

/// `EXPRESSION : TYPE`
pub fn result(alloc: Global, tokens: &mut Tokens<'_>, room: usize) -> Result<ResultTree, Fault>
    ensures { Reads room grammar.result tokens.old result tokens.new }
{
    let inner = Inner { alloc, room, expr };
    inner.result(tokens)
}

/// Results with commas between, or none.
pub fn results(
    alloc: Global,
    tokens: &mut Tokens<'_>,
    room: usize,
) -> Result<List<ResultTree>, Fault>
    ensures { Reads room grammar.results tokens.old result tokens.new }
{
    let begins = [
        Terminal::Word(Word::Not),
        Terminal::Mark(Mark::Minus),
        Terminal::Number,
        Terminal::Name,
        Terminal::Under,
        Terminal::Word(Word::True),
        Terminal::Word(Word::False),
        Terminal::Mark(Mark::LeftParen),
        Terminal::Word(Word::If),
        Terminal::Word(Word::Table),
        Terminal::Word(Word::Ratio),
        Terminal::Word(Word::Min),
        Terminal::Word(Word::Max),
        Terminal::Word(Word::Clamp),
    ];
    commas_or_none(alloc, tokens, room, &begins, result)
}
