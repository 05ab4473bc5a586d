ghost use Rattle.og_terms.specs.Rooms.{Reads};
ghost use Rattle.og_language.specs.Grammar as grammar;

use crate::inner::Inner;
use og_grammar::{Fault, Tokens};
use og_syntax::GameTree;
use std::alloc::Global;

/// A game, in which branches may stand or not. Where no room is left, nothing is read.
#[tactic(auto, using(og_terms::proofs::Rooms::symbol_reads, og_terms::proofs::Rooms::no_room))]
pub(crate) fn game(
    alloc: Global,
    tokens: &mut Tokens<'_>,
    room: usize,
    branches: bool,
) -> Result<GameTree, Fault>
    ensures { Reads room (grammar.subgame branches) tokens.old result tokens.new }
{
    if room == 0 {
        return Err(Fault::Syntax(tokens.left()));
    }
    let inner = Inner {
        alloc,
        room: room - 1,
        branches,
        game,
    };
    inner.game_rule(tokens)
}
