//! Where games begin.
ghost use Rattle.std.specs.Prelude.{◌≡◌};
ghost use Rattle.og_wires.specs.Games.{game_place};

use og_syntax::GameTree;

/// The place where the game begins.
#[tactic(auto, using(crate::proofs::Walked::places))]
pub fn game_at(game: &GameTree) -> u32
    ensures { result ≡ game_place game.now }
{
    match game {
        GameTree::Seq(first, _) | GameTree::Par(first, _) => game_at(first.get()),
        GameTree::Call { at, .. }
        | GameTree::Block { at, .. }
        | GameTree::Decision { at, .. }
        | GameTree::Nature { at, .. }
        | GameTree::Forward { at, .. }
        | GameTree::Backward { at, .. }
        | GameTree::Identity { at, .. }
        | GameTree::Library { at, .. }
        | GameTree::Branch { at, .. } => *at,
    }
}
