//! Which actions a decision allows.
ghost use Rattle.std.specs.Prelude.{◌≡◌, flat_map, true};
ghost use Rattle.std.specs.Option.{option_copied, option_map};
ghost use Rattle.og_game.specs.declared.node.GameNodeOf.TheVariants as GameNodeOf;
ghost use Rattle.og_game.specs.Plans.{plan_of};
ghost use Rattle.og_game.specs.Wired.{observations, values};
ghost use Rattle.og_game.specs.Choices.{choices_of, numbered, allowed_at, set_at};

use crate::game::Game;
use crate::node::{Arm, GameNodeOf, Line};
use og_list::List;
use og_types::{Ty, joint_count};

/// What the game, a decision of these types and sets, allows at the observation.
#[tactic(auto, using(crate::proofs::Found::is_counted, crate::proofs::Found::all_of_node))]
fn set_at<'a>(
    game: &'a Game,
    number: u32,
    agent: u32,
    observes: &List<Ty>,
    action: &Ty,
    allowed: &'a Option<List<List<u32>>>,
    seen: u32,
) -> Option<&'a [u32]>
    requires { game.now ≡ plan_of (GameNodeOf.Decision number agent observes.now action.now allowed.now) }
    ensures { option_copied result ≡ set_at (observations observes.now) (values action.now) allowed.now seen }
{
    match allowed {
        Some(sets) => match sets.get(seen as usize) {
            Some(set) => Some(set.as_slice()),
            None => None,
        },
        None => match joint_count(observes) {
            Some(many) if seen < many => Some(game.all.as_slice()),
            _ => None,
        },
    }
}

#[cycle(finding)]
#[tactic(auto, using(crate::proofs::Found::found_later, crate::proofs::Found::found_here))]
fn in_lines(lines: &List<Line>, d: u32, seen: u32) -> Option<Option<&[u32]>>
    ensures { option_map option_copied result
        ≡ option_map (allowed_at seen) (numbered d (flat_map (λ line. choices_of line.operation) lines.now)) }
{
    'lines: for line in lines.as_slice() {
        if let Some(found) = answer(&line.operation, d, seen) {
            return Some(found);
        }
    }
    None
}

#[cycle(finding)]
#[tactic(auto, using(crate::proofs::Found::found_later, crate::proofs::Found::found_here))]
fn in_arms(arms: &List<Arm>, d: u32, seen: u32) -> Option<Option<&[u32]>>
    ensures { option_map option_copied result
        ≡ option_map (allowed_at seen) (numbered d (flat_map (λ arm. choices_of arm.game) arms.now)) }
{
    'arms: for arm in arms.as_slice() {
        if let Some(found) = answer(&arm.game, d, seen) {
            return Some(found);
        }
    }
    None
}

/// What the first decision of the game with the number allows at the observation, where there is such a decision.
#[cycle(finding)]
#[tactic(auto, using(crate::proofs::Found::found_in_node, crate::proofs::Found::found_in_seq, crate::proofs::Found::found_in_par, crate::proofs::Found::choices_of_block, crate::proofs::Found::choices_of_branch))]
pub(crate) fn answer(game: &Game, d: u32, seen: u32) -> Option<Option<&[u32]>>
    ensures { option_map option_copied result ≡ option_map (allowed_at seen) (numbered d (choices_of game.now)) }
{
    match &game.node {
        GameNodeOf::Decision {
            number,
            agent,
            observes,
            action,
            allowed,
        } => {
            if *number == d {
                Some(set_at(game, *number, *agent, observes, action, allowed, seen))
            } else {
                None
            }
        }
        GameNodeOf::Seq(left, right) | GameNodeOf::Par(left, right) => {
            match answer(left.get(), d, seen) {
                Some(found) => Some(found),
                None => answer(right.get(), d, seen),
            }
        }
        GameNodeOf::Block(block) => in_lines(&block.get().lines, d, seen),
        GameNodeOf::Branch { arms, .. } => in_arms(arms, d, seen),
        _ => None,
    }
}
