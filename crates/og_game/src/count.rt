//! How many decisions a game has, as a number that stands still at 2^32 - 1.
ghost use Rattle.std.specs.Prelude.{◌≡◌, sum_by};
ghost use Rattle.og_expr.specs.Counts.{capped};
ghost use Rattle.og_game.specs.Plans.{plan_of};
ghost use Rattle.og_game.specs.Counts.{decisions_in};

use crate::node::{Arm, GameNode, GameNodeOf, Line};
use og_list::List;

fn in_lines(lines: &List<Line>) -> u32
    ensures { result ≡ capped (sum_by (λ line. decisions_in line.operation) lines.now) }
{
    let mut all = 0_u32;
    'lines: for line in lines.as_slice() {
        all = all.saturating_add(line.operation.decisions());
    }
    all
}

fn in_arms(arms: &List<Arm>) -> u32
    ensures { result ≡ capped (sum_by (λ arm. decisions_in arm.game) arms.now) }
{
    let mut all = 0_u32;
    'arms: for arm in arms.as_slice() {
        all = all.saturating_add(arm.game.decisions());
    }
    all
}

/// How many decisions a game of the form has.
#[tactic(auto, using(crate::proofs::Decisions::decisions_of_node, crate::proofs::Decisions::decisions_of_block, crate::proofs::Decisions::decisions_of_branch))]
pub(crate) fn decisions(node: &GameNode) -> u32
    ensures { result ≡ capped (decisions_in (plan_of node.now)) }
{
    match node {
        GameNodeOf::Decision { .. } => 1,
        GameNodeOf::Seq(left, right) | GameNodeOf::Par(left, right) => {
            left.get()
                .decisions()
                .saturating_add(right.get().decisions())
        }
        GameNodeOf::Block(block) => in_lines(&block.get().lines),
        GameNodeOf::Branch { arms, .. } => in_arms(arms),
        _ => 0,
    }
}
