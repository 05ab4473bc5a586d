//! The way from a game expression to one in it.
ghost use Rattle.std.specs.Prelude.{◌≡◌};
ghost use Rattle.std.specs.Option.{option_copied};
ghost use Rattle.og_places.specs.Expressions.{level_at};
ghost use Rattle.og_places.specs.Places.{side_at, operation_at, line_at, part_at, subtree};

use crate::places::Step;
use og_list::List;
use og_syntax::{GameTree, LineTree};
use og_typing::{count_of, plus};
use og_wires::Level;

/// One of two parts.
fn side_at<'a>(left: &'a GameTree, right: &'a GameTree, step: Step) -> Option<&'a GameTree>
    ensures { option_copied result ≡ side_at left.now right.now step }
{
    match step {
        Step::Left => Some(left),
        Step::Right => Some(right),
        Step::Line(_) => None,
    }
}

/// The operation of the line at the position, from 1.
fn operation_at(lines: &List<LineTree>, k: u32) -> Option<&GameTree>
    ensures { option_copied result ≡ operation_at lines.now k }
{
    if k == 0 {
        return None;
    }
    match lines.get(k as usize - 1) {
        Some(line) => Some(&line.operation),
        None => None,
    }
}

/// The operation of a line.
fn line_at(lines: &List<LineTree>, step: Step) -> Option<&GameTree>
    ensures { option_copied result ≡ line_at lines.now step }
{
    match step {
        Step::Line(k) => operation_at(lines, k),
        Step::Left | Step::Right => None,
    }
}

/// The part of a game expression to which the step leads.
#[tactic(auto, using(crate::proofs::Forms::parts))]
fn part_at(game: &GameTree, step: Step) -> Option<&GameTree>
    ensures { option_copied result ≡ part_at game.now step }
{
    match game {
        GameTree::Seq(left, right) | GameTree::Par(left, right) => {
            side_at(left.get(), right.get(), step)
        }
        GameTree::Block { block, .. } => line_at(&block.get().lines, step),
        GameTree::Call { .. }
        | GameTree::Decision { .. }
        | GameTree::Nature { .. }
        | GameTree::Forward { .. }
        | GameTree::Backward { .. }
        | GameTree::Identity { .. }
        | GameTree::Library { .. }
        | GameTree::Branch { .. } => None,
    }
}

/// The game expression in a game expression to which the steps lead, one after another.
pub(crate) fn subtree<'a>(game: &'a GameTree, steps: &List<Step>) -> Option<&'a GameTree>
    ensures { option_copied result ≡ subtree steps.now game.now }
{
    let mut found = game;
    'steps: for step in steps.as_slice() {
        match part_at(found, *step) {
            Some(part) => found = part,
            None => return None,
        }
    }
    Some(found)
}

/// Where the game expression stands to which the steps lead from a body.
pub(crate) fn level_at(steps: &List<Step>) -> Level
    ensures { result ≡ level_at steps.now }
{
    Level {
        depth: plus(1, count_of(steps.len())),
        inside: 0,
    }
}
