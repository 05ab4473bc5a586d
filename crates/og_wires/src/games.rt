//! Written games.
ghost use Rattle.std.specs.Prelude.{◌≡◌, ◌++◌, true, false, map, IfOk};
ghost use Rattle.og_game.specs.Wired.{beside};
ghost use Rattle.og_types.specs.Values.{IsSmall};
ghost use Rattle.og_typing.specs.Checked.{Walks, in_turn};
ghost use Rattle.og_wires.specs.Sites.{site_of};
ghost use Rattle.og_wires.specs.Levels.{line_with, arm_with};
ghost use Rattle.og_wires.specs.Forms.{is_atom};
ghost use Rattle.og_wires.specs.Games.{part_of, game_walk, rule_walk, both_sizes, meet, seq_kind, par_kind, lines_walk, arm_walk};

use crate::atoms::{
    walk_backward, walk_call, walk_decision, walk_forward, walk_identity, walk_library, walk_nature,
};
use crate::block::{Lines, Start, hand_over, name_line, walk_rest, walk_start};
use crate::branch::{Arms, Selected, take_key, walk_arms_end, walk_selector, with_arm};
use crate::kind::{GameKind, Level, Size};
use crate::place::game_at;
use crate::sites::{Site, alone, below, inside, with_part};
use og_list::List;
use og_names::Names;
use og_native::Ports;
use og_syntax::{ArmTree, GameTree, LineTree};
use og_types::Ty;
use og_typing::WireFault;
use std::alloc::{AllocError, Global};

fn both_sizes(level: Level, left: Size, right: Size) -> Size
    ensures { result ≡ both_sizes level left right }
{
    with_part(with_part(alone(level), left), right)
}

/// What goes out of the left on both sides is as much as goes into the right, and of the same types.
fn meet(at: u32, left: &Ports, right: &Ports) -> Result<(), WireFault>
    ensures { Walks (meet at left.now right.now) result }
{
    if left.outputs.len() != right.inputs.len() || left.returns.len() != right.feedback.len() {
        return Err(WireFault::WrongCount(at));
    }
    if left.outputs != right.inputs || left.returns != right.feedback {
        return Err(WireFault::WrongType(at));
    }
    Ok(())
}

/// One game after another, which meet.
fn in_turn(at: u32, level: Level, left: GameKind, right: GameKind) -> Result<GameKind, WireFault>
    ensures { Walks (seq_kind at level left right) result }
{
    meet(at, &left.ports, &right.ports)?;
    let size = both_sizes(level, left.size, right.size);
    Ok(GameKind {
        ports: Ports {
            inputs: left.ports.inputs,
            feedback: left.ports.feedback,
            outputs: right.ports.outputs,
            returns: right.ports.returns,
        },
        size,
    })
}

/// The types of both lists.
fn joined(alloc: Global, first: List<Ty>, second: &List<Ty>) -> Result<List<Ty>, AllocError>
    ensures { IfOk result (λ types. types ≡ first ++ second.now) }
{
    let mut types = first;
    'second: for ty in second.as_slice() {
        types.add(ty.copy(alloc)?)?;
    }
    Ok(types)
}

fn beside(alloc: Global, left: Ports, right: &Ports) -> Result<Ports, AllocError>
    ensures { IfOk result (λ ports. ports ≡ beside left right.now) }
{
    Ok(Ports {
        inputs: joined(alloc, left.inputs, &right.inputs)?,
        feedback: joined(alloc, left.feedback, &right.feedback)?,
        outputs: joined(alloc, left.outputs, &right.outputs)?,
        returns: joined(alloc, left.returns, &right.returns)?,
    })
}

/// One game beside another.
fn side_by_side(
    alloc: Global,
    level: Level,
    left: GameKind,
    right: GameKind,
) -> Result<GameKind, AllocError>
    ensures { IfOk result (λ made. made ≡ par_kind level left right) }
{
    let size = both_sizes(level, left.size, right.size);
    Ok(GameKind {
        ports: beside(alloc, left.ports, &right.ports)?,
        size,
    })
}

/// The ports of a game where it stands, with how large it is.
#[cycle(walking)]
#[tactic(auto, using(crate::proofs::Walked::walk_out))]
pub fn walk_game(
    alloc: Global,
    game: &GameTree,
    site: &Site<'_>,
    level: Level,
) -> Result<GameKind, WireFault>
    ensures { Walks (game_walk game.now (site_of site.now) level) result }
{
    if level.depth > 48 {
        return Err(WireFault::TooBig(game_at(game)));
    }
    match game {
        GameTree::Seq(..) | GameTree::Par(..) | GameTree::Block { .. } | GameTree::Branch { .. } =>
            { walk_composed(alloc, game, site, level) }
        GameTree::Call { .. }
        | GameTree::Decision { .. }
        | GameTree::Nature { .. }
        | GameTree::Forward { .. }
        | GameTree::Backward { .. }
        | GameTree::Identity { .. }
        | GameTree::Library { .. } => walk_atom(alloc, game, site, level),
    }
}

/// A game without parts.
#[tactic(auto, using(crate::proofs::Walked::atoms), unfolding(crate::specs::Games::game_rule))]
fn walk_atom(
    alloc: Global,
    game: &GameTree,
    site: &Site<'_>,
    level: Level,
) -> Result<GameKind, WireFault>
    requires { is_atom game.now ≡ true }
    ensures { Walks (rule_walk game.now (site_of site.now) level) result }
{
    match game {
        GameTree::Call { at, name, args } => {
            walk_call(alloc, *at, name.as_str(), args, site, level)
        }
        GameTree::Decision {
            at,
            agent,
            observes,
            action,
            among,
        } => walk_decision(alloc, *at, agent, observes, action, among, site, level),
        GameTree::Nature {
            at,
            observes,
            outcome,
            rows,
        } => walk_nature(alloc, *at, observes, outcome, rows, site, level),
        GameTree::Forward {
            params,
            results,
            ..
        } => walk_forward(alloc, params, results, site, level),
        GameTree::Backward {
            params,
            results,
            ..
        } => walk_backward(alloc, params, results, site, level),
        GameTree::Identity {
            forward,
            backward,
            ..
        } => walk_identity(alloc, forward, backward, site, level),
        GameTree::Library { name, .. } => walk_library(alloc, name, site, level),
        GameTree::Seq(..) | GameTree::Par(..) | GameTree::Block { .. } | GameTree::Branch { .. } =>
            { unreachable!() }
    }
}

/// A game with parts.
#[cycle(walking)]
#[tactic(auto, using(crate::proofs::Walked::composed), unfolding(crate::specs::Games::game_rule))]
fn walk_composed(
    alloc: Global,
    game: &GameTree,
    site: &Site<'_>,
    level: Level,
) -> Result<GameKind, WireFault>
    requires { is_atom game.now ≡ false }
    ensures { Walks (rule_walk game.now (site_of site.now) level) result }
{
    match game {
        GameTree::Seq(left, right) => {
            let right = right.get();
            let first = walk_game(alloc, left.get(), site, below(level))?;
            let second = walk_game(alloc, right, site, below(level))?;
            in_turn(game_at(right), level, first, second)
        }
        GameTree::Par(left, right) => {
            let first = walk_game(alloc, left.get(), site, below(level))?;
            let second = walk_game(alloc, right.get(), site, below(level))?;
            Ok(side_by_side(alloc, level, first, second)?)
        }
        GameTree::Block { block, .. } => {
            let block = block.get();
            let Start {
                hidden,
                inputs,
                lines,
            } = walk_start(alloc, block, site, level)?;
            let lines = walk_lines(alloc, &block.lines, site, level, &hidden, lines)?;
            walk_rest(alloc, block, site, hidden, inputs, lines)
        }
        GameTree::Branch { at, selector, arms } => {
            let Selected { selector, start } = walk_selector(alloc, *at, selector, site, level)?;
            let found = walk_arms(alloc, arms, &selector, site, level, start)?;
            walk_arms_end(alloc, *at, selector, found)
        }
        GameTree::Call { .. }
        | GameTree::Decision { .. }
        | GameTree::Nature { .. }
        | GameTree::Forward { .. }
        | GameTree::Backward { .. }
        | GameTree::Identity { .. }
        | GameTree::Library { .. } => unreachable!(),
    }
}

/// The lines of a block, in its first pass.
#[cycle(walking)]
fn walk_lines(
    alloc: Global,
    lines: &List<LineTree>,
    site: &Site<'_>,
    level: Level,
    hidden: &Names<()>,
    mut found: Lines,
) -> Result<Lines, WireFault>
    ensures { Walks (lines_walk (site_of site.now) level hidden.now 0 found (map (line_with part_of) lines.now)) result }
{
    'lines: for (k, line) in lines.as_slice().iter().enumerate() {
        let handed = hand_over(alloc, line, site, hidden, k, &found)?;
        let kind = walk_game(alloc, &line.operation, site, below(level))?;
        found = name_line(alloc, line, site, k, found, handed, kind)?;
    }
    Ok(found)
}

/// The arms of a branch.
#[cycle(walking)]
fn walk_arms(
    alloc: Global,
    arms: &List<ArmTree>,
    selector: &Ty,
    site: &Site<'_>,
    level: Level,
    mut found: Arms,
) -> Result<Arms, WireFault>
    requires { IsSmall selector.now }
    ensures { Walks (in_turn (arm_walk (site_of site.now) level selector.now) found (map (arm_with part_of) arms.now)) result }
{
    'arms: for arm in arms.as_slice() {
        let keyed = take_key(alloc, arm, selector, site, found)?;
        let kind = walk_game(alloc, &arm.game, site, inside(level))?;
        found = with_arm(game_at(&arm.game), keyed, kind)?;
    }
    Ok(found)
}
