//! The ports of a form, and the game that it makes.
ghost use Rattle.std.specs.Prelude.{◌≡◌, IfOk, Some};
ghost use Rattle.og_game.specs.Plans.{plan_of};
ghost use Rattle.og_game.specs.Wired.{ports_of};
ghost use Rattle.og_game.specs.Choices.{ranks, all_of};
ghost use Rattle.og_game.specs.Built.{Builds};

use crate::atoms;
use crate::block::ports_of_block;
use crate::branch::ports_of_branch;
use crate::count::decisions;
use crate::game::{Game, GameFault};
use crate::node::{GameNode, GameNodeOf};
use crate::types::choices;
use og_list::List;
use og_native::Ports;
use std::alloc::{AllocError, Global};

/// The form's ports, where it is well wired.
#[tactic(auto, using(crate::proofs::Forms::ports_of_node))]
fn ports_of(alloc: Global, node: &GameNode) -> Result<Option<Ports>, AllocError>
    ensures { IfOk result (λ found. found ≡ ports_of (plan_of node.now)) }
{
    match node {
        GameNodeOf::Decision {
            observes,
            action,
            allowed,
            ..
        } => Ok(atoms::decision(alloc, observes, action, allowed)?),
        GameNodeOf::Nature {
            observes,
            outcome,
            scale,
            rows,
            ..
        } => Ok(atoms::nature(alloc, observes, outcome, *scale, rows)?),
        GameNodeOf::Forward { params, results } => Ok(atoms::forward(alloc, params, results)?),
        GameNodeOf::Backward { params, results } => Ok(atoms::backward(alloc, params, results)?),
        GameNodeOf::Native { ports, .. } => Ok(atoms::native(alloc, ports)?),
        GameNodeOf::Id { forward, backward } => Ok(atoms::identity(alloc, forward, backward)?),
        GameNodeOf::Seq(left, right) => {
            Ok(atoms::in_turn(alloc, left.get().ports(), right.get().ports())?)
        }
        GameNodeOf::Par(left, right) => {
            Ok(Some(atoms::beside(alloc, left.get().ports(), right.get().ports())?))
        }
        GameNodeOf::Block(block) => Ok(ports_of_block(alloc, block.get())?),
        GameNodeOf::Branch { selector, arms } => Ok(ports_of_branch(alloc, selector, arms)?),
    }
}

/// The ranks below the count.
#[tactic(auto, using(crate::proofs::Listed::ranks_more))]
fn ranks(alloc: Global, count: u32) -> Result<List<u32>, AllocError>
    ensures { IfOk result (λ all. all ≡ ranks count) }
{
    let mut all = List::new(alloc);
    'ranks: for rank in 0..count {
        all.add(rank)?;
    }
    Ok(all)
}

/// Of a well wired decision without sets the ranks of its actions.
#[tactic(auto, using(crate::proofs::Found::is_listed, crate::proofs::Found::all_of_node))]
fn all(alloc: Global, node: &GameNode, ports: &Ports) -> Result<List<u32>, AllocError>
    requires { ports_of (plan_of node.now) ≡ Some ports.now }
    ensures { IfOk result (λ all. all ≡ all_of (plan_of node.now)) }
{
    match node {
        GameNodeOf::Decision {
            action,
            allowed: None,
            ..
        } => Ok(ranks(alloc, choices(action).unwrap_or(0))?),
        _ => Ok(List::new(alloc)),
    }
}

/// The game of a well wired form.
fn game_of(alloc: Global, node: GameNode, ports: Ports) -> Result<Game, AllocError>
    requires { ports_of (plan_of node) ≡ Some ports }
    ensures { IfOk result (λ made. made ≡ plan_of node) }
{
    let all = all(alloc, &node, &ports)?;
    let decisions = decisions(&node);
    Ok(Game {
        node,
        ports,
        decisions,
        all,
    })
}

impl Game {
    /// The game of the form. `BadWiring` comes exactly where the form's types, variables, ports or rows aren't as its rule
    /// asks.
    pub fn build(alloc: Global, node: GameNode) -> Result<Game, GameFault>
        ensures { Builds (plan_of node) result }
    {
        match ports_of(alloc, &node) {
            Ok(Some(ports)) => match game_of(alloc, node, ports) {
                Ok(game) => Ok(game),
                Err(_) => Err(GameFault::Memory),
            },
            Ok(None) => Err(GameFault::BadWiring),
            Err(_) => Err(GameFault::Memory),
        }
    }
}
