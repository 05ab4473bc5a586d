//! Equal games in memory of their own.
ghost use Rattle.std.specs.Prelude.{◌≡◌, IfOk};
ghost use Rattle.og_game.specs.Plans.{plan_of};

use crate::game::Game;
use crate::node::{Arm, Block, GameNode, GameNodeOf, Line, Typed};
use og_expr::Expr;
use og_list::{Boxed, List};
use og_native::Ports;
use og_types::{Ty, copy_types};
use std::alloc::{AllocError, Global};

/// The game behind a pointer.
fn boxed_game(alloc: Global, game: Game) -> Result<Boxed<Game>, AllocError>
    ensures { IfOk result (λ made. made ≡ game) }
{
    match Boxed::new(alloc, game) {
        Ok(made) => Ok(made),
        Err(_) => Err(AllocError),
    }
}

/// The block behind a pointer.
fn boxed_block(alloc: Global, block: Block) -> Result<Boxed<Block>, AllocError>
    ensures { IfOk result (λ made. made ≡ block) }
{
    match Boxed::new(alloc, block) {
        Ok(made) => Ok(made),
        Err(_) => Err(AllocError),
    }
}

fn numbers(alloc: Global, those: &List<u32>) -> Result<List<u32>, AllocError>
    ensures { IfOk result (λ made. made ≡ those.now) }
{
    List::from_slice(alloc, those.as_slice())
}

fn sets(alloc: Global, those: &List<List<u32>>) -> Result<List<List<u32>>, AllocError>
    ensures { IfOk result (λ made. made ≡ those.now) }
{
    let mut all = List::new(alloc);
    'those: for ranks in those.as_slice() {
        all.add(numbers(alloc, ranks)?)?;
    }
    Ok(all)
}

fn allowed(
    alloc: Global,
    those: &Option<List<List<u32>>>,
) -> Result<Option<List<List<u32>>>, AllocError>
    ensures { IfOk result (λ made. made ≡ those.now) }
{
    match those {
        Some(some) => Ok(Some(sets(alloc, some)?)),
        None => Ok(None),
    }
}

fn rows(alloc: Global, those: &List<List<(u32, u64)>>) -> Result<List<List<(u32, u64)>>, AllocError>
    ensures { IfOk result (λ made. made ≡ those.now) }
{
    let mut all = List::new(alloc);
    'those: for row in those.as_slice() {
        all.add(List::from_slice(alloc, row.as_slice())?)?;
    }
    Ok(all)
}

fn results(alloc: Global, those: &List<Typed>) -> Result<List<Typed>, AllocError>
    ensures { IfOk result (λ made. made ≡ those.now) }
{
    let mut all = List::new(alloc);
    'those: for one in those.as_slice() {
        let expr = one.expr.copy(alloc)?;
        let ty = one.ty.copy(alloc)?;
        all.add(Typed { expr, ty })?;
    }
    Ok(all)
}

fn expressions(alloc: Global, those: &List<Expr>) -> Result<List<Expr>, AllocError>
    ensures { IfOk result (λ made. made ≡ those.now) }
{
    let mut all = List::new(alloc);
    'those: for e in those.as_slice() {
        all.add(e.copy(alloc)?)?;
    }
    Ok(all)
}

/// The game of the form, like the other, which is of an equal form.
fn remade(alloc: Global, node: GameNode, like: &Game) -> Result<Game, AllocError>
    requires { plan_of node ≡ like.now }
    ensures { IfOk result (λ made. made ≡ like.now) }
{
    let all = numbers(alloc, &like.all)?;
    let ports = like.ports.copy(alloc)?;
    Ok(Game {
        node,
        ports,
        decisions: like.decisions,
        all,
    })
}

/// A decision, like the other.
fn decision(
    alloc: Global,
    like: &Game,
    number: u32,
    agent: u32,
    observes: &List<Ty>,
    action: &Ty,
    sets: &Option<List<List<u32>>>,
) -> Result<Game, AllocError>
    requires { plan_of (GameNodeOf.Decision number agent observes.now action.now sets.now) ≡ like.now }
    ensures { IfOk result (λ made. made ≡ like.now) }
{
    let node = GameNodeOf::Decision {
        number,
        agent,
        observes: copy_types(alloc, observes)?,
        action: action.copy(alloc)?,
        allowed: allowed(alloc, sets)?,
    };
    remade(alloc, node, like)
}

/// A nature, like the other.
fn nature(
    alloc: Global,
    like: &Game,
    number: u32,
    observes: &List<Ty>,
    outcome: &Ty,
    scale: u64,
    those: &List<List<(u32, u64)>>,
) -> Result<Game, AllocError>
    requires { plan_of (GameNodeOf.Nature number observes.now outcome.now scale those.now) ≡ like.now }
    ensures { IfOk result (λ made. made ≡ like.now) }
{
    let node = GameNodeOf::Nature {
        number,
        observes: copy_types(alloc, observes)?,
        outcome: outcome.copy(alloc)?,
        scale,
        rows: rows(alloc, those)?,
    };
    remade(alloc, node, like)
}

/// Expressions of what comes forwards, like the other.
fn forward(
    alloc: Global,
    like: &Game,
    params: &List<Ty>,
    those: &List<Typed>,
) -> Result<Game, AllocError>
    requires { plan_of (GameNodeOf.Forward params.now those.now) ≡ like.now }
    ensures { IfOk result (λ made. made ≡ like.now) }
{
    let node = GameNodeOf::Forward {
        params: copy_types(alloc, params)?,
        results: results(alloc, those)?,
    };
    remade(alloc, node, like)
}

/// Expressions of what comes backwards, like the other.
fn backward(
    alloc: Global,
    like: &Game,
    params: &List<Ty>,
    those: &List<Typed>,
) -> Result<Game, AllocError>
    requires { plan_of (GameNodeOf.Backward params.now those.now) ≡ like.now }
    ensures { IfOk result (λ made. made ≡ like.now) }
{
    let node = GameNodeOf::Backward {
        params: copy_types(alloc, params)?,
        results: results(alloc, those)?,
    };
    remade(alloc, node, like)
}

/// A block of the host program, like the other.
fn native(alloc: Global, like: &Game, block: u32, ports: &Ports) -> Result<Game, AllocError>
    requires { plan_of (GameNodeOf.Native block ports.now) ≡ like.now }
    ensures { IfOk result (λ made. made ≡ like.now) }
{
    let ports = ports.copy(alloc)?;
    remade(alloc, GameNodeOf::Native { block, ports }, like)
}

/// Wires that pass, like the other.
fn identity(
    alloc: Global,
    like: &Game,
    forward: &List<Ty>,
    backward: &List<Ty>,
) -> Result<Game, AllocError>
    requires { plan_of (GameNodeOf.Id forward.now backward.now) ≡ like.now }
    ensures { IfOk result (λ made. made ≡ like.now) }
{
    let node = GameNodeOf::Id {
        forward: copy_types(alloc, forward)?,
        backward: copy_types(alloc, backward)?,
    };
    remade(alloc, node, like)
}

/// One game after another, like the other.
fn in_turn(alloc: Global, like: &Game, left: Game, right: Game) -> Result<Game, AllocError>
    requires { plan_of (GameNodeOf.Seq left right) ≡ like.now }
    ensures { IfOk result (λ made. made ≡ like.now) }
{
    let left = boxed_game(alloc, left)?;
    let right = boxed_game(alloc, right)?;
    remade(alloc, GameNodeOf::Seq(left, right), like)
}

/// One game beside another, like the other.
fn beside(alloc: Global, like: &Game, left: Game, right: Game) -> Result<Game, AllocError>
    requires { plan_of (GameNodeOf.Par left right) ≡ like.now }
    ensures { IfOk result (λ made. made ≡ like.now) }
{
    let left = boxed_game(alloc, left)?;
    let right = boxed_game(alloc, right)?;
    remade(alloc, GameNodeOf::Par(left, right), like)
}

/// The line as written, with an equal operation.
fn line(alloc: Global, one: &Line, operation: Game) -> Result<Line, AllocError>
    requires { operation ≡ one.now.operation }
    ensures { IfOk result (λ made. made ≡ one.now) }
{
    Ok(Line {
        inputs: expressions(alloc, &one.inputs)?,
        feedback: numbers(alloc, &one.feedback)?,
        operation,
        outputs: numbers(alloc, &one.outputs)?,
        returns: expressions(alloc, &one.returns)?,
    })
}

/// A block of these lines, like the other.
fn block(alloc: Global, like: &Game, one: &Block, lines: List<Line>) -> Result<Game, AllocError>
    requires same { plan_of (GameNodeOf.Block one.now) ≡ like.now }
    requires lines { lines ≡ one.now.lines }
    ensures { IfOk result (λ made. made ≡ like.now) }
{
    let made = Block {
        inputs: copy_types(alloc, &one.inputs)?,
        feedback: results(alloc, &one.feedback)?,
        lines,
        outputs: results(alloc, &one.outputs)?,
        returns: copy_types(alloc, &one.returns)?,
    };
    remade(alloc, GameNodeOf::Block(boxed_block(alloc, made)?), like)
}

/// A branch of these arms, like the other.
fn branch(alloc: Global, like: &Game, selector: &Ty, arms: List<Arm>) -> Result<Game, AllocError>
    requires { plan_of (GameNodeOf.Branch selector.now arms) ≡ like.now }
    ensures { IfOk result (λ made. made ≡ like.now) }
{
    let selector = selector.copy(alloc)?;
    remade(alloc, GameNodeOf::Branch { selector, arms }, like)
}

#[cycle(copies)]
fn lines(alloc: Global, those: &List<Line>) -> Result<List<Line>, AllocError>
    ensures { IfOk result (λ made. made ≡ those.now) }
{
    let mut all = List::new(alloc);
    'those: for one in those.as_slice() {
        let operation = copy(alloc, &one.operation)?;
        all.add(line(alloc, one, operation)?)?;
    }
    Ok(all)
}

#[cycle(copies)]
fn arms(alloc: Global, those: &List<Arm>) -> Result<List<Arm>, AllocError>
    ensures { IfOk result (λ made. made ≡ those.now) }
{
    let mut all = List::new(alloc);
    'those: for one in those.as_slice() {
        let game = copy(alloc, &one.game)?;
        all.add(Arm { key: one.key, game })?;
    }
    Ok(all)
}

/// An equal game, in memory of its own.
#[cycle(copies)]
pub(crate) fn copy(alloc: Global, game: &Game) -> Result<Game, AllocError>
    ensures { IfOk result (λ made. made ≡ game.now) }
{
    match &game.node {
        GameNodeOf::Decision {
            number,
            agent,
            observes,
            action,
            allowed,
        } => decision(alloc, game, *number, *agent, observes, action, allowed),
        GameNodeOf::Nature {
            number,
            observes,
            outcome,
            scale,
            rows,
        } => nature(alloc, game, *number, observes, outcome, *scale, rows),
        GameNodeOf::Forward { params, results } => forward(alloc, game, params, results),
        GameNodeOf::Backward { params, results } => backward(alloc, game, params, results),
        GameNodeOf::Native { block, ports } => native(alloc, game, *block, ports),
        GameNodeOf::Id { forward, backward } => identity(alloc, game, forward, backward),
        GameNodeOf::Seq(left, right) => {
            let first = copy(alloc, left.get())?;
            let second = copy(alloc, right.get())?;
            in_turn(alloc, game, first, second)
        }
        GameNodeOf::Par(left, right) => {
            let first = copy(alloc, left.get())?;
            let second = copy(alloc, right.get())?;
            beside(alloc, game, first, second)
        }
        GameNodeOf::Block(one) => {
            let made = lines(alloc, &one.get().lines)?;
            block(alloc, game, one.get(), made)
        }
        GameNodeOf::Branch {
            selector,
            arms: those,
        } => {
            let made = arms(alloc, those)?;
            branch(alloc, game, selector, made)
        }
    }
}
