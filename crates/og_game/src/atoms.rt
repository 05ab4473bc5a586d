//! The ports of atoms and compositions.
ghost use Rattle.std.specs.Prelude.{◌≡◌, ◌&&◌, ◌∷◌, ◌++◌, [], IfOk, Some};
ghost use Rattle.og_game.specs.Wired.{are_wires, ports_if, written, is_decision, decision_ports, is_nature, nature_ports, is_function, forward_ports, backward_ports, are_sides, identity_ports, do_meet, through, beside};

use crate::node::Typed;
use crate::rows::{are_allowed, are_rows};
use crate::scope::{Params, are_results};
use crate::types::{are_few_wires, are_wires, choices, observations};
use og_list::List;
use og_native::Ports;
use og_types::{Ty, copy_types};
use std::alloc::{AllocError, Global};

/// The ports, where the test holds.
pub(crate) fn ports_if(holds: bool, ports: Ports) -> Option<Ports>
    ensures { result ≡ ports_if holds ports }
{
    if holds { Some(ports) } else { None }
}

/// A list of one type.
pub(crate) fn one(alloc: Global, ty: Ty) -> Result<List<Ty>, AllocError>
    ensures { IfOk result (λ types. types ≡ ty ∷ []) }
{
    let mut types = List::new(alloc);
    types.add(ty)?;
    Ok(types)
}

/// The types that are written at results.
pub(crate) fn written(alloc: Global, results: &List<Typed>) -> Result<List<Ty>, AllocError>
    ensures { IfOk result (λ types. types ≡ written results.now) }
{
    let mut types = List::new(alloc);
    'results: for one in results.as_slice() {
        types.add(one.ty.copy(alloc)?)?;
    }
    Ok(types)
}

/// The types of both lists.
pub(crate) fn joined(
    alloc: Global,
    first: &List<Ty>,
    second: &List<Ty>,
) -> Result<List<Ty>, AllocError>
    ensures { IfOk result (λ types. types ≡ first.now ++ second.now) }
{
    let mut types = copy_types(alloc, first)?;
    'second: for ty in second.as_slice() {
        types.add(ty.copy(alloc)?)?;
    }
    Ok(types)
}

/// Whether a decision's types and its sets of allowed actions are right.
fn is_decision(observes: &List<Ty>, action: &Ty, allowed: &Option<List<List<u32>>>) -> bool
    ensures { result ≡ is_decision observes.now action.now allowed.now }
{
    match (observations(observes), choices(action)) {
        (Some(rows), Some(actions)) => are_allowed(rows, actions, allowed),
        _ => false,
    }
}

fn decision_ports(alloc: Global, observes: &List<Ty>, action: &Ty) -> Result<Ports, AllocError>
    ensures { IfOk result (λ ports. ports ≡ decision_ports observes.now action.now) }
{
    Ok(Ports {
        inputs: copy_types(alloc, observes)?,
        feedback: List::new(alloc),
        outputs: one(alloc, action.copy(alloc)?)?,
        returns: one(alloc, Ty::Number)?,
    })
}

/// Whether a nature's types, its scale and its rows are right.
fn is_nature(observes: &List<Ty>, outcome: &Ty, scale: u64, rows: &List<List<(u32, u64)>>) -> bool
    ensures { result ≡ is_nature observes.now outcome.now scale rows.now }
{
    match (observations(observes), choices(outcome)) {
        (Some(many), Some(outcomes)) => {
            (0 < scale && scale < 1 << 62) && are_rows(many, outcomes, scale, rows)
        }
        _ => false,
    }
}

fn nature_ports(alloc: Global, observes: &List<Ty>, outcome: &Ty) -> Result<Ports, AllocError>
    ensures { IfOk result (λ ports. ports ≡ nature_ports observes.now outcome.now) }
{
    Ok(Ports {
        inputs: copy_types(alloc, observes)?,
        feedback: List::new(alloc),
        outputs: one(alloc, outcome.copy(alloc)?)?,
        returns: List::new(alloc),
    })
}

/// Whether the results are expressions of the parameters.
fn is_function(params: &List<Ty>, results: &List<Typed>) -> bool
    ensures { result ≡ is_function params.now results.now }
{
    are_wires(params) && are_results(&Params { types: params }, results)
}

fn forward_ports(
    alloc: Global,
    params: &List<Ty>,
    results: &List<Typed>,
) -> Result<Ports, AllocError>
    ensures { IfOk result (λ ports. ports ≡ forward_ports params.now results.now) }
{
    Ok(Ports {
        inputs: copy_types(alloc, params)?,
        feedback: List::new(alloc),
        outputs: written(alloc, results)?,
        returns: List::new(alloc),
    })
}

fn backward_ports(
    alloc: Global,
    params: &List<Ty>,
    results: &List<Typed>,
) -> Result<Ports, AllocError>
    ensures { IfOk result (λ ports. ports ≡ backward_ports params.now results.now) }
{
    Ok(Ports {
        inputs: List::new(alloc),
        feedback: written(alloc, results)?,
        outputs: List::new(alloc),
        returns: copy_types(alloc, params)?,
    })
}

/// Whether each side has at most 256 types of wires.
fn are_sides(ports: &Ports) -> bool
    ensures { result ≡ are_sides ports.now }
{
    (are_few_wires(&ports.inputs) && are_few_wires(&ports.feedback))
        && (are_few_wires(&ports.outputs) && are_few_wires(&ports.returns))
}

fn identity_ports(
    alloc: Global,
    forward: &List<Ty>,
    backward: &List<Ty>,
) -> Result<Ports, AllocError>
    ensures { IfOk result (λ ports. ports ≡ identity_ports forward.now backward.now) }
{
    Ok(Ports {
        inputs: copy_types(alloc, forward)?,
        feedback: copy_types(alloc, backward)?,
        outputs: copy_types(alloc, forward)?,
        returns: copy_types(alloc, backward)?,
    })
}

/// Whether what goes out of the left on both sides is what goes into the right.
fn do_meet(left: &Ports, right: &Ports) -> bool
    ensures { result ≡ do_meet left.now right.now }
{
    left.outputs == right.inputs && right.feedback == left.returns
}

fn through(alloc: Global, left: &Ports, right: &Ports) -> Result<Ports, AllocError>
    ensures { IfOk result (λ ports. ports ≡ through left.now right.now) }
{
    Ok(Ports {
        inputs: copy_types(alloc, &left.inputs)?,
        feedback: copy_types(alloc, &left.feedback)?,
        outputs: copy_types(alloc, &right.outputs)?,
        returns: copy_types(alloc, &right.returns)?,
    })
}

pub(crate) fn beside(alloc: Global, left: &Ports, right: &Ports) -> Result<Ports, AllocError>
    ensures { IfOk result (λ ports. ports ≡ beside left.now right.now) }
{
    Ok(Ports {
        inputs: joined(alloc, &left.inputs, &right.inputs)?,
        feedback: joined(alloc, &left.feedback, &right.feedback)?,
        outputs: joined(alloc, &left.outputs, &right.outputs)?,
        returns: joined(alloc, &left.returns, &right.returns)?,
    })
}

/// A decision's ports, where its types and its sets are right.
pub(crate) fn decision(
    alloc: Global,
    observes: &List<Ty>,
    action: &Ty,
    allowed: &Option<List<List<u32>>>,
) -> Result<Option<Ports>, AllocError>
    ensures { IfOk result (λ found. found
        ≡ ports_if (is_decision observes.now action.now allowed.now) (decision_ports observes.now action.now)) }
{
    let holds = is_decision(observes, action, allowed);
    Ok(ports_if(holds, decision_ports(alloc, observes, action)?))
}

/// A nature's ports, where its types, its scale and its rows are right.
pub(crate) fn nature(
    alloc: Global,
    observes: &List<Ty>,
    outcome: &Ty,
    scale: u64,
    rows: &List<List<(u32, u64)>>,
) -> Result<Option<Ports>, AllocError>
    ensures { IfOk result (λ found. found
        ≡ ports_if (is_nature observes.now outcome.now scale rows.now) (nature_ports observes.now outcome.now)) }
{
    let holds = is_nature(observes, outcome, scale, rows);
    Ok(ports_if(holds, nature_ports(alloc, observes, outcome)?))
}

/// The ports of expressions of what comes forwards, where these are right.
pub(crate) fn forward(
    alloc: Global,
    params: &List<Ty>,
    results: &List<Typed>,
) -> Result<Option<Ports>, AllocError>
    ensures { IfOk result (λ found. found
        ≡ ports_if (is_function params.now results.now) (forward_ports params.now results.now)) }
{
    let holds = is_function(params, results);
    Ok(ports_if(holds, forward_ports(alloc, params, results)?))
}

/// The ports of expressions of what comes backwards, where these are right.
pub(crate) fn backward(
    alloc: Global,
    params: &List<Ty>,
    results: &List<Typed>,
) -> Result<Option<Ports>, AllocError>
    ensures { IfOk result (λ found. found
        ≡ ports_if (is_function params.now results.now) (backward_ports params.now results.now)) }
{
    let holds = is_function(params, results);
    Ok(ports_if(holds, backward_ports(alloc, params, results)?))
}

/// A library block's ports, where they are a game's.
pub(crate) fn native(alloc: Global, ports: &Ports) -> Result<Option<Ports>, AllocError>
    ensures { IfOk result (λ found. found ≡ ports_if (are_sides ports.now) ports.now) }
{
    let holds = are_sides(ports);
    Ok(ports_if(holds, ports.copy(alloc)?))
}

/// The ports of wires that pass.
pub(crate) fn identity(
    alloc: Global,
    forward: &List<Ty>,
    backward: &List<Ty>,
) -> Result<Option<Ports>, AllocError>
    ensures { IfOk result (λ found. found
        ≡ ports_if (are_wires forward.now && are_wires backward.now) (identity_ports forward.now backward.now)) }
{
    let holds = are_wires(forward) && are_wires(backward);
    Ok(ports_if(holds, identity_ports(alloc, forward, backward)?))
}

/// The ports of one game after another, where they meet.
pub(crate) fn in_turn(
    alloc: Global,
    left: &Ports,
    right: &Ports,
) -> Result<Option<Ports>, AllocError>
    ensures { IfOk result (λ found. found ≡ ports_if (do_meet left.now right.now) (through left.now right.now)) }
{
    let holds = do_meet(left, right);
    Ok(ports_if(holds, through(alloc, left, right)?))
}
