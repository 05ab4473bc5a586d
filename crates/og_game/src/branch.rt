//! The ports of branches.
ghost use Rattle.std.specs.Prelude.{◌≡◌, ◌∷◌, map, not, ◌==◌, nat_lt, IfOk};
ghost use Rattle.std.specs.List.{list_all};
ghost use Rattle.og_game.specs.Levels.{arm_with};
ghost use Rattle.og_game.specs.Wired.{ports_of, has_ports, have_few, selected, is_branch, branch_rule, are_keys, differ};

use crate::atoms::{joined, one, ports_if};
use crate::node::Arm;
use crate::types::choices;
use og_list::List;
use og_native::Ports;
use og_types::{Ty, copy_types};
use std::alloc::{AllocError, Global};

/// Whether no arm from the place on has the key.
fn is_alone(key: u32, arms: &[Arm]) -> bool
    ensures { result ≡ list_all (λ m. not (m == key)) (map (λ arm. arm.key) arms.now) }
{
    'arms: for arm in arms {
        if arm.key == key {
            return false;
        }
    }
    true
}

/// Whether each number below the count is the key of one arm.
fn are_keys(count: u32, arms: &List<Arm>) -> bool
    ensures { result ≡ are_keys count (map (λ arm. arm.key) arms.now) }
{
    if arms.len() != count as usize {
        return false;
    }
    are_below(count, arms) && do_differ(arms)
}

fn are_below(count: u32, arms: &List<Arm>) -> bool
    ensures { result ≡ list_all (λ k. nat_lt k count) (map (λ arm. arm.key) arms.now) }
{
    'arms: for arm in arms.as_slice() {
        if arm.key >= count {
            return false;
        }
    }
    true
}

fn do_differ(arms: &List<Arm>) -> bool
    ensures { result ≡ differ (map (λ arm. arm.key) arms.now) }
{
    'arms: for (at, arm) in arms.as_slice().iter().enumerate() {
        if !is_alone(arm.key, &arms.as_slice()[at + 1..]) {
            return false;
        }
    }
    true
}

/// Whether all arms have these ports.
fn have_ports(ports: &Ports, arms: &List<Arm>) -> bool
    ensures { result ≡ list_all (λ arm. has_ports ports.now arm.game) (map (arm_with ports_of) arms.now) }
{
    'arms: for arm in arms.as_slice() {
        if *ports != *arm.game.ports() {
            return false;
        }
    }
    true
}

/// Whether each side with the selector has at most 256 types.
fn have_few(ports: &Ports) -> bool
    ensures { (t : _) → result ≡ have_few (selected t ports.now) }
{
    (ports.inputs.len() < 256 && ports.feedback.len() <= 256)
        && (ports.outputs.len() <= 256 && ports.returns.len() <= 256)
}

/// Whether there is an arm for each of the selector's values, and all arms have these ports.
#[tactic(auto, using(crate::proofs::Forms::keys_kept))]
fn is_branch(selector: &Ty, arms: &List<Arm>, ports: &Ports) -> bool
    ensures { result ≡ is_branch selector.now (map (arm_with ports_of) arms.now) ports.now }
{
    match choices(selector) {
        Some(count) => { are_keys(count, arms) && (have_ports(ports, arms) && have_few(ports)) }
        None => false,
    }
}

fn with_selector(alloc: Global, selector: &Ty, ports: &Ports) -> Result<Ports, AllocError>
    ensures { IfOk result (λ made. made ≡ selected selector.now ports.now) }
{
    let inputs = one(alloc, selector.copy(alloc)?)?;
    Ok(Ports {
        inputs: joined(alloc, &inputs, &ports.inputs)?,
        feedback: copy_types(alloc, &ports.feedback)?,
        outputs: copy_types(alloc, &ports.outputs)?,
        returns: copy_types(alloc, &ports.returns)?,
    })
}

/// The branch's ports, where it is well wired.
#[tactic(auto, using(crate::proofs::Forms::first_arm, crate::proofs::Forms::no_arm))]
pub(crate) fn ports_of_branch(
    alloc: Global,
    selector: &Ty,
    arms: &List<Arm>,
) -> Result<Option<Ports>, AllocError>
    ensures { IfOk result (λ found. found ≡ branch_rule selector.now (map (arm_with ports_of) arms.now)) }
{
    match arms.get(0) {
        Some(arm) => {
            let ports = arm.game.ports();
            let holds = is_branch(selector, arms, ports);
            Ok(ports_if(holds, with_selector(alloc, selector, ports)?))
        }
        None => Ok(None),
    }
}
