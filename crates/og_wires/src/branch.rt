//! What is found of branches beside their games.
ghost use Rattle.std.specs.Prelude.{◌≡◌, ◌∷◌, IfOk};
ghost use Rattle.og_game.specs.Wired.{selected, have_few};
ghost use Rattle.og_typing.specs.Checked.{Walks};
ghost use Rattle.og_types.specs.Values.{IsSmall};
ghost use Rattle.og_wires.specs.Sites.{site_of};
ghost use Rattle.og_wires.specs.Levels.{arm_with};
ghost use Rattle.og_wires.specs.Games.{part_of, selector_walk, key_taken, same_counts, agree, with_arm, first_ports, arms_end};

use crate::atoms::one;
use crate::kind::{GameKind, Level, Size};
use crate::rows::{no_value, walk_finite, walk_rank};
use crate::sites::{Site, alone, with_lines, with_part};
use og_list::List;
use og_native::Ports;
use og_syntax::{ArmTree, TyTree};
use og_types::Ty;
use og_typing::{WireFault, are_all_taken, take};
use std::alloc::{AllocError, Global};

/// What was found of the arms of a branch, up to some arm.
#[derive(Debug, Drop)]
pub struct Arms {
    /// Of each rank of the selector's type, whether it has an arm.
    pub taken: List<bool>,
    /// The ports of the first arm.
    pub ports: Option<Ports>,
    /// How large the branch is up to there.
    pub size: Size,
}

/// A branch's selector, with what is found before its arms.
#[derive(Debug, Drop)]
pub struct Selected {
    /// The selector's type.
    pub selector: Ty,
    /// No arm yet.
    pub start: Arms,
}

/// The selector's type. There may be fifteen branches round a branch, and no more.
pub(crate) fn walk_selector(
    alloc: Global,
    at: u32,
    selector: &TyTree,
    site: &Site<'_>,
    level: Level,
) -> Result<Selected, WireFault>
    ensures walks { Walks (selector_walk (site_of site.now) level at selector.now) result }
    ensures small { IfOk result (λ made. IsSmall made.selector) }
{
    if level.inside >= 16 {
        return Err(WireFault::TooBig(at));
    }
    let ty = walk_finite(alloc, selector, site.around.declared)?;
    let taken = no_value(alloc, &ty)?;
    Ok(Selected {
        selector: ty,
        start: Arms {
            taken,
            ports: None,
            size: with_lines(1, 0, alone(level)),
        },
    })
}

/// A new key, which is a value of the type.
pub(crate) fn take_key(
    alloc: Global,
    arm: &ArmTree,
    selector: &Ty,
    site: &Site<'_>,
    before: Arms,
) -> Result<Arms, WireFault>
    requires { IsSmall selector.now }
    ensures { Walks (key_taken (site_of site.now) selector.now before (arm_with part_of arm.now)) result }
{
    let Arms {
        mut taken,
        ports,
        size,
    } = before;
    let rank = walk_rank(alloc, &arm.key, selector, site.around.declared)?;
    take(arm.at, &mut taken, rank)?;
    Ok(Arms { taken, ports, size })
}

fn same_counts(p: &Ports, q: &Ports) -> bool
    ensures { result ≡ same_counts p.now q.now }
{
    (p.inputs.len() == q.inputs.len() && p.feedback.len() == q.feedback.len())
        && (p.outputs.len() == q.outputs.len() && p.returns.len() == q.returns.len())
}

/// An arm has the ports of the first one; these are given.
fn agree(at: u32, first: Option<Ports>, ports: Ports) -> Result<Ports, WireFault>
    ensures { Walks (agree at first ports) result }
{
    match first {
        Some(first) => {
            if !same_counts(&first, &ports) {
                return Err(WireFault::WrongCount(at));
            }
            if first != ports {
                return Err(WireFault::WrongType(at));
            }
            Ok(first)
        }
        None => Ok(ports),
    }
}

/// With one arm more, whose game begins at the place.
pub(crate) fn with_arm(at: u32, before: Arms, found: GameKind) -> Result<Arms, WireFault>
    ensures { Walks (with_arm at before found) result }
{
    let Arms { taken, ports, size } = before;
    let ports = agree(at, ports, found.ports)?;
    Ok(Arms {
        taken,
        ports: Some(ports),
        size: with_lines(1, 0, with_part(size, found.size)),
    })
}

fn first_ports(at: u32, found: Option<Ports>) -> Result<Ports, WireFault>
    ensures { Walks (first_ports at found) result }
{
    match found {
        Some(ports) => Ok(ports),
        None => Err(WireFault::MissingRow(at)),
    }
}

/// Whether each side with the selector has at most 256 types.
fn have_few(ports: &Ports) -> bool
    ensures { result ≡ have_few ports.now }
{
    (ports.inputs.len() <= 256 && ports.feedback.len() <= 256)
        && (ports.outputs.len() <= 256 && ports.returns.len() <= 256)
}

/// The types with one more before them.
fn behind(alloc: Global, first: Ty, more: &List<Ty>) -> Result<List<Ty>, AllocError>
    ensures { IfOk result (λ types. types ≡ first ∷ more.now) }
{
    let mut types = one(alloc, first)?;
    'more: for ty in more.as_slice() {
        types.add(ty.copy(alloc)?)?;
    }
    Ok(types)
}

fn with_selector(alloc: Global, selector: Ty, ports: Ports) -> Result<Ports, AllocError>
    ensures { IfOk result (λ made. made ≡ selected selector ports) }
{
    Ok(Ports {
        inputs: behind(alloc, selector, &ports.inputs)?,
        feedback: ports.feedback,
        outputs: ports.outputs,
        returns: ports.returns,
    })
}

/// There is an arm for each value, and no side has too many types.
pub(crate) fn walk_arms_end(
    alloc: Global,
    at: u32,
    selector: Ty,
    found: Arms,
) -> Result<GameKind, WireFault>
    ensures { Walks (arms_end at selector found) result }
{
    let Arms { taken, ports, size } = found;
    if !are_all_taken(&taken) {
        return Err(WireFault::MissingRow(at));
    }
    let ports = first_ports(at, ports)?;
    let ports = with_selector(alloc, selector, ports)?;
    if !have_few(&ports) {
        return Err(WireFault::TooBig(at));
    }
    Ok(GameKind { ports, size })
}
