//! The types that wires of a game may have.
ghost use Rattle.std.specs.Prelude.{◌≡◌, map, sum_by};
ghost use Rattle.std.specs.List.{list_all};
ghost use Rattle.og_expr.specs.Counts.{capped};
ghost use Rattle.og_native.specs.Ports.{is_formed, height, highest, nodes, is_wire};
ghost use Rattle.og_game.specs.Wired.{is_small, has_few_values, are_wires, are_few_wires, are_observed, is_chosen, observations, values, number_if};

use og_list::List;
use og_types::{Ty, joint_count};

#[cycle(forming)]
fn are_formed(types: &List<Ty>) -> bool
    ensures { result ≡ list_all is_formed types.now }
{
    'types: for ty in types.as_slice() {
        if !is_formed(ty) {
            return false;
        }
    }
    true
}

/// Whether the type's enums, ranges and tuples are such that a text can write them.
#[cycle(forming)]
#[tactic(auto, using(crate::proofs::Formed::formed_tuple))]
fn is_formed(ty: &Ty) -> bool
    ensures { result ≡ is_formed ty.now }
{
    match ty {
        Ty::Enum(_, cases) => *cases > 0,
        Ty::Range(low, high) => {
            low <= high && (low.unsigned_abs() < 1 << 63 && high.unsigned_abs() < 1 << 63)
        }
        Ty::Tuple(parts) => parts.len() >= 2 && are_formed(parts),
        Ty::Bool | Ty::Number => true,
    }
}

/// How large a type is, by numbers that stand still at 2^32 - 1.
#[derive(Clone, Copy)]
struct Size {
    height: u32,
    nodes: u32,
}

#[cycle(measuring)]
#[tactic(auto, using(crate::proofs::Sizes::next_height, crate::proofs::Sizes::next_nodes))]
fn size_of_all(types: &List<Ty>) -> Size
    ensures height { result.height ≡ capped (highest (map height types.now)) }
    ensures nodes { result.nodes ≡ capped (sum_by (λ n. n) (map nodes types.now)) }
{
    let mut all = Size {
        height: 0,
        nodes: 0,
    };
    'types: for ty in types.as_slice() {
        let size = size_of(ty);
        all = Size {
            height: all.height.max(size.height),
            nodes: all.nodes.saturating_add(size.nodes),
        };
    }
    all
}

#[cycle(measuring)]
fn size_of(ty: &Ty) -> Size
    ensures height { result.height ≡ capped (height ty.now) }
    ensures nodes { result.nodes ≡ capped (nodes ty.now) }
{
    match ty {
        Ty::Tuple(parts) => {
            let below = size_of_all(parts);
            Size {
                height: below.height.saturating_add(1),
                nodes: below.nodes.saturating_add(1),
            }
        }
        _ => Size {
            height: 1,
            nodes: 1,
        },
    }
}

/// Whether it is at most 8 high and has at most 32 nodes.
pub fn is_small(ty: &Ty) -> bool
    ensures { result ≡ is_small ty.now }
{
    let size = size_of(ty);
    size.height <= 8 && size.nodes <= 32
}

/// Whether it has at most 4,096 values, if it is finite.
pub fn has_few_values(ty: &Ty) -> bool
    ensures { result ≡ has_few_values ty.now }
{
    match ty.count() {
        Some(many) => many <= 4096,
        None => true,
    }
}

/// Whether a wire of a game may have the type.
pub(crate) fn is_wire(ty: &Ty) -> bool
    ensures { result ≡ is_wire ty.now }
{
    is_formed(ty) && (is_small(ty) && has_few_values(ty))
}

pub(crate) fn are_wires(types: &List<Ty>) -> bool
    ensures { result ≡ are_wires types.now }
{
    'types: for ty in types.as_slice() {
        if !is_wire(ty) {
            return false;
        }
    }
    true
}

/// At most 256 types of wires.
pub(crate) fn are_few_wires(types: &List<Ty>) -> bool
    ensures { result ≡ are_few_wires types.now }
{
    types.len() <= 256 && are_wires(types)
}

/// How many joint observations of the types there are, where they can be observed.
pub(crate) fn observations(types: &List<Ty>) -> Option<u32>
    ensures { result ≡ number_if (are_observed types.now) (observations types.now) }
{
    if !are_wires(types) {
        return None;
    }
    match joint_count(types) {
        Some(many) if many <= 4096 => Some(many),
        _ => None,
    }
}

/// How many values the type has, where it is finite and a wire's.
pub(crate) fn choices(ty: &Ty) -> Option<u32>
    ensures { result ≡ number_if (is_chosen ty.now) (values ty.now) }
{
    if is_wire(ty) { ty.count() } else { None }
}
