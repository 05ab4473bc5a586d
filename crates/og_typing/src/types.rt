//! Written types.
ghost use Rattle.std.specs.Prelude.{◌≡◌, []};
ghost use Rattle.std.specs.Option.{option_copied};
ghost use Rattle.og_typing.specs.Checked.{Walks};
ghost use Rattle.og_typing.specs.Types.{type_place, are_bounds, sized, tuple_type, type_named, type_walk, types_walk};

use crate::fault::WireFault;
use crate::meaning::Meaning;
use og_game::{has_few_values, is_small};
use og_list::List;
use og_names::Names;
use og_syntax::TyTree;
use og_types::Ty;
use std::alloc::Global;

/// The place where the type begins.
pub fn type_at(ty: &TyTree) -> u32
    ensures { result ≡ type_place ty.now }
{
    match ty {
        TyTree::Name(at, _)
        | TyTree::Bool(at)
        | TyTree::Number(at)
        | TyTree::Range(at, _, _)
        | TyTree::Tuple(at, _) => *at,
    }
}

/// Whether they are whole numbers that a text can write, the first no greater than the second.
pub(crate) fn are_bounds(low: i64, high: i64) -> bool
    ensures { result ≡ are_bounds low high }
{
    low <= high && (low.unsigned_abs() < 1 << 63 && high.unsigned_abs() < 1 << 63)
}

/// The type, where it isn't too large and hasn't too many values.
fn sized(at: u32, ty: Ty) -> Result<Ty, WireFault>
    ensures { Walks (sized at ty) result }
{
    if !is_small(&ty) {
        return Err(WireFault::TooBig(at));
    }
    if !has_few_values(&ty) {
        return Err(WireFault::TooManyValues(at));
    }
    Ok(ty)
}

/// The tuple of the types.
fn tuple_type(at: u32, types: List<Ty>) -> Result<Ty, WireFault>
    ensures { Walks (tuple_type at types) result }
{
    if types.len() < 2 {
        return Err(WireFault::WrongType(at));
    }
    sized(at, Ty::Tuple(types))
}

/// The type that the name stands for.
fn type_named(alloc: Global, at: u32, found: Option<&Meaning>) -> Result<Ty, WireFault>
    ensures { Walks (type_named at (option_copied found.entry)) result }
{
    match found {
        Some(Meaning::Type(ty)) => Ok(ty.copy(alloc)?),
        _ => Err(WireFault::Unknown(at)),
    }
}

/// The type that a written type stands for.
#[cycle(types)]
#[tactic(auto, using(crate::proofs::TypeLevels::tuple_walk))]
pub fn walk_type(alloc: Global, ty: &TyTree, declared: &Names<Meaning>) -> Result<Ty, WireFault>
    ensures { Walks (type_walk ty.now declared.now) result }
{
    match ty {
        TyTree::Name(at, name) => type_named(alloc, *at, declared.get(name.as_str())),
        TyTree::Bool(_) => Ok(Ty::Bool),
        TyTree::Number(_) => Ok(Ty::Number),
        TyTree::Range(at, low, high) => {
            if !are_bounds(*low, *high) {
                return Err(WireFault::WrongType(*at));
            }
            sized(*at, Ty::Range(*low, *high))
        }
        TyTree::Tuple(at, parts) => {
            let types = walk_types(alloc, parts, declared)?;
            tuple_type(*at, types)
        }
    }
}

/// The types that written types stand for, in order.
#[cycle(types)]
pub fn walk_types(
    alloc: Global,
    types: &List<TyTree>,
    declared: &Names<Meaning>,
) -> Result<List<Ty>, WireFault>
    ensures { Walks (types_walk declared.now [] types.now) result }
{
    let mut all = List::new(alloc);
    'types: for ty in types.as_slice() {
        all.add(walk_type(alloc, ty, declared)?)?;
    }
    Ok(all)
}
