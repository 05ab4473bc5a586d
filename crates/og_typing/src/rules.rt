//! Rules on what was found of the parts of an expression.
ghost use Rattle.std.specs.Prelude.{◌≡◌, nat_lt, ◌^◌, ◌&&◌, length, true, false, IfOk, IfSome, IfNone};
ghost use Rattle.og_expr.specs.Types.{negated};
ghost use Rattle.og_types.specs.Values.{joint_values_of, AreSmall};
ghost use Rattle.og_typing.specs.Checked.{Walks};
ghost use Rattle.og_typing.specs.Expressions.{goes, goes_to, joined_type, joining, settled, negated_kind, written_component, components, with_kind, tuple_kind, key_type, are_keys};
ghost use Rattle.std.specs.Option.{option_copied};

use crate::fault::WireFault;
use crate::kind::{Joined, Kind, Kinds};
use crate::meaning::Meaning;
use crate::types::{type_at, walk_type};
use og_game::is_small;
use og_list::List;
use og_names::Names;
use og_syntax::TyTree;
use og_types::{Ty, joint_count};
use std::alloc::{AllocError, Global};

/// The greatest depth so far, where the part's type goes as the wanted one.
pub(crate) fn goes(at: u32, wanted: &Ty, deep: u32, found: &Kind) -> Result<u32, WireFault>
    ensures { Walks (goes at wanted.now deep found.now) result }
{
    if !found.ty.fits(wanted) {
        return Err(WireFault::WrongType(at));
    }
    Ok(deep.max(found.deep))
}

/// The greatest depth so far, where the part's type goes as the wanted one, if there is one.
pub(crate) fn goes_to(
    at: u32,
    wanted: Option<&Ty>,
    deep: u32,
    found: &Kind,
) -> Result<u32, WireFault>
    ensures { Walks (goes_to at (option_copied wanted.entry) deep found.now) result }
{
    match wanted {
        Some(wanted) => goes(at, wanted, deep, found),
        None => Err(WireFault::WrongType(at)),
    }
}

/// The join with the type of the parts before.
fn joined_type(alloc: Global, at: u32, before: Option<Ty>, ty: Ty) -> Result<Ty, WireFault>
    ensures { Walks (joined_type at before ty) result }
{
    match before {
        Some(before) => match before.join(alloc, &ty)? {
            Some(joined) => Ok(joined),
            None => Err(WireFault::WrongType(at)),
        },
        None => Ok(ty),
    }
}

/// What was found of the parts before, with one more.
pub(crate) fn joining(
    alloc: Global,
    at: u32,
    before: Joined,
    found: Kind,
) -> Result<Joined, WireFault>
    ensures { Walks (joining at before found) result }
{
    let deep = before.deep.max(found.deep);
    let ty = joined_type(alloc, at, before.ty, found.ty)?;
    Ok(Joined { ty: Some(ty), deep })
}

/// What parts that give one value are together.
pub(crate) fn settled(at: u32, found: Joined) -> Result<Kind, WireFault>
    ensures { Walks (settled at found) result }
{
    let Joined { ty, deep } = found;
    match ty {
        Some(ty) => Ok(Kind { ty, deep }),
        None => Err(WireFault::WrongType(at)),
    }
}

/// The type of the opposite numbers.
fn negated(ty: &Ty) -> Option<Ty>
    ensures { result ≡ negated ty.now }
{
    match ty {
        Ty::Range(low, high) => {
            if low.unsigned_abs() < 1 << 63 && high.unsigned_abs() < 1 << 63 {
                Some(Ty::Range(0 - *high, 0 - *low))
            } else {
                None
            }
        }
        Ty::Number => Some(Ty::Number),
        _ => None,
    }
}

/// What the negative of a part is.
pub(crate) fn negated_kind(at: u32, found: &Kind) -> Result<Kind, WireFault>
    ensures { Walks (negated_kind at found.now) result }
{
    match negated(&found.ty) {
        Some(ty) => Ok(Kind {
            ty,
            deep: found.deep,
        }),
        None => Err(WireFault::WrongType(at)),
    }
}

/// The type of the component at a place that a text can write.
fn component(ty: &Ty, index: u64) -> Option<&Ty>
    ensures { option_copied result ≡ written_component index ty.now }
{
    if index >= 1 << 63 {
        return None;
    }
    match ty {
        Ty::Tuple(parts) => parts.get(index as usize),
        _ => None,
    }
}

/// The type of a component, of a component of it, and so on.
pub(crate) fn components(alloc: Global, at: u32, ty: &Ty, path: &List<u64>) -> Result<Ty, WireFault>
    ensures { Walks (components at ty.now path.now) result }
{
    let mut all = ty.copy(alloc)?;
    'path: for index in path.as_slice() {
        let next = match component(&all, *index) {
            Some(part) => part.copy(alloc)?,
            None => return Err(WireFault::WrongType(at)),
        };
        all = next;
    }
    Ok(all)
}

/// What was found of parts beside each other, with one more.
pub(crate) fn with_kind(mut before: Kinds, ty: Ty, deep: u32) -> Result<Kinds, AllocError>
    ensures { IfOk result (λ made. made ≡ with_kind before ty deep) }
{
    before.types.add(ty)?;
    Ok(Kinds {
        types: before.types,
        deep: before.deep.max(deep),
    })
}

/// What a tuple of the parts is.
pub(crate) fn tuple_kind(at: u32, found: Kinds) -> Result<Kind, WireFault>
    ensures { Walks (tuple_kind at found) result }
{
    let deep = found.deep;
    let ty = Ty::Tuple(found.types);
    if !is_small(&ty) {
        return Err(WireFault::TooBig(at));
    }
    Ok(Kind { ty, deep })
}

/// Whether a divisor is a number that a text can write, and not 0.
pub(crate) fn is_divisor(n: u64) -> bool
    ensures { result ≡ (nat_lt 0 n && nat_lt n (2 ^ 63)) }
{
    0 < n && n < 1 << 63
}

/// The type that is written at a key, where it is finite and the key's type goes as it.
pub(crate) fn key_type(
    alloc: Global,
    at: u32,
    written: &TyTree,
    declared: &Names<Meaning>,
    found: &Kind,
) -> Result<Ty, WireFault>
    ensures { Walks (key_type at written.now declared.now found.now) result }
{
    let ty = walk_type(alloc, written, declared)?;
    if ty.count().is_none() {
        return Err(WireFault::NotFinite(type_at(written)));
    }
    if !found.ty.fits(&ty) {
        return Err(WireFault::WrongType(at));
    }
    Ok(ty)
}

/// How many joint values the types have, of a table's keys or of what is observed, where they are finite and these are at most 4,096.
pub fn key_count(types: &List<Ty>) -> Option<u32>
    ensures keys { IfSome result (λ _. are_keys types.now ≡ true) }
    ensures count { IfSome result (λ n. length (joint_values_of types.now) ≡ n) }
    ensures small { IfSome result (λ _. AreSmall types.now) }
    ensures none { IfNone result (are_keys types.now ≡ false) }
{
    match joint_count(types) {
        Some(count) if count <= 4096 => Some(count),
        _ => None,
    }
}
