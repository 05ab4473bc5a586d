//! Written values, and the keys of rows.
ghost use Rattle.std.specs.Prelude.{◌≡◌, [], IfOk, replicate, false, IsTrue};
ghost use Rattle.std.specs.List.{list_all};
ghost use Rattle.std.specs.Option.{option_copied};
ghost use Rattle.og_types.specs.Values.{AreSmall};
ghost use Rattle.og_typing.specs.Checked.{Walks, Updates};
ghost use Rattle.og_typing.specs.Values.{value_place, case_named, meant, meant_all, value_walk, values_from, key_walk, row_taken, new_row};

use crate::fault::WireFault;
use crate::meaning::Meaning;
use og_frac::Frac;
use og_list::List;
use og_names::Names;
use og_syntax::ValueTree;
use og_types::{Ty, Value, joint_rank};
use std::alloc::{AllocError, Global};

/// The place where the value begins.
pub fn value_at(value: &ValueTree) -> u32
    ensures { result ≡ value_place value.now }
{
    match value {
        ValueTree::Name(at, _)
        | ValueTree::Flag(at, _)
        | ValueTree::Number(at, _)
        | ValueTree::Tuple(at, _) => *at,
    }
}

/// The case that the name stands for.
fn case_named(at: u32, found: Option<&Meaning>) -> Result<Value, WireFault>
    ensures { Walks (case_named at (option_copied found.entry)) result }
{
    match found {
        Some(Meaning::Case(family, _, index)) => Ok(Value::Case(*family, *index)),
        _ => Err(WireFault::Unknown(at)),
    }
}

/// The value that a written value stands for, of whatever type.
#[cycle(meaning)]
#[tactic(auto, using(crate::proofs::ValueLevels::tuple_meant))]
pub fn meant(
    alloc: Global,
    value: &ValueTree,
    declared: &Names<Meaning>,
) -> Result<Value, WireFault>
    ensures { Walks (meant value.now declared.now) result }
{
    match value {
        ValueTree::Name(at, name) => case_named(*at, declared.get(name.as_str())),
        ValueTree::Flag(_, flag) => Ok(Value::Flag(*flag)),
        ValueTree::Number(at, number) => {
            if number.unsigned_abs() >= 1 << 63 {
                return Err(WireFault::WrongType(*at));
            }
            Ok(Value::Number(Frac::whole(*number)))
        }
        ValueTree::Tuple(_, parts) => Ok(Value::Tuple(all_meant(alloc, parts, declared)?)),
    }
}

#[cycle(meaning)]
fn all_meant(
    alloc: Global,
    values: &List<ValueTree>,
    declared: &Names<Meaning>,
) -> Result<List<Value>, WireFault>
    ensures { Walks (meant_all declared.now [] values.now) result }
{
    let mut all = List::new(alloc);
    'values: for value in values.as_slice() {
        all.add(meant(alloc, value, declared)?)?;
    }
    Ok(all)
}

/// The value that a written value stands for, where it is of the type.
pub fn walk_value(
    alloc: Global,
    value: &ValueTree,
    ty: &Ty,
    declared: &Names<Meaning>,
) -> Result<Value, WireFault>
    ensures { Walks (value_walk declared.now ty.now value.now) result }
{
    let found = meant(alloc, value, declared)?;
    if !ty.holds(&found) {
        return Err(WireFault::WrongType(value_at(value)));
    }
    Ok(found)
}

/// The values of a key, each of the type at its place.
fn walk_values(
    alloc: Global,
    key: &List<ValueTree>,
    types: &List<Ty>,
    declared: &Names<Meaning>,
) -> Result<List<Value>, WireFault>
    ensures { Walks (values_from declared.now types.now 0 [] key.now) result }
{
    let mut all = List::new(alloc);
    'values: for (at, value) in key.as_slice().iter().enumerate() {
        match types.get(at) {
            Some(ty) => all.add(walk_value(alloc, value, ty, declared)?)?,
            None => return Err(WireFault::WrongType(value_at(value))),
        }
    }
    Ok(all)
}

/// The joint rank of a key: one value for each of the types.
pub fn walk_key(
    alloc: Global,
    at: u32,
    key: &List<ValueTree>,
    types: &List<Ty>,
    declared: &Names<Meaning>,
) -> Result<u32, WireFault>
    requires { AreSmall types.now }
    ensures { Walks (key_walk declared.now types.now at key.now) result }
{
    if key.len() != types.len() {
        return Err(WireFault::WrongCount(at));
    }
    let values = walk_values(alloc, key, types, declared)?;
    match joint_rank(types, &values) {
        Some(rank) => Ok(rank),
        None => Err(WireFault::WrongType(at)),
    }
}

/// So many ranks, none of which was there.
pub fn none_taken(alloc: Global, count: u32) -> Result<List<bool>, AllocError>
    ensures { IfOk result (λ made. made ≡ replicate count false) }
{
    let mut all = List::new(alloc);
    'ranks: for _rank in 0..count {
        all.add(false)?;
    }
    Ok(all)
}

/// Notes that the rank was there. It wasn't there before.
pub fn take(at: u32, taken: &mut List<bool>, rank: u32) -> Result<(), WireFault>
    ensures { Updates (row_taken at taken.old rank) result taken.new }
{
    match taken.get(rank as usize) {
        Some(false) => {
            taken.set(rank as usize, true);
            Ok(())
        }
        _ => Err(WireFault::RowTwice(at)),
    }
}

/// Notes that a key's joint rank was there. It wasn't there before.
pub fn take_row(
    alloc: Global,
    at: u32,
    key: &List<ValueTree>,
    types: &List<Ty>,
    declared: &Names<Meaning>,
    taken: &mut List<bool>,
) -> Result<(), WireFault>
    requires { AreSmall types.now }
    ensures { Updates (new_row declared.now types.now taken.old at key.now) result taken.new }
{
    let rank = walk_key(alloc, at, key, types, declared)?;
    take(at, taken, rank)
}

/// Whether each rank was there.
pub fn are_all_taken(taken: &List<bool>) -> bool
    ensures { result ≡ list_all (λ flag. flag) taken.now }
{
    'ranks: for flag in taken.as_slice() {
        if !*flag {
            return false;
        }
    }
    true
}
