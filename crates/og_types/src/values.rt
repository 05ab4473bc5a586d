ghost use Rattle.std.specs.Prelude.{◌≡◌, ◌<◌, ◌^◌, true, unsigned_abs, length, slice_get, IfOk, IsSome, ◌↔◌};
ghost use Rattle.std.specs.List.{list_all};
ghost use Rattle.std.specs.Option.{option_map};
ghost use Rattle.og_types.specs.Ty.{bounds_fit};
ghost use Rattle.og_types.specs.Values.{values_of, joint_values_of, IsSmall, AreSmall};

use crate::count::joint_count;
use crate::ty::Ty;
use crate::value::Value;
use og_frac::Frac;
use og_list::List;
use std::alloc::{AllocError, Global};

impl Ty {
    /// The value at this place, from 0, or `None` where the type hasn't so many values.
    pub fn at_rank(&self, alloc: Global, r: u32) -> Result<Option<Value>, AllocError>
        requires small { IsSmall self.now }
        requires bounds { bounds_fit self.now ≡ true }
        ensures value { IfOk result (λ found. found ≡ slice_get (values_of self.now) r) }
        ensures there { IfOk result (λ found. IsSome found ↔ (r < length (values_of self.now))) }
    {
        self.item(alloc, r)
    }

    // `at_rank`, which adds what follows from it.
    #[cycle(listing)]
    fn item(&self, alloc: Global, r: u32) -> Result<Option<Value>, AllocError>
        requires small { IsSmall self.now }
        requires bounds { bounds_fit self.now ≡ true }
        ensures { IfOk result (λ found. found ≡ slice_get (values_of self.now) r) }
    {
        match self {
            Ty::Enum(family, cases) => Ok(case_at(*family, *cases, r)),
            Ty::Bool => Ok(flag_at(r)),
            Ty::Range(low, high) => Ok(number_at(*low, *high, r)),
            Ty::Tuple(types) => Ok(tuple_value(joint_item(alloc, types, r)?)),
            Ty::Number => Ok(None),
        }
    }

    /// All values of the type, in order.
    pub fn values(&self, alloc: Global) -> Result<List<Value>, AllocError>
        requires small { IsSmall self.now }
        requires bounds { bounds_fit self.now ≡ true }
        ensures { IfOk result (λ all. all ≡ values_of self.now) }
    {
        let mut all = List::new(alloc);
        let count = self.count().unwrap_or(0);
        'ranks: for rank in 0..count {
            match self.item(alloc, rank)? {
                Some(value) => all.add(value)?,
                // There is a value at each rank below the count.
                None => return Ok(all),
            }
        }
        Ok(all)
    }
}

/// The case of the enum at this index, or `None` where the enum hasn't so many.
#[tactic(auto, using(crate::proofs::ValuesOf::at_enum, crate::proofs::ValuesOf::at_enum_past))]
fn case_at(family: u32, cases: u32, r: u32) -> Option<Value>
    ensures { result ≡ slice_get (values_of (Ty.Enum family cases)) r }
{
    if r < cases {
        Some(Value::Case(family, r))
    } else {
        None
    }
}

/// False at 0 and true at 1.
#[tactic(auto, using(crate::proofs::ValuesOf::at_bool))]
fn flag_at(r: u32) -> Option<Value>
    ensures { result ≡ slice_get (values_of Ty.Bool) r }
{
    match r {
        0 => Some(Value::Flag(false)),
        1 => Some(Value::Flag(true)),
        _ => None,
    }
}

/// The number of the range at this place, or `None` where the range hasn't so many.
#[tactic(auto, using(crate::proofs::ValuesOf::at_range, crate::proofs::ValuesOf::at_range_past))]
fn number_at(low: i64, high: i64, r: u32) -> Option<Value>
    requires low { unsigned_abs low < 2 ^ 63 }
    requires high { unsigned_abs high < 2 ^ 63 }
    ensures { result ≡ slice_get (values_of (Ty.Range low high)) r }
{
    let number = i128::from(low) + i128::from(r);
    if number <= i128::from(high) {
        Some(Value::Number(Frac::whole(number as i64)))
    } else {
        None
    }
}

/// The tuple of the values, where they are there.
fn tuple_value(values: Option<List<Value>>) -> Option<Value>
    ensures { result ≡ option_map Value.Tuple values }
{
    match values {
        Some(values) => Some(Value::Tuple(values)),
        None => None,
    }
}

/// The list of one value of each type at this place, from 0, the first type's values slowest, or
/// `None` where there aren't so many.
pub fn joint_at_rank(
    alloc: Global,
    types: &List<Ty>,
    r: u32,
) -> Result<Option<List<Value>>, AllocError>
    requires small { AreSmall types.now }
    requires bounds { list_all bounds_fit types.now ≡ true }
    ensures value { IfOk result (λ found. found ≡ slice_get (joint_values_of types.now) r) }
    ensures there { IfOk result (λ found. IsSome found ↔ (r < length (joint_values_of types.now))) }
{
    joint_item(alloc, types, r)
}

// `joint_at_rank`, which adds what follows from it.
#[cycle(listing)]
fn joint_item(alloc: Global, types: &List<Ty>, r: u32) -> Result<Option<List<Value>>, AllocError>
    requires small { AreSmall types.now }
    requires bounds { list_all bounds_fit types.now ≡ true }
    ensures { IfOk result (λ found. found ≡ slice_get (joint_values_of types.now) r) }
{
    let mut weight = joint_count(types).unwrap_or(0);
    if r >= weight {
        return Ok(None);
    }
    let mut left = r;
    let mut all = List::new(alloc);
    'types: for ty in types.as_slice() {
        match ty.count() {
            Some(count) => weight /= count,
            None => return Ok(None),
        }
        match ty.item(alloc, left / weight)? {
            Some(value) => all.add(value)?,
            None => return Ok(None),
        }
        left %= weight;
    }
    Ok(Some(all))
}

/// All lists of one value of each type, in order, the first type's values slowest.
pub fn joint_values(alloc: Global, types: &List<Ty>) -> Result<List<List<Value>>, AllocError>
    requires small { AreSmall types.now }
    requires bounds { list_all bounds_fit types.now ≡ true }
    ensures { IfOk result (λ all. all ≡ joint_values_of types.now) }
{
    let mut all = List::new(alloc);
    let count = joint_count(types).unwrap_or(0);
    'ranks: for rank in 0..count {
        match joint_item(alloc, types, rank)? {
            Some(values) => all.add(values)?,
            // There is a list at each rank below the count.
            None => return Ok(all),
        }
    }
    Ok(all)
}
