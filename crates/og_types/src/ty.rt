ghost use Rattle.std.specs.Prelude.{◌≡◌, ◌↔◌, IfOk, IsTrue, map};
ghost use Rattle.std.specs.List.{list_all};
ghost use Rattle.std.specs.Option.{option_map};
ghost use Rattle.std.specs.Cmp.Lexicographic.{pointwise};
ghost use Rattle.og_types.specs.Ty.{same, fits, join, joins, holds, is_between, bounds_fit};

use crate::value::Value;
use og_frac::Frac;
use og_list::List;
use std::alloc::{AllocError, Global};

/// What a wire can carry.
#[derive(Debug, Drop)]
pub enum Ty {
    /// The cases of an enum: its number and its count of cases.
    Enum(u32, u32),
    /// True and false.
    Bool,
    /// The whole numbers from the first to the second, both included.
    Range(i64, i64),
    /// One value of each type.
    Tuple(List<Ty>),
    /// Any fraction.
    Number,
}

impl Ty {
    /// An equal type, in memory of its own.
    #[cycle(type_copies)]
    pub fn copy(&self, alloc: Global) -> Result<Ty, AllocError>
        ensures { IfOk result (λ made. made ≡ self.now) }
    {
        match self {
            Ty::Enum(family, cases) => Ok(Ty::Enum(*family, *cases)),
            Ty::Bool => Ok(Ty::Bool),
            Ty::Range(low, high) => Ok(Ty::Range(*low, *high)),
            Ty::Tuple(parts) => Ok(Ty::Tuple(copy_types(alloc, parts)?)),
            Ty::Number => Ok(Ty::Number),
        }
    }

    /// Whether the two types are equal: whether each fits the other.
    #[tactic(auto, using(crate::proofs::FitsLaws::same_where_fits, crate::proofs::FitsLaws::same_nowhere_else))]
    fn is_same(&self, other: &Ty) -> bool
        ensures { result ≡ same self.now other.now }
    {
        self.fits(other) && other.fits(self)
    }

    /// Whether a value of this type will do where one of the other is asked for.
    #[cycle(fitting)]
    #[tactic(auto, using(crate::proofs::TyLevels::fits_tuples))]
    pub fn fits(&self, into: &Ty) -> bool
        ensures { result ≡ fits self.now into.now }
    {
        match (self, into) {
            (Ty::Enum(family, cases), Ty::Enum(other_family, other_cases)) => {
                family == other_family && cases == other_cases
            }
            (Ty::Bool, Ty::Bool) => true,
            (Ty::Range(low, high), Ty::Range(from, to)) => from <= low && high <= to,
            (Ty::Range(_, _), Ty::Number) => true,
            (Ty::Tuple(parts), Ty::Tuple(other_parts)) => all_fit(parts, other_parts),
            (Ty::Number, Ty::Number) => true,
            _ => false,
        }
    }

    /// Whether the value is of this type.
    #[cycle(holding)]
    #[tactic(auto, using(crate::proofs::TyLevels::holds_tuples))]
    pub fn holds(&self, v: &Value) -> bool
        ensures { result ≡ holds self.now v.now }
    {
        match (self, v) {
            (Ty::Enum(family, cases), Value::Case(of_family, index)) => {
                family == of_family && index < cases
            }
            (Ty::Bool, Value::Flag(_)) => true,
            (Ty::Range(low, high), Value::Number(number)) => is_between(*low, *high, number),
            (Ty::Tuple(parts), Value::Tuple(values)) => all_hold(parts, values),
            (Ty::Number, Value::Number(_)) => true,
            _ => false,
        }
    }

    /// The type of what may be of either type, where there is one: the least type that both fit.
    #[cycle(joining)]
    #[tactic(auto, using(crate::proofs::TyLevels::join_tuples))]
    pub fn join(&self, alloc: Global, with: &Ty) -> Result<Option<Ty>, AllocError>
        ensures { IfOk result (λ found. found ≡ join self.now with.now) }
    {
        match (self, with) {
            (Ty::Enum(family, cases), Ty::Enum(other_family, other_cases)) => {
                if family == other_family && cases == other_cases {
                    Ok(Some(Ty::Enum(*family, *cases)))
                } else {
                    Ok(None)
                }
            }
            (Ty::Bool, Ty::Bool) => Ok(Some(Ty::Bool)),
            (Ty::Range(low, high), Ty::Range(from, to)) => {
                Ok(Some(Ty::Range((*low).min(*from), (*high).max(*to))))
            }
            (Ty::Range(_, _), Ty::Number) => Ok(Some(Ty::Number)),
            (Ty::Number, Ty::Range(_, _)) => Ok(Some(Ty::Number)),
            (Ty::Number, Ty::Number) => Ok(Some(Ty::Number)),
            (Ty::Tuple(parts), Ty::Tuple(other_parts)) => {
                Ok(tuple_of(join_all(alloc, parts, other_parts)?))
            }
            _ => Ok(None),
        }
    }

    /// Whether no bound in the type is -2^63, which no fraction has as its numerator.
    #[cycle(bounding)]
    #[tactic(auto, using(crate::proofs::TyLevels::bounds_fit_tuple))]
    pub fn bounds_fit(&self) -> bool
        ensures { result ≡ bounds_fit self.now }
    {
        match self {
            Ty::Range(low, high) => low.unsigned_abs() < 1 << 63 && high.unsigned_abs() < 1 << 63,
            Ty::Tuple(parts) => all_bounds_fit(parts),
            _ => true,
        }
    }
}

/// Whether no bound in any of the types is -2^63.
#[cycle(bounding)]
pub fn all_bounds_fit(types: &List<Ty>) -> bool
    ensures { result ≡ list_all bounds_fit types.now }
{
    'types: for ty in types.as_slice() {
        if !ty.bounds_fit() {
            return false;
        }
    }
    true
}

/// Whether the number is a whole number from the first to the second.
pub(crate) fn is_between(low: i64, high: i64, number: &Frac) -> bool
    ensures { result ≡ is_between low high number.now }
{
    number.den() == 1 && low <= number.num() && number.num() <= high
}

/// The tuple of the types, where they are there.
fn tuple_of(parts: Option<List<Ty>>) -> Option<Ty>
    ensures { result ≡ option_map Ty.Tuple parts }
{
    match parts {
        Some(parts) => Some(Ty::Tuple(parts)),
        None => None,
    }
}

/// The joins place by place, where each is there and there are as many types.
#[cycle(joining)]
pub fn join_all(
    alloc: Global,
    types: &List<Ty>,
    with: &List<Ty>,
) -> Result<Option<List<Ty>>, AllocError>
    ensures { IfOk result (λ found. found ≡ joins (map join types.now) with.now) }
{
    if types.len() != with.len() {
        return Ok(None);
    }
    let mut all = List::new(alloc);
    'types: for (at, ty) in types.as_slice().iter().enumerate() {
        match with.get(at) {
            Some(other) => match ty.join(alloc, other)? {
                Some(joined) => all.add(joined)?,
                None => return Ok(None),
            },
            None => return Ok(None),
        }
    }
    Ok(Some(all))
}

/// Equal types, in the same order, in memory of their own.
#[cycle(type_copies)]
pub fn copy_types(alloc: Global, types: &List<Ty>) -> Result<List<Ty>, AllocError>
    ensures { IfOk result (λ made. made ≡ types.now) }
{
    let mut all = List::new(alloc);
    'types: for ty in types.as_slice() {
        all.add(ty.copy(alloc)?)?;
    }
    Ok(all)
}

/// Whether each type fits the one at its place, and there are as many.
#[cycle(fitting)]
pub fn all_fit(types: &List<Ty>, into: &List<Ty>) -> bool
    ensures { result ≡ pointwise fits types.now into.now }
{
    if types.len() != into.len() {
        return false;
    }
    'types: for (at, ty) in types.as_slice().iter().enumerate() {
        match into.get(at) {
            Some(other) => {
                if !ty.fits(other) {
                    return false;
                }
            }
            None => return false,
        }
    }
    true
}

/// Whether each value is of the type at its place, and there are as many.
#[cycle(holding)]
pub fn all_hold(types: &List<Ty>, values: &List<Value>) -> bool
    ensures { result ≡ pointwise holds types.now values.now }
{
    if types.len() != values.len() {
        return false;
    }
    'types: for (at, ty) in types.as_slice().iter().enumerate() {
        match values.get(at) {
            Some(value) => {
                if !ty.holds(value) {
                    return false;
                }
            }
            None => return false,
        }
    }
    true
}

/// Types are equal where they are of one form and their parts are equal: `==` answers true exactly at
/// equal types.
impl PartialEq for Ty {
    ghost use Rattle.og_types.specs.Ty.{same};
    ghost use Rattle.og_types.specs.laws.TyEquality.{same_decides};
    ghost use Rattle.std.specs.Cmp.{decided, partial_equiv_from_equiv};

    ghost eq = { same };

    ghost laws = { partial_equiv_from_equiv (decided same same_decides) };

    #[tactic(auto, using(crate::specs::laws::TyEquality::same_decides))]
    fn eq(&self, other: &Ty) -> bool
        ensures same { result ≡ same self.now other.now }
        ensures equal { IsTrue result ↔ (self.now ≡ other.now) }
    {
        self.is_same(other)
    }
}

impl Eq for Ty {
    ghost use Rattle.og_types.specs.Ty.{same};
    ghost use Rattle.og_types.specs.laws.TyEquality.{same_decides};
    ghost use Rattle.std.specs.Cmp.{decided};

    ghost laws = { decided same same_decides };
}
