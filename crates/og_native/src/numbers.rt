//! Numbers as values, and what operations on numbers answer.
ghost use Rattle.std.specs.Prelude.{◌≡◌, ◌≢◌, [], ◌∷◌, ◌++◌, Some, Err, IfOk};
ghost use Rattle.og_frac.specs.Fraction.{Fraction};
ghost use Rattle.og_frac.specs.Fitting.{fitting};
ghost use Rattle.og_frac.specs.Frac.{IsExact};
ghost use Rattle.og_types.specs.declared.value.Value.TheVariants as value;
ghost use Rattle.og_native.specs.declared.fault.NativeFault.TheVariants as NativeFault;
ghost use Rattle.og_native.specs.Answered.{Answers};
ghost use Rattle.og_native.specs.Mechanisms.{less};
ghost use Rattle.og_native.specs.Laws.{of_one, of_two, paid};

use crate::fault::NativeFault;
use og_frac::{Frac, FracFault};
use og_list::List;
use og_types::Value;
use std::alloc::Global;

/// The fraction, where the operation on fractions has one.
#[tactic(auto, using(og_frac::specs::laws::Passing::passed_exact))]
pub(crate) fn passed(found: Result<Frac, FracFault>) -> Result<Frac, NativeFault>
    ensures { (q : Fraction) → IsExact found q → Answers (fitting q) result }
{
    match found {
        Ok(number) => Ok(number),
        Err(_) => Err(NativeFault::Passes),
    }
}

/// The first number less the second.
pub(crate) fn less(p: Frac, q: Frac) -> Result<Frac, NativeFault>
    ensures { Answers (less p q) result }
{
    passed(p.sub(q))
}

/// The number of a list of one.
pub(crate) fn one_number(values: &[Value]) -> Result<Frac, NativeFault>
    ensures { Answers (of_one (λ x. Some x) values.now) result }
{
    let [v] = values else {
        return Err(NativeFault::Passes);
    };
    match v.as_number() {
        Some(x) => Ok(x),
        None => Err(NativeFault::Passes),
    }
}

/// The numbers of a list of two.
pub(crate) fn two_numbers(values: &[Value]) -> Result<(Frac, Frac), NativeFault>
    ensures { Answers (of_two (λ x y. Some (x, y)) values.now) result }
{
    let [v, w] = values else {
        return Err(NativeFault::Passes);
    };
    match (v.as_number(), w.as_number()) {
        (Some(x), Some(y)) => Ok((x, y)),
        _ => Err(NativeFault::Passes),
    }
}

/// The list with the number at its end.
pub(crate) fn with(values: List<Value>, number: Frac) -> Result<List<Value>, NativeFault>
    ensures made { IfOk result (λ all. all ≡ values ++ value.Number number ∷ []) }
    ensures memory { result ≢ Err NativeFault.Passes }
{
    let mut all = values;
    match all.add(Value::Number(number)) {
        Ok(_) => Ok(all),
        Err(_) => Err(NativeFault::Memory),
    }
}

/// The two numbers as a list.
pub(crate) fn paid(alloc: Global, p: Frac, q: Frac) -> Result<List<Value>, NativeFault>
    ensures { Answers (paid (Some p, Some q)) result }
{
    with(with(List::new(alloc), p)?, q)
}
