//! The value of an expression.
ghost use Rattle.std.specs.Prelude.{◌≡◌, ◌≢◌, Err, IfOk, ◌++◌, ◌∷◌, [], Option, Bool, ◌+◌, ◌^◌, ◌<◌, pos, nat_lt, ◌&&◌, if◌then◌else◌, ℕ, List, map, length, slice_get, Some, None, true, option_and_then, not};
ghost use Rattle.std.specs.Option.{option_map};
ghost use Rattle.std.specs.Int.{int_min, int_max};
ghost use Rattle.og_types.specs.declared.value.Value.{Value};
ghost use Rattle.og_types.specs.declared.value.Value.TheVariants as value;
ghost use Rattle.og_frac.specs.Fraction as fraction;
ghost use Rattle.og_frac.specs.Fraction.{Fraction};
ghost use Rattle.og_frac.specs.Frac.{IsExact};
ghost use Rattle.og_expr.specs.Values.{flag_in, number_in, whole_value, any_of, all_of, first_chosen, or_last, added, number_value, sum_from, multiplied, product_from, holds_in, equals, compared, clamped, place_in, row_at, value_in, value_of};
ghost use Rattle.og_types.specs.Value.{flag_of, number_of, part_of};
ghost use Rattle.og_frac.specs.Fitting.{fitting, ratio_of};
ghost use Rattle.og_expr.specs.Types.{each_of, is_equality, is_word, type_of};
ghost use Rattle.og_expr.specs.Levels.{addend_with, factor_with, choice_with, key_with};
ghost use Rattle.og_types.specs.Values.{joint_values_of, AreSmall};
ghost use Rattle.og_expr.specs.Evaluated.{Evaluates};

use crate::build::is_word;
use crate::expr::Expr;
use crate::node::{Addend, Choice, Factor, Key, NodeOf, Test};
use og_frac::{Frac, FracFault};
use og_list::List;
use og_steps::Steps;
use og_types::Value;
use std::alloc::Global;
use std::cmp::Ordering;
use std::sync::ledger::Ledger;

/// Why an expression has no value.
#[derive(Clone, Copy, Debug, PartialEq, Eq)]
pub enum EvalFault {
    /// A step that is evaluated has no value that fits.
    Passes,
    /// There was no memory.
    Memory,
}

/// The fraction, where the operation on fractions has one.
#[tactic(auto, using(og_frac::specs::laws::Passing::passed_exact))]
fn passed(found: Result<Frac, FracFault>) -> Result<Frac, EvalFault>
    ensures { (q : Fraction) → IsExact found q → Evaluates (fitting q) result }
{
    match found {
        Ok(number) => Ok(number),
        Err(_) => Err(EvalFault::Passes),
    }
}

fn whole_value(n: i64) -> Result<Value, EvalFault>
    ensures { Evaluates (whole_value n) result }
{
    if is_word(n) {
        Ok(Value::Number(Frac::whole(n)))
    } else {
        Err(EvalFault::Passes)
    }
}

fn flag_of(v: Value) -> Result<bool, EvalFault>
    ensures { Evaluates (flag_of v) result }
{
    match v {
        Value::Flag(flag) => Ok(flag),
        _ => Err(EvalFault::Passes),
    }
}

fn number_of(v: Value) -> Result<Frac, EvalFault>
    ensures { Evaluates (number_of v) result }
{
    match v {
        Value::Number(number) => Ok(number),
        _ => Err(EvalFault::Passes),
    }
}

/// The value at the place, copied.
fn value_at(alloc: Global, values: &[Value], k: u64) -> Result<Value, EvalFault>
    ensures { Evaluates (slice_get values.now k) result }
{
    let Some(found) = values.get(k as usize) else {
        return Err(EvalFault::Passes);
    };
    match found.copy(alloc) {
        Ok(made) => Ok(made),
        Err(_) => Err(EvalFault::Memory),
    }
}

fn part_of(alloc: Global, v: &Value, k: u64) -> Result<Value, EvalFault>
    ensures { Evaluates (part_of k v.now) result }
{
    match v {
        Value::Tuple(parts) => value_at(alloc, parts.as_slice(), k),
        _ => Err(EvalFault::Passes),
    }
}

/// The number by the divisor.
fn over(n: Frac, d: u64) -> Result<Frac, EvalFault>
    ensures { Evaluates (if nat_lt 0 d && nat_lt d (2 ^ 63) then fitting (fraction.quotient n (fraction.whole (pos d))) else None) result }
{
    if d == 0 || d >= 1 << 63 {
        return Err(EvalFault::Passes);
    }
    passed(n.ratio(Frac::whole(d as i64), n))
}

fn opposite(n: Frac) -> Result<Frac, EvalFault>
    ensures { Evaluates (fitting (fraction.difference (fraction.whole (pos 0)) n)) result }
{
    passed(Frac::whole(0).sub(n))
}

fn ratio_of(x: Frac, y: Frac, z: Frac) -> Result<Frac, EvalFault>
    ensures { Evaluates (ratio_of x y z) result }
{
    if y.num() == 0 {
        Ok(z)
    } else {
        passed(x.ratio(y, z))
    }
}

fn is_equality(test: Test) -> bool
    ensures { result ≡ is_equality test }
{
    match test {
        Test::Equal | Test::Differs => true,
        _ => false,
    }
}

fn equals(test: Test, v: &Value, w: &Value) -> bool
    ensures { result ≡ equals test v.now w.now }
{
    match test {
        Test::Equal => v == w,
        _ => v != w,
    }
}

fn holds_in(test: Test, found: Ordering) -> bool
    ensures { result ≡ holds_in test found }
{
    match test {
        Test::Equal => found == Ordering::Equal,
        Test::Differs => found != Ordering::Equal,
        Test::Less => found == Ordering::Less,
        Test::AtMost => found != Ordering::Greater,
        Test::Greater => found == Ordering::Greater,
        Test::AtLeast => found != Ordering::Less,
    }
}

/// The list with one value more.
fn with(values: List<Value>, v: Value) -> Result<List<Value>, EvalFault>
    ensures made { IfOk result (λ all. all ≡ values ++ v ∷ []) }
    ensures memory { result ≢ Err EvalFault.Passes }
{
    let mut all = values;
    match all.add(v) {
        Ok(_) => Ok(all),
        Err(_) => Err(EvalFault::Memory),
    }
}

/// The place of the values among those of the keys' types.
fn place_in(keys: &List<Key<Expr>>, found: &List<Value>) -> Result<usize, EvalFault>
    requires small { AreSmall (map (λ key. key.ty) keys.now) }
    requires some { 0 < length (joint_values_of (map (λ key. key.ty) keys.now)) }
    ensures { Evaluates (place_in (map (λ key. key.ty) keys.now) found.now) result }
{
    if keys.len() != found.len() {
        return Err(EvalFault::Passes);
    }
    let mut rank = 0;
    'keys: for (at, key) in keys.as_slice().iter().enumerate() {
        let Some(count) = key.ty.count() else {
            return Err(EvalFault::Passes);
        };
        let Some(v) = found.get(at) else {
            return Err(EvalFault::Passes);
        };
        let Some(here) = key.ty.rank(v) else {
            return Err(EvalFault::Passes);
        };
        rank = rank * count + here;
    }
    Ok(rank as usize)
}

fn clamped(low: i64, high: i64, n: Frac) -> Result<Value, EvalFault>
    ensures { Evaluates (clamped low high n) result }
{
    whole_value(low.max(high.min(n.floor())))
}

/// Whether one of the parts holds, from the left up to the first that does.
#[cycle(values)]
fn any_of(alloc: Global, parts: &List<Expr>, env: &[Value]) -> Result<bool, EvalFault>
    ensures { Evaluates (any_of (map (value_of env.now) parts.now)) result }
{
    'parts: for part in parts.as_slice() {
        if flag_of(value(alloc, part, env)?)? {
            return Ok(true);
        }
    }
    Ok(false)
}

/// Whether all parts hold, from the left up to the first that doesn't.
#[cycle(values)]
fn all_of(alloc: Global, parts: &List<Expr>, env: &[Value]) -> Result<bool, EvalFault>
    ensures { Evaluates (all_of (map (value_of env.now) parts.now)) result }
{
    'parts: for part in parts.as_slice() {
        if !flag_of(value(alloc, part, env)?)? {
            return Ok(false);
        }
    }
    Ok(true)
}

#[cycle(values)]
fn sum_from(
    alloc: Global,
    parts: &List<Addend<Expr>>,
    env: &[Value],
    first: Frac,
) -> Result<Frac, EvalFault>
    ensures { Evaluates (sum_from first (map (addend_with (value_of env.now)) parts.now)) result }
{
    let mut total = first;
    'parts: for part in parts.as_slice() {
        match part {
            Addend::Plus(e) => total = passed(total.add(number_of(value(alloc, e, env)?)?))?,
            Addend::Minus(e) => total = passed(total.sub(number_of(value(alloc, e, env)?)?))?,
        }
    }
    Ok(total)
}

#[cycle(values)]
fn product_from(
    alloc: Global,
    parts: &List<Factor<Expr>>,
    env: &[Value],
    first: Frac,
) -> Result<Frac, EvalFault>
    ensures { Evaluates (product_from first (map (factor_with (value_of env.now)) parts.now)) result }
{
    let mut total = first;
    'parts: for part in parts.as_slice() {
        match part {
            Factor::Times(e) => total = passed(total.mul(number_of(value(alloc, e, env)?)?))?,
            Factor::Over(d) => total = over(total, *d)?,
        }
    }
    Ok(total)
}

/// What stands under the first condition that holds, and `None` where none does.
#[cycle(values)]
fn first_chosen(
    alloc: Global,
    parts: &List<Choice<Expr>>,
    env: &[Value],
) -> Result<Option<Value>, EvalFault>
    ensures { Evaluates (first_chosen (map (choice_with (value_of env.now)) parts.now)) result }
{
    'parts: for part in parts.as_slice() {
        if flag_of(value(alloc, &part.cond, env)?)? {
            return Ok(Some(value(alloc, &part.body, env)?));
        }
    }
    Ok(None)
}

/// The values of the parts.
#[cycle(values)]
fn values(alloc: Global, parts: &List<Expr>, env: &[Value]) -> Result<List<Value>, EvalFault>
    ensures { Evaluates (each_of (map (value_of env.now) parts.now)) result }
{
    let mut all = List::new(alloc);
    'parts: for part in parts.as_slice() {
        all = with(all, value(alloc, part, env)?)?;
    }
    Ok(all)
}

/// The values of the keys.
#[cycle(values)]
fn key_values(
    alloc: Global,
    parts: &List<Key<Expr>>,
    env: &[Value],
) -> Result<List<Value>, EvalFault>
    ensures { Evaluates (each_of (map (λ key. key.expr) (map (key_with (value_of env.now)) parts.now))) result }
{
    let mut all = List::new(alloc);
    'parts: for part in parts.as_slice() {
        all = with(all, value(alloc, &part.expr, env)?)?;
    }
    Ok(all)
}

/// The value of the row at the place.
#[cycle(values)]
fn row_at(alloc: Global, rows: &List<Expr>, env: &[Value], k: usize) -> Result<Value, EvalFault>
    ensures { Evaluates (row_at (map (value_of env.now) rows.now) k) result }
{
    if k < rows.len() {
        value(alloc, &rows.as_slice()[k], env)
    } else {
        Err(EvalFault::Passes)
    }
}

/// The value of an expression.
#[cycle(values)]
#[tactic(auto, using(crate::proofs::Forms::value_in_node, crate::proofs::Steps::keys_typed))]
fn value(alloc: Global, e: &Expr, env: &[Value]) -> Result<Value, EvalFault>
    ensures { Evaluates (value_of env.now e.now) result }
{
    match &e.node {
        NodeOf::Literal(n) => whole_value(*n),
        NodeOf::Flag(flag) => Ok(Value::Flag(*flag)),
        NodeOf::Case { family, index, .. } => Ok(Value::Case(*family, *index)),
        NodeOf::Var { number, .. } => value_at(alloc, env, u64::from(*number)),
        NodeOf::Or(parts) => Ok(Value::Flag(any_of(alloc, parts, env)?)),
        NodeOf::And(parts) => Ok(Value::Flag(all_of(alloc, parts, env)?)),
        NodeOf::Not(part) => Ok(Value::Flag(!flag_of(value(alloc, part.get(), env)?)?)),
        NodeOf::Compare(test, a, b) => {
            if is_equality(*test) {
                let v = value(alloc, a.get(), env)?;
                let w = value(alloc, b.get(), env)?;
                Ok(Value::Flag(equals(*test, &v, &w)))
            } else {
                let p = number_of(value(alloc, a.get(), env)?)?;
                let q = number_of(value(alloc, b.get(), env)?)?;
                Ok(Value::Flag(holds_in(*test, p.cmp(&q))))
            }
        }
        NodeOf::Sum(first, more) => {
            let n = number_of(value(alloc, first.get(), env)?)?;
            Ok(Value::Number(sum_from(alloc, more, env, n)?))
        }
        NodeOf::Product(first, more) => {
            let n = number_of(value(alloc, first.get(), env)?)?;
            Ok(Value::Number(product_from(alloc, more, env, n)?))
        }
        NodeOf::Neg(part) => {
            let n = number_of(value(alloc, part.get(), env)?)?;
            Ok(Value::Number(opposite(n)?))
        }
        NodeOf::Field(part, k) => part_of(alloc, &value(alloc, part.get(), env)?, *k),
        NodeOf::Tuple(parts) => Ok(Value::Tuple(values(alloc, parts, env)?)),
        NodeOf::If(choices, last) => match first_chosen(alloc, choices, env)? {
            Some(found) => Ok(found),
            None => value(alloc, last.get(), env),
        },
        NodeOf::Table(keys, rows) => {
            let found = key_values(alloc, keys, env)?;
            let k = place_in(keys, &found)?;
            row_at(alloc, rows, env, k)
        }
        NodeOf::Ratio(x, y, z) => {
            let p = number_of(value(alloc, x.get(), env)?)?;
            let q = number_of(value(alloc, y.get(), env)?)?;
            let r = number_of(value(alloc, z.get(), env)?)?;
            Ok(Value::Number(ratio_of(p, q, r)?))
        }
        NodeOf::Min(a, b) => {
            let p = number_of(value(alloc, a.get(), env)?)?;
            let q = number_of(value(alloc, b.get(), env)?)?;
            Ok(Value::Number(p.lesser(q)))
        }
        NodeOf::Max(a, b) => {
            let p = number_of(value(alloc, a.get(), env)?)?;
            let q = number_of(value(alloc, b.get(), env)?)?;
            Ok(Value::Number(p.greater(q)))
        }
        NodeOf::Clamp(low, high, part) => {
            let n = number_of(value(alloc, part.get(), env)?)?;
            clamped(*low, *high, n)
        }
    }
}

/// The value of the expression where the variables have the values of the list, by their numbers.
/// The call is one step. Its time is the nodes that it evaluates and the values that it copies: `if`,
/// `and` and `or` stop at what they need, and a table's row is found by its rank, never by going
/// through the rows; no tree is copied. `Passes` exactly where the expression has no value there.
pub fn eval<L: Ledger>(
    alloc: Global,
    e: &Expr,
    env: &[Value],
    steps: &mut Steps<L>,
) -> Result<Value, EvalFault>
    ensures value { Evaluates (value_of env.now e.now) result }
    ensures step { steps.new ≡ steps.old + 1 }
{
    steps.tick();
    value(alloc, e, env)
}
