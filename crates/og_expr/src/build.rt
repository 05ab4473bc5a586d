//! The type of a form, and the expression that it makes.
ghost use Rattle.std.specs.Prelude.{◌≡◌, ◌^◌, ◌++◌, ◌∷◌, [], ℕ, nat_lt, nat_le, ◌&&◌, if◌then◌else◌, map, length, IfOk, option_and_then, is_some};
ghost use Rattle.std.specs.List.{list_all};
ghost use Rattle.std.specs.Option.{option_map};
ghost use Rattle.og_expr.specs.Terms.{term_of};
ghost use Rattle.og_expr.specs.Types.{type_of, typed_if, goes_as, is_word, join_both, join_onto, join_all, each_of, is_equality, compares, addend_fits, factor_fits, negated, component, key_fits, has_rows, type_rule};
ghost use Rattle.og_expr.specs.Levels.{node_with, addend_with, factor_with, choice_with, key_with};
ghost use Rattle.og_expr.specs.Built.{Builds};
ghost use Rattle.og_types.specs.Ty.{is_finite, bounds_fit};
ghost use Rattle.std.specs.Prelude.{Some, true, pos, ◌-ℤ◌, int_le};

use crate::count::{Size, measure};
use crate::expr::{BuildFault, Expr};
use crate::node::{Addend, Choice, Factor, Key, Node, NodeOf, Test};
use og_list::List;
use og_types::{Ty, joint_count};
use std::alloc::{AllocError, Global};

/// The type, where the test holds.
fn typed_if(holds: bool, ty: Ty) -> Option<Ty>
    ensures { result ≡ typed_if holds ty }
{
    if holds { Some(ty) } else { None }
}

/// Whether the number is below 2^63 in size.
pub(crate) fn is_word(n: i64) -> bool
    ensures { result ≡ is_word n }
{
    n.unsigned_abs() < 1 << 63
}

/// Whether the expression is a truth.
fn is_flag(e: &Expr) -> bool
    ensures { result ≡ goes_as Ty.Bool (type_of e.now) }
{
    e.ty().fits(&Ty::Bool)
}

/// Whether the expression is a number.
fn is_number(e: &Expr) -> bool
    ensures { result ≡ goes_as Ty.Number (type_of e.now) }
{
    e.ty().fits(&Ty::Number)
}

fn are_flags(parts: &List<Expr>) -> bool
    ensures { result ≡ list_all (goes_as Ty.Bool) (map type_of parts.now) }
{
    'parts: for part in parts.as_slice() {
        if !is_flag(part) {
            return false;
        }
    }
    true
}

fn are_addends(parts: &List<Addend<Expr>>) -> bool
    ensures { result ≡ list_all addend_fits (map (addend_with type_of) parts.now) }
{
    'parts: for part in parts.as_slice() {
        match part {
            Addend::Plus(e) | Addend::Minus(e) => {
                if !is_number(e) {
                    return false;
                }
            }
        }
    }
    true
}

fn are_factors(parts: &List<Factor<Expr>>) -> bool
    ensures { result ≡ list_all factor_fits (map (factor_with type_of) parts.now) }
{
    'parts: for part in parts.as_slice() {
        match part {
            Factor::Times(e) => {
                if !is_number(e) {
                    return false;
                }
            }
            Factor::Over(d) => {
                if *d == 0 || *d >= 1 << 63 {
                    return false;
                }
            }
        }
    }
    true
}

fn are_conditions(parts: &List<Choice<Expr>>) -> bool
    ensures { result ≡ list_all (λ c. goes_as Ty.Bool c.cond) (map (choice_with type_of) parts.now) }
{
    'parts: for part in parts.as_slice() {
        if !is_flag(&part.cond) {
            return false;
        }
    }
    true
}

/// Whether the key's type fits the one that it is looked up in, which is finite.
fn is_key(key: &Key<Expr>) -> bool
    ensures { result ≡ key_fits (key_with type_of key.now) }
{
    key.expr.ty().fits(&key.ty) && key.ty.count().is_some() && key.ty.bounds_fit()
}

fn are_keys(parts: &List<Key<Expr>>) -> bool
    ensures { result ≡ list_all key_fits (map (key_with type_of) parts.now) }
{
    'parts: for part in parts.as_slice() {
        if !is_key(part) {
            return false;
        }
    }
    true
}

/// The types in which the keys are looked up.
fn key_types(alloc: Global, parts: &List<Key<Expr>>) -> Result<List<Ty>, AllocError>
    ensures { IfOk result (λ ts. ts ≡ map (λ key. key.ty) (map (key_with type_of) parts.now)) }
{
    let mut all = List::new(alloc);
    'parts: for part in parts.as_slice() {
        all.add(part.ty.copy(alloc)?)?;
    }
    Ok(all)
}

/// Whether there are as many rows as lists of values of the finite types, and at most 4,096.
fn has_rows(types: &List<Ty>, rows: usize) -> bool
    requires { list_all is_finite types.now ≡ true }
    ensures { result ≡ has_rows types.now rows }
{
    match joint_count(types) {
        Some(many) => rows == many as usize && rows <= 4096,
        None => false,
    }
}

/// The join of the two types, where both are there.
fn join_both(alloc: Global, first: Option<Ty>, second: &Ty) -> Result<Option<Ty>, AllocError>
    ensures { IfOk result (λ found. found ≡ join_both first (Some second.now)) }
{
    match first {
        Some(ty) => ty.join(alloc, second),
        None => Ok(None),
    }
}

/// The join with the type of each row from the second on.
fn join_rows(alloc: Global, rows: &List<Expr>) -> Result<Option<Ty>, AllocError>
    ensures { IfOk result (λ found. found ≡ join_all (map type_of rows.now)) }
{
    let Some(first) = rows.get(0) else {
        return Ok(None);
    };
    let mut joined = Some(first.ty().copy(alloc)?);
    'rows: for row in &rows.as_slice()[1..] {
        joined = join_both(alloc, joined, row.ty())?;
    }
    Ok(joined)
}

/// The join of what stands under the conditions and of the last.
fn join_branches(
    alloc: Global,
    parts: &List<Choice<Expr>>,
    last: &Expr,
) -> Result<Option<Ty>, AllocError>
    ensures { IfOk result (λ found.
        found ≡ join_all (map (λ c. c.body) (map (choice_with type_of) parts.now) ++ type_of last.now ∷ [])) }
{
    let Some(first) = parts.get(0) else {
        return Ok(Some(last.ty().copy(alloc)?));
    };
    let mut joined = Some(first.body.ty().copy(alloc)?);
    'parts: for part in &parts.as_slice()[1..] {
        joined = join_both(alloc, joined, part.body.ty())?;
    }
    join_both(alloc, joined, last.ty())
}

/// The types of the parts.
fn types(alloc: Global, parts: &List<Expr>) -> Result<List<Ty>, AllocError>
    ensures { IfOk result (λ ts. each_of (map type_of parts.now) ≡ Some ts) }
{
    let mut all = List::new(alloc);
    'parts: for part in parts.as_slice() {
        all.add(part.ty().copy(alloc)?)?;
    }
    Ok(all)
}

fn var_type(alloc: Global, ty: &Ty) -> Result<Option<Ty>, AllocError>
    ensures { IfOk result (λ found. found ≡ typed_if (bounds_fit ty.now) ty.now) }
{
    if ty.bounds_fit() {
        Ok(Some(ty.copy(alloc)?))
    } else {
        Ok(None)
    }
}

fn compare_type(
    alloc: Global,
    test: Test,
    first: &Expr,
    second: &Expr,
) -> Result<Option<Ty>, AllocError>
    ensures { IfOk result (λ found. found ≡ typed_if (compares test (type_of first.now) (type_of second.now)) Ty.Bool) }
{
    let fits = match test {
        Test::Equal | Test::Differs => first.ty().join(alloc, second.ty())?.is_some(),
        _ => is_number(first) && is_number(second),
    };
    Ok(typed_if(fits, Ty::Bool))
}

/// The range of the opposites of the numbers between the two.
fn opposite_range(low: i64, high: i64) -> Option<Ty>
    ensures { result ≡ typed_if (is_word low && is_word high) (Ty.Range (pos 0 -ℤ high) (pos 0 -ℤ low)) }
{
    if is_word(low) && is_word(high) {
        Some(Ty::Range(-high, -low))
    } else {
        None
    }
}

/// The type of the opposite numbers.
fn negated_type(ty: &Ty) -> Option<Ty>
    ensures { result ≡ negated ty.now }
{
    match ty {
        Ty::Range(low, high) => opposite_range(*low, *high),
        Ty::Number => Some(Ty::Number),
        _ => None,
    }
}

fn field_type(alloc: Global, part: &Expr, k: u64) -> Result<Option<Ty>, AllocError>
    ensures { IfOk result (λ found. found ≡ type_rule (NodeOf.Field (type_of part.now) k)) }
{
    if k >= 1 << 63 {
        return Ok(None);
    }
    match part.ty() {
        Ty::Tuple(parts) => match parts.get(k as usize) {
            Some(ty) => Ok(Some(ty.copy(alloc)?)),
            None => Ok(None),
        },
        _ => Ok(None),
    }
}

fn tuple_type(alloc: Global, parts: &List<Expr>) -> Result<Option<Ty>, AllocError>
    ensures { IfOk result (λ found. found ≡ type_rule (NodeOf.Tuple (map type_of parts.now))) }
{
    if parts.len() < 2 {
        return Ok(None);
    }
    Ok(Some(Ty::Tuple(types(alloc, parts)?)))
}

fn if_type(alloc: Global, parts: &List<Choice<Expr>>, last: &Expr) -> Result<Option<Ty>, AllocError>
    ensures { IfOk result (λ found.
        found ≡ type_rule (NodeOf.If (map (choice_with type_of) parts.now) (type_of last.now))) }
{
    if !parts.is_empty() && are_conditions(parts) {
        join_branches(alloc, parts, last)
    } else {
        Ok(None)
    }
}

#[tactic(auto, using(crate::proofs::Forms::keys_finite))]
fn table_type(
    alloc: Global,
    parts: &List<Key<Expr>>,
    rows: &List<Expr>,
) -> Result<Option<Ty>, AllocError>
    ensures { IfOk result (λ found.
        found ≡ type_rule (NodeOf.Table (map (key_with type_of) parts.now) (map type_of rows.now))) }
{
    if parts.is_empty() || !are_keys(parts) {
        return Ok(None);
    }
    let types = key_types(alloc, parts)?;
    if has_rows(&types, rows.len()) {
        join_rows(alloc, rows)
    } else {
        Ok(None)
    }
}

/// Whether there are two parts or more, and all are truths.
fn is_chain(parts: &List<Expr>) -> bool
    ensures { result ≡ (nat_le 2 (length (map type_of parts.now)) && list_all (goes_as Ty.Bool) (map type_of parts.now)) }
{
    if parts.len() < 2 {
        return false;
    }
    are_flags(parts)
}

fn is_sum(first: &Expr, more: &List<Addend<Expr>>) -> bool
    ensures { result ≡ (goes_as Ty.Number (type_of first.now)
        && (nat_lt 0 (length (map (addend_with type_of) more.now)) && list_all addend_fits (map (addend_with type_of) more.now))) }
{
    if !is_number(first) {
        return false;
    }
    if more.is_empty() {
        return false;
    }
    are_addends(more)
}

fn is_product(first: &Expr, more: &List<Factor<Expr>>) -> bool
    ensures { result ≡ (goes_as Ty.Number (type_of first.now)
        && (nat_lt 0 (length (map (factor_with type_of) more.now)) && list_all factor_fits (map (factor_with type_of) more.now))) }
{
    if !is_number(first) {
        return false;
    }
    if more.is_empty() {
        return false;
    }
    are_factors(more)
}

fn is_clamp(low: i64, high: i64, part: &Expr) -> bool
    ensures { result ≡ ((is_word low && is_word high) && (int_le low high && goes_as Ty.Number (type_of part.now))) }
{
    if !is_word(low) {
        return false;
    }
    if !is_word(high) {
        return false;
    }
    if high < low {
        return false;
    }
    is_number(part)
}

/// The type that an expression of the form has, where it has one.
#[tactic(auto, using(crate::proofs::Forms::type_of_node))]
fn type_of(alloc: Global, node: &Node) -> Result<Option<Ty>, AllocError>
    ensures { IfOk result (λ found. found ≡ type_of (term_of node.now)) }
{
    match node {
        NodeOf::Literal(n) => Ok(typed_if(is_word(*n), Ty::Range(*n, *n))),
        NodeOf::Flag(_) => Ok(Some(Ty::Bool)),
        NodeOf::Case {
            family,
            cases,
            index,
        } => Ok(typed_if(index < cases, Ty::Enum(*family, *cases))),
        NodeOf::Var { number: _, ty } => var_type(alloc, ty),
        NodeOf::Or(parts) | NodeOf::And(parts) => Ok(typed_if(is_chain(parts), Ty::Bool)),
        NodeOf::Not(part) => Ok(typed_if(is_flag(part.get()), Ty::Bool)),
        NodeOf::Compare(test, a, b) => compare_type(alloc, *test, a.get(), b.get()),
        NodeOf::Sum(first, more) => Ok(typed_if(is_sum(first.get(), more), Ty::Number)),
        NodeOf::Product(first, more) => Ok(typed_if(is_product(first.get(), more), Ty::Number)),
        NodeOf::Neg(part) => Ok(negated_type(part.get().ty())),
        NodeOf::Field(part, k) => field_type(alloc, part.get(), *k),
        NodeOf::Tuple(parts) => tuple_type(alloc, parts),
        NodeOf::If(parts, last) => if_type(alloc, parts, last.get()),
        NodeOf::Table(parts, rows) => table_type(alloc, parts, rows),
        NodeOf::Ratio(x, y, z) => {
            let fits = is_number(x.get()) && is_number(y.get()) && is_number(z.get());
            Ok(typed_if(fits, Ty::Number))
        }
        NodeOf::Min(a, b) | NodeOf::Max(a, b) => {
            let fits = is_number(a.get()) && is_number(b.get());
            Ok(typed_if(fits, Ty::Number))
        }
        NodeOf::Clamp(low, high, part) => {
            let fits = is_clamp(*low, *high, part.get());
            Ok(typed_if(fits, Ty::Range(*low, *high)))
        }
    }
}

impl Expr {
    /// The expression of the form. `BadType` comes exactly where the parts don't have the types that the form asks for,
    /// or no text can write it.
    pub fn build(alloc: Global, node: Node) -> Result<Expr, BuildFault>
        ensures { Builds (term_of node) result }
    {
        match type_of(alloc, &node) {
            Ok(Some(ty)) => {
                let Size { nodes, height } = measure(&node);
                Ok(Expr {
                    node,
                    ty,
                    nodes,
                    height,
                })
            }
            Ok(None) => Err(BuildFault::BadType),
            Err(_) => Err(BuildFault::Memory),
        }
    }
}
