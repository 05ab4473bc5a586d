//! The variables of an expression.
ghost use Rattle.std.specs.Prelude.{◌≡◌, [], ◌++◌, ◌<◌, ◌↔◌, ℕ, AllPairs, Contains, IfOk, OnOk, flat_map};
ghost use Rattle.og_expr.specs.Parts.{addend_part, factor_part};
ghost use Rattle.og_expr.specs.Levels.{addend_with, factor_with};
ghost use Rattle.og_expr.specs.Variables.{numbers_of};

use crate::expr::Expr;
use crate::node::{Addend, Choice, Factor, Key, NodeOf};
use og_list::List;
use std::alloc::{AllocError, Global};

#[cycle(walks)]
fn parts(those: &List<Expr>, found: &mut Vec<u32>) -> Result<(), AllocError>
    ensures { OnOk result (found.new.items ≡ found.old.items ++ flat_map numbers_of those.now) }
{
    'those: for e in those.as_slice() {
        walk(e, found)?;
    }
    Ok(())
}

#[cycle(walks)]
fn addends(those: &List<Addend<Expr>>, found: &mut Vec<u32>) -> Result<(), AllocError>
    ensures { OnOk result (found.new.items ≡ found.old.items
        ++ flat_map (λ a. addend_part (addend_with numbers_of a)) those.now) }
{
    'those: for one in those.as_slice() {
        match one {
            Addend::Plus(e) => walk(e, found)?,
            Addend::Minus(e) => walk(e, found)?,
        }
    }
    Ok(())
}

#[cycle(walks)]
fn factors(those: &List<Factor<Expr>>, found: &mut Vec<u32>) -> Result<(), AllocError>
    ensures { OnOk result (found.new.items ≡ found.old.items
        ++ flat_map (λ a. factor_part [] (factor_with numbers_of a)) those.now) }
{
    'those: for one in those.as_slice() {
        match one {
            Factor::Times(e) => walk(e, found)?,
            Factor::Over(_) => {}
        }
    }
    Ok(())
}

#[cycle(walks)]
fn choices(those: &List<Choice<Expr>>, found: &mut Vec<u32>) -> Result<(), AllocError>
    ensures { OnOk result (found.new.items ≡ found.old.items
        ++ flat_map (λ c. numbers_of c.cond ++ numbers_of c.body) those.now) }
{
    'those: for one in those.as_slice() {
        walk(&one.cond, found)?;
        walk(&one.body, found)?;
    }
    Ok(())
}

#[cycle(walks)]
fn keys(those: &List<Key<Expr>>, found: &mut Vec<u32>) -> Result<(), AllocError>
    ensures { OnOk result (found.new.items ≡ found.old.items ++ flat_map (λ key. numbers_of key.expr) those.now) }
{
    'those: for one in those.as_slice() {
        walk(&one.expr, found)?;
    }
    Ok(())
}

/// Adds the numbers of the variables, in order, one as often as it occurs.
#[cycle(walks)]
#[tactic(auto, using(crate::proofs::Ascending::added_node))]
fn walk(e: &Expr, found: &mut Vec<u32>) -> Result<(), AllocError>
    ensures { OnOk result (found.new.items ≡ found.old.items ++ numbers_of e.now) }
{
    match &e.node {
        NodeOf::Literal(_) | NodeOf::Flag(_) | NodeOf::Case { .. } => {}
        NodeOf::Var { number, ty: _ } => found.push(*number)?,
        NodeOf::Or(those) | NodeOf::And(those) | NodeOf::Tuple(those) => parts(those, found)?,
        NodeOf::Not(a) | NodeOf::Neg(a) => walk(a.get(), found)?,
        NodeOf::Field(a, _) | NodeOf::Clamp(_, _, a) => walk(a.get(), found)?,
        NodeOf::Compare(_, a, b) => {
            walk(a.get(), found)?;
            walk(b.get(), found)?;
        }
        NodeOf::Min(a, b) | NodeOf::Max(a, b) => {
            walk(a.get(), found)?;
            walk(b.get(), found)?;
        }
        NodeOf::Sum(a, more) => {
            walk(a.get(), found)?;
            addends(more, found)?;
        }
        NodeOf::Product(a, more) => {
            walk(a.get(), found)?;
            factors(more, found)?;
        }
        NodeOf::If(those, last) => {
            choices(those, found)?;
            walk(last.get(), found)?;
        }
        NodeOf::Table(those, rows) => {
            keys(those, found)?;
            parts(rows, found)?;
        }
        NodeOf::Ratio(a, b, c) => {
            walk(a.get(), found)?;
            walk(b.get(), found)?;
            walk(c.get(), found)?;
        }
    }
    Ok(())
}

/// Puts the numbers in order, and leaves one of each.
fn ascend(found: &mut Vec<u32>)
    ensures ascending { AllPairs (λ m n. m < n) found.new.items }
    ensures each { (n : ℕ) → Contains found.new.items n ↔ Contains found.old.items n }
{
    found.sort_unstable();
    found.dedup();
}

/// The numbers of the variables that occur, ascending, once each.
pub(crate) fn variables(alloc: Global, e: &Expr) -> Result<List<u32>, AllocError>
    ensures ascending { IfOk result (λ found. AllPairs (λ m n. m < n) found) }
    ensures each { IfOk result (λ found. (n : ℕ) → Contains found n ↔ Contains (numbers_of e.now) n) }
{
    let mut found = Vec::new(alloc);
    walk(e, &mut found)?;
    ascend(&mut found);
    List::from_slice(alloc, found.as_slice())
}
