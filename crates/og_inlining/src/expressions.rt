//! Written expressions.
ghost use Rattle.std.specs.Prelude.{◌≡◌, [], map, true};
ghost use Rattle.og_typing.specs.Levels.{sum_with, product_with, arm_with, key_with, row_with};
ghost use Rattle.og_typing.specs.Forms.{is_truth, is_number, is_composed};
ghost use Rattle.og_inlining.specs.Forms.{is_chain, is_quotient, is_pick};
ghost use Rattle.og_inlining.specs.Steps.{Gives, each_of};
ghost use Rattle.og_inlining.specs.Seen.{seen_of};
ghost use Rattle.og_inlining.specs.Trees.{tree_in, part_tree, addend_tree, factor_tree, arm_tree, key_tree, row_there, rows_tree, call_tree, arguments, occurs};

use crate::forms::{
    built, choice, clamp, comparison, denial, fields, greater, lesser, opposite, product, ratio,
    sum, table,
};
use crate::leaves::{named, occurs, placed, used_by};
use crate::seen::Trees;
use crate::tables::{order_of, written};
use og_expr::{Addend, BuildFault, Choice, Expr, Factor, Key, NodeOf};
use og_list::List;
use og_syntax::{ExprTree, IfArm, ProductPart, ResultTree, SumPart, TableRow};
use std::alloc::Global;

/// The tree that the expression stands for. `BadType` comes exactly where some form in it is no typed one.
#[cycle(trees)]
#[tactic(auto, using(crate::proofs::ByForm::leaves), unfolding(crate::specs::Trees::tree_rule))]
pub fn tree(alloc: Global, e: &ExprTree, seen: &Trees<'_>) -> Result<Expr, BuildFault>
    ensures { Gives (tree_in e.now (seen_of seen.now)) result }
{
    match e {
        ExprTree::Number(_, number) => built(alloc, NodeOf::Literal(*number)),
        ExprTree::Flag(_, flag) => built(alloc, NodeOf::Flag(*flag)),
        ExprTree::Name(_, name) => named(alloc, name.as_str(), seen),
        ExprTree::Call { name, args, .. } => called(alloc, args, name.as_str(), seen),
        ExprTree::Or(..) | ExprTree::And(..) | ExprTree::Not(..) | ExprTree::Compare { .. } => {
            truth(alloc, e, seen)
        }
        ExprTree::Sum { .. }
        | ExprTree::Product { .. }
        | ExprTree::Neg(..)
        | ExprTree::Ratio { .. }
        | ExprTree::Min(..)
        | ExprTree::Max(..)
        | ExprTree::Clamp { .. } => number(alloc, e, seen),
        ExprTree::Field { .. }
        | ExprTree::Tuple(..)
        | ExprTree::If { .. }
        | ExprTree::Table { .. } => composed(alloc, e, seen),
    }
}

/// The tree of `or`, `and`, `not` or a comparison.
#[cycle(trees)]
#[tactic(auto, using(crate::proofs::ByForm::truths), unfolding(crate::specs::Trees::tree_rule))]
fn truth(alloc: Global, e: &ExprTree, seen: &Trees<'_>) -> Result<Expr, BuildFault>
    requires { is_truth e.now ≡ true }
    ensures { Gives (tree_in e.now (seen_of seen.now)) result }
{
    match e {
        ExprTree::Or(_, parts) => built(alloc, NodeOf::Or(all(alloc, parts, seen)?)),
        ExprTree::And(_, parts) => built(alloc, NodeOf::And(all(alloc, parts, seen)?)),
        ExprTree::Not(_, part) => denial(alloc, tree(alloc, part.get(), seen)?),
        ExprTree::Compare {
            op,
            left,
            right,
            ..
        } => {
            let left = tree(alloc, left.get(), seen)?;
            let right = tree(alloc, right.get(), seen)?;
            comparison(alloc, *op, left, right)
        }
        ExprTree::Number(..)
        | ExprTree::Flag(..)
        | ExprTree::Name(..)
        | ExprTree::Call { .. }
        | ExprTree::Sum { .. }
        | ExprTree::Product { .. }
        | ExprTree::Neg(..)
        | ExprTree::Ratio { .. }
        | ExprTree::Min(..)
        | ExprTree::Max(..)
        | ExprTree::Clamp { .. }
        | ExprTree::Field { .. }
        | ExprTree::Tuple(..)
        | ExprTree::If { .. }
        | ExprTree::Table { .. } => unreachable!(),
    }
}

/// The tree of an operation on numbers.
#[cycle(trees)]
#[tactic(auto, using(crate::proofs::ByForm::numbers), unfolding(crate::specs::Trees::tree_rule))]
fn number(alloc: Global, e: &ExprTree, seen: &Trees<'_>) -> Result<Expr, BuildFault>
    requires { is_number e.now ≡ true }
    ensures { Gives (tree_in e.now (seen_of seen.now)) result }
{
    match e {
        ExprTree::Sum { .. } | ExprTree::Product { .. } => chain(alloc, e, seen),
        ExprTree::Neg(_, part) => opposite(alloc, tree(alloc, part.get(), seen)?),
        ExprTree::Ratio { .. } => quotient(alloc, e, seen),
        ExprTree::Min(..) | ExprTree::Max(..) => pick(alloc, e, seen),
        ExprTree::Clamp { lo, hi, part, .. } => {
            clamp(alloc, *lo, *hi, tree(alloc, part.get(), seen)?)
        }
        ExprTree::Number(..)
        | ExprTree::Flag(..)
        | ExprTree::Name(..)
        | ExprTree::Call { .. }
        | ExprTree::Or(..)
        | ExprTree::And(..)
        | ExprTree::Not(..)
        | ExprTree::Compare { .. }
        | ExprTree::Field { .. }
        | ExprTree::Tuple(..)
        | ExprTree::If { .. }
        | ExprTree::Table { .. } => unreachable!(),
    }
}

/// The tree of a chain of operations on numbers.
#[cycle(trees)]
#[tactic(auto, using(crate::proofs::ByForm::chains), unfolding(crate::specs::Trees::tree_rule))]
fn chain(alloc: Global, e: &ExprTree, seen: &Trees<'_>) -> Result<Expr, BuildFault>
    requires { is_chain e.now ≡ true }
    ensures { Gives (tree_in e.now (seen_of seen.now)) result }
{
    match e {
        ExprTree::Sum { first, rest, .. } => {
            let first = tree(alloc, first.get(), seen)?;
            let rest = addends(alloc, rest, seen)?;
            sum(alloc, first, rest)
        }
        ExprTree::Product { first, rest, .. } => {
            let first = tree(alloc, first.get(), seen)?;
            let rest = factors(alloc, rest, seen)?;
            product(alloc, first, rest)
        }
        ExprTree::Number(..)
        | ExprTree::Flag(..)
        | ExprTree::Name(..)
        | ExprTree::Call { .. }
        | ExprTree::Or(..)
        | ExprTree::And(..)
        | ExprTree::Not(..)
        | ExprTree::Compare { .. }
        | ExprTree::Field { .. }
        | ExprTree::Tuple(..)
        | ExprTree::If { .. }
        | ExprTree::Table { .. }
        | ExprTree::Neg(..)
        | ExprTree::Ratio { .. }
        | ExprTree::Min(..)
        | ExprTree::Max(..)
        | ExprTree::Clamp { .. } => unreachable!(),
    }
}

/// The tree of a quotient.
#[cycle(trees)]
#[tactic(auto, using(crate::proofs::ByForm::quotients), unfolding(crate::specs::Trees::tree_rule))]
fn quotient(alloc: Global, e: &ExprTree, seen: &Trees<'_>) -> Result<Expr, BuildFault>
    requires { is_quotient e.now ≡ true }
    ensures { Gives (tree_in e.now (seen_of seen.now)) result }
{
    match e {
        ExprTree::Ratio {
            x,
            y,
            otherwise,
            ..
        } => {
            let x = tree(alloc, x.get(), seen)?;
            let y = tree(alloc, y.get(), seen)?;
            ratio(alloc, x, y, tree(alloc, otherwise.get(), seen))
        }
        ExprTree::Number(..)
        | ExprTree::Flag(..)
        | ExprTree::Name(..)
        | ExprTree::Call { .. }
        | ExprTree::Or(..)
        | ExprTree::And(..)
        | ExprTree::Not(..)
        | ExprTree::Compare { .. }
        | ExprTree::Field { .. }
        | ExprTree::Tuple(..)
        | ExprTree::If { .. }
        | ExprTree::Table { .. }
        | ExprTree::Sum { .. }
        | ExprTree::Product { .. }
        | ExprTree::Neg(..)
        | ExprTree::Min(..)
        | ExprTree::Max(..)
        | ExprTree::Clamp { .. } => unreachable!(),
    }
}

/// The tree of the lesser or the greater of two.
#[cycle(trees)]
#[tactic(auto, using(crate::proofs::ByForm::picks), unfolding(crate::specs::Trees::tree_rule))]
fn pick(alloc: Global, e: &ExprTree, seen: &Trees<'_>) -> Result<Expr, BuildFault>
    requires { is_pick e.now ≡ true }
    ensures { Gives (tree_in e.now (seen_of seen.now)) result }
{
    match e {
        ExprTree::Min(_, first, second) => {
            let first = tree(alloc, first.get(), seen)?;
            let second = tree(alloc, second.get(), seen)?;
            lesser(alloc, first, second)
        }
        ExprTree::Max(_, first, second) => {
            let first = tree(alloc, first.get(), seen)?;
            let second = tree(alloc, second.get(), seen)?;
            greater(alloc, first, second)
        }
        ExprTree::Number(..)
        | ExprTree::Flag(..)
        | ExprTree::Name(..)
        | ExprTree::Call { .. }
        | ExprTree::Or(..)
        | ExprTree::And(..)
        | ExprTree::Not(..)
        | ExprTree::Compare { .. }
        | ExprTree::Field { .. }
        | ExprTree::Tuple(..)
        | ExprTree::If { .. }
        | ExprTree::Table { .. }
        | ExprTree::Ratio { .. }
        | ExprTree::Sum { .. }
        | ExprTree::Product { .. }
        | ExprTree::Neg(..)
        | ExprTree::Clamp { .. } => unreachable!(),
    }
}

/// The tree of a component, a tuple, or a choice by conditions or keys.
#[cycle(trees)]
#[tactic(auto, using(crate::proofs::ByForm::composed), unfolding(crate::specs::Trees::tree_rule))]
fn composed(alloc: Global, e: &ExprTree, seen: &Trees<'_>) -> Result<Expr, BuildFault>
    requires { is_composed e.now ≡ true }
    ensures { Gives (tree_in e.now (seen_of seen.now)) result }
{
    match e {
        ExprTree::Field { part, path, .. } => fields(alloc, tree(alloc, part.get(), seen)?, path),
        ExprTree::Tuple(_, parts) => built(alloc, NodeOf::Tuple(all(alloc, parts, seen)?)),
        ExprTree::If {
            arms,
            otherwise,
            ..
        } => {
            let choices = choices(alloc, arms, seen)?;
            let otherwise = tree(alloc, otherwise.get(), seen)?;
            choice(alloc, choices, otherwise)
        }
        ExprTree::Table {
            keys: those,
            rows,
            ..
        } => {
            let keyed = keys(alloc, those, seen)?;
            rows_by(alloc, rows, keyed, seen)
        }
        ExprTree::Number(..)
        | ExprTree::Flag(..)
        | ExprTree::Name(..)
        | ExprTree::Call { .. }
        | ExprTree::Or(..)
        | ExprTree::And(..)
        | ExprTree::Not(..)
        | ExprTree::Compare { .. }
        | ExprTree::Sum { .. }
        | ExprTree::Product { .. }
        | ExprTree::Neg(..)
        | ExprTree::Ratio { .. }
        | ExprTree::Min(..)
        | ExprTree::Max(..)
        | ExprTree::Clamp { .. } => unreachable!(),
    }
}

/// The body of the function with the name, with the arguments in the place of its parameters.
#[cycle(trees)]
#[tactic(auto, unfolding(crate::specs::Trees::call_tree))]
fn called(
    alloc: Global,
    args: &List<ExprTree>,
    name: &str,
    seen: &Trees<'_>,
) -> Result<Expr, BuildFault>
    ensures { Gives (call_tree name.now (map tree_in args.now) (seen_of seen.now)) result }
{
    match seen.bodies.get(name) {
        Some(body) => {
            let used = used_by(alloc, body)?;
            let trees = arguments(alloc, args, &used, seen)?;
            placed(alloc, body, &trees)
        }
        None => Err(BuildFault::BadType),
    }
}

/// The trees of the arguments. Where a body doesn't use its parameter, the argument isn't looked at.
#[cycle(trees)]
fn arguments(
    alloc: Global,
    args: &List<ExprTree>,
    used: &List<u32>,
    seen: &Trees<'_>,
) -> Result<List<Expr>, BuildFault>
    ensures { Gives (arguments (seen_of seen.now) (occurs used.now) 0 [] (map tree_in args.now)) result }
{
    let mut all = List::new(alloc);
    'arguments: for (at, arg) in args.as_slice().iter().enumerate() {
        let one = if occurs(used, at) {
            tree(alloc, arg, seen)?
        } else {
            built(alloc, NodeOf::Flag(false))?
        };
        all.add(one)?;
    }
    Ok(all)
}

#[cycle(trees)]
fn all(alloc: Global, parts: &List<ExprTree>, seen: &Trees<'_>) -> Result<List<Expr>, BuildFault>
    ensures { Gives (each_of (part_tree (seen_of seen.now)) [] (map tree_in parts.now)) result }
{
    let mut found = List::new(alloc);
    'parts: for part in parts.as_slice() {
        found.add(tree(alloc, part, seen)?)?;
    }
    Ok(found)
}

#[cycle(trees)]
fn addends(
    alloc: Global,
    rest: &List<SumPart>,
    seen: &Trees<'_>,
) -> Result<List<Addend<Expr>>, BuildFault>
    ensures { Gives (each_of (addend_tree (seen_of seen.now)) [] (map (sum_with tree_in) rest.now)) result }
{
    let mut found = List::new(alloc);
    'rest: for part in rest.as_slice() {
        let one = match part {
            SumPart::Plus(part) => Addend::Plus(tree(alloc, part, seen)?),
            SumPart::Minus(part) => Addend::Minus(tree(alloc, part, seen)?),
        };
        found.add(one)?;
    }
    Ok(found)
}

#[cycle(trees)]
fn factors(
    alloc: Global,
    rest: &List<ProductPart>,
    seen: &Trees<'_>,
) -> Result<List<Factor<Expr>>, BuildFault>
    ensures { Gives (each_of (factor_tree (seen_of seen.now)) [] (map (product_with tree_in) rest.now)) result }
{
    let mut found = List::new(alloc);
    'rest: for part in rest.as_slice() {
        let one = match part {
            ProductPart::Times(part) => Factor::Times(tree(alloc, part, seen)?),
            ProductPart::Over(divisor) => Factor::Over(*divisor),
        };
        found.add(one)?;
    }
    Ok(found)
}

#[cycle(trees)]
fn choices(
    alloc: Global,
    arms: &List<IfArm>,
    seen: &Trees<'_>,
) -> Result<List<Choice<Expr>>, BuildFault>
    ensures { Gives (each_of (arm_tree (seen_of seen.now)) [] (map (arm_with tree_in) arms.now)) result }
{
    let mut found = List::new(alloc);
    'arms: for arm in arms.as_slice() {
        let cond = tree(alloc, &arm.cond, seen)?;
        let body = tree(alloc, &arm.body, seen)?;
        found.add(Choice { cond, body })?;
    }
    Ok(found)
}

#[cycle(trees)]
fn keys(
    alloc: Global,
    those: &List<ResultTree>,
    seen: &Trees<'_>,
) -> Result<List<Key<Expr>>, BuildFault>
    ensures { Gives (each_of (key_tree (seen_of seen.now)) [] (map (key_with tree_in) those.now)) result }
{
    let mut found = List::new(alloc);
    'those: for key in those.as_slice() {
        let expr = tree(alloc, &key.expr, seen)?;
        let ty = written(alloc, &key.ty, seen.declared)?;
        found.add(Key { expr, ty })?;
    }
    Ok(found)
}

/// The table with the keys.
#[cycle(trees)]
#[tactic(auto, unfolding(crate::specs::Trees::rows_tree))]
fn rows_by(
    alloc: Global,
    rows: &List<TableRow>,
    keyed: List<Key<Expr>>,
    seen: &Trees<'_>,
) -> Result<Expr, BuildFault>
    ensures { Gives (rows_tree (seen_of seen.now) keyed (map (row_with tree_in) rows.now)) result }
{
    let order = order_of(alloc, rows, &keyed, seen.declared)?;
    let bodies = rows_in(alloc, rows, &order, seen)?;
    table(alloc, keyed, bodies)
}

/// What the rows at the places give, in the order of these.
#[cycle(trees)]
#[tactic(auto, using(crate::proofs::ByForm::rows_there))]
fn rows_in(
    alloc: Global,
    rows: &List<TableRow>,
    order: &List<usize>,
    seen: &Trees<'_>,
) -> Result<List<Expr>, BuildFault>
    ensures { Gives (each_of (row_there (seen_of seen.now) (map (row_with tree_in) rows.now)) [] order.now) result }
{
    let mut found = List::new(alloc);
    'order: for at in order.as_slice() {
        match rows.get(*at) {
            Some(row) => found.add(tree(alloc, &row.body, seen)?)?,
            None => return Err(BuildFault::BadType),
        }
    }
    Ok(found)
}
