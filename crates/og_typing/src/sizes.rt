//! How many nodes an expression has once its calls are replaced by bodies.
ghost use Rattle.std.specs.Prelude.{◌≡◌, map};
ghost use Rattle.std.specs.Option.{option_copied};
ghost use Rattle.og_expr.specs.Counts.{capped};
ghost use Rattle.og_typing.specs.Levels.{sum_with, product_with, arm_with, key_with, row_with};
ghost use Rattle.og_typing.specs.Scopes.{names_of};
ghost use Rattle.og_typing.specs.Sizes.{plus, times, used, with_parts, with_arguments, sum_count, product_count, arm_count, key_count, row_count, nodes_with};

use crate::meaning::{Meaning, Scope};
use og_list::List;
use og_syntax::{ExprTree, IfArm, ProductPart, ResultTree, SumPart, TableRow};

/// A sum that stands still at 2^32 - 1.
pub fn plus(m: u32, n: u32) -> u32
    ensures { result ≡ plus m n }
{
    m.saturating_add(n)
}

pub(crate) fn times(m: u32, n: u32) -> u32
    ensures { result ≡ times m n }
{
    m.saturating_mul(n)
}

/// A count that stands still at 2^32 - 1.
pub fn count_of(n: usize) -> u32
    ensures { result ≡ capped n }
{
    n.min(4_294_967_295) as u32
}

pub(crate) fn used(uses: Option<&u32>) -> u32
    ensures { result ≡ used (option_copied uses.entry) }
{
    match uses {
        Some(n) => *n,
        None => 0,
    }
}

/// How many nodes the expression has, where each variable counts as so many.
#[cycle(sizing)]
#[tactic(auto, using(crate::proofs::Sized::sizes), unfolding(crate::specs::Sizes::count_rule))]
pub fn nodes_with(e: &ExprTree, scope: &Scope<'_>, each: u32) -> u32
    ensures { result ≡ nodes_with each e.now (names_of scope.now) }
{
    match e {
        ExprTree::Number(..) | ExprTree::Flag(..) => 1,
        ExprTree::Name(_, name) => {
            if scope.variables.has(name.as_str()) {
                each
            } else {
                1
            }
        }
        ExprTree::Call { name, args, .. } => match scope.declared.get(name.as_str()) {
            Some(Meaning::Function(function)) => {
                with_arguments(args, &function.uses, scope, each, function.own)
            }
            _ => 1,
        },
        ExprTree::Or(_, parts) | ExprTree::And(_, parts) | ExprTree::Tuple(_, parts) => {
            with_parts(parts, scope, each)
        }
        ExprTree::Not(_, part) | ExprTree::Neg(_, part) | ExprTree::Clamp { part, .. } => {
            plus(1, nodes_with(part.get(), scope, each))
        }
        ExprTree::Compare { left, right, .. } => {
            let left = plus(1, nodes_with(left.get(), scope, each));
            plus(left, nodes_with(right.get(), scope, each))
        }
        ExprTree::Min(_, first, second) | ExprTree::Max(_, first, second) => {
            let first = plus(1, nodes_with(first.get(), scope, each));
            plus(first, nodes_with(second.get(), scope, each))
        }
        ExprTree::Sum { first, rest, .. } => {
            let first = plus(1, nodes_with(first.get(), scope, each));
            with_addends(rest, scope, each, first)
        }
        ExprTree::Product { first, rest, .. } => {
            let first = plus(1, nodes_with(first.get(), scope, each));
            with_factors(rest, scope, each, first)
        }
        ExprTree::Field { part, path, .. } => {
            plus(count_of(path.len()), nodes_with(part.get(), scope, each))
        }
        ExprTree::If {
            arms,
            otherwise,
            ..
        } => {
            let arms = with_arms(arms, scope, each);
            plus(arms, nodes_with(otherwise.get(), scope, each))
        }
        ExprTree::Table { keys, rows, .. } => {
            let keys = with_keys(keys, scope, each);
            with_rows(rows, scope, each, keys)
        }
        ExprTree::Ratio {
            x,
            y,
            otherwise,
            ..
        } => {
            let x = plus(1, nodes_with(x.get(), scope, each));
            let y = plus(x, nodes_with(y.get(), scope, each));
            plus(y, nodes_with(otherwise.get(), scope, each))
        }
    }
}

#[cycle(sizing)]
fn with_arguments(
    args: &List<ExprTree>,
    uses: &List<u32>,
    scope: &Scope<'_>,
    each: u32,
    mut found: u32,
) -> u32
    ensures { result ≡ with_arguments (names_of scope.now) uses.now 0 found (map (nodes_with each) args.now) }
{
    'arguments: for (at, arg) in args.as_slice().iter().enumerate() {
        let often = used(uses.get(at));
        found = plus(found, times(often, nodes_with(arg, scope, each)));
    }
    found
}

#[cycle(sizing)]
fn with_parts(parts: &List<ExprTree>, scope: &Scope<'_>, each: u32) -> u32
    ensures { result ≡ with_parts (λ count. count (names_of scope.now)) 1 (map (nodes_with each) parts.now) }
{
    let mut found = 1;
    'parts: for part in parts.as_slice() {
        found = plus(found, nodes_with(part, scope, each));
    }
    found
}

#[cycle(sizing)]
fn with_addends(rest: &List<SumPart>, scope: &Scope<'_>, each: u32, mut found: u32) -> u32
    ensures { result ≡ with_parts (sum_count (names_of scope.now)) found (map (sum_with (nodes_with each)) rest.now) }
{
    'rest: for addend in rest.as_slice() {
        let part = match addend {
            SumPart::Plus(part) | SumPart::Minus(part) => part,
        };
        found = plus(found, nodes_with(part, scope, each));
    }
    found
}

#[cycle(sizing)]
fn with_factors(rest: &List<ProductPart>, scope: &Scope<'_>, each: u32, mut found: u32) -> u32
    ensures { result ≡ with_parts (product_count (names_of scope.now)) found (map (product_with (nodes_with each)) rest.now) }
{
    'rest: for factor in rest.as_slice() {
        let nodes = match factor {
            ProductPart::Times(part) => nodes_with(part, scope, each),
            ProductPart::Over(_) => 0,
        };
        found = plus(found, nodes);
    }
    found
}

#[cycle(sizing)]
fn with_arms(arms: &List<IfArm>, scope: &Scope<'_>, each: u32) -> u32
    ensures { result ≡ with_parts (arm_count (names_of scope.now)) 1 (map (arm_with (nodes_with each)) arms.now) }
{
    let mut found = 1;
    'arms: for arm in arms.as_slice() {
        let cond = nodes_with(&arm.cond, scope, each);
        let nodes = plus(cond, nodes_with(&arm.body, scope, each));
        found = plus(found, nodes);
    }
    found
}

#[cycle(sizing)]
fn with_keys(keys: &List<ResultTree>, scope: &Scope<'_>, each: u32) -> u32
    ensures { result ≡ with_parts (key_count (names_of scope.now)) 1 (map (key_with (nodes_with each)) keys.now) }
{
    let mut found = 1;
    'keys: for key in keys.as_slice() {
        found = plus(found, nodes_with(&key.expr, scope, each));
    }
    found
}

#[cycle(sizing)]
fn with_rows(rows: &List<TableRow>, scope: &Scope<'_>, each: u32, mut found: u32) -> u32
    ensures { result ≡ with_parts (row_count (names_of scope.now)) found (map (row_with (nodes_with each)) rows.now) }
{
    'rows: for row in rows.as_slice() {
        let nodes = plus(count_of(row.key.len()), nodes_with(&row.body, scope, each));
        found = plus(found, nodes);
    }
    found
}
