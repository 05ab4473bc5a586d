//! How often each variable stands in an expression once its calls are replaced by bodies.
ghost use Rattle.std.specs.Prelude.{◌≡◌, map};
ghost use Rattle.og_typing.specs.Levels.{sum_with, product_with, arm_with, key_with, row_with};
ghost use Rattle.og_typing.specs.Scopes.{names_of};
ghost use Rattle.og_typing.specs.Uses.{noted, through, part_uses, sum_uses, product_uses, arm_uses, key_uses, row_uses, argument_uses, uses_in, variable_in};

use crate::meaning::{Meaning, Scope};
use crate::sizes::{plus, times, used};
use og_list::List;
use og_syntax::{ExprTree, IfArm, ProductPart, ResultTree, SumPart, TableRow};

/// Notes so many more of the variable.
#[tactic(auto, unfolding(crate::specs::Uses::noted))]
fn note(number: Option<usize>, often: u32, counts: &mut List<u32>)
    ensures { counts.new ≡ noted number often counts.old }
{
    if let Some(k) = number {
        if k < counts.len() {
            let count = plus(used(counts.get(k)), often);
            counts.set(k, count);
        }
    }
}

/// Notes the variables of an expression that stands there so many times.
#[cycle(using_up)]
#[tactic(auto, using(crate::proofs::Used::uses), unfolding(crate::specs::Uses::uses_rule))]
pub fn note_uses(e: &ExprTree, scope: &Scope<'_>, often: u32, counts: &mut List<u32>)
    ensures { counts.new ≡ uses_in e.now (names_of scope.now) often counts.old }
{
    match e {
        ExprTree::Number(..) | ExprTree::Flag(..) => {}
        ExprTree::Name(_, name) => note(scope.variables.place(name.as_str()), often, counts),
        ExprTree::Call { name, args, .. } => {
            if let Some(Meaning::Function(function)) = scope.declared.get(name.as_str()) {
                note_arguments(args, &function.uses, scope, often, counts);
            }
        }
        ExprTree::Or(_, parts) | ExprTree::And(_, parts) | ExprTree::Tuple(_, parts) => {
            note_parts(parts, scope, often, counts);
        }
        ExprTree::Not(_, part)
        | ExprTree::Neg(_, part)
        | ExprTree::Clamp { part, .. }
        | ExprTree::Field { part, .. } => note_uses(part.get(), scope, often, counts),
        ExprTree::Compare { left, right, .. } => {
            note_uses(left.get(), scope, often, counts);
            note_uses(right.get(), scope, often, counts);
        }
        ExprTree::Min(_, first, second) | ExprTree::Max(_, first, second) => {
            note_uses(first.get(), scope, often, counts);
            note_uses(second.get(), scope, often, counts);
        }
        ExprTree::Sum { first, rest, .. } => {
            note_uses(first.get(), scope, often, counts);
            note_addends(rest, scope, often, counts);
        }
        ExprTree::Product { first, rest, .. } => {
            note_uses(first.get(), scope, often, counts);
            note_factors(rest, scope, often, counts);
        }
        ExprTree::If {
            arms,
            otherwise,
            ..
        } => {
            note_arms(arms, scope, often, counts);
            note_uses(otherwise.get(), scope, often, counts);
        }
        ExprTree::Table { keys, rows, .. } => {
            note_keys(keys, scope, often, counts);
            note_rows(rows, scope, often, counts);
        }
        ExprTree::Ratio {
            x,
            y,
            otherwise,
            ..
        } => {
            note_uses(x.get(), scope, often, counts);
            note_uses(y.get(), scope, often, counts);
            note_uses(otherwise.get(), scope, often, counts);
        }
    }
}

#[cycle(using_up)]
fn note_arguments(
    args: &List<ExprTree>,
    uses: &List<u32>,
    scope: &Scope<'_>,
    often: u32,
    counts: &mut List<u32>,
)
    ensures { counts.new ≡ argument_uses (names_of scope.now) often uses.now 0 counts.old (map uses_in args.now) }
{
    'arguments: for (at, arg) in args.as_slice().iter().enumerate() {
        let of_body = used(uses.get(at));
        note_uses(arg, scope, times(often, of_body), counts);
    }
}

#[cycle(using_up)]
fn note_parts(parts: &List<ExprTree>, scope: &Scope<'_>, often: u32, counts: &mut List<u32>)
    ensures { counts.new ≡ through (part_uses (names_of scope.now) often) counts.old (map uses_in parts.now) }
{
    'all: for part in parts.as_slice() {
        note_uses(part, scope, often, counts);
    }
}

#[cycle(using_up)]
fn note_addends(rest: &List<SumPart>, scope: &Scope<'_>, often: u32, counts: &mut List<u32>)
    ensures { counts.new ≡ through (sum_uses (names_of scope.now) often) counts.old (map (sum_with uses_in) rest.now) }
{
    'all: for addend in rest.as_slice() {
        let part = match addend {
            SumPart::Plus(part) | SumPart::Minus(part) => part,
        };
        note_uses(part, scope, often, counts);
    }
}

#[cycle(using_up)]
fn note_factors(rest: &List<ProductPart>, scope: &Scope<'_>, often: u32, counts: &mut List<u32>)
    ensures { counts.new ≡ through (product_uses (names_of scope.now) often) counts.old (map (product_with uses_in) rest.now) }
{
    'all: for factor in rest.as_slice() {
        match factor {
            ProductPart::Times(part) => note_uses(part, scope, often, counts),
            ProductPart::Over(_) => {}
        }
    }
}

#[cycle(using_up)]
fn note_arms(arms: &List<IfArm>, scope: &Scope<'_>, often: u32, counts: &mut List<u32>)
    ensures { counts.new ≡ through (arm_uses (names_of scope.now) often) counts.old (map (arm_with uses_in) arms.now) }
{
    'all: for arm in arms.as_slice() {
        note_uses(&arm.cond, scope, often, counts);
        note_uses(&arm.body, scope, often, counts);
    }
}

#[cycle(using_up)]
fn note_keys(keys: &List<ResultTree>, scope: &Scope<'_>, often: u32, counts: &mut List<u32>)
    ensures { counts.new ≡ through (key_uses (names_of scope.now) often) counts.old (map (key_with uses_in) keys.now) }
{
    'all: for key in keys.as_slice() {
        note_uses(&key.expr, scope, often, counts);
    }
}

#[cycle(using_up)]
fn note_rows(rows: &List<TableRow>, scope: &Scope<'_>, often: u32, counts: &mut List<u32>)
    ensures { counts.new ≡ through (row_uses (names_of scope.now) often) counts.old (map (row_with uses_in) rows.now) }
{
    'all: for row in rows.as_slice() {
        note_uses(&row.body, scope, often, counts);
    }
}

/// The number of the variable that the expression is once its calls are replaced, if it is one.
#[tactic(auto, using(crate::proofs::Used::variables, crate::proofs::Used::argument_at), unfolding(crate::specs::Uses::variable_rule))]
pub fn variable_in(e: &ExprTree, scope: &Scope<'_>) -> Option<usize>
    ensures { result ≡ variable_in e.now (names_of scope.now) }
{
    match e {
        ExprTree::Name(_, name) => scope.variables.place(name.as_str()),
        ExprTree::Call { name, args, .. } => match scope.declared.get(name.as_str()) {
            Some(Meaning::Function(function)) => match function.gives {
                Some(k) => match args.get(k) {
                    Some(arg) => variable_in(arg, scope),
                    None => None,
                },
                None => None,
            },
            _ => None,
        },
        ExprTree::Number(..)
        | ExprTree::Flag(..)
        | ExprTree::Or(..)
        | ExprTree::And(..)
        | ExprTree::Not(..)
        | ExprTree::Compare { .. }
        | ExprTree::Sum { .. }
        | ExprTree::Product { .. }
        | ExprTree::Neg(..)
        | ExprTree::Field { .. }
        | ExprTree::Tuple(..)
        | ExprTree::If { .. }
        | ExprTree::Table { .. }
        | ExprTree::Ratio { .. }
        | ExprTree::Min(..)
        | ExprTree::Max(..)
        | ExprTree::Clamp { .. } => None,
    }
}
