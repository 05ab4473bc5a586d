//! Written expressions.
ghost use Rattle.std.specs.Prelude.{◌≡◌, ◌≤◌, [], map, true};
ghost use Rattle.og_types.specs.Values.{AreSmall};
ghost use Rattle.og_typing.specs.Checked.{Walks, in_turn};
ghost use Rattle.og_typing.specs.Levels.{sum_with, product_with, arm_with, key_with, row_with};
ghost use Rattle.og_typing.specs.Scopes.{names_of};
ghost use Rattle.og_typing.specs.Forms.{is_truth, is_number, is_composed};
ghost use Rattle.og_typing.specs.Expressions.{part_of, expr_walk, rule_walk, fitting, all_fitting, each_fitting, joined, sum_fitting, product_fitting, beside, arms_walk, keys_walk, row_walk, all_rows, field_walk, tuple_walk, rows_walk, rows_from, RowsWalk};

use crate::fault::WireFault;
use crate::kind::{Joined, Kind, Kinds};
use crate::meaning::Scope;
use crate::rules::{
    components, goes, goes_to, is_divisor, joining, key_count, key_type, negated_kind, settled,
    tuple_kind, with_kind,
};
use crate::scope::{call_depth, function_named};
use crate::types::are_bounds;
use crate::values::{are_all_taken, none_taken, take_row};
use og_list::List;
use og_syntax::{CompareOp, ExprTree, IfArm, ProductPart, ResultTree, SumPart, TableRow};
use og_types::Ty;
use std::alloc::Global;

/// The type of an expression that stands at the depth, with the greatest depth in it.
#[cycle(walking)]
#[tactic(auto, using(crate::proofs::Walked::walk_out))]
pub fn walk(alloc: Global, e: &ExprTree, scope: &Scope<'_>, depth: u32) -> Result<Kind, WireFault>
    ensures { Walks (expr_walk e.now (names_of scope.now) depth) result }
{
    if depth > 48 {
        return Err(WireFault::TooBig(e.at()));
    }
    walk_form(alloc, e, scope, depth)
}

/// The type of an expression that doesn't stand too deep.
#[cycle(walking)]
#[tactic(auto, using(crate::proofs::Walked::named), unfolding(crate::specs::Expressions::expr_rule))]
fn walk_form(alloc: Global, e: &ExprTree, scope: &Scope<'_>, depth: u32) -> Result<Kind, WireFault>
    requires { depth ≤ 48 }
    ensures { Walks (rule_walk e.now (names_of scope.now) depth) result }
{
    match e {
        ExprTree::Number(at, number) => {
            if number.unsigned_abs() >= 1 << 63 {
                return Err(WireFault::WrongType(*at));
            }
            Ok(Kind {
                ty: Ty::Range(*number, *number),
                deep: depth,
            })
        }
        ExprTree::Flag(..) => Ok(Kind {
            ty: Ty::Bool,
            deep: depth,
        }),
        ExprTree::Name(at, name) => Ok(Kind {
            ty: scope.name_type(alloc, *at, name.as_str())?,
            deep: depth,
        }),
        ExprTree::Call { at, name, args } => {
            let function = function_named(*at, scope.declared.get(name.as_str()))?;
            let below = call_depth(*at, depth, function, args.len())?;
            let deep = walk_each(alloc, args, &function.params, scope, below, below)?;
            Ok(Kind {
                ty: function.answer.copy(alloc)?,
                deep,
            })
        }
        ExprTree::Or(..) | ExprTree::And(..) | ExprTree::Not(..) | ExprTree::Compare { .. } => {
            walk_truth(alloc, e, scope, depth)
        }
        ExprTree::Sum { .. }
        | ExprTree::Product { .. }
        | ExprTree::Neg(..)
        | ExprTree::Ratio { .. }
        | ExprTree::Min(..)
        | ExprTree::Max(..)
        | ExprTree::Clamp { .. } => walk_number(alloc, e, scope, depth),
        ExprTree::Field { .. }
        | ExprTree::Tuple(..)
        | ExprTree::If { .. }
        | ExprTree::Table { .. } => walk_composed(alloc, e, scope, depth),
    }
}

/// The type of `or`, `and`, `not` or a comparison.
#[cycle(walking)]
#[tactic(auto, using(crate::proofs::Walked::truths), unfolding(crate::specs::Expressions::expr_rule))]
fn walk_truth(alloc: Global, e: &ExprTree, scope: &Scope<'_>, depth: u32) -> Result<Kind, WireFault>
    requires shallow { depth ≤ 48 }
    requires form { is_truth e.now ≡ true }
    ensures { Walks (rule_walk e.now (names_of scope.now) depth) result }
{
    match e {
        ExprTree::Or(at, parts) | ExprTree::And(at, parts) => {
            if parts.len() < 2 {
                return Err(WireFault::WrongType(*at));
            }
            let deep = walk_all(alloc, parts, &Ty::Bool, scope, depth + 1, depth)?;
            Ok(Kind { ty: Ty::Bool, deep })
        }
        ExprTree::Not(_, part) => {
            let deep = walk_part(alloc, part.get(), &Ty::Bool, scope, depth + 1, depth)?;
            Ok(Kind { ty: Ty::Bool, deep })
        }
        ExprTree::Compare {
            op: CompareOp::Equal | CompareOp::Differs,
            left,
            right,
            ..
        } => {
            let found = walk(alloc, left.get(), scope, depth + 1)?;
            let before = Joined {
                ty: Some(found.ty),
                deep: found.deep,
            };
            let both = walk_joined(alloc, right.get(), scope, depth + 1, before)?;
            Ok(Kind {
                ty: Ty::Bool,
                deep: both.deep,
            })
        }
        ExprTree::Compare { left, right, .. } => {
            let deep = walk_part(alloc, left.get(), &Ty::Number, scope, depth + 1, 0)?;
            let deep = walk_part(alloc, right.get(), &Ty::Number, scope, depth + 1, deep)?;
            Ok(Kind { ty: Ty::Bool, deep })
        }
        ExprTree::Number(..)
        | ExprTree::Flag(..)
        | ExprTree::Name(..)
        | ExprTree::Call { .. }
        | ExprTree::Sum { .. }
        | ExprTree::Product { .. }
        | ExprTree::Neg(..)
        | ExprTree::Ratio { .. }
        | ExprTree::Min(..)
        | ExprTree::Max(..)
        | ExprTree::Clamp { .. }
        | ExprTree::Field { .. }
        | ExprTree::Tuple(..)
        | ExprTree::If { .. }
        | ExprTree::Table { .. } => unreachable!(),
    }
}

/// The type of an operation on numbers.
#[cycle(walking)]
#[tactic(auto, using(crate::proofs::Walked::numbers), unfolding(crate::specs::Expressions::expr_rule))]
fn walk_number(
    alloc: Global,
    e: &ExprTree,
    scope: &Scope<'_>,
    depth: u32,
) -> Result<Kind, WireFault>
    requires shallow { depth ≤ 48 }
    requires form { is_number e.now ≡ true }
    ensures { Walks (rule_walk e.now (names_of scope.now) depth) result }
{
    match e {
        ExprTree::Sum { at, first, rest } => {
            if rest.is_empty() {
                return Err(WireFault::WrongType(*at));
            }
            let deep = walk_part(alloc, first.get(), &Ty::Number, scope, depth + 1, depth)?;
            let deep = walk_addends(alloc, rest, scope, depth + 1, deep)?;
            Ok(Kind {
                ty: Ty::Number,
                deep,
            })
        }
        ExprTree::Product { at, first, rest } => {
            if rest.is_empty() {
                return Err(WireFault::WrongType(*at));
            }
            let deep = walk_part(alloc, first.get(), &Ty::Number, scope, depth + 1, depth)?;
            let deep = walk_factors(alloc, rest, *at, scope, depth + 1, deep)?;
            Ok(Kind {
                ty: Ty::Number,
                deep,
            })
        }
        ExprTree::Neg(_, part) => {
            let part = part.get();
            let found = walk(alloc, part, scope, depth + 1)?;
            negated_kind(part.at(), &found)
        }
        ExprTree::Ratio {
            x,
            y,
            otherwise,
            ..
        } => {
            let deep = walk_part(alloc, x.get(), &Ty::Number, scope, depth + 1, depth)?;
            let deep = walk_part(alloc, y.get(), &Ty::Number, scope, depth + 1, deep)?;
            let deep = walk_part(alloc, otherwise.get(), &Ty::Number, scope, depth + 1, deep)?;
            Ok(Kind {
                ty: Ty::Number,
                deep,
            })
        }
        ExprTree::Min(_, first, second) | ExprTree::Max(_, first, second) => {
            let deep = walk_part(alloc, first.get(), &Ty::Number, scope, depth + 1, depth)?;
            let deep = walk_part(alloc, second.get(), &Ty::Number, scope, depth + 1, deep)?;
            Ok(Kind {
                ty: Ty::Number,
                deep,
            })
        }
        ExprTree::Clamp {
            lo_at,
            lo,
            hi,
            part,
            ..
        } => {
            if !are_bounds(*lo, *hi) {
                return Err(WireFault::WrongType(*lo_at));
            }
            let deep = walk_part(alloc, part.get(), &Ty::Number, scope, depth + 1, depth)?;
            Ok(Kind {
                ty: Ty::Range(*lo, *hi),
                deep,
            })
        }
        ExprTree::Number(..)
        | ExprTree::Flag(..)
        | ExprTree::Name(..)
        | ExprTree::Call { .. }
        | ExprTree::Or(..)
        | ExprTree::And(..)
        | ExprTree::Not(..)
        | ExprTree::Compare { .. }
        | ExprTree::Field { .. }
        | ExprTree::Tuple(..)
        | ExprTree::If { .. }
        | ExprTree::Table { .. } => unreachable!(),
    }
}

/// The type of a component, a tuple, or a choice by conditions or keys.
#[cycle(walking)]
#[tactic(auto, using(crate::proofs::Walked::composed), unfolding(crate::specs::Expressions::if_walk, crate::specs::Expressions::table_walk))]
fn walk_composed(
    alloc: Global,
    e: &ExprTree,
    scope: &Scope<'_>,
    depth: u32,
) -> Result<Kind, WireFault>
    requires shallow { depth ≤ 48 }
    requires form { is_composed e.now ≡ true }
    ensures { Walks (rule_walk e.now (names_of scope.now) depth) result }
{
    match e {
        ExprTree::Field { at, part, path } => walk_field(
            alloc,
            part.get(),
            path,
            *at,
            scope,
            depth,
        ),
        ExprTree::Tuple(at, parts) => walk_tuple(alloc, parts, *at, scope, depth),
        ExprTree::If {
            at,
            arms,
            otherwise,
        } => {
            let branches = walk_arms(alloc, arms, *at, scope, depth)?;
            let all = walk_joined(alloc, otherwise.get(), scope, depth + 1, branches)?;
            settled(*at, all)
        }
        ExprTree::Table { at, keys, rows } => {
            let found = walk_keys(alloc, keys, *at, scope, depth)?;
            walk_table(alloc, rows, *at, found, scope, depth + 1)
        }
        ExprTree::Number(..)
        | ExprTree::Flag(..)
        | ExprTree::Name(..)
        | ExprTree::Call { .. }
        | ExprTree::Or(..)
        | ExprTree::And(..)
        | ExprTree::Not(..)
        | ExprTree::Compare { .. }
        | ExprTree::Sum { .. }
        | ExprTree::Product { .. }
        | ExprTree::Neg(..)
        | ExprTree::Ratio { .. }
        | ExprTree::Min(..)
        | ExprTree::Max(..)
        | ExprTree::Clamp { .. } => unreachable!(),
    }
}

/// The type of a component, a component of it, and so on.
#[cycle(walking)]
#[tactic(auto, using(crate::proofs::Walked::part_place), unfolding(crate::specs::Expressions::field_walk))]
fn walk_field(
    alloc: Global,
    part: &ExprTree,
    path: &List<u64>,
    at: u32,
    scope: &Scope<'_>,
    depth: u32,
) -> Result<Kind, WireFault>
    requires { depth ≤ 48 }
    ensures { Walks (field_walk at (names_of scope.now) depth (part_of part.now) path.now) result }
{
    if path.is_empty() {
        return Err(WireFault::WrongType(at));
    }
    if path.len() > (49 - depth) as usize {
        return Err(WireFault::TooBig(at));
    }
    let found = walk(alloc, part, scope, depth + path.len() as u32)?;
    Ok(Kind {
        ty: components(alloc, part.at(), &found.ty, path)?,
        deep: found.deep,
    })
}

/// The type of a tuple.
#[cycle(walking)]
#[tactic(auto, unfolding(crate::specs::Expressions::tuple_walk))]
fn walk_tuple(
    alloc: Global,
    parts: &List<ExprTree>,
    at: u32,
    scope: &Scope<'_>,
    depth: u32,
) -> Result<Kind, WireFault>
    requires { depth ≤ 48 }
    ensures { Walks (tuple_walk at (names_of scope.now) depth (map part_of parts.now)) result }
{
    if parts.len() < 2 {
        return Err(WireFault::WrongType(at));
    }
    let found = walk_beside(alloc, parts, scope, depth + 1, depth)?;
    tuple_kind(at, found)
}

/// The greatest depth so far, with a part whose type goes as the wanted one.
#[cycle(walking)]
#[tactic(auto, using(crate::proofs::Walked::part_place))]
fn walk_part(
    alloc: Global,
    e: &ExprTree,
    wanted: &Ty,
    scope: &Scope<'_>,
    depth: u32,
    deep: u32,
) -> Result<u32, WireFault>
    ensures { Walks (fitting (names_of scope.now) depth wanted.now deep (part_of e.now)) result }
{
    let found = walk(alloc, e, scope, depth)?;
    goes(e.at(), wanted, deep, &found)
}

/// What was found of the parts before, with one more that gives the same value.
#[cycle(walking)]
#[tactic(auto, using(crate::proofs::Walked::part_place))]
fn walk_joined(
    alloc: Global,
    e: &ExprTree,
    scope: &Scope<'_>,
    depth: u32,
    before: Joined,
) -> Result<Joined, WireFault>
    ensures { Walks (joined (names_of scope.now) depth before (part_of e.now)) result }
{
    let found = walk(alloc, e, scope, depth)?;
    joining(alloc, e.at(), before, found)
}

/// The greatest depth so far, with parts whose types go as the wanted one.
#[cycle(walking)]
pub fn walk_all(
    alloc: Global,
    parts: &List<ExprTree>,
    wanted: &Ty,
    scope: &Scope<'_>,
    depth: u32,
    mut deep: u32,
) -> Result<u32, WireFault>
    ensures { Walks (all_fitting (names_of scope.now) depth wanted.now deep (map part_of parts.now)) result }
{
    'parts: for part in parts.as_slice() {
        deep = walk_part(alloc, part, wanted, scope, depth, deep)?;
    }
    Ok(deep)
}

/// The greatest depth so far, with parts whose types go as the wanted ones, in order.
#[cycle(walking)]
#[tactic(auto, using(crate::proofs::Walked::part_place))]
pub fn walk_each(
    alloc: Global,
    parts: &List<ExprTree>,
    wanted: &List<Ty>,
    scope: &Scope<'_>,
    depth: u32,
    mut deep: u32,
) -> Result<u32, WireFault>
    ensures { Walks (each_fitting (names_of scope.now) depth wanted.now 0 deep (map part_of parts.now)) result }
{
    'parts: for (at, part) in parts.as_slice().iter().enumerate() {
        let found = walk(alloc, part, scope, depth)?;
        deep = goes_to(part.at(), wanted.get(at), deep, &found)?;
    }
    Ok(deep)
}

#[cycle(walking)]
fn walk_addends(
    alloc: Global,
    rest: &List<SumPart>,
    scope: &Scope<'_>,
    depth: u32,
    mut deep: u32,
) -> Result<u32, WireFault>
    ensures { Walks (in_turn (sum_fitting (names_of scope.now) depth) deep (map (sum_with part_of) rest.now)) result }
{
    'rest: for addend in rest.as_slice() {
        let part = match addend {
            SumPart::Plus(part) | SumPart::Minus(part) => part,
        };
        deep = walk_part(alloc, part, &Ty::Number, scope, depth, deep)?;
    }
    Ok(deep)
}

#[cycle(walking)]
fn walk_factors(
    alloc: Global,
    rest: &List<ProductPart>,
    at: u32,
    scope: &Scope<'_>,
    depth: u32,
    mut deep: u32,
) -> Result<u32, WireFault>
    ensures { Walks (in_turn (product_fitting at (names_of scope.now) depth) deep (map (product_with part_of) rest.now)) result }
{
    'rest: for factor in rest.as_slice() {
        match factor {
            ProductPart::Times(part) => {
                deep = walk_part(alloc, part, &Ty::Number, scope, depth, deep)?;
            }
            ProductPart::Over(divisor) => {
                if !is_divisor(*divisor) {
                    return Err(WireFault::WrongType(at));
                }
            }
        }
    }
    Ok(deep)
}

/// The types of the parts of a tuple.
#[cycle(walking)]
fn walk_beside(
    alloc: Global,
    parts: &List<ExprTree>,
    scope: &Scope<'_>,
    depth: u32,
    deep: u32,
) -> Result<Kinds, WireFault>
    ensures { Walks (in_turn (beside (names_of scope.now) depth) (record { types = []; deep = deep }) (map part_of parts.now)) result }
{
    let mut all = Kinds {
        types: List::new(alloc),
        deep,
    };
    'parts: for part in parts.as_slice() {
        let found = walk(alloc, part, scope, depth)?;
        all = with_kind(all, found.ty, found.deep)?;
    }
    Ok(all)
}

/// What was found of conditions with what holds under them.
#[cycle(walking)]
fn walk_arms(
    alloc: Global,
    arms: &List<IfArm>,
    at: u32,
    scope: &Scope<'_>,
    depth: u32,
) -> Result<Joined, WireFault>
    requires { depth ≤ 48 }
    ensures { Walks (arms_walk at (names_of scope.now) depth (map (arm_with part_of) arms.now)) result }
{
    if arms.len() < 1 {
        return Err(WireFault::WrongType(at));
    }
    let mut all = Joined {
        ty: None,
        deep: depth,
    };
    'arms: for arm in arms.as_slice() {
        all.deep = walk_part(alloc, &arm.cond, &Ty::Bool, scope, depth + 1, all.deep)?;
        all = walk_joined(alloc, &arm.body, scope, depth + 1, all)?;
    }
    Ok(all)
}

/// The written types of a table's keys.
#[cycle(walking)]
#[tactic(auto, using(crate::proofs::Walked::part_place))]
fn walk_keys(
    alloc: Global,
    keys: &List<ResultTree>,
    at: u32,
    scope: &Scope<'_>,
    depth: u32,
) -> Result<Kinds, WireFault>
    requires { depth ≤ 48 }
    ensures { Walks (keys_walk at (names_of scope.now) depth (map (key_with part_of) keys.now)) result }
{
    if keys.len() < 1 {
        return Err(WireFault::WrongType(at));
    }
    let mut all = Kinds {
        types: List::new(alloc),
        deep: depth,
    };
    'keys: for key in keys.as_slice() {
        let found = walk(alloc, &key.expr, scope, depth + 1)?;
        let ty = key_type(alloc, key.expr.at(), &key.ty, scope.declared, &found)?;
        all = with_kind(all, ty, found.deep)?;
    }
    Ok(all)
}

/// The type of a table with these keys.
#[cycle(walking)]
fn walk_table(
    alloc: Global,
    rows: &List<TableRow>,
    at: u32,
    keys: Kinds,
    scope: &Scope<'_>,
    depth: u32,
) -> Result<Kind, WireFault>
    ensures { Walks (rows_walk at (names_of scope.now) depth keys (map (row_with part_of) rows.now)) result }
{
    match key_count(&keys.types) {
        Some(count) => walk_counted(alloc, rows, &keys, count, at, scope, depth),
        None => Err(WireFault::TooManyValues(at)),
    }
}

/// The type of a table whose keys have so many joint values.
#[cycle(walking)]
fn walk_counted(
    alloc: Global,
    rows: &List<TableRow>,
    keys: &Kinds,
    count: u32,
    at: u32,
    scope: &Scope<'_>,
    depth: u32,
) -> Result<Kind, WireFault>
    requires { AreSmall keys.now.types }
    ensures { Walks (all_rows at (names_of scope.now) depth keys.now.types count keys.now.deep (map (row_with part_of) rows.now)) result }
{
    let mut taken = none_taken(alloc, count)?;
    let all = walk_rows(
        alloc,
        rows,
        &keys.types,
        scope,
        depth,
        keys.deep,
        &mut taken,
    )?;
    if !are_all_taken(&taken) {
        return Err(WireFault::MissingRow(at));
    }
    settled(at, all)
}

/// What was found of a table's rows; the flags tell which keys have one.
#[cycle(walking)]
fn walk_rows(
    alloc: Global,
    rows: &List<TableRow>,
    types: &List<Ty>,
    scope: &Scope<'_>,
    depth: u32,
    deep: u32,
    taken: &mut List<bool>,
) -> Result<Joined, WireFault>
    requires { AreSmall types.now }
    ensures { RowsWalk (in_turn (row_walk (names_of scope.now) depth types.now) (rows_from taken.old deep) (map (row_with part_of) rows.now)) result taken.new }
{
    let mut all = Joined { ty: None, deep };
    'rows: for row in rows.as_slice() {
        take_row(alloc, row.at, &row.key, types, scope.declared, taken)?;
        all = walk_joined(alloc, &row.body, scope, depth, all)?;
    }
    Ok(all)
}
