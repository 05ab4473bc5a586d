//! What a text writes of rows, as tables by rank.
ghost use Rattle.std.specs.Prelude.{◌≡◌, [], IfOk, IfSome, IfNone, length, true, false, map, min, ◌^◌};
ghost use Rattle.og_types.specs.Values.{IsSmall, AreSmall};
ghost use Rattle.og_game.specs.Wired.{values};
ghost use Rattle.og_inlining.specs.Steps.{Gives, each_of, given_by};
ghost use Rattle.og_typing.specs.Values.{key_walk};
ghost use Rattle.og_rows.specs.Rows.{rank_in, parts_of, drawn_item, allowed_item, drawn_row, allowed_row, is_chosen, drawn, allowed, ranks_of};

use crate::ranked::{Item, Ranked};
use crate::tables::by_rank;
use og_expr::BuildFault;
use og_list::List;
use og_names::Names;
use og_syntax::{AmongTree, EntryTree, RowTree, ValueTree};
use og_types::Ty;
use og_typing::{Meaning, WireFault, key_count, walk_key, walk_value};
use std::alloc::{AllocError, Global};

/// The rank of a value of the type. BadType comes exactly where it isn't of the type.
pub fn rank_in(
    alloc: Global,
    value: &ValueTree,
    ty: &Ty,
    declared: &Names<Meaning>,
) -> Result<u32, BuildFault>
    requires { IsSmall ty.now }
    ensures { Gives (rank_in declared.now ty.now value.now) result }
{
    match walk_value(alloc, value, ty, declared) {
        Ok(found) => match ty.rank(&found) {
            Some(rank) => Ok(rank),
            None => Err(BuildFault::BadType),
        },
        Err(WireFault::Memory) => Err(BuildFault::Memory),
        Err(_) => Err(BuildFault::BadType),
    }
}

/// The joint rank of a row's key.
fn seen_in(
    alloc: Global,
    at: u32,
    key: &List<ValueTree>,
    types: &List<Ty>,
    declared: &Names<Meaning>,
) -> Result<u32, BuildFault>
    requires { AreSmall types.now }
    ensures { Gives (given_by (key_walk declared.now types.now at key.now)) result }
{
    match walk_key(alloc, at, key, types, declared) {
        Ok(rank) => Ok(rank),
        Err(WireFault::Memory) => Err(BuildFault::Memory),
        Err(_) => Err(BuildFault::BadType),
    }
}

/// An entry's weight in so many parts of one, where it is at most 2^62.
fn parts_of(scale: u64, entry: &EntryTree) -> u64
    ensures { result ≡ min (parts_of scale entry.now) (2 ^ 62) }
{
    if entry.den == 0 {
        return 0;
    }
    let parts = u128::from(scale) * u128::from(entry.num) / u128::from(entry.den);
    parts.min(1 << 62) as u64
}

fn drawn_items(
    alloc: Global,
    entries: &List<EntryTree>,
    ty: &Ty,
    scale: u64,
    declared: &Names<Meaning>,
) -> Result<List<Item>, BuildFault>
    requires { IsSmall ty.now }
    ensures { Gives (each_of (drawn_item declared.now ty.now scale) [] entries.now) result }
{
    let mut all = List::new(alloc);
    'entries: for entry in entries.as_slice() {
        let rank = rank_in(alloc, &entry.value, ty, declared)?;
        let weight = parts_of(scale, entry);
        all.add(Item { rank, weight })?;
    }
    Ok(all)
}

fn allowed_items(
    alloc: Global,
    actions: &List<ValueTree>,
    ty: &Ty,
    declared: &Names<Meaning>,
) -> Result<List<Item>, BuildFault>
    requires { IsSmall ty.now }
    ensures { Gives (each_of (allowed_item declared.now ty.now) [] actions.now) result }
{
    let mut all = List::new(alloc);
    'actions: for action in actions.as_slice() {
        let rank = rank_in(alloc, action, ty, declared)?;
        all.add(Item { rank, weight: 1 })?;
    }
    Ok(all)
}

fn drawn_rows(
    alloc: Global,
    rows: &List<RowTree>,
    observes: &List<Ty>,
    ty: &Ty,
    scale: u64,
    declared: &Names<Meaning>,
) -> Result<List<Ranked>, BuildFault>
    requires observed { AreSmall observes.now }
    requires chosen { IsSmall ty.now }
    ensures { Gives (each_of (drawn_row declared.now observes.now ty.now scale) [] rows.now) result }
{
    let mut all = List::new(alloc);
    'rows: for row in rows.as_slice() {
        let seen = seen_in(alloc, row.at, &row.key, observes, declared)?;
        let items = drawn_items(alloc, &row.entries, ty, scale, declared)?;
        all.add(Ranked { seen, items })?;
    }
    Ok(all)
}

fn allowed_rows(
    alloc: Global,
    rows: &List<AmongTree>,
    observes: &List<Ty>,
    ty: &Ty,
    declared: &Names<Meaning>,
) -> Result<List<Ranked>, BuildFault>
    requires observed { AreSmall observes.now }
    requires chosen { IsSmall ty.now }
    ensures { Gives (each_of (allowed_row declared.now observes.now ty.now) [] rows.now) result }
{
    let mut all = List::new(alloc);
    'rows: for row in rows.as_slice() {
        let seen = seen_in(alloc, row.at, &row.key, observes, declared)?;
        let items = allowed_items(alloc, &row.actions, ty, declared)?;
        all.add(Ranked { seen, items })?;
    }
    Ok(all)
}

/// How many values a finite type has, where these are at most 4,096.
pub fn value_count(ty: &Ty) -> Option<u32>
    ensures chosen { IfSome result (λ _. is_chosen ty.now ≡ true) }
    ensures count { IfSome result (λ n. values ty.now ≡ n) }
    ensures small { IfSome result (λ _. IsSmall ty.now) }
    ensures none { IfNone result (is_chosen ty.now ≡ false) }
{
    match ty.count() {
        Some(count) if count <= 4096 => Some(count),
        _ => None,
    }
}

/// The weights of a nature's outcomes in so many parts of one, by the rank of what is observed: those that weigh something,
/// by their ranks. BadType comes exactly where the types have no such table, a value or a key isn't of its type, or an
/// observation has no row.
pub fn drawn(
    alloc: Global,
    rows: &List<RowTree>,
    observes: &List<Ty>,
    ty: &Ty,
    scale: u64,
    declared: &Names<Meaning>,
) -> Result<List<List<(u32, u64)>>, BuildFault>
    ensures { Gives (drawn declared.now observes.now ty.now scale rows.now) result }
{
    match (key_count(observes), value_count(ty)) {
        (Some(observed), Some(count)) => {
            let ranked = drawn_rows(alloc, rows, observes, ty, scale, declared)?;
            by_rank(alloc, observed as usize, count as usize, &ranked)
        }
        _ => Err(BuildFault::BadType),
    }
}

/// The ranks of a row.
fn ranks_of(alloc: Global, row: &List<(u32, u64)>) -> Result<List<u32>, AllocError>
    ensures { IfOk result (λ made. made ≡ ranks_of row.now) }
{
    let mut all = List::new(alloc);
    'entries: for entry in row.as_slice() {
        all.add(entry.0)?;
    }
    Ok(all)
}

fn all_ranks(alloc: Global, rows: &List<List<(u32, u64)>>) -> Result<List<List<u32>>, AllocError>
    ensures { IfOk result (λ made. made ≡ map ranks_of rows.now) }
{
    let mut all = List::new(alloc);
    'rows: for row in rows.as_slice() {
        all.add(ranks_of(alloc, row)?)?;
    }
    Ok(all)
}

/// The ranks of the actions that a decision allows, ascending, by the rank of what is observed. BadType comes exactly where
/// the types have no such table, a value or a key isn't of its type, or an observation has no row.
pub fn allowed(
    alloc: Global,
    rows: &List<AmongTree>,
    observes: &List<Ty>,
    ty: &Ty,
    declared: &Names<Meaning>,
) -> Result<List<List<u32>>, BuildFault>
    ensures { Gives (allowed declared.now observes.now ty.now rows.now) result }
{
    match (key_count(observes), value_count(ty)) {
        (Some(observed), Some(count)) => {
            let ranked = allowed_rows(alloc, rows, observes, ty, declared)?;
            let sets = by_rank(alloc, observed as usize, count as usize, &ranked)?;
            Ok(all_ranks(alloc, &sets)?)
        }
        _ => Err(BuildFault::BadType),
    }
}
