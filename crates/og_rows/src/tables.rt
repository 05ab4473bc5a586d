//! Tables by rank.
ghost use Rattle.std.specs.Prelude.{◌≡◌, ◌≤◌, ◌+◌, ◌^◌, min, length, IfOk, map, replicate};
ghost use Rattle.std.specs.List.{range_with_len};
ghost use Rattle.std.specs.Option.{option_copied};
ghost use Rattle.og_inlining.specs.Steps.{Gives};
ghost use Rattle.og_rows.specs.Rows.{weight_in, noted, those_that_weigh, weighed, row_of, by_rank};

use crate::ranked::{Item, Ranked};
use og_expr::BuildFault;
use og_list::List;
use std::alloc::{AllocError, Global};

/// A table of zeros.
fn zeros(alloc: Global, count: usize) -> Result<List<u64>, AllocError>
    ensures { IfOk result (λ made. made ≡ replicate count 0) }
{
    let mut made = List::new(alloc);
    'zeros: for _rank in 0..count {
        made.add(0)?;
    }
    Ok(made)
}

/// A weight with one more, which stands still at 2^62.
fn more(before: u64, weight: u64) -> u64
    ensures { result ≡ min (before + weight) (2 ^ 62) }
{
    before.saturating_add(weight).min(1 << 62)
}

/// Adds an item's weight to that of its rank, if this is below the count.
fn note_item(weights: &mut List<u64>, item: &Item)
    ensures { weights.new ≡ noted weights.old item.now }
{
    let rank = item.rank as usize;
    if let Some(before) = weights.get(rank) {
        let weight = more(*before, item.weight);
        weights.set(rank, weight);
    }
}

/// What the items weigh, for each rank below the count.
fn weights(alloc: Global, count: usize, items: &List<Item>) -> Result<List<u64>, AllocError>
    ensures { IfOk result (λ made. made ≡ map (weight_in items.now) (range_with_len 0 count)) }
{
    let mut made = zeros(alloc, count)?;
    'items: for item in items.as_slice() {
        note_item(&mut made, item);
    }
    Ok(made)
}

/// The ranks whose weights are something, ascending, each with its weight.
fn those_that_weigh(alloc: Global, weights: &List<u64>) -> Result<List<(u32, u64)>, AllocError>
    requires { length weights.now ≤ 4096 }
    ensures { IfOk result (λ made. made ≡ those_that_weigh 0 weights.now) }
{
    let mut found = List::new(alloc);
    'ranks: for (rank, weight) in weights.as_slice().iter().enumerate() {
        if *weight > 0 {
            found.add((rank as u32, *weight))?;
        }
    }
    Ok(found)
}

/// The ranks below the count that weigh something, ascending, each with its weight.
#[tactic(auto, using(crate::proofs::Steps::all_weights))]
fn weighed(alloc: Global, count: usize, items: &List<Item>) -> Result<List<(u32, u64)>, AllocError>
    requires { count ≤ 4096 }
    ensures { IfOk result (λ made. made ≡ weighed count items.now) }
{
    let weights = weights(alloc, count, items)?;
    those_that_weigh(alloc, &weights)
}

/// The first row of the observation.
fn row_of(rows: &List<Ranked>, seen: usize) -> Option<&Ranked>
    ensures { option_copied result ≡ row_of rows.now seen }
{
    'rows: for row in rows.as_slice() {
        if row.seen as usize == seen {
            return Some(row);
        }
    }
    None
}

/// A row for each of the observations below the count.
pub(crate) fn by_rank(
    alloc: Global,
    observed: usize,
    count: usize,
    rows: &List<Ranked>,
) -> Result<List<List<(u32, u64)>>, BuildFault>
    requires { count ≤ 4096 }
    ensures { Gives (by_rank observed count rows.now) result }
{
    let mut all = List::new(alloc);
    'observed: for seen in 0..observed {
        match row_of(rows, seen) {
            Some(row) => all.add(weighed(alloc, count, &row.items)?)?,
            None => return Err(BuildFault::BadType),
        }
    }
    Ok(all)
}
