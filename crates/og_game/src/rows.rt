//! Lists of ranks, of what is allowed and of what has weights.
ghost use Rattle.std.specs.Prelude.{◌≡◌, map};
ghost use Rattle.std.specs.List.{list_all};
ghost use Rattle.og_game.specs.Rows.{are_rising, is_set, are_allowed, are_weights, is_row, are_rows};

use og_list::List;

/// Whether there are ranks, in order, once each, below the count.
pub(crate) fn is_set(count: u32, ranks: &List<u32>) -> bool
    ensures { result ≡ is_set count ranks.now }
{
    if ranks.is_empty() {
        return false;
    }
    let mut from = 0_u64;
    'ranks: for rank in ranks.as_slice() {
        if u64::from(*rank) < from || *rank >= count {
            return false;
        }
        from = u64::from(*rank) + 1;
    }
    true
}

fn are_sets(count: u32, sets: &List<List<u32>>) -> bool
    ensures { result ≡ list_all (is_set count) sets.now }
{
    'sets: for ranks in sets.as_slice() {
        if !is_set(count, ranks) {
            return false;
        }
    }
    true
}

/// Whether each observation has a set of actions, where there are sets.
pub(crate) fn are_allowed(
    observations: u32,
    actions: u32,
    allowed: &Option<List<List<u32>>>,
) -> bool
    ensures { result ≡ are_allowed observations actions allowed.now }
{
    match allowed {
        Some(sets) => sets.len() == observations as usize && are_sets(actions, sets),
        None => true,
    }
}

/// Whether the ranks of the entries are in order, once each, below the count.
fn are_outcomes(outcomes: u32, row: &List<(u32, u64)>) -> bool
    ensures { result ≡ are_rising 0 outcomes (map (λ entry. entry.0) row.now) }
{
    let mut from = 0_u64;
    'entries: for (rank, _) in row.as_slice() {
        if u64::from(*rank) < from || *rank >= outcomes {
            return false;
        }
        from = u64::from(*rank) + 1;
    }
    true
}

/// Whether the weights are positive and add up to the scale.
#[tactic(auto, using(crate::proofs::Weights::weights_next, crate::proofs::Weights::weights_more))]
fn are_weights(scale: u64, row: &List<(u32, u64)>) -> bool
    ensures { result ≡ are_weights scale row.now }
{
    let mut left = scale;
    'entries: for (_, weight) in row.as_slice() {
        if *weight == 0 || *weight > left {
            return false;
        }
        left -= *weight;
    }
    left == 0
}

fn is_row(outcomes: u32, scale: u64, row: &List<(u32, u64)>) -> bool
    ensures { result ≡ is_row outcomes scale row.now }
{
    are_outcomes(outcomes, row) && are_weights(scale, row)
}

/// Whether each observation has a row.
pub(crate) fn are_rows(
    observations: u32,
    outcomes: u32,
    scale: u64,
    rows: &List<List<(u32, u64)>>,
) -> bool
    ensures { result ≡ are_rows observations outcomes scale rows.now }
{
    if rows.len() != observations as usize {
        return false;
    }
    'rows: for row in rows.as_slice() {
        if !is_row(outcomes, scale, row) {
            return false;
        }
    }
    true
}
