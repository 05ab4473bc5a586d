//! Laws of tables by rank. No call here does anything: its clauses are the laws.
ghost use Rattle.std.specs.Prelude.{◌≡◌, ◌≤◌, ◌<◌, ◌^◌, ℕ, nat_lt, length, sum_by, true, List};
ghost use Rattle.std.specs.List.{list_all};
ghost use Rattle.og_game.specs.Rows.{are_rising, is_row};
ghost use Rattle.og_rows.specs.declared.ranked.Item.{Item};
ghost use Rattle.og_rows.specs.Rows.{weighed, ranks_of};

/// What the items of a row are by rank: the ranks rise below the count. Where the items' ranks are below it, and they weigh no
/// more than 2^62 together, they make a row of what they weigh together, which has something in it where that is something.
pub fn tables()
    ensures ranks { (count : ℕ) (items : List Item) → are_rising 0 count (ranks_of (weighed count items)) ≡ true }
    ensures weights { (count scale : ℕ) (items : List Item) → list_all (λ item. nat_lt item.rank count) items ≡ true
        → sum_by (λ item. item.weight) items ≡ scale → scale ≤ 2 ^ 62 → is_row count scale (weighed count items) ≡ true }
    ensures some { (count : ℕ) (items : List Item) → list_all (λ item. nat_lt item.rank count) items ≡ true
        → sum_by (λ item. item.weight) items ≤ 2 ^ 62 → 0 < sum_by (λ item. item.weight) items → 0 < length (weighed count items) }
{}
