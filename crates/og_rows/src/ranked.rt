use og_list::List;

/// What stands in a row, by its rank.
#[derive(Clone, Copy, Debug, PartialEq, Eq)]
pub struct Item {
    /// The rank of the value.
    pub rank: u32,
    /// What it weighs.
    pub weight: u64,
}

/// A row, by the rank of its observation.
#[derive(Debug, Drop)]
pub struct Ranked {
    /// The joint rank of what is observed.
    pub seen: u32,
    /// What stands in the row, in order.
    pub items: List<Item>,
}
