use og_list::List;
use og_types::Ty;

/// What a walk finds of an expression.
#[derive(Debug, Drop)]
pub struct Kind {
    /// Its type.
    pub ty: Ty,
    /// The greatest depth in it, counted from the outermost expression, which has depth 1.
    pub deep: u32,
}

/// What a walk has found of parts that give one value.
#[derive(Debug, Drop)]
pub struct Joined {
    /// The join of their types, if there was a part.
    pub ty: Option<Ty>,
    /// The greatest depth in them.
    pub deep: u32,
}

/// What a walk has found of parts that stand beside each other.
#[derive(Debug, Drop)]
pub struct Kinds {
    /// Their types, in order.
    pub types: List<Ty>,
    /// The greatest depth in them.
    pub deep: u32,
}
