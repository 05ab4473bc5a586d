use og_list::List;
use og_native::Ports;
use og_typing::Given;

/// Where a game stands in a body.
#[derive(Clone, Copy, Debug, PartialEq, Eq)]
pub struct Level {
    /// Its depth, 1 for the body itself.
    pub depth: u32,
    /// How many branches stand round it.
    pub inside: u32,
}

/// How large a game is, with its calls replaced by the games' bodies. Sums stand still at 2^32 - 1.
#[derive(Clone, Copy, Debug, PartialEq, Eq)]
pub struct Size {
    /// The greatest depth in it.
    pub deep: u32,
    /// How many branches stand inside each other at most, with those round it.
    pub nested: u32,
    /// How many games it is made of.
    pub nodes: u32,
    /// How many flat lines it has.
    pub lines: u32,
    /// How many nodes of expressions, entries of rows and allowed actions its flat lines have, as they are written.
    pub weight: u32,
    /// The product of its natures' scales, which stands still at 2^62.
    pub scale: u64,
}

/// What a walk finds of a game.
#[derive(Debug, Drop)]
pub struct GameKind {
    /// Its ports.
    pub ports: Ports,
    /// How large it is.
    pub size: Size,
}

/// What is kept of a declared game.
#[derive(Debug, Drop)]
pub struct DeclaredGame {
    /// The number of its declaration.
    pub number: u32,
    /// The place of its name.
    pub at: u32,
    /// What its parameters stand for, in order.
    pub params: List<Given>,
    /// What was found of its body, at depth 1 and inside no branch.
    pub kind: GameKind,
}
