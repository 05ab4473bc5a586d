use crate::game::Game;
use og_expr::Expr;
use og_list::{Boxed, List};
use og_native::Ports;
use og_types::Ty;

/// An expression with the type that is written at it.
#[derive(Drop)]
pub struct Typed {
    /// The expression.
    pub expr: Expr,
    /// The written type.
    pub ty: Ty,
}

/// The outermost form of a game, over its parts. Expressions name variables by their numbers.
#[derive(Drop)]
pub enum GameNodeOf<G> {
    /// An agent chooses an action at each observation.
    Decision {
        /// The decision's number, from 1.
        number: u32,
        /// The agent's place in the list of agents.
        agent: u32,
        /// The types of what is observed.
        observes: List<Ty>,
        /// The type of the actions.
        action: Ty,
        /// The ranks of the actions that are allowed, by the observation's rank, where not all are.
        allowed: Option<List<List<u32>>>,
    },
    /// Chance gives an outcome at each observation.
    Nature {
        /// The nature's number, from 1.
        number: u32,
        /// The types of what is observed.
        observes: List<Ty>,
        /// The type of the outcomes.
        outcome: Ty,
        /// What the weights of each row add up to.
        scale: u64,
        /// The ranks of the outcomes with their weights, by the observation's rank.
        rows: List<List<(u32, u64)>>,
    },
    /// Expressions of what comes forwards.
    Forward {
        /// The types of the variables, which are numbered from 0.
        params: List<Ty>,
        /// What goes out forwards.
        results: List<Typed>,
    },
    /// Expressions of what comes backwards.
    Backward {
        /// The types of the variables, which are numbered from 0.
        params: List<Ty>,
        /// What goes out backwards.
        results: List<Typed>,
    },
    /// A block of the host program.
    Native {
        /// The block's number in the library.
        block: u32,
        /// The block's ports.
        ports: Ports,
    },
    /// Wires that pass.
    Id {
        /// Those that pass forwards.
        forward: List<Ty>,
        /// Those that pass backwards.
        backward: List<Ty>,
    },
    /// One game after another.
    Seq(Boxed<G>, Boxed<G>),
    /// One game beside another.
    Par(Boxed<G>, Boxed<G>),
    /// Lines with variables.
    Block(Boxed<BlockOf<G>>),
    /// One of several games, by the value of the first input.
    Branch {
        /// The type of that input.
        selector: Ty,
        /// A game for each of its values.
        arms: List<ArmOf<G>>,
    },
}

/// Lines with variables. These are numbered from 0: first the inputs, then for each line what goes back from its
/// operation and what comes out of it, and last the returns.
#[derive(Drop)]
pub struct BlockOf<G> {
    /// The types of the inputs.
    pub inputs: List<Ty>,
    /// What goes back from the block.
    pub feedback: List<Typed>,
    /// The lines.
    pub lines: List<LineOf<G>>,
    /// What comes out of the block.
    pub outputs: List<Typed>,
    /// The types of what comes back to the block.
    pub returns: List<Ty>,
}

/// A line of a block: an operation with what is given to it on both sides, and the variables that it gives.
#[derive(Drop)]
pub struct LineOf<G> {
    /// What goes into the operation.
    pub inputs: List<Expr>,
    /// The variables of what goes back from it.
    pub feedback: List<u32>,
    /// The operation.
    pub operation: G,
    /// The variables of what comes out of it.
    pub outputs: List<u32>,
    /// What comes back to it.
    pub returns: List<Expr>,
}

/// A branch's game for a value.
#[derive(Drop)]
pub struct ArmOf<G> {
    /// The value's rank.
    pub key: u32,
    /// The game.
    pub game: G,
}

/// A game as contracts see it: its outermost form, over games.
pub struct Plan {
    /// The form.
    pub node: GameNodeOf<Plan>,
}

/// The outermost form of a well wired game.
pub type GameNode = GameNodeOf<Game>;

/// Lines of well wired games.
pub type Block = BlockOf<Game>;

/// A line with a well wired game.
pub type Line = LineOf<Game>;

/// A branch's well wired game for a value.
pub type Arm = ArmOf<Game>;
