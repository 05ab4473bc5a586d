use og_game::{Stand, Variable};
use og_list::List;
use og_names::Names;
use og_types::Ty;

/// What a declared name stands for.
#[derive(Debug, Drop)]
pub enum Meaning {
    /// A type.
    Type(Ty),
    /// A case of an enum: the enum's number, its count of cases, and the case's index.
    Case(u32, u32, u32),
    /// A function.
    Function(Function),
    /// A game, by its number.
    Game(u32),
}

/// A declared function. How large its body is, is said of the body with its own calls replaced by bodies.
#[derive(Debug, Drop)]
pub struct Function {
    /// The number of its declaration.
    pub number: u32,
    /// The types of its parameters.
    pub params: List<Ty>,
    /// The type of what it gives.
    pub answer: Ty,
    /// The greatest depth in its body.
    pub height: u32,
    /// How many nodes of its body are no parameters.
    pub own: u32,
    /// How often each parameter stands in its body.
    pub uses: List<u32>,
    /// The parameter that its body is, where it is one.
    pub gives: Option<usize>,
}

/// What a parameter of a game stands for.
#[derive(Debug, Drop)]
pub enum Given {
    /// An agent.
    Agent,
    /// A value of the type.
    Value(Ty),
}

/// The names that an expression sees.
#[derive(Clone, Copy, Drop)]
pub struct Scope<'a> {
    /// What is declared before it.
    pub declared: &'a Names<Meaning>,
    /// The parameters of the game in which it stands.
    pub given: &'a Names<Given>,
    /// The variables of its function, block or function of ports. A variable's number is its place in the list.
    pub variables: &'a Names<Variable>,
    /// The names that come backwards, where it is a forward expression of a block.
    pub hidden: &'a Names<()>,
    /// Where it stands in a block.
    pub stand: Stand,
}

/// What surrounds the variables of a declaration.
#[derive(Clone, Copy, Drop)]
pub struct Around<'a> {
    /// What is declared before it.
    pub declared: &'a Names<Meaning>,
    /// The declaration's own name.
    pub own: &'a str,
    /// The parameters of the game in which the variables stand.
    pub given: &'a Names<Given>,
}

/// Variables, and the types of those among them that are parameters.
#[derive(Drop)]
pub struct Params {
    /// The variables.
    pub variables: Names<Variable>,
    /// The parameters' types, in order.
    pub types: List<Ty>,
}
