use og_expr::Expr;
use og_game::Variable;
use og_names::Names;
use og_typing::Meaning;

/// What the names in an expression stand for.
#[derive(Clone, Copy, Drop)]
pub struct Trees<'a> {
    /// What is declared before it.
    pub declared: &'a Names<Meaning>,
    /// Its variables. A variable's number is its place in the list.
    pub variables: &'a Names<Variable>,
    /// The trees of the game's parameters that are values.
    pub given: &'a Names<Expr>,
    /// The trees of the declared functions' bodies, whose variables are the parameters, by their places.
    pub bodies: &'a Names<Expr>,
}
