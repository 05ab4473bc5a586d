use og_expr::Expr;
use og_list::Text;
use og_names::Names;

/// What the parameters of a game stand for.
#[derive(Drop)]
pub struct Given {
    /// The trees of those that are values.
    pub values: Names<Expr>,
    /// The names of those that are agents.
    pub agents: Names<Text>,
}
