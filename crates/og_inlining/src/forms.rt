//! Forms over trees.
ghost use Rattle.std.specs.Prelude.{◌≡◌, IfOk, Option, option_and_then};
ghost use Rattle.og_expr.specs.declared.node.Term.{Term};
ghost use Rattle.og_expr.specs.declared.node.NodeOf.TheVariants as nodes;
ghost use Rattle.og_inlining.specs.Steps.{Gives};
ghost use Rattle.og_inlining.specs.Trees.{built, fields, test_of};

use og_expr::{Addend, BuildFault, Choice, Expr, Factor, Key, Node, NodeOf, Test};
use og_list::{Boxed, List};
use og_syntax::CompareOp;
use std::alloc::{AllocError, Global};

/// The tree of a form, where it is typed.
#[tactic(auto, unfolding(crate::specs::Trees::built))]
pub(crate) fn built(alloc: Global, node: Node) -> Result<Expr, BuildFault>
    ensures { Gives (built node) result }
{
    Expr::build(alloc, node)
}

/// The tree behind a pointer.
pub(crate) fn boxed(alloc: Global, e: Expr) -> Result<Boxed<Expr>, AllocError>
    ensures { IfOk result (λ made. made ≡ e) }
{
    match Boxed::new(alloc, e) {
        Ok(made) => Ok(made),
        Err(_) => Err(AllocError),
    }
}

pub(crate) fn denial(alloc: Global, part: Expr) -> Result<Expr, BuildFault>
    ensures { Gives (built (nodes.Not part)) result }
{
    built(alloc, NodeOf::Not(boxed(alloc, part)?))
}

/// The comparison that a text's mark stands for.
fn test_of(op: CompareOp) -> Test
    ensures { result ≡ test_of op }
{
    match op {
        CompareOp::Equal => Test::Equal,
        CompareOp::Differs => Test::Differs,
        CompareOp::Less => Test::Less,
        CompareOp::AtMost => Test::AtMost,
        CompareOp::Greater => Test::Greater,
        CompareOp::AtLeast => Test::AtLeast,
    }
}

pub(crate) fn comparison(
    alloc: Global,
    op: CompareOp,
    left: Expr,
    right: Expr,
) -> Result<Expr, BuildFault>
    ensures { Gives (built (nodes.Compare (test_of op) left right)) result }
{
    let left = boxed(alloc, left)?;
    let right = boxed(alloc, right)?;
    built(alloc, NodeOf::Compare(test_of(op), left, right))
}

pub(crate) fn sum(alloc: Global, first: Expr, rest: List<Addend<Expr>>) -> Result<Expr, BuildFault>
    ensures { Gives (built (nodes.Sum first rest)) result }
{
    built(alloc, NodeOf::Sum(boxed(alloc, first)?, rest))
}

pub(crate) fn product(
    alloc: Global,
    first: Expr,
    rest: List<Factor<Expr>>,
) -> Result<Expr, BuildFault>
    ensures { Gives (built (nodes.Product first rest)) result }
{
    built(alloc, NodeOf::Product(boxed(alloc, first)?, rest))
}

pub(crate) fn opposite(alloc: Global, part: Expr) -> Result<Expr, BuildFault>
    ensures { Gives (built (nodes.Neg part)) result }
{
    built(alloc, NodeOf::Neg(boxed(alloc, part)?))
}

/// A quotient, where what to take instead is there.
pub(crate) fn ratio(
    alloc: Global,
    x: Expr,
    y: Expr,
    otherwise: Result<Expr, BuildFault>,
) -> Result<Expr, BuildFault>
    ensures { (o : Option Term) → Gives o otherwise → Gives (option_and_then (λ z. built (nodes.Ratio x y z)) o) result }
{
    let otherwise = boxed(alloc, otherwise?)?;
    let x = boxed(alloc, x)?;
    let y = boxed(alloc, y)?;
    built(alloc, NodeOf::Ratio(x, y, otherwise))
}

pub(crate) fn lesser(alloc: Global, first: Expr, second: Expr) -> Result<Expr, BuildFault>
    ensures { Gives (built (nodes.Min first second)) result }
{
    let first = boxed(alloc, first)?;
    let second = boxed(alloc, second)?;
    built(alloc, NodeOf::Min(first, second))
}

pub(crate) fn greater(alloc: Global, first: Expr, second: Expr) -> Result<Expr, BuildFault>
    ensures { Gives (built (nodes.Max first second)) result }
{
    let first = boxed(alloc, first)?;
    let second = boxed(alloc, second)?;
    built(alloc, NodeOf::Max(first, second))
}

pub(crate) fn clamp(alloc: Global, low: i64, high: i64, part: Expr) -> Result<Expr, BuildFault>
    ensures { Gives (built (nodes.Clamp low high part)) result }
{
    built(alloc, NodeOf::Clamp(low, high, boxed(alloc, part)?))
}

pub(crate) fn choice(
    alloc: Global,
    choices: List<Choice<Expr>>,
    otherwise: Expr,
) -> Result<Expr, BuildFault>
    ensures { Gives (built (nodes.If choices otherwise)) result }
{
    built(alloc, NodeOf::If(choices, boxed(alloc, otherwise)?))
}

pub(crate) fn table(
    alloc: Global,
    keys: List<Key<Expr>>,
    rows: List<Expr>,
) -> Result<Expr, BuildFault>
    ensures { Gives (built (nodes.Table keys rows)) result }
{
    built(alloc, NodeOf::Table(keys, rows))
}

/// A component of the tree, a component of it, and so on.
pub(crate) fn fields(alloc: Global, part: Expr, path: &List<u64>) -> Result<Expr, BuildFault>
    ensures { Gives (fields part path.now) result }
{
    let mut found = part;
    'path: for place in path.as_slice() {
        found = built(alloc, NodeOf::Field(boxed(alloc, found)?, *place))?;
    }
    Ok(found)
}
