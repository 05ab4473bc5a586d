//! How many nodes a form has and how high it is, as numbers that stand still at 2^32 - 1.
ghost use Rattle.std.specs.Prelude.{◌≡◌, ℕ, ◌+◌, ◌*◌, map, length, max};
ghost use Rattle.og_expr.specs.Terms.{term_of};
ghost use Rattle.og_expr.specs.Parts.{all_together, addend_part, factor_part, choice_parts, together};
ghost use Rattle.og_expr.specs.Counts.{nodes_of, nodes_below, height_of, height_below, capped, plus, key_values};
ghost use Rattle.og_expr.specs.Levels.{node_with, addend_with, factor_with, choice_with, key_with};

use crate::expr::Expr;
use crate::node::{Addend, Choice, Factor, Key, Node, NodeOf};
use og_list::List;

/// How large an expression is, or what stands below one.
#[derive(Clone, Copy)]
pub(crate) struct Size {
    pub(crate) nodes: u32,
    pub(crate) height: u32,
}

impl Size {
    /// Of nothing.
    fn none() -> Size
        ensures nodes { result.nodes ≡ 0 }
        ensures height { result.height ≡ 0 }
    {
        Size {
            nodes: 0,
            height: 0,
        }
    }

    /// Of an expression.
    fn of(e: &Expr) -> Size
        ensures nodes { result.nodes ≡ capped (nodes_of e.now) }
        ensures height { result.height ≡ capped (height_of e.now) }
    {
        Size {
            nodes: e.nodes(),
            height: e.height(),
        }
    }

    /// The nodes of both, and the height of the higher one.
    fn with(self, other: Size) -> Size
        ensures nodes { result.nodes ≡ capped (plus self.nodes other.nodes) }
        ensures height { result.height ≡ capped (max self.height other.height) }
    {
        Size {
            nodes: self.nodes.saturating_add(other.nodes),
            height: self.height.max(other.height),
        }
    }
}

/// The product of two lengths, as a count.
fn area(rows: usize, columns: usize) -> u32
    ensures { result ≡ capped (rows * columns) }
{
    let many = (rows as u64).saturating_mul(columns as u64);
    many.min(u64::from(u32::MAX)) as u32
}

/// Of all parts.
#[tactic(auto, using(crate::proofs::Together::next_nodes, crate::proofs::Together::next_height))]
fn all(parts: &List<Expr>) -> Size
    ensures nodes { result.nodes ≡ capped (all_together 0 plus (λ n. n) (map nodes_of parts.now)) }
    ensures height { result.height ≡ capped (all_together 0 max (λ n. n) (map height_of parts.now)) }
{
    let mut size = Size::none();
    'parts: for part in parts.as_slice() {
        size = size.with(Size::of(part));
    }
    size
}

#[tactic(auto, using(crate::proofs::Together::next_nodes, crate::proofs::Together::next_height))]
fn addends(parts: &List<Addend<Expr>>) -> Size
    ensures nodes { result.nodes ≡ capped (all_together 0 plus addend_part (map (addend_with nodes_of) parts.now)) }
    ensures height { result.height ≡ capped (all_together 0 max addend_part (map (addend_with height_of) parts.now)) }
{
    let mut size = Size::none();
    'parts: for part in parts.as_slice() {
        match part {
            Addend::Plus(e) | Addend::Minus(e) => size = size.with(Size::of(e)),
        }
    }
    size
}

#[tactic(auto, using(crate::proofs::Together::next_nodes, crate::proofs::Together::next_height))]
fn factors(parts: &List<Factor<Expr>>) -> Size
    ensures nodes { result.nodes ≡ capped (all_together 0 plus (factor_part 0) (map (factor_with nodes_of) parts.now)) }
    ensures height { result.height ≡ capped (all_together 0 max (factor_part 0) (map (factor_with height_of) parts.now)) }
{
    let mut size = Size::none();
    'parts: for part in parts.as_slice() {
        match part {
            Factor::Times(e) => size = size.with(Size::of(e)),
            Factor::Over(_) => {}
        }
    }
    size
}

#[tactic(auto, using(crate::proofs::Together::next_nodes, crate::proofs::Together::next_height))]
fn choices(parts: &List<Choice<Expr>>) -> Size
    ensures nodes { result.nodes ≡ capped (all_together 0 plus (choice_parts plus) (map (choice_with nodes_of) parts.now)) }
    ensures height { result.height ≡ capped (all_together 0 max (choice_parts max) (map (choice_with height_of) parts.now)) }
{
    let mut size = Size::none();
    'parts: for part in parts.as_slice() {
        size = size.with(Size::of(&part.cond).with(Size::of(&part.body)));
    }
    size
}

#[tactic(auto, using(crate::proofs::Together::next_nodes, crate::proofs::Together::next_height))]
fn keys(parts: &List<Key<Expr>>) -> Size
    ensures nodes { result.nodes ≡ capped (all_together 0 plus (λ key. key.expr) (map (key_with nodes_of) parts.now)) }
    ensures height { result.height ≡ capped (all_together 0 max (λ key. key.expr) (map (key_with height_of) parts.now)) }
{
    let mut size = Size::none();
    'parts: for part in parts.as_slice() {
        size = size.with(Size::of(&part.expr));
    }
    size
}

/// What stands below the form, without the values of a table's keys.
#[tactic(auto, using(crate::proofs::Together::capped_plus, crate::proofs::Together::capped_max))]
fn below(node: &Node) -> Size
    ensures nodes { result.nodes ≡ capped (together 0 plus (node_with nodes_of node.now)) }
    ensures height { result.height ≡ capped (height_below (node_with height_of node.now)) }
{
    match node {
        NodeOf::Literal(_) | NodeOf::Flag(_) | NodeOf::Case { .. } | NodeOf::Var { .. } => {
            Size::none()
        }
        NodeOf::Or(parts) | NodeOf::And(parts) | NodeOf::Tuple(parts) => all(parts),
        NodeOf::Not(part) | NodeOf::Neg(part) => Size::of(part.get()),
        NodeOf::Field(part, _) | NodeOf::Clamp(_, _, part) => Size::of(part.get()),
        NodeOf::Compare(_, a, b) => Size::of(a.get()).with(Size::of(b.get())),
        NodeOf::Min(a, b) | NodeOf::Max(a, b) => Size::of(a.get()).with(Size::of(b.get())),
        NodeOf::Sum(first, more) => Size::of(first.get()).with(addends(more)),
        NodeOf::Product(first, more) => Size::of(first.get()).with(factors(more)),
        NodeOf::If(parts, last) => choices(parts).with(Size::of(last.get())),
        NodeOf::Table(parts, rows) => keys(parts).with(all(rows)),
        NodeOf::Ratio(x, y, z) => {
            Size::of(x.get()).with(Size::of(y.get()).with(Size::of(z.get())))
        }
    }
}

/// How many values of keys stand in a table's rows.
fn values(node: &Node) -> u32
    ensures { result ≡ capped (key_values (node_with nodes_of node.now)) }
{
    match node {
        NodeOf::Table(parts, rows) => area(rows.len(), parts.len()),
        _ => 0,
    }
}

/// Of an expression of the form.
#[tactic(auto, using(crate::proofs::Forms::nodes_of_node, crate::proofs::Forms::height_of_node))]
pub(crate) fn measure(node: &Node) -> Size
    ensures nodes { result.nodes ≡ capped (nodes_of (term_of node.now)) }
    ensures height { result.height ≡ capped (height_of (term_of node.now)) }
{
    let below = below(node);
    let own = values(node).saturating_add(1);
    Size {
        nodes: below.nodes.saturating_add(own),
        height: below.height.saturating_add(1),
    }
}
