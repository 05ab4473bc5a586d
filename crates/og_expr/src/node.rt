use crate::expr::Expr;
use og_list::{Boxed, List};
use og_types::Ty;

/// The outermost form of an expression, over its parts. Its variables are numbers, and no call stands in it.
#[derive(Drop)]
pub enum NodeOf<E> {
    /// A whole number.
    Literal(i64),
    /// A truth.
    Flag(bool),
    /// A case of an enum.
    Case {
        /// The enum's number.
        family: u32,
        /// How many cases it has.
        cases: u32,
        /// The case's place among them, from 0.
        index: u32,
    },
    /// A variable.
    Var {
        /// The variable's number.
        number: u32,
        /// Its type.
        ty: Ty,
    },
    /// Whether one of the parts holds: two or more, from the left up to the first that does.
    Or(List<E>),
    /// Whether all parts hold: two or more, from the left up to the first that doesn't.
    And(List<E>),
    /// Whether the part doesn't hold.
    Not(Boxed<E>),
    /// A comparison.
    Compare(Test, Boxed<E>, Boxed<E>),
    /// A chain of `+` and `-`, from the left: one part or more behind the first.
    Sum(Boxed<E>, List<Addend<E>>),
    /// A chain of `*` and `/`, likewise.
    Product(Boxed<E>, List<Factor<E>>),
    /// The opposite number.
    Neg(Boxed<E>),
    /// The component of a tuple at a place, from 0.
    Field(Boxed<E>, u64),
    /// A tuple of two parts or more.
    Tuple(List<E>),
    /// What stands behind the first condition that holds, and the last where none does: one condition or more.
    If(List<Choice<E>>, Boxed<E>),
    /// The row of the keys' values: one key or more, and a row for each list of values that they can have, in order.
    Table(List<Key<E>>, List<E>),
    /// The first divided by the second, and the third where that is 0.
    Ratio(Boxed<E>, Boxed<E>, Boxed<E>),
    /// The lesser of two numbers.
    Min(Boxed<E>, Boxed<E>),
    /// The greater of two numbers.
    Max(Boxed<E>, Boxed<E>),
    /// The greatest whole number that isn't above the part's, raised to the first bound or lowered to the second.
    Clamp(i64, i64, Boxed<E>),
}

/// A comparison's mark.
#[derive(Clone, Copy, Debug, PartialEq, Eq)]
pub enum Test {
    Equal,
    Differs,
    Less,
    AtMost,
    Greater,
    AtLeast,
}

/// A part of a sum behind the first.
#[derive(Drop)]
pub enum Addend<E> {
    Plus(E),
    Minus(E),
}

/// A part of a product behind the first.
#[derive(Drop)]
pub enum Factor<E> {
    Times(E),
    Over(u64),
}

/// What holds under a condition.
#[derive(Drop)]
pub struct Choice<E> {
    /// The condition.
    pub cond: E,
    /// What holds under it.
    pub body: E,
}

/// A key of a table.
#[derive(Drop)]
pub struct Key<E> {
    /// Whose value is looked up.
    pub expr: E,
    /// The type among whose values it is looked up.
    pub ty: Ty,
}

/// An expression as contracts see it: its outermost form, over expressions.
pub struct Term {
    /// The form.
    pub node: NodeOf<Term>,
}

/// The outermost form of a typed expression.
pub type Node = NodeOf<Expr>;
