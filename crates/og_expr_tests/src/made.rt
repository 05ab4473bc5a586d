//! Expressions from lists of what to make, each of those made last.
use og_expr::{Addend, BuildFault, Choice, Expr, Factor, Key, Node, NodeOf, Test};
use og_list::{Boxed, List};
use og_types::Ty;
use std::alloc::Global;
use std::process::Abort;

/// The type of a key.
#[derive(Clone, Copy)]
pub enum In {
    Truths,
    Range(i64, i64),
    Numbers,
}

/// What to make of the expressions that were made last.
#[derive(Clone, Copy)]
pub enum Make {
    Num(i64),
    True,
    False,
    /// A case of an enum of three.
    Case(u32),
    /// A truth.
    Truth(u32),
    /// A number.
    Number(u32),
    /// A truth, with a number from 0 to 9 and a number.
    Nested(u32),
    /// A truth without a value.
    Lost,
    /// A number without a value.
    LostNumber,
    Or(usize),
    And(usize),
    Not,
    Compare(Test),
    /// A first, and one more for each mark.
    Sum(&'static str),
    /// A first, and so many more.
    Times(usize),
    Over(u64),
    Neg,
    Field(u64),
    Tuple(usize),
    /// So many conditions, each before what holds under it, and the last.
    If(usize),
    /// The keys, with these types, and so many rows.
    Table(&'static [In], usize),
    Ratio,
    Min,
    Max,
    Clamp(i64, i64),
}

fn last(rt: &impl Abort, stack: &mut List<Expr>) -> Expr {
    stack.pop().expect(rt, "one more expression")
}

fn boxed(rt: &impl Abort, alloc: Global, e: Expr) -> Boxed<Expr> {
    Boxed::new(alloc, e).ok().expect(rt, "memory")
}

fn last_box(rt: &impl Abort, alloc: Global, stack: &mut List<Expr>) -> Boxed<Expr> {
    boxed(rt, alloc, last(rt, stack))
}

/// So many of the last, in the order in which they were made.
fn last_of(rt: &impl Abort, alloc: Global, stack: &mut List<Expr>, many: usize) -> List<Expr> {
    let mut back = List::new(alloc);
    for _ in 0..many {
        back.add(last(rt, stack)).expect(rt, "memory");
    }
    let mut all = List::new(alloc);
    for _ in 0..many {
        all.add(last(rt, &mut back)).expect(rt, "memory");
    }
    all
}

fn sum_of(rt: &impl Abort, alloc: Global, stack: &mut List<Expr>, marks: &str) -> Node {
    let mut parts = List::new(alloc);
    let mut back = last_of(rt, alloc, stack, marks.len());
    let mut turned = List::new(alloc);
    for _ in 0..marks.len() {
        turned.add(last(rt, &mut back)).expect(rt, "memory");
    }
    for mark in marks.as_bytes() {
        let part = last(rt, &mut turned);
        let addend = if *mark == b'+' {
            Addend::Plus(part)
        } else {
            Addend::Minus(part)
        };
        parts.add(addend).expect(rt, "memory");
    }
    NodeOf::Sum(last_box(rt, alloc, stack), parts)
}

fn times_of(rt: &impl Abort, alloc: Global, stack: &mut List<Expr>, many: usize) -> Node {
    let mut back = List::new(alloc);
    for _ in 0..many {
        back.add(last(rt, stack)).expect(rt, "memory");
    }
    let mut parts = List::new(alloc);
    for _ in 0..many {
        parts
            .add(Factor::Times(last(rt, &mut back)))
            .expect(rt, "memory");
    }
    NodeOf::Product(last_box(rt, alloc, stack), parts)
}

fn over_of(rt: &impl Abort, alloc: Global, stack: &mut List<Expr>, divisor: u64) -> Node {
    let mut parts = List::new(alloc);
    parts.add(Factor::Over(divisor)).expect(rt, "memory");
    NodeOf::Product(last_box(rt, alloc, stack), parts)
}

fn if_of(rt: &impl Abort, alloc: Global, stack: &mut List<Expr>, many: usize) -> Node {
    let otherwise = last_box(rt, alloc, stack);
    let mut back = List::new(alloc);
    for _ in 0..many {
        let body = last(rt, stack);
        let cond = last(rt, stack);
        back.add(Choice { cond, body }).expect(rt, "memory");
    }
    let mut choices = List::new(alloc);
    for _ in 0..many {
        choices
            .add(back.pop().expect(rt, "a choice"))
            .expect(rt, "memory");
    }
    NodeOf::If(choices, otherwise)
}

fn table_of(
    rt: &impl Abort,
    alloc: Global,
    stack: &mut List<Expr>,
    types: &[In],
    many: usize,
) -> Node {
    let rows = last_of(rt, alloc, stack, many);
    let mut back = List::new(alloc);
    for _ in 0..types.len() {
        back.add(last(rt, stack)).expect(rt, "memory");
    }
    let mut keys = List::new(alloc);
    for of in types {
        let ty = match of {
            In::Truths => Ty::Bool,
            In::Range(low, high) => Ty::Range(*low, *high),
            In::Numbers => Ty::Number,
        };
        keys.add(Key {
            expr: last(rt, &mut back),
            ty,
        })
        .expect(rt, "memory");
    }
    NodeOf::Table(keys, rows)
}

fn nested(rt: &impl Abort, alloc: Global) -> Ty {
    let mut inner = List::new(alloc);
    inner.add(Ty::Range(0, 9)).expect(rt, "memory");
    inner.add(Ty::Number).expect(rt, "memory");
    let mut outer = List::new(alloc);
    outer.add(Ty::Bool).expect(rt, "memory");
    outer.add(Ty::Tuple(inner)).expect(rt, "memory");
    Ty::Tuple(outer)
}

/// The greatest word twice, which has no value.
fn lost(rt: &impl Abort, alloc: Global) -> Expr {
    let mut parts = List::new(alloc);
    let more = Expr::build(alloc, NodeOf::Literal(i64::MAX)).expect(rt, "a word");
    parts.add(Addend::Plus(more)).expect(rt, "memory");
    let first = Expr::build(alloc, NodeOf::Literal(i64::MAX)).expect(rt, "a word");
    Expr::build(alloc, NodeOf::Sum(boxed(rt, alloc, first), parts)).expect(rt, "a sum")
}

fn lost_truth(rt: &impl Abort, alloc: Global) -> Node {
    let first = boxed(rt, alloc, lost(rt, alloc));
    let second = boxed(rt, alloc, lost(rt, alloc));
    NodeOf::Compare(Test::Equal, first, second)
}

fn lost_number(rt: &impl Abort, alloc: Global) -> Node {
    NodeOf::Neg(boxed(rt, alloc, lost(rt, alloc)))
}

fn two_of(rt: &impl Abort, alloc: Global, stack: &mut List<Expr>) -> (Boxed<Expr>, Boxed<Expr>) {
    let second = last_box(rt, alloc, stack);
    let first = last_box(rt, alloc, stack);
    (first, second)
}

fn ratio_of(rt: &impl Abort, alloc: Global, stack: &mut List<Expr>) -> Node {
    let third = last_box(rt, alloc, stack);
    let (first, second) = two_of(rt, alloc, stack);
    NodeOf::Ratio(first, second, third)
}

fn pair_of(rt: &impl Abort, alloc: Global, stack: &mut List<Expr>, what: &Make) -> Node {
    let (first, second) = two_of(rt, alloc, stack);
    match what {
        Make::Compare(test) => NodeOf::Compare(*test, first, second),
        Make::Min => NodeOf::Min(first, second),
        _ => NodeOf::Max(first, second),
    }
}

fn node_of(rt: &impl Abort, alloc: Global, stack: &mut List<Expr>, what: &Make) -> Node {
    match what {
        Make::Num(n) => NodeOf::Literal(*n),
        Make::True => NodeOf::Flag(true),
        Make::False => NodeOf::Flag(false),
        Make::Case(index) => NodeOf::Case {
            family: 0,
            cases: 3,
            index: *index,
        },
        Make::Truth(number) => NodeOf::Var {
            number: *number,
            ty: Ty::Bool,
        },
        Make::Number(number) => NodeOf::Var {
            number: *number,
            ty: Ty::Number,
        },
        Make::Nested(number) => NodeOf::Var {
            number: *number,
            ty: nested(rt, alloc),
        },
        Make::Lost => lost_truth(rt, alloc),
        Make::LostNumber => lost_number(rt, alloc),
        Make::Or(many) => NodeOf::Or(last_of(rt, alloc, stack, *many)),
        Make::And(many) => NodeOf::And(last_of(rt, alloc, stack, *many)),
        Make::Tuple(many) => NodeOf::Tuple(last_of(rt, alloc, stack, *many)),
        Make::Not => NodeOf::Not(last_box(rt, alloc, stack)),
        Make::Neg => NodeOf::Neg(last_box(rt, alloc, stack)),
        Make::Field(k) => NodeOf::Field(last_box(rt, alloc, stack), *k),
        Make::Clamp(low, high) => NodeOf::Clamp(*low, *high, last_box(rt, alloc, stack)),
        Make::Sum(marks) => sum_of(rt, alloc, stack, marks),
        Make::Times(many) => times_of(rt, alloc, stack, *many),
        Make::Over(divisor) => over_of(rt, alloc, stack, *divisor),
        Make::If(many) => if_of(rt, alloc, stack, *many),
        Make::Table(types, many) => table_of(rt, alloc, stack, types, *many),
        Make::Ratio => ratio_of(rt, alloc, stack),
        Make::Compare(_) | Make::Min | Make::Max => pair_of(rt, alloc, stack, what),
    }
}

/// The expression that is made last, or the first refusal.
pub fn made(rt: &impl Abort, alloc: Global, what: &[Make]) -> Result<Expr, BuildFault> {
    let mut stack = List::new(alloc);
    for one in what {
        let node = node_of(rt, alloc, &mut stack, one);
        let e = Expr::build(alloc, node)?;
        stack.add(e).expect(rt, "memory");
    }
    Ok(last(rt, &mut stack))
}
