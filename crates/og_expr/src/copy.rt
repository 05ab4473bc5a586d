//! Equal expressions in memory of their own.
ghost use Rattle.std.specs.Prelude.{◌≡◌, IfOk};
ghost use Rattle.og_expr.specs.Terms.{term_of};

use crate::expr::Expr;
use crate::node::{Addend, Choice, Factor, Key, Node, NodeOf};
use og_list::{Boxed, List};
use og_types::Ty;
use std::alloc::{AllocError, Global};

/// The expression behind a pointer.
pub(crate) fn boxed(alloc: Global, e: Expr) -> Result<Boxed<Expr>, AllocError>
    ensures { IfOk result (λ made. made ≡ e) }
{
    match Boxed::new(alloc, e) {
        Ok(made) => Ok(made),
        Err(_) => Err(AllocError),
    }
}

#[cycle(copies)]
fn parts(alloc: Global, those: &List<Expr>) -> Result<List<Expr>, AllocError>
    ensures { IfOk result (λ made. made ≡ those.now) }
{
    let mut all = List::new(alloc);
    'those: for e in those.as_slice() {
        all.add(copy(alloc, e)?)?;
    }
    Ok(all)
}

#[cycle(copies)]
fn addends(alloc: Global, those: &List<Addend<Expr>>) -> Result<List<Addend<Expr>>, AllocError>
    ensures { IfOk result (λ made. made ≡ those.now) }
{
    let mut all = List::new(alloc);
    'those: for one in those.as_slice() {
        match one {
            Addend::Plus(e) => all.add(Addend::Plus(copy(alloc, e)?))?,
            Addend::Minus(e) => all.add(Addend::Minus(copy(alloc, e)?))?,
        }
    }
    Ok(all)
}

#[cycle(copies)]
fn factors(alloc: Global, those: &List<Factor<Expr>>) -> Result<List<Factor<Expr>>, AllocError>
    ensures { IfOk result (λ made. made ≡ those.now) }
{
    let mut all = List::new(alloc);
    'those: for one in those.as_slice() {
        match one {
            Factor::Times(e) => all.add(Factor::Times(copy(alloc, e)?))?,
            Factor::Over(d) => all.add(Factor::Over(*d))?,
        }
    }
    Ok(all)
}

#[cycle(copies)]
fn choices(alloc: Global, those: &List<Choice<Expr>>) -> Result<List<Choice<Expr>>, AllocError>
    ensures { IfOk result (λ made. made ≡ those.now) }
{
    let mut all = List::new(alloc);
    'those: for one in those.as_slice() {
        let cond = copy(alloc, &one.cond)?;
        let body = copy(alloc, &one.body)?;
        all.add(Choice { cond, body })?;
    }
    Ok(all)
}

#[cycle(copies)]
fn keys(alloc: Global, those: &List<Key<Expr>>) -> Result<List<Key<Expr>>, AllocError>
    ensures { IfOk result (λ made. made ≡ those.now) }
{
    let mut all = List::new(alloc);
    'those: for one in those.as_slice() {
        let expr = copy(alloc, &one.expr)?;
        let ty = one.ty.copy(alloc)?;
        all.add(Key { expr, ty })?;
    }
    Ok(all)
}

/// The expression of the form, which is as large as one that it makes, and of its type.
fn remade(alloc: Global, node: Node, like: &Expr) -> Result<Expr, AllocError>
    requires { term_of node ≡ like.now }
    ensures { IfOk result (λ made. made ≡ like.now) }
{
    let ty = like.ty.copy(alloc)?;
    Ok(Expr {
        node,
        ty,
        nodes: like.nodes,
        height: like.height,
    })
}

/// An equal expression, in memory of its own.
#[cycle(copies)]
pub(crate) fn copy(alloc: Global, e: &Expr) -> Result<Expr, AllocError>
    ensures { IfOk result (λ made. made ≡ e.now) }
{
    match &e.node {
        NodeOf::Literal(n) => remade(alloc, NodeOf::Literal(*n), e),
        NodeOf::Flag(flag) => remade(alloc, NodeOf::Flag(*flag), e),
        NodeOf::Case {
            family,
            cases,
            index,
        } => remade(
            alloc,
            NodeOf::Case {
                family: *family,
                cases: *cases,
                index: *index,
            },
            e,
        ),
        NodeOf::Var { number, ty } => remade(
            alloc,
            NodeOf::Var {
                number: *number,
                ty: ty.copy(alloc)?,
            },
            e,
        ),
        NodeOf::Or(those) => remade(alloc, NodeOf::Or(parts(alloc, those)?), e),
        NodeOf::And(those) => remade(alloc, NodeOf::And(parts(alloc, those)?), e),
        NodeOf::Not(a) => remade(alloc, NodeOf::Not(boxed(alloc, copy(alloc, a.get())?)?), e),
        NodeOf::Compare(test, a, b) => remade(
            alloc,
            NodeOf::Compare(
                *test,
                boxed(alloc, copy(alloc, a.get())?)?,
                boxed(alloc, copy(alloc, b.get())?)?,
            ),
            e,
        ),
        NodeOf::Sum(a, more) => remade(
            alloc,
            NodeOf::Sum(boxed(alloc, copy(alloc, a.get())?)?, addends(alloc, more)?),
            e,
        ),
        NodeOf::Product(a, more) => remade(
            alloc,
            NodeOf::Product(boxed(alloc, copy(alloc, a.get())?)?, factors(alloc, more)?),
            e,
        ),
        NodeOf::Neg(a) => remade(alloc, NodeOf::Neg(boxed(alloc, copy(alloc, a.get())?)?), e),
        NodeOf::Field(a, k) => remade(
            alloc,
            NodeOf::Field(boxed(alloc, copy(alloc, a.get())?)?, *k),
            e,
        ),
        NodeOf::Tuple(those) => remade(alloc, NodeOf::Tuple(parts(alloc, those)?), e),
        NodeOf::If(those, last) => remade(
            alloc,
            NodeOf::If(
                choices(alloc, those)?,
                boxed(alloc, copy(alloc, last.get())?)?,
            ),
            e,
        ),
        NodeOf::Table(those, rows) => remade(
            alloc,
            NodeOf::Table(keys(alloc, those)?, parts(alloc, rows)?),
            e,
        ),
        NodeOf::Ratio(a, b, c) => remade(
            alloc,
            NodeOf::Ratio(
                boxed(alloc, copy(alloc, a.get())?)?,
                boxed(alloc, copy(alloc, b.get())?)?,
                boxed(alloc, copy(alloc, c.get())?)?,
            ),
            e,
        ),
        NodeOf::Min(a, b) => remade(
            alloc,
            NodeOf::Min(
                boxed(alloc, copy(alloc, a.get())?)?,
                boxed(alloc, copy(alloc, b.get())?)?,
            ),
            e,
        ),
        NodeOf::Max(a, b) => remade(
            alloc,
            NodeOf::Max(
                boxed(alloc, copy(alloc, a.get())?)?,
                boxed(alloc, copy(alloc, b.get())?)?,
            ),
            e,
        ),
        NodeOf::Clamp(low, high, a) => remade(
            alloc,
            NodeOf::Clamp(*low, *high, boxed(alloc, copy(alloc, a.get())?)?),
            e,
        ),
    }
}
