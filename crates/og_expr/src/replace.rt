//! Expressions with trees for their variables, in memory of their own.
ghost use Rattle.std.specs.Prelude.{◌≡◌, IfOk, IsSome, true, map};
ghost use Rattle.og_expr.specs.Terms.{term_of};
ghost use Rattle.og_expr.specs.Parts.{all_together, addend_part, factor_part, choice_parts};
ghost use Rattle.og_expr.specs.Levels.{addend_with, factor_with, choice_with, key_with};
ghost use Rattle.og_expr.specs.Types.{type_of};
ghost use Rattle.og_expr.specs.Variables.{all_variables, and_also};
ghost use Rattle.og_expr.specs.Replaced.{variable, replaced, tree_at, takes};

use crate::copy::boxed;
use crate::expr::{BuildFault, Expr};
use crate::node::{Addend, Choice, Factor, Key, Node, NodeOf};
use og_list::List;
use og_types::Ty;
use std::alloc::{AllocError, Global};

#[cycle(replaces)]
fn parts(alloc: Global, those: &List<Expr>, trees: &List<Expr>) -> Result<List<Expr>, AllocError>
    requires { all_together true and_also (λ b. b) (map (all_variables (takes trees.now)) those.now) ≡ true }
    ensures { IfOk result (λ made. made ≡ map (replaced (tree_at trees.now)) those.now) }
{
    let mut all = List::new(alloc);
    'those: for e in those.as_slice() {
        all.add(replace(alloc, e, trees)?)?;
    }
    Ok(all)
}

#[cycle(replaces)]
fn addends(
    alloc: Global,
    those: &List<Addend<Expr>>,
    trees: &List<Expr>,
) -> Result<List<Addend<Expr>>, AllocError>
    requires { all_together true and_also addend_part (map (addend_with (all_variables (takes trees.now))) those.now) ≡ true }
    ensures { IfOk result (λ made. made ≡ map (addend_with (replaced (tree_at trees.now))) those.now) }
{
    let mut all = List::new(alloc);
    'those: for one in those.as_slice() {
        match one {
            Addend::Plus(e) => all.add(Addend::Plus(replace(alloc, e, trees)?))?,
            Addend::Minus(e) => all.add(Addend::Minus(replace(alloc, e, trees)?))?,
        }
    }
    Ok(all)
}

#[cycle(replaces)]
fn factors(
    alloc: Global,
    those: &List<Factor<Expr>>,
    trees: &List<Expr>,
) -> Result<List<Factor<Expr>>, AllocError>
    requires { all_together true and_also (factor_part true) (map (factor_with (all_variables (takes trees.now))) those.now) ≡ true }
    ensures { IfOk result (λ made. made ≡ map (factor_with (replaced (tree_at trees.now))) those.now) }
{
    let mut all = List::new(alloc);
    'those: for one in those.as_slice() {
        match one {
            Factor::Times(e) => all.add(Factor::Times(replace(alloc, e, trees)?))?,
            Factor::Over(d) => all.add(Factor::Over(*d))?,
        }
    }
    Ok(all)
}

#[cycle(replaces)]
fn choices(
    alloc: Global,
    those: &List<Choice<Expr>>,
    trees: &List<Expr>,
) -> Result<List<Choice<Expr>>, AllocError>
    requires { all_together true and_also (choice_parts and_also) (map (choice_with (all_variables (takes trees.now))) those.now) ≡ true }
    ensures { IfOk result (λ made. made ≡ map (choice_with (replaced (tree_at trees.now))) those.now) }
{
    let mut all = List::new(alloc);
    'those: for one in those.as_slice() {
        let cond = replace(alloc, &one.cond, trees)?;
        let body = replace(alloc, &one.body, trees)?;
        all.add(Choice { cond, body })?;
    }
    Ok(all)
}

#[cycle(replaces)]
fn keys(
    alloc: Global,
    those: &List<Key<Expr>>,
    trees: &List<Expr>,
) -> Result<List<Key<Expr>>, AllocError>
    requires { all_together true and_also (λ key. key.expr) (map (key_with (all_variables (takes trees.now))) those.now) ≡ true }
    ensures { IfOk result (λ made. made ≡ map (key_with (replaced (tree_at trees.now))) those.now) }
{
    let mut all = List::new(alloc);
    'those: for one in those.as_slice() {
        let expr = replace(alloc, &one.expr, trees)?;
        let ty = one.ty.copy(alloc)?;
        all.add(Key { expr, ty })?;
    }
    Ok(all)
}

/// The expression of the form, which is the one with trees for its variables.
#[tactic(auto, using(crate::proofs::Listed::typed))]
fn finished(alloc: Global, node: Node, like: &Expr, trees: &List<Expr>) -> Result<Expr, AllocError>
    requires typed { IsSome (type_of like.now) }
    requires fits { all_variables (takes trees.now) like.now ≡ true }
    requires same { term_of node ≡ replaced (tree_at trees.now) like.now }
    ensures { IfOk result (λ made. made ≡ replaced (tree_at trees.now) like.now) }
{
    match Expr::build(alloc, node) {
        Ok(made) => Ok(made),
        Err(BuildFault::Memory) => Err(AllocError),
        Err(BuildFault::BadType) => unreachable!(),
    }
}

/// The variable's tree, or the variable itself where there is none.
#[tactic(auto, using(crate::proofs::Listed::replaced_node))]
fn at_variable(
    alloc: Global,
    number: u32,
    ty: &Ty,
    e: &Expr,
    trees: &List<Expr>,
) -> Result<Expr, AllocError>
    requires { e.now ≡ variable number ty.now }
    ensures { IfOk result (λ made. made ≡ tree_at trees.now number ty.now) }
{
    match trees.get(number as usize) {
        Some(tree) => tree.copy(alloc),
        None => e.copy(alloc),
    }
}

/// The expression with trees for its variables.
#[cycle(replaces)]
#[tactic(auto, using(crate::proofs::Listed::replaced_node, crate::proofs::Listed::all_node))]
pub(crate) fn replace(alloc: Global, e: &Expr, trees: &List<Expr>) -> Result<Expr, AllocError>
    requires { all_variables (takes trees.now) e.now ≡ true }
    ensures { IfOk result (λ made. made ≡ replaced (tree_at trees.now) e.now) }
{
    match &e.node {
        NodeOf::Literal(n) => finished(alloc, NodeOf::Literal(*n), e, trees),
        NodeOf::Flag(flag) => finished(alloc, NodeOf::Flag(*flag), e, trees),
        NodeOf::Case {
            family,
            cases,
            index,
        } => finished(
            alloc,
            NodeOf::Case {
                family: *family,
                cases: *cases,
                index: *index,
            },
            e,
            trees,
        ),
        NodeOf::Var { number, ty } => at_variable(alloc, *number, ty, e, trees),
        NodeOf::Or(those) => finished(alloc, NodeOf::Or(parts(alloc, those, trees)?), e, trees),
        NodeOf::And(those) => finished(alloc, NodeOf::And(parts(alloc, those, trees)?), e, trees),
        NodeOf::Not(a) => finished(
            alloc,
            NodeOf::Not(boxed(alloc, replace(alloc, a.get(), trees)?)?),
            e,
            trees,
        ),
        NodeOf::Compare(test, a, b) => finished(
            alloc,
            NodeOf::Compare(
                *test,
                boxed(alloc, replace(alloc, a.get(), trees)?)?,
                boxed(alloc, replace(alloc, b.get(), trees)?)?,
            ),
            e,
            trees,
        ),
        NodeOf::Sum(a, more) => finished(
            alloc,
            NodeOf::Sum(
                boxed(alloc, replace(alloc, a.get(), trees)?)?,
                addends(alloc, more, trees)?,
            ),
            e,
            trees,
        ),
        NodeOf::Product(a, more) => finished(
            alloc,
            NodeOf::Product(
                boxed(alloc, replace(alloc, a.get(), trees)?)?,
                factors(alloc, more, trees)?,
            ),
            e,
            trees,
        ),
        NodeOf::Neg(a) => finished(
            alloc,
            NodeOf::Neg(boxed(alloc, replace(alloc, a.get(), trees)?)?),
            e,
            trees,
        ),
        NodeOf::Field(a, k) => finished(
            alloc,
            NodeOf::Field(boxed(alloc, replace(alloc, a.get(), trees)?)?, *k),
            e,
            trees,
        ),
        NodeOf::Tuple(those) => finished(
            alloc,
            NodeOf::Tuple(parts(alloc, those, trees)?),
            e,
            trees,
        ),
        NodeOf::If(those, last) => finished(
            alloc,
            NodeOf::If(
                choices(alloc, those, trees)?,
                boxed(alloc, replace(alloc, last.get(), trees)?)?,
            ),
            e,
            trees,
        ),
        NodeOf::Table(those, rows) => finished(
            alloc,
            NodeOf::Table(keys(alloc, those, trees)?, parts(alloc, rows, trees)?),
            e,
            trees,
        ),
        NodeOf::Ratio(a, b, c) => finished(
            alloc,
            NodeOf::Ratio(
                boxed(alloc, replace(alloc, a.get(), trees)?)?,
                boxed(alloc, replace(alloc, b.get(), trees)?)?,
                boxed(alloc, replace(alloc, c.get(), trees)?)?,
            ),
            e,
            trees,
        ),
        NodeOf::Min(a, b) => finished(
            alloc,
            NodeOf::Min(
                boxed(alloc, replace(alloc, a.get(), trees)?)?,
                boxed(alloc, replace(alloc, b.get(), trees)?)?,
            ),
            e,
            trees,
        ),
        NodeOf::Max(a, b) => finished(
            alloc,
            NodeOf::Max(
                boxed(alloc, replace(alloc, a.get(), trees)?)?,
                boxed(alloc, replace(alloc, b.get(), trees)?)?,
            ),
            e,
            trees,
        ),
        NodeOf::Clamp(low, high, a) => finished(
            alloc,
            NodeOf::Clamp(*low, *high, boxed(alloc, replace(alloc, a.get(), trees)?)?),
            e,
            trees,
        ),
    }
}
