//! Tests of all variables of an expression.
ghost use Rattle.std.specs.Prelude.{◌≡◌, ℕ, Bool, true, map};
ghost use Rattle.og_types.specs.declared.ty.Ty.{Ty};
ghost use Rattle.og_expr.specs.Parts.{all_together, addend_part, factor_part, choice_parts};
ghost use Rattle.og_expr.specs.Levels.{addend_with, factor_with, choice_with, key_with};
ghost use Rattle.og_expr.specs.Variables.{all_variables, and_also};
ghost use Rattle.og_expr.specs.Replaced.{takes};

use crate::expr::Expr;
use crate::node::{Addend, Choice, Factor, Key, NodeOf};
use og_list::List;
use og_types::Ty;

/// A test of variables.
pub trait VariableTest {
    /// Which variables pass, by their numbers and their types.
    ghost passes: { Self → ℕ → Ty → Bool };

    /// Whether the variable passes.
    fn test(&self, number: u32, ty: &Ty) -> bool
        ensures { result ≡ passes self.now number ty.now };
}

/// Trees by the numbers of the variables for which they stand.
#[derive(Drop)]
pub(crate) struct Trees<'a> {
    pub trees: &'a List<Expr>,
}

/// Whether the variable's tree has a type that fits the variable's, where there is a tree.
impl VariableTest for Trees<'_> {
    ghost passes = { λ of. takes of.trees.now };

    fn test(&self, number: u32, ty: &Ty) -> bool {
        match self.trees.get(number as usize) {
            Some(tree) => tree.ty().fits(ty),
            None => true,
        }
    }
}

#[cycle(testing)]
fn parts<T: VariableTest>(those: &List<Expr>, test: &T) -> bool
    ensures { result ≡ all_together true and_also (λ b. b) (map (all_variables (T.passes test.now)) those.now) }
{
    'those: for e in those.as_slice() {
        if !every_variable(e, test) {
            return false;
        }
    }
    true
}

#[cycle(testing)]
fn addends<T: VariableTest>(those: &List<Addend<Expr>>, test: &T) -> bool
    ensures { result
        ≡ all_together true and_also addend_part (map (addend_with (all_variables (T.passes test.now))) those.now) }
{
    'those: for one in those.as_slice() {
        match one {
            Addend::Plus(e) | Addend::Minus(e) => {
                if !every_variable(e, test) {
                    return false;
                }
            }
        }
    }
    true
}

#[cycle(testing)]
fn factors<T: VariableTest>(those: &List<Factor<Expr>>, test: &T) -> bool
    ensures { result
        ≡ all_together true and_also (factor_part true) (map (factor_with (all_variables (T.passes test.now))) those.now) }
{
    'those: for one in those.as_slice() {
        match one {
            Factor::Times(e) => {
                if !every_variable(e, test) {
                    return false;
                }
            }
            Factor::Over(_) => {}
        }
    }
    true
}

#[cycle(testing)]
fn choices<T: VariableTest>(those: &List<Choice<Expr>>, test: &T) -> bool
    ensures { result
        ≡ all_together true and_also (choice_parts and_also) (map (choice_with (all_variables (T.passes test.now))) those.now) }
{
    'those: for one in those.as_slice() {
        if !(every_variable(&one.cond, test) && every_variable(&one.body, test)) {
            return false;
        }
    }
    true
}

#[cycle(testing)]
fn keys<T: VariableTest>(those: &List<Key<Expr>>, test: &T) -> bool
    ensures { result
        ≡ all_together true and_also (λ key. key.expr) (map (key_with (all_variables (T.passes test.now))) those.now) }
{
    'those: for one in those.as_slice() {
        if !every_variable(&one.expr, test) {
            return false;
        }
    }
    true
}

/// Whether each variable that occurs passes the test.
#[cycle(testing)]
#[tactic(auto, using(crate::proofs::Listed::all_node))]
pub(crate) fn every_variable<T: VariableTest>(e: &Expr, test: &T) -> bool
    ensures { result ≡ all_variables (T.passes test.now) e.now }
{
    match &e.node {
        NodeOf::Literal(_) | NodeOf::Flag(_) | NodeOf::Case { .. } => true,
        NodeOf::Var { number, ty } => test.test(*number, ty),
        NodeOf::Or(those) | NodeOf::And(those) | NodeOf::Tuple(those) => parts(those, test),
        NodeOf::Not(a) | NodeOf::Neg(a) => every_variable(a.get(), test),
        NodeOf::Field(a, _) | NodeOf::Clamp(_, _, a) => every_variable(a.get(), test),
        NodeOf::Compare(_, a, b) => every_variable(a.get(), test) && every_variable(b.get(), test),
        NodeOf::Min(a, b) | NodeOf::Max(a, b) => every_variable(a.get(), test)
            && every_variable(b.get(), test),
        NodeOf::Sum(a, more) => every_variable(a.get(), test) && addends(more, test),
        NodeOf::Product(a, more) => every_variable(a.get(), test) && factors(more, test),
        NodeOf::If(those, last) => choices(those, test) && every_variable(last.get(), test),
        NodeOf::Table(those, rows) => keys(those, test) && parts(rows, test),
        NodeOf::Ratio(a, b, c) => {
            every_variable(a.get(), test)
                && every_variable(b.get(), test)
                && every_variable(c.get(), test)
        }
    }
}
