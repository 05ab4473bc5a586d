//! Names, and the bodies of functions.
ghost use Rattle.std.specs.Prelude.{◌≡◌, ℕ, IfOk};
ghost use Rattle.std.specs.Option.{option_copied};
ghost use Rattle.og_expr.specs.Variables.{numbers_of};
ghost use Rattle.og_inlining.specs.Steps.{Gives};
ghost use Rattle.og_inlining.specs.Seen.{seen_of};
ghost use Rattle.og_inlining.specs.Trees.{variable_tree, case_tree, named_tree, occurs, stands_for, placed};

use crate::forms::built;
use crate::seen::Trees;
use og_expr::{BuildFault, Expr, NodeOf, VariableTest};
use og_game::Variable;
use og_list::List;
use og_types::Ty;
use og_typing::Meaning;
use std::alloc::{AllocError, Global};

/// The variable with the number.
fn variable(alloc: Global, number: usize, found: Option<&Variable>) -> Result<Expr, BuildFault>
    ensures { Gives (variable_tree number (option_copied found.entry)) result }
{
    match found {
        Some(variable) if number < 1 << 32 => {
            let ty = variable.ty.copy(alloc)?;
            built(
                alloc,
                NodeOf::Var {
                    number: number as u32,
                    ty,
                },
            )
        }
        _ => Err(BuildFault::BadType),
    }
}

/// The case that a declared name stands for.
fn case(alloc: Global, found: Option<&Meaning>) -> Result<Expr, BuildFault>
    ensures { Gives (case_tree (option_copied found.entry)) result }
{
    match found {
        Some(Meaning::Case(family, cases, index)) => built(
            alloc,
            NodeOf::Case {
                family: *family,
                cases: *cases,
                index: *index,
            },
        ),
        _ => Err(BuildFault::BadType),
    }
}

/// What the name stands for: a variable, a parameter of the game, or a case.
#[tactic(auto, unfolding(crate::specs::Trees::named_tree))]
pub(crate) fn named(alloc: Global, name: &str, seen: &Trees<'_>) -> Result<Expr, BuildFault>
    ensures { Gives (named_tree name.now (seen_of seen.now)) result }
{
    match seen.variables.place(name) {
        Some(number) => variable(alloc, number, seen.variables.get(name)),
        None => match seen.given.get(name) {
            Some(tree) => Ok(tree.copy(alloc)?),
            None => case(alloc, seen.declared.get(name)),
        },
    }
}

/// Whether the number is among those.
pub(crate) fn occurs(numbers: &List<u32>, number: usize) -> bool
    ensures { result ≡ occurs numbers.now number }
{
    'numbers: for one in numbers.as_slice() {
        if *one as usize == number {
            return true;
        }
    }
    false
}

/// The numbers of the variables that occur in a body.
pub(crate) fn used_by(alloc: Global, body: &Expr) -> Result<List<u32>, AllocError>
    ensures { IfOk result (λ found. (k : ℕ) → occurs found k ≡ occurs (numbers_of body.now) k) }
{
    body.variables(alloc)
}

/// Trees by the numbers of the variables for which they stand.
#[derive(Drop)]
struct Stand<'a> {
    trees: &'a List<Expr>,
}

/// Whether there is a tree for the variable whose type fits the variable's.
impl VariableTest for Stand<'_> {
    ghost passes = { λ of. stands_for of.trees.now };

    fn test(&self, number: u32, ty: &Ty) -> bool {
        match self.trees.get(number as usize) {
            Some(tree) => tree.ty().fits(ty),
            None => false,
        }
    }
}

/// The body with the trees for its variables, where there is one that fits for each.
#[tactic(auto, using(crate::proofs::Standing::taken))]
pub(crate) fn placed(alloc: Global, body: &Expr, trees: &List<Expr>) -> Result<Expr, BuildFault>
    ensures { Gives (placed body.now trees.now) result }
{
    if !body.every_variable(&Stand { trees }) {
        return Err(BuildFault::BadType);
    }
    Ok(body.replace(alloc, trees)?)
}
