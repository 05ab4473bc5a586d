//! Typed expressions: trees that can't be ill typed, and their exact values.
//!
//! Contracts see an expression as a `Term`: one form, a `NodeOf`, over terms. Each definition is a table with a line
//! for each form, whose parts are already results: types in `specs/Types.antt`, values in `Values.antt`, what all parts
//! have together in `Parts.antt`, and over it the variables in `Variables.antt`, trees in their place in
//! `Replaced.antt`, sizes in `Counts.antt`. That a value is of the expression's type, what replacing does to values,
//! types and sizes, and that a test of all variables is one of each that occurs, are the calls of `laws`.
#![tactic(auto)]

mod build;
mod copy;
mod count;
mod evaluation;
mod every;
mod expr;
pub mod laws;
mod node;
mod replace;
mod variables;

pub use evaluation::{EvalFault, eval};
pub use every::VariableTest;
pub use expr::{BuildFault, Expr};
pub use node::{Addend, Choice, Factor, Key, Node, NodeOf, Term, Test};
