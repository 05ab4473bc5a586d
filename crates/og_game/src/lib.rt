//! Well wired games: trees whose wires fit at every level.
//!
//! Contracts see a game as a `Plan`: one form, a `GameNodeOf`, over plans. `Game::build` makes a game exactly where the rule
//! of its form gives it ports, and a `Game` keeps that, so nothing above asks for it. The rules are a table with a line for
//! each form, in `specs/Wired.antt`; which variables an expression sees, by where they come from, stands in `Scopes.antt`,
//! rows and sets of ranks in `Rows.antt`, and the decisions in flat order, with what they allow, in `Choices.antt`. `Origin`, `Variable` and `Stand` are what these definitions speak of.
#![tactic(auto)]

mod allowed;
mod atoms;
mod block;
mod branch;
mod build;
mod copy;
mod count;
mod game;
mod node;
mod rows;
mod scope;
mod types;

pub use game::{Game, GameFault};
pub use node::{Arm, ArmOf, Block, BlockOf, GameNode, GameNodeOf, Line, LineOf, Plan, Typed};
pub use scope::{Origin, Stand, Variable};
pub use types::{has_few_values, is_small};
