//! The rows of natures and of what is allowed, by the ranks of their observations and of their items.
//!
//! A text writes such rows in any order, with fractions for weights. `specs/Rows.antt` says what they are as tables: for
//! each observation, by its rank, the ranks that weigh something, ascending, each with its weight.
#![tactic(auto)]

pub mod laws;
mod ranked;
mod rows;
mod tables;

pub use ranked::{Item, Ranked};
pub use rows::{allowed, drawn, rank_in, value_count};
