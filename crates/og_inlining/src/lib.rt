//! The typed trees of a text's expressions, with calls of functions replaced by the functions' bodies.
//!
//! `specs/Trees.antt` is the definition, a line for each form: the tree that an expression stands for, or none where some
//! form in it is no typed one. `specs/Bodies.antt` says what the bodies of functions are, which stand in the place of calls.
//! `laws` has what follows of accepted texts: an accepted expression has a tree, whose type fits the one that was found, and
//! each accepted declaration keeps the tables of names such that the next one's expressions have trees.
#![tactic(auto)]

mod bodies;
mod expressions;
mod forms;
pub mod laws;
mod leaves;
mod seen;
mod tables;

pub use bodies::add_body;
pub use expressions::tree;
pub use seen::Trees;
