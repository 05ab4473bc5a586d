//! Tables of names: what each name stands for, in the order in which the names came.
//!
//! Contracts see a table as the list of its names, each with what it stands for; no name is there twice. A name is found
//! without going through all of them.
#![tactic(auto)]

mod names;

pub use names::Names;
