//! The tokens of a text read as a program or as a strategy file: `parse_program` and `parse_strategy` answer the one
//! tree that they spell, or name the first token at fault.
//!
//! Inside, each rule of the grammar is read by a function of its own, in a room: how deep nonterminals may still
//! stand in one another. Where there are no more tokens than there is room, that is no bound.
#![tactic(auto)]

mod atoms;
mod declarations;
mod faults;
mod fields;
mod files;
mod games;
mod inner;
mod laws;
mod parse;

pub use faults::ParseFault;
pub use laws::{one_program_answer, one_strategy_answer};
pub use parse::{parse_program, parse_strategy};
