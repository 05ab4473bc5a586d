//! The canonical text of programs and of strategy files: `print_program` and `print_strategy` give exactly the
//! text that is defined for the tree, token by token, with round brackets only where the grammar asks for them.
#![tactic(auto)]

mod expressions;
mod games;
mod programs;
mod strategies;
mod tokens;
mod types;
mod values;

pub use programs::print_program;
pub use strategies::print_strategy;
