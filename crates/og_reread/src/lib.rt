//! The canonical text of a tree is read back as that tree.
//!
//! What stands here is said of `og_canonical::print_program` and `print_strategy` and of `og_texts::read_program` and
//! `read_strategy`, and takes no part in a run.
#![tactic(auto)]

mod laws;

pub use laws::{programs_of_texts, programs_read_back, strategies_of_texts, strategies_read_back};
