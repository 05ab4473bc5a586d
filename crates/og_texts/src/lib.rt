//! A whole text, from its bytes to the tree that its tokens spell, or to its first fault with the place.
#![tactic(auto)]

mod fault;
mod laws;
mod place;
mod read;

pub use fault::TextFault;
pub use laws::{one_program_text, one_strategy_text};
pub use place::Place;
pub use read::{ReadText, read_program, read_strategy};
