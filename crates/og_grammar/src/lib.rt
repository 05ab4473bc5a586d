//! Grammars as data: what they spell, how they are read with no step back, and a cursor over tokens
//! for the functions that read them.
#![tactic(auto)]

mod fault;
mod laws;
mod repeat;
mod terminal;
mod tokens;

pub use fault::{Fault, with};
pub use laws::{
    Language, exact_reading, nonterminals, same_terminals, single_value, single_verdict,
    sound_reading, viable_fronts, whole_reading,
};
pub use repeat::{commas_or_none, many, separated, separated_onto, two_or_more};
pub use terminal::Terminal;
pub use tokens::Tokens;
