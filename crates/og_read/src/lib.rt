//! Readers of small games and of strategies.
#![tactic(auto)]

mod games;
mod laws;
mod lexemes;
mod lines;
mod strategies;
mod tables;

pub use games::read_game;
pub use laws::{SmallGames, Strategies, one_game, one_strategy};
pub use strategies::read_strategy;
