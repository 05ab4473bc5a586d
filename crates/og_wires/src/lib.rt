//! What a program's games are made of, or the first rule of the wiring that the program breaks.
//!
//! A walk goes over the written tree and builds none: it finds a game's ports and how large the game is once its calls are
//! replaced by bodies, from what is kept of each declared game. So nothing is built of what is too large. What a walk gives is
//! said in og_typing; the rules stand in the order in which they are asked: of arguments in `specs/Arguments.antt`, of rows in
//! `Rows.antt`, of games without parts in `Atoms.antt`, of wires in `Wires.antt`, of compositions, blocks and branches in
//! `Games.antt`, with a table of all forms, and of declarations and `main` in `Programs.antt`.
#![tactic(auto)]

mod arguments;
mod atoms;
mod block;
mod branch;
mod games;
mod kind;
pub mod laws;
mod place;
mod programs;
mod rows;
mod sites;
mod wires;

pub use games::walk_game;
pub use kind::{DeclaredGame, GameKind, Level, Size};
pub use place::game_at;
pub use programs::{Declarations, GameParams, declare, walk_game_params, walk_program};
pub use rows::walk_scale;
pub use sites::{Site, blocks_of};
