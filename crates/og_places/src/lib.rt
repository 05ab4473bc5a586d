//! Places in written programs, and the ports of the game expressions there.
//!
//! A place is a game's name and a way from the game's body to a game expression in it. `specs/Places.antt` says which
//! expression is at a place and which ports the wiring gives it; `specs/Expressions.antt` says what the wiring sees there: the
//! declarations before the game, and the game's parameters.
#![tactic(auto)]

mod places;
mod ports;
mod steps;

pub use places::{Place, Step};
pub use ports::ports_at;
