//! The games of written games, with calls replaced by the bodies of the games that are called.
//!
//! `specs/Arguments.antt` says what the parameters of a called game stand for, and `specs/Numbers.antt` how decisions and
//! natures are numbered, with the agents in the order in which they first decide.
#![tactic(auto)]

mod arguments;
mod given;
mod numbers;
mod state;

pub use arguments::{agent_named, given_in};
pub use given::Given;
pub use numbers::{decision_made, nature_made};
pub use state::{Decided, Made, State};
