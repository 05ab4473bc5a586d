//! The games of written forms without parts: decisions, natures, functions of what comes forwards or backwards, wires that
//! pass, and blocks of the library.
//!
//! `specs/Atoms.antt` says which game each is, from the types, rows and expressions that a text writes, or that it is none:
//! where something in it stands for nothing, or the form isn't well wired.
#![tactic(auto)]

mod choices;
mod forms;
mod functions;
mod wires;

pub use choices::{decision, nature};
pub use forms::{made, type_in, types_in};
pub use functions::{backward, forward, params_in, results_in};
pub use wires::{identity, native};
