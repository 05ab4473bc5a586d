//! Closed games: well wired games without ports, with the names of their enums and agents.
//!
//! `Closed::make` asks for `IsClosed` of the four parts, a record with a field for each thing that is kept, and a `Closed`
//! keeps that, so nothing above asks for it; `Closed::kept` says it of one.
#![tactic(auto)]

mod closed;

pub use closed::{Closed, ClosedPlan};
