//! Small games: one block of decisions, each paid by a table over the decisions' outputs.
#![tactic(auto)]

mod copies;
mod deviations;
mod laws;
mod pay;
mod report;
mod rules;
mod tree;

pub use deviations::Deviation;
pub use laws::fitting_strategies;
pub use report::{Report, report_on};
pub use rules::{accepts, fits};
pub use tree::{Key, Line, Row, Section, SmallGame, TypeDecl};
