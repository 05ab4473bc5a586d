//! The grammar of the language, in one file that its users can read, and what holds of it.
#![tactic(auto)]

mod laws;

pub use laws::{
    Programs, StrategyFiles, one_program, one_program_verdict, one_strategy_file,
    one_strategy_verdict,
};
