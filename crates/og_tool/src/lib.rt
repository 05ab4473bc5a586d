//! The top call: the words and the files that they name, to the bytes written and the status.
#![tactic(auto)]

mod answer;
mod command;
mod fetch;
mod laws;
mod plain;
mod read;
mod refusal;
mod status;
mod top;

pub use laws::{one_answer, one_answer_to_words};
pub use read::{one_small_game, one_small_strategy};
pub use status::Status;
pub use top::run;
