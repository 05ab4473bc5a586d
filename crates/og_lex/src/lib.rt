//! The tokens of the language: names, numbers, texts, reserved words, marks and the separator.
#![tactic(auto)]

mod class;
mod fault;
mod front;
mod laws;
mod lexer;
mod reader;
mod token;

pub use fault::LexFault;
pub use laws::{one_lexing, some_lexing, written_read_back};
pub use lexer::{MAX_TEXT, lex};
pub use token::{Kind, Mark, Token, Word};
