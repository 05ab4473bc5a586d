//! What is there in texts that the wiring accepts.
//!
//! `laws` says of each form that the wiring accepts that its game is there, with the ports that the walk found.
#![tactic(auto)]

pub mod laws;
