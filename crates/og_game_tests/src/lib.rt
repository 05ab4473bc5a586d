//! Tests of games, by public calls alone.
#![tactic(auto)]

#[cfg(test)]
mod blocks;
#[cfg(test)]
mod build;
#[cfg(test)]
mod equal;
