//! Tests of what a text's types and functions are, by public calls alone.
#![tactic(auto)]

#[cfg(test)]
mod declared;
#[cfg(test)]
mod equal;
