//! Tests of blocks: of the four mechanisms, and of blocks that a host program makes, by public calls alone.
#![tactic(auto)]

#[cfg(test)]
mod boxed;
#[cfg(test)]
mod equal;
#[cfg(test)]
mod laws;
