//! Tests of the crates that reach outside, by their public calls alone: files and sinks, readers and
//! writers that fail midway, and whole runs over files and a sink in memory.
#![tactic(auto)]

#[cfg(test)]
mod equal;
#[cfg(test)]
mod outside;
#[cfg(test)]
mod runs;
#[cfg(test)]
mod streams;
