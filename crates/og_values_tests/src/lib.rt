//! Tests of the crates of values, by their public calls alone: lists and texts, tables of names,
//! fractions, types, and the counter of steps.
#![tactic(auto)]

#[cfg(test)]
mod equal;
#[cfg(test)]
mod fractions;
#[cfg(test)]
mod lists;
#[cfg(test)]
mod names;
#[cfg(test)]
mod steps;
#[cfg(test)]
mod types;
