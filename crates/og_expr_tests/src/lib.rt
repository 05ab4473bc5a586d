//! Tests of typed expressions, by their public calls alone.
#![tactic(auto)]

#[cfg(test)]
mod equal;
#[cfg(test)]
mod made;
#[cfg(test)]
mod replaced;
#[cfg(test)]
mod values;
