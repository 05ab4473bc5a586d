//! Tests of the crates that read texts and judge small games, through their public calls.
#![tactic(auto)]

#[cfg(test)]
mod programs;
#[cfg(test)]
mod readers;
#[cfg(test)]
mod small_games;
#[cfg(test)]
mod texts;
#[cfg(test)]
mod tokens;
#[cfg(test)]
mod told;
#[cfg(test)]
mod trees;
