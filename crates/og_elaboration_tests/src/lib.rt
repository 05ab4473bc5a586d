//! Tests of what games are made of, by public calls alone: rows as tables, arguments, numbers.
#![tactic(auto)]

#[cfg(test)]
mod numbered;
