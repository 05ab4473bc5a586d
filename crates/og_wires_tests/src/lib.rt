//! Tests of the wiring of whole programs, by public calls alone: a program breaks no rule, or one
//! that is named here before all others.
#![tactic(auto)]

#[cfg(test)]
mod backwards;
#[cfg(test)]
mod branches;
#[cfg(test)]
mod calls;
#[cfg(test)]
mod compositions;
#[cfg(test)]
mod counts;
#[cfg(test)]
mod decisions;
#[cfg(test)]
mod ends;
#[cfg(test)]
mod equal;
#[cfg(test)]
mod forwards;
#[cfg(test)]
mod functions;
#[cfg(test)]
mod natures;
#[cfg(test)]
mod nested;
#[cfg(test)]
mod scopes;
#[cfg(test)]
mod sides;
#[cfg(test)]
mod sizes;
#[cfg(test)]
mod walked;
