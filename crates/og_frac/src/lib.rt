//! Exact fractions in words: each call answers the rational number itself, or that it does not fit.
//! No call takes memory.
#![tactic(auto)]

mod divisor;
mod fault;
mod frac;
pub mod laws;
mod terms;
mod wide;

pub use divisor::greatest_common_divisor;
pub use fault::{FracFault, SumFault};
pub use frac::Frac;
pub use terms::{Sum, Term, least_common_multiple};
pub use wide::Wide;
