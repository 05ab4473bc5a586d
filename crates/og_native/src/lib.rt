//! Boxed blocks: mechanisms of the host program, each of which plays forwards and pays backwards by a law.
//!
//! A `StoredLens` keeps two boxed closures and the fact that they answer what some law says, so that a block is
//! known by its law alone. A `Library` has blocks under names that differ, and answers by their numbers. Three
//! auctions and a split are there with their laws, by themselves and as the `Mechanism`s that a program brings; the
//! closures that call them are written where they are boxed.
#![tactic(auto)]

mod auction;
mod blocks;
mod fault;
mod law;
pub mod laws;
mod library;
mod mechanism;
mod numbers;
mod ports;
mod split;
mod stored;

pub use auction::{AllPay, FirstPrice, SecondPrice, Tie, Winner};
pub use blocks::Blocks;
pub use fault::NativeFault;
pub use law::Law;
pub use library::{Library, LibraryFault};
pub use mechanism::{Mechanism, shipped};
pub use ports::{Ports, auction_ports, split_ports};
pub use split::Split;
pub use stored::{Pay, Play, StoredLens};
