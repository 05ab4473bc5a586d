//! What a wire can carry: types, their values in order, and the names of the cases.
#![tactic(auto)]

mod count;
mod enums;
pub mod laws;
mod print;
mod rank;
mod ty;
mod value;
mod values;

pub use count::joint_count;
pub use enums::{Enums, Family};
pub use print::show;
pub use rank::joint_rank;
pub use ty::{Ty, all_bounds_fit, all_fit, all_hold, copy_types, join_all};
pub use value::{Value, copy_values};
pub use values::{joint_at_rank, joint_values};
