//! The project's small containers: a list, a box and a text, each of which contracts see as what it
//! holds. A tree of lists and boxes is then plain data, so a clause can say that a copy equals what
//! it copies.
#![tactic(auto)]

mod boxed;
mod list;
mod text;

pub use boxed::Boxed;
pub use list::List;
pub use text::Text;
