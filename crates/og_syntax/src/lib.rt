//! The trees of programs and of strategy files, as they are written: each node with the place of its
//! first token. Places are byte offsets in the text. A copy equals what it copies, places included. Trees are
//! compared without their places. `first_deep` finds the first token of a text that is too deep to be read.
#![tactic(auto)]

mod boxes;
mod declarations;
mod depth;
mod expressions;
mod games;
pub mod laws;
mod strategies;
mod types;
mod values;

pub use boxes::new_box;
pub use declarations::{Decl, GameParam, ParamKind, Program};
pub use depth::first_deep;
pub use expressions::{CompareOp, ExprTree, IfArm, ProductPart, ResultTree, SumPart, TableRow};
pub use games::{AgentTree, Among, AmongTree, ArgTree, ArmTree, BlockTree, GameTree, LineTree};
pub use strategies::{Section, StrategyFile};
pub use types::{NameTree, ParamTree, TyTree};
pub use values::{EntryTree, RowTree, ValueTree};
