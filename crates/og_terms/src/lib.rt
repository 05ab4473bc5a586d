//! Readers of types, values and expressions: ordinary functions, each of which reads one rule of the grammar in a
//! room: how deep nonterminals may still stand in one another. Where the text has no more tokens than there is
//! room, that is no bound.
#![tactic(auto)]

mod expressions;
mod inner;
mod names;
mod types;
mod values;

pub use expressions::{expr, exprs_or_none, result, results};
pub use names::{
    name, name_tree, names_or_none, nonzero, placed_name, placed_quoted, some_names, variable,
};
pub use types::{param, params, ty, type_list};
pub use values::{key, rows, some_values, value};
