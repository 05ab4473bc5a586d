//! What a text's types, values, expressions and functions stand for, or the first rule that they break.
//!
//! Each is a walk: `specs/Checked.antt` says what a walk gives, and what a call promises that answers it (`Walks`, `Updates`).
//! The rules stand in the order in which they are asked: of types in `specs/Types.antt`, of values and keys of rows in
//! `Values.antt`, of names in `Scopes.antt`, of expressions in `Expressions.antt`, one rule for each form, and of declarations
//! in `Variables.antt`. `Sizes.antt` and `Uses.antt` say how large an expression is once its calls are replaced by bodies,
//! and how often it has each variable, from what each `Function` keeps.
//!
//! A further form of expressions is a line of `form_with`, `expr_rule`, `count_rule` and `uses_rule`, a lemma in each of
//! `proofs/Walked.antt`, `Sized.antt` and `Used.antt`, and an arm below `walk`, in `nodes_with` and in `note_uses`.
#![tactic(auto)]

mod declarations;
mod expressions;
mod fault;
mod kind;
mod meaning;
mod rules;
mod scope;
mod sizes;
mod types;
mod uses;
mod values;

pub use declarations::{
    declare_alias, declare_enum, declare_function, free_variable, is_free, walk_params, walk_whole,
};
pub use expressions::{walk, walk_all, walk_each};
pub use fault::WireFault;
pub use kind::{Joined, Kind, Kinds};
pub use meaning::{Around, Function, Given, Meaning, Params, Scope};
pub use rules::key_count;
pub use sizes::{count_of, nodes_with, plus};
pub use types::{type_at, walk_type, walk_types};
pub use uses::{note_uses, variable_in};
pub use values::{
    are_all_taken, meant, none_taken, take, take_row, value_at, walk_key, walk_value,
};
