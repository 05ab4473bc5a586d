//! Decisions and natures.
ghost use Rattle.std.specs.Prelude.{◌≡◌};
ghost use Rattle.og_inlining.specs.Steps.{Gives};
ghost use Rattle.og_atoms.specs.Atoms.{sets_if, decision_tree, nature_tree};

use crate::forms::{made, type_in, types_in};
use og_expr::BuildFault;
use og_game::{Game, GameNodeOf};
use og_list::List;
use og_names::Names;
use og_rows::{allowed, drawn};
use og_syntax::{Among, RowTree, TyTree};
use og_types::Ty;
use og_typing::Meaning;
use std::alloc::Global;

/// The sets of allowed actions, where there are some.
fn sets_if(
    alloc: Global,
    among: &Option<Among>,
    observes: &List<Ty>,
    action: &Ty,
    declared: &Names<Meaning>,
) -> Result<Option<List<List<u32>>>, BuildFault>
    ensures { Gives (sets_if declared.now observes.now action.now among.now) result }
{
    match among {
        Some(among) => Ok(Some(allowed(alloc, &among.rows, observes, action, declared)?)),
        None => Ok(None),
    }
}

/// The decision with the number, of the agent at the place in the list of agents. BadType comes exactly where a type, a key or
/// a value in it stands for nothing, or it isn't well wired.
#[tactic(auto, unfolding(crate::specs::Atoms::decision_tree))]
pub fn decision(
    alloc: Global,
    number: u32,
    agent: u32,
    observes: &List<TyTree>,
    action: &TyTree,
    among: &Option<Among>,
    declared: &Names<Meaning>,
) -> Result<Game, BuildFault>
    ensures { Gives (decision_tree declared.now number agent observes.now action.now among.now) result }
{
    let observes = types_in(alloc, observes, declared)?;
    let action = type_in(alloc, action, declared)?;
    let allowed = sets_if(alloc, among, &observes, &action, declared)?;
    made(
        alloc,
        GameNodeOf::Decision {
            number,
            agent,
            observes,
            action,
            allowed,
        },
    )
}

/// The nature with the number, whose weights are in so many parts of one. BadType comes exactly where a type, a key or a value
/// in it stands for nothing, or it isn't well wired.
#[tactic(auto, unfolding(crate::specs::Atoms::nature_tree))]
pub fn nature(
    alloc: Global,
    number: u32,
    observes: &List<TyTree>,
    outcome: &TyTree,
    scale: u64,
    rows: &List<RowTree>,
    declared: &Names<Meaning>,
) -> Result<Game, BuildFault>
    ensures { Gives (nature_tree declared.now number observes.now outcome.now scale rows.now) result }
{
    let observes = types_in(alloc, observes, declared)?;
    let outcome = type_in(alloc, outcome, declared)?;
    let rows = drawn(alloc, rows, &observes, &outcome, scale, declared)?;
    made(
        alloc,
        GameNodeOf::Nature {
            number,
            observes,
            outcome,
            scale,
            rows,
        },
    )
}
