//! Wires that pass, and blocks of the library.
ghost use Rattle.std.specs.Prelude.{◌≡◌};
ghost use Rattle.og_inlining.specs.Steps.{Gives};
ghost use Rattle.og_atoms.specs.Atoms.{identity_tree, native_tree};

use crate::forms::{made, types_in};
use og_expr::BuildFault;
use og_game::{Game, GameNodeOf};
use og_list::List;
use og_names::Names;
use og_native::Ports;
use og_syntax::TyTree;
use og_typing::Meaning;
use std::alloc::Global;

/// Wires of these types that pass. BadType comes exactly where a type stands for none, or a wire may not have one.
#[tactic(auto, unfolding(crate::specs::Atoms::identity_tree))]
pub fn identity(
    alloc: Global,
    forward: &List<TyTree>,
    backward: &List<TyTree>,
    declared: &Names<Meaning>,
) -> Result<Game, BuildFault>
    ensures { Gives (identity_tree declared.now forward.now backward.now) result }
{
    let forward = types_in(alloc, forward, declared)?;
    let backward = types_in(alloc, backward, declared)?;
    made(alloc, GameNodeOf::Id { forward, backward })
}

/// The library's block with the name, whose number is its place among the names. BadType comes exactly where there is none, or
/// it isn't well wired.
#[tactic(auto, unfolding(crate::specs::Atoms::native_tree))]
pub fn native(alloc: Global, name: &str, blocks: &Names<Ports>) -> Result<Game, BuildFault>
    ensures { Gives (native_tree blocks.now name.now) result }
{
    match (blocks.place(name), blocks.get(name)) {
        (Some(number), Some(ports)) if number < 1 << 32 => {
            let ports = ports.copy(alloc)?;
            made(
                alloc,
                GameNodeOf::Native {
                    block: number as u32,
                    ports,
                },
            )
        }
        _ => Err(BuildFault::BadType),
    }
}
