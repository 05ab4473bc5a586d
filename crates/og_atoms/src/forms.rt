//! Games of forms, and types as they are written.
ghost use Rattle.std.specs.Prelude.{◌≡◌};
ghost use Rattle.og_inlining.specs.Steps.{Gives};
ghost use Rattle.og_atoms.specs.Atoms.{made, type_in, types_in};

use og_expr::BuildFault;
use og_game::{Game, GameFault, GameNode};
use og_list::List;
use og_names::Names;
use og_syntax::TyTree;
use og_types::Ty;
use og_typing::{Meaning, WireFault, walk_type, walk_types};
use std::alloc::Global;

/// The game of the form. BadType comes exactly where it isn't well wired.
#[tactic(auto, unfolding(crate::specs::Atoms::made))]
pub fn made(alloc: Global, node: GameNode) -> Result<Game, BuildFault>
    ensures { Gives (made node) result }
{
    match Game::build(alloc, node) {
        Ok(game) => Ok(game),
        Err(GameFault::BadWiring) => Err(BuildFault::BadType),
        Err(GameFault::Memory) => Err(BuildFault::Memory),
    }
}

/// The type that is written. BadType comes exactly where it stands for none.
pub fn type_in(alloc: Global, ty: &TyTree, declared: &Names<Meaning>) -> Result<Ty, BuildFault>
    ensures { Gives (type_in declared.now ty.now) result }
{
    match walk_type(alloc, ty, declared) {
        Ok(ty) => Ok(ty),
        Err(WireFault::Memory) => Err(BuildFault::Memory),
        Err(_) => Err(BuildFault::BadType),
    }
}

/// The types that are written. BadType comes exactly where one of them stands for none.
pub fn types_in(
    alloc: Global,
    types: &List<TyTree>,
    declared: &Names<Meaning>,
) -> Result<List<Ty>, BuildFault>
    ensures { Gives (types_in declared.now types.now) result }
{
    match walk_types(alloc, types, declared) {
        Ok(types) => Ok(types),
        Err(WireFault::Memory) => Err(BuildFault::Memory),
        Err(_) => Err(BuildFault::BadType),
    }
}
