//! The keys of tables, and the order of their rows.
ghost use Rattle.std.specs.Prelude.{◌≡◌, [], IfOk, map};
ghost use Rattle.og_inlining.specs.Steps.{Gives, given_by};
ghost use Rattle.og_inlining.specs.Trees.{tree_in, types_of, ranks_of, where_is, places, order_of};
ghost use Rattle.og_typing.specs.Types.{type_walk};
ghost use Rattle.og_typing.specs.Values.{key_walk};
ghost use Rattle.og_typing.specs.Levels.{row_with};
ghost use Rattle.og_types.specs.Values.{AreSmall};

use og_expr::{BuildFault, Expr, Key};
use og_list::List;
use og_names::Names;
use og_syntax::{TableRow, TyTree, ValueTree};
use og_types::Ty;
use og_typing::{Meaning, WireFault, key_count, walk_key, walk_type};
use std::alloc::{AllocError, Global};

/// The type that is written.
pub(crate) fn written(
    alloc: Global,
    ty: &TyTree,
    declared: &Names<Meaning>,
) -> Result<Ty, BuildFault>
    ensures { Gives (given_by (type_walk ty.now declared.now)) result }
{
    match walk_type(alloc, ty, declared) {
        Ok(ty) => Ok(ty),
        Err(WireFault::Memory) => Err(BuildFault::Memory),
        Err(_) => Err(BuildFault::BadType),
    }
}

/// The types of the keys.
fn types_of(alloc: Global, keys: &List<Key<Expr>>) -> Result<List<Ty>, AllocError>
    ensures { IfOk result (λ made. made ≡ types_of keys.now) }
{
    let mut all = List::new(alloc);
    'keys: for key in keys.as_slice() {
        all.add(key.ty.copy(alloc)?)?;
    }
    Ok(all)
}

/// The joint rank of a row's key.
fn rank(
    alloc: Global,
    at: u32,
    key: &List<ValueTree>,
    types: &List<Ty>,
    declared: &Names<Meaning>,
) -> Result<u32, BuildFault>
    requires { AreSmall types.now }
    ensures { Gives (given_by (key_walk declared.now types.now at key.now)) result }
{
    match walk_key(alloc, at, key, types, declared) {
        Ok(rank) => Ok(rank),
        Err(WireFault::Memory) => Err(BuildFault::Memory),
        Err(_) => Err(BuildFault::BadType),
    }
}

/// The joint ranks of the rows' keys.
#[tactic(auto, unfolding(crate::specs::Trees::ranks_of))]
fn ranks_of(
    alloc: Global,
    rows: &List<TableRow>,
    types: &List<Ty>,
    declared: &Names<Meaning>,
) -> Result<List<u32>, BuildFault>
    ensures { Gives (ranks_of declared.now types.now (map (row_with tree_in) rows.now)) result }
{
    if key_count(types).is_none() {
        return Err(BuildFault::BadType);
    }
    let mut all = List::new(alloc);
    'rows: for row in rows.as_slice() {
        all.add(rank(alloc, row.at, &row.key, types, declared)?)?;
    }
    Ok(all)
}

/// Where the rank first stands.
fn where_is(ranks: &List<u32>, rank: usize) -> Option<usize>
    ensures { result ≡ where_is rank ranks.now }
{
    'ranks: for (at, one) in ranks.as_slice().iter().enumerate() {
        if *one as usize == rank {
            return Some(at);
        }
    }
    None
}

/// Where the ranks stand, from 0 to as many as there are.
fn places(alloc: Global, ranks: &List<u32>) -> Result<List<usize>, BuildFault>
    ensures { Gives (places ranks.now 0 [] ranks.now) result }
{
    let mut all = List::new(alloc);
    'ranks: for (rank, _one) in ranks.as_slice().iter().enumerate() {
        match where_is(ranks, rank) {
            Some(at) => all.add(at)?,
            None => return Err(BuildFault::BadType),
        }
    }
    Ok(all)
}

/// The places of the rows in the order of their keys' joint ranks.
pub(crate) fn order_of(
    alloc: Global,
    rows: &List<TableRow>,
    keys: &List<Key<Expr>>,
    declared: &Names<Meaning>,
) -> Result<List<usize>, BuildFault>
    ensures { Gives (order_of declared.now (types_of keys.now) (map (row_with tree_in) rows.now)) result }
{
    let types = types_of(alloc, keys)?;
    let ranks = ranks_of(alloc, rows, &types, declared)?;
    places(alloc, &ranks)
}
