//! Wires: expressions with what they are handed to, names of what comes out of a game, and results.
ghost use Rattle.std.specs.Prelude.{◌≡◌, IfOk};
ghost use Rattle.std.specs.Option.{option_copied};
ghost use Rattle.og_typing.specs.Checked.{Walks};
ghost use Rattle.og_typing.specs.Scopes.{names_of};
ghost use Rattle.og_typing.specs.Variables.{around_of};
ghost use Rattle.og_wires.specs.Wires.{hide, hide_all, hide_lines, hide_params, backward_names, type_there, each_named, names_walk, with_expression, handing, handed_walk, goes_there, all_go, takes, result_walk, results_walk};

use crate::kind::Size;
use crate::sites::with_lines;
use og_game::{Origin, Variable};
use og_list::List;
use og_names::Names;
use og_syntax::{ExprTree, LineTree, NameTree, ParamTree, ResultTree};
use og_types::Ty;
use og_typing::{
    Around, Scope, WireFault, free_variable, nodes_with, variable_in, walk_type, walk_whole,
};
use std::alloc::{AllocError, Global};

/// A type that was found, with the place of its expression.
#[derive(Debug, Drop)]
pub struct Found {
    /// Where the expression begins.
    pub at: u32,
    /// Its type.
    pub ty: Ty,
}

/// What was found of expressions that are handed to a game.
#[derive(Debug, Drop)]
pub struct Handed {
    /// Their types, in order.
    pub items: List<Found>,
    /// How large the block is up to there.
    pub size: Size,
}

/// What was found of results.
#[derive(Debug, Drop)]
pub struct Results {
    /// Their written types, in order.
    pub types: List<Ty>,
    /// How large the game is up to there.
    pub size: Size,
}

/// Hides one name more, if it isn't there.
fn hide(alloc: Global, name: &str, hidden: &mut Names<()>) -> Result<(), AllocError>
    ensures { IfOk result (λ _. hidden.new ≡ hide name.now hidden.old) }
{
    if !hidden.has(name) {
        hidden.insert(alloc, name, ())?;
    }
    Ok(())
}

fn hide_all(alloc: Global, names: &List<NameTree>, hidden: &mut Names<()>) -> Result<(), AllocError>
    ensures { IfOk result (λ _. hidden.new ≡ hide_all hidden.old names.now) }
{
    'names: for name in names.as_slice() {
        hide(alloc, name.name.as_str(), hidden)?;
    }
    Ok(())
}

fn hide_lines(
    alloc: Global,
    lines: &List<LineTree>,
    hidden: &mut Names<()>,
) -> Result<(), AllocError>
    ensures { IfOk result (λ _. hidden.new ≡ hide_lines hidden.old lines.now) }
{
    'lines: for line in lines.as_slice() {
        hide_all(alloc, &line.feedback, hidden)?;
    }
    Ok(())
}

fn hide_params(
    alloc: Global,
    params: &List<ParamTree>,
    hidden: &mut Names<()>,
) -> Result<(), AllocError>
    ensures { IfOk result (λ _. hidden.new ≡ hide_params hidden.old params.now) }
{
    'params: for param in params.as_slice() {
        hide(alloc, param.name.as_str(), hidden)?;
    }
    Ok(())
}

/// What comes backwards in a block: what goes back from its lines, and what comes back to it.
pub(crate) fn backward_names(
    alloc: Global,
    lines: &List<LineTree>,
    returns: &List<ParamTree>,
) -> Result<Names<()>, AllocError>
    ensures { IfOk result (λ made. made ≡ backward_names lines.now returns.now) }
{
    let mut hidden = Names::new(alloc);
    hide_lines(alloc, lines, &mut hidden)?;
    hide_params(alloc, returns, &mut hidden)?;
    Ok(hidden)
}

/// The type for a name that is wanted.
fn type_there(alloc: Global, at: u32, found: Option<&Ty>) -> Result<Ty, WireFault>
    ensures { Walks (type_there at (option_copied found.entry)) result }
{
    match found {
        Some(ty) => Ok(ty.copy(alloc)?),
        None => Err(WireFault::WrongCount(at)),
    }
}

fn walk_each_name(
    alloc: Global,
    around: &Around<'_>,
    origin: Origin,
    types: &List<Ty>,
    names: &List<NameTree>,
    mut variables: Names<Variable>,
) -> Result<Names<Variable>, WireFault>
    ensures { Walks (each_named (around_of around.now) origin types.now 0 variables names.now) result }
{
    'names: for (at, name) in names.as_slice().iter().enumerate() {
        free_variable(around, &variables, name.at, name.name.as_str())?;
        let ty = type_there(alloc, name.at, types.get(at))?;
        variables.insert(alloc, name.name.as_str(), Variable { ty, origin })?;
    }
    Ok(variables)
}

/// Names for all types, one for each.
pub(crate) fn walk_names(
    alloc: Global,
    around: &Around<'_>,
    at: u32,
    origin: Origin,
    types: &List<Ty>,
    names: &List<NameTree>,
    variables: Names<Variable>,
) -> Result<Names<Variable>, WireFault>
    ensures { Walks (names_walk (around_of around.now) at origin types.now variables names.now) result }
{
    if names.len() != types.len() {
        return Err(WireFault::WrongCount(at));
    }
    walk_each_name(alloc, around, origin, types, names, variables)
}

/// An expression makes a flat line; where a block only passes wires on, that which is just a variable makes none.
fn with_expression(passes: bool, scope: &Scope<'_>, size: Size, e: &ExprTree) -> Size
    ensures { result ≡ with_expression passes (names_of scope.now) size e.now }
{
    if passes && variable_in(e, scope).is_some() {
        return size;
    }
    with_lines(1, nodes_with(e, scope, 1), size)
}

/// The types of expressions that are handed to a game.
pub(crate) fn walk_handed(
    alloc: Global,
    parts: &List<ExprTree>,
    scope: &Scope<'_>,
    size: Size,
) -> Result<Handed, WireFault>
    ensures { Walks (handed_walk (names_of scope.now) size parts.now) result }
{
    let mut handed = Handed {
        items: List::new(alloc),
        size,
    };
    'parts: for e in parts.as_slice() {
        handed = handing(alloc, e, scope, handed)?;
    }
    Ok(handed)
}

/// One expression more.
fn handing(
    alloc: Global,
    e: &ExprTree,
    scope: &Scope<'_>,
    before: Handed,
) -> Result<Handed, WireFault>
    ensures { Walks (handing (names_of scope.now) before e.now) result }
{
    let Handed { mut items, size } = before;
    let found = walk_whole(alloc, e, scope)?;
    items.add(Found {
        at: e.at(),
        ty: found.ty,
    })?;
    Ok(Handed {
        items,
        size: with_expression(true, scope, size, e),
    })
}

/// The type goes as the one that is there.
fn goes_there(wanted: Option<&Ty>, found: &Found) -> Result<(), WireFault>
    ensures { Walks (goes_there (option_copied wanted.entry) found.now) result }
{
    match wanted {
        Some(wanted) => {
            if !found.ty.fits(wanted) {
                return Err(WireFault::WrongType(found.at));
            }
            Ok(())
        }
        None => Err(WireFault::WrongType(found.at)),
    }
}

fn all_go(wanted: &List<Ty>, items: &List<Found>) -> Result<(), WireFault>
    ensures { Walks (all_go wanted.now 0 items.now) result }
{
    'items: for (at, found) in items.as_slice().iter().enumerate() {
        goes_there(wanted.get(at), found)?;
    }
    Ok(())
}

/// What is handed over is as much as is wanted, and goes as that.
pub(crate) fn takes(at: u32, wanted: &List<Ty>, items: &List<Found>) -> Result<(), WireFault>
    ensures { Walks (takes at wanted.now items.now) result }
{
    if items.len() != wanted.len() {
        return Err(WireFault::WrongCount(at));
    }
    all_go(wanted, items)
}

/// A result goes as its written type.
fn walk_result(
    alloc: Global,
    part: &ResultTree,
    passes: bool,
    scope: &Scope<'_>,
    before: Results,
) -> Result<Results, WireFault>
    ensures { Walks (result_walk passes (names_of scope.now) before part.now) result }
{
    let found = walk_whole(alloc, &part.expr, scope)?;
    let ty = walk_type(alloc, &part.ty, scope.declared)?;
    if !found.ty.fits(&ty) {
        return Err(WireFault::WrongType(part.expr.at()));
    }
    let Results { mut types, size } = before;
    types.add(ty)?;
    Ok(Results {
        types,
        size: with_expression(passes, scope, size, &part.expr),
    })
}

/// The written types of results.
pub(crate) fn walk_results(
    alloc: Global,
    parts: &List<ResultTree>,
    passes: bool,
    scope: &Scope<'_>,
    size: Size,
) -> Result<Results, WireFault>
    ensures { Walks (results_walk passes (names_of scope.now) size parts.now) result }
{
    let mut results = Results {
        types: List::new(alloc),
        size,
    };
    'parts: for part in parts.as_slice() {
        results = walk_result(alloc, part, passes, scope, results)?;
    }
    Ok(results)
}
