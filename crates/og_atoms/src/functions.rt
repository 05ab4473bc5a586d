//! Functions of what comes forwards or backwards.
ghost use Rattle.std.specs.Prelude.{◌≡◌};
ghost use Rattle.og_inlining.specs.Steps.{Gives};
ghost use Rattle.og_inlining.specs.Seen.{seen_of};
ghost use Rattle.og_atoms.specs.Atoms.{params_in, results_in, forward_tree, backward_tree};

use crate::forms::{made, type_in};
use og_expr::{BuildFault, Expr};
use og_game::{Game, GameNodeOf, Origin, Typed, Variable};
use og_inlining::{Trees, tree};
use og_list::List;
use og_names::Names;
use og_syntax::{ParamTree, ResultTree};
use og_typing::{Meaning, Params};
use std::alloc::Global;

/// Parameters in order, behind those that are there. BadType comes exactly where a name is there already or a type stands for
/// none.
pub fn params_in(
    alloc: Global,
    params: &List<ParamTree>,
    origin: Origin,
    declared: &Names<Meaning>,
    found: Params,
) -> Result<Params, BuildFault>
    ensures { Gives (params_in declared.now origin found params.now) result }
{
    let Params {
        mut variables,
        mut types,
    } = found;
    'params: for param in params.as_slice() {
        let name = param.name.as_str();
        if variables.has(name) {
            return Err(BuildFault::BadType);
        }
        let ty = type_in(alloc, &param.ty, declared)?;
        types.add(ty.copy(alloc)?)?;
        variables.insert(alloc, name, Variable { ty, origin })?;
    }
    Ok(Params { variables, types })
}

/// Expressions with their written types. BadType comes exactly where an expression has no tree or a type stands for none.
pub fn results_in(
    alloc: Global,
    results: &List<ResultTree>,
    seen: &Trees<'_>,
) -> Result<List<Typed>, BuildFault>
    ensures { Gives (results_in (seen_of seen.now) results.now) result }
{
    let mut all = List::new(alloc);
    'results: for result in results.as_slice() {
        let expr = tree(alloc, &result.expr, seen)?;
        let ty = type_in(alloc, &result.ty, seen.declared)?;
        all.add(Typed { expr, ty })?;
    }
    Ok(all)
}

/// A function of what comes forwards, in a game whose parameters stand for these trees. BadType comes exactly where a type or
/// an expression in it stands for nothing, a name stands twice, or it isn't well wired.
#[tactic(auto, unfolding(crate::specs::Atoms::forward_tree))]
pub fn forward(
    alloc: Global,
    params: &List<ParamTree>,
    results: &List<ResultTree>,
    declared: &Names<Meaning>,
    given: &Names<Expr>,
    bodies: &Names<Expr>,
) -> Result<Game, BuildFault>
    ensures { Gives (forward_tree declared.now given.now bodies.now params.now results.now) result }
{
    let none = Params {
        variables: Names::new(alloc),
        types: List::new(alloc),
    };
    let Params { variables, types } = params_in(alloc, params, Origin::Input, declared, none)?;
    let seen = Trees {
        declared,
        variables: &variables,
        given,
        bodies,
    };
    let results = results_in(alloc, results, &seen)?;
    made(
        alloc,
        GameNodeOf::Forward {
            params: types,
            results,
        },
    )
}

/// A function of what comes backwards, in a game whose parameters stand for these trees. BadType comes as for `forward`.
#[tactic(auto, unfolding(crate::specs::Atoms::backward_tree))]
pub fn backward(
    alloc: Global,
    params: &List<ParamTree>,
    results: &List<ResultTree>,
    declared: &Names<Meaning>,
    given: &Names<Expr>,
    bodies: &Names<Expr>,
) -> Result<Game, BuildFault>
    ensures { Gives (backward_tree declared.now given.now bodies.now params.now results.now) result }
{
    let none = Params {
        variables: Names::new(alloc),
        types: List::new(alloc),
    };
    let Params { variables, types } = params_in(alloc, params, Origin::Input, declared, none)?;
    let seen = Trees {
        declared,
        variables: &variables,
        given,
        bodies,
    };
    let results = results_in(alloc, results, &seen)?;
    made(
        alloc,
        GameNodeOf::Backward {
            params: types,
            results,
        },
    )
}
