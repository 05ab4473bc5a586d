//! The bodies of declared functions.
ghost use Rattle.std.specs.Prelude.{◌≡◌};
ghost use Rattle.og_inlining.specs.Steps.{Gives};
ghost use Rattle.og_inlining.specs.Bodies.{body_tree, with_body, Adds};

use crate::expressions::tree;
use crate::seen::Trees;
use og_expr::{BuildFault, Expr};
use og_game::Origin;
use og_list::List;
use og_names::Names;
use og_syntax::{ExprTree, ParamTree};
use og_typing::{Around, Meaning, Params, WireFault, walk_params};
use std::alloc::Global;

/// The tree of a function's body. Its variables are the parameters, by their places.
fn body_tree(
    alloc: Global,
    name: &str,
    params: &List<ParamTree>,
    body: &ExprTree,
    declared: &Names<Meaning>,
    bodies: &Names<Expr>,
) -> Result<Expr, BuildFault>
    ensures { Gives (body_tree name.now params.now body.now declared.now bodies.now) result }
{
    let none = Names::new(alloc);
    let around = Around {
        declared,
        own: name,
        given: &none,
    };
    let start = Params {
        variables: Names::new(alloc),
        types: List::new(alloc),
    };
    match walk_params(alloc, params, &around, Origin::Input, start) {
        Ok(found) => {
            let given = Names::new(alloc);
            let seen = Trees {
                declared,
                variables: &found.variables,
                given: &given,
                bodies,
            };
            tree(alloc, body, &seen)
        }
        Err(WireFault::Memory) => Err(BuildFault::Memory),
        Err(_) => Err(BuildFault::BadType),
    }
}

/// Adds the body of a declared function to those of the functions before it, with its calls replaced by theirs. BadType comes
/// exactly where the name has a body already or this one has no tree. A refused call leaves the bodies as they were.
pub fn add_body(
    alloc: Global,
    name: &str,
    params: &List<ParamTree>,
    body: &ExprTree,
    declared: &Names<Meaning>,
    bodies: &mut Names<Expr>,
) -> Result<(), BuildFault>
    ensures { Adds (with_body name.now params.now body.now declared.now bodies.old) bodies.old result bodies.new }
{
    if bodies.has(name) {
        return Err(BuildFault::BadType);
    }
    let tree = body_tree(alloc, name, params, body, declared, bodies)?;
    bodies.insert(alloc, name, tree)?;
    Ok(())
}
