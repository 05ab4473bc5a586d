//! Declarations of types and functions.
ghost use Rattle.std.specs.Prelude.{◌≡◌, false, replicate, IfOk, OnOk, OnErr};
ghost use Rattle.og_names.specs.Names.{has_name};
ghost use Rattle.og_typing.specs.Checked.{Walks, Updates};
ghost use Rattle.og_typing.specs.Scopes.{names_of};
ghost use Rattle.og_typing.specs.Uses.{uses_in};
ghost use Rattle.og_typing.specs.Variables.{whole_walk, around_of, is_free, variable_walk, params_walk, cases_walk, enum_walk, alias_walk, body_walk, function_of, function_with, function_walk, function_declared};

use crate::expressions::walk;
use crate::fault::WireFault;
use crate::kind::Kind;
use crate::meaning::{Around, Function, Meaning, Params, Scope};
use crate::sizes::{count_of, nodes_with, plus};
use crate::types::walk_type;
use crate::uses::{note_uses, variable_in};
use og_game::{Origin, Stand, Variable};
use og_list::List;
use og_names::Names;
use og_syntax::{ExprTree, NameTree, ParamTree, TyTree};
use og_types::Ty;
use std::alloc::{AllocError, Global};

/// The type of an outermost expression, with the greatest depth in it.
pub fn walk_whole(alloc: Global, e: &ExprTree, scope: &Scope<'_>) -> Result<Kind, WireFault>
    ensures { Walks (whole_walk e.now (names_of scope.now)) result }
{
    let found = walk(alloc, e, scope, 1)?;
    if nodes_with(e, scope, 1) > 65_536 {
        return Err(WireFault::TooBig(e.at()));
    }
    Ok(found)
}

/// Whether nothing has the name yet.
pub fn is_free(around: &Around<'_>, variables: &Names<Variable>, name: &str) -> bool
    ensures { result ≡ is_free (around_of around.now) variables.now name.now }
{
    let declared = around.declared.has(name) || name == around.own;
    let given = around.given.has(name) || variables.has(name);
    !(declared || given)
}

/// Whether a variable may have the name, of those that are there.
pub fn free_variable(
    around: &Around<'_>,
    variables: &Names<Variable>,
    at: u32,
    name: &str,
) -> Result<(), WireFault>
    ensures walks { Walks (variable_walk (around_of around.now) variables.now at name.now) result }
    ensures free { OnOk result (has_name name.now variables.now ≡ false) }
{
    if !is_free(around, variables, name) {
        return Err(WireFault::Twice(at));
    }
    if variables.len() >= 4_294_967_295 {
        return Err(WireFault::TooBig(at));
    }
    Ok(())
}

/// Parameters in order, behind the variables that are there.
pub fn walk_params(
    alloc: Global,
    params: &List<ParamTree>,
    around: &Around<'_>,
    origin: Origin,
    found: Params,
) -> Result<Params, WireFault>
    ensures { Walks (params_walk (around_of around.now) origin found params.now) result }
{
    let Params {
        mut variables,
        mut types,
    } = found;
    'params: for param in params.as_slice() {
        let name = param.name.as_str();
        free_variable(around, &variables, param.at, name)?;
        let ty = walk_type(alloc, &param.ty, around.declared)?;
        types.add(ty.copy(alloc)?)?;
        variables.insert(alloc, name, Variable { ty, origin })?;
    }
    Ok(Params { variables, types })
}

/// Adds the cases of an enum with so many.
fn walk_cases(
    alloc: Global,
    cases: &List<NameTree>,
    family: u32,
    count: u32,
    declared: &mut Names<Meaning>,
) -> Result<(), WireFault>
    ensures { Updates (cases_walk family count 0 declared.old cases.now) result declared.new }
{
    let mut index = 0;
    'cases: for case in cases.as_slice() {
        let name = case.name.as_str();
        if declared.has(name) {
            return Err(WireFault::Twice(case.at));
        }
        declared.insert(alloc, name, Meaning::Case(family, count, index))?;
        index = plus(index, 1);
    }
    Ok(())
}

/// Declares an enum with this number: its name, then its cases. Where it is refused, its name and some of its cases may be
/// declared.
pub fn declare_enum(
    alloc: Global,
    family: u32,
    at: u32,
    name: &str,
    cases: &List<NameTree>,
    declared: &mut Names<Meaning>,
) -> Result<(), WireFault>
    ensures { Updates (enum_walk family at name.now declared.old cases.now) result declared.new }
{
    if declared.has(name) {
        return Err(WireFault::Twice(at));
    }
    let count = count_of(cases.len());
    declared.insert(alloc, name, Meaning::Type(Ty::Enum(family, count)))?;
    walk_cases(alloc, cases, family, count, declared)?;
    if cases.len() > 4096 {
        return Err(WireFault::TooManyValues(at));
    }
    Ok(())
}

/// Declares a name for a type. Where it is refused, nothing is declared.
pub fn declare_alias(
    alloc: Global,
    at: u32,
    name: &str,
    written: &TyTree,
    declared: &mut Names<Meaning>,
) -> Result<(), WireFault>
    ensures declared { Updates (alias_walk at name.now declared.old written.now) result declared.new }
    ensures refused { OnErr result (declared.new ≡ declared.old) }
{
    if declared.has(name) {
        return Err(WireFault::Twice(at));
    }
    let ty = walk_type(alloc, written, declared)?;
    declared.insert(alloc, name, Meaning::Type(ty))?;
    Ok(())
}

/// The greatest depth in a body whose type goes as the written one.
fn walk_body(
    alloc: Global,
    body: &ExprTree,
    answer: &Ty,
    scope: &Scope<'_>,
) -> Result<u32, WireFault>
    ensures { Walks (body_walk body.now answer.now (names_of scope.now)) result }
{
    let found = walk_whole(alloc, body, scope)?;
    if !found.ty.fits(answer) {
        return Err(WireFault::WrongType(body.at()));
    }
    Ok(found.deep)
}

/// How often each of so many variables stands in the expression.
fn uses_of(
    alloc: Global,
    e: &ExprTree,
    scope: &Scope<'_>,
    count: usize,
) -> Result<List<u32>, AllocError>
    ensures { IfOk result (λ counts. counts ≡ uses_in e.now (names_of scope.now) 1 (replicate count 0)) }
{
    let mut counts = List::new(alloc);
    'counts: for _number in 0..count {
        counts.add(0)?;
    }
    note_uses(e, scope, 1, &mut counts);
    Ok(counts)
}

/// What is kept of a function.
fn function_of(
    alloc: Global,
    number: u32,
    params: List<Ty>,
    answer: Ty,
    height: u32,
    body: &ExprTree,
    scope: &Scope<'_>,
) -> Result<Function, AllocError>
    ensures { IfOk result (λ made. made ≡ function_of number params answer height body.now (names_of scope.now)) }
{
    let uses = uses_of(alloc, body, scope, params.len())?;
    Ok(Function {
        number,
        params,
        answer,
        height,
        own: nodes_with(body, scope, 0),
        uses,
        gives: variable_in(body, scope),
    })
}

/// What is kept of a function with these parameters and this type.
fn function_with(
    alloc: Global,
    number: u32,
    params: List<Ty>,
    answer: Ty,
    body: &ExprTree,
    scope: &Scope<'_>,
) -> Result<Function, WireFault>
    ensures { Walks (function_with number params answer body.now (names_of scope.now)) result }
{
    let height = walk_body(alloc, body, &answer, scope)?;
    Ok(function_of(alloc, number, params, answer, height, body, scope)?)
}

/// What is kept of a function: the parameters, then the written type, then the body.
fn walk_function(
    alloc: Global,
    number: u32,
    name: &str,
    declared: &Names<Meaning>,
    params: &List<ParamTree>,
    written: &TyTree,
    body: &ExprTree,
) -> Result<Function, WireFault>
    ensures { Walks (function_walk number name.now declared.now params.now written.now body.now) result }
{
    let given = Names::new(alloc);
    let hidden = Names::new(alloc);
    let around = Around {
        declared,
        own: name,
        given: &given,
    };
    let none = Params {
        variables: Names::new(alloc),
        types: List::new(alloc),
    };
    let found = walk_params(alloc, params, &around, Origin::Input, none)?;
    let Params { variables, types } = found;
    let answer = walk_type(alloc, written, declared)?;
    let scope = Scope {
        declared,
        given: &given,
        variables: &variables,
        hidden: &hidden,
        stand: Stand::Anywhere,
    };
    function_with(alloc, number, types, answer, body, &scope)
}

/// Declares a function, with this number of its declaration: its name, its parameters, the type of what it gives, and its
/// body. Where it is refused, nothing is declared.
pub fn declare_function(
    alloc: Global,
    number: u32,
    at: u32,
    name: &str,
    params: &List<ParamTree>,
    written: &TyTree,
    body: &ExprTree,
    declared: &mut Names<Meaning>,
) -> Result<(), WireFault>
    ensures declared { Updates (function_declared number at name.now declared.old params.now written.now body.now) result declared.new }
    ensures refused { OnErr result (declared.new ≡ declared.old) }
{
    if declared.has(name) {
        return Err(WireFault::Twice(at));
    }
    let function = walk_function(alloc, number, name, declared, params, written, body)?;
    declared.insert(alloc, name, Meaning::Function(function))?;
    Ok(())
}
