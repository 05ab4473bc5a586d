//! Arguments of games.
ghost use Rattle.std.specs.Prelude.{◌≡◌};
ghost use Rattle.std.specs.Option.{option_copied};
ghost use Rattle.og_syntax.specs.declared.values.ValueTree.TheViews.{out-ValueTree};
ghost use Rattle.og_typing.specs.Checked.{Walks};
ghost use Rattle.og_wires.specs.Arguments.{given_goes, value_goes, param_in, value_or_param, param_goes, argument_walk, argument_place, argument_there, arguments_walk};

use og_list::List;
use og_names::Names;
use og_syntax::{ArgTree, ValueTree};
use og_typing::{Given, Meaning, WireFault, meant, value_at, walk_value};
use std::alloc::Global;

/// Something goes where a parameter stands for the first.
fn given_goes(at: u32, wanted: &Given, found: &Given) -> Result<(), WireFault>
    ensures { Walks (given_goes at wanted.now found.now) result }
{
    match (wanted, found) {
        (Given::Agent, Given::Agent) => Ok(()),
        (Given::Value(wanted), Given::Value(ty)) => {
            if !ty.fits(wanted) {
                return Err(WireFault::WrongType(at));
            }
            Ok(())
        }
        _ => Err(WireFault::WrongType(at)),
    }
}

/// A value goes where a parameter stands for values of its type.
fn value_goes(
    alloc: Global,
    value: &ValueTree,
    wanted: &Given,
    declared: &Names<Meaning>,
) -> Result<(), WireFault>
    ensures { Walks (value_goes declared.now wanted.now value.now) result }
{
    match wanted {
        Given::Agent => {
            meant(alloc, value, declared)?;
            Err(WireFault::WrongType(value_at(value)))
        }
        Given::Value(ty) => {
            walk_value(alloc, value, ty, declared)?;
            Ok(())
        }
    }
}

/// What the value stands for among the parameters round the call, where it is a name.
fn param_in<'a>(value: &ValueTree, params: &'a Names<Given>) -> Option<&'a Given>
    ensures { option_copied result ≡ param_in params.now (out-ValueTree value.now) }
{
    match value {
        ValueTree::Name(_, name) => params.get(name.as_str()),
        ValueTree::Flag(..) | ValueTree::Number(..) | ValueTree::Tuple(..) => None,
    }
}

/// A value, or the parameter that it is.
fn value_or_param(
    alloc: Global,
    value: &ValueTree,
    found: Option<&Given>,
    wanted: &Given,
    declared: &Names<Meaning>,
) -> Result<(), WireFault>
    ensures { Walks (value_or_param declared.now wanted.now value.now (option_copied found.entry)) result }
{
    match found {
        Some(found) => given_goes(value_at(value), wanted, found),
        None => value_goes(alloc, value, wanted, declared),
    }
}

/// A parameter whose name no value has.
fn param_goes(at: u32, found: Option<&Given>, wanted: &Given) -> Result<(), WireFault>
    ensures { Walks (param_goes at wanted.now (option_copied found.entry)) result }
{
    match found {
        Some(found) => given_goes(at, wanted, found),
        None => Err(WireFault::Unknown(at)),
    }
}

/// The argument goes where a parameter stands for that.
fn argument(
    alloc: Global,
    arg: &ArgTree,
    wanted: &Given,
    declared: &Names<Meaning>,
    params: &Names<Given>,
) -> Result<(), WireFault>
    ensures { Walks (argument_walk declared.now params.now wanted.now arg.now) result }
{
    match arg {
        ArgTree::Quoted(at, _) => given_goes(*at, wanted, &Given::Agent),
        ArgTree::Var(at, name) => param_goes(*at, params.get(name.as_str()), wanted),
        ArgTree::Val(value) => {
            value_or_param(alloc, value, param_in(value, params), wanted, declared)
        }
    }
}

/// The place where the argument begins.
fn argument_at(arg: &ArgTree) -> u32
    ensures { result ≡ argument_place arg.now }
{
    match arg {
        ArgTree::Quoted(at, _) | ArgTree::Var(at, _) => *at,
        ArgTree::Val(value) => value_at(value),
    }
}

/// The argument goes where the parameter that is there stands for it.
fn argument_there(
    alloc: Global,
    arg: &ArgTree,
    wanted: Option<&Given>,
    declared: &Names<Meaning>,
    params: &Names<Given>,
) -> Result<(), WireFault>
    ensures { Walks (argument_there declared.now params.now (option_copied wanted.entry) arg.now) result }
{
    match wanted {
        Some(wanted) => argument(alloc, arg, wanted, declared, params),
        None => Err(WireFault::WrongType(argument_at(arg))),
    }
}

/// The arguments go as the parameters, in order.
pub(crate) fn walk_arguments(
    alloc: Global,
    args: &List<ArgTree>,
    wanted: &List<Given>,
    declared: &Names<Meaning>,
    params: &Names<Given>,
) -> Result<(), WireFault>
    ensures { Walks (arguments_walk declared.now params.now wanted.now 0 args.now) result }
{
    'arguments: for (at, arg) in args.as_slice().iter().enumerate() {
        argument_there(alloc, arg, wanted.get(at), declared, params)?;
    }
    Ok(())
}
