//! What names stand for where an expression is wanted.
ghost use Rattle.std.specs.Prelude.{◌≡◌, ◌≤◌};
ghost use Rattle.std.specs.Option.{option_copied};
ghost use Rattle.og_typing.specs.Checked.{Walks};
ghost use Rattle.og_typing.specs.Scopes.{names_of, named_as, name_walk, function_named, call_depth, Calls};

use crate::fault::WireFault;
use crate::meaning::{Function, Given, Meaning, Scope};
use og_game::{Stand, Variable};
use og_types::Ty;
use std::alloc::Global;

/// The type of what the name stands for, of the three kinds that it may be of.
fn named_as(
    alloc: Global,
    at: u32,
    stand: Stand,
    variable: Option<&Variable>,
    given: Option<&Given>,
    meaning: Option<&Meaning>,
) -> Result<Ty, WireFault>
    ensures { Walks (named_as at stand (option_copied variable.entry) (option_copied given.entry) (option_copied meaning.entry)) result }
{
    if let Some(variable) = variable {
        if !stand.sees(variable.origin) {
            return Err(WireFault::FeedbackTooEarly(at));
        }
        return Ok(variable.ty.copy(alloc)?);
    }
    match given {
        Some(Given::Agent) => Err(WireFault::WrongType(at)),
        Some(Given::Value(ty)) => Ok(ty.copy(alloc)?),
        None => match meaning {
            Some(Meaning::Case(family, cases, _)) => Ok(Ty::Enum(*family, *cases)),
            _ => Err(WireFault::Unknown(at)),
        },
    }
}

/// The function that the name stands for.
pub(crate) fn function_named<'a>(
    at: u32,
    found: Option<&'a Meaning>,
) -> Result<&'a Function, WireFault>
    ensures { Calls (function_named at (option_copied found.entry)) result }
{
    match found {
        Some(Meaning::Function(function)) => Ok(function),
        _ => Err(WireFault::Unknown(at)),
    }
}

/// The depth at which the arguments of a call stand.
pub(crate) fn call_depth(
    at: u32,
    depth: u32,
    function: &Function,
    count: usize,
) -> Result<u32, WireFault>
    requires { depth ≤ 48 }
    ensures { Walks (call_depth at depth function.now count) result }
{
    if function.height > 49 - depth {
        return Err(WireFault::TooBig(at));
    }
    if count != function.params.len() {
        return Err(WireFault::WrongCount(at));
    }
    Ok((depth + function.height).saturating_sub(1))
}

impl Scope<'_> {
    /// The type of what the name stands for as an expression: a variable, a parameter of the game, or a case.
    pub fn name_type(&self, alloc: Global, at: u32, name: &str) -> Result<Ty, WireFault>
        ensures { Walks (name_walk at name.now (names_of self.now)) result }
    {
        if self.hidden.has(name) {
            return Err(WireFault::BackwardInForward(at));
        }
        let variable = self.variables.get(name);
        let given = self.given.get(name);
        let meaning = self.declared.get(name);
        named_as(alloc, at, self.stand, variable, given, meaning)
    }
}
