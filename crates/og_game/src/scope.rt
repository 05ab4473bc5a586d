//! The variables that expressions of a game see.
ghost use Rattle.std.specs.Prelude.{◌≡◌, ◌&&◌, map};
ghost use Rattle.std.specs.List.{list_all};
ghost use Rattle.std.specs.Cmp.Lexicographic.{pointwise};
ghost use Rattle.og_game.specs.Scopes.{goes_in, is_result, of_params, whence, seen};

use crate::node::Typed;
use crate::types::is_wire;
use og_expr::{Expr, VariableTest};
use og_list::List;
use og_types::Ty;

/// Where a block's variable has its value from. Lines are numbered from 0.
#[derive(Clone, Copy, Debug, PartialEq, Eq)]
pub enum Origin {
    /// It is an input of the block.
    Input,
    /// It goes back from a line's operation.
    Feedback(usize),
    /// It comes out of a line's operation.
    Output(usize),
    /// It comes back to the block.
    Return,
}

/// A block's variable.
#[derive(Debug, Drop)]
pub struct Variable {
    /// Its type.
    pub ty: Ty,
    /// Where it comes from.
    pub origin: Origin,
}

/// Where an expression stands in a block.
#[derive(Clone, Copy, Debug, PartialEq, Eq)]
pub enum Stand {
    /// Forwards, before the line with the number.
    Before(usize),
    /// Backwards, behind the line with the number.
    Behind(usize),
    /// Behind the whole block.
    Anywhere,
}

impl Stand {
    /// Whether a variable from there is seen.
    pub fn sees(self, origin: Origin) -> bool
        ensures { result ≡ whence self origin }
    {
        match (self, origin) {
            (Stand::Before(_), Origin::Input) => true,
            (Stand::Before(k), Origin::Output(j)) => j < k,
            (Stand::Before(_), _) => false,
            (Stand::Behind(k), Origin::Feedback(j)) => k < j,
            (Stand::Behind(_), _) => true,
            (Stand::Anywhere, _) => true,
        }
    }
}

/// The parameters of functions, as variables.
#[derive(Drop)]
pub(crate) struct Params<'a> {
    pub types: &'a List<Ty>,
}

impl VariableTest for Params<'_> {
    ghost passes = { λ of. of_params of.types.now };

    fn test(&self, number: u32, ty: &Ty) -> bool {
        match self.types.get(number as usize) {
            Some(param) => param == ty,
            None => false,
        }
    }
}

/// The variables of a block, as an expression sees them.
#[derive(Drop)]
pub(crate) struct Seen<'a> {
    pub variables: &'a List<Variable>,
    pub stand: Stand,
}

impl VariableTest for Seen<'_> {
    ghost passes = { λ of. seen of.variables.now (whence of.stand) };

    fn test(&self, number: u32, ty: &Ty) -> bool {
        match self.variables.get(number as usize) {
            Some(variable) => self.stand.sees(variable.origin) && variable.ty == *ty,
            None => false,
        }
    }
}

/// Whether each variable is seen, and the type goes as the other.
fn goes_in<T: VariableTest>(scope: &T, e: &Expr, ty: &Ty) -> bool
    ensures { result ≡ goes_in (T.passes scope.now) e.now ty.now }
{
    e.every_variable(scope) && e.ty().fits(ty)
}

/// Whether the expressions go as the types, one by one.
#[tactic(auto, using(og_types::proofs::Pointwise::pointwise_stops))]
pub(crate) fn all_go<T: VariableTest>(scope: &T, parts: &List<Expr>, types: &List<Ty>) -> bool
    ensures { result ≡ pointwise (goes_in (T.passes scope.now)) parts.now types.now }
{
    if parts.len() != types.len() {
        return false;
    }
    'parts: for (at, part) in parts.as_slice().iter().enumerate() {
        match types.get(at) {
            Some(ty) => {
                if !goes_in(scope, part, ty) {
                    return false;
                }
            }
            None => return false,
        }
    }
    true
}

/// Whether each goes as its written type, which a wire may have.
pub(crate) fn are_results<T: VariableTest>(scope: &T, results: &List<Typed>) -> bool
    ensures { result ≡ list_all (is_result (T.passes scope.now)) results.now }
{
    'results: for one in results.as_slice() {
        if !(is_wire(&one.ty) && goes_in(scope, &one.expr, &one.ty)) {
            return false;
        }
    }
    true
}
