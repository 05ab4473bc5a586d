ghost use Rattle.std.specs.Prelude.{◌≡◌, Ok, Err, IfOk, IfErr};

use std::alloc::AllocError;

/// Why a reader stopped.
#[derive(Clone, Copy, Debug, PartialEq, Eq)]
pub enum Fault {
    /// There was no memory for a value.
    Memory,
    /// The next token doesn't go on with what was read. So many tokens are left from it on; at the end
    /// of the tokens there are none.
    Syntax(usize),
}

impl From<AllocError> for Fault {
    ghost use Rattle.std.specs.Prelude.{◌≡◌};
    ghost use Rattle.og_grammar.specs.declared.fault.Fault.TheVariants.{Memory};

    ghost from_gives = { λ _ fault. fault ≡ Memory };

    fn from(_: AllocError) -> Fault {
        Fault::Memory
    }
}

/// The first part with the second, where the second could be made. At a fault the first part is let go.
pub fn with<A: Drop, B: Drop, E: Drop>(first: A, second: Result<B, E>) -> Result<(A, B), E>
    ensures made { IfOk result (λ parts. (parts.0 ≡ first) × (second ≡ Ok parts.1)) }
    ensures refused { IfErr result (λ fault. second ≡ Err fault) }
{
    match second {
        Ok(second) => Ok((first, second)),
        Err(fault) => Err(fault),
    }
}
