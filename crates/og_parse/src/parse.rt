ghost use Rattle.std.specs.Prelude.{All, ◌≡◌, ◌<◌, ◌^◌, length, IfSome};
ghost use Rattle.og_lex.specs.Spelling.{IsTokenOf};
ghost use Rattle.og_parse.specs.Parsed.{ParsesProgram, ParsesStrategy, through};
ghost use Rattle.og_parse.specs.Whole.{IsSmall, IsWhole, fault_of};

use crate::faults::ParseFault;
use crate::files::{program, strategy};
use og_grammar::{Fault, Tokens};
use og_lex::Token;
use og_syntax::{Program, StrategyFile, first_deep};
use std::alloc::Global;

/// Reads the tokens of a text as one program. There is at most one answer, by `one_program_answer`, but for want of memory.
pub fn parse_program(alloc: Global, text: &str, tokens: &[Token]) -> Result<Program, ParseFault>
    requires tokens { All (IsTokenOf text.now) tokens.now }
    requires few { length tokens.now < 2 ^ 32 }
    requires short { length text.now < 2 ^ 32 }
    ensures { ParsesProgram text.now tokens.now result }
{
    let deep = first_deep(tokens);
    let shown = tokens_through(tokens, deep);
    let mut rest = Tokens::new(text, shown);
    let read = program(alloc, &mut rest, shown.len() + 1);
    match whole(read, &rest, shown.len()) {
        Ok((version, decls)) => match deep {
            None => Ok(Program {
                at: text.len() as u32,
                version,
                decls,
            }),
            Some(k) => Err(ParseFault::Deep(k)),
        },
        Err(fault) => Err(place_fault(fault, shown.len(), deep)),
    }
}

/// Reads the tokens of a text as one strategy file. There is at most one answer, by `one_strategy_answer`, but for want of
/// memory.
pub fn parse_strategy(
    alloc: Global,
    text: &str,
    tokens: &[Token],
) -> Result<StrategyFile, ParseFault>
    requires tokens { All (IsTokenOf text.now) tokens.now }
    requires few { length tokens.now < 2 ^ 32 }
    requires short { length text.now < 2 ^ 32 }
    ensures { ParsesStrategy text.now tokens.now result }
{
    let deep = first_deep(tokens);
    let shown = tokens_through(tokens, deep);
    let mut rest = Tokens::new(text, shown);
    let read = strategy(alloc, &mut rest, shown.len() + 1);
    match whole(read, &rest, shown.len()) {
        Ok(sections) => match deep {
            None => Ok(StrategyFile {
                at: text.len() as u32,
                sections,
            }),
            Some(k) => Err(ParseFault::Deep(k)),
        },
        Err(fault) => Err(place_fault(fault, shown.len(), deep)),
    }
}

/// The tokens through that one, or all.
fn tokens_through(tokens: &[Token], last: Option<u32>) -> &[Token]
    requires { IfSome last (λ k. k < length tokens.now) }
    ensures { result.now ≡ through last tokens.now }
{
    match last {
        Some(k) => &tokens[..k as usize + 1],
        None => tokens,
    }
}

/// What a reading of so many tokens comes to where all have to be read: the value, or the number of the token at which
/// it goes wrong in place of how many are left there.
fn whole<T: Drop>(read: Result<T, Fault>, rest: &Tokens<'_>, count: usize) -> Result<T, Fault>
    ensures { IsWhole read rest.now count result }
{
    match read {
        Ok(value) => {
            if rest.is_done() {
                Ok(value)
            } else {
                Err(Fault::Syntax(count.saturating_sub(rest.left())))
            }
        }
        Err(Fault::Syntax(left)) => Err(Fault::Syntax(count.saturating_sub(left))),
        Err(Fault::Memory) => Err(Fault::Memory),
    }
}

/// The fault of the tokens that were shown, through the first that is too deep. At their end it is that token's.
fn place_fault(fault: Fault, shown: usize, deep: Option<u32>) -> ParseFault
    requires { IsSmall fault }
    ensures { result ≡ fault_of fault shown deep }
{
    match fault {
        Fault::Memory => ParseFault::Memory,
        Fault::Syntax(k) => match deep {
            Some(last) if k == shown => ParseFault::Deep(last),
            _ => ParseFault::Syntax(k as u32),
        },
    }
}
