//! What holds of the answers to every list of tokens. No call here does anything: its clauses are the laws.
ghost use Rattle.std.specs.Prelude.{◌≡◌, ◌≢◌, ℕ, List, Result, Err};
ghost use Rattle.og_lex.specs.declared.token.Token.{Token};
ghost use Rattle.og_syntax.specs.declared.declarations.Program.{Program};
ghost use Rattle.og_syntax.specs.declared.strategies.StrategyFile.{StrategyFile};
ghost use Rattle.og_parse.specs.declared.faults.ParseFault.{ParseFault};
ghost use Rattle.og_parse.specs.declared.faults.ParseFault.TheVariants.{Memory};
ghost use Rattle.og_parse.specs.Parsed.{ParsesProgram, ParsesStrategy};

use og_grammar::viable_fronts;
use og_language::{Programs, StrategyFiles, one_program_verdict, one_strategy_verdict};

/// The tokens of a text have at most one answer as a program, want of memory aside.
pub fn one_program_answer()
    ensures { (text : List ℕ) (tokens : List Token) (one other : Result Program ParseFault)
        → ParsesProgram text tokens one → ParsesProgram text tokens other
        → one ≢ Err Memory → other ≢ Err Memory → one ≡ other }
{
    one_program_verdict();
    viable_fronts::<Programs>();
}

/// The tokens of a text have at most one answer as a strategy file, want of memory aside.
pub fn one_strategy_answer()
    ensures { (text : List ℕ) (tokens : List Token) (one other : Result StrategyFile ParseFault)
        → ParsesStrategy text tokens one → ParsesStrategy text tokens other
        → one ≢ Err Memory → other ≢ Err Memory → one ≡ other }
{
    one_strategy_verdict();
    viable_fronts::<StrategyFiles>();
}
