//! What holds of every text. No call here does anything: its clauses are the laws.
ghost use Rattle.std.specs.Prelude.{◌≡◌, ℕ, List, Result};
ghost use Rattle.og_syntax.specs.declared.declarations.Program.{Program};
ghost use Rattle.og_syntax.specs.declared.strategies.StrategyFile.{StrategyFile};
ghost use Rattle.og_texts.specs.declared.fault.TextFault.{TextFault};
ghost use Rattle.og_texts.specs.Texts.{IsProgramOrFault, IsStrategyOrFault};

use og_lex::one_lexing;
use og_parse::{one_program_answer, one_strategy_answer};

/// A text is one program and has no fault, or it has one fault and is no program.
pub fn one_program_text()
    ensures { (text : List ℕ) (one other : Result Program TextFault)
        → IsProgramOrFault text one → IsProgramOrFault text other → one ≡ other }
{
    one_lexing();
    one_program_answer();
}

/// A text is one strategy file and has no fault, or it has one fault and is no strategy file.
pub fn one_strategy_text()
    ensures { (text : List ℕ) (one other : Result StrategyFile TextFault)
        → IsStrategyOrFault text one → IsStrategyOrFault text other → one ≡ other }
{
    one_lexing();
    one_strategy_answer();
}
