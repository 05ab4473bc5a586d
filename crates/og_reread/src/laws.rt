//! What holds of every tree. No call here does anything: its clauses are the laws.
ghost use Rattle.std.specs.Prelude.{ℕ, List};
ghost use Rattle.og_syntax.specs.declared.declarations.Program.{Program};
ghost use Rattle.og_syntax.specs.declared.strategies.StrategyFile.{StrategyFile};
ghost use Rattle.og_canonical.specs.Programs.{program_text};
ghost use Rattle.og_canonical.specs.Strategies.{file_text};
ghost use Rattle.og_texts.specs.Texts.{IsProgram, IsStrategyFile};
ghost use Rattle.og_reread.specs.Rereading.{IsSomeProgram, IsSomeStrategy, KeepsLimits, IsProgramAgain, IsStrategyAgain};

use og_lex::written_read_back;

/// The canonical text of a program that some tokens spell is that program again, where it keeps the limits on length
/// and depth. The places are those of the new text.
pub fn programs_read_back()
    ensures { (p : Program) → IsSomeProgram p → KeepsLimits (program_text p) → IsProgramAgain p }
{
    written_read_back();
}

/// The same of a strategy file.
pub fn strategies_read_back()
    ensures { (file : StrategyFile) → IsSomeStrategy file → KeepsLimits (file_text file) → IsStrategyAgain file }
{
    written_read_back();
}

/// A program that is read from a text is one that some tokens spell: so printed, it is read back.
pub fn programs_of_texts()
    ensures { (text : List ℕ) (p : Program) → IsProgram text p → IsSomeProgram p }
{}

/// The same of a strategy file.
pub fn strategies_of_texts()
    ensures { (text : List ℕ) (file : StrategyFile) → IsStrategyFile text file → IsSomeStrategy file }
{}
