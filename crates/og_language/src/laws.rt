//! What holds of the two kinds of texts. No call here does anything: its clauses are the laws.
ghost use Rattle.std.specs.Prelude.{◌≡◌, ℕ, List, Result};
ghost use Rattle.og_grammar.specs.Lexeme.{Lexeme};
ghost use Rattle.og_syntax.specs.declared.strategies.Section.{Section};
ghost use Rattle.og_language.specs.Spelled.{Parts, SpellsProgram, IsProgramVerdict, SpellsStrategy, IsStrategyVerdict};

use og_grammar::{Language, single_value, single_verdict};
use og_list::List;
use og_syntax::{Decl, Section};

/// Names the language of programs: a version, and declarations.
pub enum Programs {}

impl Language for Programs {
    type Value = (u32, List<Decl>);

    ghost use Rattle.og_language.specs.Symbols.{symbols};
    ghost use Rattle.og_language.specs.Language.{language};
    ghost use Rattle.og_language.specs.Grammar.{program};
    ghost use Rattle.og_language.specs.laws.Fine.{language_fine, program_led};

    ghost names = { symbols };

    ghost grammar = { language };

    ghost rule = { program };

    ghost is_fine = { language_fine };

    ghost is_led = { program_led };
}

/// Names the language of strategy files: sections.
pub enum StrategyFiles {}

impl Language for StrategyFiles {
    type Value = List<Section>;

    ghost use Rattle.og_language.specs.Symbols.{symbols};
    ghost use Rattle.og_language.specs.Language.{language};
    ghost use Rattle.og_language.specs.Grammar.{strategy};
    ghost use Rattle.og_language.specs.laws.Fine.{language_fine, strategy_led};

    ghost names = { symbols };

    ghost grammar = { language };

    ghost rule = { strategy };

    ghost is_fine = { language_fine };

    ghost is_led = { strategy_led };
}

/// A list of tokens spells at most one program.
pub fn one_program()
    ensures { (tokens : List Lexeme) (one other : Parts)
        → SpellsProgram tokens one → SpellsProgram tokens other → one ≡ other }
{
    single_value::<Programs>();
}

/// A list of tokens spells at most one strategy file.
pub fn one_strategy_file()
    ensures { (tokens : List Lexeme) (one other : List Section)
        → SpellsStrategy tokens one → SpellsStrategy tokens other → one ≡ other }
{
    single_value::<StrategyFiles>();
}

/// A list of tokens has one verdict as a program: the one that it spells, or the one place where it goes wrong.
pub fn one_program_verdict()
    ensures { (tokens : List Lexeme) (one other : Result Parts ℕ)
        → IsProgramVerdict tokens one → IsProgramVerdict tokens other → one ≡ other }
{
    single_verdict::<Programs>();
}

/// A list of tokens has one verdict as a strategy file.
pub fn one_strategy_verdict()
    ensures { (tokens : List Lexeme) (one other : Result (List Section) ℕ)
        → IsStrategyVerdict tokens one → IsStrategyVerdict tokens other → one ≡ other }
{
    single_verdict::<StrategyFiles>();
}
