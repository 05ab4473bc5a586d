//! What holds of the two grammars.

ghost use Rattle.std.specs.Prelude.{◌≡◌, ℕ, List};
ghost use Rattle.og_lex.specs.declared.token.Token.{Token};
ghost use Rattle.og_small.specs.declared.tree.Section.{Section};
ghost use Rattle.og_small.specs.declared.tree.SmallGame.{SmallGame};
ghost use Rattle.og_read.specs.Spelled.{SpellsGame, SpellsStrategy};

use og_grammar::Language;
use og_list::List;
use og_small::{Section, SmallGame};

/// Names the language of small games.
pub enum SmallGames {}

impl Language for SmallGames {
    type Value = SmallGame;

    ghost use Rattle.og_grammar.specs.Alone.{none, alone, alone_fine};
    ghost use Rattle.og_read.specs.Grammar.{game};
    ghost use Rattle.og_read.specs.laws.Fine.{game_fine};

    ghost names = { none };

    ghost grammar = { alone };

    ghost rule = { game };

    ghost is_fine = { alone_fine };

    ghost is_led = { game_fine };
}

/// Names the language of strategies.
pub enum Strategies {}

impl Language for Strategies {
    type Value = List<Section>;

    ghost use Rattle.og_grammar.specs.Alone.{none, alone, alone_fine};
    ghost use Rattle.og_read.specs.Grammar.{strategy};
    ghost use Rattle.og_read.specs.laws.Fine.{strategy_fine};

    ghost names = { none };

    ghost grammar = { alone };

    ghost rule = { strategy };

    ghost is_fine = { alone_fine };

    ghost is_led = { strategy_fine };
}

/// Tokens spell at most one small game.
pub fn one_game()
    ensures { (text : List ℕ) (tokens : List Token) (one other : SmallGame)
        → SpellsGame text tokens one → SpellsGame text tokens other → one ≡ other }
{}

/// Tokens spell at most one list of sections.
pub fn one_strategy()
    ensures { (text : List ℕ) (tokens : List Token) (one other : List Section)
        → SpellsStrategy text tokens one → SpellsStrategy text tokens other → one ≡ other }
{}
