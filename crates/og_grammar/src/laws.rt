//! What holds of each rule, proved once.

ghost use Rattle.std.specs.Prelude.{◌≡◌, ◌↔◌, true, IsTrue};
ghost use Rattle.og_grammar.specs.declared.terminal.Terminal.{Terminal};
ghost use Rattle.og_grammar.specs.Rule.{Nonterminals, Rule, same_terminal};
ghost use Rattle.og_grammar.specs.Reading.{fine};
ghost use Rattle.og_grammar.specs.Levels.{Grammar, IsFine};
ghost use Rattle.og_grammar.specs.Laws.{IsSound, IsComplete, IsSingle, IsDecided, IsExact, HasFronts, SpellsAsRules};

/// `same_terminal` is a test of equality.
pub fn same_terminals()
    ensures { (k l : Terminal) → IsTrue (same_terminal k l) ↔ (k ≡ l) }
{}

/// A language: the rule of its values, in a grammar whose nonterminals may stand in one another. A type
/// that has no value serves to name one.
pub trait Language {
    type Value;

    ghost names: { Nonterminals };

    ghost grammar: { Grammar names };

    // What a whole list is to spell, which the next token alone leads through.
    ghost rule: { Rule names Self.Value };

    ghost is_fine: { IsFine grammar };

    ghost is_led: { fine grammar.tables rule ≡ true };
}

/// A nonterminal spells what its rule does.
pub fn nonterminals<L: Language>()
    ensures { SpellsAsRules L.grammar }
{}

/// What is read is spelled.
pub fn sound_reading<L: Language>()
    ensures { IsSound L.grammar L.rule }
{}

/// What is spelled is read, whatever follows that the rule wouldn't go on with.
pub fn whole_reading<L: Language>()
    ensures { IsComplete L.grammar L.rule }
{}

/// A list of tokens spells at most one value.
pub fn single_value<L: Language>()
    ensures { IsSingle L.grammar L.rule }
{}

/// The empty list is viable, what is spelled is, and so is each front of what is. A viable list that
/// isn't empty begins with one of the rule's first kinds.
pub fn viable_fronts<L: Language>()
    ensures { HasFronts L.grammar L.rule }
{}

/// Reading a whole list gives its verdict: the value that it spells, or the index of the token at which
/// it goes wrong. The tokens before that one may begin what is spelled and those through it may not; at
/// the end of the list, it may begin what is spelled and spells nothing.
pub fn exact_reading<L: Language>()
    ensures { IsExact L.grammar L.rule }
{}

/// A list of tokens has at most one verdict: one value and no fault, or one fault and no value.
pub fn single_verdict<L: Language>()
    ensures { IsDecided L.grammar L.rule }
{}
