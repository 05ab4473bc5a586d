ghost use Rattle.std.specs.Prelude.{◌≡◌};
ghost use Rattle.og_grammar.specs.Lexeme as lexeme;
ghost use Rattle.og_grammar.specs.Rule as rule;

use og_lex::{Kind, Mark, Word};

/// What stands for a token in a rule: its kind, without the value of a number.
#[derive(Clone, Copy, Debug, PartialEq, Eq)]
pub enum Terminal {
    /// A name.
    Name,
    /// A name that begins with `_`.
    Under,
    /// A number.
    Number,
    /// A text in quotes.
    Text,
    /// This reserved word.
    Word(Word),
    /// This mark.
    Mark(Mark),
    /// A separator.
    Separator,
}

/// The terminal that stands for tokens of the kind.
pub(crate) fn terminal_of(kind: Kind) -> Terminal
    ensures { result ≡ lexeme.terminal_of kind }
{
    match kind {
        Kind::Name => Terminal::Name,
        Kind::Under => Terminal::Under,
        Kind::Number(_) => Terminal::Number,
        Kind::Text => Terminal::Text,
        Kind::Word(word) => Terminal::Word(word),
        Kind::Mark(mark) => Terminal::Mark(mark),
        Kind::Separator => Terminal::Separator,
    }
}

/// Whether two terminals are one.
#[tactic(auto, unfolding(crate::specs::Rule::same_terminal))]
pub(crate) fn same_terminal(one: Terminal, other: Terminal) -> bool
    ensures { result ≡ rule.same_terminal one other }
{
    match (one, other) {
        (Terminal::Word(one), Terminal::Word(other)) => one == other,
        (Terminal::Mark(one), Terminal::Mark(other)) => one == other,
        (Terminal::Name, Terminal::Name)
        | (Terminal::Under, Terminal::Under)
        | (Terminal::Number, Terminal::Number)
        | (Terminal::Text, Terminal::Text)
        | (Terminal::Separator, Terminal::Separator) => true,
        _ => false,
    }
}
