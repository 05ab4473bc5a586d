ghost use Rattle.std.specs.Prelude.{◌≡◌};
ghost use Rattle.og_lex.specs.Characters.{has};

/// What the characters of a run have in common.
#[derive(Clone, Copy)]
pub(crate) enum Class {
    /// May go on a name.
    NameRest,
    /// An ASCII digit.
    Digit,
    /// `-`
    Hyphen,
    /// May stand between two double quotes.
    InText,
    /// May stand in a comment.
    InComment,
}

impl Class {
    /// Whether the character is of the class.
    #[tactic(auto, unfolding(crate::specs::Characters::has))]
    pub(crate) fn has(self, c: char) -> bool
        ensures { result ≡ has self c }
    {
        match self {
            Class::NameRest => unicode_ident::is_xid_continue(c),
            Class::Digit => c.is_ascii_digit(),
            Class::Hyphen => c == '-',
            Class::InText => c >= ' ' && c != '"' && c != '\u{7f}',
            Class::InComment => c != '\n',
        }
    }
}
