ghost use Rattle.std.specs.Prelude.{◌≡◌, IsTrue, slice_range};
ghost use Rattle.std.specs.List.{list_all};
ghost use Rattle.og_lex.specs.Tables.{word_text, mark_text};
ghost use Rattle.og_lex.specs.Characters.{is_ascii_char};

/// What a token is.
#[derive(Clone, Copy, Debug, PartialEq, Eq)]
pub enum Kind {
    /// A name that isn't a reserved word.
    Name,
    /// An underscore and one or more characters that may go on a name.
    Under,
    /// One or more ASCII digits, with their value, which is below 2^63.
    Number(u64),
    /// A text between double quotes.
    Text,
    /// A reserved word.
    Word(Word),
    /// A mark.
    Mark(Mark),
    /// A colon, three or more hyphens, a colon.
    Separator,
}

/// A token, and where it stands: the bytes of the text from `start` up to `end`.
#[derive(Clone, Copy, Debug, PartialEq, Eq)]
pub struct Token {
    pub kind: Kind,
    pub start: u32,
    pub end: u32,
}

impl Token {
    ghost use Rattle.og_lex.specs.Spelling.{IsTokenOf};

    /// The token's own part of the text that it was read from.
    pub fn text(self, text: &str) -> &str
        requires { IsTokenOf text.now self }
        ensures { result.now ≡ slice_range text.now self.start self.end }
    {
        &text[self.start as usize..self.end as usize]
    }
}

/// The reserved words. `among`, `branch` and `version` are kept for later versions of the language.
#[derive(Clone, Copy, Debug, PartialEq, Eq)]
pub enum Word {
    Type,
    Fn,
    Game,
    Block,
    Inputs,
    Feedback,
    Operation,
    Outputs,
    Returns,
    DependentDecision,
    Nature,
    ForwardFunction,
    BackwardFunction,
    Identity,
    Library,
    If,
    Then,
    Elif,
    Else,
    End,
    Table,
    And,
    Or,
    Not,
    True,
    False,
    Bool,
    Number,
    Agent,
    Ratio,
    Min,
    Max,
    Clamp,
    Strategy,
    Among,
    Branch,
    Version,
}

/// The marks.
#[derive(Clone, Copy, Debug, PartialEq, Eq)]
pub enum Mark {
    /// `{`
    LeftBrace,
    /// `}`
    RightBrace,
    /// `(`
    LeftParen,
    /// `)`
    RightParen,
    /// `[`
    LeftBracket,
    /// `]`
    RightBracket,
    /// `,`
    Comma,
    /// `;`
    Semicolon,
    /// `:`
    Colon,
    /// `.`
    Dot,
    /// `..`
    DotDot,
    /// `->`
    Arrow,
    /// `=`
    Assign,
    /// `==`
    Equal,
    /// `!=`
    Differs,
    /// `<`
    Less,
    /// `<=`
    AtMost,
    /// `>`
    Greater,
    /// `>=`
    AtLeast,
    /// `+`
    Plus,
    /// `-`
    Minus,
    /// `*`
    Star,
    /// `/`
    Slash,
    /// `>>>`
    Then,
    /// `&&&`
    Beside,
}

impl Word {
    /// How the word is written.
    #[tactic(auto, unfolding(crate::specs::Tables::word_text))]
    pub fn text(self) -> &'static str
        ensures { result.now ≡ word_text self }
    {
        match self {
            Word::Type => "type",
            Word::Fn => "fn",
            Word::Game => "game",
            Word::Block => "block",
            Word::Inputs => "inputs",
            Word::Feedback => "feedback",
            Word::Operation => "operation",
            Word::Outputs => "outputs",
            Word::Returns => "returns",
            Word::DependentDecision => "dependentDecision",
            Word::Nature => "nature",
            Word::ForwardFunction => "forwardFunction",
            Word::BackwardFunction => "backwardFunction",
            Word::Identity => "identity",
            Word::Library => "library",
            Word::If => "if",
            Word::Then => "then",
            Word::Elif => "elif",
            Word::Else => "else",
            Word::End => "end",
            Word::Table => "table",
            Word::And => "and",
            Word::Or => "or",
            Word::Not => "not",
            Word::True => "true",
            Word::False => "false",
            Word::Bool => "bool",
            Word::Number => "number",
            Word::Agent => "agent",
            Word::Ratio => "ratio",
            Word::Min => "min",
            Word::Max => "max",
            Word::Clamp => "clamp",
            Word::Strategy => "strategy",
            Word::Among => "among",
            Word::Branch => "branch",
            Word::Version => "version",
        }
    }
}

impl Mark {
    /// How the mark is written.
    #[tactic(auto, unfolding(crate::specs::Tables::mark_text))]
    pub fn text(self) -> &'static str
        ensures value { result.now ≡ mark_text self }
        ensures ascii { IsTrue (list_all is_ascii_char result.now) }
    {
        match self {
            Mark::LeftBrace => "{",
            Mark::RightBrace => "}",
            Mark::LeftParen => "(",
            Mark::RightParen => ")",
            Mark::LeftBracket => "[",
            Mark::RightBracket => "]",
            Mark::Comma => ",",
            Mark::Semicolon => ";",
            Mark::Colon => ":",
            Mark::Dot => ".",
            Mark::DotDot => "..",
            Mark::Arrow => "->",
            Mark::Assign => "=",
            Mark::Equal => "==",
            Mark::Differs => "!=",
            Mark::Less => "<",
            Mark::AtMost => "<=",
            Mark::Greater => ">",
            Mark::AtLeast => ">=",
            Mark::Plus => "+",
            Mark::Minus => "-",
            Mark::Star => "*",
            Mark::Slash => "/",
            Mark::Then => ">>>",
            Mark::Beside => "&&&",
        }
    }
}
