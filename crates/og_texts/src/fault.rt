ghost use Rattle.std.specs.Prelude.{◌≡◌};
ghost use Rattle.og_texts.specs.Faults.{code_of, place_of};

/// What is wrong with a text, by the first step of reading that stops at it. A place is counted in bytes from 0.
#[derive(Clone, Copy, Debug, PartialEq, Eq)]
pub enum TextFault {
    /// The text has more than 1,048,576 bytes.
    TooLong,
    /// The bytes aren't UTF-8. The place is the length of the longest front that is.
    BadUtf8(u32),
    /// A character stands here that begins no token.
    BadChar(u32),
    /// A double quote stands here that nothing ends.
    OpenText(u32),
    /// Digits stand here whose value is above 2^63 - 1.
    WideNumber(u32),
    /// The tokens before the one that starts here may begin a text of the kind, and those through it may not. The end of
    /// the text stands for one token more.
    Syntax(u32),
    /// The token that starts here is the first that is too deep.
    Deep(u32),
    /// There was no memory. Nothing is said of the text.
    Memory,
}

impl TextFault {
    /// The fault's name.
    pub fn code(self) -> &'static str
        ensures { result.now ≡ code_of self }
    {
        match self {
            TextFault::TooLong => "TooLong",
            TextFault::BadUtf8(_) => "BadUtf8",
            TextFault::BadChar(_) => "BadChar",
            TextFault::OpenText(_) => "OpenText",
            TextFault::WideNumber(_) => "WideNumber",
            TextFault::Syntax(_) => "Syntax",
            TextFault::Deep(_) => "Deep",
            TextFault::Memory => "Memory",
        }
    }

    /// The fault's place, in bytes from the start. A fault of the text as a whole has the place 0.
    pub fn place(self) -> u32
        ensures { result ≡ place_of self }
    {
        match self {
            TextFault::TooLong | TextFault::Memory => 0,
            TextFault::BadUtf8(at)
            | TextFault::BadChar(at)
            | TextFault::OpenText(at)
            | TextFault::WideNumber(at)
            | TextFault::Syntax(at)
            | TextFault::Deep(at) => at,
        }
    }
}
