use std::alloc::AllocError;
use thiserror::Error;

/// Why a program is refused: the first rule that is broken, with its place in the text.
#[derive(Clone, Copy, Debug, PartialEq, Eq, Drop, Error)]
pub enum WireFault {
    /// A name has no declaration of the kind that is wanted.
    #[error("Unknown at {0}")]
    Unknown(u32),
    /// A name is declared already.
    #[error("Twice at {0}")]
    Twice(u32),
    /// Something hasn't the type that is wanted there.
    #[error("WrongType at {0}")]
    WrongType(u32),
    /// There are more or fewer parts than are wanted.
    #[error("WrongCount at {0}")]
    WrongCount(u32),
    /// A type has a number in it where its values are listed.
    #[error("NotFinite at {0}")]
    NotFinite(u32),
    /// A forward expression names what comes backwards.
    #[error("BackwardInForward at {0}")]
    BackwardInForward(u32),
    /// A line's return names what goes back from the same or an earlier line.
    #[error("FeedbackTooEarly at {0}")]
    FeedbackTooEarly(u32),
    /// The weights of a row don't add up to one.
    #[error("NotOne at {0}")]
    NotOne(u32),
    /// Rows are missing.
    #[error("MissingRow at {0}")]
    MissingRow(u32),
    /// Something has a row already.
    #[error("RowTwice at {0}")]
    RowTwice(u32),
    /// The whole game has a port.
    #[error("NotClosed at {0}")]
    NotClosed(u32),
    /// A type has more than 4,096 values.
    #[error("TooManyValues at {0}")]
    TooManyValues(u32),
    /// A type, an expression or a game is too high or has too many nodes.
    #[error("TooBig at {0}")]
    TooBig(u32),
    /// The whole game has more than 4,096 lines.
    #[error("TooManyLines at {0}")]
    TooManyLines(u32),
    /// A scale is 2^62 or more.
    #[error("ScaleTooLarge at {0}")]
    ScaleTooLarge(u32),
    /// There was no memory.
    #[error("no memory")]
    Memory,
}

impl From<AllocError> for WireFault {
    ghost use Rattle.std.specs.Prelude.{◌≡◌};
    ghost use Rattle.og_typing.specs.declared.fault.WireFault.TheVariants.{Memory};

    ghost from_gives = { λ _ e. e ≡ Memory };

    fn from(_e: AllocError) -> WireFault {
        WireFault::Memory
    }
}

impl WireFault {
    ghost use Rattle.std.specs.Prelude.{◌≡◌};
    ghost use Rattle.og_typing.specs.Faults.{code_of, place_of};

    /// The broken rule's name.
    pub fn code(self) -> &'static str
        ensures { result.now ≡ code_of self }
    {
        match self {
            WireFault::Unknown(_) => "Unknown",
            WireFault::Twice(_) => "Twice",
            WireFault::WrongType(_) => "WrongType",
            WireFault::WrongCount(_) => "WrongCount",
            WireFault::NotFinite(_) => "NotFinite",
            WireFault::BackwardInForward(_) => "BackwardInForward",
            WireFault::FeedbackTooEarly(_) => "FeedbackTooEarly",
            WireFault::NotOne(_) => "NotOne",
            WireFault::MissingRow(_) => "MissingRow",
            WireFault::RowTwice(_) => "RowTwice",
            WireFault::NotClosed(_) => "NotClosed",
            WireFault::TooManyValues(_) => "TooManyValues",
            WireFault::TooBig(_) => "TooBig",
            WireFault::TooManyLines(_) => "TooManyLines",
            WireFault::ScaleTooLarge(_) => "ScaleTooLarge",
            WireFault::Memory => "Memory",
        }
    }

    /// The place where it is broken, in bytes from the start. Want of memory has the place 0.
    pub fn place(self) -> u32
        ensures { result ≡ place_of self }
    {
        match self {
            WireFault::Unknown(at)
            | WireFault::Twice(at)
            | WireFault::WrongType(at)
            | WireFault::WrongCount(at)
            | WireFault::NotFinite(at)
            | WireFault::BackwardInForward(at)
            | WireFault::FeedbackTooEarly(at)
            | WireFault::NotOne(at)
            | WireFault::MissingRow(at)
            | WireFault::RowTwice(at)
            | WireFault::NotClosed(at)
            | WireFault::TooManyValues(at)
            | WireFault::TooBig(at)
            | WireFault::TooManyLines(at)
            | WireFault::ScaleTooLarge(at) => at,
            WireFault::Memory => 0,
        }
    }
}
