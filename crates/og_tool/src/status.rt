ghost use Rattle.std.specs.Prelude.{◌≡◌};
ghost use Rattle.og_tool.specs.Codes.{code_of};

/// How a run ended.
#[derive(Clone, Copy, Debug, PartialEq, Eq)]
pub enum Status {
    /// The answer is written, and there is no deviation.
    Done,
    /// The report is written, and it lists a deviation.
    Deviations,
    /// The words are refused.
    Words,
    /// The game's text is refused.
    GameText,
    /// The strategy's text is refused.
    StrategyText,
    /// A fraction passed its bound.
    Passes,
    /// A file couldn't be read.
    ReadFault,
    /// The answer couldn't be written whole.
    WriteFault,
    /// Memory ran out. Nothing is written.
    Memory,
}

impl Status {
    /// The program's exit status.
    pub fn code(&self) -> u8
        ensures { result ≡ code_of self.now }
    {
        match self {
            Status::Done => 0,
            Status::Deviations => 1,
            Status::Words => 2,
            Status::GameText => 3,
            Status::StrategyText => 4,
            Status::Passes => 5,
            Status::ReadFault => 6,
            Status::WriteFault => 7,
            Status::Memory => 8,
        }
    }
}
