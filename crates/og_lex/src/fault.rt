/// Why a text has no tokens. A place is the offset of the first byte at which no token starts.
#[derive(Clone, Copy, Debug, PartialEq, Eq)]
pub enum LexFault {
    /// A character stands here that begins no token.
    BadChar(u32),
    /// A double quote stands here, and a control character or the end of the text comes before the
    /// one that would end it.
    OpenText(u32),
    /// Digits stand here whose value is above 2^63 - 1.
    WideNumber(u32),
    /// There was no memory for the list of tokens.
    Memory,
}
