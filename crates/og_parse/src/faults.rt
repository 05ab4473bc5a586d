/// Why a text isn't read.
#[derive(Clone, Copy, Debug, PartialEq, Eq)]
pub enum ParseFault {
    /// The tokens before the one of this number may begin a text, and those through it may not. It is counted from 0;
    /// the number of all tokens stands for their end.
    Syntax(u32),
    /// The token of this number, counted from 0, is the first that is too deep: it opens a bracket while 64 are open, or
    /// it is the 33rd `>>>` or `&&&` of one game outside inner brackets.
    Deep(u32),
    /// There was no memory for the tree.
    Memory,
}
