/// Why a block answers nothing.
#[derive(Clone, Copy, Debug, PartialEq, Eq)]
pub enum NativeFault {
    /// The block's law has no value there.
    Passes,
    /// There was no memory.
    Memory,
}
