/// Why a call on fractions has no answer.
#[derive(Clone, Copy, Debug, PartialEq, Eq)]
pub enum FracFault {
    /// A denominator of 0 was given.
    Zero,
    /// The exact number in lowest terms has a part that is 2^63 or more.
    Passes,
}

/// Why a sum of terms has no answer.
#[derive(Clone, Copy, Debug, PartialEq, Eq)]
pub enum SumFault {
    /// The common denominator is 2^63 or more, or the sum of the sizes that many times over is 2^126
    /// or more.
    Passes,
}
