ghost use Rattle.std.specs.Prelude.{◌≡◌, ◌<◌, ◌^◌, unsigned_abs, ◌*ℤ◌, pos, Some};
ghost use Rattle.og_frac.specs.Fraction.{Fraction, in_lowest_terms, IsInLowestTerms, sign};
ghost use Rattle.og_frac.specs.Text.{text};

use crate::divisor::greatest_common_divisor;
use std::fmt;
use std::marker::Model;

/// A fraction in lowest terms whose parts have 128 bits, as reports print it.
#[derive(Clone, Copy, Debug, PartialEq, Eq)]
pub struct Wide {
    /// The numerator, with the sign.
    pub num: i128,
    /// The denominator, above 0.
    pub den: u128,
}

impl Model for Wide {
    ghost Value = { Fraction };

    ghost view = { λ w. record { numerator = w.num; denominator = w.den } };

    ghost invariant = { λ w. IsInLowestTerms (record { numerator = w.num; denominator = w.den }) };

    ghost inverse = { λ q. record { num = q.numerator; den = q.denominator } };
}

impl Wide {
    /// The fraction in lowest terms: one greatest common divisor, of the numerator's size and the
    /// denominator, two divisions and a constant number of other operations on words.
    #[tactic(auto, using(crate::proofs::Divisors::greatest_common_divisor_positive))]
    pub fn new(num: i128, den: u128) -> Wide
        requires positive { 0 < den }
        requires above_least { unsigned_abs num < 2 ^ 127 }
        ensures value { result ≡ in_lowest_terms (record { numerator = num; denominator = den }) }
        ensures lowest { IsInLowestTerms result }
        ensures above_least { unsigned_abs result.numerator < 2 ^ 127 }
    {
        let size = num.unsigned_abs();
        let common = greatest_common_divisor(size, den);
        Wide {
            num: with_sign_of(num, size / common),
            den: den / common,
        }
    }
}

/// Prints `n` for a whole number, and `n/d` otherwise: no greatest common divisor.
impl fmt::Display for Wide {
    ghost output = { λ q. Some (text q) };

    fn fmt<W: fmt::Write>(&self, f: &mut fmt::Formatter<W>) -> fmt::Result {
        let num = self.num;
        let den = self.den;
        if den == 1 {
            write!(f, "{num}")
        } else {
            write!(f, "{num}/{den}")
        }
    }
}

/// The number of this size with the sign of the other number.
pub fn with_sign_of(other: i128, size: u128) -> i128
    requires { size < 2 ^ 127 }
    ensures value { result ≡ sign other *ℤ pos size }
    ensures size { unsigned_abs result ≡ size }
{
    let number = size as i128;
    if other < 0 { -number } else { number }
}
