ghost use Rattle.std.specs.Prelude.{◌≡◌, ℕ, ◌<◌, ◌≤◌, ◌^◌, ◌*◌, ◌/◌, ◌↔◌, ◌*ℤ◌, ◌+ℤ◌, pos, unsigned_abs, Ok, Err, Some, MatchOption};
ghost use Rattle.std.specs.Option.{ForSome, SomeIff};
ghost use Rattle.og_frac.specs.Fraction.{least_common_multiple};
ghost use Rattle.og_frac.specs.Terms.{common_denominator, size_over, value_over, absolute_over, IsBelowLimit, AllFracs, IsSumWithin, IsExactSum};

use crate::divisor::greatest_common_divisor;
use crate::fault::SumFault;
use crate::frac::Frac;
use crate::wide::with_sign_of;

/// The greatest sum of sizes, of 126 bits.
const GREATEST: u128 = (1 << 126) - 1;

/// A payment that counts as often as its weight says.
#[derive(Clone, Copy, Debug, PartialEq, Eq)]
pub struct Term {
    /// How often the payment counts.
    pub weight: u64,
    /// The payment.
    pub pay: Frac,
}

/// The sum of terms, as a numerator over a common denominator.
#[derive(Clone, Copy, Debug, PartialEq, Eq)]
pub struct Sum {
    /// The least common multiple of the denominators.
    pub common: u64,
    /// The numerator of the sum of the payments' sizes.
    pub absolute: u128,
    /// The numerator of the sum.
    pub value: i128,
}

/// The least common multiple of two numbers below 2^63, which is below 2^126: one greatest common
/// divisor.
#[tactic(auto, using(crate::proofs::Divisors::greatest_common_divisor_positive), unfolding(crate::specs::Fraction::least_common_multiple))]
pub fn least_common_multiple(first: u64, second: u64) -> u128
    requires first { first < 2 ^ 63 }
    requires second { second < 2 ^ 63 }
    requires positive { 0 < second }
    ensures { result ≡ least_common_multiple first second }
{
    let first = u128::from(first);
    let second = u128::from(second);
    first * (second / greatest_common_divisor(first, second))
}

/// The least common multiple with one more number, if that is below 2^63.
#[tactic(auto, using(crate::proofs::Multiples::multiple_above))]
fn common_with(common: Option<u64>, den: u64) -> Option<u64>
    requires positive { 0 < den }
    requires small { den < 2 ^ 63 }
    requires common { ForSome common (λ c. (0 < c) × (c < 2 ^ 63)) }
    ensures { (m : ℕ) → 0 < m → IsBelowLimit common m → IsBelowLimit result (least_common_multiple den m) }
{
    let common = common?;
    let next = least_common_multiple(den, common);
    if next < 1 << 63 {
        Some(next as u64)
    } else {
        None
    }
}

/// The least common multiple of the denominators, if it is below 2^63. It goes over all terms also
/// where that is known early, since it is from the terms that each denominator is above 0.
fn common_denominator(terms: &[Term]) -> Option<u64>
    ensures common { IsBelowLimit result (common_denominator terms.now) }
    ensures fractions { AllFracs terms.now }
{
    let mut common = Some(1);
    'terms: for term in terms {
        common = common_with(common, term.pay.den());
    }
    common
}

/// What a term adds to the sum of sizes, if that is below 2^128. The weight times the numerator's
/// size is below 2^127.
fn size(term: &Term, common: u64) -> Option<u128>
    ensures { SomeIff result (size_over common term.now < 2 ^ 128) (size_over common term.now) }
{
    let weighted = u128::from(term.weight) * u128::from(term.pay.num().unsigned_abs());
    weighted.checked_mul(u128::from(common / term.pay.den()))
}

/// The sum over the common denominator, if its sizes add up to at most `room`. Each term is tested
/// against the room that is left before it is added, so no step overflows: the sum of sizes stays
/// below 2^126, and the sum's own size below that.
fn sum_over(terms: &[Term], common: u64, room: u128) -> Option<Sum>
    requires { room < 2 ^ 126 }
    ensures { MatchOption result (room < absolute_over common terms.now) (IsSumWithin terms.now common room) }
{
    let mut absolute = 0u128;
    let mut value = 0i128;
    'terms: for term in terms {
        let Some(size) = size(term, common) else {
            return None;
        };
        if size > room - absolute {
            return None;
        }
        absolute += size;
        value += with_sign_of(i128::from(term.pay.num()), size);
    }
    Some(Sum {
        common,
        absolute,
        value,
    })
}

impl Sum {
    /// The sum of the terms over the least common multiple of their denominators, where that many
    /// times the sum of sizes still has room in 126 bits. For each term it takes at most one greatest
    /// common divisor, of the term's denominator and the multiple so far, with a division, then at most
    /// one division more, and a constant number of other operations on words; and one division in all
    /// for the room.
    #[tactic(auto, using(crate::proofs::TermLaws::common_denominator_positive))]
    pub fn of(terms: &[Term], times: u64) -> Result<Sum, SumFault>
        requires { 1 ≤ times }
        ensures { IsExactSum terms.now times result }
    {
        let Some(common) = common_denominator(terms) else {
            return Err(SumFault::Passes);
        };
        match sum_over(terms, common, GREATEST / u128::from(times)) {
            Some(sum) => Ok(sum),
            None => Err(SumFault::Passes),
        }
    }

    /// The numerator of the terms' sum over a denominator that all of them share: a division and a
    /// constant number of operations on words for each term, and no greatest common divisor.
    pub fn part(terms: &[Term], common: u64) -> i128
        requires { absolute_over common terms.now < 2 ^ 126 }
        ensures { result ≡ value_over common terms.now }
    {
        match sum_over(terms, common, GREATEST) {
            Some(sum) => sum.value,
            None => 0,
        }
    }
}
