ghost use Rattle.std.specs.Prelude.{◌≡◌, ◌<◌, ◌^◌, ◌↔◌, ◌≢◌, ◌+ℤ◌, ◌-ℤ◌, ◌*ℤ◌, pos, unsigned_abs, Ok, Err, Some};
ghost use Rattle.og_frac.specs.Fraction.{Fraction, in_lowest_terms, IsFrac, sum, difference, product, quotient, sign, order, total_order, floor, whole};
ghost use Rattle.std.specs.Ordering.{as_partial_cmp};
ghost use Rattle.std.proofs.Common.{refl};
ghost use Rattle.og_frac.specs.laws.Orders.{total_order_total, total_order_equal};
ghost use Rattle.std.specs.Cmp.{partial_order_from_agreeing_total};
ghost use Rattle.og_frac.specs.Frac.{IsExact};
ghost use Rattle.og_frac.specs.Fitting.{lesser, greater};
ghost use Rattle.og_frac.specs.Text.{text};

use crate::fault::FracFault;
use crate::wide::Wide;
use std::cmp::Ordering;
use std::fmt;
use std::marker::Model;

/// A rational number in lowest terms, with the sign in the numerator. Both parts are below 2^63 in
/// size, so a product of two of them has 126 bits and a sum of two products 127.
///
/// Each operation takes a constant number of operations on words of at most 128 bits, and beside them
/// at most one greatest common divisor, which it names.
#[derive(Clone, Copy, Debug, PartialEq, Eq)]
pub struct Frac {
    num: i64,
    den: u64,
}

impl Model for Frac {
    ghost Value = { Fraction };

    ghost view = { λ f. record { numerator = f.num; denominator = f.den } };

    ghost invariant = { λ f. IsFrac (record { numerator = f.num; denominator = f.den }) };

    ghost inverse = { λ q. record { num = q.numerator; den = q.denominator } };
}

/// The least number that neither part of a fraction reaches in size.
const LIMIT: u128 = 1 << 63;

/// The fraction in lowest terms, if it fits.
fn fit(num: i128, den: u128) -> Result<Frac, FracFault>
    requires positive { 0 < den }
    requires above_least { unsigned_abs num < 2 ^ 127 }
    ensures { IsExact result (in_lowest_terms (record { numerator = num; denominator = den })) }
{
    let wide = Wide::new(num, den);
    if wide.num.unsigned_abs() >= LIMIT || wide.den >= LIMIT {
        return Err(FracFault::Passes);
    }
    Ok(Frac {
        num: wide.num as i64,
        den: wide.den as u64,
    })
}

/// The product of two numbers below 2^63 in size, which has 126 bits.
fn multiply(first: i128, second: i128) -> i128
    requires first { unsigned_abs first < 2 ^ 63 }
    requires second { unsigned_abs second < 2 ^ 63 }
    ensures value { result ≡ first *ℤ second }
    ensures small { unsigned_abs result < 2 ^ 126 }
{
    first * second
}

/// The sum of two numbers below 2^126 in size, which has 127 bits.
fn add(first: i128, second: i128) -> i128
    requires first { unsigned_abs first < 2 ^ 126 }
    requires second { unsigned_abs second < 2 ^ 126 }
    ensures value { result ≡ first +ℤ second }
    ensures small { unsigned_abs result < 2 ^ 127 }
{
    first + second
}

/// The difference of two numbers below 2^126 in size, which has 127 bits.
fn subtract(first: i128, second: i128) -> i128
    requires first { unsigned_abs first < 2 ^ 126 }
    requires second { unsigned_abs second < 2 ^ 126 }
    ensures value { result ≡ first -ℤ second }
    ensures small { unsigned_abs result < 2 ^ 127 }
{
    first - second
}

/// The number, or its opposite where the other number is below 0.
fn times_sign(number: i128, other: i64) -> i128
    requires { unsigned_abs number < 2 ^ 126 }
    ensures value { result ≡ number *ℤ sign other }
    ensures small { unsigned_abs result < 2 ^ 127 }
{
    if other < 0 { -number } else { number }
}

impl Frac {
    /// The fraction n/d in lowest terms: one greatest common divisor, of n's size and d, and none where
    /// d is 0.
    pub fn new(n: i64, d: u64) -> Result<Frac, FracFault>
        ensures zero { (result ≡ Err FracFault.Zero) ↔ (d ≡ 0) }
        ensures exact { 0 < d → IsExact result (in_lowest_terms (record { numerator = n; denominator = d })) }
    {
        if d == 0 {
            return Err(FracFault::Zero);
        }
        fit(i128::from(n), u128::from(d))
    }

    /// The numerator, with the sign: no greatest common divisor.
    pub fn num(&self) -> i64
        ensures value { result ≡ self.now.numerator }
        ensures fraction { IsFrac self.now }
    {
        self.num
    }

    /// The denominator, above 0: no greatest common divisor.
    pub fn den(&self) -> u64
        ensures value { result ≡ self.now.denominator }
        ensures fraction { IsFrac self.now }
    {
        self.den
    }

    /// The sum: one greatest common divisor, of its two parts over the product of the denominators.
    #[tactic(auto, unfolding(crate::specs::Fraction::sum))]
    pub fn add(self, by: Frac) -> Result<Frac, FracFault>
        ensures exact { IsExact result (sum self by) }
    {
        let first = multiply(i128::from(self.num), i128::from(by.den));
        let second = multiply(i128::from(by.num), i128::from(self.den));
        fit(
            add(first, second),
            u128::from(self.den) * u128::from(by.den),
        )
    }

    /// The difference: one greatest common divisor, of its two parts over the product of the
    /// denominators.
    #[tactic(auto, unfolding(crate::specs::Fraction::difference))]
    pub fn sub(self, by: Frac) -> Result<Frac, FracFault>
        ensures exact { IsExact result (difference self by) }
    {
        let first = multiply(i128::from(self.num), i128::from(by.den));
        let second = multiply(i128::from(by.num), i128::from(self.den));
        fit(
            subtract(first, second),
            u128::from(self.den) * u128::from(by.den),
        )
    }

    /// The product: one greatest common divisor, of the numerators' product and the denominators'.
    #[tactic(auto, unfolding(crate::specs::Fraction::product))]
    pub fn mul(self, by: Frac) -> Result<Frac, FracFault>
        ensures exact { IsExact result (product self by) }
    {
        let num = multiply(i128::from(self.num), i128::from(by.num));
        fit(num, u128::from(self.den) * u128::from(by.den))
    }

    /// The lesser of the two, and the first where neither is less.
    pub fn lesser(self, other: Frac) -> Frac
        ensures { result ≡ lesser self other }
    {
        match self.cmp(&other) {
            Ordering::Greater => other,
            _ => self,
        }
    }

    /// The greater of the two, and the first where neither is greater.
    pub fn greater(self, other: Frac) -> Frac
        ensures { result ≡ greater self other }
    {
        match self.cmp(&other) {
            Ordering::Less => other,
            _ => self,
        }
    }

    /// The quotient, or what is given for it where the divisor is 0: one greatest common divisor, of the
    /// two products crosswise, and none where the divisor is 0.
    #[tactic(auto, unfolding(crate::specs::Fraction::quotient))]
    pub fn ratio(self, by: Frac, otherwise: Frac) -> Result<Frac, FracFault>
        ensures zero { by.numerator ≡ pos 0 → result ≡ Ok otherwise }
        ensures exact { by.numerator ≢ pos 0 → IsExact result (quotient self by) }
    {
        if by.num == 0 {
            return Ok(otherwise);
        }
        let num = multiply(i128::from(self.num), i128::from(by.den));
        let size = u128::from(by.num.unsigned_abs());
        fit(times_sign(num, by.num), u128::from(self.den) * size)
    }

    /// The greatest whole number that is not above the fraction: one division and no greatest common
    /// divisor.
    #[tactic(auto, using(crate::proofs::LowestTerms::euclidean), unfolding(crate::specs::Fraction::floor))]
    pub fn floor(self) -> i64
        ensures { result ≡ floor self }
    {
        self.num.div_euclid(self.den as i64)
    }

    /// The whole number as a fraction: a constant number of operations on words.
    #[tactic(auto, using(crate::proofs::Wholes::whole_is))]
    pub fn whole(n: i64) -> Frac
        requires { unsigned_abs n < 2 ^ 63 }
        ensures { result ≡ whole n }
    {
        Frac { num: n, den: 1 }
    }
}

/// By value: two products and no greatest common divisor.
impl Ord for Frac {
    ghost cmp = { total_order };

    ghost total = { total_order_total };

    ghost matches_partial_cmp = { λ a b. refl };

    ghost matches_eq = { total_order_equal };

    #[tactic(auto, unfolding(crate::specs::Fraction::order))]
    fn cmp(&self, other: &Frac) -> Ordering
        ensures value { result ≡ order self.now other.now }
        ensures total { result ≡ total_order self.now other.now }
    {
        let first = multiply(i128::from(self.num), i128::from(other.den));
        let second = multiply(i128::from(other.num), i128::from(self.den));
        first.cmp(&second)
    }
}

/// By value, as `Ord`.
impl PartialOrd for Frac {
    ghost partial_cmp = { as_partial_cmp total_order };

    ghost laws = { partial_order_from_agreeing_total total_order total_order_total (λ a b. refl) total_order_equal };

    fn partial_cmp(&self, other: &Frac) -> Option<Ordering>
        ensures value { result ≡ Some (order self.now other.now) }
        ensures total { result ≡ as_partial_cmp total_order self.now other.now }
    {
        Some(self.cmp(other))
    }
}

/// Prints `n` for a whole number, and `n/d` otherwise: no greatest common divisor.
impl fmt::Display for Frac {
    ghost output = { λ q. Some (text q) };

    fn fmt<W: fmt::Write>(&self, f: &mut fmt::Formatter<W>) -> fmt::Result {
        let num = self.num;
        let den = self.den;
        if den == 1 {
            write!(f, "{num}")
        } else {
            write!(f, "{num}/{den}")
        }
    }
}
