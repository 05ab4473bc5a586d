//! A split of a prize between two.
ghost use Rattle.std.specs.Prelude.{pos, Some, option_and_then};
ghost use Rattle.og_frac.specs.Fraction.{whole};
ghost use Rattle.og_frac.specs.Fitting.{ratio_of};
ghost use Rattle.og_native.specs.Answered.{Answers};
ghost use Rattle.og_native.specs.Mechanisms.{less, share, winnings, split};
ghost use Rattle.og_native.specs.Laws.{paid, shares, split_payoffs};

use crate::fault::NativeFault;
use crate::law::Law;
use crate::numbers::{less, one_number, paid, passed, two_numbers, with};
use og_frac::Frac;
use og_list::List;
use og_types::Value;
use std::alloc::Global;

/// A split of a prize between two by their stakes.
#[derive(Clone, Copy, Debug, PartialEq, Eq)]
pub struct Split {}

impl Law for Split {
    ghost forward = { λ law. shares };

    ghost backward = { λ law. split_payoffs };
}

/// One half.
fn half() -> Result<Frac, NativeFault>
    ensures { Answers (Some (record { numerator = pos 1; denominator = 2 })) result }
{
    passed(Frac::new(1, 2))
}

/// The first number by the second, and the third where that is 0.
fn ratio_of(x: Frac, y: Frac, z: Frac) -> Result<Frac, NativeFault>
    ensures { Answers (ratio_of x y z) result }
{
    if y.num() == 0 {
        Ok(z)
    } else {
        passed(x.ratio(y, z))
    }
}

/// The first's part of both stakes, and a half where these add up to 0.
fn share(x: Frac, y: Frac) -> Result<Frac, NativeFault>
    ensures { Answers (share x y) result }
{
    ratio_of(x, passed(x.add(y))?, half()?)
}

/// A part of the prize, less the stake.
fn winnings(prize: Frac, part: Frac, stake: Frac) -> Result<Frac, NativeFault>
    ensures { Answers (winnings prize part stake) result }
{
    less(passed(prize.mul(part))?, stake)
}

/// The second's winnings, by what the first's share leaves of the prize.
fn rest(prize: Frac, first_share: Frac, stake: Frac) -> Result<Frac, NativeFault>
    ensures { Answers (option_and_then (λ rest. winnings prize rest stake) (less (whole (pos 1)) first_share)) result }
{
    winnings(prize, less(Frac::whole(1), first_share)?, stake)
}

/// What each of the two gets.
fn parts(
    alloc: Global,
    first_share: Frac,
    x: Frac,
    y: Frac,
    prize: Frac,
) -> Result<List<Value>, NativeFault>
    ensures { Answers (paid (split first_share x y prize)) result }
{
    let first = winnings(prize, first_share, x)?;
    paid(alloc, first, rest(prize, first_share, y)?)
}

impl Split {
    /// The first's share at two stakes: its part of both, and a half where these add up to 0.
    pub fn play(&self, alloc: Global, inputs: &[Value]) -> Result<List<Value>, NativeFault>
        ensures { Answers (shares inputs.now) result }
    {
        let (x, y) = two_numbers(inputs)?;
        with(List::new(alloc), share(x, y)?)
    }

    /// What each of the two gets at two stakes and a prize: its share of the prize, less its stake.
    pub fn pay(
        &self,
        alloc: Global,
        inputs: &[Value],
        returns: &[Value],
    ) -> Result<List<Value>, NativeFault>
        ensures { Answers (split_payoffs inputs.now returns.now) result }
    {
        let (x, y) = two_numbers(inputs)?;
        let first_share = share(x, y)?;
        let prize = one_number(returns)?;
        parts(alloc, first_share, x, y, prize)
    }
}
