//! Auctions with two bidders.
ghost use Rattle.std.specs.Prelude.{◌≡◌};
ghost use Rattle.og_native.specs.Answered.{Answers};
ghost use Rattle.og_native.specs.Mechanisms.{winner, first_price, second_price, all_pay};
ghost use Rattle.og_native.specs.Laws.{paid, auction};
ghost use Rattle.og_native.specs.Laws.{first_price_payoffs, second_price_payoffs, all_pay_payoffs};

use crate::fault::NativeFault;
use crate::law::Law;
use crate::numbers::{less, paid, two_numbers, with};
use og_frac::Frac;
use og_list::List;
use og_types::Value;
use std::alloc::Global;
use std::cmp::Ordering;

/// Who wins where both bid the same.
#[derive(Clone, Copy, Debug, PartialEq, Eq)]
pub enum Tie {
    /// The first bidder.
    First,
    /// The second bidder.
    Second,
}

/// Who wins an auction.
#[derive(Clone, Copy, Debug, PartialEq, Eq)]
pub enum Winner {
    /// Neither, since both bids are below the reserve.
    Nobody,
    /// The first bidder.
    First,
    /// The second bidder.
    Second,
}

/// Who wins at bids `x` and `y`.
fn winner_of(reserve: Frac, tie: Tie, x: Frac, y: Frac) -> Winner
    ensures { result ≡ winner reserve tie x y }
{
    if x.cmp(&reserve).is_lt() && y.cmp(&reserve).is_lt() {
        return Winner::Nobody;
    }
    match (x.cmp(&y), tie) {
        (Ordering::Greater, _) | (Ordering::Equal, Tie::First) => Winner::First,
        (Ordering::Less, _) | (Ordering::Equal, Tie::Second) => Winner::Second,
    }
}

/// The winner's number at two bids, the same for each rule of payment.
fn play(reserve: Frac, tie: Tie, alloc: Global, bids: &[Value]) -> Result<List<Value>, NativeFault>
    ensures { Answers (auction reserve tie bids.now) result }
{
    let (x, y) = two_numbers(bids)?;
    let number = match winner_of(reserve, tie, x, y) {
        Winner::Nobody => 0,
        Winner::First => 1,
        Winner::Second => 2,
    };
    with(List::new(alloc), Frac::whole(number))
}

/// What the bidders get where the winner pays its own bid.
fn first_price(
    alloc: Global,
    winner: Winner,
    x: Frac,
    y: Frac,
    v: Frac,
    w: Frac,
) -> Result<List<Value>, NativeFault>
    ensures { Answers (paid (first_price winner x y v w)) result }
{
    let zero = Frac::whole(0);
    match winner {
        Winner::First => paid(alloc, less(v, x)?, zero),
        Winner::Second => paid(alloc, zero, less(w, y)?),
        Winner::Nobody => paid(alloc, zero, zero),
    }
}

/// What the bidders get where the winner pays the other's bid, or the reserve where that is greater.
fn second_price(
    alloc: Global,
    reserve: Frac,
    winner: Winner,
    x: Frac,
    y: Frac,
    v: Frac,
    w: Frac,
) -> Result<List<Value>, NativeFault>
    ensures { Answers (paid (second_price reserve winner x y v w)) result }
{
    let zero = Frac::whole(0);
    match winner {
        Winner::First => paid(alloc, less(v, y.greater(reserve))?, zero),
        Winner::Second => paid(alloc, zero, less(w, x.greater(reserve))?),
        Winner::Nobody => paid(alloc, zero, zero),
    }
}

/// What the bidders get where both pay their own bids.
fn all_pay(
    alloc: Global,
    winner: Winner,
    x: Frac,
    y: Frac,
    v: Frac,
    w: Frac,
) -> Result<List<Value>, NativeFault>
    ensures { Answers (paid (all_pay winner x y v w)) result }
{
    let zero = Frac::whole(0);
    match winner {
        Winner::First => paid(alloc, less(v, x)?, less(zero, y)?),
        Winner::Second => paid(alloc, less(zero, x)?, less(w, y)?),
        Winner::Nobody => paid(alloc, less(zero, x)?, less(zero, y)?),
    }
}

/// A sealed auction whose winner pays its own bid.
#[derive(Clone, Copy, Debug, PartialEq, Eq)]
pub struct FirstPrice {
    /// No bid below it wins.
    pub reserve: Frac,
    /// Who wins where both bid the same.
    pub tie: Tie,
}

impl Law for FirstPrice {
    ghost forward = { λ law. auction law.reserve law.tie };

    ghost backward = { λ law. first_price_payoffs law.reserve law.tie };
}

impl FirstPrice {
    /// The winner's number at two bids: 1 or 2, or 0 where both are below the reserve.
    pub fn play(&self, alloc: Global, inputs: &[Value]) -> Result<List<Value>, NativeFault>
        ensures { Answers (auction self.now.reserve self.now.tie inputs.now) result }
    {
        play(self.reserve, self.tie, alloc, inputs)
    }

    /// What the bidders get at two bids and their worths: the winner its worth less its bid, and the other 0.
    pub fn pay(
        &self,
        alloc: Global,
        inputs: &[Value],
        returns: &[Value],
    ) -> Result<List<Value>, NativeFault>
        ensures { Answers (first_price_payoffs self.now.reserve self.now.tie inputs.now returns.now) result }
    {
        let (x, y) = two_numbers(inputs)?;
        let (v, w) = two_numbers(returns)?;
        let winner = winner_of(self.reserve, self.tie, x, y);
        first_price(alloc, winner, x, y, v, w)
    }
}

/// A sealed auction whose winner pays the other's bid, or the reserve where that is greater.
#[derive(Clone, Copy, Debug, PartialEq, Eq)]
pub struct SecondPrice {
    /// No bid below it wins.
    pub reserve: Frac,
    /// Who wins where both bid the same.
    pub tie: Tie,
}

impl Law for SecondPrice {
    ghost forward = { λ law. auction law.reserve law.tie };

    ghost backward = { λ law. second_price_payoffs law.reserve law.tie };
}

impl SecondPrice {
    /// The winner's number at two bids: 1 or 2, or 0 where both are below the reserve.
    pub fn play(&self, alloc: Global, inputs: &[Value]) -> Result<List<Value>, NativeFault>
        ensures { Answers (auction self.now.reserve self.now.tie inputs.now) result }
    {
        play(self.reserve, self.tie, alloc, inputs)
    }

    /// What the bidders get at two bids and their worths: the winner its worth less the greater of the other's
    /// bid and the reserve, and the other 0.
    pub fn pay(
        &self,
        alloc: Global,
        inputs: &[Value],
        returns: &[Value],
    ) -> Result<List<Value>, NativeFault>
        ensures { Answers (second_price_payoffs self.now.reserve self.now.tie inputs.now returns.now) result }
    {
        let (x, y) = two_numbers(inputs)?;
        let (v, w) = two_numbers(returns)?;
        let winner = winner_of(self.reserve, self.tie, x, y);
        second_price(alloc, self.reserve, winner, x, y, v, w)
    }
}

/// A sealed auction where both pay their own bids.
#[derive(Clone, Copy, Debug, PartialEq, Eq)]
pub struct AllPay {
    /// No bid below it wins.
    pub reserve: Frac,
    /// Who wins where both bid the same.
    pub tie: Tie,
}

impl Law for AllPay {
    ghost forward = { λ law. auction law.reserve law.tie };

    ghost backward = { λ law. all_pay_payoffs law.reserve law.tie };
}

impl AllPay {
    /// The winner's number at two bids: 1 or 2, or 0 where both are below the reserve.
    pub fn play(&self, alloc: Global, inputs: &[Value]) -> Result<List<Value>, NativeFault>
        ensures { Answers (auction self.now.reserve self.now.tie inputs.now) result }
    {
        play(self.reserve, self.tie, alloc, inputs)
    }

    /// What the bidders get at two bids and their worths: the winner its worth less its bid, and each other
    /// one 0 less its bid.
    pub fn pay(
        &self,
        alloc: Global,
        inputs: &[Value],
        returns: &[Value],
    ) -> Result<List<Value>, NativeFault>
        ensures { Answers (all_pay_payoffs self.now.reserve self.now.tie inputs.now returns.now) result }
    {
        let (x, y) = two_numbers(inputs)?;
        let (v, w) = two_numbers(returns)?;
        let winner = winner_of(self.reserve, self.tie, x, y);
        all_pay(alloc, winner, x, y, v, w)
    }
}
