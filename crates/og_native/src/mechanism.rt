//! The mechanisms that the program brings.
ghost use Rattle.std.specs.Prelude.{◌≡◌, IfOk, true};
ghost use Rattle.og_native.specs.Answered.{Answers};
ghost use Rattle.og_native.specs.Ports.{are_ports};
ghost use Rattle.og_native.specs.Shipped.{name_of, ports_of, played, payoffs, shipped};

use crate::auction::{AllPay, FirstPrice, SecondPrice, Tie};
use crate::fault::NativeFault;
use crate::law::Law;
use crate::ports::{Ports, auction_ports, split_ports};
use crate::split::Split;
use og_frac::Frac;
use og_list::List;
use og_types::Value;
use std::alloc::{AllocError, Global};

/// One of the mechanisms.
#[derive(Clone, Copy, Debug, PartialEq, Eq)]
pub enum Mechanism {
    /// A sealed auction whose winner pays its own bid.
    FirstPrice(FirstPrice),
    /// A sealed auction whose winner pays the other's bid, or the reserve.
    SecondPrice(SecondPrice),
    /// A sealed auction where both pay their own bids.
    AllPay(AllPay),
    /// A split of a prize by stakes.
    Split(Split),
}

impl Law for Mechanism {
    ghost forward = { λ law. played law };

    ghost backward = { λ law. payoffs law };
}

impl Mechanism {
    /// The name that it has in texts.
    pub fn name(&self) -> &'static str
        ensures { result.now ≡ name_of self.now }
    {
        match self {
            Mechanism::FirstPrice(_) => "first_price2",
            Mechanism::SecondPrice(_) => "second_price2",
            Mechanism::AllPay(_) => "all_pay2",
            Mechanism::Split(_) => "split2",
        }
    }

    /// The types of its wires.
    pub fn ports(&self, alloc: Global) -> Result<Ports, AllocError>
        ensures same { IfOk result (λ ports. ports ≡ ports_of self.now) }
        ensures fit { IfOk result (λ ports. are_ports ports ≡ true) }
    {
        match self {
            Mechanism::Split(_) => split_ports(alloc),
            _ => auction_ports(alloc),
        }
    }

    /// Its outputs at these inputs.
    pub fn play(&self, alloc: Global, inputs: &[Value]) -> Result<List<Value>, NativeFault>
        ensures { Answers (played self.now inputs.now) result }
    {
        match self {
            Mechanism::FirstPrice(m) => m.play(alloc, inputs),
            Mechanism::SecondPrice(m) => m.play(alloc, inputs),
            Mechanism::AllPay(m) => m.play(alloc, inputs),
            Mechanism::Split(m) => m.play(alloc, inputs),
        }
    }

    /// Its feedback at these inputs and returns.
    pub fn pay(
        &self,
        alloc: Global,
        inputs: &[Value],
        returns: &[Value],
    ) -> Result<List<Value>, NativeFault>
        ensures { Answers (payoffs self.now inputs.now returns.now) result }
    {
        match self {
            Mechanism::FirstPrice(m) => m.pay(alloc, inputs, returns),
            Mechanism::SecondPrice(m) => m.pay(alloc, inputs, returns),
            Mechanism::AllPay(m) => m.pay(alloc, inputs, returns),
            Mechanism::Split(m) => m.pay(alloc, inputs, returns),
        }
    }
}

/// The four that the program brings, with reserve 0 and ties to the first bidder.
pub fn shipped() -> [Mechanism; 4]
    ensures { result ≡ shipped }
{
    let reserve = Frac::whole(0);
    let tie = Tie::First;
    [
        Mechanism::FirstPrice(FirstPrice { reserve, tie }),
        Mechanism::SecondPrice(SecondPrice { reserve, tie }),
        Mechanism::AllPay(AllPay { reserve, tie }),
        Mechanism::Split(Split {}),
    ]
}
