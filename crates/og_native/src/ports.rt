ghost use Rattle.std.specs.Prelude.{◌≡◌, ◌↔◌, ◌∷◌, [], IfOk, IsTrue, true};
ghost use Rattle.og_native.specs.Ports.{auction_ports, split_ports, are_inputs, are_both, are_ports, same_ports};

use og_list::List;
use og_types::{Ty, Value, all_hold, copy_types};
use std::alloc::{AllocError, Global};

/// The types of a block's wires. Forwards it takes the inputs and gives the outputs; backwards it takes the
/// returns, beside the inputs, and gives the feedback.
#[derive(Debug, Drop)]
pub struct Ports {
    /// What it takes forwards.
    pub inputs: List<Ty>,
    /// What it gives backwards.
    pub feedback: List<Ty>,
    /// What it gives forwards.
    pub outputs: List<Ty>,
    /// What it takes backwards, beside the inputs.
    pub returns: List<Ty>,
}

impl Ports {
    /// Equal ports, in memory of their own.
    pub fn copy(&self, alloc: Global) -> Result<Ports, AllocError>
        ensures { IfOk result (λ made. made ≡ self.now) }
    {
        Ok(Ports {
            inputs: copy_types(alloc, &self.inputs)?,
            feedback: copy_types(alloc, &self.feedback)?,
            outputs: copy_types(alloc, &self.outputs)?,
            returns: copy_types(alloc, &self.returns)?,
        })
    }

    /// Whether the values are inputs of these ports.
    pub fn takes(&self, inputs: &List<Value>) -> bool
        ensures { result ≡ are_inputs self.now inputs.now }
    {
        all_hold(&self.inputs, inputs)
    }

    /// Whether the values are inputs and returns of these ports.
    pub fn takes_back(&self, inputs: &List<Value>, returns: &List<Value>) -> bool
        ensures { result ≡ are_both self.now (inputs.now, returns.now) }
    {
        all_hold(&self.inputs, inputs) && all_hold(&self.returns, returns)
    }

    /// Whether the two ports are equal.
    fn is_same(&self, other: &Ports) -> bool
        ensures { result ≡ same_ports self.now other.now }
    {
        self.inputs == other.inputs
            && self.feedback == other.feedback
            && self.outputs == other.outputs
            && self.returns == other.returns
    }
}

/// `==` answers true exactly at equal ports: those with the same types, in order, on each of the four sides.
impl PartialEq for Ports {
    ghost use Rattle.og_native.specs.Ports.{same_ports};
    ghost use Rattle.og_native.specs.PortsEquality.{ports_decide};
    ghost use Rattle.std.specs.Cmp.{decided, partial_equiv_from_equiv};

    ghost eq = { same_ports };

    ghost laws = { partial_equiv_from_equiv (decided same_ports ports_decide) };

    #[tactic(auto, using(crate::specs::PortsEquality::ports_decide))]
    fn eq(&self, other: &Ports) -> bool
        ensures same { result ≡ same_ports self.now other.now }
        ensures equal { IsTrue result ↔ (self.now ≡ other.now) }
    {
        self.is_same(other)
    }
}

impl Eq for Ports {
    ghost use Rattle.og_native.specs.Ports.{same_ports};
    ghost use Rattle.og_native.specs.PortsEquality.{ports_decide};
    ghost use Rattle.std.specs.Cmp.{decided};

    ghost laws = { decided same_ports ports_decide };
}

/// One number, on one side of some ports.
fn number(alloc: Global) -> Result<List<Ty>, AllocError>
    ensures { IfOk result (λ types. types ≡ Ty.Number ∷ []) }
{
    let mut types = List::new(alloc);
    types.add(Ty::Number)?;
    Ok(types)
}

/// Two numbers, on one side of some ports.
fn numbers(alloc: Global) -> Result<List<Ty>, AllocError>
    ensures { IfOk result (λ types. types ≡ Ty.Number ∷ Ty.Number ∷ []) }
{
    let mut types = number(alloc)?;
    types.add(Ty::Number)?;
    Ok(types)
}

/// The ports of an auction with two bidders: two bids, the number of the winner from 0 to 2, two worths and
/// two payoffs.
#[tactic(auto, using(crate::proofs::PortsLaws::auction_fits))]
pub fn auction_ports(alloc: Global) -> Result<Ports, AllocError>
    ensures same { IfOk result (λ ports. ports ≡ auction_ports) }
    ensures fit { IfOk result (λ ports. are_ports ports ≡ true) }
{
    let mut outputs = List::new(alloc);
    outputs.add(Ty::Range(0, 2))?;
    Ok(Ports {
        inputs: numbers(alloc)?,
        feedback: numbers(alloc)?,
        outputs,
        returns: numbers(alloc)?,
    })
}

/// The ports of a split: two stakes, the first's share, the prize and two payoffs.
#[tactic(auto, using(crate::proofs::PortsLaws::split_fits))]
pub fn split_ports(alloc: Global) -> Result<Ports, AllocError>
    ensures same { IfOk result (λ ports. ports ≡ split_ports) }
    ensures fit { IfOk result (λ ports. are_ports ports ≡ true) }
{
    Ok(Ports {
        inputs: numbers(alloc)?,
        feedback: numbers(alloc)?,
        outputs: number(alloc)?,
        returns: number(alloc)?,
    })
}
