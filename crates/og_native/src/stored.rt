ghost use Rattle.std.specs.Prelude.{◌≡◌, true, IfOk, Ok, List};
ghost use Rattle.og_types.specs.declared.value.Value.{Value};
ghost use Rattle.og_native.specs.Answered.{Answers};
ghost use Rattle.og_native.specs.Lawful.{IsLawful, AlwaysDecides};
ghost use Rattle.og_native.specs.Gives.{Gives, GivesBack, Tells, CanTell, TellsBack, CanTellBack};
ghost use Rattle.og_native.specs.Ports.{are_inputs, are_outputs, are_returns, are_feedback, are_ports, are_both};

use crate::fault::NativeFault;
use crate::law::Law;
use crate::ports::Ports;
use og_list::{List, Text};
use og_types::Value;
use std::alloc::Global;

/// A boxed closure that plays: from inputs to outputs.
pub type Play = Box<dyn Fn(Global, &[Value]) -> Result<List<Value>, NativeFault>>;

/// A boxed closure that pays: from inputs and returns to feedback.
pub type Pay = Box<dyn Fn(Global, &[Value], &[Value]) -> Result<List<Value>, NativeFault>>;

/// A block: its name, its ports, and two boxed closures, of which it is known that each keeps a law, and that at
/// values of the ports it can answer other than that there is no memory.
#[derive(Drop)]
pub struct StoredLens {
    name: Text,
    ports: Ports,
    play: Play,
    pay: Pay,
    ghost ports_fit: { are_ports ports ≡ true },
    ghost play_taken: { (a : _) (xs : _) → are_inputs ports xs.now ≡ true → Play.pre play a xs },
    ghost play_lawful: { IsLawful (are_inputs ports) (Gives (Play.post play)) },
    ghost play_decides: { AlwaysDecides (are_inputs ports) (Gives (Play.post play)) },
    ghost play_inside: { (a : _) (xs : _) (ys : List Value) → are_inputs ports xs.now ≡ true
        → Play.post play a xs (Ok ys) → are_outputs ports ys ≡ true },
    ghost pay_taken: { (a : _) (xs : _) (rs : _) → are_both ports (xs.now, rs.now) ≡ true → Pay.pre pay a xs rs },
    ghost pay_lawful: { IsLawful (are_both ports) (GivesBack (Pay.post pay)) },
    ghost pay_decides: { AlwaysDecides (are_both ports) (GivesBack (Pay.post pay)) },
    ghost pay_inside: { (a : _) (xs : _) (rs : _) (ys : List Value) → are_both ports (xs.now, rs.now) ≡ true
        → Pay.post pay a xs rs (Ok ys) → are_feedback ports ys ≡ true },
}

impl StoredLens {
    ghost use Rattle.og_native.specs.Block.{forward_of, backward_of};

    /// The block with the name and the ports whose closures keep the law: at values of the ports each of them
    /// may be called, answers what the law says or that there is no memory, and may answer what the law says.
    pub fn new<L: Law + Drop>(name: Text, ports: Ports, _law: L, play: Play, pay: Pay) -> StoredLens
        requires fit { are_ports ports ≡ true }
        requires play_taken { (a : _) (xs : _) → are_inputs ports xs.now ≡ true → Play.pre play a xs }
        requires play_tells { Tells (Play.post play) (are_inputs ports) (L.forward _law) }
        requires play_can_tell { CanTell (Play.post play) (are_inputs ports) (L.forward _law) }
        requires play_inside { (a : _) (xs : _) (ys : List Value) → are_inputs ports xs.now ≡ true
            → Play.post play a xs (Ok ys) → are_outputs ports ys ≡ true }
        requires pay_taken { (a : _) (xs : _) (rs : _) → are_both ports (xs.now, rs.now) ≡ true
            → Pay.pre pay a xs rs }
        requires pay_tells { TellsBack (Pay.post pay) (are_both ports) (L.backward _law) }
        requires pay_can_tell { CanTellBack (Pay.post pay) (are_both ports) (L.backward _law) }
        requires pay_inside { (a : _) (xs : _) (rs : _) (ys : List Value) → are_both ports (xs.now, rs.now) ≡ true
            → Pay.post pay a xs rs (Ok ys) → are_feedback ports ys ≡ true }
        ensures name { result.name ≡ name }
        ensures ports { result.ports ≡ ports }
        ensures forward { (xs : List Value) → are_inputs ports xs ≡ true → forward_of result xs ≡ L.forward _law xs }
        ensures backward { (xs rs : List Value) → are_both ports (xs, rs) ≡ true
            → backward_of result xs rs ≡ L.backward _law xs rs }
    {
        StoredLens {
            name,
            ports,
            play,
            pay,
        }
    }

    /// Its name.
    pub fn name(&self) -> &str
        ensures { result.now ≡ self.now.name }
    {
        self.name.as_str()
    }

    /// Its ports.
    pub fn ports(&self) -> &Ports
        ensures same { result.now ≡ self.now.ports }
        ensures fit { are_ports result.now ≡ true }
    {
        &self.ports
    }

    /// What it plays at these inputs.
    pub fn play(&self, alloc: Global, inputs: &[Value]) -> Result<List<Value>, NativeFault>
        requires { are_inputs self.now.ports inputs.now ≡ true }
        ensures law { Answers (forward_of self.now inputs.now) result }
        ensures inside { IfOk result (λ outputs. are_outputs self.now.ports outputs ≡ true) }
    {
        self.ask(alloc, inputs)
    }

    /// What it pays at these inputs and returns.
    pub fn pay(
        &self,
        alloc: Global,
        inputs: &[Value],
        returns: &[Value],
    ) -> Result<List<Value>, NativeFault>
        requires { are_both self.now.ports (inputs.now, returns.now) ≡ true }
        ensures law { Answers (backward_of self.now inputs.now returns.now) result }
        ensures inside { IfOk result (λ feedback. are_feedback self.now.ports feedback ≡ true) }
    {
        self.ask_back(alloc, inputs, returns)
    }

    // What the first closure answers.
    fn ask(&self, alloc: Global, inputs: &[Value]) -> Result<List<Value>, NativeFault>
        requires { are_inputs self.now.ports inputs.now ≡ true }
        ensures { Play.post self.now.play alloc inputs.entry result }
    {
        (self.play)(alloc, inputs)
    }

    // What the second closure answers.
    fn ask_back(
        &self,
        alloc: Global,
        inputs: &[Value],
        returns: &[Value],
    ) -> Result<List<Value>, NativeFault>
        requires { are_both self.now.ports (inputs.now, returns.now) ≡ true }
        ensures { Pay.post self.now.pay alloc inputs.entry returns.entry result }
    {
        (self.pay)(alloc, inputs, returns)
    }
}
