ghost use Rattle.std.specs.Prelude.{◌≡◌, ℕ, List, Option};
ghost use Rattle.og_types.specs.declared.value.Value.{Value};
ghost use Rattle.og_native.specs.Answered.{Answers};

use crate::fault::NativeFault;
use crate::library::Library;
use og_list::List;
use og_types::Value;
use std::alloc::Global;

/// Blocks that are asked by number, forwards and backwards.
pub trait Blocks {
    /// From a block's number and its inputs to its outputs.
    ghost plays: { Self → ℕ → List Value → Option (List Value) };

    /// From a block's number, its inputs and its returns to its feedback.
    ghost pays: { Self → ℕ → List Value → List Value → Option (List Value) };

    /// What the block with the number plays.
    fn play(
        &self,
        alloc: Global,
        number: u32,
        inputs: &List<Value>,
    ) -> Result<List<Value>, NativeFault>
        ensures { Answers (plays self.now number inputs.now) result };

    /// What the block with the number pays.
    fn pay(
        &self,
        alloc: Global,
        number: u32,
        inputs: &List<Value>,
        returns: &List<Value>,
    ) -> Result<List<Value>, NativeFault>
        ensures { Answers (pays self.now number inputs.now returns.now) result };
}

/// A number without a block, and values that aren't of the block's ports, have no answer.
impl Blocks for Library {
    ghost use Rattle.og_native.specs.Asked.{plays_of, pays_of};

    ghost plays = { plays_of };

    ghost pays = { pays_of };

    fn play(
        &self,
        alloc: Global,
        number: u32,
        inputs: &List<Value>,
    ) -> Result<List<Value>, NativeFault> {
        match self.block(number) {
            Some(block) => {
                if block.ports().takes(inputs) {
                    block.play(alloc, inputs.as_slice())
                } else {
                    Err(NativeFault::Passes)
                }
            }
            None => Err(NativeFault::Passes),
        }
    }

    fn pay(
        &self,
        alloc: Global,
        number: u32,
        inputs: &List<Value>,
        returns: &List<Value>,
    ) -> Result<List<Value>, NativeFault> {
        match self.block(number) {
            Some(block) => {
                if block.ports().takes_back(inputs, returns) {
                    block.pay(alloc, inputs.as_slice(), returns.as_slice())
                } else {
                    Err(NativeFault::Passes)
                }
            }
            None => Err(NativeFault::Passes),
        }
    }
}
