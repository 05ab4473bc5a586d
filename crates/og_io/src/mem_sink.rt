ghost use Rattle.std.specs.Prelude.{◌≡◌, ◌≢◌, ℕ, ◌≤◌, ◌+◌, ◌-◌, [], ◌∷◌, ◌++◌, Some, None, OnOk, OnErr, length, vec_len, vec_capacity};
ghost use Rattle.og_io.specs.Outside.{Puts};
ghost use Rattle.og_io.specs.Fakes.{fails_after, next_call, sink_state, Counts, Takes};

use crate::{PutFault, Sink};
use og_list::List;
use std::alloc::{AllocError, Global};
use std::marker::Model;

/// A sink in memory, for tests. A put takes all bytes, unless its number was told to fail.
#[derive(Debug, Drop)]
pub struct MemSink {
    written: Vec<u8>,
    failing: List<(u32, usize)>,
    calls: u64,
    faults: u64,
}

impl Model for MemSink {
    ghost use Rattle.std.specs.Prelude.{◌-◌, ◌≤◌, vec_len, vec_capacity};
    ghost use Rattle.og_io.specs.Fakes.{Tape};

    ghost Value = { Tape };

    ghost view = { λ m. record {
      written = m.written.items;
      room = vec_capacity m.written - vec_len m.written;
      failing = m.failing;
      calls = m.calls;
      faults = m.faults;
    } };
}

impl MemSink {
    /// Nothing written, and no call that is to fail.
    pub fn new(alloc: Global) -> MemSink
        ensures written { result.written ≡ [] }
        ensures failing { result.failing ≡ [] }
        ensures calls { result.calls ≡ 0 }
        ensures faults { result.faults ≡ 0 }
    {
        MemSink {
            written: Vec::new(alloc),
            failing: List::new(alloc),
            calls: 0,
            faults: 0,
        }
    }

    /// Makes the spare room at least so large. A put no longer than the spare room takes no memory.
    pub fn reserve(&mut self, bytes: usize) -> Result<(), AllocError>
        ensures room { OnOk result (bytes ≤ self.new.room) }
        ensures kept { self.old.room ≤ self.new.room }
        ensures written { self.new.written ≡ self.old.written }
        ensures failing { self.new.failing ≡ self.old.failing }
        ensures calls { self.new.calls ≡ self.old.calls }
        ensures faults { self.new.faults ≡ self.old.faults }
    {
        self.written.reserve(bytes)
    }

    /// The put with this number, counted from 1, takes the first `after` bytes, or all if there are
    /// fewer, and fails. Where a number is told twice, the later word counts.
    #[tactic(auto, using(crate::proofs::Latest::fails_after_latest, crate::proofs::Latest::fails_after_others))]
    pub fn fail(&mut self, call: u32, after: usize) -> Result<(), AllocError>
        ensures ok { OnOk result (self.new ≡ record self.old { failing = self.old.failing ++ (call, after) ∷ [] }) }
        ensures told { OnOk result (fails_after self.new.failing call ≡ Some after) }
        ensures others { OnOk result ((other : ℕ) → other ≢ call
            → fails_after self.new.failing other ≡ fails_after self.old.failing other) }
        ensures refused { OnErr result (self.new ≡ self.old) }
    {
        self.failing.add((call, after))
    }

    /// All that is written.
    pub fn written(&self) -> &[u8]
        ensures { result.now ≡ self.now.written }
    {
        self.written.as_slice()
    }
}

/// After how many bytes the put with this number is to fail.
fn failing_after(failing: &[(u32, usize)], call: u64) -> Option<usize>
    ensures { result ≡ fails_after failing.now call }
{
    let mut found = None;
    'told: for told in failing {
        if u64::from(told.0) == call {
            found = Some(told.1);
        }
    }
    found
}

impl Sink for MemSink {
    ghost state = { λ m. sink_state m };

    fn put(&mut self, bytes: &[u8]) -> Result<(), PutFault>
        ensures puts { Puts bytes.now (sink_state self.old) (sink_state self.new) result }
        ensures number { self.new.calls ≡ next_call self.old.calls }
        ensures failing { self.new.failing ≡ self.old.failing }
        ensures faults { Counts self.old.faults self.new.faults result }
        ensures room { length self.old.written + self.old.room ≤ length self.new.written + self.new.room }
        ensures takes { Takes self.old self.new bytes.now result }
    {
        self.calls = self.calls.saturating_add(1);
        match failing_after(self.failing.as_slice(), self.calls) {
            None => self
                .written
                .extend_from_slice(bytes)
                .map_err(|_| PutFault::Memory),
            Some(after) => {
                let taken = &bytes[..after.min(bytes.len())];
                if self.written.extend_from_slice(taken).is_err() {
                    return Err(PutFault::Memory);
                }
                self.faults = self.faults.saturating_add(1);
                Err(PutFault::Failed)
            }
        }
    }
}
