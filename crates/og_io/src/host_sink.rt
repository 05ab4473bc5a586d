ghost use Rattle.std.specs.Prelude.{◌≡◌, None, Some, IfErr};
ghost use Rattle.og_io.specs.Outside.{Puts, untold_sink};
ghost use Rattle.og_io.specs.Fakes.{Counts, next_call};
ghost use Rattle.og_io.specs.declared.faults.PutFault.TheVariants as put;

use crate::streams::write_whole;
use crate::{PutFault, Sink};
use std::io;

/// The host's standard output. It tells no bytes.
#[derive(Drop)]
pub struct HostSink<'a, R> {
    rt: &'a R,
    puts: u64,
    faults: u64,
}

impl<'a, R: Print> HostSink<'a, R> {
    /// The standard output, to which nothing was put yet.
    pub fn new(rt: &'a R) -> HostSink<'a, R>
        ensures puts { result.puts ≡ 0 }
        ensures faults { result.faults ≡ 0 }
    {
        HostSink {
            rt,
            puts: 0,
            faults: 0,
        }
    }
}

impl<R: Print> Sink for HostSink<'_, R> {
    ghost state = { λ s. untold_sink s.puts s.faults };

    /// A write takes no memory, so each refusal is a failure.
    fn put(&mut self, bytes: &[u8]) -> Result<(), PutFault>
        ensures puts { Puts bytes.now (untold_sink self.old.puts self.old.faults)
            (untold_sink self.new.puts self.new.faults) result }
        ensures number { self.new.puts ≡ next_call self.old.puts }
        ensures faults { Counts self.old.faults self.new.faults result }
        ensures failed { IfErr result (λ fault. fault ≡ put.Failed) }
    {
        self.puts = self.puts.saturating_add(1);
        if write_whole(&mut io::writer(self.rt), bytes).is_ok() {
            return Ok(());
        }
        self.faults = self.faults.saturating_add(1);
        Err(PutFault::Failed)
    }
}
