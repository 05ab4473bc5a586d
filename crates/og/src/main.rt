//! The program `og`: it makes the library of its blocks, hands what the host tells of its words, the host's
//! files and the standard output to the top call, and ends with the status's code.
#![tactic(auto)]

ghost use Rattle.og_native.specs.Answered.{Answers};
ghost use Rattle.og_native.specs.Shipped.{played, payoffs};

mod told;

use og_io::{HostFiles, HostSink};
use og_list::{List, Text};
use og_native::{Library, NativeFault, StoredLens, shipped};
use og_types::Value;
use std::alloc::Global;
use std::env;
use std::marker::Brand;
use std::process::ExitCode;
use std::sync::ledger::Blank;
use told::{no_memory, run_told};

fn main(rt: HostRuntime) -> ExitCode {
    let alloc = rt.alloc();
    let mut blocks = Vec::new(alloc);
    'mechanisms: for m in shipped() {
        let Ok(play) = Box::new(
            alloc,
            move |alloc: Global, inputs: &[Value]| -> Result<List<Value>, NativeFault>
                ensures { Answers (played m inputs.now) result }
            { m.play(alloc, inputs) },
        ) else {
            return no_memory();
        };
        let Ok(pay) = Box::new(
            alloc,
            move |alloc: Global, inputs: &[Value], returns: &[Value]| -> Result<
                List<Value>,
                NativeFault,
            >
                ensures { Answers (payoffs m inputs.now returns.now) result }
            { m.pay(alloc, inputs, returns) },
        ) else {
            return no_memory();
        };
        let Ok(name) = Text::from(alloc, m.name()) else {
            return no_memory();
        };
        let Ok(ports) = m.ports(alloc) else {
            return no_memory();
        };
        if blocks
            .push(StoredLens::new(name, ports, m, play, pay))
            .is_err()
        {
            return no_memory();
        }
    }
    let Ok(library) = Library::new(alloc, blocks) else {
        return no_memory();
    };
    let mut files = HostFiles::new(&rt, alloc);
    let mut out = HostSink::new(&rt);
    let blank = Blank::new(1);
    run_told::<_, _, Brand>(alloc, env::args(&rt), &library, &mut files, &mut out, blank)
}
