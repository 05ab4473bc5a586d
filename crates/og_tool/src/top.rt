ghost use Rattle.std.specs.Prelude.{◌≡◌, map, string_bytes};
ghost use Rattle.og_tool.specs.Ran.{Ran};
ghost use Rattle.og_wires.specs.Sites.{blocks_of};

use crate::Status;
use crate::answer::answer_words;
use og_io::{Files, PutFault, Sink};
use og_native::Library;
use og_steps::Steps;
use std::alloc::Global;
use std::sync::ledger::Ledger;

/// Reads the files that the words name, answers them by exactly one write, and says how it ended.
///
/// The words are `check GAME STRATEGY`. A game may name the library's blocks. The strategy is read only once the game is accepted. No step is
/// taken.
pub fn run<F: Files, O: Sink, L: Ledger>(
    alloc: Global,
    words: &[String],
    files: &mut F,
    out: &mut O,
    library: &Library,
    steps: &mut Steps<L>,
) -> Status
    ensures ran { Ran (blocks_of library.now.blocks.items) (map string_bytes words.now)
        (record { files = F.state files.old; out = O.state out.old })
        (record { files = F.state files.new; out = O.state out.new }) result }
    ensures steps { steps.new ≡ steps.old }
{
    let Ok(answer) = answer_words(alloc, words, library, files) else {
        return Status::Memory;
    };
    match out.put(answer.bytes.as_slice()) {
        Ok(()) => answer.status,
        Err(PutFault::Failed) => Status::WriteFault,
        Err(PutFault::Memory) => Status::Memory,
    }
}
