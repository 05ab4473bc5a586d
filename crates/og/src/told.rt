ghost use Rattle.std.specs.Prelude.{◌≡◌, ◌<◌, IfOk, map, string_bytes};
ghost use Rattle.std.specs.Vec.Iter.{into_iter_items};
ghost use Rattle.std.specs.Process.{exit_status};
ghost use Rattle.og_tool.specs.Codes.{code_of};
ghost use Rattle.og_wires.specs.Sites.{blocks_of};
ghost use Rattle.og_tool.specs.declared.status.Status.TheVariants.{Memory};
ghost use Rattle.og.specs.Told.{Ended, words_told};

use og_io::{Files, Sink};
use og_native::Library;
use og_steps::Steps;
use og_tool::{Status, run};
use std::alloc::{AllocError, Global};
use std::env::Args;
use std::io;
use std::io::ErrorKind;
use std::process::ExitCode;
use std::sync::ledger::{Blank, Ledger};

/// All that the iterator has left.
fn all_of(alloc: Global, words: Args) -> Result<Vec<String>, AllocError>
    ensures { IfOk result (λ all. all.items ≡ into_iter_items words) }
{
    let mut all = Vec::new(alloc);
    'words: for word in words {
        all.push(word)?;
    }
    Ok(all)
}

/// The words behind the program's name. Where the host can't tell the words there are none, so that
/// they are no command.
fn words_of(alloc: Global, told: io::Result<Args>) -> Result<Vec<String>, AllocError>
    ensures { IfOk result (λ words. map string_bytes words.items ≡ words_told told) }
{
    match told {
        Ok(mut words) => {
            let _name = words.next();
            all_of(alloc, words)
        }
        Err(error) if error.kind() == ErrorKind::OutOfMemory => Err(AllocError),
        Err(_) => Ok(Vec::new(alloc)),
    }
}

/// The exit code of a status.
fn exit_code_of(status: Status) -> ExitCode
    ensures { exit_status result ≡ code_of status }
{
    ExitCode::from(status.code())
}

/// The exit code where there is no memory for what the program needs before its words.
pub(crate) fn no_memory() -> ExitCode
    ensures { exit_status result ≡ code_of Memory }
{
    exit_code_of(Status::Memory)
}

/// Runs the words that the host told, with a counter of steps of its own, and gives the exit code.
pub(crate) fn run_told<F: Files, O: Sink, L: Ledger>(
    alloc: Global,
    told: io::Result<Args>,
    library: &Library,
    files: &mut F,
    out: &mut O,
    blank: Blank,
) -> ExitCode
    requires name { blank.name ≡ L.name }
    requires parts { blank.parts ≡ L.parts }
    requires some { 0 < L.parts }
    ensures { Ended (blocks_of library.now.blocks.items) (words_told told)
        (record { files = F.state files.old; out = O.state out.old })
        (record { files = F.state files.new; out = O.state out.new }) result }
{
    let Ok(words) = words_of(alloc, told) else {
        return exit_code_of(Status::Memory);
    };
    let mut steps = Steps::<L>::start(blank);
    exit_code_of(run(alloc, words.as_slice(), files, out, library, &mut steps))
}
