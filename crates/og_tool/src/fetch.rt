ghost use Rattle.std.specs.Prelude.{[], ◌∷◌, IfOk};
ghost use Rattle.og_io.specs.Outside.{OnlyLoads};
ghost use Rattle.og_tool.specs.Fetching.{Fetches};

use og_io::{Files, LoadFault};
use og_lex::MAX_TEXT;
use std::alloc::{AllocError, Global};

/// What came of reading a file, memory aside.
#[derive(Debug, Drop)]
pub(crate) enum Fetched {
    Text(Vec<u8>),
    /// The text is longer than a text may be.
    TooLong,
    Failed,
}

/// Reads a text.
pub(crate) fn fetch<F: Files>(
    alloc: Global,
    file: &str,
    files: &mut F,
) -> Result<Fetched, AllocError>
    ensures only { OnlyLoads (file.now ∷ []) (F.state files.old) (F.state files.new) }
    ensures fetches { IfOk result (Fetches file.now (F.state files.old) (F.state files.new)) }
{
    match files.load(alloc, file, MAX_TEXT) {
        Ok(text) => Ok(Fetched::Text(text)),
        Err(LoadFault::Long) => Ok(Fetched::TooLong),
        Err(LoadFault::Failed) => Ok(Fetched::Failed),
        Err(LoadFault::Memory) => Err(AllocError),
    }
}
