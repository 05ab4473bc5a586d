ghost use Rattle.std.specs.Prelude.{◌≡◌, ◌≢◌, true, ℕ, List, [], ◌∷◌, ◌++◌, ◌⊎◌, Option, Some, None, IsTrue, IfOk, OnOk, OnErr, length, map};
ghost use Rattle.std.specs.Option.{option_copied};
ghost use Rattle.og_io.specs.Outside.{CountsFault, CountsLoad, OnlyLoads, LoadsHeld};
ghost use Rattle.og_io.specs.Fakes.{bytes_under, files_state, next_call, is_told, AnswersLoad, NotesFault, NotesLoad};

use crate::log::Log;
use crate::{Files, LoadFault};
use og_list::{List, Text};
use std::alloc::{AllocError, Global};
use std::marker::Model;

/// Files in memory, for tests. A read answers the bytes last added under its name, unless its number
/// was told to fail.
#[derive(Debug, Drop)]
pub struct MemFiles {
    files: List<(Text, List<u8>)>,
    failing: List<u32>,
    calls: u64,
    log: Log,
}

impl Model for MemFiles {
    ghost use Rattle.og_io.specs.Fakes.{Store};

    ghost Value = { Store };

    ghost view = { λ m. record {
      files = m.files;
      failing = m.failing;
      calls = m.calls;
      loaded = m.log.loaded;
      failed = m.log.failed;
    } };
}

impl MemFiles {
    /// No file, and no call that is to fail.
    pub fn new(alloc: Global) -> MemFiles
        ensures { result ≡ record { files = []; failing = []; calls = 0; loaded = []; failed = [] } }
    {
        MemFiles {
            files: List::new(alloc),
            failing: List::new(alloc),
            calls: 0,
            log: Log::new(alloc),
        }
    }

    /// Adds a file. It stands in place of an earlier one of the same name. A refusal changes nothing.
    #[tactic(auto, using(crate::proofs::Latest::bytes_under_latest, crate::proofs::Latest::bytes_under_others))]
    pub fn add(&mut self, alloc: Global, name: &str, bytes: &[u8]) -> Result<(), AllocError>
        ensures ok { OnOk result (self.new ≡ record self.old { files = self.old.files ++ (name.now, bytes.now) ∷ [] }) }
        ensures held { OnOk result (bytes_under self.new.files name.now ≡ Some bytes.now) }
        ensures others { OnOk result ((other : List ℕ) → other ≢ name.now
            → bytes_under self.new.files other ≡ bytes_under self.old.files other) }
        ensures refused { OnErr result (self.new ≡ self.old) }
    {
        let name = Text::from(alloc, name)?;
        let held = List::from_slice(alloc, bytes)?;
        self.files.add((name, held))
    }

    /// The load with this number, counted from 1, is to fail. A refusal changes nothing.
    #[tactic(auto, using(crate::proofs::Latest::told_latest, crate::proofs::Latest::told_others))]
    pub fn fail(&mut self, call: u32) -> Result<(), AllocError>
        ensures ok { OnOk result (self.new ≡ record self.old { failing = self.old.failing ++ call ∷ [] }) }
        ensures told { OnOk result (is_told self.new.failing call ≡ true) }
        ensures others { OnOk result ((other : ℕ) → other ≢ call
            → is_told self.new.failing other ≡ is_told self.old.failing other) }
        ensures refused { OnErr result (self.new ≡ self.old) }
    {
        self.failing.add(call)
    }
}

/// The bytes last added under the name.
fn find<'a>(files: &'a [(Text, List<u8>)], name: &str) -> Option<&'a List<u8>>
    ensures { option_copied result ≡ bytes_under files.now name.now }
{
    let mut found = None;
    'files: for file in files {
        if file.0.as_str() == name {
            found = Some(&file.1);
        }
    }
    found
}

/// Whether the call with this number was told to fail.
fn is_told(failing: &[u32], call: u64) -> bool
    ensures { result ≡ is_told failing.now call }
{
    failing.iter().any(|told| u64::from(*told) == call)
}

/// What a load answers.
fn answer(
    files: &[(Text, List<u8>)],
    is_told: bool,
    alloc: Global,
    name: &str,
    cap: usize,
) -> Result<Vec<u8>, LoadFault>
    ensures answers { AnswersLoad is_told (bytes_under files.now name.now) cap result }
    ensures bytes { LoadsHeld (bytes_under files.now name.now) cap result }
{
    if is_told {
        return Err(LoadFault::Failed);
    }
    match find(files, name) {
        None => Err(LoadFault::Failed),
        Some(bytes) if bytes.len() > cap => Err(LoadFault::Long),
        Some(bytes) => Vec::from_slice(alloc, bytes.as_slice()).map_err(|_| LoadFault::Memory),
    }
}

impl Files for MemFiles {
    ghost state = { λ m. files_state m };

    fn load(&mut self, alloc: Global, name: &str, cap: usize) -> Result<Vec<u8>, LoadFault>
        ensures only { OnlyLoads (name.now ∷ []) (files_state self.old) (files_state self.new) }
        ensures counted { CountsLoad name.now (files_state self.old) (files_state self.new) result }
        ensures fault { CountsFault name.now (files_state self.old) (files_state self.new) result }
        ensures bytes { LoadsHeld (bytes_under self.old.files name.now) cap result }
        ensures files { self.new.files ≡ self.old.files }
        ensures failing { self.new.failing ≡ self.old.failing }
        ensures number { self.new.calls ≡ next_call self.old.calls }
        ensures loaded { NotesLoad name.now self.old.loaded self.new.loaded result }
        ensures failed { NotesFault name.now self.old.failed self.new.failed result }
        ensures answers { AnswersLoad (is_told self.old.failing self.new.calls)
            (bytes_under self.old.files name.now) cap result }
    {
        self.calls = self.calls.saturating_add(1);
        if self.log.begin(alloc, name).is_err() {
            return Err(LoadFault::Memory);
        }
        let is_told = is_told(self.failing.as_slice(), self.calls);
        match answer(self.files.as_slice(), is_told, alloc, name, cap) {
            Err(LoadFault::Failed) => Err(LoadFault::Failed),
            other => {
                self.log.succeed();
                other
            }
        }
    }
}
