ghost use Rattle.std.specs.Prelude.{◌≡◌, ℕ, List, [], ◌∷◌, ◌++◌, OnOk, OnErr};

use og_list::{List, Text};
use std::alloc::{AllocError, Global};

/// The names that were loaded, and those whose loads failed, each once for each load.
#[derive(Debug, Drop)]
pub(crate) struct Log {
    pub loaded: List<Text>,
    pub failed: List<Text>,
}

/// Adds a copy of the name at the end.
fn note(names: &mut List<Text>, alloc: Global, name: &str) -> Result<(), AllocError>
    ensures ok { OnOk result (names.new ≡ names.old ++ name.now ∷ []) }
    ensures refused { OnErr result (names.new ≡ names.old) }
{
    let copy = Text::from(alloc, name)?;
    names.add(copy)?;
    Ok(())
}

impl Log {
    /// No load yet.
    pub fn new(alloc: Global) -> Log
        ensures loaded { result.loaded ≡ [] }
        ensures failed { result.failed ≡ [] }
    {
        Log {
            loaded: List::new(alloc),
            failed: List::new(alloc),
        }
    }

    /// Notes a load as one that failed, before it is made, so that a failure can always be counted.
    pub fn begin(&mut self, alloc: Global, name: &str) -> Result<(), AllocError>
        ensures loaded { OnOk result (self.new.loaded ≡ self.old.loaded ++ name.now ∷ []) }
        ensures failed { OnOk result (self.new.failed ≡ self.old.failed ++ name.now ∷ []) }
        ensures loaded_kept { OnErr result (self.new.loaded ≡ self.old.loaded) }
        ensures failed_kept { OnErr result (self.new.failed ≡ self.old.failed) }
    {
        note(&mut self.failed, alloc, name)?;
        if note(&mut self.loaded, alloc, name).is_err() {
            let _ = self.failed.pop();
            return Err(AllocError);
        }
        Ok(())
    }

    /// The load that was noted last didn't fail.
    pub fn succeed(&mut self)
        ensures loaded { self.new.loaded ≡ self.old.loaded }
        ensures failed { (front : List (List ℕ)) (last : List ℕ)
            → self.old.failed ≡ front ++ last ∷ [] → self.new.failed ≡ front }
    {
        let _ = self.failed.pop();
    }
}
