ghost use Rattle.std.specs.Prelude.{List, ℕ, [], ◌∷◌};
ghost use Rattle.og_io.specs.Outside.{FilesState, OnlyLoads, CountsLoad, CountsFault, LoadsHeld};

use crate::LoadFault;
use std::alloc::Global;

/// Files that are read whole, by name.
pub trait Files {
    /// What is held under each name, where that is told, how often each name was loaded, and how many
    /// of its loads failed.
    ghost state: { Self → FilesState };

    /// Reads the bytes held under the name, if there are at most `cap` of them. No answer changes what
    /// is held under any name, and no count moves but those of this name.
    fn load(&mut self, alloc: Global, name: &str, cap: usize) -> Result<Vec<u8>, LoadFault>
        ensures only { OnlyLoads (name.now ∷ []) (state self.old) (state self.new) }
        ensures counted { CountsLoad name.now (state self.old) (state self.new) result }
        ensures fault { CountsFault name.now (state self.old) (state self.new) result }
        ensures bytes { LoadsHeld ((state self.old).held name.now) cap result };
}
