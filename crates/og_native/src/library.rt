ghost use Rattle.std.specs.Prelude.{◌≡◌, ◌<◌, ◌^◌, length, slice_get, IfOk, IfErr, MatchOption};
ghost use Rattle.std.specs.Option.{option_copied};
ghost use Rattle.og_native.specs.Block.{names_of};
ghost use Rattle.og_native.specs.Library.{AreDistinct, IsFirstRepeat, IsRefused, place_of};

use crate::stored::StoredLens;
use og_list::Text;
use std::alloc::Global;

/// Why blocks make no library.
#[derive(Debug, Drop)]
pub enum LibraryFault {
    /// Two blocks have this name: the first that repeats an earlier one.
    Twice(Text),
    /// There was no memory.
    Memory,
}

/// Blocks under names that differ.
#[derive(Drop)]
pub struct Library {
    blocks: Vec<StoredLens>,
    ghost distinct: { AreDistinct (names_of blocks.items) },
    ghost few: { length blocks.items < 2 ^ 32 },
}

impl Library {
    /// The library of the blocks, in their order. `Twice` comes exactly where two blocks have one name, if there
    /// is memory.
    pub fn new(alloc: Global, blocks: Vec<StoredLens>) -> Result<Library, LibraryFault>
        requires { length blocks.items < 2 ^ 32 }
        ensures blocks { IfOk result (λ library. library.blocks.items ≡ blocks.items) }
        ensures distinct { IfOk result (λ library. AreDistinct (names_of library.blocks.items)) }
        ensures refused { IfErr result (λ fault. IsRefused (names_of blocks.items) fault) }
    {
        match repeated(blocks.as_slice()) {
            Some(name) => match Text::from(alloc, name) {
                Ok(name) => Err(LibraryFault::Twice(name)),
                Err(_) => Err(LibraryFault::Memory),
            },
            None => Ok(Library { blocks }),
        }
    }

    /// The number of the block with the name, or `None` exactly where no block has it.
    pub fn find(&self, name: &str) -> Option<u32>
        ensures { result ≡ place_of name.now (names_of self.now.blocks.items) }
    {
        place(self.blocks.as_slice(), name).map(|at| at as u32)
    }

    /// The block with the number, or `None` exactly where it isn't below the count of blocks.
    pub fn block(&self, i: u32) -> Option<&StoredLens>
        ensures { option_copied result ≡ slice_get self.now.blocks.items i }
    {
        self.blocks.get(i as usize)
    }
}

/// The place of the first block with the name.
fn place(blocks: &[StoredLens], name: &str) -> Option<usize>
    ensures { result ≡ place_of name.now (names_of blocks.now) }
{
    'places: for (at, block) in blocks.iter().enumerate() {
        if block.name() == name {
            return Some(at);
        }
    }
    None
}

/// The first name that repeats an earlier one, or `None` exactly where the names differ.
fn repeated(blocks: &[StoredLens]) -> Option<&str>
    ensures { MatchOption result (AreDistinct (names_of blocks.now))
        (λ name. IsFirstRepeat (names_of blocks.now) name.now) }
{
    'places: for (at, block) in blocks.iter().enumerate() {
        let name = block.name();
        if let Some(_) = place(&blocks[..at], name) {
            return Some(name);
        }
    }
    None
}
