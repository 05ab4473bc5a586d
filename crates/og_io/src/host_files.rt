ghost use Rattle.std.specs.Prelude.{◌≡◌, []};
ghost use Rattle.og_io.specs.Outside.{untold_files};

use crate::log::Log;
use crate::streams::read_whole;
use crate::{Files, LoadFault};
use std::alloc::Global;
use std::fs::File;
use std::rt;

/// The host's files. They tell no bytes.
#[derive(Drop)]
pub struct HostFiles<'a, R> {
    rt: &'a R,
    log: Log,
}

impl<'a, R: rt::Files> HostFiles<'a, R> {
    /// The host's files, of which none was loaded yet.
    pub fn new(rt: &'a R, alloc: Global) -> HostFiles<'a, R>
        ensures loaded { result.log.loaded ≡ [] }
        ensures failed { result.log.failed ≡ [] }
    {
        HostFiles {
            rt,
            log: Log::new(alloc),
        }
    }
}

impl<R: rt::Files> Files for HostFiles<'_, R> {
    ghost state = { λ f. untold_files f.log.loaded f.log.failed };

    fn load(&mut self, alloc: Global, name: &str, cap: usize) -> Result<Vec<u8>, LoadFault> {
        if self.log.begin(alloc, name).is_err() {
            return Err(LoadFault::Memory);
        }
        match read_whole(File::open(self.rt, name), alloc, cap) {
            Err(LoadFault::Failed) => Err(LoadFault::Failed),
            other => {
                self.log.succeed();
                other
            }
        }
    }
}
