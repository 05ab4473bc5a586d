ghost use Rattle.og_io.specs.Outside.{SinkState, Puts};

use crate::PutFault;

/// What bytes are written to.
pub trait Sink {
    /// The bytes written so far, where they are told, how many puts there were, and how many failed.
    ghost state: { Self → SinkState };

    /// Writes all the bytes at the end. A device that takes nothing of a piece that isn't empty has
    /// failed.
    fn put(&mut self, bytes: &[u8]) -> Result<(), PutFault>
        ensures { Puts bytes.now (state self.old) (state self.new) result };
}
