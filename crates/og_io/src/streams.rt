//! Reading a reader to its end, and writing all bytes to a writer.

ghost use Rattle.std.specs.Prelude.{◌≡◌, ◌≢◌, ℕ, List};
ghost use Rattle.og_io.specs.Outside.{LoadsHeld};
ghost use Rattle.og_io.specs.Streams.{Ends, IsFaultOf, ReadsOpened, Writes, WritesPiece};

use crate::LoadFault;
use std::alloc::Global;
use std::io;
use std::io::{ErrorKind, Read, Write};

/// Want of memory where the host says so, and else a failure.
fn fault_of(error: &io::Error) -> LoadFault
    ensures { IsFaultOf error.now result }
{
    if error.kind() == ErrorKind::OutOfMemory {
        LoadFault::Memory
    } else {
        LoadFault::Failed
    }
}

/// What the bytes that were read are answered with, and how the read ended.
fn end_read(read: io::Result<usize>, bytes: Vec<u8>, cap: usize) -> Result<Vec<u8>, LoadFault>
    ensures { Ends read bytes cap result }
{
    match read {
        Ok(_) if bytes.len() > cap => Err(LoadFault::Long),
        Ok(_) => Ok(bytes),
        Err(error) => Err(fault_of(&error)),
    }
}

/// Reads all that a reader has left, if that is at most `cap` bytes.
#[tactic(auto, using(crate::proofs::LoadsHeld::read_limited, crate::proofs::LoadsHeld::read_unlimited))]
fn read_to_cap<R: Read + Drop>(
    mut reader: R,
    alloc: Global,
    cap: usize,
) -> Result<Vec<u8>, LoadFault>
    ensures { LoadsHeld (R.remaining reader) cap result }
{
    let mut bytes = Vec::new(alloc);
    match cap.checked_add(1) {
        Some(most) => {
            let read = reader.take(most as u64).read_to_end(&mut bytes);
            end_read(read, bytes, cap)
        }
        None => {
            let read = reader.read_to_end(&mut bytes);
            end_read(read, bytes, cap)
        }
    }
}

/// Reads all that an opened reader has left, if that is at most `cap` bytes. No more than one byte
/// beyond `cap` is read. A reader that couldn't be opened or read is refused for want of memory where
/// its error says so, and else as `Failed`.
pub fn read_whole<R: Read + Drop>(
    opened: io::Result<R>,
    alloc: Global,
    cap: usize,
) -> Result<Vec<u8>, LoadFault>
    ensures { ReadsOpened R.remaining opened cap result }
{
    match opened {
        Ok(reader) => read_to_cap(reader, alloc, cap),
        Err(error) => Err(fault_of(&error)),
    }
}

/// How many bytes of the piece the writer took, or None where it failed. A writer that takes nothing
/// has failed, and one that was interrupted has taken nothing yet.
fn write_piece<W: Write>(writer: &mut W, piece: &[u8]) -> Option<usize>
    ensures { WritesPiece piece.now (W.contents writer.old) (W.contents writer.new) result }
{
    match writer.write(piece) {
        Ok(0) => None,
        Ok(count) => Some(count),
        Err(error) if error.kind() == ErrorKind::Interrupted => Some(0),
        Err(_) => None,
    }
}

/// Writes all the bytes and flushes the writer. An error is answered with the count of bytes that the
/// writer took.

pub fn write_whole<W: Write>(writer: &mut W, bytes: &[u8]) -> Result<(), usize>
    ensures { Writes bytes.now (W.contents writer.old) (W.contents writer.new) result }
{
    let mut taken = 0usize;
    'pieces: for _ in 0..u64::MAX {
        if taken == bytes.len() {
            return writer.flush().map_err(|_| taken);
        }
        match write_piece(writer, &bytes[taken..]) {
            Some(count) => taken += count,
            None => return Err(taken),
        }
    }
    Err(taken)
}
