use crate::equal::check_equal;
use og_io::{LoadFault, read_whole, write_whole};
use std::alloc::Global;
use std::io;
use std::io::{ErrorKind, Read, Write};
use std::process::Abort;

/// A reader of so many bytes `x` that gives at most `step` of them at once, and then ends, or fails.
#[derive(Drop)]
struct Slow {
    left: usize,
    step: usize,
    interrupted: bool,
    fails_with: Option<ErrorKind>,
}

impl Read for Slow {
    fn read(&mut self, buf: &mut [u8]) -> io::Result<usize> {
        if self.interrupted {
            self.interrupted = false;
            return Err(io::Error::from(ErrorKind::Interrupted));
        }
        let count = self.left.min(self.step).min(buf.len());
        if count == 0 && !buf.is_empty() {
            if let Some(kind) = self.fails_with {
                return Err(io::Error::from(kind));
            }
        }
        for byte in &mut buf[..count] {
            *byte = b'x';
        }
        self.left -= count;
        Ok(count)
    }
}

/// What is opened is read as so many bytes, or refused.
fn check_read(
    rt: &impl Abort,
    alloc: Global,
    opened: io::Result<Slow>,
    cap: usize,
    want: Result<usize, LoadFault>,
) {
    let read = read_whole(opened, alloc, cap).map(|bytes| bytes.len());
    check_equal(rt, read, want);
}

const BROKEN: Option<ErrorKind> = Some(ErrorKind::BrokenPipe);

/// How much a reader gives, at most how much of it at once, how it fails then, the cap, and what is read.
const READS: &[(
    usize,
    usize,
    Option<ErrorKind>,
    usize,
    Result<usize, LoadFault>,
)] = &[
    (0, 1, None, 9, Ok(0)),
    (5, 1, None, 9, Ok(5)),
    (9, 4, None, 9, Ok(9)),
    (10, 4, None, 9, Err(LoadFault::Long)),
    (70_000, 4_096, None, 70_000, Ok(70_000)),
    (70_001, 4_096, None, 70_000, Err(LoadFault::Long)),
    (7, 7, None, usize::MAX, Ok(7)),
    (5, 2, BROKEN, 9, Err(LoadFault::Failed)),
    (0, 2, BROKEN, 9, Err(LoadFault::Failed)),
    (10, 4, BROKEN, 9, Err(LoadFault::Long)),
    (
        5,
        2,
        Some(ErrorKind::OutOfMemory),
        9,
        Err(LoadFault::Memory),
    ),
];

/// A reader is read to its end, whatever it gives at once, and one that fails midway is refused by its
/// error.
#[test]
fn readers(rt: HostRuntime) {
    for &(left, step, fails_with, cap, want) in READS {
        let opened = Slow {
            left,
            step,
            interrupted: true,
            fails_with,
        };
        check_read(&rt, rt.alloc(), Ok(opened), cap, want);
    }
}

/// A reader that couldn't be opened is refused by the error.
#[test]
fn readers_that_are_not_opened(rt: HostRuntime) {
    let missing = Err(io::Error::from(ErrorKind::NotFound));
    check_read(&rt, rt.alloc(), missing, 9, Err(LoadFault::Failed));
    let memory = Err(io::Error::from(ErrorKind::OutOfMemory));
    check_read(&rt, rt.alloc(), memory, 9, Err(LoadFault::Memory));
}

/// A writer that takes at most `step` bytes at once, `room` in all, and then takes nothing, or fails.
#[derive(Drop)]
struct Narrow {
    taken: usize,
    room: usize,
    step: usize,
    interrupted: bool,
    fails_with: Option<ErrorKind>,
    flushes: bool,
    is_flushed: bool,
}

impl Write for Narrow {
    fn write(&mut self, buf: &[u8]) -> io::Result<usize> {
        if self.interrupted {
            self.interrupted = false;
            return Err(io::Error::from(ErrorKind::Interrupted));
        }
        let count = self
            .room
            .saturating_sub(self.taken)
            .min(self.step)
            .min(buf.len());
        if count == 0 && !buf.is_empty() {
            if let Some(kind) = self.fails_with {
                return Err(io::Error::from(kind));
            }
        }
        self.taken = self.taken.saturating_add(count);
        Ok(count)
    }

    fn flush(&mut self) -> io::Result<()> {
        if !self.flushes {
            return Err(io::Error::from(ErrorKind::BrokenPipe));
        }
        self.is_flushed = true;
        Ok(())
    }
}

/// How much a writer takes, at most how much of it at once, how it fails then, whether it flushes, and
/// the answer to 9,000 bytes.
const WRITES: &[(usize, usize, Option<ErrorKind>, bool, Result<(), usize>)] = &[
    (9_000, 9_000, None, true, Ok(())),
    (9_000, 7, None, true, Ok(())),
    (20_000, 4_096, BROKEN, true, Ok(())),
    (8_999, 4_096, BROKEN, true, Err(8_999)),
    (8_999, 4_096, None, true, Err(8_999)),
    (4_096, 4_096, BROKEN, true, Err(4_096)),
    (0, 9, BROKEN, true, Err(0)),
    (9_000, 4_096, None, false, Err(9_000)),
];

/// All bytes are written and flushed, whatever the writer takes at once. One that fails midway, takes
/// nothing or can't flush is told by the count of bytes that it took.
#[test]
fn writers(rt: HostRuntime) {
    for &(room, step, fails_with, flushes, want) in WRITES {
        let mut writer = Narrow {
            taken: 0,
            room,
            step,
            interrupted: true,
            fails_with,
            flushes,
            is_flushed: false,
        };
        check_equal(&rt, write_whole(&mut writer, &[b'x'; 9_000]), want);
        check_equal(&rt, writer.taken, room.min(9_000));
        check_equal(&rt, writer.is_flushed, want.is_ok());
    }
}
