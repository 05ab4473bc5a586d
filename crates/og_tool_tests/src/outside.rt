use crate::equal::check_equal;
use og_io::{Files, HostFiles, HostSink, LoadFault, MemFiles, MemSink, PutFault, Sink};
use std::alloc::Global;
use std::fs;
use std::process::Abort;

/// Three files, of which the last stands in place of the first, and a fourth load that is to fail.
fn stored(rt: &impl Abort, alloc: Global) -> MemFiles {
    let mut files = MemFiles::new(alloc);
    files.add(alloc, "a", b"one").expect(rt, "memory");
    files.add(alloc, "b", b"two").expect(rt, "memory");
    files.add(alloc, "a", b"three").expect(rt, "memory");
    files.fail(4).expect(rt, "memory");
    files
}

/// The next load answers these bytes, or is refused.
fn check_load(
    rt: &impl Abort,
    alloc: Global,
    files: &mut impl Files,
    (name, cap): (&str, usize),
    want: Result<&[u8], LoadFault>,
) {
    match files.load(alloc, name, cap) {
        Ok(bytes) => check_equal(rt, Ok(bytes.as_slice()), want),
        Err(fault) => check_equal(rt, Err(fault), want),
    }
}

/// Names, caps, and what each load answers.
const LOADS: &[(&str, usize, Result<&[u8], LoadFault>)] = &[
    ("a", 5, Ok(b"three")),
    ("a", 4, Err(LoadFault::Long)),
    ("c", 9, Err(LoadFault::Failed)),
    ("b", 9, Err(LoadFault::Failed)),
    ("b", 3, Ok(b"two")),
];

#[test]
fn files_in_memory(rt: HostRuntime) {
    let mut files = stored(&rt, rt.alloc());
    for &(name, cap, want) in LOADS {
        check_load(&rt, rt.alloc(), &mut files, (name, cap), want);
    }
}

/// Bytes that are put, what each put answers, and what is written after it.
const PUTS: &[(&str, Result<(), PutFault>, &str)] = &[
    ("abc", Ok(()), "abc"),
    ("de", Err(PutFault::Failed), "abcde"),
    ("fg", Err(PutFault::Failed), "abcdef"),
    ("", Ok(()), "abcdef"),
];

#[test]
fn a_sink_in_memory(rt: HostRuntime) {
    let mut sink = MemSink::new(rt.alloc());
    sink.reserve(16).expect(&rt, "memory");
    sink.fail(2, 9).expect(&rt, "memory");
    sink.fail(3, 9).expect(&rt, "memory");
    sink.fail(3, 1).expect(&rt, "memory");
    for &(bytes, want, written) in PUTS {
        check_equal(&rt, sink.put(bytes.as_bytes()), want);
        check_equal(&rt, sink.written(), written.as_bytes());
    }
}

/// A file of the host at the cap, above it, and gone.
#[test]
fn files_of_the_host(rt: HostRuntime) {
    let name = "og_host_file";
    fs::write(&rt, name, b"held").expect(&rt, "a write");
    let mut files = HostFiles::new(&rt, rt.alloc());
    check_load(&rt, rt.alloc(), &mut files, (name, 4), Ok(b"held"));
    check_load(&rt, rt.alloc(), &mut files, (name, 3), Err(LoadFault::Long));
    fs::remove_file(&rt, name).expect(&rt, "a removal");
    check_load(
        &rt,
        rt.alloc(),
        &mut files,
        (name, 4),
        Err(LoadFault::Failed),
    );
}

#[test]
fn the_hosts_output(rt: HostRuntime) {
    let mut sink = HostSink::new(&rt);
    check_equal(&rt, sink.put(b"written\n"), Ok(()));
}
