//! Walks texts, and compares the first rule that each breaks with the one that is wanted.
use crate::equal::check_equal;
use og_list::Text;
use og_native::Library;
use og_texts::read_program;
use og_typing::WireFault;
use og_wires::{Declarations, walk_program};
use std::alloc::Global;
use std::process::Abort;

/// A program, and the rule that it breaks first, if it breaks one.
pub type Case = (&'static str, Result<(), WireFault>);

fn fault_alone(walked: Result<Declarations, WireFault>) -> Result<(), WireFault> {
    match walked {
        Ok(_) => Ok(()),
        Err(fault) => Err(fault),
    }
}

/// Stops the test where a text is no program, or where its first fault isn't the one wanted.
fn check(
    rt: &impl Abort,
    alloc: Global,
    library: &Library,
    text: &str,
    want: Result<(), WireFault>,
) {
    match read_program(alloc, text.as_bytes()) {
        Ok(read) => check_equal(
            rt,
            fault_alone(walk_program(alloc, &read.tree, library)),
            want,
        ),
        Err(_) => panic!(rt; "a text that is no program"),
    }
}

fn joined(rt: &impl Abort, alloc: Global, front: &str, rest: &str) -> Text {
    let mut text = Text::from(alloc, front).expect(rt, "memory");
    text.push_str(rest).expect(rt, "memory");
    text
}

/// Checks each program of a table, all with one front.
pub fn check_each(rt: &impl Abort, alloc: Global, library: &Library, front: &str, cases: &[Case]) {
    for (rest, want) in cases {
        let text = joined(rt, alloc, front, *rest);
        check(rt, alloc, library, text.as_str(), *want);
    }
}

/// Checks a program, with no block in the library.
pub fn check_alone(rt: &impl Abort, alloc: Global, text: &str, want: Result<(), WireFault>) {
    match Library::new(alloc, Vec::new(alloc)) {
        Ok(library) => check(rt, alloc, &library, text, want),
        Err(_) => panic!(rt; "memory"),
    }
}

/// Checks each program of a table, with no block in the library.
pub fn check_all(rt: &impl Abort, alloc: Global, cases: &[Case]) {
    check_all_behind(rt, alloc, "", cases);
}

/// Checks each program of a table, all with one front, with no block in the library.
pub fn check_all_behind(rt: &impl Abort, alloc: Global, front: &str, cases: &[Case]) {
    match Library::new(alloc, Vec::new(alloc)) {
        Ok(library) => check_each(rt, alloc, &library, front, cases),
        Err(_) => panic!(rt; "memory"),
    }
}
