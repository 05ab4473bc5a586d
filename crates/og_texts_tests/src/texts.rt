use crate::told::{check_told, tell};
use og_texts::{
    Place, TextFault, one_program_text, one_strategy_text, read_program, read_strategy,
};
use std::alloc::Global;
use std::process::Abort;

/// Adds the fault's name with its line and column in the text.
fn tell_fault(rt: &impl Abort, alloc: Global, text: &[u8], fault: TextFault, told: &mut String) {
    let place = Place::of(text, fault.place());
    let (code, line, column) = (fault.code(), place.line, place.column);
    let made = format!(in alloc; "{code} {line}:{column}").expect(rt, "memory");
    tell(rt, told, made.as_str());
}

/// Adds how many declarations the program of the text has, and of how many tokens, or its fault.
fn tell_program(rt: &impl Abort, alloc: Global, text: &[u8], told: &mut String) {
    match read_program(alloc, text) {
        Ok(read) => {
            assert!(rt; read.text.as_bytes() == text);
            let (decls, tokens) = (read.tree.decls.len(), read.tokens.len());
            let made = format!(in alloc; "{decls} of {tokens}").expect(rt, "memory");
            tell(rt, told, made.as_str());
        }
        Err(fault) => tell_fault(rt, alloc, text, fault, told),
    }
}

/// Adds the same of the strategy file of the text, with its sections.
fn tell_strategy(rt: &impl Abort, alloc: Global, text: &[u8], told: &mut String) {
    match read_strategy(alloc, text) {
        Ok(read) => {
            assert!(rt; read.text.as_bytes() == text);
            let (sections, tokens) = (read.tree.sections.len(), read.tokens.len());
            let made = format!(in alloc; "{sections} of {tokens}").expect(rt, "memory");
            tell(rt, told, made.as_str());
        }
        Err(fault) => tell_fault(rt, alloc, text, fault, told),
    }
}

/// Bytes, and what is told of them as a program and as a strategy file.
const TEXTS: &[(&[u8], &str, &str)] = &[
    (b"", "0 of 0", "0 of 0"),
    (b"// nothing", "0 of 0", "0 of 0"),
    (b"type A = bool;\ntype B = A;", "2 of 10", "Syntax 1:1"),
    (b"strategy \"a\" { }", "Syntax 1:1", "1 of 4"),
    // The bytes aren't a text, from a place on or at the end of it.
    (b"\xff", "BadUtf8 1:1", "BadUtf8 1:1"),
    (b"// \xc3\xa9\n\xc3", "BadUtf8 2:1", "BadUtf8 2:1"),
    (b"? \xff", "BadUtf8 1:3", "BadUtf8 1:3"),
    // Characters that begin no token. The columns count bytes.
    (b"type A = ?", "BadChar 1:10", "BadChar 1:10"),
    (
        b"// \xc3\xa9 \n\"\xc3\xa9\" $",
        "BadChar 2:6",
        "BadChar 2:6",
    ),
    (b"a _ b", "BadChar 1:3", "BadChar 1:3"),
    (b"\"a\n\"", "OpenText 1:1", "OpenText 1:1"),
    (b"x\n\n  \"a", "OpenText 3:3", "OpenText 3:3"),
    (b"9223372036854775807", "Syntax 1:1", "Syntax 1:1"),
    (
        b"\t9223372036854775808 ?",
        "WideNumber 1:2",
        "WideNumber 1:2",
    ),
    // A token that doesn't go on from those before, and the end where more is wanted.
    (b"type A = bool\r\ntype B = A;", "Syntax 2:1", "Syntax 1:1"),
    (b"game main = ;", "Syntax 1:13", "Syntax 1:1"),
    (b"type A = ", "Syntax 1:10", "Syntax 1:1"),
    (b"type A = \n", "Syntax 2:1", "Syntax 1:1"),
    (
        b"game g = block { :--: :---: };",
        "Syntax 1:18",
        "Syntax 1:1",
    ),
    (b"strategy \"a\" { () -> x }", "Syntax 1:1", "Syntax 1:24"),
    // Branches stand behind the header alone, which is of version 2.
    (b"game g = branch A { };", "Syntax 1:10", "Syntax 1:1"),
    (
        b"version 2; game g = branch A { };",
        "1 of 11",
        "Syntax 1:1",
    ),
    (
        b"version 3; game g = branch A { };",
        "Syntax 1:9",
        "Syntax 1:1",
    ),
];

#[test]
fn texts(rt: HostRuntime) {
    one_program_text();
    one_strategy_text();
    for &(text, program, strategy) in TEXTS {
        let mut told = String::new(rt.alloc());
        tell_program(&rt, rt.alloc(), text, &mut told);
        check_told(&rt, program, told.as_str(), program);
        let mut told = String::new(rt.alloc());
        tell_strategy(&rt, rt.alloc(), text, &mut told);
        check_told(&rt, strategy, told.as_str(), strategy);
    }
}

/// Pieces that stand one after another so many times, behind a front, and what is told of the program.
const LONG: &[(&str, &str, usize, &str)] = &[
    ("fn f() : bool = ", "(", 64, "Syntax 1:81"),
    ("fn f() : bool = ", "(", 65, "Deep 1:81"),
    ("fn f() : bool = ", "[", 2, "Syntax 1:17"),
    ("game g = a", " &&& a", 32, "Syntax 1:203"),
    ("game g = a", "\n>>> a", 33, "Deep 34:1"),
    ("", " ", 1_048_576, "0 of 0"),
    ("", " ", 1_048_577, "TooLong 1:1"),
    ("?", " ", 1_048_577, "TooLong 1:1"),
];

#[test]
fn long_texts(rt: HostRuntime) {
    for &(front, piece, count, want) in LONG {
        let mut text = String::from_str(rt.alloc(), front).expect(&rt, "memory");
        for _ in 0..count {
            tell(&rt, &mut text, piece);
        }
        let mut told = String::new(rt.alloc());
        tell_program(&rt, rt.alloc(), text.as_bytes(), &mut told);
        check_told(&rt, want, told.as_str(), want);
    }
}
