//! Which types and functions are declared, and which rule is broken first.
use crate::equal::check_equal;
use og_names::Names;
use og_syntax::{Decl, Program};
use og_texts::read_program;
use og_typing::{Meaning, WireFault, declare_alias, declare_enum, declare_function};
use std::alloc::Global;
use std::process::Abort;

/// Declares what is declared at the place, behind what is declared before it.
fn declare(
    alloc: Global,
    decl: &Decl,
    number: u32,
    declared: &mut Names<Meaning>,
) -> Result<(), WireFault> {
    match decl {
        Decl::Enum { at, name, cases } => {
            declare_enum(alloc, number, *at, name.as_str(), cases, declared)
        }
        Decl::Alias { at, name, ty } => declare_alias(alloc, *at, name.as_str(), ty, declared),
        Decl::Fn {
            at,
            name,
            params,
            answer,
            body,
        } => declare_function(
            alloc,
            number,
            *at,
            name.as_str(),
            params,
            answer,
            body,
            declared,
        ),
        Decl::Game { .. } => Ok(()),
    }
}

/// Declares all, and answers how many names there are, or the first rule that is broken.
fn declare_all(alloc: Global, program: &Program) -> Result<usize, WireFault> {
    let mut declared = Names::new(alloc);
    let mut number = 0;
    for decl in program.decls.as_slice() {
        declare(alloc, decl, number, &mut declared)?;
        number = number.saturating_add(1);
    }
    Ok(declared.len())
}

fn check(rt: &impl Abort, alloc: Global, text: &str, want: Result<usize, WireFault>) {
    match read_program(alloc, text.as_bytes()) {
        Ok(read) => check_equal(rt, declare_all(alloc, &read.tree), want),
        Err(_) => panic!(rt; "a text that is no program"),
    }
}

/// Types and functions, and how many names they declare, or the rule that is broken first.
const TEXTS: &[(&str, Result<usize, WireFault>)] = &[
    ("", Ok(0)),
    // Enums and other types.
    ("type A = { X, Y };", Ok(3)),
    ("type A = { X, X };", Err(WireFault::Twice(14))),
    ("type A = { A };", Err(WireFault::Twice(11))),
    ("type A = { X }; type A = bool;", Err(WireFault::Twice(21))),
    ("type A = { X }; type X = bool;", Err(WireFault::Twice(21))),
    ("type A = B; type B = bool;", Err(WireFault::Unknown(9))),
    ("type A = A;", Err(WireFault::Unknown(9))),
    ("type A = { X }; type B = X;", Err(WireFault::Unknown(25))),
    ("type A = 3..1;", Err(WireFault::WrongType(9))),
    ("type A = -1..1; type B = (A, number);", Ok(2)),
    ("type A = 1..4096;", Ok(1)),
    ("type A = 0..4096;", Err(WireFault::TooManyValues(9))),
    ("type A = (0..63, 0..63);", Ok(1)),
    ("type A = (0..64, 0..63);", Err(WireFault::TooManyValues(9))),
    (
        "type A = (0..4096, 2..1);",
        Err(WireFault::TooManyValues(10)),
    ),
    ("type A = (2..1, 0..4096);", Err(WireFault::WrongType(10))),
    (
        "type A = ((((((number, bool), bool), bool), bool), bool), bool);",
        Ok(1),
    ),
    (
        "type A = ((((((bool, number), bool), bool), bool), bool), bool); type B = (A, bool);",
        Ok(2),
    ),
    (
        "type A = ((((((bool, number), bool), bool), bool), bool), bool); type B = ((A, bool), bool);",
        Err(WireFault::TooBig(74)),
    ),
    // Functions, their names and their parameters.
    ("fn f() : bool = true;", Ok(1)),
    ("fn f(x : number) : number = x;", Ok(1)),
    (
        "fn f(x : number, x : bool) : number = x;",
        Err(WireFault::Twice(17)),
    ),
    ("fn f(f : number) : number = f;", Err(WireFault::Twice(5))),
    (
        "type A = { X }; fn f(X : number) : number = 1;",
        Err(WireFault::Twice(21)),
    ),
    ("fn f(x : A) : B = y;", Err(WireFault::Unknown(9))),
    ("fn f(x : bool) : B = y;", Err(WireFault::Unknown(17))),
    ("fn f(x : bool) : bool = y;", Err(WireFault::Unknown(24))),
    ("fn f(x : bool) : bool = 1;", Err(WireFault::WrongType(24))),
    ("fn f(x : 0..2) : 0..3 = x;", Ok(1)),
    ("fn f(x : 0..4) : 0..3 = x;", Err(WireFault::WrongType(24))),
    ("fn f(x : bool) : bool = f(x);", Err(WireFault::Unknown(24))),
    ("fn f(_x : bool) : bool = _x;", Ok(1)),
    // Calls.
    (
        "fn f(x : 0..3) : bool = x == 1; fn g(x : 1..2) : bool = f(x);",
        Ok(2),
    ),
    (
        "fn f(x : 0..3) : bool = x == 1; fn g(x : 1..4) : bool = f(x);",
        Err(WireFault::WrongType(58)),
    ),
    (
        "fn f(x : number) : number = x; fn g(x : 1..4) : 1..4 = f(x);",
        Err(WireFault::WrongType(55)),
    ),
    (
        "fn f() : bool = true; fn g() : bool = f(y);",
        Err(WireFault::WrongCount(38)),
    ),
    (
        "fn f(x : bool) : bool = x; fn g() : bool = f(1, y);",
        Err(WireFault::WrongCount(43)),
    ),
    (
        "fn f(x : bool) : bool = x; fn g() : bool = f(y);",
        Err(WireFault::Unknown(45)),
    ),
    (
        "type A = { X }; fn g() : A = X();",
        Err(WireFault::Unknown(29)),
    ),
    // Operations, each with its first part of another type.
    ("fn f(x : bool) : bool = x or not x and x;", Ok(1)),
    (
        "fn f(x : bool) : bool = x or 1 or 2;",
        Err(WireFault::WrongType(29)),
    ),
    (
        "fn f(x : bool) : bool = 1 and y;",
        Err(WireFault::WrongType(24)),
    ),
    (
        "fn f(x : bool) : bool = not 2;",
        Err(WireFault::WrongType(28)),
    ),
    ("fn f(x : 0..2) : bool = x == 5 and x != 1;", Ok(1)),
    (
        "fn f(x : bool) : bool = x == 1;",
        Err(WireFault::WrongType(29)),
    ),
    (
        "fn f(x : bool) : bool = 1 < x;",
        Err(WireFault::WrongType(28)),
    ),
    (
        "fn f(x : bool) : number = 1 + 2 - x * y;",
        Err(WireFault::WrongType(34)),
    ),
    ("fn f(x : number) : number = x * 3 / 4 * -x;", Ok(1)),
    (
        "fn f(x : number) : number = x / 2 * true;",
        Err(WireFault::WrongType(36)),
    ),
    ("fn f(x : -2..3) : -3..2 = -x;", Ok(1)),
    (
        "fn f(x : bool) : number = -x;",
        Err(WireFault::WrongType(27)),
    ),
    ("fn f(x : (bool, (number, 1..2))) : 1..2 = x.1.1;", Ok(1)),
    (
        "fn f(x : (bool, number)) : number = x.2;",
        Err(WireFault::WrongType(36)),
    ),
    (
        "fn f(x : (bool, number)) : number = x.1.0;",
        Err(WireFault::WrongType(36)),
    ),
    ("fn f(x : bool) : (bool, 2..2) = (x, 2);", Ok(1)),
    (
        "fn f(x : bool) : (bool, 2..2) = (y, z);",
        Err(WireFault::Unknown(33)),
    ),
    (
        "fn f(x : number) : number = ratio(x, 2, min(x, max(1, x)));",
        Ok(1),
    ),
    (
        "fn f(x : number) : number = ratio(x, true, y);",
        Err(WireFault::WrongType(37)),
    ),
    ("fn f(x : number) : 0..9 = clamp 0..9 (x);", Ok(1)),
    (
        "fn f(x : number) : 0..9 = clamp 9..0 (y);",
        Err(WireFault::WrongType(32)),
    ),
    (
        "fn f(x : bool) : number = if x then 1 elif not x then 2 else 3 end;",
        Ok(1),
    ),
    (
        "fn f(x : bool) : number = if 1 then y else 3 end;",
        Err(WireFault::WrongType(29)),
    ),
    (
        "fn f(x : bool) : number = if x then 1 else x end;",
        Err(WireFault::WrongType(43)),
    ),
    // Tables.
    (
        "fn f(x : bool) : 1..2 = table (x : bool) { (true) -> 1; (false) -> 2; };",
        Ok(1),
    ),
    (
        "fn f(x : bool) : 1..2 = table (x : number) { };",
        Err(WireFault::NotFinite(35)),
    ),
    (
        "fn f(x : 0..3) : 1..2 = table (x : 0..2) { };",
        Err(WireFault::WrongType(31)),
    ),
    (
        "fn f(x : bool) : 1..2 = table (x : bool) { (1) -> y; };",
        Err(WireFault::WrongType(44)),
    ),
    (
        "fn f(x : bool) : 1..2 = table (x : bool) { (true, true) -> 1; };",
        Err(WireFault::WrongCount(43)),
    ),
    (
        "fn f(x : bool) : 1..2 = table (x : bool) { (true) -> 1; (true) -> y; };",
        Err(WireFault::RowTwice(56)),
    ),
    (
        "fn f(x : bool) : 1..2 = table (x : bool) { (true) -> 1; };",
        Err(WireFault::MissingRow(24)),
    ),
    (
        "fn f(x : bool) : 1..2 = table (x : bool) { (true) -> 1; (false) -> x; };",
        Err(WireFault::WrongType(67)),
    ),
    (
        "fn f(x : 1..64) : 1..2 = table (x : 0..64, x : 1..64) { };",
        Err(WireFault::TooManyValues(25)),
    ),
    // Sizes: each function has twice the nodes of the one before.
    (
        "fn a(x : number) : number = x + x; fn b(x : number) : number = a(a(a(a(a(a(a(a(x)))))))); fn c(x : number) : number = -b(a(a(a(a(a(a(a(x))))))));",
        Ok(3),
    ),
    (
        "fn a(x : number) : number = x + x; fn b(x : number) : number = a(a(a(a(a(a(a(a(x)))))))); fn c(x : number) : number = -(-b(a(a(a(a(a(a(a(x)))))))));",
        Err(WireFault::TooBig(118)),
    ),
    (
        "fn a(x : number) : number = x + x; fn b(x : number) : number = a(a(a(a(a(a(a(a(a(a(a(a(a(a(a(a(x))))))))))))))));",
        Err(WireFault::TooBig(63)),
    ),
    // Depths, with a function's height at a call.
    (
        "fn f(x : bool) : bool = not (not (not (not (not (not (not (not (not (not (not (not (not (not (not (not (not (not (not (not (not (not (not (not (not (not (not (not (not (not (not (not (not (not (not (not (not (not (not (not (not (not (not (not (not (not (not (x)))))))))))))))))))))))))))))))))))))))))))))));",
        Ok(1),
    ),
    (
        "fn f(x : bool) : bool = not (not (not (not (not (not (not (not (not (not (not (not (not (not (not (not (not (not (not (not (not (not (not (not (not (not (not (not (not (not (not (not (not (not (not (not (not (not (not (not (not (not (not (not (not (not (not (not (x))))))))))))))))))))))))))))))))))))))))))))))));",
        Err(WireFault::TooBig(264)),
    ),
    (
        "fn g(x : bool) : bool = not (not (not (not (not (not (not (not (not (not (not (not (not (not (not (not (not (not (not (not (not (not (not (not (x)))))))))))))))))))))))); fn f(x : bool) : bool = not (not (not (not (not (not (not (not (not (not (not (not (not (not (not (not (not (not (not (not (not (not (not (g(x))))))))))))))))))))))));",
        Ok(2),
    ),
    (
        "fn g(x : bool) : bool = not (not (not (not (not (not (not (not (not (not (not (not (not (not (not (not (not (not (not (not (not (not (not (not (x)))))))))))))))))))))))); fn f(x : bool) : bool = not (not (not (not (not (not (not (not (not (not (not (not (not (not (not (not (not (not (not (not (not (not (not (not (g(x)))))))))))))))))))))))));",
        Err(WireFault::TooBig(315)),
    ),
];

#[test]
fn declarations(rt: HostRuntime) {
    let alloc = rt.alloc();
    for (text, want) in TEXTS {
        check(&rt, alloc, *text, *want);
    }
}
