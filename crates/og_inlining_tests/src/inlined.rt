//! What the last function of a text gives, and of how many nodes its body is.
ghost use Rattle.std.specs.Prelude.{◌≡◌, ◌<◌};

use og_expr::{BuildFault, Expr, eval};
use og_frac::Frac;
use og_inlining::add_body;
use og_list::{List, Text};
use og_names::Names;
use og_steps::Steps;
use og_syntax::{Decl, Program};
use og_texts::read_program;
use og_types::{Enums, Value, show};
use og_typing::{Meaning, WireFault, declare_alias, declare_enum, declare_function};
use std::alloc::Global;
use std::marker::Brand;
use std::process::Abort;
use std::sync::ledger::{Blank, Ledger};

/// Declares what is declared there, and adds a function's body.
fn declare(
    rt: &impl Abort,
    alloc: Global,
    decl: &Decl,
    number: u32,
    declared: &mut Names<Meaning>,
    bodies: &mut Names<Expr>,
) -> Result<(), WireFault> {
    match decl {
        Decl::Enum { at, name, cases } => {
            declare_enum(alloc, number, *at, name.as_str(), cases, declared)
        }
        Decl::Alias { at, name, ty } => declare_alias(alloc, *at, name.as_str(), ty, declared),
        Decl::Fn {
            at,
            name,
            params,
            answer,
            body,
        } => {
            match add_body(alloc, name.as_str(), params, body, declared, bodies) {
                Ok(()) => {}
                Err(BuildFault::BadType) => panic!(rt; "a body without a tree"),
                Err(BuildFault::Memory) => panic!(rt; "no memory"),
            }
            declare_function(
                alloc,
                number,
                *at,
                name.as_str(),
                params,
                answer,
                body,
                declared,
            )
        }
        Decl::Game { .. } => Ok(()),
    }
}

/// The name of the last function.
fn last(program: &Program) -> Option<&str> {
    let mut found = None;
    for decl in program.decls.as_slice() {
        if let Decl::Fn { name, .. } = decl {
            found = Some(name.as_str());
        }
    }
    found
}

fn bodies_of(rt: &impl Abort, alloc: Global, program: &Program) -> Names<Expr> {
    let mut declared = Names::new(alloc);
    let mut bodies = Names::new(alloc);
    let mut number = 0;
    for decl in program.decls.as_slice() {
        match declare(rt, alloc, decl, number, &mut declared, &mut bodies) {
            Ok(()) => {}
            Err(_) => panic!(rt; "a text that is refused"),
        }
        number = number.saturating_add(1);
    }
    bodies
}

/// The value where the parameters are the numbers, as a text.
fn told<L: Ledger>(
    rt: &impl Abort,
    alloc: Global,
    body: &Expr,
    given: &[i64],
    steps: &mut Steps<L>,
) -> Text {
    let mut env = List::new(alloc);
    for n in given {
        let number = Frac::new(*n, 1).expect(rt, "a fraction");
        env.add(Value::Number(number)).expect(rt, "memory");
    }
    let enums = Enums {
        families: List::new(alloc),
    };
    match eval(alloc, body, env.as_slice(), steps) {
        Ok(v) => show(alloc, &v, &enums).expect(rt, "memory"),
        Err(_) => panic!(rt; "no value"),
    }
}

/// A text, the numbers that its last function takes, what it gives, and the nodes of its body with calls replaced.
type Row = (&'static str, &'static [i64], &'static str, u32);

const ROWS: &[Row] = &[
    ("fn f(x : number) : number = x;", &[7], "7", 1),
    // A parameter stands by its place, in the body of the function that is called too.
    (
        "fn f(x : number, y : number) : number = x - y; fn g(y : number, x : number) : number = f(x, y);",
        &[1, 9],
        "8",
        3,
    ),
    (
        "fn f(x : number) : number = x * x; fn g(x : number) : number = f(f(x)) + f(2);",
        &[3],
        "85",
        11,
    ),
    // An argument that isn't used, and one that is a call.
    (
        "fn f(x : number, y : number) : number = y + 1; fn g(x : number) : number = f(f(x, x), x / 2);",
        &[4],
        "3",
        4,
    ),
    (
        "fn f() : number = 5; fn g() : number = f() - f();",
        &[],
        "0",
        3,
    ),
    // Chains in their order.
    (
        "fn f(x : number) : number = 10 - x - 3 + 2 * x / 4;",
        &[2],
        "6",
        7,
    ),
    // Choices, and what is compared.
    (
        "fn f(x : number) : number = if x < 1 then 10 elif x == 1 then 20 elif x >= 3 then 30 else 40 end;",
        &[1],
        "20",
        14,
    ),
    (
        "fn f(x : number) : number = if not (x != 2 or x > 2) and x <= 2 then min(x, 1) else max(x, 5) end;",
        &[3],
        "5",
        19,
    ),
    // Rows by their keys, not as they are written.
    (
        "type S = { Dry, Wet }; fn f(s : S) : number = table (s : S) { (Wet) -> 3; (Dry) -> 8; }; fn g() : number = f(Wet) - f(Dry);",
        &[],
        "-5",
        13,
    ),
    (
        "type B = 0..2; fn f(b : B) : number = table (b : B, b == 1 : bool) { (2, true) -> 6; (1, true) -> 4; (0, false) -> 1; (0, true) -> 2; (2, false) -> 5; (1, false) -> 3; }; fn g() : number = f(1) * 100 + f(2) * 10 + f(0);",
        &[],
        "451",
        74,
    ),
    // Parts of tuples, and the other operations.
    (
        "fn f(p : (number, (number, number))) : number = p.1.0 - p.0; fn g(x : number) : number = f((x, (x * 2, 1)));",
        &[4],
        "4",
        18,
    ),
    (
        "fn f(x : number) : number = ratio(x, x - 3, -x) + clamp -1..2 (x);",
        &[3],
        "-1",
        10,
    ),
];

fn check<L: Ledger>(rt: &impl Abort, alloc: Global, row: &Row, steps: &mut Steps<L>) {
    match read_program(alloc, row.0.as_bytes()) {
        Ok(read) => {
            let bodies = bodies_of(rt, alloc, &read.tree);
            let name = last(&read.tree).expect(rt, "a function");
            let body = bodies.get(name).expect(rt, "a body");
            let found = told(rt, alloc, body, row.1, steps);
            assert_eq!(rt; found.as_str(), row.2);
            assert_eq!(rt; body.nodes(), row.3);
        }
        Err(_) => panic!(rt; "a text that is no program"),
    }
}

fn check_all<L: Ledger>(rt: &impl Abort, alloc: Global, blank: Blank)
    requires name { blank.name ≡ L.name }
    requires parts { blank.parts ≡ L.parts }
    requires some { 0 < L.parts }
{
    let mut steps = Steps::<L>::start(blank);
    for row in ROWS {
        check(rt, alloc, row, &mut steps);
    }
}

#[test]
fn inlined(rt: HostRuntime) {
    check_all::<Brand>(&rt, rt.alloc(), Blank::new(1));
}
