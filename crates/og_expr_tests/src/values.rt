ghost use Rattle.std.specs.Prelude.{◌≡◌, ◌+◌, ◌<◌};

use crate::equal::check_equal;
use crate::made::In::{Numbers, Range, Truths};
use crate::made::Make::{self, *};
use crate::made::made;
use crate::replaced::check_replaced;
use og_expr::Test::{AtLeast, AtMost, Differs, Equal, Greater, Less};
use og_expr::{BuildFault, EvalFault, Expr, eval};
use og_frac::Frac;
use og_list::{List, Text};
use og_steps::Steps;
use og_types::{Enums, Family, Ty, Value, show};
use std::alloc::Global;
use std::marker::Brand;
use std::process::Abort;
use std::sync::ledger::{Blank, Ledger};

const MOST: i64 = i64::MAX;

const HALF: i64 = 1 << 62;

/// What is made, and the text of its value or the refusal.
type Row = (&'static [Make], &'static str);

const LEAVES: &[Row] = &[
    (&[Num(-5)], "-5"),
    (&[Num(MOST)], "9223372036854775807"),
    (&[Num(i64::MIN)], "BadType"),
    (&[True], "true"),
    (&[Case(2)], "Leave"),
    (&[Case(3)], "BadType"),
    (&[Truth(0)], "true"),
    (&[Number(1)], "7/2"),
    (&[Number(9)], "Passes"),
    (&[Number(0), Neg], "Passes"),
];

const TRUTHS: &[Row] = &[
    // Nothing behind what tells the answer is evaluated.
    (&[True, Lost, Or(2)], "true"),
    (&[False, Lost, Or(2)], "Passes"),
    (&[Lost, True, Or(2)], "Passes"),
    (&[False, False, True, Or(3)], "true"),
    (&[False, False, Or(2)], "false"),
    (&[True, Or(1)], "BadType"),
    (&[Num(1), True, Or(2)], "BadType"),
    (&[False, Lost, And(2)], "false"),
    (&[True, Lost, And(2)], "Passes"),
    (&[True, True, False, And(3)], "false"),
    (&[True, True, And(2)], "true"),
    (&[True, And(1)], "BadType"),
    (&[True, Num(1), And(2)], "BadType"),
    (&[Truth(0), Not], "false"),
    (&[Lost, Not], "Passes"),
    (&[Num(3), Not], "BadType"),
];

const COMPARISONS: &[Row] = &[
    (&[Number(1), Num(3), Compare(Equal)], "false"),
    (&[Number(1), Num(3), Compare(Differs)], "true"),
    (&[Number(1), Num(3), Compare(Less)], "false"),
    (&[Number(1), Num(3), Compare(AtMost)], "false"),
    (&[Number(1), Num(3), Compare(Greater)], "true"),
    (&[Number(1), Num(3), Compare(AtLeast)], "true"),
    (&[Num(3), Num(3), Compare(Equal)], "true"),
    (&[Num(3), Num(3), Compare(Differs)], "false"),
    (&[Num(3), Num(3), Compare(Less)], "false"),
    (&[Num(3), Num(3), Compare(AtMost)], "true"),
    (&[Num(3), Num(3), Compare(Greater)], "false"),
    (&[Num(3), Num(3), Compare(AtLeast)], "true"),
    (&[Case(1), Case(1), Compare(Equal)], "true"),
    (
        &[
            True,
            Num(1),
            Tuple(2),
            True,
            Num(2),
            Tuple(2),
            Compare(Differs),
        ],
        "true",
    ),
    (&[True, Num(1), Compare(Equal)], "BadType"),
    (&[True, False, Compare(Less)], "BadType"),
    (&[Lost, True, Compare(Equal)], "Passes"),
    (&[True, Lost, Compare(Differs)], "Passes"),
];

const CHAINS: &[Row] = &[
    // From the left: the first passes its bound on the way, and the other doesn't.
    (&[Num(MOST), Num(1), Num(1), Sum("+-")], "Passes"),
    (
        &[Num(MOST), Num(1), Num(1), Sum("-+")],
        "9223372036854775807",
    ),
    (&[Number(1), Num(1), Num(3), Sum("-+")], "11/2"),
    (&[Num(-MOST), Num(1), Sum("-")], "Passes"),
    (&[Num(1), Sum("")], "BadType"),
    (&[True, Num(1), Sum("+")], "BadType"),
    (&[Num(1), True, Sum("-")], "BadType"),
    (&[Num(HALF), Num(2), Times(1)], "Passes"),
    (&[Num(HALF), Num(1), Times(1)], "4611686018427387904"),
    (&[Number(1), Num(4), Num(-1), Times(2)], "-14"),
    (&[Num(7), Over(2)], "7/2"),
    (
        &[Num(1), Over(9223372036854775807)],
        "1/9223372036854775807",
    ),
    (&[Num(1), Over(9223372036854775807), Over(2)], "Passes"),
    (&[Num(1), Over(9223372036854775808)], "BadType"),
    (&[Num(1), Over(0)], "BadType"),
    (&[True, Over(2)], "BadType"),
    (&[Num(1), Times(0)], "BadType"),
    (&[Num(5), Neg], "-5"),
    (&[Number(1), Neg], "-7/2"),
    (&[True, Neg], "BadType"),
];

const NUMBERS: &[Row] = &[
    (&[Num(1), Num(2), Num(9), Ratio], "1/2"),
    (&[Num(1), Num(0), Num(9), Ratio], "9"),
    (&[Num(1), Num(2), LostNumber, Ratio], "Passes"),
    (&[LostNumber, Num(0), Num(9), Ratio], "Passes"),
    (
        &[Num(1), Over(MOST as u64), Num(2), Num(9), Ratio],
        "Passes",
    ),
    (&[Num(1), Num(2), True, Ratio], "BadType"),
    (&[Number(1), Num(3), Min], "3"),
    (&[Num(3), Number(1), Min], "3"),
    (&[Number(1), Num(3), Max], "7/2"),
    (&[Num(3), Number(1), Max], "7/2"),
    (&[Num(3), LostNumber, Min], "Passes"),
    (&[LostNumber, Num(3), Max], "Passes"),
    (&[Nested(3), Nested(3), Min], "BadType"),
];

const PARTS: &[Row] = &[
    (&[Num(7), Over(2), Clamp(0, 3)], "3"),
    (&[Num(5), Over(2), Clamp(0, 3)], "2"),
    (&[Num(-7), Over(2), Clamp(-9, 9)], "-4"),
    (&[Num(-7), Over(2), Clamp(-3, 9)], "-3"),
    (&[Num(7), Over(2), Clamp(3, 0)], "BadType"),
    (&[LostNumber, Clamp(0, 3)], "Passes"),
    (&[True, Clamp(0, 1)], "BadType"),
    (&[Nested(3), Field(1), Field(1)], "-5/2"),
    (&[Nested(3), Field(0)], "true"),
    (&[Nested(3), Field(2)], "BadType"),
    (&[Num(1), Field(0)], "BadType"),
    (
        &[True, Number(1), Num(2), Tuple(2), Tuple(2)],
        "(true, (7/2, 2))",
    ),
    (&[True, Lost, Tuple(2)], "Passes"),
    (&[True, Tuple(1)], "BadType"),
];

const BRANCHES: &[Row] = &[
    // What isn't taken isn't evaluated.
    (&[True, Num(1), Num(HALF), Num(2), Times(1), If(1)], "1"),
    (&[False, LostNumber, Num(2), If(1)], "2"),
    (&[False, Num(1), True, Num(2), Num(3), If(2)], "2"),
    (&[False, Num(1), False, Num(2), Num(3), If(2)], "3"),
    (&[True, Num(1), Lost, Num(2), Num(3), If(2)], "1"),
    (&[Lost, Num(1), Num(2), If(1)], "Passes"),
    (&[True, LostNumber, Num(2), If(1)], "Passes"),
    (&[Num(1), Num(1), Num(2), If(1)], "BadType"),
    (&[True, Num(1), True, If(1)], "BadType"),
    (&[Num(1), If(0)], "BadType"),
    (&[Truth(0), Num(10), Num(20), Table(&[Truths], 2)], "20"),
    (&[Truth(0), LostNumber, Num(20), Table(&[Truths], 2)], "20"),
    (
        &[Truth(0), Num(10), LostNumber, Table(&[Truths], 2)],
        "Passes",
    ),
    (
        &[
            Truth(0),
            Num(3),
            Num(10),
            Num(20),
            Num(30),
            Num(40),
            Num(50),
            Num(60),
            Table(&[Truths, Range(2, 4)], 6),
        ],
        "50",
    ),
    (&[Lost, Num(10), Num(20), Table(&[Truths], 2)], "Passes"),
    (&[Truth(0), Num(10), Table(&[Truths], 1)], "BadType"),
    (
        &[Num(5), Num(10), Num(20), Table(&[Range(2, 3)], 2)],
        "BadType",
    ),
    (
        &[Num(2), Num(10), True, Table(&[Range(2, 3)], 2)],
        "BadType",
    ),
    (&[Num(2), Num(10), Table(&[Numbers], 1)], "BadType"),
    (&[Num(1), Table(&[], 1)], "BadType"),
];

pub fn text(rt: &impl Abort, alloc: Global, s: &str) -> Text {
    Text::from(alloc, s).expect(rt, "memory")
}

/// One enum, of three cases.
fn moves(rt: &impl Abort, alloc: Global) -> Enums {
    let mut cases = List::new(alloc);
    for name in ["Enter", "Wait", "Leave"] {
        cases.add(text(rt, alloc, name)).expect(rt, "memory");
    }
    let mut families = List::new(alloc);
    families
        .add(Family {
            name: text(rt, alloc, "Move"),
            cases,
        })
        .expect(rt, "memory");
    Enums { families }
}

fn fraction(rt: &impl Abort, n: i64, d: u64) -> Value {
    Value::Number(Frac::new(n, d).expect(rt, "a fraction that fits"))
}

/// Values of the variables 0, 1, 2 and 3.
fn given(rt: &impl Abort, alloc: Global) -> List<Value> {
    let mut inner = List::new(alloc);
    inner.add(fraction(rt, 2, 1)).expect(rt, "memory");
    inner.add(fraction(rt, -5, 2)).expect(rt, "memory");
    let mut outer = List::new(alloc);
    outer.add(Value::Flag(true)).expect(rt, "memory");
    outer.add(Value::Tuple(inner)).expect(rt, "memory");
    let mut all = List::new(alloc);
    all.add(Value::Flag(true)).expect(rt, "memory");
    all.add(fraction(rt, 7, 2)).expect(rt, "memory");
    all.add(fraction(rt, 3, 1)).expect(rt, "memory");
    all.add(Value::Tuple(outer)).expect(rt, "memory");
    all
}

/// The text of the value, or of the refusal. The call is one step.
pub fn told<L: Ledger>(rt: &impl Abort, alloc: Global, e: &Expr, steps: &mut Steps<L>) -> Text
    ensures { steps.new ≡ steps.old + 1 }
{
    let env = given(rt, alloc);
    match eval(alloc, e, env.as_slice(), steps) {
        Ok(v) => show(alloc, &v, &moves(rt, alloc)).expect(rt, "memory"),
        Err(EvalFault::Passes) => text(rt, alloc, "Passes"),
        Err(EvalFault::Memory) => text(rt, alloc, "Memory"),
    }
}

fn answer<L: Ledger>(rt: &impl Abort, alloc: Global, what: &[Make], steps: &mut Steps<L>) -> Text {
    match made(rt, alloc, what) {
        Ok(e) => {
            let copy = e.copy(alloc).expect(rt, "memory");
            let first = told(rt, alloc, &e, steps);
            check_equal(rt, told(rt, alloc, &copy, steps).as_str(), first.as_str());
            first
        }
        Err(BuildFault::BadType) => text(rt, alloc, "BadType"),
        Err(BuildFault::Memory) => text(rt, alloc, "Memory"),
    }
}

fn check_rows<L: Ledger>(rt: &impl Abort, alloc: Global, rows: &[Row], steps: &mut Steps<L>) {
    for (what, want) in rows {
        let found = answer(rt, alloc, what, steps);
        check_equal(rt, found.as_str(), *want);
    }
}

fn check_all<L: Ledger>(rt: &impl Abort, alloc: Global, blank: Blank)
    requires name { blank.name ≡ L.name }
    requires parts { blank.parts ≡ L.parts }
    requires some { 0 < L.parts }
{
    let mut steps = Steps::<L>::start(blank);
    for rows in [
        LEAVES,
        TRUTHS,
        COMPARISONS,
        CHAINS,
        NUMBERS,
        PARTS,
        BRANCHES,
    ] {
        check_rows(rt, alloc, rows, &mut steps);
    }
    check_replaced(rt, alloc, &mut steps);
}

#[test]
fn values(rt: HostRuntime) {
    check_all::<Brand>(&rt, rt.alloc(), Blank::new(1));
}

/// What is made, its type and its count of nodes.
const TYPES: [(&[Make], Ty, u32); 12] = [
    (&[Num(3)], Ty::Range(3, 3), 1),
    (&[Num(3), Neg], Ty::Range(-3, -3), 2),
    (&[Number(1), Neg], Ty::Number, 2),
    (&[Case(1)], Ty::Enum(0, 3), 1),
    (&[True, Num(1), Num(4), If(1)], Ty::Range(1, 4), 4),
    (
        &[True, Num(4), False, Num(-1), Num(2), If(2)],
        Ty::Range(-1, 4),
        6,
    ),
    (&[True, Num(1), Number(1), If(1)], Ty::Number, 4),
    (&[Num(1), Num(2), Sum("+")], Ty::Number, 3),
    (&[Num(7), Over(2)], Ty::Number, 2),
    (&[Num(7), Over(2), Clamp(0, 3)], Ty::Range(0, 3), 3),
    (&[Nested(3), Field(1), Field(0)], Ty::Range(0, 9), 3),
    (
        &[Truth(0), Num(10), Num(20), Table(&[Truths], 2)],
        Ty::Range(10, 20),
        6,
    ),
];

#[test]
fn types(rt: HostRuntime) {
    let alloc = rt.alloc();
    for (what, ty, nodes) in TYPES {
        let e = made(&rt, alloc, what).expect(&rt, "an expression");
        check_equal(&rt, e.nodes(), nodes);
        check_equal(&rt, *e.ty() == ty, true);
    }
}
