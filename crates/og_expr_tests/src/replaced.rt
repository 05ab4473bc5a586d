ghost use Rattle.std.specs.Prelude.{◌≡◌, ◌+◌};

use crate::equal::check_equal;
use crate::made::Make::{self, *};
use crate::made::made;
use crate::values::{text, told};
use og_expr::Expr;
use og_list::{List, Text};
use og_steps::Steps;
use og_types::Ty;
use std::alloc::Global;
use std::process::Abort;
use std::sync::ledger::Ledger;

/// What is made, the trees for its variables, and of the tree with these: its value, its type, and how
/// many nodes it has and how high it is.
type Replaced = (
    &'static [Make],
    &'static [&'static [Make]],
    &'static str,
    Ty,
    u32,
    u32,
);

const SUM: &[Make] = &[Number(1), Number(1), Sum("+")];

/// Variable 0 is a truth, and 1 and 2 are the numbers 7/2 and 3.
const REPLACED: [Replaced; 9] = [
    (SUM, &[&[True], &[Num(4)]], "8", Ty::Number, 3, 2),
    (
        &[Number(1), Number(0), Sum("-")],
        &[&[Num(1), Num(2), Sum("+")], &[Num(10)]],
        "7",
        Ty::Number,
        5,
        3,
    ),
    // no tree is there for the variable
    (SUM, &[&[True]], "7", Ty::Number, 3, 2),
    (SUM, &[], "7", Ty::Number, 3, 2),
    // the trees' own variables aren't replaced
    (
        &[Number(1), Number(2), Sum("-")],
        &[&[True], &[Number(2)], &[Number(1)]],
        "-1/2",
        Ty::Number,
        3,
        2,
    ),
    // narrower types, up to the whole
    (
        &[True, Number(1), Num(3), If(1)],
        &[&[True], &[Num(5)]],
        "5",
        Ty::Range(3, 5),
        4,
        2,
    ),
    (
        &[Number(1)],
        &[&[True], &[Num(2), Neg]],
        "-2",
        Ty::Range(-2, -2),
        2,
        2,
    ),
    // the values of a table's key count as nodes, and not for the height
    (
        &[
            Truth(0),
            Number(1),
            Num(20),
            Table(&[crate::made::In::Truths], 2),
        ],
        &[&[True, Not], &[Num(6)]],
        "6",
        Ty::Range(6, 20),
        7,
        3,
    ),
    (SUM, &[&[True], &[True]], "no tree", Ty::Bool, 0, 0),
];

fn trees_of(rt: &impl Abort, alloc: Global, what: &[&[Make]]) -> List<Expr> {
    let mut trees = List::new(alloc);
    for one in what {
        let tree = made(rt, alloc, one).expect(rt, "an expression");
        trees.add(tree).expect(rt, "memory");
    }
    trees
}

/// The text of the value with the trees. The call is one step.
fn replaced_text<L: Ledger>(
    rt: &impl Abort,
    alloc: Global,
    row: &Replaced,
    steps: &mut Steps<L>,
) -> Text {
    let (what, trees, _, ty, nodes, height) = row;
    let e = made(rt, alloc, what).expect(rt, "an expression");
    let trees = trees_of(rt, alloc, trees);
    if !e.takes(&trees) {
        return text(rt, alloc, "no tree");
    }
    let whole = e.replace(alloc, &trees).expect(rt, "memory");
    check_equal(rt, *whole.ty() == *ty, true);
    check_equal(rt, whole.nodes(), *nodes);
    check_equal(rt, whole.height(), *height);
    told(rt, alloc, &whole, steps)
}

pub fn check_replaced<L: Ledger>(rt: &impl Abort, alloc: Global, steps: &mut Steps<L>) {
    for row in &REPLACED {
        let found = replaced_text(rt, alloc, row, steps);
        check_equal(rt, found.as_str(), row.2);
    }
}

/// What is made, the numbers of its variables, and its own number if it is a variable.
const VARIABLES: [(&[Make], &[u32], Option<u32>); 4] = [
    (&[Number(2)], &[2], Some(2)),
    (&[Number(2), Number(0), Number(2), Sum("+-")], &[0, 2], None),
    (
        &[
            Truth(3),
            Number(1),
            Number(0),
            Table(&[crate::made::In::Truths], 2),
        ],
        &[0, 1, 3],
        None,
    ),
    (&[Num(5)], &[], None),
];

#[test]
fn variables(rt: HostRuntime) {
    let alloc = rt.alloc();
    for (what, numbers, number) in VARIABLES {
        let e = made(&rt, alloc, what).expect(&rt, "an expression");
        let found = e.variables(alloc).expect(&rt, "memory");
        check_equal(&rt, found.as_slice() == numbers, true);
        check_equal(&rt, e.as_variable(), number);
    }
}
