ghost use Rattle.std.specs.Prelude.{◌≡◌, IfOk};

use crate::equal::check_equal;
use og_list::{Boxed, List, Text};
use std::alloc::{AllocError, Global};
use std::fmt::Debug;
use std::marker::Model;
use std::process::Abort;

/// A value behind a pointer.
fn boxed<T: Drop>(rt: &impl Abort, alloc: Global, value: T) -> Boxed<T> {
    Boxed::new(alloc, value).ok().expect(rt, "memory")
}

/// The list of these items.
fn list(rt: &impl Abort, alloc: Global, items: &[u8]) -> List<u8> {
    List::from_slice(alloc, items).expect(rt, "memory")
}

fn text(rt: &impl Abort, alloc: Global, text: &str) -> Text {
    Text::from(alloc, text).expect(rt, "memory")
}

/// The two print the same for debugging.
fn check_shown<T: Debug>(rt: &impl Abort, alloc: Global, found: &T, want: &T) {
    let found = format!(in alloc; "{found:?}").expect(rt, "memory");
    let want = format!(in alloc; "{want:?}").expect(rt, "memory");
    check_equal(rt, found.as_str(), want.as_str());
}

/// A tree that reaches itself through a box and through a list.
#[derive(Debug, Drop)]
enum Tree {
    Leaf(u8),
    Under(Boxed<Tree>),
    Fork(List<Tree>),
}

#[cycle(copies)]
fn copy(tree: &Tree, alloc: Global) -> Result<Tree, AllocError>
    ensures { IfOk result (λ made. made ≡ tree.now) }
{
    match tree {
        Tree::Leaf(number) => Ok(Tree::Leaf(*number)),
        Tree::Under(part) => {
            let part = copy(part.get(), alloc)?;
            match Boxed::new(alloc, part) {
                Ok(part) => Ok(Tree::Under(part)),
                Err(_) => Err(AllocError),
            }
        }
        Tree::Fork(parts) => Ok(Tree::Fork(copy_all(parts, alloc)?)),
    }
}

#[cycle(copies)]
fn copy_all(parts: &List<Tree>, alloc: Global) -> Result<List<Tree>, AllocError>
    ensures { IfOk result (λ made. made ≡ parts.now) }
{
    let mut all = List::new(alloc);
    'parts: for part in parts.as_slice() {
        all.add(copy(part, alloc)?)?;
    }
    Ok(all)
}

#[test]
fn copies_are_equal(rt: HostRuntime) {
    let alloc = rt.alloc();
    let mut parts = List::new(alloc);
    parts.add(Tree::Leaf(3)).expect(&rt, "memory");
    let under = Tree::Under(boxed(&rt, alloc, Tree::Leaf(4)));
    check_equal(&rt, parts.push(under).is_ok(), true);
    let tree = Tree::Fork(parts);
    let made = copy(&tree, alloc).expect(&rt, "memory");
    check_shown(&rt, alloc, &made, &tree);
}

/// One level of an expression, over parts of any kind.
#[derive(Debug, Drop)]
enum LevelOf<E> {
    Number(u8),
    Not(Boxed<E>),
    Sum(List<E>),
}

/// The expression that contracts see. No code makes one.
#[derive(Debug, Drop)]
struct Term {
    node: LevelOf<Term>,
}

/// An expression that reaches itself through a box and through a list, and is seen through a model.
#[derive(Debug, Drop)]
struct Expr {
    node: LevelOf<Expr>,
    depth: u8,
}

impl Model for Expr {
    ghost use Rattle.std.specs.Coded.{codes};
    ghost use Rattle.og_values_tests.specs.contracts.lists.Term as term;
    ghost use Rattle.og_values_tests.specs.declared.lists.Term.{Term, size-Term, roll-Term};

    ghost Value = { Term };

    ghost coded = { Prim.hlevel (codes, term.the_row.coded) };

    ghost view = { λ e. roll-Term (record { node = e.node }) };

    ghost size = { size-Term };

    ghost use Rattle.std.proofs.Common.{arith};
    ghost use Rattle.og_list.specs.laws.Weights.{weight_more};
    ghost use Rattle.og_values_tests.specs.declared.lists.Expr.TheShapes.{weighed-Expr-node};
    ghost use Rattle.og_values_tests.specs.declared.lists.Term.TheViews.{size_roll-Term};

    ghost size_decreases = { λ a h. omega (arith, size_roll-Term (record { node = a.node }), weight_more weighed-Expr-node size-Term a.node) };
}

#[cycle(expressions)]
fn copy_expr(expr: &Expr, alloc: Global) -> Result<Expr, AllocError>
    ensures { IfOk result (λ made. made ≡ expr.now) }
{
    let node = match &expr.node {
        LevelOf::Number(number) => LevelOf::Number(*number),
        LevelOf::Not(part) => {
            let part = copy_expr(part.get(), alloc)?;
            match Boxed::new(alloc, part) {
                Ok(part) => LevelOf::Not(part),
                Err(_) => return Err(AllocError),
            }
        }
        LevelOf::Sum(parts) => LevelOf::Sum(copy_exprs(parts, alloc)?),
    };
    Ok(Expr {
        node,
        depth: expr.depth,
    })
}

#[cycle(expressions)]
fn copy_exprs(parts: &List<Expr>, alloc: Global) -> Result<List<Expr>, AllocError>
    ensures { IfOk result (λ made. made ≡ parts.now) }
{
    let mut all = List::new(alloc);
    'parts: for part in parts.as_slice() {
        all.add(copy_expr(part, alloc)?)?;
    }
    Ok(all)
}

#[test]
fn copies_of_expressions(rt: HostRuntime) {
    let alloc = rt.alloc();
    let mut parts = List::new(alloc);
    parts
        .add(Expr {
            node: LevelOf::Number(3),
            depth: 1,
        })
        .expect(&rt, "memory");
    let sum = Expr {
        node: LevelOf::Sum(parts),
        depth: 2,
    };
    let not = Expr {
        node: LevelOf::Not(boxed(&rt, alloc, sum)),
        depth: 3,
    };
    let made = copy_expr(&not, alloc).expect(&rt, "memory");
    check_shown(&rt, alloc, &made, &not);
}

#[test]
fn items_of_a_list(rt: HostRuntime) {
    let mut list = List::new(rt.alloc());
    check_equal(&rt, list.is_empty(), true);
    check_equal(&rt, list.push(7u8), Ok(()));
    check_equal(&rt, list.len(), 1);
    check_equal(&rt, list.get(0).copied(), Some(7));
    check_equal(&rt, list.get(1).copied(), None);
    check_equal(&rt, boxed(&rt, rt.alloc(), 5u8).into_inner(), 5);
}

#[test]
fn text_grows(rt: HostRuntime) {
    let mut text = text(&rt, rt.alloc(), "a");
    check_equal(&rt, text.as_str(), "a");
    text.push_str("é").expect(&rt, "memory");
    let copy = text.copy(rt.alloc()).expect(&rt, "memory");
    check_equal(&rt, copy.as_str(), "aé");
    check_equal(&rt, text.len(), 3);
}

/// Whether two values are equal, by the bound alone.
fn same<T: Eq>(first: &T, second: &T) -> bool {
    first == second
}

#[test]
fn equal_lists_hold_the_same(rt: HostRuntime) {
    let alloc = rt.alloc();
    let first = list(&rt, alloc, &[1, 2]);
    let rows: [(&[u8], bool); 3] = [(&[1, 2], true), (&[1], false), (&[2, 1], false)];
    for (items, want) in rows {
        check_equal(&rt, same(&first, &list(&rt, alloc, items)), want);
    }
}

#[test]
fn equal_boxes_hold_the_same(rt: HostRuntime) {
    let alloc = rt.alloc();
    let first = boxed(&rt, alloc, list(&rt, alloc, &[1, 2]));
    let other = boxed(&rt, alloc, List::new(alloc));
    check_equal(&rt, same(&first, &first), true);
    check_equal(&rt, same(&first, &other), false);
}

#[test]
fn equal_texts_have_the_same_bytes(rt: HostRuntime) {
    let alloc = rt.alloc();
    let first = text(&rt, alloc, "ab");
    let copy = first.copy(alloc).expect(&rt, "memory");
    check_equal(&rt, same(&first, &copy), true);
    check_equal(&rt, same(&first, &text(&rt, alloc, "a")), false);
}
