ghost use Rattle.std.specs.Prelude.{◌≡◌, ◌↔◌, ◌<◌, IsTrue, true, IsSome, Some, IfOk, if◌then◌else◌, codes};
ghost use Rattle.std.specs.Cmp.Lexicographic.{pointwise};
ghost use Rattle.og_types.specs.Ty.{bounds_fit, fits, holds};
ghost use Rattle.og_types.specs.Values.{IsSmall};

use crate::equal::check_equal;
use og_frac::Frac;
use og_list::{List, Text};
use og_types::{
    Enums, Family, Ty, Value, all_bounds_fit, all_fit, all_hold, copy_types, copy_values, join_all,
    joint_at_rank, joint_count, joint_rank, joint_values, laws, show,
};
use std::alloc::{AllocError, Global};
use std::cmp::Ordering;
use std::process::Abort;

/// The list of the two items.
fn pair<T: Drop>(rt: &impl Abort, alloc: Global, first: T, second: T) -> List<T> {
    let mut items = List::new(alloc);
    items.add(first).expect(rt, "memory");
    items.add(second).expect(rt, "memory");
    items
}

fn pair_of(rt: &impl Abort, alloc: Global, first: Ty, second: Ty) -> Ty {
    Ty::Tuple(pair(rt, alloc, first, second))
}

fn fraction(rt: &impl Abort, n: i64, d: u64) -> Value {
    Value::Number(Frac::new(n, d).expect(rt, "a fraction that fits"))
}

/// The list of true and a fraction.
fn list_of_true_and(rt: &impl Abort, alloc: Global, n: i64, d: u64) -> List<Value> {
    pair(rt, alloc, Value::Flag(true), fraction(rt, n, d))
}

/// The tuple of true and a fraction.
fn true_and(rt: &impl Abort, alloc: Global, n: i64, d: u64) -> Value {
    Value::Tuple(list_of_true_and(rt, alloc, n, d))
}

/// The texts, as a list.
fn texts(rt: &impl Abort, alloc: Global, first: &str, second: &str) -> List<Text> {
    let first = Text::from(alloc, first).expect(rt, "memory");
    let second = Text::from(alloc, second).expect(rt, "memory");
    pair(rt, alloc, first, second)
}

/// One enum, of two cases.
fn one_enum(rt: &impl Abort, alloc: Global, names: (&str, &str, &str)) -> Enums {
    let family = Family {
        name: Text::from(alloc, names.0).expect(rt, "memory"),
        cases: texts(rt, alloc, names.1, names.2),
    };
    let mut families = List::new(alloc);
    families.add(family).expect(rt, "memory");
    Enums { families }
}

fn moves(rt: &impl Abort, alloc: Global) -> Enums {
    one_enum(rt, alloc, ("Move", "Cooperate", "Defect"))
}

/// The text of each value, with a space after it.
fn shown(rt: &impl Abort, alloc: Global, values: &List<Value>) -> Text {
    let enums = moves(rt, alloc);
    let mut out = Text::from(alloc, "").expect(rt, "memory");
    for value in values.as_slice() {
        let text = show(alloc, value, &enums).expect(rt, "memory");
        out.push_str(text.as_str()).expect(rt, "memory");
        out.push_str(" ").expect(rt, "memory");
    }
    out
}

/// Whether the value has this rank, and is the one that stands there.
fn stands_at(alloc: Global, ty: &Ty, rank: u32, value: &Value) -> Result<bool, AllocError>
    requires small { IsSmall ty.now }
    requires bounds { bounds_fit ty.now ≡ true }
{
    match ty.at_rank(alloc, rank)? {
        Some(found) => Ok(ty.rank(value) == Some(rank) && found == *value),
        None => Ok(false),
    }
}

/// The values of the type are as many as are counted, each has its rank and stands at it, and this is
/// their text.
fn check_values(rt: &impl Abort, alloc: Global, ty: Ty, want: &str) {
    let count = ty.count().expect(rt, "a finite type");
    assert!(rt; count <= 4096 && ty.bounds_fit());
    let values = ty.values(alloc).expect(rt, "memory");
    check_equal(rt, values.len(), count as usize);
    for (rank, value) in values.as_slice().iter().enumerate() {
        let stands = stands_at(alloc, &ty, rank as u32, value).expect(rt, "memory");
        check_equal(rt, stands, true);
    }
    let past = ty.at_rank(alloc, count).expect(rt, "memory");
    check_equal(rt, past.is_none(), true);
    check_equal(rt, shown(rt, alloc, &values).as_str(), want);
}

const LISTINGS: [(Ty, &str); 5] = [
    (Ty::Bool, "false true "),
    (Ty::Enum(0, 2), "Cooperate Defect "),
    (Ty::Range(-2, 1), "-2 -1 0 1 "),
    (Ty::Range(3, 3), "3 "),
    (Ty::Range(1, 0), ""),
];

#[test]
fn values_stand_in_order(rt: HostRuntime) {
    let alloc = rt.alloc();
    for (ty, want) in LISTINGS {
        check_values(&rt, alloc, ty, want);
    }
    check_values(&rt, alloc, Ty::Tuple(List::new(alloc)), "() ");
}

#[test]
fn tuples_stand_in_order(rt: HostRuntime) {
    let alloc = rt.alloc();
    check_values(
        &rt,
        alloc,
        pair_of(&rt, alloc, Ty::Enum(0, 2), Ty::Bool),
        "(Cooperate, false) (Cooperate, true) (Defect, false) (Defect, true) ",
    );
    let inner = pair_of(&rt, alloc, Ty::Bool, Ty::Range(0, 1));
    check_values(
        &rt,
        alloc,
        pair_of(&rt, alloc, inner, Ty::Range(5, 5)),
        "((false, 0), 5) ((false, 1), 5) ((true, 0), 5) ((true, 1), 5) ",
    );
    let none = pair_of(&rt, alloc, Ty::Range(0, i64::MAX), Ty::Range(1, 0));
    check_values(&rt, alloc, none, "");
}

#[test]
fn text_of_a_tuple(rt: HostRuntime) {
    let value = true_and(&rt, rt.alloc(), 1, 2);
    let text = show(rt.alloc(), &value, &moves(&rt, rt.alloc())).expect(&rt, "memory");
    check_equal(&rt, text.as_str(), "(true, 1/2)");
}

fn check_count(rt: &impl Abort, ty: Ty, want: Option<u32>) {
    check_equal(rt, ty.count(), want);
}

const COUNTS: [(Ty, Option<u32>); 9] = [
    (Ty::Bool, Some(2)),
    (Ty::Enum(7, 4096), Some(4096)),
    (Ty::Enum(7, 5000), Some(4097)),
    (Ty::Range(0, 4094), Some(4095)),
    (Ty::Range(-1, 4094), Some(4096)),
    (Ty::Range(0, 4096), Some(4097)),
    (Ty::Range(i64::MIN, i64::MAX), Some(4097)),
    (Ty::Range(2, -2), Some(0)),
    (Ty::Number, None),
];

#[test]
fn counts_end_above_the_limit(rt: HostRuntime) {
    for (ty, want) in COUNTS {
        check_count(&rt, ty, want);
    }
    check_count(&rt, Ty::Tuple(List::new(rt.alloc())), Some(1));
}

const PAIR_COUNTS: [(Ty, Ty, Option<u32>); 4] = [
    (Ty::Range(1, 64), Ty::Range(1, 64), Some(4096)),
    (Ty::Range(1, 64), Ty::Range(1, 65), Some(4097)),
    (Ty::Range(i64::MIN, i64::MAX), Ty::Range(1, 0), Some(0)),
    (Ty::Range(1, 0), Ty::Number, None),
];

#[test]
fn counts_of_pairs(rt: HostRuntime) {
    let alloc = rt.alloc();
    for (first, second, want) in PAIR_COUNTS {
        check_count(&rt, pair_of(&rt, alloc, first, second), want);
    }
    let wide = pair_of(&rt, alloc, Ty::Bool, Ty::Range(i64::MIN, 0));
    check_equal(&rt, wide.bounds_fit(), false);
}

/// `==` tells whether two lists of values are equal.
fn same(first: &List<Value>, second: &List<Value>) -> bool
    ensures { IsTrue result ↔ (first.now ≡ second.now) }
{
    laws::equality();
    first == second
}

/// Truths, and the whole numbers from -1 to 1.
fn flag_and_range(rt: &impl Abort, alloc: Global) -> List<Ty> {
    pair(rt, alloc, Ty::Bool, Ty::Range(-1, 1))
}

/// The list has this rank among those of a truth and a whole number from -1 to 1.
fn check_rank(rt: &impl Abort, alloc: Global, values: &List<Value>, want: Option<u32>) {
    let types = flag_and_range(rt, alloc);
    let count = joint_count(&types).expect(rt, "finite types");
    assert!(rt; count <= 4096);
    check_equal(rt, joint_rank(&types, values), want);
    check_equal(rt, all_hold(&types, values), want.is_some());
}

#[test]
fn lists_of_values_have_ranks(rt: HostRuntime) {
    let alloc = rt.alloc();
    check_rank(&rt, alloc, &list_of_true_and(&rt, alloc, -1, 1), Some(3));
    check_rank(&rt, alloc, &list_of_true_and(&rt, alloc, 1, 2), None);
    check_rank(&rt, alloc, &List::new(alloc), None);
}

/// Whether the list is of true and this fraction.
fn is_true_and(rt: &impl Abort, alloc: Global, list: &List<Value>, n: i64, d: u64) -> bool {
    let values = list_of_true_and(rt, alloc, n, d);
    let copy = copy_values(alloc, &values).expect(rt, "memory");
    check_equal(rt, values == copy, true);
    same(list, &copy)
}

#[test]
fn lists_of_values_stand_in_order(rt: HostRuntime) {
    let alloc = rt.alloc();
    let types = flag_and_range(&rt, alloc);
    let count = joint_count(&types).expect(&rt, "finite types");
    assert!(rt; count <= 4096 && all_bounds_fit(&types));
    let all = joint_values(alloc, &types).expect(&rt, "memory");
    check_equal(&rt, count, 6);
    check_equal(&rt, all.len(), 6);
    for (rank, list) in all.as_slice().iter().enumerate() {
        check_equal(&rt, joint_rank(&types, list), Some(rank as u32));
    }
    let fourth = all.get(3).expect(&rt, "the fourth list");
    check_equal(&rt, is_true_and(&rt, alloc, fourth, -1, 1), true);
}

#[test]
fn list_of_values_at_its_rank(rt: HostRuntime) {
    let alloc = rt.alloc();
    let types = flag_and_range(&rt, alloc);
    let count = joint_count(&types).expect(&rt, "finite types");
    assert!(rt; count <= 4096 && all_bounds_fit(&types));
    let past = joint_at_rank(alloc, &types, 6).expect(&rt, "memory");
    check_equal(&rt, past.is_none(), true);
    let fourth = joint_at_rank(alloc, &types, 3).expect(&rt, "memory");
    let fourth = fourth.expect(&rt, "the fourth list");
    check_equal(&rt, is_true_and(&rt, alloc, &fourth, -1, 1), true);
    check_equal(&rt, is_true_and(&rt, alloc, &fourth, 1, 2), false);
}

#[test]
fn lists_of_types(rt: HostRuntime) {
    let alloc = rt.alloc();
    let types = flag_and_range(&rt, alloc);
    let copies = copy_types(alloc, &types).expect(&rt, "memory");
    check_equal(&rt, &copies, &types);
    check_equal(&rt, all_fit(&types, &copies), true);
    let joined = join_all(alloc, &types, &copies).expect(&rt, "memory");
    check_equal(&rt, joined.as_ref(), Some(&types));
}

/// The first type fits the second, or it doesn't, and their join is this one.
fn check_fit(rt: &impl Abort, alloc: Global, first: &Ty, second: &Ty, want: (bool, Option<&Ty>)) {
    let join = first.join(alloc, second).expect(rt, "memory");
    check_equal(rt, (first.fits(second), join.as_ref()), want);
}

const FITS: [(Ty, Ty, bool, Option<Ty>); 9] = [
    (Ty::Bool, Ty::Bool, true, Some(Ty::Bool)),
    (Ty::Bool, Ty::Number, false, None),
    (Ty::Enum(0, 2), Ty::Enum(0, 3), false, None),
    (
        Ty::Range(0, 1),
        Ty::Range(2, 3),
        false,
        Some(Ty::Range(0, 3)),
    ),
    (
        Ty::Range(-1, 1),
        Ty::Range(-2, 1),
        true,
        Some(Ty::Range(-2, 1)),
    ),
    (
        Ty::Range(0, 2),
        Ty::Range(-2, 1),
        false,
        Some(Ty::Range(-2, 2)),
    ),
    (Ty::Range(0, 1), Ty::Number, true, Some(Ty::Number)),
    (Ty::Number, Ty::Range(0, 1), false, Some(Ty::Number)),
    (Ty::Number, Ty::Bool, false, None),
];

#[test]
fn types_fit_and_join(rt: HostRuntime) {
    for (first, second, fits, join) in FITS {
        check_fit(&rt, rt.alloc(), &first, &second, (fits, join.as_ref()));
    }
}

#[test]
fn tuples_fit_and_join_by_components(rt: HostRuntime) {
    let alloc = rt.alloc();
    let small = pair_of(&rt, alloc, Ty::Range(0, 1), Ty::Enum(0, 2));
    let large = pair_of(&rt, alloc, Ty::Number, Ty::Enum(0, 2));
    let other = pair_of(&rt, alloc, Ty::Number, Ty::Enum(1, 2));
    let none = Ty::Tuple(List::new(alloc));
    check_fit(&rt, alloc, &small, &large, (true, Some(&large)));
    check_fit(&rt, alloc, &large, &small, (false, Some(&large)));
    check_fit(&rt, alloc, &small, &other, (false, None));
    check_fit(&rt, alloc, &small, &none, (false, None));
    check_fit(&rt, alloc, &none, &none, (true, Some(&none)));
}

/// How the first value stands to the second, and so whether they are equal.
fn check_order(rt: &impl Abort, first: Value, second: Value, want: Ordering) {
    check_equal(rt, first.order(&second), want);
    check_equal(rt, first == second, want.is_eq());
}

#[test]
fn values_are_ordered(rt: HostRuntime) {
    let alloc = rt.alloc();
    let third = true_and(&rt, alloc, 1, 3);
    check_order(&rt, third, true_and(&rt, alloc, 1, 2), Ordering::Less);
    let half = true_and(&rt, alloc, 1, 2);
    check_order(&rt, half, true_and(&rt, alloc, 1, 3), Ordering::Greater);
    let third = true_and(&rt, alloc, 1, 3);
    let copy = third.copy(alloc).expect(&rt, "memory");
    check_order(&rt, third, copy, Ordering::Equal);
    check_order(&rt, Value::Case(0, 3), Value::Case(0, 2), Ordering::Greater);
    check_order(&rt, Value::Flag(false), Value::Flag(true), Ordering::Less);
    let less = fraction(&rt, -3, 2);
    check_order(&rt, less, fraction(&rt, -1, 1), Ordering::Less);
}

fn check_holds(rt: &impl Abort, ty: Ty, value: Value, want: bool) {
    check_equal(rt, ty.holds(&value), want);
}

#[test]
fn values_are_of_types(rt: HostRuntime) {
    let alloc = rt.alloc();
    let exact = pair_of(&rt, alloc, Ty::Bool, Ty::Number);
    check_holds(&rt, exact, true_and(&rt, alloc, 1, 3), true);
    let whole = pair_of(&rt, alloc, Ty::Bool, Ty::Range(0, 1));
    check_holds(&rt, whole, true_and(&rt, alloc, 1, 3), false);
    check_holds(&rt, Ty::Range(-2, -1), fraction(&rt, -2, 1), true);
    check_holds(&rt, Ty::Range(-2, -1), fraction(&rt, -3, 2), false);
    check_holds(&rt, Ty::Range(-2, -1), fraction(&rt, 0, 1), false);
    check_holds(&rt, Ty::Enum(0, 2), Value::Case(0, 2), false);
    check_holds(&rt, Ty::Enum(0, 2), Value::Case(1, 0), false);
}

/// The lesser of the two, by the bound alone.
fn lesser<T: Ord + Drop>(first: T, second: T) -> T {
    std::cmp::min(first, second)
}

#[test]
fn values_are_ord(rt: HostRuntime) {
    let less = fraction(&rt, -3, 2);
    let more = fraction(&rt, -1, 1);
    check_equal(&rt, less.cmp(&more), Ordering::Less);
    check_equal(&rt, more.partial_cmp(&less), Some(Ordering::Greater));
    check_equal(&rt, less < more, true);
    check_equal(&rt, lesser(more, less), fraction(&rt, -3, 2));
}

/// The enum's number, the case's index, and its name.
const CASES: &[(u32, u32, Option<&str>)] = &[
    (0, 0, Some("Cooperate")),
    (0, 1, Some("Defect")),
    (0, 2, None),
    (1, 0, None),
];

#[test]
fn names_of_enums_and_cases(rt: HostRuntime) {
    let enums = moves(&rt, rt.alloc());
    let enums = enums.copy(rt.alloc()).expect(&rt, "memory");
    check_equal(&rt, enums.families.len(), 1);
    check_equal(&rt, enums.name(0), Some("Move"));
    check_equal(&rt, enums.name(1), None);
    for &(family, index, want) in CASES {
        check_equal(&rt, enums.case(family, index), want);
    }
}

#[test]
fn copy_of_a_family(rt: HostRuntime) {
    let alloc = rt.alloc();
    let enums = moves(&rt, alloc);
    let family = enums.families.get(0).expect(&rt, "a family");
    let family = family.copy(alloc).expect(&rt, "memory");
    check_equal(&rt, family.name.as_str(), "Move");
    check_equal(&rt, family.cases, texts(&rt, alloc, "Cooperate", "Defect"));
}

/// Whether the names are those of the moves.
fn check_moves(rt: &impl Abort, alloc: Global, names: &Enums, want: bool) {
    check_equal(rt, *names == moves(rt, alloc), want);
}

/// An enum's name and its two cases, and whether they are those of the moves.
const NAMES: &[((&str, &str, &str), bool)] = &[
    (("Move", "Cooperate", "Defect"), true),
    (("Moves", "Cooperate", "Defect"), false),
    (("Move", "Cooperate", "Deflect"), false),
    (("Move", "Defect", "Cooperate"), false),
    (("", "", ""), false),
];

#[test]
fn equal_names(rt: HostRuntime) {
    let alloc = rt.alloc();
    for &(names, want) in NAMES {
        check_moves(&rt, alloc, &one_enum(&rt, alloc, names), want);
    }
    let none = Enums {
        families: List::new(alloc),
    };
    check_moves(&rt, alloc, &none, false);
    let copy = moves(&rt, alloc).copy(alloc).expect(&rt, "memory");
    check_moves(&rt, alloc, &copy, true);
}

/// A case is of its enum.
fn holds_a_case(family: u32, cases: u32, index: u32) -> bool
    requires { index < cases }
    ensures { IsTrue result }
{
    laws::forms_of_values();
    Ty::Enum(family, cases).holds(&Value::Case(family, index))
}

/// A range fits the type of all numbers.
fn range_is_of_numbers(low: i64, high: i64) -> bool
    ensures { IsTrue result }
{
    laws::forms_of_fitting();
    Ty::Range(low, high).fits(&Ty::Number)
}

/// The join of a range and the type of all numbers.
fn joined_with_numbers(alloc: Global, low: i64, high: i64) -> Result<Option<Ty>, AllocError>
    ensures { IfOk result (λ joined. joined ≡ Some Ty.Number) }
{
    laws::forms_of_joining();
    Ty::Range(low, high).join(alloc, &Ty::Number)
}

/// A range is finite.
fn count_of_range(low: i64, high: i64) -> Option<u32>
    ensures { IsSome result }
{
    laws::forms_of_finite_types();
    Ty::Range(low, high).count()
}

/// The bounds of an enum fit.
fn bounds_of_enum(family: u32, cases: u32) -> bool
    ensures { IsTrue result }
{
    laws::forms_of_bounds();
    Ty::Enum(family, cases).bounds_fit()
}

/// The text of a truth.
fn text_of_flag(alloc: Global, flag: bool, enums: &Enums) -> Result<Text, AllocError>
    ensures { IfOk result (λ text. text ≡ (if flag then codes "true" else codes "false")) }
{
    laws::forms_of_text();
    show(alloc, &Value::Flag(flag), enums)
}

/// The only type that fits that of truths is itself.
fn fits_truths(ty: &Ty) -> bool
    ensures { IsTrue result ↔ (ty.now ≡ Ty.Bool) }
{
    laws::types_that_fit();
    laws::forms_of_fitting();
    ty.fits(&Ty::Bool)
}

/// The only type that the type of all numbers fits is itself.
fn numbers_fit(ty: &Ty) -> bool
    ensures { IsTrue result ↔ (ty.now ≡ Ty.Number) }
{
    laws::types_fitted();
    laws::forms_of_fitting();
    Ty::Number.fits(ty)
}

/// A value of the type of truths is a truth.
fn is_truth(value: &Value) -> bool
    requires { holds Ty.Bool value.now ≡ true }
    ensures { IsTrue result }
{
    laws::values_of_types();
    match value {
        Value::Flag(_) => true,
        _ => false,
    }
}

/// Values of types that fit others are of those too.
fn pass_along(types: &List<Ty>, into: &List<Ty>, values: &List<Value>) -> bool
    requires fit { pointwise fits types.now into.now ≡ true }
    requires held { pointwise holds types.now values.now ≡ true }
    ensures { IsTrue result }
{
    laws::lists();
    all_hold(into, values)
}

#[test]
fn laws_hold(rt: HostRuntime) {
    let alloc = rt.alloc();
    check_equal(&rt, holds_a_case(3, 2, 1), true);
    check_equal(&rt, range_is_of_numbers(-1, 5), true);
    let joined = joined_with_numbers(alloc, -1, 5).expect(&rt, "memory");
    check_equal(&rt, joined, Some(Ty::Number));
    check_equal(&rt, count_of_range(-1, 5), Some(7));
    check_equal(&rt, bounds_of_enum(3, 2), true);
    let text = text_of_flag(alloc, true, &moves(&rt, alloc)).expect(&rt, "memory");
    check_equal(&rt, text.as_str(), "true");
    check_equal(&rt, fits_truths(&Ty::Number), false);
    check_equal(&rt, numbers_fit(&Ty::Number), true);
    let value = Value::Flag(false);
    assert!(rt; Ty::Bool.holds(&value));
    check_equal(&rt, is_truth(&value), true);
}

#[test]
fn laws_of_lists_hold(rt: HostRuntime) {
    let alloc = rt.alloc();
    let types = flag_and_range(&rt, alloc);
    let into = pair(&rt, alloc, Ty::Bool, Ty::Number);
    let values = list_of_true_and(&rt, alloc, -1, 1);
    assert!(rt; all_fit(&types, &into) && all_hold(&types, &values));
    check_equal(&rt, pass_along(&types, &into, &values), true);
}
