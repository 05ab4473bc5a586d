ghost use Rattle.std.specs.Prelude.{◌≡◌, ◌↔◌, ◌<◌, ◌^◌, IsTrue, IsOk};
ghost use Rattle.og_frac.specs.Terms.{absolute_over, SameWeights};

use crate::equal::check_equal;
use og_frac::laws::{differences, sizes, weights};
use og_frac::{Frac, FracFault, Sum, SumFault, Term, Wide};
use std::alloc::Global;
use std::cmp::Ordering;
use std::process::Abort;

const LEAST: i64 = -9_223_372_036_854_775_808;

const MOST: i64 = 9_223_372_036_854_775_807;

/// 2^62.
const POWER: i64 = 4_611_686_018_427_387_904;

/// The parts of a fraction, or why there is none.
fn parts(answer: Result<Frac, FracFault>) -> Result<(i64, u64), FracFault> {
    let fraction = answer?;
    Ok((fraction.num(), fraction.den()))
}

fn frac(rt: &impl Abort, n: i64, d: u64) -> Frac {
    Frac::new(n, d).expect(rt, "a fraction that fits")
}

const LOWEST_TERMS: &[(i64, u64, Result<(i64, u64), FracFault>)] = &[
    (6, 4, Ok((3, 2))),
    (-6, 4, Ok((-3, 2))),
    (0, 7, Ok((0, 1))),
    (1, 0, Err(FracFault::Zero)),
    (0, 0, Err(FracFault::Zero)),
    (LEAST, 1, Err(FracFault::Passes)),
    (LEAST, 2, Ok((-4_611_686_018_427_387_904, 1))),
    (LEAST, 3, Err(FracFault::Passes)),
    (LEAST, 9_223_372_036_854_775_808, Ok((-1, 1))),
    (MOST, 1, Ok((MOST, 1))),
    (-MOST, 1, Ok((-MOST, 1))),
    (
        -1,
        9_223_372_036_854_775_807,
        Ok((-1, 9_223_372_036_854_775_807)),
    ),
    (1, 9_223_372_036_854_775_808, Err(FracFault::Passes)),
    (
        2,
        9_223_372_036_854_775_808,
        Ok((1, 4_611_686_018_427_387_904)),
    ),
];

#[test]
fn fractions_in_lowest_terms(rt: HostRuntime) {
    for &(n, d, want) in LOWEST_TERMS {
        check_equal(&rt, parts(Frac::new(n, d)), want);
    }
    check_equal(&rt, parts(Ok(Frac::whole(-7))), Ok((-7, 1)));
}

#[test]
fn arithmetic(rt: HostRuntime) {
    let half = frac(&rt, 1, 2);
    let third = frac(&rt, 1, 3);
    let minus_half = frac(&rt, -1, 2);
    let one = frac(&rt, 1, 1);
    let seven = frac(&rt, 7, 1);
    let zero = frac(&rt, 0, 1);
    let most = frac(&rt, MOST, 1);
    let least = frac(&rt, -MOST, 1);
    let large = frac(&rt, 6_000_000_000_000_000_000, 7);
    let rows = [
        (half.add(third), Ok((5, 6))),
        (minus_half.add(third), Ok((-1, 6))),
        (half.add(half), Ok((1, 1))),
        (most.add(one), Err(FracFault::Passes)),
        (third.sub(half), Ok((-1, 6))),
        (minus_half.sub(minus_half), Ok((0, 1))),
        (least.sub(one), Err(FracFault::Passes)),
        (minus_half.mul(minus_half), Ok((1, 4))),
        (minus_half.mul(seven), Ok((-7, 2))),
        (most.mul(most), Err(FracFault::Passes)),
        (
            large.mul(frac(&rt, 7, 3)),
            Ok((2_000_000_000_000_000_000, 1)),
        ),
        (third.ratio(minus_half, seven), Ok((-2, 3))),
        (minus_half.ratio(minus_half, seven), Ok((1, 1))),
        (minus_half.ratio(zero, minus_half), Ok((-1, 2))),
        (one.ratio(zero, seven), Ok((7, 1))),
        (most.ratio(most, seven), Ok((1, 1))),
        (most.ratio(third, seven), Err(FracFault::Passes)),
    ];
    for (answer, want) in rows {
        check_equal(&rt, parts(answer), want);
    }
}

/// The opposite of a fraction fits.
fn opposite(q: Frac) -> Result<Frac, FracFault>
    ensures { IsOk result }
{
    differences();
    Frac::whole(0).sub(q)
}

#[test]
fn opposites(rt: HostRuntime) {
    for (n, d) in [(1, 2), (-1, 2), (0, 1), (-MOST, 1)] {
        let got = parts(opposite(frac(&rt, n, d)));
        check_equal(&rt, got, Ok((-n, d)));
    }
}

/// `==` tells whether two fractions are the same.
fn same(a: Frac, b: Frac) -> bool
    ensures { IsTrue result ↔ (a ≡ b) }
{
    a == b
}

/// Two fractions, and how the first stands to the second.
const ORDERS: &[(i64, u64, i64, u64, Ordering)] = &[
    (1, 2, 1, 3, Ordering::Greater),
    (-1, 2, 1, 3, Ordering::Less),
    (-1, 2, -1, 3, Ordering::Less),
    (1, 2, 2, 4, Ordering::Equal),
];

#[test]
fn order_by_value(rt: HostRuntime) {
    for &(n, d, other_n, other_d, want) in ORDERS {
        let first = frac(&rt, n, d);
        let second = frac(&rt, other_n, other_d);
        check_equal(&rt, first.cmp(&second), want);
        check_equal(&rt, first.partial_cmp(&second), Some(want));
    }
}

#[test]
fn operators_compare_by_value(rt: HostRuntime) {
    let half = frac(&rt, 1, 2);
    let minus_half = frac(&rt, -1, 2);
    let minus_third = frac(&rt, -1, 3);
    assert!(rt; frac(&rt, 1, 3) < half);
    assert!(rt; minus_half <= minus_third);
    assert!(rt; std::cmp::max(minus_half, minus_third) == minus_third);
    assert!(rt; same(half, frac(&rt, 2, 4)));
    assert!(rt; !same(half, minus_half));
}

const FLOORS: &[(i64, u64, i64)] = &[
    (3, 2, 1),
    (-3, 2, -2),
    (-4, 2, -2),
    (0, 5, 0),
    (-1, 3, -1),
    (-7, 3, -3),
    (7, 1, 7),
    (-MOST, 1, -MOST),
];

#[test]
fn floors(rt: HostRuntime) {
    for &(n, d, want) in FLOORS {
        check_equal(&rt, frac(&rt, n, d).floor(), want);
    }
}

/// The terms with these weights, numerators and denominators.
fn terms(rt: &impl Abort, alloc: Global, parts: &[(u64, i64, u64)]) -> Vec<Term> {
    let mut made = Vec::new(alloc);
    for (weight, n, d) in parts {
        let pay = frac(rt, *n, *d);
        made.push(Term {
            weight: *weight,
            pay,
        })
        .expect(rt, "memory");
    }
    made
}

/// The common denominator of a sum, its sum of sizes and its value, or that it passes. The sum over
/// its own denominator is the value.
fn parts_of_sum(
    rt: &impl Abort,
    terms: &[Term],
    times: u64,
) -> Result<(u64, u128, i128), SumFault> {
    let sum = Sum::of(terms, times.max(1))?;
    check_equal(rt, Sum::part(terms, sum.common), sum.value);
    Ok((sum.common, sum.absolute, sum.value))
}

/// Weights, numerators and denominators, how many times they are taken, and the parts of their sum.
const SUMS: &[(&[(u64, i64, u64)], u64, Result<(u64, u128, i128), SumFault>)] = &[
    (&[], 1, Ok((1, 0, 0))),
    (&[(2, 1, 2), (3, 1, 3)], 5, Ok((6, 12, 12))),
    (&[(2, 1, 2), (3, -1, 3)], 5, Ok((6, 12, 0))),
    (&[(1 << 62, POWER, 1)], 3, Ok((1, 1 << 124, 1 << 124))),
    (&[(1 << 62, POWER, 1)], 4, Err(SumFault::Passes)),
    (
        &[(1 << 62, POWER, 1), (1 << 62, -POWER, 1)],
        1,
        Ok((1, 1 << 125, 0)),
    ),
    (
        &[(1 << 62, POWER, 1), (1 << 62, -POWER, 1)],
        2,
        Err(SumFault::Passes),
    ),
    // At the bounds: 27 * 341606371735362067 is 2^63 + 1, and 2 * (2^62 - 1) is 2^63 - 2.
    (
        &[(1, -1, 9_223_372_036_854_775_807)],
        1,
        Ok((9_223_372_036_854_775_807, 1, -1)),
    ),
    (
        &[(1, 1, 2), (1, -1, 4_611_686_018_427_387_903)],
        1,
        Ok((
            9_223_372_036_854_775_806,
            4_611_686_018_427_387_905,
            4_611_686_018_427_387_901,
        )),
    ),
    (
        &[(1, 1, 27), (1, -1, 341_606_371_735_362_067)],
        1,
        Err(SumFault::Passes),
    ),
    // (2^63 + 1) * (2^63 - 1) is 2^126 - 1.
    (
        &[(9_223_372_036_854_775_809, -MOST, 1)],
        1,
        Ok((1, (1 << 126) - 1, 1 - (1 << 126))),
    ),
    (
        &[(9_223_372_036_854_775_809, -MOST, 1), (1, 1, 1)],
        1,
        Err(SumFault::Passes),
    ),
    (
        &[(9_223_372_036_854_775_809, -MOST, 1)],
        2,
        Err(SumFault::Passes),
    ),
];

#[test]
fn sums_of_terms(rt: HostRuntime) {
    for &(parts, times, want) in SUMS {
        let made = terms(&rt, rt.alloc(), parts);
        check_equal(&rt, parts_of_sum(&rt, made.as_slice(), times), want);
    }
}

/// The parts of two lists with the same weights, which are the same.
fn same_parts(first: &[Term], second: &[Term], common: u64) -> (i128, i128)
    requires weights { SameWeights first.now second.now }
    requires room { absolute_over common first.now < 2 ^ 126 }
    ensures { result.0 ≡ result.1 }
{
    weights();
    (Sum::part(first, common), Sum::part(second, common))
}

#[test]
fn same_weights(rt: HostRuntime) {
    let term = |weight, n| Term {
        weight,
        pay: Frac::whole(n),
    };
    let first = [term(1, 4), term(5, -3), term(2, 4)];
    let second = [term(5, -3), term(3, 4)];
    check_equal(&rt, same_parts(&first, &second, 6), (-18, -18));
}

/// What the terms before an index and those after it add over the denominator of all.
fn parts_of_split(terms: &[Term], mid: usize) -> Result<(i128, i128), SumFault> {
    let sum = Sum::of(terms, 1)?;
    sizes();
    let (front, back) = terms.split_at(mid.min(terms.len()));
    Ok((Sum::part(front, sum.common), Sum::part(back, sum.common)))
}

/// Weights, numerators and denominators, an index among them, and what the terms before it and those
/// after it add over the denominator of all.
const SPLITS: &[(&[(u64, i64, u64)], usize, (i128, i128))] = &[
    (&[(2, 1, 2)], 0, (0, 2)),
    (&[(2, 1, 2), (3, -1, 3)], 1, (6, -6)),
    (&[(1, 1, 2), (5, -3, 4), (7, 2, 3)], 1, (6, 11)),
];

#[test]
fn parts_over_larger_denominators(rt: HostRuntime) {
    for &(parts, mid, want) in SPLITS {
        let made = terms(&rt, rt.alloc(), parts);
        check_equal(&rt, parts_of_split(made.as_slice(), mid), Ok(want));
    }
}

#[test]
fn wide_fractions(rt: HostRuntime) {
    let rows = [
        (-6, 4, (-3, 2), "-3/2"),
        (-8, 4, (-2, 1), "-2"),
        (0, 1 << 127, (0, 1), "0"),
    ];
    for (num, den, want, printed) in rows {
        let wide = Wide::new(num, den);
        check_equal(&rt, (wide.num, wide.den), want);
        let text = format!(in rt.alloc(); "{wide}").expect(&rt, "memory");
        check_equal(&rt, text.as_str(), printed);
    }
}

/// The sum of the terms as a fraction.
fn fraction_of_sum(terms: &[Term]) -> Result<Wide, SumFault> {
    let sum = Sum::of(terms, 1)?;
    sizes();
    Ok(Wide::new(sum.value, u128::from(sum.common)))
}

#[test]
fn fractions_of_sums(rt: HostRuntime) {
    let made = terms(&rt, rt.alloc(), &[(1, 1, 2), (5, -3, 4), (1, 1, 4)]);
    check_equal(&rt, fraction_of_sum(made.as_slice()), Ok(Wide::new(-3, 1)));
}

#[test]
fn printed_text(rt: HostRuntime) {
    for (n, d, want) in [(6, 4, "3/2"), (-6, 4, "-3/2"), (-8, 4, "-2"), (0, 7, "0")] {
        let fraction = frac(&rt, n, d);
        let text = format!(in rt.alloc(); "{fraction}").expect(&rt, "memory");
        check_equal(&rt, text.as_str(), want);
    }
}
