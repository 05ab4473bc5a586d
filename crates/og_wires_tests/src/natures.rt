//! Natures, with their rows, weights and scales.
use crate::walked::{Case, check_all};
use og_typing::WireFault;

/// Natures and their rows.
const NATURES: &[Case] = &[
    // Whole ones.
    (
        "game g = nature [] bool { () -> true : 1/2, false : 1/2; }; game main = identity []
[];",
        Ok(()),
    ),
    (
        "game g = nature [] bool { () -> true; }; game main = identity [] [];",
        Ok(()),
    ),
    (
        "game g = nature [bool] 0..2 { (false) -> 2; (true) -> 0 : 1/3, 2 : 2/3; }; game main
= identity [] [];",
        Ok(()),
    ),
    (
        "type S = { A, B }; game g = nature [S, bool] S { (B, true) -> A; (A, true) -> B; (A,
false) -> B; (B, false) -> A; }; game main = identity [] [];",
        Ok(()),
    ),
    (
        "game g = nature [(bool, 0..0)] (bool, 1..1) { ((true, 0)) -> (false, 1); ((false,
0)) -> (true, 1); }; game main = identity [] [];",
        Ok(()),
    ),
    // The types.
    (
        "game g = nature [S] bool { }; game main = identity [] [];",
        Err(WireFault::Unknown(17)),
    ),
    (
        "game g = nature [] S { }; game main = identity [] [];",
        Err(WireFault::Unknown(19)),
    ),
    (
        "game g = nature [number] bool { }; game main = identity [] [];",
        Err(WireFault::NotFinite(17)),
    ),
    (
        "game g = nature [] number { }; game main = identity [] [];",
        Err(WireFault::NotFinite(19)),
    ),
    (
        "game g = nature [bool] (number, bool) { }; game main = identity [] [];",
        Err(WireFault::NotFinite(23)),
    ),
    (
        "game g = nature [] 2..1 { }; game main = identity [] [];",
        Err(WireFault::WrongType(19)),
    ),
    (
        "game g = nature [0..4096] bool { }; game main = identity [] [];",
        Err(WireFault::TooManyValues(17)),
    ),
    (
        "game g = nature [0..63, 0..64] bool { }; game main = identity [] [];",
        Err(WireFault::TooManyValues(9)),
    ),
    (
        "game g = nature [0..63, 0..63] bool { }; game main = identity [] [];",
        Err(WireFault::MissingRow(9)),
    ),
    (
        "game g = nature [number] S { }; game main = identity [] [];",
        Err(WireFault::NotFinite(17)),
    ),
    (
        "game g = nature [S] number { }; game main = identity [] [];",
        Err(WireFault::Unknown(17)),
    ),
    (
        "game g = nature [0..63, 0..64] number { }; game main = identity [] [];",
        Err(WireFault::NotFinite(31)),
    ),
    (
        "game g = nature [0..63, 0..64] bool { (A) -> true; }; game main = identity [] [];",
        Err(WireFault::TooManyValues(9)),
    ),
    (
        "game g = nature [number] bool { (A) -> true; }; game main = identity [] [];",
        Err(WireFault::NotFinite(17)),
    ),
    // What is observed.
    (
        "game g = nature [bool] bool { () -> true; }; game main = identity [] [];",
        Err(WireFault::WrongCount(30)),
    ),
    (
        "game g = nature [] bool { (true) -> true; }; game main = identity [] [];",
        Err(WireFault::WrongCount(26)),
    ),
    (
        "game g = nature [bool] bool { (true) -> true; (false, false) -> true; }; game main =
identity [] [];",
        Err(WireFault::WrongCount(46)),
    ),
    (
        "game g = nature [bool] bool { (A) -> true; }; game main = identity [] [];",
        Err(WireFault::Unknown(31)),
    ),
    (
        "game g = nature [bool] bool { (1) -> true; }; game main = identity [] [];",
        Err(WireFault::WrongType(31)),
    ),
    (
        "game g = nature [0..1, 0..1] bool { (0, 2) -> true; }; game main = identity [] [];",
        Err(WireFault::WrongType(40)),
    ),
    (
        "type S = { A }; type R = { C }; game g = nature [S] bool { (C) -> true; }; game main
= identity [] [];",
        Err(WireFault::WrongType(60)),
    ),
    (
        "type S = { A }; game g = nature [(S, bool)] bool { ((A, 3)) -> true; }; game main =
identity [] [];",
        Err(WireFault::WrongType(52)),
    ),
    (
        "type S = { A }; game g = nature [(bool, S)] bool { ((3, C)) -> true; }; game main =
identity [] [];",
        Err(WireFault::Unknown(56)),
    ),
    (
        "game g(x : bool) = nature [bool] bool { (x) -> true; }; game main = identity [] [];",
        Err(WireFault::Unknown(41)),
    ),
    (
        "game g = nature [bool] bool { (true) -> true; (true) -> false; }; game main =
identity [] [];",
        Err(WireFault::RowTwice(46)),
    ),
    (
        "game g = nature [] bool { () -> true; () -> true; }; game main = identity [] [];",
        Err(WireFault::RowTwice(38)),
    ),
    (
        "game g = nature [0..1, 0..1] bool { (0, 1) -> true; (1, 0) -> true; (0, 1) -> true;
}; game main = identity [] [];",
        Err(WireFault::RowTwice(68)),
    ),
    // Outcomes.
    (
        "game g = nature [] bool { () -> A; }; game main = identity [] [];",
        Err(WireFault::Unknown(32)),
    ),
    (
        "game g = nature [] bool { () -> 0; }; game main = identity [] [];",
        Err(WireFault::WrongType(32)),
    ),
    (
        "game g = nature [] 0..3 { () -> 1 : 1/2, 4 : 1/2; }; game main = identity [] [];",
        Err(WireFault::WrongType(41)),
    ),
    (
        "game g = nature [] (bool, bool) { () -> true; }; game main = identity [] [];",
        Err(WireFault::WrongType(40)),
    ),
    (
        "game g = nature [] bool { () -> true : 1/2, true : 1/2; }; game main = identity []
[];",
        Err(WireFault::RowTwice(44)),
    ),
    (
        "game g = nature [] bool { () -> true, true : 0; }; game main = identity [] [];",
        Err(WireFault::RowTwice(38)),
    ),
    (
        "game g = nature [] (bool, 0..1) { () -> (true, 0) : 1/3, (true, 1) : 1/3, (true, 0)
: 1/3; }; game main = identity [] [];",
        Err(WireFault::RowTwice(74)),
    ),
    (
        "game g(x : bool) = nature [] bool { () -> x; }; game main = identity [] [];",
        Err(WireFault::Unknown(42)),
    ),
    // Observations without a row.
    (
        "game g = nature [] bool { }; game main = identity [] [];",
        Err(WireFault::MissingRow(9)),
    ),
    (
        "game g = nature [bool] bool { (false) -> true; }; game main = identity [] [];",
        Err(WireFault::MissingRow(9)),
    ),
    // Two faults in each order.
    (
        "game g = nature [bool] bool { (A, true) -> 1; }; game main = identity [] [];",
        Err(WireFault::WrongCount(30)),
    ),
    (
        "game g = nature [bool, bool] bool { (1, A) -> true; }; game main = identity [] [];",
        Err(WireFault::WrongType(37)),
    ),
    (
        "game g = nature [bool, bool] bool { (A, 1) -> true; }; game main = identity [] [];",
        Err(WireFault::Unknown(37)),
    ),
    (
        "game g = nature [bool] bool { (A) -> 1; }; game main = identity [] [];",
        Err(WireFault::Unknown(31)),
    ),
    (
        "game g = nature [bool] bool { (true) -> true; (true) -> A; }; game main = identity
[] [];",
        Err(WireFault::RowTwice(46)),
    ),
    (
        "game g = nature [bool] bool { (true) -> A; (true) -> true; }; game main = identity
[] [];",
        Err(WireFault::Unknown(40)),
    ),
    (
        "game g = nature [bool] bool { (true) -> 1, true, true; }; game main = identity []
[];",
        Err(WireFault::WrongType(40)),
    ),
    (
        "game g = nature [bool] bool { (true) -> true, true, 1; }; game main = identity []
[];",
        Err(WireFault::RowTwice(46)),
    ),
    (
        "game g = nature [bool] bool { (true) -> true, true; (A) -> true; }; game main =
identity [] [];",
        Err(WireFault::RowTwice(46)),
    ),
    (
        "game g = nature [bool] bool { (A) -> true; (true) -> true, true; }; game main =
identity [] [];",
        Err(WireFault::Unknown(31)),
    ),
    (
        "game g = nature [bool] bool { (true) -> true; () -> true; }; game main = identity []
[];",
        Err(WireFault::WrongCount(46)),
    ),
    // What it is wired to.
    (
        "game g = nature [0..1] bool { (0) -> true; (1) -> true; } >>> identity [bool] [];
game main = identity [] [];",
        Ok(()),
    ),
    (
        "game g = nature [] bool { () -> true; } >>> identity [] []; game main = identity []
[];",
        Err(WireFault::WrongCount(44)),
    ),
    (
        "game g = nature [] bool { () -> true; } >>> identity [bool] [number]; game main =
identity [] [];",
        Err(WireFault::WrongCount(44)),
    ),
    (
        "game g = nature [] 0..1 { () -> 1; } >>> identity [0..2] []; game main = identity []
[];",
        Err(WireFault::WrongType(41)),
    ),
];

/// Natures with their weights.
const WEIGHTS: &[Case] = &[
    // Weights that sum to one.
    (
        "game g = nature [] bool { () -> true : 1, false : 0; }; game main = identity [] [];",
        Ok(()),
    ),
    (
        "game g = nature [] bool { () -> true : 2/4, false : 2/4; }; game main = identity []
[];",
        Ok(()),
    ),
    (
        "game g = nature [] bool { () -> true : 3/3; }; game main = identity [] [];",
        Ok(()),
    ),
    (
        "game g = nature [] 0..2 { () -> 0 : 1/2, 1 : 1/3, 2 : 1/6; }; game main = identity
[] [];",
        Ok(()),
    ),
    (
        "game g = nature [] bool { () -> true : 9223372036854775807/9223372036854775807; };
game main = identity [] [];",
        Ok(()),
    ),
    // Weights that don't.
    (
        "game g = nature [] bool { () -> true : 1/2, false : 1/3; }; game main = identity []
[];",
        Err(WireFault::NotOne(26)),
    ),
    (
        "game g = nature [] bool { () -> true, false; }; game main = identity [] [];",
        Err(WireFault::NotOne(26)),
    ),
    (
        "game g = nature [] bool { () -> true : 0; }; game main = identity [] [];",
        Err(WireFault::NotOne(26)),
    ),
    (
        "game g = nature [] bool { () -> true : 2, false : 1/2; }; game main = identity []
[];",
        Err(WireFault::NotOne(26)),
    ),
    (
        "game g = nature [] 0..2 { () -> 0 : 1/3, 1 : 1/3; }; game main = identity [] [];",
        Err(WireFault::NotOne(26)),
    ),
    (
        "game g = nature [] bool { () -> true : 9223372036854775807; }; game main = identity
[] [];",
        Err(WireFault::NotOne(26)),
    ),
    (
        "game g = nature [] 0..2 { () -> 0 : 9223372036854775807, 1 : 9223372036854775807, 2
: 3; }; game main = identity [] [];",
        Err(WireFault::NotOne(26)),
    ),
    (
        "game g = nature [] 0..9 { () -> 0 : 9223372036854775807, 1 : 9223372036854775807, 2
: 9223372036854775807, 3 : 9223372036854775807, 4 : 9223372036854775807, 5 :
9223372036854775807, 6 : 9223372036854775807, 7 : 9223372036854775807, 8 :
9223372036854775807, 9 : 1/4611686018427387903; }; game main = identity [] [];",
        Err(WireFault::NotOne(26)),
    ),
    // The first such row in the text.
    (
        "game g = nature [bool] bool { (true) -> true; (false) -> false : 1/2; }; game main =
identity [] [];",
        Err(WireFault::NotOne(46)),
    ),
    (
        "game g = nature [bool] bool { (true) -> true : 1/2; (false) -> false; }; game main =
identity [] [];",
        Err(WireFault::NotOne(30)),
    ),
    (
        "game g = nature [bool] bool { (true) -> true : 1/2; (false) -> false : 1/3; }; game
main = identity [] [];",
        Err(WireFault::NotOne(30)),
    ),
    (
        "game g = nature [bool] bool { (false) -> true : 1/2; (true) -> false : 1/3; }; game
main = identity [] [];",
        Err(WireFault::NotOne(30)),
    ),
    (
        "game g = nature [0..2] bool { (2) -> true; (1) -> true : 0; (0) -> true : 2; }; game
main = identity [] [];",
        Err(WireFault::NotOne(43)),
    ),
    // A scale just below the limit, and at it.
    (
        "game g = nature [] bool { () -> true : 1/4611686018427387903, false :
4611686018427387902/4611686018427387903; }; game main = identity [] [];",
        Ok(()),
    ),
    (
        "game g = nature [] bool { () -> true : 1/2305843009213693952, false :
2305843009213693951/2305843009213693952; }; game main = identity [] [];",
        Ok(()),
    ),
    (
        "game g = nature [] bool { () -> true : 1/4611686018427387904, false :
4611686018427387903/4611686018427387904; }; game main = identity [] [];",
        Err(WireFault::ScaleTooLarge(9)),
    ),
    (
        "game g = nature [] bool { () -> true : 1/9223372036854775807, false :
9223372036854775806/9223372036854775807; }; game main = identity [] [];",
        Err(WireFault::ScaleTooLarge(9)),
    ),
    // Only denominators in lowest terms count, also where nothing is weighed.
    (
        "game g = nature [] bool { () -> true : 2305843009213693952/4611686018427387904,
false : 1/2; }; game main = identity [] [];",
        Ok(()),
    ),
    (
        "game g = nature [] bool { () -> true, false : 0/4611686018427387904; }; game main =
identity [] [];",
        Ok(()),
    ),
    (
        "game g = nature [] bool { () -> true : 2/4611686018427387904, false :
4611686018427387902/4611686018427387904; }; game main = identity [] [];",
        Ok(()),
    ),
    // The rows have one scale together.
    (
        "game g = nature [bool] bool { (true) -> true : 1/2147483648, false :
2147483647/2147483648; (false) -> true : 1/2147483647, false : 2147483646/2147483647; };
game main = identity [] [];",
        Ok(()),
    ),
    (
        "game g = nature [bool] bool { (true) -> true : 1/2147483648, false :
2147483647/2147483648; (false) -> true : 1/2147483649, false : 2147483648/2147483649; };
game main = identity [] [];",
        Err(WireFault::ScaleTooLarge(9)),
    ),
    (
        "game g = nature [bool] bool { (true) -> true : 1/2305843009213693952, false :
2305843009213693951/2305843009213693952; (false) -> true : 1/2305843009213693952, false :
2305843009213693951/2305843009213693952; }; game main = identity [] [];",
        Ok(()),
    ),
    (
        "game g = nature [bool] bool { (true) -> true : 1/2305843009213693952, false :
2305843009213693951/2305843009213693952; (false) -> true : 1/3, false : 2/3; }; game main =
identity [] [];",
        Err(WireFault::ScaleTooLarge(9)),
    ),
    (
        "game g = nature [] 0..3 { () -> 0 : 1/9223372036854775807, 1 :
1/9223372036854775806, 2 : 1/9223372036854775805, 3 : 1/9223372036854775803; }; game main =
identity [] [];",
        Err(WireFault::ScaleTooLarge(9)),
    ),
    // Two faults in each order.
    (
        "game g = nature [] bool { () -> true : 1/4611686018427387904; }; game main =
identity [] [];",
        Err(WireFault::ScaleTooLarge(9)),
    ),
    (
        "game g = nature [bool] bool { (true) -> true : 1/2; (false) -> true :
1/4611686018427387904; }; game main = identity [] [];",
        Err(WireFault::ScaleTooLarge(9)),
    ),
    (
        "game g = nature [bool] bool { (true) -> true : 1/4611686018427387904; }; game main =
identity [] [];",
        Err(WireFault::MissingRow(9)),
    ),
    (
        "game g = nature [bool] bool { (true) -> true : 1/2; }; game main = identity [] [];",
        Err(WireFault::MissingRow(9)),
    ),
    (
        "game g = nature [bool] bool { (true) -> true : 1/2; (false) -> 1; }; game main =
identity [] [];",
        Err(WireFault::WrongType(63)),
    ),
    (
        "game g = nature [bool] bool { (true) -> true : 1/4611686018427387904; (false) ->
true : 0, true; }; game main = identity [] [];",
        Err(WireFault::RowTwice(91)),
    ),
    (
        "game g = nature [bool] bool { (true) -> true : 1/2; (A) -> true; }; game main =
identity [] [];",
        Err(WireFault::Unknown(53)),
    ),
    (
        "game g = nature [] bool { () -> true : 1/2; } >>> h; game main = identity [] [];",
        Err(WireFault::NotOne(26)),
    ),
    (
        "game g = h >>> nature [] bool { () -> true : 1/2; }; game main = identity [] [];",
        Err(WireFault::Unknown(9)),
    ),
];

#[test]
fn natures(rt: HostRuntime) {
    check_all(&rt, rt.alloc(), NATURES);
}

#[test]
fn weights(rt: HostRuntime) {
    check_all(&rt, rt.alloc(), WEIGHTS);
}
