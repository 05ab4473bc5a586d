//! Decisions, and which actions they allow.
use crate::walked::{Case, check_all};
use og_typing::WireFault;

/// Decisions.
const DECISIONS: &[Case] = &[
    // Whole ones.
    (
        "game main = block { :---: operation : dependentDecision \"a\" [] bool; outputs : x;
returns : 1; :---: };",
        Ok(()),
    ),
    (
        "game main = block { :---: operation : nature [] bool { () -> true; }; outputs : b;
inputs : b; operation : dependentDecision \"a\" [bool] 0..3; outputs : x; returns : x; :---:
};",
        Ok(()),
    ),
    (
        "type S = { A, B }; game g = dependentDecision \"a\" [S, (S, bool), 0..9] (S, S); game
main = identity [] [];",
        Ok(()),
    ),
    (
        "game g = dependentDecision \"\" [] -3..3; game main = identity [] [];",
        Ok(()),
    ),
    // The agent.
    (
        "game g(w : agent) = dependentDecision w [] bool; game main = identity [] [];",
        Ok(()),
    ),
    (
        "game g(_w : agent) = dependentDecision _w [] bool; game main = identity [] [];",
        Ok(()),
    ),
    (
        "game g(w : bool) = dependentDecision w [] bool; game main = identity [] [];",
        Err(WireFault::Unknown(37)),
    ),
    (
        "game g = dependentDecision w [] bool; game main = identity [] [];",
        Err(WireFault::Unknown(27)),
    ),
    (
        "game g = dependentDecision _w [] bool; game main = identity [] [];",
        Err(WireFault::Unknown(27)),
    ),
    (
        "type S = { A }; game g = dependentDecision A [] bool; game main = identity [] [];",
        Err(WireFault::Unknown(43)),
    ),
    (
        "game f(w : agent) = identity [] []; game g(v : agent) = dependentDecision w [] bool;
game main = identity [] [];",
        Err(WireFault::Unknown(74)),
    ),
    // What is observed, and what is chosen from.
    (
        "game g = dependentDecision \"a\" [S] bool; game main = identity [] [];",
        Err(WireFault::Unknown(32)),
    ),
    (
        "game g = dependentDecision \"a\" [] S; game main = identity [] [];",
        Err(WireFault::Unknown(34)),
    ),
    (
        "game g = dependentDecision \"a\" [number] bool; game main = identity [] [];",
        Err(WireFault::NotFinite(32)),
    ),
    (
        "game g = dependentDecision \"a\" [bool, (bool, number)] bool; game main = identity []
[];",
        Err(WireFault::NotFinite(38)),
    ),
    (
        "game g = dependentDecision \"a\" [] number; game main = identity [] [];",
        Err(WireFault::NotFinite(34)),
    ),
    (
        "type N = number; game g = dependentDecision \"a\" [] N; game main = identity [] [];",
        Err(WireFault::NotFinite(51)),
    ),
    (
        "game g = dependentDecision \"a\" [2..1] bool; game main = identity [] [];",
        Err(WireFault::WrongType(32)),
    ),
    (
        "game g = dependentDecision \"a\" [] 0..4096; game main = identity [] [];",
        Err(WireFault::TooManyValues(34)),
    ),
    (
        "game g = dependentDecision \"a\" [] 0..4095; game main = identity [] [];",
        Ok(()),
    ),
    // How many observations there are.
    (
        "game g = dependentDecision \"a\" [0..63, 0..63] bool; game main = identity [] [];",
        Ok(()),
    ),
    (
        "game g = dependentDecision \"a\" [0..4095, 7..7] bool; game main = identity [] [];",
        Ok(()),
    ),
    (
        "game g = dependentDecision \"a\" [0..63, 0..64] bool; game main = identity [] [];",
        Err(WireFault::TooManyValues(9)),
    ),
    (
        "game g = dependentDecision \"a\" [0..4095, bool] bool; game main = identity [] [];",
        Err(WireFault::TooManyValues(9)),
    ),
    (
        "game g = dependentDecision \"a\" [0..4096, bool] bool; game main = identity [] [];",
        Err(WireFault::TooManyValues(32)),
    ),
    (
        "game g = dependentDecision \"a\" [0..4095, 0..4095, 0..4095, 0..4095, 0..4095,
0..4095] bool; game main = identity [] [];",
        Err(WireFault::TooManyValues(9)),
    ),
    // Two faults in each order.
    (
        "game g = dependentDecision w [number] S; game main = identity [] [];",
        Err(WireFault::Unknown(27)),
    ),
    (
        "game g = dependentDecision \"a\" [number, S] bool; game main = identity [] [];",
        Err(WireFault::NotFinite(32)),
    ),
    (
        "game g = dependentDecision \"a\" [S, number] bool; game main = identity [] [];",
        Err(WireFault::Unknown(32)),
    ),
    (
        "game g = dependentDecision \"a\" [number] S; game main = identity [] [];",
        Err(WireFault::NotFinite(32)),
    ),
    (
        "game g = dependentDecision \"a\" [S] number; game main = identity [] [];",
        Err(WireFault::Unknown(32)),
    ),
    (
        "game g = dependentDecision \"a\" [0..63, 0..64] number; game main = identity [] [];",
        Err(WireFault::NotFinite(46)),
    ),
    (
        "game g = dependentDecision \"a\" [0..63, 0..64] S; game main = identity [] [];",
        Err(WireFault::Unknown(46)),
    ),
    (
        "game g = dependentDecision \"a\" [0..63, 0..64] bool >>> h; game main = identity []
[];",
        Err(WireFault::TooManyValues(9)),
    ),
    // What it is wired to.
    (
        "game g = dependentDecision \"a\" [0..1] bool >>> identity [bool] [number]; game main =
identity [] [];",
        Ok(()),
    ),
    (
        "game g = identity [0..1] [] >>> dependentDecision \"a\" [0..1] bool; game main =
identity [] [];",
        Ok(()),
    ),
    (
        "game g = dependentDecision \"a\" [] bool >>> identity [] [number]; game main =
identity [] [];",
        Err(WireFault::WrongCount(43)),
    ),
    (
        "game g = dependentDecision \"a\" [] bool >>> identity [bool] []; game main = identity
[] [];",
        Err(WireFault::WrongCount(43)),
    ),
    (
        "game g = dependentDecision \"a\" [] 0..1 >>> identity [0..2] [number]; game main =
identity [] [];",
        Err(WireFault::WrongType(43)),
    ),
    (
        "game g = dependentDecision \"a\" [] bool >>> identity [bool] [0..1]; game main =
identity [] [];",
        Err(WireFault::WrongType(43)),
    ),
    (
        "game g = identity [0..1] [number] >>> dependentDecision \"a\" [0..1] bool; game main =
identity [] [];",
        Err(WireFault::WrongCount(38)),
    ),
];

/// Decisions that allow some actions alone.
const ALLOWED: &[Case] = &[
    // Whole ones.
    (
        "game g = dependentDecision \"a\" [bool] bool among { (true) -> true; (false) -> true,
false; }; game main = identity [] [];",
        Ok(()),
    ),
    (
        "game g = dependentDecision \"a\" [] bool among { () -> true; }; game main = identity
[] [];",
        Ok(()),
    ),
    (
        "type S = { A, B }; game g = dependentDecision \"a\" [0..1, S] S among { (1, B) -> B,
A; (0, A) -> A; (0, B) -> B; (1, A) -> A; }; game main = identity [] [];",
        Ok(()),
    ),
    (
        "game g = dependentDecision \"a\" [(bool, 0..0)] (0..1, bool) among { ((false, 0)) ->
(1, true); ((true, 0)) -> (0, true), (0, false); }; game main = identity [] [];",
        Ok(()),
    ),
    // The count of what is observed.
    (
        "game g = dependentDecision \"a\" [bool] bool among { () -> true; }; game main =
identity [] [];",
        Err(WireFault::WrongCount(51)),
    ),
    (
        "game g = dependentDecision \"a\" [bool] bool among { (true, true) -> true; }; game
main = identity [] [];",
        Err(WireFault::WrongCount(51)),
    ),
    (
        "game g = dependentDecision \"a\" [] bool among { (true) -> true; }; game main =
identity [] [];",
        Err(WireFault::WrongCount(47)),
    ),
    (
        "game g = dependentDecision \"a\" [(bool, bool)] bool among { (true, true) -> true; };
game main = identity [] [];",
        Err(WireFault::WrongCount(59)),
    ),
    // What is observed.
    (
        "game g = dependentDecision \"a\" [bool] bool among { (A) -> true; }; game main =
identity [] [];",
        Err(WireFault::Unknown(52)),
    ),
    (
        "game g = dependentDecision \"a\" [bool] bool among { (1) -> true; }; game main =
identity [] [];",
        Err(WireFault::WrongType(52)),
    ),
    (
        "game g = dependentDecision \"a\" [bool, 0..1] bool among { (true, 2) -> true; }; game
main = identity [] [];",
        Err(WireFault::WrongType(64)),
    ),
    (
        "game g = dependentDecision \"a\" [(bool, 0..1)] bool among { ((true, 2)) -> true; };
game main = identity [] [];",
        Err(WireFault::WrongType(60)),
    ),
    (
        "game g = dependentDecision \"a\" [(bool, 0..1)] bool among { ((2, A)) -> true; }; game
main = identity [] [];",
        Err(WireFault::Unknown(64)),
    ),
    (
        "game g(x : bool) = dependentDecision \"a\" [bool] bool among { (x) -> true; }; game
main = identity [] [];",
        Err(WireFault::Unknown(62)),
    ),
    // Rows for one observation.
    (
        "game g = dependentDecision \"a\" [bool] bool among { (true) -> true; (true) -> false;
}; game main = identity [] [];",
        Err(WireFault::RowTwice(67)),
    ),
    (
        "game g = dependentDecision \"a\" [] bool among { () -> true; () -> true; }; game main
= identity [] [];",
        Err(WireFault::RowTwice(59)),
    ),
    // Actions.
    (
        "game g = dependentDecision \"a\" [] bool among { () -> A; }; game main = identity []
[];",
        Err(WireFault::Unknown(53)),
    ),
    (
        "game g = dependentDecision \"a\" [] bool among { () -> 1; }; game main = identity []
[];",
        Err(WireFault::WrongType(53)),
    ),
    (
        "game g = dependentDecision \"a\" [] 0..3 among { () -> 1, 2, 4; }; game main =
identity [] [];",
        Err(WireFault::WrongType(59)),
    ),
    (
        "game g = dependentDecision \"a\" [] bool among { () -> true, true; }; game main =
identity [] [];",
        Err(WireFault::RowTwice(59)),
    ),
    (
        "game g = dependentDecision \"a\" [] 0..3 among { () -> 3, 1, 3, 1; }; game main =
identity [] [];",
        Err(WireFault::RowTwice(59)),
    ),
    (
        "game g(x : bool) = dependentDecision \"a\" [] bool among { () -> x; }; game main =
identity [] [];",
        Err(WireFault::Unknown(63)),
    ),
    // Observations without a row.
    (
        "game g = dependentDecision \"a\" [bool] bool among { (true) -> true; }; game main =
identity [] [];",
        Err(WireFault::MissingRow(43)),
    ),
    (
        "game g = dependentDecision \"a\" [] bool among { }; game main = identity [] [];",
        Err(WireFault::MissingRow(39)),
    ),
    (
        "game g = dependentDecision \"a\" [bool, bool] bool among { (true, true) -> true;
(false, false) -> true; (true, false) -> true; }; game main = identity [] [];",
        Err(WireFault::MissingRow(49)),
    ),
    // Two faults in each order.
    (
        "game g = dependentDecision \"a\" [bool] bool among { (A, true) -> 1; }; game main =
identity [] [];",
        Err(WireFault::WrongCount(51)),
    ),
    (
        "game g = dependentDecision \"a\" [bool] bool among { (A) -> 1; }; game main = identity
[] [];",
        Err(WireFault::Unknown(52)),
    ),
    (
        "game g = dependentDecision \"a\" [bool] bool among { (true) -> A; (true, true) ->
true; }; game main = identity [] [];",
        Err(WireFault::Unknown(61)),
    ),
    (
        "game g = dependentDecision \"a\" [bool] bool among { () -> A; (true) -> true; }; game
main = identity [] [];",
        Err(WireFault::WrongCount(51)),
    ),
    (
        "game g = dependentDecision \"a\" [bool, bool] bool among { (1, A) -> true; }; game
main = identity [] [];",
        Err(WireFault::WrongType(58)),
    ),
    (
        "game g = dependentDecision \"a\" [bool, bool] bool among { (A, 1) -> true; }; game
main = identity [] [];",
        Err(WireFault::Unknown(58)),
    ),
    (
        "game g = dependentDecision \"a\" [bool] bool among { (true) -> true; (true) -> A; };
game main = identity [] [];",
        Err(WireFault::RowTwice(67)),
    ),
    (
        "game g = dependentDecision \"a\" [bool] bool among { (true) -> A; (true) -> true; };
game main = identity [] [];",
        Err(WireFault::Unknown(61)),
    ),
    (
        "game g = dependentDecision \"a\" [bool] bool among { (true) -> true, true, A; }; game
main = identity [] [];",
        Err(WireFault::RowTwice(67)),
    ),
    (
        "game g = dependentDecision \"a\" [bool] bool among { (true) -> A, true, true; }; game
main = identity [] [];",
        Err(WireFault::Unknown(61)),
    ),
    (
        "game g = dependentDecision \"a\" [bool] bool among { (true) -> true, true; (1) ->
true; }; game main = identity [] [];",
        Err(WireFault::RowTwice(67)),
    ),
    (
        "game g = dependentDecision \"a\" [bool] bool among { (true) -> 1; }; game main =
identity [] [];",
        Err(WireFault::WrongType(61)),
    ),
    (
        "game g = dependentDecision \"a\" [0..63, 0..64] bool among { (A) -> true; }; game main
= identity [] [];",
        Err(WireFault::TooManyValues(9)),
    ),
    (
        "game g = dependentDecision \"a\" [number] bool among { }; game main = identity [] [];",
        Err(WireFault::NotFinite(32)),
    ),
    (
        "game g = dependentDecision \"a\" [] number among { () -> A; }; game main = identity []
[];",
        Err(WireFault::NotFinite(34)),
    ),
    (
        "game g = dependentDecision \"a\" [] bool among { } >>> h; game main = identity [] [];",
        Err(WireFault::MissingRow(39)),
    ),
];

#[test]
fn decisions(rt: HostRuntime) {
    check_all(&rt, rt.alloc(), DECISIONS);
}

#[test]
fn allowed(rt: HostRuntime) {
    check_all(&rt, rt.alloc(), ALLOWED);
}
