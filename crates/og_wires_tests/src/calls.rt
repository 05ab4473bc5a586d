//! What a game is called with.
use crate::walked::{Case, check_all};
use og_typing::WireFault;

/// Games with parameters.
const PARAMETERS: &[Case] = &[
    // What a parameter may stand for.
    (
        "game g(x : bool) = identity [] []; game main = identity [] [];",
        Ok(()),
    ),
    (
        "type S = { A, B }; game g(s : S, x : bool, n : 0..3, q : number, w : agent) =
identity [] []; game main = identity [] [];",
        Ok(()),
    ),
    (
        "type R = -2..2; game g(_n : R) = identity [] []; game main = identity [] [];",
        Ok(()),
    ),
    (
        "game g(x : (bool, bool)) = identity [] []; game main = identity [] [];",
        Err(WireFault::WrongType(11)),
    ),
    (
        "type P = (bool, number); game g(x : P) = identity [] []; game main = identity [] [];",
        Err(WireFault::WrongType(36)),
    ),
    (
        "game g(x : S) = identity [] []; game main = identity [] [];",
        Err(WireFault::Unknown(11)),
    ),
    (
        "game g(x : (bool, S)) = identity [] []; game main = identity [] [];",
        Err(WireFault::Unknown(18)),
    ),
    (
        "game g(x : S) = identity [] []; type S = { A }; game main = identity [] [];",
        Err(WireFault::Unknown(11)),
    ),
    (
        "game g(x : 3..1) = identity [] []; game main = identity [] [];",
        Err(WireFault::WrongType(11)),
    ),
    (
        "game g(x : 0..4096) = identity [] []; game main = identity [] [];",
        Err(WireFault::TooManyValues(11)),
    ),
    (
        "game g(x : 0..4095) = identity [] []; game main = identity [] [];",
        Ok(()),
    ),
    // What a parameter may be named.
    (
        "game g(x : bool, x : bool) = identity [] []; game main = identity [] [];",
        Err(WireFault::Twice(17)),
    ),
    (
        "game g(_x : bool, y : bool, _x : agent) = identity [] []; game main = identity []
[];",
        Err(WireFault::Twice(28)),
    ),
    (
        "game g(g : bool) = identity [] []; game main = identity [] [];",
        Err(WireFault::Twice(7)),
    ),
    (
        "type S = { A }; game g(A : bool) = identity [] []; game main = identity [] [];",
        Err(WireFault::Twice(23)),
    ),
    (
        "type S = { A }; game g(S : S) = identity [] []; game main = identity [] [];",
        Err(WireFault::Twice(23)),
    ),
    (
        "fn f() : bool = true; game g(f : agent) = identity [] []; game main = identity []
[];",
        Err(WireFault::Twice(29)),
    ),
    (
        "game f = identity [] []; game g(f : bool) = identity [] []; game main = identity []
[];",
        Err(WireFault::Twice(32)),
    ),
    (
        "game g(x : bool) = identity [] []; type x = bool; game main = identity [] [];",
        Ok(()),
    ),
    (
        "game g(x : bool) = identity [] []; game h(x : number) = identity [] []; game main =
identity [] [];",
        Ok(()),
    ),
    // Two faults in each order.
    (
        "game g(x : bool, x : S) = identity [] []; game main = identity [] [];",
        Err(WireFault::Twice(17)),
    ),
    (
        "game g(x : S, x : bool) = identity [] []; game main = identity [] [];",
        Err(WireFault::Unknown(11)),
    ),
    (
        "game g(x : (bool, bool), g : bool) = identity [] []; game main = identity [] [];",
        Err(WireFault::WrongType(11)),
    ),
    (
        "game g(g : (bool, bool)) = identity [] []; game main = identity [] [];",
        Err(WireFault::Twice(7)),
    ),
    (
        "game g(x : S) = h; game main = identity [] [];",
        Err(WireFault::Unknown(11)),
    ),
    (
        "game g(x : bool) = h; game main = identity [] [];",
        Err(WireFault::Unknown(19)),
    ),
    // The names of games stand beside those of types, cases and functions.
    (
        "game g = identity [] []; game g = identity [] []; game main = identity [] [];",
        Err(WireFault::Twice(30)),
    ),
    (
        "game g = identity [] []; game g(x : S) = h; game main = identity [] [];",
        Err(WireFault::Twice(30)),
    ),
    (
        "type S = { A }; game A = identity [] []; game main = identity [] [];",
        Err(WireFault::Twice(21)),
    ),
    (
        "type S = { A }; game S = identity [] []; game main = identity [] [];",
        Err(WireFault::Twice(21)),
    ),
    (
        "fn f() : bool = true; game f = identity [] []; game main = identity [] [];",
        Err(WireFault::Twice(27)),
    ),
    (
        "game g = identity [] []; type g = bool; game main = identity [] [];",
        Err(WireFault::Twice(30)),
    ),
    (
        "game g = identity [] []; type S = { g }; game main = identity [] [];",
        Err(WireFault::Twice(36)),
    ),
    (
        "game g = identity [] []; fn g() : bool = true; game main = identity [] [];",
        Err(WireFault::Twice(28)),
    ),
    (
        "game main = identity [] []; game main = identity [] [];",
        Err(WireFault::Twice(33)),
    ),
    (
        "game g = h; game g = identity [] []; game main = identity [] [];",
        Err(WireFault::Unknown(9)),
    ),
    (
        "game g = identity [] []; game g = identity [] []; game k = h; game main = identity
[] [];",
        Err(WireFault::Twice(30)),
    ),
];

/// Calls of games with their arguments.
const ARGUMENTS: &[Case] = &[
    // Which names can be called.
    ("game g = identity [] []; game main = g;", Ok(())),
    ("game main = g;", Err(WireFault::Unknown(12))),
    ("game main = main;", Err(WireFault::Unknown(12))),
    (
        "game main = g; game g = identity [] [];",
        Err(WireFault::Unknown(12)),
    ),
    ("game main = g(x, 1);", Err(WireFault::Unknown(12))),
    (
        "type S = { A }; game main = S;",
        Err(WireFault::Unknown(28)),
    ),
    (
        "type S = { A }; game main = A;",
        Err(WireFault::Unknown(28)),
    ),
    (
        "fn f() : bool = true; game main = f;",
        Err(WireFault::Unknown(34)),
    ),
    (
        "game g(x : bool) = x; game main = identity [] [];",
        Err(WireFault::Unknown(19)),
    ),
    (
        "game g(w : agent) = w; game main = identity [] [];",
        Err(WireFault::Unknown(20)),
    ),
    // How many arguments there are.
    (
        "game g(x : bool) = identity [] []; game main = g(true);",
        Ok(()),
    ),
    (
        "game g(x : bool) = identity [] []; game main = g;",
        Err(WireFault::WrongCount(47)),
    ),
    (
        "game g = identity [] []; game main = g(true);",
        Err(WireFault::WrongCount(37)),
    ),
    (
        "game g(x : bool) = identity [] []; game main = g(y, 1);",
        Err(WireFault::WrongCount(47)),
    ),
    (
        "game g(x : bool, y : bool) = identity [] []; game main = g(1);",
        Err(WireFault::WrongCount(57)),
    ),
    // Values.
    (
        "game g(n : 0..3) = identity [] []; game main = g(3);",
        Ok(()),
    ),
    (
        "game g(n : 0..3) = identity [] []; game main = g(4);",
        Err(WireFault::WrongType(49)),
    ),
    (
        "game g(n : 0..3) = identity [] []; game main = g(-1);",
        Err(WireFault::WrongType(49)),
    ),
    (
        "game g(n : -3..3) = identity [] []; game main = g(-3);",
        Ok(()),
    ),
    (
        "game g(n : number) = identity [] []; game main = g(-5000);",
        Ok(()),
    ),
    (
        "game g(n : number) = identity [] []; game main = g(true);",
        Err(WireFault::WrongType(51)),
    ),
    (
        "game g(x : bool) = identity [] []; game main = g(1);",
        Err(WireFault::WrongType(49)),
    ),
    (
        "game g(x : bool) = identity [] []; game main = g(\"a\");",
        Err(WireFault::WrongType(49)),
    ),
    (
        "game g(x : number) = identity [] []; game main = g(\"1\");",
        Err(WireFault::WrongType(51)),
    ),
    (
        "game g(x : bool) = identity [] []; game main = g(y);",
        Err(WireFault::Unknown(49)),
    ),
    (
        "game g(x : bool) = identity [] []; game main = g(_y);",
        Err(WireFault::Unknown(49)),
    ),
    (
        "game g(x : bool) = identity [] []; game main = g(x);",
        Err(WireFault::Unknown(49)),
    ),
    (
        "game g(x : bool) = identity [] []; game main = g(g);",
        Err(WireFault::Unknown(49)),
    ),
    (
        "fn f() : bool = true; game g(x : bool) = identity [] []; game main = g(f);",
        Err(WireFault::Unknown(71)),
    ),
    (
        "type S = { A }; game g(x : S) = identity [] []; game main = g(S);",
        Err(WireFault::Unknown(62)),
    ),
    (
        "type S = { A, B }; game g(s : S) = identity [] []; game main = g(B);",
        Ok(()),
    ),
    (
        "type S = { A }; type R = { C }; game g(s : S) = identity [] []; game main = g(C);",
        Err(WireFault::WrongType(78)),
    ),
    (
        "type S = { A }; game g(s : S) = identity [] []; game main = g(true);",
        Err(WireFault::WrongType(62)),
    ),
    (
        "type S = { A }; game g(x : bool) = identity [] []; game main = g(A);",
        Err(WireFault::WrongType(65)),
    ),
    (
        "game g(x : bool) = identity [] []; game main = g((true, 1));",
        Err(WireFault::WrongType(49)),
    ),
    (
        "game g(x : bool) = identity [] []; game main = g((true, C));",
        Err(WireFault::Unknown(56)),
    ),
    // Agents.
    (
        "game g(w : agent) = identity [] []; game main = g(\"a\");",
        Ok(()),
    ),
    (
        "game g(w : agent) = identity [] []; game main = g(true);",
        Err(WireFault::WrongType(50)),
    ),
    (
        "game g(w : agent) = identity [] []; game main = g(1);",
        Err(WireFault::WrongType(50)),
    ),
    (
        "type S = { A }; game g(w : agent) = identity [] []; game main = g(A);",
        Err(WireFault::WrongType(66)),
    ),
    (
        "game g(w : agent) = identity [] []; game main = g(a);",
        Err(WireFault::Unknown(50)),
    ),
    (
        "game g(w : agent) = identity [] []; game main = g(_a);",
        Err(WireFault::Unknown(50)),
    ),
    // The calling game has parameters of its own.
    (
        "game g(n : 0..3) = identity [] []; game h(m : 1..2) = g(m); game main = identity []
[];",
        Ok(()),
    ),
    (
        "game g(n : 0..3) = identity [] []; game h(_m : 0..3) = g(_m); game main = identity
[] [];",
        Ok(()),
    ),
    (
        "game g(n : number) = identity [] []; game h(m : 0..4) = g(m); game main = identity
[] [];",
        Ok(()),
    ),
    (
        "game g(n : 0..3) = identity [] []; game h(m : 0..4) = g(m); game main = identity []
[];",
        Err(WireFault::WrongType(56)),
    ),
    (
        "game g(n : 0..3) = identity [] []; game h(m : number) = g(m); game main = identity
[] [];",
        Err(WireFault::WrongType(58)),
    ),
    (
        "game g(n : 0..3) = identity [] []; game h(n : 0..3) = g(n); game main = identity []
[];",
        Ok(()),
    ),
    (
        "game g(w : agent) = identity [] []; game h(v : agent) = g(v); game main = identity
[] [];",
        Ok(()),
    ),
    (
        "game g(w : agent) = identity [] []; game h(_v : agent) = g(_v); game main = identity
[] [];",
        Ok(()),
    ),
    (
        "game g(w : agent) = identity [] []; game h(v : bool) = g(v); game main = identity []
[];",
        Err(WireFault::WrongType(57)),
    ),
    (
        "game g(x : bool) = identity [] []; game h(v : agent) = g(v); game main = identity []
[];",
        Err(WireFault::WrongType(57)),
    ),
    (
        "game g(x : bool) = identity [] []; game h(v : bool) = g(x); game main = identity []
[];",
        Err(WireFault::Unknown(56)),
    ),
    (
        "game h(v : bool) = identity [] []; game g(x : bool) = h(v); game main = identity []
[];",
        Err(WireFault::Unknown(56)),
    ),
    // What a block has isn't handed to a call.
    (
        "game g(x : bool) = identity [] []; game main = block { :---: operation : nature []
bool { () -> true; }; outputs : b; operation : g(b); :---: };",
        Err(WireFault::Unknown(132)),
    ),
    (
        "game g(x : bool) = identity [] []; game h(p : bool) = block { :---: operation :
g(p); :---: }; game main = identity [] [];",
        Ok(()),
    ),
    // Two faults in each order.
    (
        "game g(x : bool, y : bool) = identity [] []; game main = g(1, z);",
        Err(WireFault::WrongType(59)),
    ),
    (
        "game g(x : bool, y : bool) = identity [] []; game main = g(z, 1);",
        Err(WireFault::Unknown(59)),
    ),
    (
        "game g(x : bool, w : agent) = identity [] []; game main = g(true, false);",
        Err(WireFault::WrongType(66)),
    ),
    (
        "game g(w : agent, x : bool) = identity [] []; game main = g(1, \"a\");",
        Err(WireFault::WrongType(60)),
    ),
    (
        "game g(x : bool) = identity [] []; game main = g(1, true);",
        Err(WireFault::WrongCount(47)),
    ),
    (
        "game g(x : bool) = identity [] []; game main = g(1) &&& g;",
        Err(WireFault::WrongType(49)),
    ),
    (
        "game g(x : bool) = identity [] []; game main = g &&& g(1);",
        Err(WireFault::WrongCount(47)),
    ),
];

#[test]
fn parameters(rt: HostRuntime) {
    check_all(&rt, rt.alloc(), PARAMETERS);
}

#[test]
fn arguments(rt: HostRuntime) {
    check_all(&rt, rt.alloc(), ARGUMENTS);
}
