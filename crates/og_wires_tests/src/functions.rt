//! Functions forwards and backwards, identities and missing library blocks.
use crate::walked::{Case, check_all};
use og_typing::WireFault;

/// Functions forwards.
const FORWARDS: &[Case] = &[
    // Whole ones.
    (
        "game g = forwardFunction () -> (); game main = identity [] [];",
        Ok(()),
    ),
    (
        "game g = forwardFunction (x : bool) -> (not x : bool); game main = identity [] [];",
        Ok(()),
    ),
    (
        "game g = forwardFunction (x : 0..3, _y : number) -> (x + _y : number, x : 0..4, x :
number); game main = identity [] [];",
        Ok(()),
    ),
    (
        "game g = forwardFunction (x : (bool, number)) -> (x.0 : bool, (x.1, x) : (number,
(bool, number))); game main = identity [] [];",
        Ok(()),
    ),
    (
        "type S = { A, B }; fn f(s : S) : bool = s == A; game g = forwardFunction (s : S) ->
(f(s) : bool, B : S, f(A) : bool); game main = identity [] [];",
        Ok(()),
    ),
    (
        "game g = forwardFunction (x : number) -> (clamp 0..3 (x) : 0..3, if x < 1 then 2
else 4 end : 2..4); game main = identity [] [];",
        Ok(()),
    ),
    // Parameters.
    (
        "game g = forwardFunction (x : S) -> (); game main = identity [] [];",
        Err(WireFault::Unknown(30)),
    ),
    (
        "game g = forwardFunction (x : 1..0) -> (); game main = identity [] [];",
        Err(WireFault::WrongType(30)),
    ),
    (
        "game g = forwardFunction (x : bool, x : bool) -> (); game main = identity [] [];",
        Err(WireFault::Twice(36)),
    ),
    (
        "game g = forwardFunction (g : bool) -> (); game main = identity [] [];",
        Err(WireFault::Twice(26)),
    ),
    (
        "type S = { A }; game g = forwardFunction (A : bool) -> (); game main = identity []
[];",
        Err(WireFault::Twice(42)),
    ),
    (
        "game g(p : bool) = forwardFunction (p : bool) -> (); game main = identity [] [];",
        Err(WireFault::Twice(36)),
    ),
    (
        "game g(_p : agent) = forwardFunction (_p : bool) -> (); game main = identity [] [];",
        Err(WireFault::Twice(38)),
    ),
    (
        "game g = forwardFunction (x : bool) -> () &&& forwardFunction (x : bool) -> (); game
main = identity [] [];",
        Ok(()),
    ),
    (
        "game g = forwardFunction (h : bool) -> (h : bool); game h = identity [] []; game
main = identity [] [];",
        Ok(()),
    ),
    // Results.
    (
        "game g = forwardFunction (x : bool) -> (y : bool); game main = identity [] [];",
        Err(WireFault::Unknown(40)),
    ),
    (
        "game g = forwardFunction (x : bool) -> (x : S); game main = identity [] [];",
        Err(WireFault::Unknown(44)),
    ),
    (
        "game g = forwardFunction (x : bool) -> (x : number); game main = identity [] [];",
        Err(WireFault::WrongType(40)),
    ),
    (
        "game g = forwardFunction (x : 0..3) -> (x : 0..2); game main = identity [] [];",
        Err(WireFault::WrongType(40)),
    ),
    (
        "game g = forwardFunction (x : 0..3) -> (x + 1 : 0..4); game main = identity [] [];",
        Err(WireFault::WrongType(40)),
    ),
    (
        "game g = forwardFunction (x : 0..3) -> (x : 4..0); game main = identity [] [];",
        Err(WireFault::WrongType(44)),
    ),
    (
        "game g = forwardFunction (x : bool) -> (x + 1 : number); game main = identity [] [];",
        Err(WireFault::WrongType(40)),
    ),
    (
        "game g = forwardFunction (x : bool) -> (g : bool); game main = identity [] [];",
        Err(WireFault::Unknown(40)),
    ),
    (
        "type S = { A }; game g = forwardFunction () -> (S : S); game main = identity [] [];",
        Err(WireFault::Unknown(48)),
    ),
    (
        "fn f() : bool = true; game g = forwardFunction () -> (f : bool); game main =
identity [] [];",
        Err(WireFault::Unknown(54)),
    ),
    (
        "game g = forwardFunction () -> (f() : bool); game main = identity [] [];",
        Err(WireFault::Unknown(32)),
    ),
    (
        "fn f() : bool = true; game g = forwardFunction () -> (f(y) : bool); game main =
identity [] [];",
        Err(WireFault::WrongCount(54)),
    ),
    // The parameters of the game are seen.
    (
        "game g(k : 0..3) = forwardFunction (x : 0..3) -> (x + k : number, k : 0..3); game
main = identity [] [];",
        Ok(()),
    ),
    (
        "game g(w : agent) = forwardFunction () -> (w : bool); game main = identity [] [];",
        Err(WireFault::WrongType(43)),
    ),
    (
        "game g(w : agent) = forwardFunction () -> (not w : bool); game main = identity []
[];",
        Err(WireFault::WrongType(47)),
    ),
    (
        "game g(w : agent) = forwardFunction () -> (w == w : bool); game main = identity []
[];",
        Err(WireFault::WrongType(43)),
    ),
    (
        "game f(k : bool) = identity [] []; game g = forwardFunction () -> (k : bool); game
main = identity [] [];",
        Err(WireFault::Unknown(67)),
    ),
    // One function doesn't see what another has.
    (
        "game g = forwardFunction (x : bool) -> (x : bool) >>> forwardFunction (y : bool) ->
(x : bool); game main = identity [] [];",
        Err(WireFault::Unknown(85)),
    ),
    // Two faults in each order.
    (
        "game g = forwardFunction (x : S) -> (y : bool); game main = identity [] [];",
        Err(WireFault::Unknown(30)),
    ),
    (
        "game g = forwardFunction (x : bool, x : S) -> (); game main = identity [] [];",
        Err(WireFault::Twice(36)),
    ),
    (
        "game g = forwardFunction (x : S, x : bool) -> (); game main = identity [] [];",
        Err(WireFault::Unknown(30)),
    ),
    (
        "game g = forwardFunction (x : bool) -> (y : S); game main = identity [] [];",
        Err(WireFault::Unknown(40)),
    ),
    (
        "game g = forwardFunction (x : bool) -> (x : S, y : bool); game main = identity []
[];",
        Err(WireFault::Unknown(44)),
    ),
    (
        "game g = forwardFunction (x : bool) -> (x : number, y : bool); game main = identity
[] [];",
        Err(WireFault::WrongType(40)),
    ),
    (
        "game g = forwardFunction (x : bool) -> (y : bool, x : number); game main = identity
[] [];",
        Err(WireFault::Unknown(40)),
    ),
    (
        "game g = forwardFunction (x : bool) -> (y + x : bool); game main = identity [] [];",
        Err(WireFault::Unknown(40)),
    ),
    (
        "game g = forwardFunction (x : bool) -> (x + y : bool); game main = identity [] [];",
        Err(WireFault::WrongType(40)),
    ),
    // How deep a result is.
    (
        "game g = forwardFunction () -> (not (not (not (not (not (not (not (not (not (not
(not (not (not (not (not (not (not (not (not (not (not (not (not (not (not (not (not (not
(not (not (not (not (not (not (not (not (not (not (not (not (not (not (not (not (not (not
(not true)))))))))))))))))))))))))))))))))))))))))))))) : bool); game main = identity [] [];",
        Ok(()),
    ),
    (
        "game g = forwardFunction () -> (not (not (not (not (not (not (not (not (not (not
(not (not (not (not (not (not (not (not (not (not (not (not (not (not (not (not (not (not
(not (not (not (not (not (not (not (not (not (not (not (not (not (not (not (not (not (not
(not (not true))))))))))))))))))))))))))))))))))))))))))))))) : bool); game main = identity
[] [];",
        Err(WireFault::TooBig(271)),
    ),
    (
        "game g = forwardFunction () -> (not (not (not (not (not (not (not (not (not (not
(not (not (not (not (not (not (not (not (not (not (not (not (not (not (not (not (not (not
(not (not (not (not (not (not (not (not (not (not (not (not (not (not (not (not (not (not
(not (not y))))))))))))))))))))))))))))))))))))))))))))))) : S); game main = identity [] [];",
        Err(WireFault::TooBig(271)),
    ),
];

/// Functions backwards, identities, and blocks that no library has.
const BACKWARDS: &[Case] = &[
    // Functions backwards.
    (
        "game g = backwardFunction () -> (); game main = identity [] [];",
        Ok(()),
    ),
    (
        "game g = backwardFunction (u : number) -> (u / 2 : number, 1 : 0..1); game main =
identity [] [];",
        Ok(()),
    ),
    (
        "game g(k : number) = backwardFunction (u : number) -> (u * k : number); game main =
identity [] [];",
        Ok(()),
    ),
    (
        "game g = backwardFunction (u : S) -> (); game main = identity [] [];",
        Err(WireFault::Unknown(31)),
    ),
    (
        "game g = backwardFunction (u : number, u : number) -> (); game main = identity []
[];",
        Err(WireFault::Twice(39)),
    ),
    (
        "game g(p : bool) = backwardFunction (p : bool) -> (); game main = identity [] [];",
        Err(WireFault::Twice(37)),
    ),
    (
        "game g = backwardFunction (u : number) -> (v : number); game main = identity [] [];",
        Err(WireFault::Unknown(43)),
    ),
    (
        "game g = backwardFunction (u : number) -> (u : S); game main = identity [] [];",
        Err(WireFault::Unknown(47)),
    ),
    (
        "game g = backwardFunction (u : number) -> (u : 0..1); game main = identity [] [];",
        Err(WireFault::WrongType(43)),
    ),
    (
        "game g(w : agent) = backwardFunction (u : number) -> (u + w : number); game main =
identity [] [];",
        Err(WireFault::WrongType(58)),
    ),
    (
        "game g = backwardFunction (u : S) -> (v : number); game main = identity [] [];",
        Err(WireFault::Unknown(31)),
    ),
    (
        "game g = backwardFunction (u : number) -> (v : S); game main = identity [] [];",
        Err(WireFault::Unknown(43)),
    ),
    (
        "game g = backwardFunction (u : number) -> (u : bool, v : number); game main =
identity [] [];",
        Err(WireFault::WrongType(43)),
    ),
    // What goes forwards and what goes backwards.
    (
        "game g = forwardFunction (x : 0..1) -> (x == 1 : bool) >>> identity [bool] []; game
main = identity [] [];",
        Ok(()),
    ),
    (
        "game g = forwardFunction () -> (true : bool) >>> identity [] [bool]; game main =
identity [] [];",
        Err(WireFault::WrongCount(49)),
    ),
    (
        "game g = forwardFunction () -> (1 : 0..1) >>> identity [1..1] []; game main =
identity [] [];",
        Err(WireFault::WrongType(46)),
    ),
    (
        "game g = identity [] [number] >>> backwardFunction (u : bool) -> (1 : number); game
main = identity [] [];",
        Ok(()),
    ),
    (
        "game g = backwardFunction (u : number) -> (u : number) >>> identity [] [number];
game main = identity [] [];",
        Ok(()),
    ),
    (
        "game g = backwardFunction () -> (1 : number) >>> identity [] [number]; game main =
identity [] [];",
        Err(WireFault::WrongCount(49)),
    ),
    (
        "game g = identity [] [number] >>> backwardFunction (u : number) -> (1 : 0..1); game
main = identity [] [];",
        Err(WireFault::WrongType(34)),
    ),
    (
        "game g = identity [number] [] >>> backwardFunction (u : number) -> (); game main =
identity [] [];",
        Err(WireFault::WrongCount(34)),
    ),
    // Identities.
    (
        "game g = identity [] []; game main = identity [] [];",
        Ok(()),
    ),
    (
        "type S = { A }; game g = identity [S, number, (bool, S)] [0..3, S]; game main =
identity [] [];",
        Ok(()),
    ),
    (
        "game g = identity [S] []; game main = identity [] [];",
        Err(WireFault::Unknown(19)),
    ),
    (
        "game g = identity [] [S]; game main = identity [] [];",
        Err(WireFault::Unknown(22)),
    ),
    (
        "game g = identity [bool, 1..0] []; game main = identity [] [];",
        Err(WireFault::WrongType(25)),
    ),
    (
        "game g = identity [] [0..4096]; game main = identity [] [];",
        Err(WireFault::TooManyValues(22)),
    ),
    (
        "game g = identity [S] [1..0]; game main = identity [] [];",
        Err(WireFault::Unknown(19)),
    ),
    (
        "game g = identity [1..0] [S]; game main = identity [] [];",
        Err(WireFault::WrongType(19)),
    ),
    (
        "game g = identity [] [bool, S, 1..0]; game main = identity [] [];",
        Err(WireFault::Unknown(28)),
    ),
    // The size of a tuple type.
    (
        "game g = identity [(((((((number, bool), bool), bool), bool), bool), bool), bool)]
[]; game main = identity [] [];",
        Ok(()),
    ),
    (
        "game g = identity [((((((((number, bool), bool), bool), bool), bool), bool), bool),
bool)] []; game main = identity [] [];",
        Err(WireFault::TooBig(19)),
    ),
    (
        "game g = identity [] [(number, number, number, number, number, number, number,
number, number, number, number, number, number, number, number, number, number, number,
number, number, number, number, number, number, number, number, number, number, number,
number, number)]; game main = identity [] [];",
        Ok(()),
    ),
    (
        "game g = identity [] [(number, number, number, number, number, number, number,
number, number, number, number, number, number, number, number, number, number, number,
number, number, number, number, number, number, number, number, number, number, number,
number, number, number)]; game main = identity [] [];",
        Err(WireFault::TooBig(22)),
    ),
    (
        "game g = identity [] [(bool, bool, bool, bool, bool, bool, bool, bool, bool, bool,
bool, bool, bool, bool, bool, bool, bool, bool, bool, bool, bool, bool, bool, bool, bool,
bool, bool, bool, bool, bool, bool, bool)]; game main = identity [] [];",
        Err(WireFault::TooBig(22)),
    ),
    (
        "game g = identity [] [(bool, bool, bool, bool, bool, bool, bool, bool, bool, bool,
bool, bool, bool)]; game main = identity [] [];",
        Err(WireFault::TooManyValues(22)),
    ),
    (
        "game g = identity [] [(bool, bool, bool, bool, bool, bool, bool, bool, bool, bool,
bool, bool)]; game main = identity [] [];",
        Ok(()),
    ),
    // Blocks that no library has.
    (
        "game g = library split2; game main = identity [] [];",
        Err(WireFault::Unknown(17)),
    ),
    (
        "game split2 = identity [] []; game g = library split2; game main = identity [] [];",
        Err(WireFault::Unknown(47)),
    ),
    (
        "game g = library first >>> library second; game main = identity [] [];",
        Err(WireFault::Unknown(17)),
    ),
    (
        "game g = first >>> library second; game main = identity [] [];",
        Err(WireFault::Unknown(9)),
    ),
];

#[test]
fn forwards(rt: HostRuntime) {
    check_all(&rt, rt.alloc(), FORWARDS);
}

#[test]
fn backwards(rt: HostRuntime) {
    check_all(&rt, rt.alloc(), BACKWARDS);
}
