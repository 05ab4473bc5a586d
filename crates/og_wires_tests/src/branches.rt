//! Branches.
use crate::walked::{Case, check_all};
use og_typing::WireFault;

/// Branches.
const BRANCHES: &[Case] = &[
    // Whole ones.
    (
        "version 2 ; game g = branch bool { (true) -> identity [] []; (false) -> identity []
[]; }; game main = identity [] [];",
        Ok(()),
    ),
    (
        "version 2 ; game g = branch 0..0 { (0) -> identity [] []; }; game main = identity []
[];",
        Ok(()),
    ),
    (
        "version 2 ; type S = { A, B }; game g = branch S { (B) -> identity [] []; (A) ->
identity [] []; }; game main = identity [] [];",
        Ok(()),
    ),
    (
        "version 2 ; game g = branch (bool, 1..1) { ((true, 1)) -> identity [] []; ((false,
1)) -> identity [] []; }; game main = identity [] [];",
        Ok(()),
    ),
    (
        "version 2 ; game g = branch bool { (true) -> dependentDecision \"a\" [bool] bool;
(false) -> identity [bool] [] >>> dependentDecision \"b\" [bool] bool; }; game main = identity
[] [];",
        Ok(()),
    ),
    (
        "version 2 ; game f(p : bool) = nature [] bool { () -> true; }; game g = branch bool
{ (true) -> f(true); (false) -> f(false); }; game main = identity [] [];",
        Ok(()),
    ),
    (
        "version 2 ; game g = branch bool { (true) -> branch bool { (true) -> identity [] [];
(false) -> identity [] []; }; (false) -> identity [bool] [] >>> forwardFunction (x : bool)
-> (); }; game main = identity [] [];",
        Ok(()),
    ),
    ("version 2 ; game main = identity [] [];", Ok(())),
    (
        "version 2 ; game main = block { :---: operation : nature [] bool { () -> true; };
outputs : x; inputs : x; operation : branch bool { (true) -> dependentDecision \"a\" [] 0..1;
(false) -> dependentDecision \"b\" [] 0..1; }; outputs : y; returns : y; :---: };",
        Ok(()),
    ),
    // What it goes by.
    (
        "version 2 ; game g = branch S { }; game main = identity [] [];",
        Err(WireFault::Unknown(28)),
    ),
    (
        "version 2 ; game g = branch number { }; game main = identity [] [];",
        Err(WireFault::NotFinite(28)),
    ),
    (
        "version 2 ; game g = branch (bool, number) { }; game main = identity [] [];",
        Err(WireFault::NotFinite(28)),
    ),
    (
        "version 2 ; game g = branch 1..0 { }; game main = identity [] [];",
        Err(WireFault::WrongType(28)),
    ),
    (
        "version 2 ; game g = branch 0..4096 { }; game main = identity [] [];",
        Err(WireFault::TooManyValues(28)),
    ),
    (
        "version 2 ; game g = branch number { (A) -> h; }; game main = identity [] [];",
        Err(WireFault::NotFinite(28)),
    ),
    (
        "version 2 ; game g = branch (number, S) { (A) -> h; }; game main = identity [] [];",
        Err(WireFault::Unknown(37)),
    ),
    // The keys.
    (
        "version 2 ; game g = branch bool { (A) -> identity [] []; }; game main = identity []
[];",
        Err(WireFault::Unknown(36)),
    ),
    (
        "version 2 ; game g = branch bool { (1) -> identity [] []; }; game main = identity []
[];",
        Err(WireFault::WrongType(36)),
    ),
    (
        "version 2 ; game g = branch 0..1 { (0) -> identity [] []; (2) -> identity [] []; };
game main = identity [] [];",
        Err(WireFault::WrongType(59)),
    ),
    (
        "version 2 ; game g = branch (bool, 0..1) { ((true, 2)) -> identity [] []; }; game
main = identity [] [];",
        Err(WireFault::WrongType(44)),
    ),
    (
        "version 2 ; game g = branch (bool, 0..1) { ((2, A)) -> identity [] []; }; game main
= identity [] [];",
        Err(WireFault::Unknown(48)),
    ),
    (
        "version 2 ; game g(p : bool) = branch bool { (p) -> identity [] []; }; game main =
identity [] [];",
        Err(WireFault::Unknown(46)),
    ),
    (
        "version 2 ; game g = branch bool { (true) -> identity [] []; (true) -> identity []
[]; }; game main = identity [] [];",
        Err(WireFault::RowTwice(61)),
    ),
    (
        "version 2 ; game g = branch 0..2 { (0) -> identity [] []; (2) -> identity [] []; (1)
-> identity [] []; (2) -> identity [] []; }; game main = identity [] [];",
        Err(WireFault::RowTwice(104)),
    ),
    // Values without an arm.
    (
        "version 2 ; game g = branch bool { (true) -> identity [] []; }; game main = identity
[] [];",
        Err(WireFault::MissingRow(21)),
    ),
    (
        "version 2 ; game g = branch bool { }; game main = identity [] [];",
        Err(WireFault::MissingRow(21)),
    ),
    (
        "version 2 ; type S = { A, B, C }; game g = branch S { (C) -> identity [] []; (A) ->
identity [] []; }; game main = identity [] [];",
        Err(WireFault::MissingRow(43)),
    ),
    // The arms have the same ports.
    (
        "version 2 ; game g = branch bool { (true) -> identity [] []; (false) -> identity
[bool] []; }; game main = identity [] [];",
        Err(WireFault::WrongCount(72)),
    ),
    (
        "version 2 ; game g = branch bool { (true) -> identity [] []; (false) -> identity []
[bool]; }; game main = identity [] [];",
        Err(WireFault::WrongCount(72)),
    ),
    (
        "version 2 ; game g = branch bool { (true) -> forwardFunction () -> (1 : number);
(false) -> identity [] []; }; game main = identity [] [];",
        Err(WireFault::WrongCount(92)),
    ),
    (
        "version 2 ; game g = branch bool { (true) -> backwardFunction () -> (1 : number);
(false) -> identity [] []; }; game main = identity [] [];",
        Err(WireFault::WrongCount(93)),
    ),
    (
        "version 2 ; game g = branch bool { (true) -> forwardFunction (x : bool) -> ();
(false) -> identity [] []; }; game main = identity [] [];",
        Err(WireFault::WrongCount(90)),
    ),
    (
        "version 2 ; game g = branch bool { (true) -> backwardFunction (x : bool) -> ();
(false) -> identity [] []; }; game main = identity [] [];",
        Err(WireFault::WrongCount(91)),
    ),
    (
        "version 2 ; game g = branch bool { (true) -> identity [bool] []; (false) -> identity
[number] []; }; game main = identity [] [];",
        Err(WireFault::WrongType(76)),
    ),
    (
        "version 2 ; game g = branch bool { (true) -> identity [] [0..1]; (false) -> identity
[] [number]; }; game main = identity [] [];",
        Err(WireFault::WrongType(76)),
    ),
    (
        "version 2 ; game g = branch bool { (true) -> forwardFunction () -> (1 : number);
(false) -> forwardFunction () -> (1 : 0..1); }; game main = identity [] [];",
        Err(WireFault::WrongType(92)),
    ),
    (
        "version 2 ; game g = branch bool { (true) -> backwardFunction () -> (1 : number);
(false) -> backwardFunction () -> (1 : 0..1); }; game main = identity [] [];",
        Err(WireFault::WrongType(93)),
    ),
    (
        "version 2 ; game g = branch bool { (true) -> forwardFunction (x : bool) -> ();
(false) -> forwardFunction (x : 0..1) -> (); }; game main = identity [] [];",
        Err(WireFault::WrongType(90)),
    ),
    (
        "version 2 ; game g = branch bool { (true) -> backwardFunction (x : bool) -> ();
(false) -> backwardFunction (x : 0..1) -> (); }; game main = identity [] [];",
        Err(WireFault::WrongType(91)),
    ),
    (
        "version 2 ; game g = branch 0..2 { (0) -> identity [] []; (1) -> identity [] []; (2)
-> identity [bool] []; }; game main = identity [] [];",
        Err(WireFault::WrongCount(88)),
    ),
    (
        "version 2 ; game g = branch bool { (true) -> identity [bool] []; (false) -> identity
[number] [] &&& identity [] [bool]; }; game main = identity [] [];",
        Err(WireFault::WrongCount(76)),
    ),
    (
        "version 2 ; game g = branch bool { (true) -> identity [bool] [number]; (false) ->
forwardFunction (x : number) -> (x : number); }; game main = identity [] [];",
        Err(WireFault::WrongCount(82)),
    ),
    (
        "version 2 ; game g = branch bool { (true) -> identity [bool, bool] []; (false) ->
(identity [bool] [] &&& identity [number] []); }; game main = identity [] [];",
        Err(WireFault::WrongType(83)),
    ),
    // What is handed in first is what the branch goes by.
    (
        "version 2 ; game g = identity [bool, number] [number] >>> branch bool { (true) ->
identity [number] [number]; (false) -> identity [number] [number]; }; game main = identity
[] [];",
        Ok(()),
    ),
    (
        "version 2 ; game g = identity [number, bool] [] >>> branch bool { (true) -> identity
[number] []; (false) -> identity [number] []; }; game main = identity [] [];",
        Err(WireFault::WrongType(52)),
    ),
    (
        "version 2 ; game g = identity [number] [] >>> branch bool { (true) -> identity
[number] []; (false) -> identity [number] []; }; game main = identity [] [];",
        Err(WireFault::WrongCount(46)),
    ),
    (
        "version 2 ; game g = branch bool { (true) -> identity [number] []; (false) ->
identity [number] []; } >>> identity [number] []; game main = identity [] [];",
        Ok(()),
    ),
    (
        "version 2 ; game g = branch bool { (true) -> identity [number] []; (false) ->
identity [number] []; } >>> identity [bool, number] []; game main = identity [] [];",
        Err(WireFault::WrongCount(106)),
    ),
    // The arms see the parameters of the game, and nothing of a block around them.
    (
        "version 2 ; game g(p : bool, w : agent) = branch bool { (true) -> forwardFunction ()
-> (p : bool); (false) -> block { :---: operation : dependentDecision w [] bool; outputs :
x; returns : 1; :---: outputs : x and p : bool; }; }; game main = identity [] [];",
        Ok(()),
    ),
    (
        "version 2 ; game main = block { :---: operation : nature [] bool { () -> true; };
outputs : x; inputs : x; operation : branch bool { (true) -> forwardFunction () -> (x :
bool); (false) -> h; }; outputs : y; :---: };",
        Err(WireFault::Unknown(166)),
    ),
    (
        "version 2 ; game main = block { :---: operation : nature [] bool { () -> true; };
outputs : x; inputs : x; operation : branch bool { (true) -> block { :---: :---: outputs : x
: bool; }; (false) -> h; }; outputs : y; :---: };",
        Err(WireFault::Unknown(173)),
    ),
    (
        "version 2 ; game f(p : bool) = identity [] []; game main = block { :---: operation :
nature [] bool { () -> true; }; outputs : x; inputs : x; operation : branch bool { (true) ->
f(x); (false) -> h; }; :---: };",
        Err(WireFault::Unknown(180)),
    ),
    (
        "version 2 ; game main = block { :---: operation : nature [] bool { () -> true; };
outputs : x; inputs : x; operation : branch bool { (true) -> block { :---: operation :
nature [] bool { () -> true; }; outputs : x; :---: }; (false) -> block { :---: operation :
nature [] bool { () -> true; }; outputs : x; :---: }; }; :---: };",
        Ok(()),
    ),
    (
        "version 2 ; game g(p : bool) = branch bool { (true) -> block { :---: operation :
nature [] bool { () -> true; }; outputs : p; :---: }; (false) -> identity [] []; }; game
main = identity [] [];",
        Err(WireFault::Twice(123)),
    ),
    // Two faults in each order.
    (
        "version 2 ; game g = branch S { (1) -> h; }; game main = identity [] [];",
        Err(WireFault::Unknown(28)),
    ),
    (
        "version 2 ; game g = branch bool { (A) -> h; }; game main = identity [] [];",
        Err(WireFault::Unknown(36)),
    ),
    (
        "version 2 ; game g = branch bool { (true) -> h; (true) -> identity [] []; }; game
main = identity [] [];",
        Err(WireFault::Unknown(45)),
    ),
    (
        "version 2 ; game g = branch bool { (true) -> identity [] []; (true) -> h; }; game
main = identity [] [];",
        Err(WireFault::RowTwice(61)),
    ),
    (
        "version 2 ; game g = branch bool { (true) -> identity [] []; (true) -> identity
[bool] []; }; game main = identity [] [];",
        Err(WireFault::RowTwice(61)),
    ),
    (
        "version 2 ; game g = branch bool { (true) -> identity [] []; (false) -> h >>>
identity [bool] []; }; game main = identity [] [];",
        Err(WireFault::Unknown(72)),
    ),
    (
        "version 2 ; game g = branch 0..2 { (0) -> identity [] []; (1) -> identity [bool] [];
(2) -> h; }; game main = identity [] [];",
        Err(WireFault::WrongCount(65)),
    ),
    (
        "version 2 ; game g = branch 0..2 { (0) -> identity [] []; (1) -> h; (2) -> identity
[bool] []; }; game main = identity [] [];",
        Err(WireFault::Unknown(65)),
    ),
    (
        "version 2 ; game g = branch 0..2 { (0) -> identity [bool] []; (1) -> identity
[number] []; (2) -> identity [] []; }; game main = identity [] [];",
        Err(WireFault::WrongType(69)),
    ),
    (
        "version 2 ; game g = branch 0..2 { (0) -> identity [bool] []; (1) -> identity [] [];
(2) -> identity [number] []; }; game main = identity [] [];",
        Err(WireFault::WrongCount(69)),
    ),
    (
        "version 2 ; game g = branch 0..2 { (0) -> identity [] []; (1) -> identity [bool] [];
}; game main = identity [] [];",
        Err(WireFault::WrongCount(65)),
    ),
    (
        "version 2 ; game g = branch 0..2 { (0) -> h; }; game main = identity [] [];",
        Err(WireFault::Unknown(42)),
    ),
    (
        "version 2 ; game g = branch 0..2 { (A) -> identity [] []; }; game main = identity []
[];",
        Err(WireFault::Unknown(36)),
    ),
    (
        "version 2 ; game g = branch bool { (true) -> identity [] []; } >>> h; game main =
identity [] [];",
        Err(WireFault::MissingRow(21)),
    ),
    (
        "version 2 ; game g = branch bool { (true) -> identity [] []; (false) -> identity
[bool] []; } >>> h; game main = identity [] [];",
        Err(WireFault::WrongCount(72)),
    ),
];

#[test]
fn branches(rt: HostRuntime) {
    check_all(&rt, rt.alloc(), BRANCHES);
}
