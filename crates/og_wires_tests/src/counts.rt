//! Limits on what a game holds once its calls are replaced by bodies.
use crate::walked::{Case, check_all_behind};
use og_typing::WireFault;

/// Games, each with twice the parts of the one before and one more: the last has 65,535.
const GAMES: &str =
    "version 2 ; game g0 = identity [] []; game g1 = g0 &&& g0; game g2 = g1 &&& g1; game
g3 = g2 &&& g2; game g4 = g3 &&& g3; game g5 = g4 &&& g4; game g6 = g5 &&& g5; game g7 = g6
&&& g6; game g8 = g7 &&& g7; game g9 = g8 &&& g8; game g10 = g9 &&& g9; game g11 = g10 &&&
g10; game g12 = g11 &&& g11; game g13 = g12 &&& g12; game g14 = g13 &&& g13; game g15 = g14
&&& g14; ";

/// Games at the limit on parts, and above it.
const SIZED: &[Case] = &[
    // A block is one more than what it holds.
    (
        "game main = block { :---: operation : g15; :---: };",
        Ok(()),
    ),
    (
        "game main = block { :---: operation : block { :---: operation : g15; :---: }; :---:
};",
        Err(WireFault::TooBig(381)),
    ),
    // A composition is one more than its parts.
    ("game main = g14 >>> g14;", Ok(())),
    ("game main = g15;", Ok(())),
    ("game main = g15 &&& g0;", Err(WireFault::TooBig(381))),
    ("game main = g15 >>> g0;", Err(WireFault::TooBig(381))),
    ("game main = (g15 &&& g15);", Err(WireFault::TooBig(382))),
    (
        "game k = g15; game main = k &&& k;",
        Err(WireFault::TooBig(395)),
    ),
    // A branch is one more than its arms.
    (
        "game k = branch 0..0 { (0) -> g15; }; game main = identity [] [];",
        Ok(()),
    ),
    (
        "game k = branch 0..0 { (0) -> block { :---: operation : g15; :---: }; }; game main =
identity [] [];",
        Err(WireFault::TooBig(378)),
    ),
    (
        "game k = branch bool { (true) -> g14; (false) -> g14; }; game main = identity [] [];",
        Ok(()),
    ),
    (
        "game k = branch bool { (true) -> g14; (false) -> g14 &&& g0; }; game main = identity
[] [];",
        Err(WireFault::TooBig(378)),
    ),
    // Two faults in each order.
    (
        "game main = g15 &&& g15 &&& h;",
        Err(WireFault::Unknown(397)),
    ),
    (
        "game main = h &&& g15 &&& g15;",
        Err(WireFault::Unknown(381)),
    ),
    (
        "game k = g15 &&& g15; game main = h;",
        Err(WireFault::TooBig(378)),
    ),
    (
        "game main = h; game k = g15 &&& g15;",
        Err(WireFault::Unknown(381)),
    ),
    (
        "game main(p : bool) = g15 &&& g15;",
        Err(WireFault::TooBig(391)),
    ),
    (
        "game main = g15 &&& g15 &&& identity [bool] [];",
        Err(WireFault::TooBig(381)),
    ),
    (
        "game main = g15 &&& g15 >>> identity [bool] [];",
        Err(WireFault::WrongCount(397)),
    ),
    (
        "game k = branch bool { (true) -> g15 &&& g15; (false) -> identity [bool] []; }; game
main = identity [] [];",
        Err(WireFault::WrongCount(426)),
    ),
];

/// Games, each with twice the lines of the one before, and one that leaves eight of 4,096.
pub const LINES: &str =
    "version 2 ; fn same(x : bool) : bool = x; fn pick(x : bool, y : bool) : bool = y;
game a0 = block { :---: inputs : 1; operation : identity [number] []; outputs : x; :---: };
game a1 = a0 &&& a0; game a2 = a1 &&& a1; game a3 = a2 &&& a2; game a4 = a3 &&& a3; game a5
= a4 &&& a4; game a6 = a5 &&& a5; game a7 = a6 &&& a6; game a8 = a7 &&& a7; game a9 = a8 &&&
a8; game a10 = a9 &&& a9; game a11 = a10 &&& a10; game rest = a11 &&& a10 &&& a9 &&& a8 &&&
a7 &&& a6 &&& a5 &&& a4 &&& a3; ";

/// Games at the limit on lines, and above it.
const LINED: &[Case] = &[
    // Games that are closed by themselves.
    ("game main = rest &&& a3;", Ok(())),
    (
        "game main = rest &&& a3 &&& a0;",
        Err(WireFault::TooManyLines(488)),
    ),
    (
        "game far = rest &&& rest; game main = identity [] [];",
        Ok(()),
    ),
    (
        "game far = rest &&& rest; game main = far; game k = far;",
        Err(WireFault::TooManyLines(514)),
    ),
    // Decisions and natures are one line each.
    (
        "game main = block { :---: operation : rest &&& a2 &&& a1 &&& a0; operation :
dependentDecision \"a\" [] 0..1; outputs : d; returns : d; :---: };",
        Ok(()),
    ),
    (
        "game main = block { :---: operation : rest &&& a3; operation : dependentDecision \"a\"
[] 0..1; outputs : d; returns : d; :---: };",
        Err(WireFault::TooManyLines(488)),
    ),
    (
        "game main = block { :---: operation : rest &&& a2 &&& a1 &&& a0; operation : nature
[] bool { () -> true; }; outputs : x; :---: };",
        Ok(()),
    ),
    (
        "game main = block { :---: operation : rest &&& a3; operation : nature [] bool { ()
-> true; }; outputs : x; :---: };",
        Err(WireFault::TooManyLines(488)),
    ),
    (
        "game main = block { :---: operation : rest &&& a2 &&& a1 &&& a0; operation : nature
[] bool { () -> true; } >>> forwardFunction (x : bool) -> (); :---: };",
        Ok(()),
    ),
    (
        "game main = block { :---: operation : rest &&& a3; operation : nature [] bool { ()
-> true; } >>> forwardFunction (x : bool) -> (); :---: };",
        Err(WireFault::TooManyLines(488)),
    ),
    // Functions are one line for each result, also where it is just a parameter.
    (
        "game main = block { :---: operation : rest &&& a3; operation : forwardFunction () ->
(); :---: };",
        Ok(()),
    ),
    (
        "game main = block { :---: operation : rest &&& a3 &&& a0; operation :
forwardFunction () -> (); :---: };",
        Err(WireFault::TooManyLines(488)),
    ),
    (
        "game main = block { :---: operation : rest &&& a2 &&& a1; operation :
forwardFunction () -> (1 : number, true : bool); outputs : x, y; :---: };",
        Ok(()),
    ),
    (
        "game main = block { :---: operation : rest &&& a2 &&& a1 &&& a0; operation :
forwardFunction () -> (1 : number, true : bool); outputs : x, y; :---: };",
        Err(WireFault::TooManyLines(488)),
    ),
    (
        "game main = block { :---: operation : rest &&& a2 &&& a1; feedback : u, v; operation
: backwardFunction () -> (1 : number, true : bool); :---: };",
        Ok(()),
    ),
    (
        "game main = block { :---: operation : rest &&& a2 &&& a1 &&& a0; feedback : u, v;
operation : backwardFunction () -> (1 : number, true : bool); :---: };",
        Err(WireFault::TooManyLines(488)),
    ),
    (
        "game main = block { :---: operation : rest &&& a2 &&& a1; operation : nature [] bool
{ () -> true; }; outputs : x; inputs : x; operation : forwardFunction (x : bool) -> (x :
bool); outputs : y; :---: };",
        Ok(()),
    ),
    (
        "game main = block { :---: operation : rest &&& a2 &&& a1 &&& a0; operation : nature
[] bool { () -> true; }; outputs : x; inputs : x; operation : forwardFunction (x : bool) ->
(x : bool); outputs : y; :---: };",
        Err(WireFault::TooManyLines(488)),
    ),
    (
        "game main = block { :---: operation : rest &&& a2 &&& a1; feedback : u; operation :
backwardFunction (u : number) -> (u : number); returns : 1; :---: };",
        Ok(()),
    ),
    (
        "game main = block { :---: operation : rest &&& a2 &&& a1 &&& a0; feedback : u;
operation : backwardFunction (u : number) -> (u : number); returns : 1; :---: };",
        Err(WireFault::TooManyLines(488)),
    ),
    // An identity is no line.
    (
        "game main = block { :---: operation : rest &&& a3; operation : identity [] [] &&&
identity [] []; :---: };",
        Ok(()),
    ),
    (
        "game main = block { :---: operation : rest &&& a3 &&& a0; operation : identity [] []
&&& identity [] []; :---: };",
        Err(WireFault::TooManyLines(488)),
    ),
    // What a line is handed in makes a line, unless it is just a variable.
    (
        "game main = block { :---: operation : rest &&& a2 &&& a1 &&& a0; inputs : true;
operation : identity [bool] []; outputs : y; :---: };",
        Ok(()),
    ),
    (
        "game main = block { :---: operation : rest &&& a3; inputs : true; operation :
identity [bool] []; outputs : y; :---: };",
        Err(WireFault::TooManyLines(488)),
    ),
    (
        "game main = block { :---: operation : rest &&& a2 &&& a1 &&& a0; operation : nature
[] bool { () -> true; }; outputs : x; inputs : x; operation : identity [bool] []; outputs :
y; :---: };",
        Ok(()),
    ),
    (
        "game main = block { :---: operation : rest &&& a3; operation : nature [] bool { ()
-> true; }; outputs : x; inputs : x; operation : identity [bool] []; outputs : y; :---: };",
        Err(WireFault::TooManyLines(488)),
    ),
    (
        "game main = block { :---: operation : rest &&& a2 &&& a1 &&& a0; operation : nature
[] bool { () -> true; }; outputs : x; inputs : ((x)); operation : identity [bool] [];
outputs : y; :---: };",
        Ok(()),
    ),
    (
        "game main = block { :---: operation : rest &&& a3; operation : nature [] bool { ()
-> true; }; outputs : x; inputs : ((x)); operation : identity [bool] []; outputs : y; :---:
};",
        Err(WireFault::TooManyLines(488)),
    ),
    (
        "game main = block { :---: operation : rest &&& a2 &&& a1; operation : nature [] bool
{ () -> true; }; outputs : x; inputs : not x; operation : identity [bool] []; outputs : y;
:---: };",
        Ok(()),
    ),
    (
        "game main = block { :---: operation : rest &&& a2 &&& a1 &&& a0; operation : nature
[] bool { () -> true; }; outputs : x; inputs : not x; operation : identity [bool] [];
outputs : y; :---: };",
        Err(WireFault::TooManyLines(488)),
    ),
    (
        "game main = block { :---: operation : rest &&& a2 &&& a1; operation : nature [] bool
{ () -> true; }; outputs : x; inputs : if true then x else x end; operation : identity
[bool] []; outputs : y; :---: };",
        Ok(()),
    ),
    (
        "game main = block { :---: operation : rest &&& a2 &&& a1 &&& a0; operation : nature
[] bool { () -> true; }; outputs : x; inputs : if true then x else x end; operation :
identity [bool] []; outputs : y; :---: };",
        Err(WireFault::TooManyLines(488)),
    ),
    (
        "game main = block { :---: operation : rest &&& a2 &&& a1; operation : nature []
(bool, bool) { () -> (true, true); }; outputs : x; inputs : x.0; operation : identity [bool]
[]; outputs : y; :---: };",
        Ok(()),
    ),
    (
        "game main = block { :---: operation : rest &&& a2 &&& a1 &&& a0; operation : nature
[] (bool, bool) { () -> (true, true); }; outputs : x; inputs : x.0; operation : identity
[bool] []; outputs : y; :---: };",
        Err(WireFault::TooManyLines(488)),
    ),
    (
        "game main = block { :---: operation : rest &&& a2 &&& a1 &&& a0; operation : nature
[] 0..3 { () -> 2; }; outputs : x; inputs : x; operation : identity [number] []; outputs :
y; :---: };",
        Ok(()),
    ),
    (
        "game main = block { :---: operation : rest &&& a3; operation : nature [] 0..3 { ()
-> 2; }; outputs : x; inputs : x; operation : identity [number] []; outputs : y; :---: };",
        Err(WireFault::TooManyLines(488)),
    ),
    // A call of a function that gives back its parameter is what it is called with.
    (
        "game main = block { :---: operation : rest &&& a2 &&& a1 &&& a0; operation : nature
[] bool { () -> true; }; outputs : x; inputs : same(x); operation : identity [bool] [];
outputs : y; :---: };",
        Ok(()),
    ),
    (
        "game main = block { :---: operation : rest &&& a3; operation : nature [] bool { ()
-> true; }; outputs : x; inputs : same(x); operation : identity [bool] []; outputs : y;
:---: };",
        Err(WireFault::TooManyLines(488)),
    ),
    (
        "game main = block { :---: operation : rest &&& a2 &&& a1 &&& a0; operation : nature
[] bool { () -> true; }; outputs : x; inputs : same(same(x)); operation : identity [bool]
[]; outputs : y; :---: };",
        Ok(()),
    ),
    (
        "game main = block { :---: operation : rest &&& a3; operation : nature [] bool { ()
-> true; }; outputs : x; inputs : same(same(x)); operation : identity [bool] []; outputs :
y; :---: };",
        Err(WireFault::TooManyLines(488)),
    ),
    (
        "game main = block { :---: operation : rest &&& a2 &&& a1 &&& a0; operation : nature
[] bool { () -> true; }; outputs : x; inputs : pick(true, x); operation : identity [bool]
[]; outputs : y; :---: };",
        Ok(()),
    ),
    (
        "game main = block { :---: operation : rest &&& a3; operation : nature [] bool { ()
-> true; }; outputs : x; inputs : pick(true, x); operation : identity [bool] []; outputs :
y; :---: };",
        Err(WireFault::TooManyLines(488)),
    ),
    (
        "game main = block { :---: operation : rest &&& a2 &&& a1; operation : nature [] bool
{ () -> true; }; outputs : x; inputs : pick(x, true); operation : identity [bool] [];
outputs : y; :---: };",
        Ok(()),
    ),
    (
        "game main = block { :---: operation : rest &&& a2 &&& a1 &&& a0; operation : nature
[] bool { () -> true; }; outputs : x; inputs : pick(x, true); operation : identity [bool]
[]; outputs : y; :---: };",
        Err(WireFault::TooManyLines(488)),
    ),
    (
        "game main = block { :---: operation : rest &&& a2 &&& a1 &&& a0; operation : nature
[] bool { () -> true; }; outputs : x; inputs : same(pick(false, same(x))); operation :
identity [bool] []; outputs : y; :---: };",
        Ok(()),
    ),
    (
        "game main = block { :---: operation : rest &&& a3; operation : nature [] bool { ()
-> true; }; outputs : x; inputs : same(pick(false, same(x))); operation : identity [bool]
[]; outputs : y; :---: };",
        Err(WireFault::TooManyLines(488)),
    ),
    (
        "game main = block { :---: operation : rest &&& a2 &&& a1 &&& a0; inputs :
same(true); operation : identity [bool] []; outputs : y; :---: };",
        Ok(()),
    ),
    (
        "game main = block { :---: operation : rest &&& a3; inputs : same(true); operation :
identity [bool] []; outputs : y; :---: };",
        Err(WireFault::TooManyLines(488)),
    ),
    // A parameter of a game is a value.
    (
        "game p(k : bool) = block { :---: inputs : k; operation : identity [bool] []; outputs
: m; :---: }; game main = block { :---: operation : rest &&& a2 &&& a1 &&& a0; operation :
p(true); :---: };",
        Ok(()),
    ),
    (
        "game p(k : bool) = block { :---: inputs : k; operation : identity [bool] []; outputs
: m; :---: }; game main = block { :---: operation : rest &&& a3; operation : p(true); :---:
};",
        Err(WireFault::TooManyLines(587)),
    ),
    // What is handed back makes a line likewise.
    (
        "game main = block { :---: operation : rest &&& a2 &&& a1; operation :
dependentDecision \"a\" [] 0..1; outputs : d; returns : 0; :---: };",
        Ok(()),
    ),
    (
        "game main = block { :---: operation : rest &&& a2 &&& a1 &&& a0; operation :
dependentDecision \"a\" [] 0..1; outputs : d; returns : 0; :---: };",
        Err(WireFault::TooManyLines(488)),
    ),
    (
        "game main = block { :---: operation : rest &&& a2 &&& a1 &&& a0; feedback : u;
operation : identity [] [number]; returns : 1; :---: };",
        Ok(()),
    ),
    (
        "game main = block { :---: operation : rest &&& a3; feedback : u; operation :
identity [] [number]; returns : 1; :---: };",
        Err(WireFault::TooManyLines(488)),
    ),
    (
        "game main = block { :---: operation : rest &&& a2 &&& a1 &&& a0; feedback : u;
operation : identity [] [number]; returns : v; feedback : v; operation : identity []
[number]; returns : 1; :---: };",
        Ok(()),
    ),
    (
        "game main = block { :---: operation : rest &&& a3; feedback : u; operation :
identity [] [number]; returns : v; feedback : v; operation : identity [] [number]; returns :
1; :---: };",
        Err(WireFault::TooManyLines(488)),
    ),
    // So does what an inner block gives and hands back.
    (
        "game main = block { :---: operation : rest &&& a2 &&& a1 &&& a0; operation : block {
:---: :---: outputs : true : bool; }; outputs : o; :---: };",
        Ok(()),
    ),
    (
        "game main = block { :---: operation : rest &&& a3; operation : block { :---: :---:
outputs : true : bool; }; outputs : o; :---: };",
        Err(WireFault::TooManyLines(488)),
    ),
    (
        "game main = block { :---: operation : rest &&& a2 &&& a1 &&& a0; operation : nature
[] bool { () -> true; }; outputs : x; inputs : x; operation : block { inputs : i : bool;
:---: :---: outputs : i : bool; }; outputs : o; :---: };",
        Ok(()),
    ),
    (
        "game main = block { :---: operation : rest &&& a3; operation : nature [] bool { ()
-> true; }; outputs : x; inputs : x; operation : block { inputs : i : bool; :---: :---:
outputs : i : bool; }; outputs : o; :---: };",
        Err(WireFault::TooManyLines(488)),
    ),
    (
        "game main = block { :---: operation : rest &&& a2 &&& a1 &&& a0; feedback : u;
operation : block { feedback : 1 : number; :---: :---: }; :---: };",
        Ok(()),
    ),
    (
        "game main = block { :---: operation : rest &&& a3; feedback : u; operation : block {
feedback : 1 : number; :---: :---: }; :---: };",
        Err(WireFault::TooManyLines(488)),
    ),
    (
        "game main = block { :---: operation : rest &&& a2 &&& a1 &&& a0; feedback : u;
operation : block { feedback : r : number; :---: :---: returns : r : number; }; returns : 1;
:---: };",
        Ok(()),
    ),
    (
        "game main = block { :---: operation : rest &&& a3; feedback : u; operation : block {
feedback : r : number; :---: :---: returns : r : number; }; returns : 1; :---: };",
        Err(WireFault::TooManyLines(488)),
    ),
    (
        "game main = block { :---: operation : rest &&& a2 &&& a0; operation : nature [] bool
{ () -> true; }; outputs : x; inputs : x; feedback : u; operation : block { inputs : i :
bool; feedback : 2 : number; :---: :---: outputs : i and true : bool; }; outputs : o; :---:
};",
        Ok(()),
    ),
    (
        "game main = block { :---: operation : rest &&& a2 &&& a1; operation : nature [] bool
{ () -> true; }; outputs : x; inputs : x; feedback : u; operation : block { inputs : i :
bool; feedback : 2 : number; :---: :---: outputs : i and true : bool; }; outputs : o; :---:
};",
        Err(WireFault::TooManyLines(488)),
    ),
    // A branch is one line, and each of its arms one more.
    (
        "game main = block { :---: operation : rest &&& a2; operation : nature [] bool { ()
-> true; }; outputs : x; inputs : x; operation : branch bool { (true) -> identity [] [];
(false) -> identity [] []; }; :---: };",
        Ok(()),
    ),
    (
        "game main = block { :---: operation : rest &&& a2 &&& a0; operation : nature [] bool
{ () -> true; }; outputs : x; inputs : x; operation : branch bool { (true) -> identity []
[]; (false) -> identity [] []; }; :---: };",
        Err(WireFault::TooManyLines(488)),
    ),
    (
        "game main = block { :---: operation : rest &&& a1; operation : nature [] bool { ()
-> true; }; outputs : x; inputs : x; operation : branch bool { (true) -> nature [] bool { ()
-> true; }; (false) -> nature [] bool { () -> true; }; }; outputs : y; :---: };",
        Ok(()),
    ),
    (
        "game main = block { :---: operation : rest &&& a1 &&& a0; operation : nature [] bool
{ () -> true; }; outputs : x; inputs : x; operation : branch bool { (true) -> nature [] bool
{ () -> true; }; (false) -> nature [] bool { () -> true; }; }; outputs : y; :---: };",
        Err(WireFault::TooManyLines(488)),
    ),
    (
        "game main = block { :---: operation : rest &&& a2 &&& a0; inputs : 0; operation :
branch 0..0 { (0) -> identity [] []; }; :---: };",
        Ok(()),
    ),
    (
        "game main = block { :---: operation : rest &&& a2 &&& a1; inputs : 0; operation :
branch 0..0 { (0) -> identity [] []; }; :---: };",
        Err(WireFault::TooManyLines(488)),
    ),
    (
        "game main = block { :---: operation : rest &&& a1; inputs : 0, 0; operation : branch
0..0 { (0) -> branch 0..0 { (0) -> identity [] []; }; }; :---: };",
        Ok(()),
    ),
    (
        "game main = block { :---: operation : rest &&& a1 &&& a0; inputs : 0, 0; operation :
branch 0..0 { (0) -> branch 0..0 { (0) -> identity [] []; }; }; :---: };",
        Err(WireFault::TooManyLines(488)),
    ),
    // Two faults in each order.
    (
        "game main(p : bool) = rest &&& rest;",
        Err(WireFault::WrongCount(488)),
    ),
    (
        "game main = rest &&& rest &&& identity [bool] [];",
        Err(WireFault::NotClosed(488)),
    ),
    (
        "game main = rest &&& rest; game k = h;",
        Err(WireFault::Unknown(519)),
    ),
    (
        "game s = block { :---: operation : nature [] bool { () -> true :
1/2305843009213693952, false : 2305843009213693951/2305843009213693952; }; outputs : x;
:---: }; game main = rest &&& rest &&& s &&& s;",
        Err(WireFault::TooManyLines(650)),
    ),
];

#[test]
fn parts(rt: HostRuntime) {
    check_all_behind(&rt, rt.alloc(), GAMES, SIZED);
}

#[test]
fn lines(rt: HostRuntime) {
    check_all_behind(&rt, rt.alloc(), LINES, LINED);
}
