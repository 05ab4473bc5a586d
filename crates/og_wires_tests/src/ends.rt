//! The rules on the game that is judged.
use crate::walked::{Case, check_all};
use og_typing::WireFault;

/// What the game that is judged may be.
const ENDS: &[Case] = &[
    // It has to be there.
    ("", Err(WireFault::Unknown(0))),
    ("game g = identity [] [];", Err(WireFault::Unknown(24))),
    ("game g = identity [] []; ", Err(WireFault::Unknown(25))),
    (
        "game g = identity [] [];
// game main
",
        Err(WireFault::Unknown(38)),
    ),
    ("type main = bool;", Err(WireFault::Unknown(17))),
    ("type S = { main };", Err(WireFault::Unknown(18))),
    ("fn main() : bool = true;", Err(WireFault::Unknown(24))),
    (
        "game g(main : bool) = identity [] [];",
        Err(WireFault::Unknown(37)),
    ),
    ("game g = h;", Err(WireFault::Unknown(9))),
    ("game main = identity [] [];", Ok(())),
    ("game main = block { :---: :---: };", Ok(())),
    (
        "game main = identity [] []; type S = { A }; game g(x : S) = identity [S] [S];",
        Ok(()),
    ),
    (
        "game g = identity [bool] [number]; game main = forwardFunction () -> (true : bool)
>>> forwardFunction (x : bool) -> ();",
        Ok(()),
    ),
    // It has no parameters.
    (
        "game main(x : bool) = identity [] [];",
        Err(WireFault::WrongCount(5)),
    ),
    (
        "game main(w : agent) = identity [] [];",
        Err(WireFault::WrongCount(5)),
    ),
    (
        "game main(x : bool) = identity [] []; game g = identity [] [];",
        Err(WireFault::WrongCount(5)),
    ),
    // It is closed.
    (
        "game main = identity [bool] [];",
        Err(WireFault::NotClosed(5)),
    ),
    (
        "game main = identity [] [bool];",
        Err(WireFault::NotClosed(5)),
    ),
    (
        "game main = forwardFunction (x : bool) -> ();",
        Err(WireFault::NotClosed(5)),
    ),
    (
        "game main = forwardFunction () -> (true : bool);",
        Err(WireFault::NotClosed(5)),
    ),
    (
        "game main = backwardFunction (x : bool) -> ();",
        Err(WireFault::NotClosed(5)),
    ),
    (
        "game main = backwardFunction () -> (true : bool);",
        Err(WireFault::NotClosed(5)),
    ),
    (
        "game main = dependentDecision \"a\" [] bool;",
        Err(WireFault::NotClosed(5)),
    ),
    (
        "game main = nature [] bool { () -> true; };",
        Err(WireFault::NotClosed(5)),
    ),
    (
        "game main = block { inputs : x : bool; :---: :---: };",
        Err(WireFault::NotClosed(5)),
    ),
    (
        "game main = block { :---: :---: outputs : true : bool; };",
        Err(WireFault::NotClosed(5)),
    ),
    (
        "game main = block { feedback : 1 : number; :---: :---: };",
        Err(WireFault::NotClosed(5)),
    ),
    (
        "game main = block { :---: :---: returns : u : number; };",
        Err(WireFault::NotClosed(5)),
    ),
    (
        "game g = identity [] [bool]; game main = g;",
        Err(WireFault::NotClosed(34)),
    ),
    (
        "game g = identity [] [] ; game main = g &&& identity [bool] []; game k = g;",
        Err(WireFault::NotClosed(31)),
    ),
    (
        "version 2 ; game main = branch 0..0 { (0) -> identity [] []; };",
        Err(WireFault::NotClosed(17)),
    ),
    (
        "game main = identity [] [] &&& (identity [] [] >>> identity [] []);",
        Ok(()),
    ),
    // Two faults in each order: what is declared is walked first.
    (
        "game main(x : bool) = identity [bool] [];",
        Err(WireFault::WrongCount(5)),
    ),
    ("game main(x : bool) = h;", Err(WireFault::Unknown(22))),
    (
        "game main = identity [bool] []; game g = h;",
        Err(WireFault::Unknown(41)),
    ),
    (
        "game g = h; game main = identity [bool] [];",
        Err(WireFault::Unknown(9)),
    ),
    (
        "game main = identity [bool] []; type S = { A, A };",
        Err(WireFault::Twice(46)),
    ),
    (
        "game main = identity [bool] []; game main(x : bool) = identity [] [];",
        Err(WireFault::Twice(37)),
    ),
    (
        "game main = identity [bool] []; fn f(x : S) : bool = x;",
        Err(WireFault::Unknown(41)),
    ),
    // A place is counted in bytes.
    (
        "// é → ü
game main = g;",
        Err(WireFault::Unknown(25)),
    ),
    (
        "type É = { Ä }; game main = identity [É] [];",
        Err(WireFault::NotClosed(23)),
    ),
    (
        "game g(w : agent) = identity [] []; game main = g(\"é\") &&& g(1);",
        Err(WireFault::WrongType(62)),
    ),
];

#[test]
fn ends(rt: HostRuntime) {
    check_all(&rt, rt.alloc(), ENDS);
}
