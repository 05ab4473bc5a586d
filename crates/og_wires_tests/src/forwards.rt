//! Blocks: what goes forwards, and all names.
use crate::walked::{Case, check_all};
use og_typing::WireFault;

/// Blocks, from their inputs to the inputs of their lines.
const INPUTS: &[Case] = &[
    // Whole ones.
    ("game main = block { :---: :---: };", Ok(())),
    (
        "game main = block { :---: operation : dependentDecision \"a\" [] 0..1; outputs : x;
returns : x; :---: };",
        Ok(()),
    ),
    (
        "game g = block { inputs : x : bool; :---: inputs : x; operation : identity [bool]
[]; outputs : y; :---: outputs : y : bool; }; game main = identity [] [];",
        Ok(()),
    ),
    (
        "game g = block { inputs : x : bool; feedback : u : number; :---: inputs : x;
operation : dependentDecision \"a\" [bool] bool; outputs : y; returns : v; feedback : u;
operation : identity [] [number]; returns : v; :---: outputs : y : bool; returns : v :
number; }; game main = identity [] [];",
        Ok(()),
    ),
    (
        "game g = block { inputs : x : 0..3, _y : number; :---: :---: outputs : x : number,
_y + x : number, x : 0..3; }; game main = identity [] [];",
        Ok(()),
    ),
    (
        "game g(k : 0..3) = block { :---: inputs : k + 1; operation : identity [number] [];
outputs : y; :---: outputs : y : number, k : 0..3; }; game main = identity [] [];",
        Ok(()),
    ),
    // The inputs of a block.
    (
        "game g = block { inputs : x : S; :---: :---: }; game main = identity [] [];",
        Err(WireFault::Unknown(30)),
    ),
    (
        "game g = block { inputs : x : 1..0; :---: :---: }; game main = identity [] [];",
        Err(WireFault::WrongType(30)),
    ),
    (
        "game g = block { inputs : x : bool, x : bool; :---: :---: }; game main = identity []
[];",
        Err(WireFault::Twice(36)),
    ),
    (
        "game g = block { inputs : g : bool; :---: :---: }; game main = identity [] [];",
        Err(WireFault::Twice(26)),
    ),
    (
        "type S = { A }; game g = block { inputs : A : bool; :---: :---: }; game main =
identity [] [];",
        Err(WireFault::Twice(42)),
    ),
    (
        "game g(p : bool) = block { inputs : p : bool; :---: :---: }; game main = identity []
[];",
        Err(WireFault::Twice(36)),
    ),
    (
        "game g = block { inputs : x : bool, x : S; :---: :---: }; game main = identity []
[];",
        Err(WireFault::Twice(36)),
    ),
    (
        "game g = block { inputs : x : S, x : bool; :---: :---: }; game main = identity []
[];",
        Err(WireFault::Unknown(30)),
    ),
    (
        "type P = (bool, number); game g = block { inputs : x : P; :---: :---: outputs : x.1
: number; }; game main = identity [] [];",
        Ok(()),
    ),
    // The inputs of a line.
    (
        "game g = block { :---: inputs : x; operation : identity [bool] []; outputs : y;
:---: }; game main = identity [] [];",
        Err(WireFault::Unknown(32)),
    ),
    (
        "game g = block { inputs : x : bool; :---: inputs : x or y; operation : identity
[bool] []; outputs : z; :---: }; game main = identity [] [];",
        Err(WireFault::Unknown(56)),
    ),
    (
        "game g = block { :---: inputs : f(1); operation : identity [number] []; outputs : z;
:---: }; game main = identity [] [];",
        Err(WireFault::Unknown(32)),
    ),
    (
        "game g = block { inputs : x : bool; :---: inputs : 1 + x; operation : identity
[number] []; outputs : z; :---: }; game main = identity [] [];",
        Err(WireFault::WrongType(55)),
    ),
    (
        "game g = block { inputs : x : bool; :---: inputs : x; operation : identity [] [];
:---: }; game main = identity [] [];",
        Err(WireFault::WrongCount(66)),
    ),
    (
        "game g = block { :---: operation : identity [bool] []; outputs : y; :---: }; game
main = identity [] [];",
        Err(WireFault::WrongCount(35)),
    ),
    (
        "game g = block { inputs : x : bool; :---: inputs : x; operation : identity [bool,
bool] []; outputs : y, z; :---: }; game main = identity [] [];",
        Err(WireFault::WrongCount(66)),
    ),
    (
        "game g = block { inputs : x : bool; :---: inputs : x; operation : identity [number]
[]; outputs : y; :---: }; game main = identity [] [];",
        Err(WireFault::WrongType(51)),
    ),
    (
        "game g = block { inputs : x : bool; :---: inputs : x, x; operation : identity [bool,
number] []; outputs : y, z; :---: }; game main = identity [] [];",
        Err(WireFault::WrongType(54)),
    ),
    (
        "game g = block { inputs : x : bool; :---: inputs : x, x; operation : identity
[number, number] []; outputs : y, z; :---: }; game main = identity [] [];",
        Err(WireFault::WrongType(51)),
    ),
    (
        "game g = block { inputs : x : 0..3; :---: inputs : x; operation : identity [0..2]
[]; outputs : y; :---: }; game main = identity [] [];",
        Err(WireFault::WrongType(51)),
    ),
    (
        "game g = block { inputs : x : 0..3; :---: inputs : x + x; operation : identity
[0..6] []; outputs : y; :---: }; game main = identity [] [];",
        Err(WireFault::WrongType(51)),
    ),
    (
        "game g = block { inputs : x : 0..3; :---: inputs : x, x; operation : identity [0..4,
number] []; outputs : y, z; :---: }; game main = identity [] [];",
        Ok(()),
    ),
    (
        "type S = { A }; fn f(s : S) : bool = s == A; game g = block { :---: inputs : A,
f(A); operation : identity [S, bool] []; outputs : y, z; :---: }; game main = identity []
[];",
        Ok(()),
    ),
    // A line sees what earlier lines give, and nothing of its own or of later ones.
    (
        "game g = block { :---: operation : nature [] bool { () -> true; }; outputs : x;
operation : nature [] bool { () -> true; }; outputs : y; inputs : y, x; operation : identity
[bool, bool] []; outputs : z, w; :---: }; game main = identity [] [];",
        Ok(()),
    ),
    (
        "game g = block { :---: inputs : x; operation : identity [bool] []; outputs : y;
operation : nature [] bool { () -> true; }; outputs : x; :---: }; game main = identity []
[];",
        Err(WireFault::Unknown(32)),
    ),
    (
        "game g = block { :---: inputs : x; operation : identity [bool] []; outputs : x;
:---: }; game main = identity [] [];",
        Err(WireFault::Unknown(32)),
    ),
    // What goes backwards isn't seen forwards.
    (
        "game g = block { :---: inputs : u; operation : identity [number] []; outputs : y;
:---: returns : u : number; }; game main = identity [] [];",
        Err(WireFault::BackwardInForward(32)),
    ),
    (
        "game g = block { :---: feedback : u; operation : identity [] [number]; returns : 1;
inputs : u; operation : identity [number] []; outputs : y; :---: }; game main = identity []
[];",
        Err(WireFault::BackwardInForward(93)),
    ),
    (
        "game g = block { :---: inputs : u; operation : identity [number] []; outputs : y;
feedback : u; operation : identity [] [number]; returns : 1; :---: }; game main = identity
[] [];",
        Err(WireFault::BackwardInForward(32)),
    ),
    (
        "game g = block { :---: inputs : 1 + u; feedback : u; operation : identity [number]
[number]; outputs : y; returns : 1; :---: }; game main = identity [] [];",
        Err(WireFault::BackwardInForward(36)),
    ),
    (
        "game g = block { inputs : u : number; :---: inputs : u; operation : identity
[number] []; outputs : y; feedback : u; operation : identity [] [number]; returns : 1; :---:
}; game main = identity [] [];",
        Err(WireFault::BackwardInForward(53)),
    ),
    (
        "type S = { A }; game g = block { :---: inputs : A; operation : identity [S] [];
outputs : y; :---: returns : A : S; }; game main = identity [] [];",
        Err(WireFault::BackwardInForward(48)),
    ),
    (
        "game g(p : bool) = block { :---: inputs : p; operation : identity [bool] []; outputs
: y; :---: returns : p : bool; }; game main = identity [] [];",
        Err(WireFault::BackwardInForward(42)),
    ),
    (
        "fn f(x : number) : number = x; game g = block { :---: inputs : f(u); operation :
identity [number] []; outputs : y; :---: returns : u : number; }; game main = identity []
[];",
        Err(WireFault::BackwardInForward(65)),
    ),
    (
        "game g = block { :---: inputs : not u; operation : identity [bool] []; outputs : y;
:---: returns : u : number; }; game main = identity [] [];",
        Err(WireFault::BackwardInForward(36)),
    ),
    (
        "game g = block { :---: inputs : if u then y else z end; operation : identity [bool]
[]; outputs : x; :---: returns : u : bool; }; game main = identity [] [];",
        Err(WireFault::BackwardInForward(35)),
    ),
    (
        "game g = block { :---: inputs : if true then true else u end; operation : identity
[bool] []; outputs : x; :---: returns : u : bool; }; game main = identity [] [];",
        Err(WireFault::BackwardInForward(55)),
    ),
    (
        "game g = block { :---: inputs : table (u : number) { }; operation : identity [bool]
[]; outputs : x; :---: returns : u : bool; }; game main = identity [] [];",
        Err(WireFault::BackwardInForward(39)),
    ),
    (
        "game g = block { :---: inputs : table (true : bool) { (true) -> true; (false) -> u;
}; operation : identity [bool] []; outputs : x; :---: returns : u : bool; }; game main =
identity [] [];",
        Err(WireFault::BackwardInForward(81)),
    ),
    (
        "game g = block { :---: inputs : (true, u).0; operation : identity [bool] []; outputs
: x; :---: returns : u : bool; }; game main = identity [] [];",
        Err(WireFault::BackwardInForward(39)),
    ),
    (
        "game g(w : agent) = block { :---: inputs : w; operation : identity [bool] [];
outputs : y; :---: returns : w : bool; }; game main = identity [] [];",
        Err(WireFault::BackwardInForward(43)),
    ),
    (
        "game g = block { inputs : x : bool; :---: inputs : x; feedback : x; operation :
identity [bool] [number]; outputs : y; returns : 1; :---: }; game main = identity [] [];",
        Err(WireFault::BackwardInForward(51)),
    ),
    (
        "game g = block { :---: operation : nature [] bool { () -> true; }; outputs : x;
inputs : x; operation : identity [bool] []; outputs : y; feedback : x; operation : identity
[] [number]; returns : 1; :---: }; game main = identity [] [];",
        Err(WireFault::BackwardInForward(89)),
    ),
    // Two faults in each order.
    (
        "game g = block { :---: inputs : x; operation : h; :---: }; game main = identity []
[];",
        Err(WireFault::Unknown(32)),
    ),
    (
        "game g = block { inputs : x : bool; :---: inputs : x, x; operation : h; :---: };
game main = identity [] [];",
        Err(WireFault::Unknown(69)),
    ),
    (
        "game g = block { :---: inputs : x; operation : identity [] []; :---: }; game main =
identity [] [];",
        Err(WireFault::Unknown(32)),
    ),
    (
        "game g = block { inputs : x : bool; :---: inputs : x, y; operation : identity
[number, bool] []; :---: }; game main = identity [] [];",
        Err(WireFault::Unknown(54)),
    ),
    (
        "game g = block { inputs : x : bool; :---: inputs : x, x; operation : identity
[number] []; :---: }; game main = identity [] [];",
        Err(WireFault::WrongCount(69)),
    ),
    (
        "game g = block { :---: inputs : u, x; operation : identity [number, bool] [];
outputs : y, z; :---: returns : u : number; }; game main = identity [] [];",
        Err(WireFault::BackwardInForward(32)),
    ),
    (
        "game g = block { :---: inputs : x, u; operation : identity [bool, number] [];
outputs : y, z; :---: returns : u : number; }; game main = identity [] [];",
        Err(WireFault::Unknown(32)),
    ),
    (
        "game g = block { inputs : x : S; :---: inputs : u; operation : identity [bool] [];
outputs : y; :---: returns : u : number; }; game main = identity [] [];",
        Err(WireFault::Unknown(30)),
    ),
    (
        "game g = block { :---: operation : identity [bool] []; inputs : y; operation :
identity [] []; :---: }; game main = identity [] [];",
        Err(WireFault::WrongCount(35)),
    ),
    (
        "game g = block { :---: inputs : y; operation : identity [] []; operation : identity
[bool] []; :---: }; game main = identity [] [];",
        Err(WireFault::Unknown(32)),
    ),
];

/// Blocks, with the names and the types of what goes forwards.
const NAMES: &[Case] = &[
    // How many names there are.
    (
        "game g = block { :---: operation : nature [] bool { () -> true; }; :---: }; game
main = identity [] [];",
        Err(WireFault::WrongCount(35)),
    ),
    (
        "game g = block { :---: operation : nature [] bool { () -> true; }; outputs : x, y;
:---: }; game main = identity [] [];",
        Err(WireFault::WrongCount(35)),
    ),
    (
        "game g = block { :---: operation : identity [] []; outputs : x; :---: }; game main =
identity [] [];",
        Err(WireFault::WrongCount(35)),
    ),
    (
        "game g = block { :---: operation : identity [] [number]; returns : 1; :---: }; game
main = identity [] [];",
        Err(WireFault::WrongCount(35)),
    ),
    (
        "game g = block { :---: feedback : u, v; operation : identity [] [number]; returns :
1; :---: }; game main = identity [] [];",
        Err(WireFault::WrongCount(52)),
    ),
    (
        "game g = block { :---: feedback : u; operation : identity [] []; :---: }; game main
= identity [] [];",
        Err(WireFault::WrongCount(49)),
    ),
    (
        "game g = block { :---: feedback : u; operation : (identity [] [] &&& identity []
[]); :---: }; game main = identity [] [];",
        Err(WireFault::WrongCount(50)),
    ),
    // Names that are taken.
    (
        "game g = block { inputs : x : bool; :---: operation : nature [] bool { () -> true;
}; outputs : x; :---: }; game main = identity [] [];",
        Err(WireFault::Twice(96)),
    ),
    (
        "game g = block { :---: operation : nature [] bool { () -> true; }; outputs : x;
operation : nature [] bool { () -> true; }; outputs : x; :---: }; game main = identity []
[];",
        Err(WireFault::Twice(134)),
    ),
    (
        "game g = block { :---: inputs : true, true; operation : identity [bool, bool] [];
outputs : x, x; :---: }; game main = identity [] [];",
        Err(WireFault::Twice(95)),
    ),
    (
        "game g = block { :---: operation : nature [] bool { () -> true; }; outputs : g;
:---: }; game main = identity [] [];",
        Err(WireFault::Twice(77)),
    ),
    (
        "type S = { A }; game g = block { :---: operation : nature [] bool { () -> true; };
outputs : A; :---: }; game main = identity [] [];",
        Err(WireFault::Twice(93)),
    ),
    (
        "game g(p : bool) = block { :---: operation : nature [] bool { () -> true; }; outputs
: p; :---: }; game main = identity [] [];",
        Err(WireFault::Twice(87)),
    ),
    (
        "game g(w : agent) = block { :---: operation : nature [] bool { () -> true; };
outputs : w; :---: }; game main = identity [] [];",
        Err(WireFault::Twice(88)),
    ),
    (
        "game main = block { :---: operation : nature [] bool { () -> true; }; outputs :
main; :---: };",
        Err(WireFault::Twice(80)),
    ),
    (
        "game g = block { inputs : x : bool; :---: feedback : x; operation : identity []
[number]; returns : 1; :---: }; game main = identity [] [];",
        Err(WireFault::Twice(53)),
    ),
    (
        "game g = block { :---: feedback : u, u; operation : identity [] [number, number];
returns : 1, 1; :---: }; game main = identity [] [];",
        Err(WireFault::Twice(37)),
    ),
    (
        "game g = block { :---: feedback : u; operation : identity [] [number]; returns : 1;
feedback : u; operation : identity [] [number]; returns : 1; :---: }; game main = identity
[] [];",
        Err(WireFault::Twice(95)),
    ),
    (
        "game g = block { :---: feedback : g; operation : identity [] [number]; returns : 1;
:---: }; game main = identity [] [];",
        Err(WireFault::Twice(34)),
    ),
    (
        "game g(p : bool) = block { :---: feedback : p; operation : identity [] [number];
returns : 1; :---: }; game main = identity [] [];",
        Err(WireFault::Twice(44)),
    ),
    (
        "game g = block { :---: inputs : true; feedback : u; operation : identity [bool]
[number]; outputs : u; returns : 1; :---: }; game main = identity [] [];",
        Err(WireFault::Twice(100)),
    ),
    (
        "game g = block { :---: operation : nature [] bool { () -> true; }; outputs : x;
feedback : x; operation : identity [] [number]; returns : 1; :---: }; game main = identity
[] [];",
        Err(WireFault::Twice(91)),
    ),
    (
        "game g = block { inputs : x : number; :---: :---: returns : x : number; }; game main
= identity [] [];",
        Err(WireFault::Twice(60)),
    ),
    (
        "game g = block { :---: feedback : u; operation : identity [] [number]; returns : 1;
:---: returns : u : number; }; game main = identity [] [];",
        Err(WireFault::Twice(100)),
    ),
    (
        "game g = block { :---: operation : nature [] bool { () -> true; }; outputs : x;
:---: returns : x : number; }; game main = identity [] [];",
        Err(WireFault::Twice(96)),
    ),
    (
        "game g = block { :---: :---: returns : u : number, u : number; }; game main =
identity [] [];",
        Err(WireFault::Twice(51)),
    ),
    (
        "game g = block { :---: :---: returns : g : number; }; game main = identity [] [];",
        Err(WireFault::Twice(39)),
    ),
    (
        "game g(p : bool) = block { :---: :---: returns : p : bool; }; game main = identity
[] [];",
        Err(WireFault::Twice(49)),
    ),
    (
        "game g = block { :---: operation : nature [] bool { () -> true; }; outputs : x;
operation : nature [] bool { () -> true; }; outputs : _x; :---: }; game main = identity []
[];",
        Ok(()),
    ),
    (
        "game g = block { :---: operation : nature [] bool { () -> true; }; outputs : h;
:---: }; game h = identity [] []; game main = identity [] [];",
        Ok(()),
    ),
    // What a block gives.
    (
        "game g = block { :---: :---: outputs : y : bool; }; game main = identity [] [];",
        Err(WireFault::Unknown(39)),
    ),
    (
        "game g = block { inputs : x : bool; :---: :---: outputs : x : S; }; game main =
identity [] [];",
        Err(WireFault::Unknown(62)),
    ),
    (
        "game g = block { inputs : x : bool; :---: :---: outputs : x : number; }; game main =
identity [] [];",
        Err(WireFault::WrongType(58)),
    ),
    (
        "game g = block { :---: operation : nature [] 0..3 { () -> 2; }; outputs : x; :---:
outputs : x : 0..2; }; game main = identity [] [];",
        Err(WireFault::WrongType(93)),
    ),
    (
        "game g = block { :---: operation : nature [] 0..3 { () -> 2; }; outputs : x; :---:
outputs : x : number, x : bool; }; game main = identity [] [];",
        Err(WireFault::WrongType(105)),
    ),
    (
        "game g = block { inputs : y : bool; :---: operation : nature [] 0..3 { () -> 2; };
outputs : x; :---: outputs : x : 0..4, x + 1 : number, not y : bool; }; game main = identity
[] [];",
        Ok(()),
    ),
    (
        "game g = block { :---: :---: outputs : u : number; returns : u : number; }; game
main = identity [] [];",
        Err(WireFault::BackwardInForward(39)),
    ),
    (
        "game g = block { :---: feedback : u; operation : identity [] [number]; returns : 1;
:---: outputs : u : number; }; game main = identity [] [];",
        Err(WireFault::BackwardInForward(100)),
    ),
    (
        "game g = block { inputs : u : number; :---: :---: outputs : u : number; returns : u
: number; }; game main = identity [] [];",
        Err(WireFault::BackwardInForward(60)),
    ),
    (
        "game g = block { :---: feedback : u; operation : identity [] [number]; returns : 1;
:---: outputs : 1 + u : number; }; game main = identity [] [];",
        Err(WireFault::BackwardInForward(104)),
    ),
    // What a block is handed back.
    (
        "game g = block { :---: :---: returns : u : S; }; game main = identity [] [];",
        Err(WireFault::Unknown(43)),
    ),
    (
        "game g = block { :---: :---: returns : u : 1..0; }; game main = identity [] [];",
        Err(WireFault::WrongType(43)),
    ),
    (
        "game g = block { :---: :---: returns : u : (number, bool), _v : 0..3; }; game main =
identity [] [];",
        Ok(()),
    ),
    // Two faults of one line in each order.
    (
        "game g = block { inputs : x : bool; :---: inputs : x; operation : identity [number]
[number]; outputs : y; :---: }; game main = identity [] [];",
        Err(WireFault::WrongType(51)),
    ),
    (
        "game g = block { inputs : x : bool; :---: operation : identity [number] [number];
outputs : y; :---: }; game main = identity [] [];",
        Err(WireFault::WrongCount(54)),
    ),
    (
        "game g = block { inputs : x : bool; :---: inputs : x; operation : identity [number]
[]; :---: }; game main = identity [] [];",
        Err(WireFault::WrongType(51)),
    ),
    (
        "game g = block { inputs : x : bool; :---: inputs : x; operation : identity [bool]
[number]; outputs : x; :---: }; game main = identity [] [];",
        Err(WireFault::WrongCount(66)),
    ),
    (
        "game g = block { inputs : x : bool; :---: inputs : true; feedback : x; operation :
identity [bool] [number]; :---: }; game main = identity [] [];",
        Err(WireFault::Twice(68)),
    ),
    (
        "game g = block { inputs : x : bool; :---: inputs : true; feedback : x, x; operation
: identity [bool] [number]; outputs : y; :---: }; game main = identity [] [];",
        Err(WireFault::WrongCount(86)),
    ),
    (
        "game g = block { inputs : x : bool; :---: inputs : x; feedback : u; operation :
identity [bool] [number]; outputs : x, x; :---: }; game main = identity [] [];",
        Err(WireFault::WrongCount(80)),
    ),
    (
        "game g = block { inputs : x : bool; :---: inputs : true; feedback : x; operation :
identity [bool] [number]; outputs : x; :---: }; game main = identity [] [];",
        Err(WireFault::Twice(68)),
    ),
    (
        "game g = block { :---: feedback : u, u; operation : h; outputs : g; :---: }; game
main = identity [] [];",
        Err(WireFault::Unknown(52)),
    ),
    // Two faults of a block in each order.
    (
        "game g = block { :---: operation : nature [] bool { () -> true; }; outputs : g;
operation : h; :---: }; game main = identity [] [];",
        Err(WireFault::Twice(77)),
    ),
    (
        "game g = block { :---: operation : h; operation : nature [] bool { () -> true; };
outputs : g; :---: }; game main = identity [] [];",
        Err(WireFault::Unknown(35)),
    ),
    (
        "game g = block { :---: operation : identity [] []; outputs : x; :---: outputs : y :
bool; }; game main = identity [] [];",
        Err(WireFault::WrongCount(35)),
    ),
    (
        "game g = block { :---: :---: outputs : y : S; }; game main = identity [] [];",
        Err(WireFault::Unknown(39)),
    ),
    (
        "game g = block { inputs : x : bool; :---: :---: outputs : x : S, y : bool; }; game
main = identity [] [];",
        Err(WireFault::Unknown(62)),
    ),
    (
        "game g = block { :---: :---: outputs : y : bool; returns : u : S; }; game main =
identity [] [];",
        Err(WireFault::Unknown(39)),
    ),
    (
        "game g = block { inputs : x : bool; :---: :---: outputs : x : number; returns : g :
number; }; game main = identity [] [];",
        Err(WireFault::WrongType(58)),
    ),
    (
        "game g = block { :---: :---: returns : u : number, u : S; }; game main = identity []
[];",
        Err(WireFault::Twice(51)),
    ),
    (
        "game g = block { :---: :---: returns : u : S, u : number; }; game main = identity []
[];",
        Err(WireFault::Unknown(43)),
    ),
    (
        "game g = block { :---: :---: outputs : u : S; returns : u : number; }; game main =
identity [] [];",
        Err(WireFault::BackwardInForward(39)),
    ),
    (
        "game g = block { :---: :---: outputs : y : bool, u : number; returns : u : number;
}; game main = identity [] [];",
        Err(WireFault::Unknown(39)),
    ),
    (
        "game g = block { :---: :---: outputs : u : number, y : bool; returns : u : number;
}; game main = identity [] [];",
        Err(WireFault::BackwardInForward(39)),
    ),
];

#[test]
fn inputs(rt: HostRuntime) {
    check_all(&rt, rt.alloc(), INPUTS);
}

#[test]
fn named(rt: HostRuntime) {
    check_all(&rt, rt.alloc(), NAMES);
}
