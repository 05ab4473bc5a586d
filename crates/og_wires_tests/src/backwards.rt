//! Blocks: what is handed back.
use crate::walked::{Case, check_all};
use og_typing::WireFault;

/// Blocks, with what they and their lines hand back.
const RETURNS: &[Case] = &[
    // What a block hands back.
    (
        "game g = block { feedback : 1 : number; :---: :---: }; game main = identity [] [];",
        Ok(()),
    ),
    (
        "game g = block { inputs : x : number; feedback : x : number; :---: :---: }; game
main = identity [] [];",
        Ok(()),
    ),
    (
        "game g = block { feedback : u : number; :---: :---: returns : u : number; }; game
main = identity [] [];",
        Ok(()),
    ),
    (
        "game g = block { feedback : x : number, u : number; :---: operation : nature [] 0..3
{ () -> 2; }; outputs : x; feedback : u; operation : identity [] [number]; returns : 1;
:---: }; game main = identity [] [];",
        Ok(()),
    ),
    (
        "game g(p : number) = block { feedback : p * 2 : number; :---: :---: }; game main =
identity [] [];",
        Ok(()),
    ),
    (
        "game g = block { feedback : y : number; :---: :---: }; game main = identity [] [];",
        Err(WireFault::Unknown(28)),
    ),
    (
        "game g = block { feedback : 1 : S; :---: :---: }; game main = identity [] [];",
        Err(WireFault::Unknown(32)),
    ),
    (
        "game g = block { feedback : u : bool; :---: :---: returns : u : number; }; game main
= identity [] [];",
        Err(WireFault::WrongType(28)),
    ),
    (
        "game g = block { feedback : u : 0..1; :---: :---: returns : u : 0..2; }; game main =
identity [] [];",
        Err(WireFault::WrongType(28)),
    ),
    (
        "game g(w : agent) = block { feedback : w : number; :---: :---: }; game main =
identity [] [];",
        Err(WireFault::WrongType(39)),
    ),
    (
        "game g = block { inputs : x : bool; feedback : 1 + x : number; :---: :---: }; game
main = identity [] [];",
        Err(WireFault::WrongType(51)),
    ),
    // What a line hands back.
    (
        "game g = block { :---: operation : dependentDecision \"a\" [] 0..1; outputs : x;
returns : x; :---: }; game main = identity [] [];",
        Ok(()),
    ),
    (
        "game g = block { inputs : y : number; :---: operation : dependentDecision \"a\" []
0..1; outputs : x; returns : x + y; :---: }; game main = identity [] [];",
        Ok(()),
    ),
    (
        "game g = block { :---: operation : dependentDecision \"a\" [] 0..1; outputs : x;
returns : x - y; operation : nature [] 0..3 { () -> 2; }; outputs : y; :---: }; game main =
identity [] [];",
        Ok(()),
    ),
    (
        "game g = block { :---: operation : dependentDecision \"a\" [] 0..1; outputs : x;
returns : u; :---: returns : u : number; }; game main = identity [] [];",
        Ok(()),
    ),
    (
        "game g = block { :---: operation : dependentDecision \"a\" [] 0..1; outputs : x;
returns : u; feedback : u, v; operation : identity [] [number, bool]; returns : 1, true;
:---: }; game main = identity [] [];",
        Ok(()),
    ),
    (
        "game g(p : 0..9) = block { :---: operation : dependentDecision \"a\" [] 0..1; outputs
: x; returns : if x == p then 1 else 0 end; :---: }; game main = identity [] [];",
        Ok(()),
    ),
    (
        "fn f(x : number) : number = x + 1; game g = block { :---: operation :
dependentDecision \"a\" [] 0..1; outputs : x; returns : f(f(x)); :---: }; game main = identity
[] [];",
        Ok(()),
    ),
    (
        "game g = block { :---: operation : dependentDecision \"a\" [] 0..1; outputs : x;
returns : y; :---: }; game main = identity [] [];",
        Err(WireFault::Unknown(89)),
    ),
    (
        "game g = block { :---: operation : dependentDecision \"a\" [] 0..1; outputs : x;
returns : x + y; :---: }; game main = identity [] [];",
        Err(WireFault::Unknown(93)),
    ),
    (
        "game g = block { :---: operation : dependentDecision \"a\" [] 0..1; outputs : x; :---:
}; game main = identity [] [];",
        Err(WireFault::WrongCount(35)),
    ),
    (
        "game g = block { :---: operation : dependentDecision \"a\" [] 0..1; outputs : x;
returns : 1, 1; :---: }; game main = identity [] [];",
        Err(WireFault::WrongCount(35)),
    ),
    (
        "game g = block { :---: operation : identity [] []; returns : 1; :---: }; game main =
identity [] [];",
        Err(WireFault::WrongCount(35)),
    ),
    (
        "game g = block { :---: operation : dependentDecision \"a\" [] bool; outputs : x;
returns : x; :---: }; game main = identity [] [];",
        Err(WireFault::WrongType(89)),
    ),
    (
        "game g = block { :---: feedback : u, v; operation : identity [] [number, bool];
returns : 1, 1; :---: }; game main = identity [] [];",
        Err(WireFault::WrongType(93)),
    ),
    (
        "game g = block { :---: feedback : u, v; operation : identity [] [bool, number];
returns : 1, true; :---: }; game main = identity [] [];",
        Err(WireFault::WrongType(90)),
    ),
    (
        "game g = block { :---: feedback : u; operation : identity [] [0..2]; returns : 3;
:---: }; game main = identity [] [];",
        Err(WireFault::WrongType(79)),
    ),
    (
        "game g(w : agent) = block { :---: operation : dependentDecision \"a\" [] 0..1; outputs
: x; returns : w; :---: }; game main = identity [] [];",
        Err(WireFault::WrongType(100)),
    ),
    (
        "game g(w : agent) = block { :---: operation : dependentDecision \"a\" [] 0..1; outputs
: x; returns : x + w; :---: }; game main = identity [] [];",
        Err(WireFault::WrongType(104)),
    ),
    // What is handed back too early.
    (
        "game g = block { :---: feedback : u; operation : identity [] [number]; returns : u;
:---: }; game main = identity [] [];",
        Err(WireFault::FeedbackTooEarly(81)),
    ),
    (
        "game g = block { :---: feedback : u; operation : identity [] [number]; returns : 1;
feedback : v; operation : identity [] [number]; returns : u; :---: }; game main = identity
[] [];",
        Err(WireFault::FeedbackTooEarly(142)),
    ),
    (
        "game g = block { :---: feedback : u; operation : identity [] [number]; returns : v;
feedback : v; operation : identity [] [number]; returns : u; :---: }; game main = identity
[] [];",
        Err(WireFault::FeedbackTooEarly(142)),
    ),
    (
        "game g = block { :---: feedback : u; operation : identity [] [number]; returns : 1;
operation : dependentDecision \"a\" [] 0..1; outputs : x; returns : x + 2 * u; :---: }; game
main = identity [] [];",
        Err(WireFault::FeedbackTooEarly(158)),
    ),
    (
        "game g = block { :---: feedback : u, v; operation : identity [] [number, number];
returns : 1, u; :---: }; game main = identity [] [];",
        Err(WireFault::FeedbackTooEarly(95)),
    ),
    (
        "game g = block { :---: feedback : u; operation : identity [] [number]; returns : if
u then 1 else y end; :---: }; game main = identity [] [];",
        Err(WireFault::FeedbackTooEarly(84)),
    ),
    (
        "game g = block { :---: feedback : u; operation : identity [] [number]; returns :
table (u : S) { }; :---: }; game main = identity [] [];",
        Err(WireFault::FeedbackTooEarly(88)),
    ),
    (
        "game g = block { :---: feedback : u; operation : identity [] [number]; returns :
table (true : bool) { (true) -> 1; (false) -> u; }; :---: }; game main = identity [] [];",
        Err(WireFault::FeedbackTooEarly(127)),
    ),
    (
        "fn f(x : number) : number = x; game g = block { :---: feedback : u; operation :
identity [] [number]; returns : min(1, f(u)); :---: }; game main = identity [] [];",
        Err(WireFault::FeedbackTooEarly(121)),
    ),
    (
        "game g = block { :---: feedback : u; operation : identity [] [number]; returns : v;
feedback : v; operation : identity [] [number]; returns : w; feedback : w; operation :
identity [] [number]; returns : 0; :---: }; game main = identity [] [];",
        Ok(()),
    ),
    // Two faults of one place in each order.
    (
        "game g = block { feedback : y : S; :---: :---: }; game main = identity [] [];",
        Err(WireFault::Unknown(28)),
    ),
    (
        "game g = block { inputs : x : bool; feedback : x : number, y : number; :---: :---:
}; game main = identity [] [];",
        Err(WireFault::WrongType(47)),
    ),
    (
        "game g = block { inputs : x : bool; feedback : y : number, x : number; :---: :---:
}; game main = identity [] [];",
        Err(WireFault::Unknown(47)),
    ),
    (
        "game g = block { :---: operation : dependentDecision \"a\" [] 0..1; outputs : x;
returns : y, 1; :---: }; game main = identity [] [];",
        Err(WireFault::Unknown(89)),
    ),
    (
        "game g = block { :---: operation : dependentDecision \"a\" [] 0..1; outputs : x;
returns : true, 1; :---: }; game main = identity [] [];",
        Err(WireFault::WrongCount(35)),
    ),
    (
        "game g = block { :---: feedback : u, v; operation : identity [] [number, number];
returns : u, y; :---: }; game main = identity [] [];",
        Err(WireFault::FeedbackTooEarly(92)),
    ),
    (
        "game g = block { :---: feedback : u, v; operation : identity [] [number, number];
returns : y, u; :---: }; game main = identity [] [];",
        Err(WireFault::Unknown(92)),
    ),
    (
        "game g = block { :---: feedback : u; operation : identity [] [number]; returns :
true, u; :---: }; game main = identity [] [];",
        Err(WireFault::FeedbackTooEarly(87)),
    ),
    (
        "game g = block { :---: feedback : u, v; operation : identity [] [number, number];
returns : true, y; :---: }; game main = identity [] [];",
        Err(WireFault::Unknown(98)),
    ),
    (
        "game g = block { :---: feedback : u; operation : identity [] [number]; returns : u +
y; :---: }; game main = identity [] [];",
        Err(WireFault::FeedbackTooEarly(81)),
    ),
    (
        "game g = block { :---: feedback : u; operation : identity [] [number]; returns : y +
u; :---: }; game main = identity [] [];",
        Err(WireFault::Unknown(81)),
    ),
    // What goes forwards is walked first, in all lines.
    (
        "game g = block { :---: operation : dependentDecision \"a\" [] 0..1; outputs : x;
returns : y; operation : h; :---: }; game main = identity [] [];",
        Err(WireFault::Unknown(104)),
    ),
    (
        "game g = block { :---: feedback : u; operation : identity [] [number]; returns : u;
operation : nature [] bool { () -> true; }; outputs : g; :---: }; game main = identity []
[];",
        Err(WireFault::Twice(138)),
    ),
    (
        "game g = block { :---: operation : dependentDecision \"a\" [] 0..1; outputs : x;
returns : y; operation : nature [] bool { () -> true; }; :---: }; game main = identity []
[];",
        Err(WireFault::WrongCount(104)),
    ),
    (
        "game g = block { :---: operation : dependentDecision \"a\" [] 0..1; returns : y; :---:
}; game main = identity [] [];",
        Err(WireFault::WrongCount(35)),
    ),
    (
        "game g = block { feedback : z : number; :---: :---: outputs : y : bool; }; game main
= identity [] [];",
        Err(WireFault::Unknown(62)),
    ),
    (
        "game g = block { feedback : z : number; :---: :---: returns : u : S; }; game main =
identity [] [];",
        Err(WireFault::Unknown(66)),
    ),
    (
        "game g = block { feedback : 1 : S; :---: :---: returns : u : number, u : number; };
game main = identity [] [];",
        Err(WireFault::Twice(69)),
    ),
    (
        "game g = block { feedback : z : number; :---: :---: outputs : u : number; returns :
u : number; }; game main = identity [] [];",
        Err(WireFault::BackwardInForward(62)),
    ),
    (
        "game g = block { :---: feedback : u; operation : identity [] [number]; returns : u;
:---: returns : v : S; }; game main = identity [] [];",
        Err(WireFault::Unknown(104)),
    ),
    // Then what the block hands back, and then the lines in order.
    (
        "game g = block { feedback : z : number; :---: operation : dependentDecision \"a\" []
0..1; outputs : x; returns : y; :---: }; game main = identity [] [];",
        Err(WireFault::Unknown(28)),
    ),
    (
        "game g = block { feedback : 1 : S; :---: feedback : u; operation : identity []
[number]; returns : u; :---: }; game main = identity [] [];",
        Err(WireFault::Unknown(32)),
    ),
    (
        "game g = block { feedback : u : number; :---: feedback : u; operation : identity []
[number]; returns : u; :---: }; game main = identity [] [];",
        Err(WireFault::FeedbackTooEarly(104)),
    ),
    (
        "game g = block { :---: operation : dependentDecision \"a\" [] 0..1; outputs : x;
returns : y; feedback : u; operation : identity [] [number]; returns : u; :---: }; game main
= identity [] [];",
        Err(WireFault::Unknown(89)),
    ),
    (
        "game g = block { :---: feedback : u; operation : identity [] [number]; returns : u;
operation : dependentDecision \"a\" [] 0..1; outputs : x; returns : y; :---: }; game main =
identity [] [];",
        Err(WireFault::FeedbackTooEarly(81)),
    ),
    (
        "game g = block { :---: operation : dependentDecision \"a\" [] 0..1; outputs : x;
operation : dependentDecision \"a\" [] 0..1; outputs : y; returns : z; :---: }; game main =
identity [] [];",
        Err(WireFault::WrongCount(35)),
    ),
    (
        "game g = block { :---: operation : dependentDecision \"a\" [] 0..1; outputs : x;
returns : true; operation : dependentDecision \"a\" [] 0..1; outputs : y; :---: }; game main =
identity [] [];",
        Err(WireFault::WrongType(89)),
    ),
    (
        "game g = block { :---: operation : dependentDecision \"a\" [] 0..1; outputs : x;
operation : dependentDecision \"a\" [] 0..1; outputs : y; returns : true; :---: }; game main =
identity [] [];",
        Err(WireFault::WrongCount(35)),
    ),
    // What the ports of a block are.
    (
        "game g = block { inputs : x : bool; feedback : 1 : number; :---: :---: outputs : 2 :
0..3; returns : u : bool; } >>> identity [0..3] [bool]; game main = identity [] [];",
        Ok(()),
    ),
    (
        "game g = identity [bool] [number] >>> block { inputs : x : bool; feedback : 1 :
number; :---: :---: outputs : 2 : 0..3; returns : u : bool; }; game main = identity [] [];",
        Ok(()),
    ),
    (
        "game g = block { :---: :---: outputs : 2 : 0..3; } >>> identity [2..2] []; game main
= identity [] [];",
        Err(WireFault::WrongType(55)),
    ),
    (
        "game g = block { :---: :---: returns : u : bool; } >>> identity [] []; game main =
identity [] [];",
        Err(WireFault::WrongCount(55)),
    ),
    (
        "game g = identity [] [number] >>> block { feedback : 1 : 0..1; :---: :---: }; game
main = identity [] [];",
        Err(WireFault::WrongType(34)),
    ),
];

#[test]
fn handed_back(rt: HostRuntime) {
    check_all(&rt, rt.alloc(), RETURNS);
}
