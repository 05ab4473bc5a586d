//! What is seen where.
use crate::walked::{Case, check_all};
use og_typing::WireFault;

/// What blocks and functions inside games see.
const SCOPES: &[Case] = &[
    // A block inside another sees nothing of the outer one.
    (
        "game main = block { :---: operation : nature [] bool { () -> true; }; outputs : x;
operation : block { :---: inputs : x; operation : identity [bool] []; outputs : y; :---: };
:---: };",
        Err(WireFault::Unknown(118)),
    ),
    (
        "game main = block { :---: operation : nature [] bool { () -> true; }; outputs : x;
operation : block { :---: :---: outputs : x : bool; }; outputs : y; :---: };",
        Err(WireFault::Unknown(125)),
    ),
    (
        "game g = block { inputs : x : bool; :---: operation : block { :---: :---: outputs :
x : bool; }; outputs : y; :---: }; game main = identity [] [];",
        Err(WireFault::Unknown(84)),
    ),
    (
        "game g = block { :---: operation : block { :---: operation : dependentDecision \"a\"
[] 0..1; outputs : x; returns : u; :---: }; :---: returns : u : number; }; game main =
identity [] [];",
        Err(WireFault::Unknown(115)),
    ),
    (
        "game g = block { :---: feedback : v; operation : block { feedback : u : number;
:---: :---: }; :---: returns : u : number; }; game main = identity [] [];",
        Err(WireFault::Unknown(68)),
    ),
    (
        "game g = block { :---: operation : block { :---: operation : nature [] bool { () ->
true; }; outputs : x; :---: }; inputs : x; operation : identity [bool] []; outputs : y;
:---: }; game main = identity [] [];",
        Err(WireFault::Unknown(124)),
    ),
    // So it may use the same names.
    (
        "game main = block { :---: operation : nature [] bool { () -> true; }; outputs : x;
inputs : x; operation : block { inputs : x : bool; :---: inputs : x; operation : identity
[bool] []; outputs : y; :---: }; operation : nature [] bool { () -> true; }; outputs : y;
:---: };",
        Ok(()),
    ),
    (
        "game g = block { :---: operation : block { :---: feedback : u; operation : identity
[] [number]; returns : 1; :---: }; operation : nature [] bool { () -> true; }; outputs : u;
:---: }; game main = identity [] [];",
        Ok(()),
    ),
    (
        "game g = block { :---: operation : block { :---: operation : nature [] bool { () ->
true; }; outputs : u; :---: outputs : u : bool; }; outputs : x; :---: returns : u : number;
}; game main = identity [] [];",
        Ok(()),
    ),
    // A function inside a block sees nothing of the block.
    (
        "game main = block { :---: operation : nature [] bool { () -> true; }; outputs : x;
operation : forwardFunction () -> (x : bool); outputs : y; :---: };",
        Err(WireFault::Unknown(118)),
    ),
    (
        "game g = block { :---: feedback : v; operation : backwardFunction () -> (u :
number); :---: returns : u : number; }; game main = identity [] [];",
        Err(WireFault::Unknown(73)),
    ),
    (
        "game main = block { :---: operation : nature [] bool { () -> true; }; outputs : x;
inputs : x; operation : forwardFunction (x : bool) -> (not x : bool); outputs : y; :---: };",
        Ok(()),
    ),
    (
        "game g = block { :---: feedback : v; operation : backwardFunction (u : number) -> (u
: number); returns : u; :---: returns : u : number; }; game main = identity [] [];",
        Ok(()),
    ),
    // All see the parameters of the game.
    (
        "game g(p : bool) = block { :---: operation : block { :---: inputs : p; operation :
identity [bool] []; outputs : x; :---: outputs : p and x : bool; }; outputs : x; :---: };
game main = identity [] [];",
        Ok(()),
    ),
    (
        "game g(p : bool) = block { :---: inputs : p; operation : forwardFunction (x : bool)
-> (x and p : bool); outputs : x; :---: }; game main = identity [] [];",
        Ok(()),
    ),
    (
        "game g(p : number) = block { feedback : p : number; :---: feedback : u; operation :
backwardFunction () -> (p : number); :---: }; game main = identity [] [];",
        Ok(()),
    ),
    (
        "game g(w : agent) = block { :---: operation : block { :---: operation :
dependentDecision w [] bool; outputs : x; returns : 1; :---: }; :---: }; game main =
identity [] [];",
        Ok(()),
    ),
    (
        "game f(p : bool) = identity [] []; game g(p : bool) = block { :---: operation :
block { :---: operation : f(p); :---: }; :---: }; game main = identity [] [];",
        Ok(()),
    ),
    // So nothing inside may have their names.
    (
        "game g(p : bool) = block { :---: operation : block { :---: operation : nature []
bool { () -> true; }; outputs : p; :---: }; :---: }; game main = identity [] [];",
        Err(WireFault::Twice(113)),
    ),
    (
        "game g(p : bool) = block { :---: inputs : p; operation : block { inputs : p : bool;
:---: :---: }; :---: }; game main = identity [] [];",
        Err(WireFault::Twice(74)),
    ),
    (
        "game g(p : bool) = block { :---: inputs : p; operation : forwardFunction (p : bool)
-> (); :---: }; game main = identity [] [];",
        Err(WireFault::Twice(74)),
    ),
    (
        "game g(p : agent) = identity [] [] >>> backwardFunction (p : bool) -> (); game main
= identity [] [];",
        Err(WireFault::Twice(57)),
    ),
    // The parameters of a function stay its own, as those of a game do.
    (
        "fn f(x : bool) : bool = x; game g = block { inputs : x : bool; :---: :---: outputs :
f(x) : bool; }; game main = identity [] [];",
        Ok(()),
    ),
    (
        "fn f(x : bool) : bool = x; game g = block { :---: :---: outputs : x : bool; }; game
main = identity [] [];",
        Err(WireFault::Unknown(66)),
    ),
    (
        "game f(p : bool) = block { :---: :---: outputs : p : bool; }; game g = block { :---:
:---: outputs : p : bool; }; game main = identity [] [];",
        Err(WireFault::Unknown(101)),
    ),
    // Declared names aren't variables.
    (
        "fn f() : bool = true; game g = block { :---: :---: outputs : f : bool; }; game main
= identity [] [];",
        Err(WireFault::Unknown(61)),
    ),
    (
        "type S = { A }; game g = block { :---: :---: outputs : S : S; }; game main =
identity [] [];",
        Err(WireFault::Unknown(55)),
    ),
    (
        "game f = identity [] []; game g = block { :---: :---: outputs : f : bool; }; game
main = identity [] [];",
        Err(WireFault::Unknown(64)),
    ),
    (
        "game g = block { :---: :---: outputs : g : bool; }; game main = identity [] [];",
        Err(WireFault::Unknown(39)),
    ),
    (
        "game g = block { :---: :---: outputs : A : bool; }; type S = { A }; game main =
identity [] [];",
        Err(WireFault::Unknown(39)),
    ),
    (
        "game g = block { :---: operation : nature [] bool { () -> true; }; outputs : x;
:---: outputs : x(1) : bool; }; game main = identity [] [];",
        Err(WireFault::Unknown(96)),
    ),
    (
        "type S = { A }; game g = block { :---: :---: outputs : A : S; }; game main =
identity [] [];",
        Ok(()),
    ),
    // Names that are declared later are free, those of before aren't.
    (
        "game g = block { inputs : S : bool; :---: operation : nature [] bool { () -> true;
}; outputs : f; operation : nature [] bool { () -> true; }; outputs : A; :---: }; type S = {
A }; fn f() : bool = true; game main = identity [] [];",
        Ok(()),
    ),
    (
        "type S = { A }; game g = block { :---: inputs : true; operation : block { inputs : S
: bool; :---: :---: }; :---: }; game main = identity [] [];",
        Err(WireFault::Twice(83)),
    ),
    (
        "fn f() : bool = true; game g = block { :---: operation : block { :---: operation :
nature [] bool { () -> true; }; outputs : f; :---: }; :---: }; game main = identity [] [];",
        Err(WireFault::Twice(125)),
    ),
    (
        "game g = block { :---: operation : block { :---: operation : nature [] bool { () ->
true; }; outputs : g; :---: }; :---: }; game main = identity [] [];",
        Err(WireFault::Twice(103)),
    ),
    (
        "game g = block { :---: inputs : true; operation : forwardFunction (g : bool) -> ();
:---: }; game main = identity [] [];",
        Err(WireFault::Twice(67)),
    ),
    (
        "game f = identity [] []; game g = forwardFunction (f : bool) -> (); game main =
identity [] [];",
        Err(WireFault::Twice(51)),
    ),
    // An agent is no value.
    (
        "game g(w : agent) = block { :---: :---: outputs : w : bool; }; game main = identity
[] [];",
        Err(WireFault::WrongType(50)),
    ),
    (
        "game g(w : agent) = block { :---: inputs : w; operation : identity [bool] [];
outputs : x; :---: }; game main = identity [] [];",
        Err(WireFault::WrongType(43)),
    ),
    (
        "game g(w : agent) = block { :---: :---: outputs : if w then 1 else 2 end : 1..2; };
game main = identity [] [];",
        Err(WireFault::WrongType(53)),
    ),
    (
        "fn f(x : bool) : bool = x; game g(w : agent) = block { :---: :---: outputs : f(w) :
bool; }; game main = identity [] [];",
        Err(WireFault::WrongType(79)),
    ),
    (
        "game g(w : agent) = block { :---: :---: outputs : w : bool, y : bool; }; game main =
identity [] [];",
        Err(WireFault::WrongType(50)),
    ),
    (
        "game g(w : agent) = block { :---: :---: outputs : y : bool, w : bool; }; game main =
identity [] [];",
        Err(WireFault::Unknown(50)),
    ),
    // Faults of inner games stand in the order of the walk.
    (
        "game g = block { :---: feedback : u; operation : block { feedback : y : number;
:---: :---: }; operation : h; :---: }; game main = identity [] [];",
        Err(WireFault::Unknown(68)),
    ),
    (
        "game g = block { feedback : y : number; :---: operation : block { :---: operation :
h; :---: }; :---: }; game main = identity [] [];",
        Err(WireFault::Unknown(84)),
    ),
    (
        "game g = block { feedback : y : number; :---: feedback : u; operation : block {
feedback : z : number; :---: :---: }; :---: }; game main = identity [] [];",
        Err(WireFault::Unknown(91)),
    ),
    (
        "game g = block { :---: operation : dependentDecision \"a\" [] 0..1; outputs : x;
returns : y; operation : block { :---: feedback : u; operation : identity [] [number];
returns : u; :---: }; :---: }; game main = identity [] [];",
        Err(WireFault::FeedbackTooEarly(176)),
    ),
];

#[test]
fn scopes(rt: HostRuntime) {
    check_all(&rt, rt.alloc(), SCOPES);
}
