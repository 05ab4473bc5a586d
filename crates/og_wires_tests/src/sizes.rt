//! Limits on what the game that is judged holds in all.
use crate::walked::{Case, check_all_behind};
use og_typing::WireFault;

/// Functions, each with twice the nodes of the one before, and a game that leaves 8 of 1,048,576.
const SIZES: &str =
    "version 2 ; fn same(x : bool) : bool = x; fn two(x : number) : number = x + x; fn
none(x : number) : number = 1; fn e0() : number = 1; fn e1() : number = e0() + e0(); fn e2()
: number = e1() + e1(); fn e3() : number = e2() + e2(); fn e4() : number = e3() + e3(); fn
e5() : number = e4() + e4(); fn e6() : number = e5() + e5(); fn e7() : number = e6() + e6();
fn e8() : number = e7() + e7(); fn e9() : number = e8() + e8(); fn e10() : number = e9() +
e9(); fn e11() : number = e10() + e10(); fn e12() : number = e11() + e11(); fn e13() :
number = e12() + e12(); fn e14() : number = e13() + e13(); fn e15() : number = e14() +
e14(); game b0 = block { :---: inputs : -e15(); operation : identity [number] []; outputs :
x; :---: }; game b1 = b0 &&& b0; game b2 = b1 &&& b1; game b3 = b2 &&& b2; game c = block {
:---: inputs : e15(), e14() + e13() + e12() + e11() + e10() + e9() + e8() + e7() + e6() +
e5() + e4() + e3() + e2() + e1() + e0() + e2() + 1 + 1; operation : identity [number,
number] []; outputs : x, y; :---: }; game n0 = block { :---: inputs : 1; operation :
identity [number] []; outputs : x; :---: }; game n1 = n0 &&& n0; game n2 = n1 &&& n1; game
n3 = n2 &&& n2; game rest = b3 &&& b2 &&& b1 &&& c; ";

/// Games at the limit on nodes and entries, and above it.
const WEIGHED: &[Case] = &[
    // Games that are closed by themselves.
    ("game main = rest &&& n3;", Ok(())),
    (
        "game main = rest &&& n3 &&& n0;",
        Err(WireFault::TooBig(1217)),
    ),
    (
        "game far = rest &&& rest; game main = identity [] [];",
        Ok(()),
    ),
    // Each form is one more than its parts.
    (
        "game main = block { :---: operation : rest &&& n2 &&& n1 &&& n0; inputs : -1;
operation : identity [number] []; outputs : x; :---: };",
        Ok(()),
    ),
    (
        "game main = block { :---: operation : rest &&& n3; inputs : -1; operation : identity
[number] []; outputs : x; :---: };",
        Err(WireFault::TooBig(1217)),
    ),
    (
        "game main = block { :---: operation : rest &&& n2 &&& n1; inputs : -(1); operation :
identity [number] []; outputs : x; :---: };",
        Ok(()),
    ),
    (
        "game main = block { :---: operation : rest &&& n2 &&& n1 &&& n0; inputs : -(1);
operation : identity [number] []; outputs : x; :---: };",
        Err(WireFault::TooBig(1217)),
    ),
    (
        "game main = block { :---: operation : rest &&& n2; inputs : 1 + 1 - 1; operation :
identity [number] []; outputs : x; :---: };",
        Ok(()),
    ),
    (
        "game main = block { :---: operation : rest &&& n2 &&& n0; inputs : 1 + 1 - 1;
operation : identity [number] []; outputs : x; :---: };",
        Err(WireFault::TooBig(1217)),
    ),
    (
        "game main = block { :---: operation : rest &&& n1 &&& n0; inputs : 1 + (1 + 1);
operation : identity [number] []; outputs : x; :---: };",
        Ok(()),
    ),
    (
        "game main = block { :---: operation : rest &&& n2; inputs : 1 + (1 + 1); operation :
identity [number] []; outputs : x; :---: };",
        Err(WireFault::TooBig(1217)),
    ),
    (
        "game main = block { :---: operation : rest &&& n2 &&& n0; inputs : 1 * 1 / 2;
operation : identity [number] []; outputs : x; :---: };",
        Ok(()),
    ),
    (
        "game main = block { :---: operation : rest &&& n2 &&& n1; inputs : 1 * 1 / 2;
operation : identity [number] []; outputs : x; :---: };",
        Err(WireFault::TooBig(1217)),
    ),
    (
        "game main = block { :---: operation : rest &&& n2 &&& n0; inputs : min(1, 2);
operation : identity [number] []; outputs : x; :---: };",
        Ok(()),
    ),
    (
        "game main = block { :---: operation : rest &&& n2 &&& n1; inputs : min(1, 2);
operation : identity [number] []; outputs : x; :---: };",
        Err(WireFault::TooBig(1217)),
    ),
    (
        "game main = block { :---: operation : rest &&& n2; inputs : ratio(1, 2, 3);
operation : identity [number] []; outputs : x; :---: };",
        Ok(()),
    ),
    (
        "game main = block { :---: operation : rest &&& n2 &&& n0; inputs : ratio(1, 2, 3);
operation : identity [number] []; outputs : x; :---: };",
        Err(WireFault::TooBig(1217)),
    ),
    (
        "game main = block { :---: operation : rest &&& n2 &&& n1; inputs : clamp 0..1 (1);
operation : identity [number] []; outputs : x; :---: };",
        Ok(()),
    ),
    (
        "game main = block { :---: operation : rest &&& n2 &&& n1 &&& n0; inputs : clamp 0..1
(1); operation : identity [number] []; outputs : x; :---: };",
        Err(WireFault::TooBig(1217)),
    ),
    (
        "game main = block { :---: operation : rest &&& n2; inputs : if true then 1 else 2
end; operation : identity [number] []; outputs : x; :---: };",
        Ok(()),
    ),
    (
        "game main = block { :---: operation : rest &&& n2 &&& n0; inputs : if true then 1
else 2 end; operation : identity [number] []; outputs : x; :---: };",
        Err(WireFault::TooBig(1217)),
    ),
    (
        "game main = block { :---: operation : rest &&& n1; inputs : if true then 1 elif
false then 2 else 3 end; operation : identity [number] []; outputs : x; :---: };",
        Ok(()),
    ),
    (
        "game main = block { :---: operation : rest &&& n1 &&& n0; inputs : if true then 1
elif false then 2 else 3 end; operation : identity [number] []; outputs : x; :---: };",
        Err(WireFault::TooBig(1217)),
    ),
    (
        "game main = block { :---: operation : rest &&& n2 &&& n1; inputs : not true;
operation : identity [bool] []; outputs : x; :---: };",
        Ok(()),
    ),
    (
        "game main = block { :---: operation : rest &&& n2 &&& n1 &&& n0; inputs : not true;
operation : identity [bool] []; outputs : x; :---: };",
        Err(WireFault::TooBig(1217)),
    ),
    (
        "game main = block { :---: operation : rest &&& n2; inputs : true or false or true;
operation : identity [bool] []; outputs : x; :---: };",
        Ok(()),
    ),
    (
        "game main = block { :---: operation : rest &&& n2 &&& n0; inputs : true or false or
true; operation : identity [bool] []; outputs : x; :---: };",
        Err(WireFault::TooBig(1217)),
    ),
    (
        "game main = block { :---: operation : rest &&& n2 &&& n0; inputs : 1 == 1; operation
: identity [bool] []; outputs : x; :---: };",
        Ok(()),
    ),
    (
        "game main = block { :---: operation : rest &&& n2 &&& n1; inputs : 1 == 1; operation
: identity [bool] []; outputs : x; :---: };",
        Err(WireFault::TooBig(1217)),
    ),
    (
        "game main = block { :---: operation : rest &&& n2 &&& n0; inputs : (1, true);
operation : identity [(number, bool)] []; outputs : x; :---: };",
        Ok(()),
    ),
    (
        "game main = block { :---: operation : rest &&& n2 &&& n1; inputs : (1, true);
operation : identity [(number, bool)] []; outputs : x; :---: };",
        Err(WireFault::TooBig(1217)),
    ),
    (
        "game main = block { :---: operation : rest &&& n2 &&& n0; operation : nature []
(bool, bool) { () -> (true, true); }; outputs : x; inputs : x.0; operation : identity [bool]
[]; outputs : y; :---: };",
        Ok(()),
    ),
    (
        "game main = block { :---: operation : rest &&& n2 &&& n1; operation : nature []
(bool, bool) { () -> (true, true); }; outputs : x; inputs : x.0; operation : identity [bool]
[]; outputs : y; :---: };",
        Err(WireFault::TooBig(1217)),
    ),
    // A table counts its keys, and each value in its rows.
    (
        "game main = block { :---: operation : rest &&& n0; operation : nature [] bool { ()
-> true; }; outputs : x; inputs : table (x : bool) { (true) -> 1; (false) -> 2; }; operation
: identity [number] []; outputs : y; :---: };",
        Ok(()),
    ),
    (
        "game main = block { :---: operation : rest &&& n1; operation : nature [] bool { ()
-> true; }; outputs : x; inputs : table (x : bool) { (true) -> 1; (false) -> 2; }; operation
: identity [number] []; outputs : y; :---: };",
        Err(WireFault::TooBig(1217)),
    ),
    (
        "game main = block { :---: operation : rest &&& n1; inputs : table (1 : 1..1, 2 :
2..2) { (1, 2) -> 3; }; operation : identity [number] []; outputs : x; :---: };",
        Ok(()),
    ),
    (
        "game main = block { :---: operation : rest &&& n1 &&& n0; inputs : table (1 : 1..1,
2 : 2..2) { (1, 2) -> 3; }; operation : identity [number] []; outputs : x; :---: };",
        Err(WireFault::TooBig(1217)),
    ),
    (
        "game main = block { :---: operation : rest &&& n0; operation : nature [] (bool,
0..0) { () -> (true, 0); }; outputs : x; inputs : table (x : (bool, 0..0)) { ((true, 0)) ->
1; ((false, 0)) -> 2; }; operation : identity [number] []; outputs : y; :---: };",
        Ok(()),
    ),
    (
        "game main = block { :---: operation : rest &&& n1; operation : nature [] (bool,
0..0) { () -> (true, 0); }; outputs : x; inputs : table (x : (bool, 0..0)) { ((true, 0)) ->
1; ((false, 0)) -> 2; }; operation : identity [number] []; outputs : y; :---: };",
        Err(WireFault::TooBig(1217)),
    ),
    // Calls count as their bodies.
    (
        "game main = block { :---: operation : rest &&& n2 &&& n0; inputs : two(1); operation
: identity [number] []; outputs : x; :---: };",
        Ok(()),
    ),
    (
        "game main = block { :---: operation : rest &&& n2 &&& n1; inputs : two(1); operation
: identity [number] []; outputs : x; :---: };",
        Err(WireFault::TooBig(1217)),
    ),
    (
        "game main = block { :---: operation : rest &&& n0; inputs : two(two(1)); operation :
identity [number] []; outputs : x; :---: };",
        Ok(()),
    ),
    (
        "game main = block { :---: operation : rest &&& n1; inputs : two(two(1)); operation :
identity [number] []; outputs : x; :---: };",
        Err(WireFault::TooBig(1217)),
    ),
    (
        "game main = block { :---: operation : rest &&& n2 &&& n1 &&& n0; inputs : none(1 +
2); operation : identity [number] []; outputs : x; :---: };",
        Ok(()),
    ),
    (
        "game main = block { :---: operation : rest &&& n3; inputs : none(1 + 2); operation :
identity [number] []; outputs : x; :---: };",
        Err(WireFault::TooBig(1217)),
    ),
    (
        "game main = block { :---: operation : rest &&& n2 &&& n0; inputs : two(none(1 + 1 +
1)); operation : identity [number] []; outputs : x; :---: };",
        Ok(()),
    ),
    (
        "game main = block { :---: operation : rest &&& n2 &&& n1; inputs : two(none(1 + 1 +
1)); operation : identity [number] []; outputs : x; :---: };",
        Err(WireFault::TooBig(1217)),
    ),
    (
        "game p(k : number) = block { :---: inputs : k + k; operation : identity [number] [];
outputs : x; :---: }; game main = block { :---: operation : rest &&& n2 &&& n0; operation :
p(5); :---: };",
        Ok(()),
    ),
    (
        "game p(k : number) = block { :---: inputs : k + k; operation : identity [number] [];
outputs : x; :---: }; game main = block { :---: operation : rest &&& n2 &&& n1; operation :
p(5); :---: };",
        Err(WireFault::TooBig(1324)),
    ),
    // Just a variable makes no line and counts nothing; the result of a function makes one.
    (
        "game main = block { :---: operation : rest &&& n2 &&& n1 &&& n0; operation : nature
[] bool { () -> true; }; outputs : x; inputs : x; operation : identity [bool] []; outputs :
y; :---: };",
        Ok(()),
    ),
    (
        "game main = block { :---: operation : rest &&& n3; operation : nature [] bool { ()
-> true; }; outputs : x; inputs : x; operation : identity [bool] []; outputs : y; :---: };",
        Err(WireFault::TooBig(1217)),
    ),
    (
        "game main = block { :---: operation : rest &&& n2 &&& n1 &&& n0; operation : nature
[] bool { () -> true; }; outputs : x; inputs : same(x); operation : identity [bool] [];
outputs : y; :---: };",
        Ok(()),
    ),
    (
        "game main = block { :---: operation : rest &&& n3; operation : nature [] bool { ()
-> true; }; outputs : x; inputs : same(x); operation : identity [bool] []; outputs : y;
:---: };",
        Err(WireFault::TooBig(1217)),
    ),
    (
        "game main = block { :---: operation : rest &&& n2 &&& n1; operation : nature [] bool
{ () -> true; }; outputs : x; inputs : x; operation : forwardFunction (x : bool) -> (x :
bool); outputs : y; :---: };",
        Ok(()),
    ),
    (
        "game main = block { :---: operation : rest &&& n2 &&& n1 &&& n0; operation : nature
[] bool { () -> true; }; outputs : x; inputs : x; operation : forwardFunction (x : bool) ->
(x : bool); outputs : y; :---: };",
        Err(WireFault::TooBig(1217)),
    ),
    // What is given and handed back counts too.
    (
        "game main = block { :---: operation : rest &&& n3; operation : dependentDecision \"a\"
[] 0..1; outputs : d; returns : d; :---: };",
        Ok(()),
    ),
    (
        "game main = block { :---: operation : rest &&& n3 &&& n0; operation :
dependentDecision \"a\" [] 0..1; outputs : d; returns : d; :---: };",
        Err(WireFault::TooBig(1217)),
    ),
    (
        "game main = block { :---: operation : rest &&& n2 &&& n1 &&& n0; operation :
dependentDecision \"a\" [] 0..1; outputs : d; returns : 0; :---: };",
        Ok(()),
    ),
    (
        "game main = block { :---: operation : rest &&& n3; operation : dependentDecision \"a\"
[] 0..1; outputs : d; returns : 0; :---: };",
        Err(WireFault::TooBig(1217)),
    ),
    (
        "game main = block { :---: operation : rest &&& n2 &&& n1; operation : block { :---:
:---: outputs : not true : bool; }; outputs : o; :---: };",
        Ok(()),
    ),
    (
        "game main = block { :---: operation : rest &&& n2 &&& n1 &&& n0; operation : block {
:---: :---: outputs : not true : bool; }; outputs : o; :---: };",
        Err(WireFault::TooBig(1217)),
    ),
    (
        "game main = block { :---: operation : rest &&& n2 &&& n0; feedback : u; operation :
block { feedback : 1 + 1 : number; :---: :---: }; :---: };",
        Ok(()),
    ),
    (
        "game main = block { :---: operation : rest &&& n2 &&& n1; feedback : u; operation :
block { feedback : 1 + 1 : number; :---: :---: }; :---: };",
        Err(WireFault::TooBig(1217)),
    ),
    (
        "game main = block { :---: operation : rest &&& n2; feedback : u, v; operation :
backwardFunction () -> (1 : number, 1 * 2 : number); :---: };",
        Ok(()),
    ),
    (
        "game main = block { :---: operation : rest &&& n2 &&& n0; feedback : u, v; operation
: backwardFunction () -> (1 : number, 1 * 2 : number); :---: };",
        Err(WireFault::TooBig(1217)),
    ),
    // A nature counts the entries of its rows as they are written.
    (
        "game main = block { :---: operation : rest &&& n2 &&& n1; operation : nature [] bool
{ () -> true, false : 0; }; outputs : x; :---: };",
        Ok(()),
    ),
    (
        "game main = block { :---: operation : rest &&& n2 &&& n1 &&& n0; operation : nature
[] bool { () -> true, false : 0; }; outputs : x; :---: };",
        Err(WireFault::TooBig(1217)),
    ),
    (
        "game main = block { :---: operation : rest &&& n2; operation : nature [] bool { ()
-> true; }; outputs : x; inputs : x; operation : nature [bool] bool { (true) -> true : 1/2,
false : 1/2; (false) -> false; }; outputs : y; :---: };",
        Ok(()),
    ),
    (
        "game main = block { :---: operation : rest &&& n2 &&& n0; operation : nature [] bool
{ () -> true; }; outputs : x; inputs : x; operation : nature [bool] bool { (true) -> true :
1/2, false : 1/2; (false) -> false; }; outputs : y; :---: };",
        Err(WireFault::TooBig(1217)),
    ),
    // A decision counts the actions that it allows by rows.
    (
        "game main = block { :---: operation : rest &&& n3; operation : dependentDecision \"a\"
[] 0..3; outputs : d; returns : d; :---: };",
        Ok(()),
    ),
    (
        "game main = block { :---: operation : rest &&& n3 &&& n0; operation :
dependentDecision \"a\" [] 0..3; outputs : d; returns : d; :---: };",
        Err(WireFault::TooBig(1217)),
    ),
    (
        "game main = block { :---: operation : rest &&& n2 &&& n1; operation :
dependentDecision \"a\" [] 0..1 among { () -> 0, 1; }; outputs : d; returns : d; :---: };",
        Ok(()),
    ),
    (
        "game main = block { :---: operation : rest &&& n2 &&& n1 &&& n0; operation :
dependentDecision \"a\" [] 0..1 among { () -> 0, 1; }; outputs : d; returns : d; :---: };",
        Err(WireFault::TooBig(1217)),
    ),
    (
        "game main = block { :---: operation : rest &&& n2; operation : nature [] bool { ()
-> true; }; outputs : x; inputs : x; operation : dependentDecision \"a\" [bool] 0..1 among {
(true) -> 1; (false) -> 0, 1; }; outputs : d; returns : d; :---: };",
        Ok(()),
    ),
    (
        "game main = block { :---: operation : rest &&& n2 &&& n0; operation : nature [] bool
{ () -> true; }; outputs : x; inputs : x; operation : dependentDecision \"a\" [bool] 0..1
among { (true) -> 1; (false) -> 0, 1; }; outputs : d; returns : d; :---: };",
        Err(WireFault::TooBig(1217)),
    ),
    // A branch counts all its arms.
    (
        "game main = block { :---: operation : rest &&& n1 &&& n0; operation : nature [] bool
{ () -> true; }; outputs : x; inputs : x; operation : branch bool { (true) ->
forwardFunction () -> (1 + 1 : number); (false) -> forwardFunction () -> (2 : number); };
outputs : y; :---: };",
        Ok(()),
    ),
    (
        "game main = block { :---: operation : rest &&& n2; operation : nature [] bool { ()
-> true; }; outputs : x; inputs : x; operation : branch bool { (true) -> forwardFunction ()
-> (1 + 1 : number); (false) -> forwardFunction () -> (2 : number); }; outputs : y; :---: };",
        Err(WireFault::TooBig(1217)),
    ),
    // Two faults in each order.
    (
        "game main = rest &&& rest &&& identity [] [bool];",
        Err(WireFault::NotClosed(1217)),
    ),
    (
        "game main(p : bool) = rest &&& rest;",
        Err(WireFault::WrongCount(1217)),
    ),
    (
        "game n4 = n3 &&& n3; game n5 = n4 &&& n4; game n6 = n5 &&& n5; game n7 = n6 &&& n6;
game n8 = n7 &&& n7; game n9 = n8 &&& n8; game n10 = n9 &&& n9; game n11 = n10 &&& n10; game
n12 = n11 &&& n11; game main = rest &&& n12;",
        Err(WireFault::TooManyLines(1413)),
    ),
    (
        "game s = block { :---: operation : nature [] bool { () -> true :
1/2305843009213693952, false : 2305843009213693951/2305843009213693952; }; outputs : x;
:---: }; game main = rest &&& rest &&& s &&& s;",
        Err(WireFault::TooBig(1379)),
    ),
    (
        "game main = block { :---: inputs : -(-e15()); operation : h; :---: };",
        Err(WireFault::TooBig(1247)),
    ),
    (
        "game k = forwardFunction () -> (-(-e15()) : S); game main = identity [] [];",
        Err(WireFault::TooBig(1244)),
    ),
    (
        "game k = forwardFunction () -> (-(-e15()) + y : S); game main = identity [] [];",
        Err(WireFault::Unknown(1256)),
    ),
];

/// Games, each with twice the coins of the one before.
const COINS: &str =
    "version 2 ; game s0 = block { :---: operation : nature [] bool { () -> true : 1/2,
false : 1/2; }; outputs : x; :---: }; game s1 = s0 &&& s0; game s2 = s1 &&& s1; game s3 = s2
&&& s2; game s4 = s3 &&& s3; game s5 = s4 &&& s4; game s6 = s5 &&& s5; game s7 = s6 &&& s6; ";

/// Games at the limit on the product of scales, and above it.
const SCALED: &[Case] = &[
    // As many coins as there may be, and more.
    ("game main = s5 &&& s4 &&& s3 &&& s2 &&& s0;", Ok(())),
    (
        "game main = s5 &&& s4 &&& s3 &&& s2 &&& s1;",
        Err(WireFault::ScaleTooLarge(273)),
    ),
    ("game main = s6;", Err(WireFault::ScaleTooLarge(273))),
    ("game main = s7;", Err(WireFault::ScaleTooLarge(273))),
    ("game far = s6; game main = s5;", Ok(())),
    // Other scales.
    (
        "game main = block { :---: operation : nature [] bool { () -> true :
1/4611686018427387903, false : 4611686018427387902/4611686018427387903; }; outputs : x;
:---: };",
        Ok(()),
    ),
    (
        "game main = block { :---: operation : nature [] bool { () -> true :
1/4611686018427387903, false : 4611686018427387902/4611686018427387903; }; outputs : x;
:---: } &&& s0;",
        Err(WireFault::ScaleTooLarge(273)),
    ),
    (
        "game main = block { :---: operation : nature [] bool { () -> true :
1/2305843009213693951, false : 2305843009213693950/2305843009213693951; }; outputs : x;
:---: } &&& s0;",
        Ok(()),
    ),
    (
        "game main = block { :---: operation : nature [] bool { () -> true :
1/4611686018427387903, false : 4611686018427387902/4611686018427387903; }; outputs : x;
:---: } &&& block { :---: operation : nature [] bool { () -> true; }; outputs : x; :---: };",
        Ok(()),
    ),
    (
        "game main = block { :---: operation : nature [] bool { () -> true : 1/2147483648,
false : 2147483647/2147483648; }; outputs : x; :---: } &&& block { :---: operation : nature
[] bool { () -> true : 1/2147483647, false : 2147483646/2147483647; }; outputs : x; :---: };",
        Ok(()),
    ),
    (
        "game main = block { :---: operation : nature [] bool { () -> true : 1/2147483648,
false : 2147483647/2147483648; }; outputs : x; :---: } &&& block { :---: operation : nature
[] bool { () -> true : 1/2147483648, false : 2147483647/2147483648; }; outputs : x; :---: };",
        Err(WireFault::ScaleTooLarge(273)),
    ),
    (
        "game main = block { :---: operation : nature [] bool { () -> true :
1/4611686018427387903, false : 4611686018427387902/4611686018427387903; }; outputs : x;
:---: } &&& block { :---: operation : nature [] bool { () -> true : 1/4611686018427387903,
false : 4611686018427387902/4611686018427387903; }; outputs : x; :---: } &&& block { :---:
operation : nature [] bool { () -> true : 1/4611686018427387903, false :
4611686018427387902/4611686018427387903; }; outputs : x; :---: };",
        Err(WireFault::ScaleTooLarge(273)),
    ),
    // All arms of a branch count.
    (
        "game main = block { :---: inputs : 0; operation : branch 0..1 { (0) -> s5; (1) -> s4
&&& s3 &&& s2 &&& s0; }; :---: };",
        Ok(()),
    ),
    (
        "game main = block { :---: inputs : 0; operation : branch 0..1 { (0) -> s5; (1) -> s4
&&& s3 &&& s2 &&& s1; }; :---: };",
        Err(WireFault::ScaleTooLarge(273)),
    ),
    // Two faults in each order.
    ("game main(p : bool) = s6;", Err(WireFault::WrongCount(273))),
    (
        "game main = s6 &&& identity [bool] [];",
        Err(WireFault::NotClosed(273)),
    ),
    ("game main = s6; game k = h;", Err(WireFault::Unknown(293))),
    (
        "game main = s6; game k = nature [] bool { () -> true : 1/4611686018427387904; };",
        Err(WireFault::ScaleTooLarge(293)),
    ),
];

#[test]
fn nodes_and_entries(rt: HostRuntime) {
    check_all_behind(&rt, rt.alloc(), SIZES, WEIGHED);
}

#[test]
fn products(rt: HostRuntime) {
    check_all_behind(&rt, rt.alloc(), COINS, SCALED);
}
