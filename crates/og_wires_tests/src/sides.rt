//! The limit on the ports of a branch.
use crate::walked::{Case, check_all_behind};
use og_typing::WireFault;

/// Games of one kind of port, each with twice the ports of the one before: the last have 256.
const PORTS: &str =
    "version 2 ; game i0 = identity [bool] []; game i1 = i0 &&& i0; game i2 = i1 &&& i1;
game i3 = i2 &&& i2; game i4 = i3 &&& i3; game i5 = i4 &&& i4; game i6 = i5 &&& i5; game i7
= i6 &&& i6; game i8 = i7 &&& i7; game r0 = identity [] [bool]; game r1 = r0 &&& r0; game r2
= r1 &&& r1; game r3 = r2 &&& r2; game r4 = r3 &&& r3; game r5 = r4 &&& r4; game r6 = r5 &&&
r5; game r7 = r6 &&& r6; game r8 = r7 &&& r7; game o0 = forwardFunction () -> (true : bool);
game o1 = o0 &&& o0; game o2 = o1 &&& o1; game o3 = o2 &&& o2; game o4 = o3 &&& o3; game o5
= o4 &&& o4; game o6 = o5 &&& o5; game o7 = o6 &&& o6; game o8 = o7 &&& o7; game f0 =
backwardFunction () -> (1 : number); game f1 = f0 &&& f0; game f2 = f1 &&& f1; game f3 = f2
&&& f2; game f4 = f3 &&& f3; game f5 = f4 &&& f4; game f6 = f5 &&& f5; game f7 = f6 &&& f6;
game f8 = f7 &&& f7; game t0 = backwardFunction (u : number) -> (); game t1 = t0 &&& t0;
game t2 = t1 &&& t1; game t3 = t2 &&& t2; game t4 = t3 &&& t3; game t5 = t4 &&& t4; game t6
= t5 &&& t5; game t7 = t6 &&& t6; game t8 = t7 &&& t7; game most = i7 &&& i6 &&& i5 &&& i4
&&& i3 &&& i2 &&& i1 &&& i0; ";

/// Branches at the limit on ports, and above it.
const BRANCHED: &[Case] = &[
    // What it goes by counts as handed in.
    (
        "game k = branch 0..0 { (0) -> most; }; game main = identity [] [];",
        Ok(()),
    ),
    (
        "game k = branch 0..0 { (0) -> i8; }; game main = identity [] [];",
        Err(WireFault::TooBig(1127)),
    ),
    (
        "game k = branch 0..0 { (0) -> most &&& i0; }; game main = identity [] [];",
        Err(WireFault::TooBig(1127)),
    ),
    (
        "game k = branch 0..0 { (0) -> i8 &&& i8; }; game main = identity [] [];",
        Err(WireFault::TooBig(1127)),
    ),
    // What is given, and what is handed back.
    (
        "game k = branch 0..0 { (0) -> o8; }; game main = identity [] [];",
        Ok(()),
    ),
    (
        "game k = branch 0..0 { (0) -> o8 &&& o0; }; game main = identity [] [];",
        Err(WireFault::TooBig(1127)),
    ),
    (
        "game k = branch 0..0 { (0) -> r8; }; game main = identity [] [];",
        Ok(()),
    ),
    (
        "game k = branch 0..0 { (0) -> r8 &&& r0; }; game main = identity [] [];",
        Err(WireFault::TooBig(1127)),
    ),
    (
        "game k = branch 0..0 { (0) -> f8; }; game main = identity [] [];",
        Ok(()),
    ),
    (
        "game k = branch 0..0 { (0) -> f8 &&& f0; }; game main = identity [] [];",
        Err(WireFault::TooBig(1127)),
    ),
    (
        "game k = branch 0..0 { (0) -> t8; }; game main = identity [] [];",
        Ok(()),
    ),
    (
        "game k = branch 0..0 { (0) -> t8 &&& t0; }; game main = identity [] [];",
        Err(WireFault::TooBig(1127)),
    ),
    // Games without a branch have no such limit.
    (
        "game k = i8 &&& i8 &&& r8 &&& r8; game main = identity [] [];",
        Ok(()),
    ),
    // Two faults in each order.
    (
        "game k = branch 0..1 { (0) -> i8; }; game main = identity [] [];",
        Err(WireFault::MissingRow(1127)),
    ),
    (
        "game k = branch 0..1 { (0) -> i8; (1) -> most; }; game main = identity [] [];",
        Err(WireFault::WrongCount(1159)),
    ),
    (
        "game k = branch 0..1 { (0) -> i8; (1) -> h; }; game main = identity [] [];",
        Err(WireFault::Unknown(1159)),
    ),
    (
        "game k = branch 0..1 { (0) -> i8; (1) -> i8; }; game main = identity [] [];",
        Err(WireFault::TooBig(1127)),
    ),
    (
        "game k = branch 0..0 { (0) -> branch 0..0 { (0) -> i8; }; }; game main = identity []
[];",
        Err(WireFault::TooBig(1148)),
    ),
    (
        "game k = branch 0..0 { (0) -> branch 0..0 { (0) -> most; }; }; game main = identity
[] [];",
        Err(WireFault::TooBig(1127)),
    ),
    (
        "game k = branch 0..0 { (0) -> i8; } >>> h; game main = identity [] [];",
        Err(WireFault::TooBig(1127)),
    ),
];

#[test]
fn ports(rt: HostRuntime) {
    check_all_behind(&rt, rt.alloc(), PORTS, BRANCHED);
}
