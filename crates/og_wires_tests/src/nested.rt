//! Limits on parts that stand inside each other.
use crate::walked::check_alone;
use og_list::Text;
use og_typing::WireFault;
use std::alloc::Global;
use std::process::Abort;

/// A part inside others of one kind: what stands first, what opens each of the others, how many
/// there are, the part, what closes each of the others, what stands last; and the rule that is
/// broken first, if one is.
type Nest = (
    &'static str,
    &'static str,
    usize,
    &'static str,
    &'static str,
    &'static str,
    Result<(), WireFault>,
);

fn add_times(rt: &impl Abort, text: &mut Text, piece: &str, times: usize) {
    for _ in 0..times {
        text.push_str(piece).expect(rt, "memory");
    }
}

fn spelled(rt: &impl Abort, alloc: Global, nest: &Nest) -> Text {
    let (first, opener, times, part, closer, last, _) = nest;
    let mut text = Text::from(alloc, *first).expect(rt, "memory");
    add_times(rt, &mut text, *opener, *times);
    text.push_str(*part).expect(rt, "memory");
    add_times(rt, &mut text, *closer, *times);
    text.push_str(*last).expect(rt, "memory");
    text
}

fn check_nests(rt: &impl Abort, alloc: Global, nests: &[Nest]) {
    for nest in nests {
        let text = spelled(rt, alloc, nest);
        let (_, _, _, _, _, _, want) = nest;
        check_alone(rt, alloc, text.as_str(), *want);
    }
}

/// Games at the limit on depth, and above it.
const DEEP: &[Nest] = &[
    // Blocks inside each other.
    (
        "game main = ",
        "block { :---: operation : ",
        47,
        "identity [] []",
        "; :---: }",
        ";",
        Ok(()),
    ),
    (
        "game main = ",
        "block { :---: operation : ",
        48,
        "identity [] []",
        "; :---: }",
        ";",
        Err(WireFault::TooBig(1260)),
    ),
    (
        "game main = ",
        "block { :---: operation : ",
        47,
        "h",
        "; :---: }",
        ";",
        Err(WireFault::Unknown(1234)),
    ),
    (
        "game main = ",
        "block { :---: operation : ",
        48,
        "h",
        "; :---: }",
        ";",
        Err(WireFault::TooBig(1260)),
    ),
    (
        "game main = ",
        "block { :---: operation : ",
        48,
        "block { :---: operation : h; :---: }",
        "; :---: }",
        ";",
        Err(WireFault::TooBig(1260)),
    ),
    (
        "game main = ",
        "block { :---: operation : ",
        48,
        "identity [S] []",
        "; :---: }",
        ";",
        Err(WireFault::TooBig(1260)),
    ),
    // Compositions inside each other, and inside blocks.
    (
        "game main = ",
        "identity [] [] &&& (",
        47,
        "identity [] []",
        ")",
        ";",
        Ok(()),
    ),
    (
        "game main = ",
        "identity [] [] &&& (",
        47,
        "identity [] [] &&& identity [] []",
        ")",
        ";",
        Err(WireFault::TooBig(952)),
    ),
    (
        "game main = ",
        "identity [] [] >>> (",
        47,
        "identity [] []",
        ")",
        ";",
        Ok(()),
    ),
    (
        "game main = ",
        "identity [] [] >>> (",
        47,
        "identity [] [] >>> h",
        ")",
        ";",
        Err(WireFault::TooBig(952)),
    ),
    (
        "game main = ",
        "block { :---: operation : ",
        46,
        "identity [] [] &&& identity [] []",
        "; :---: }",
        ";",
        Ok(()),
    ),
    (
        "game main = ",
        "block { :---: operation : ",
        47,
        "identity [] [] &&& identity [] []",
        "; :---: }",
        ";",
        Err(WireFault::TooBig(1234)),
    ),
    (
        "game main = ",
        "block { :---: operation : ",
        46,
        "identity [] [] >>> (identity [] [] >>> h)",
        "; :---: }",
        ";",
        Err(WireFault::TooBig(1228)),
    ),
    (
        "game main = ",
        "block { :---: operation : ",
        46,
        "identity [] [] &&& identity [] [] &&& h",
        "; :---: }",
        ";",
        Err(WireFault::TooBig(1208)),
    ),
    (
        "game main = ",
        "block { :---: operation : ",
        45,
        "identity [] [] &&& identity [] [] &&& h",
        "; :---: }",
        ";",
        Err(WireFault::Unknown(1220)),
    ),
    // Brackets alone aren't deep.
    ("game main = ", "(", 60, "identity [] []", ")", ";", Ok(())),
    // Calls are as deep as their bodies.
    (
        "game g = identity [] [] &&& (identity [] [] >>> identity [] []); game main = ",
        "block { :---: operation : ",
        45,
        "g",
        "; :---: }",
        ";",
        Ok(()),
    ),
    (
        "game g = identity [] [] &&& (identity [] [] >>> identity [] []); game main = ",
        "block { :---: operation : ",
        46,
        "g",
        "; :---: }",
        ";",
        Err(WireFault::TooBig(1273)),
    ),
    (
        "game g = identity [] [] &&& (identity [] [] >>> identity [] []); game main = ",
        "block { :---: operation : ",
        44,
        "g &&& g",
        "; :---: }",
        ";",
        Ok(()),
    ),
    (
        "game g = identity [] [] &&& (identity [] [] >>> identity [] []); game main = ",
        "block { :---: operation : ",
        45,
        "g &&& h",
        "; :---: }",
        ";",
        Err(WireFault::TooBig(1247)),
    ),
    (
        "game g = identity [] [] &&& (identity [] [] >>> identity [] []); game main = ",
        "block { :---: operation : ",
        45,
        "identity [] [] &&& g",
        "; :---: }",
        ";",
        Err(WireFault::TooBig(1266)),
    ),
    (
        "game g = identity [] [] &&& (identity [] [] >>> identity [] []); game k = g &&& g;
game main = ",
        "block { :---: operation : ",
        44,
        "k",
        "; :---: }",
        ";",
        Ok(()),
    ),
    (
        "game g = identity [] [] &&& (identity [] [] >>> identity [] []); game k = g &&& g;
game main = ",
        "block { :---: operation : ",
        45,
        "k",
        "; :---: }",
        ";",
        Err(WireFault::TooBig(1265)),
    ),
    (
        "game g = identity [] [] &&& (identity [] [] >>> identity [] []); game k = block {
:---: operation : g; :---: }; game main = ",
        "block { :---: operation : ",
        44,
        "k",
        "; :---: }",
        ";",
        Ok(()),
    ),
    (
        "game g = identity [] [] &&& (identity [] [] >>> identity [] []); game k = block {
:---: operation : g; :---: }; game main = ",
        "block { :---: operation : ",
        45,
        "k",
        "; :---: }",
        ";",
        Err(WireFault::TooBig(1294)),
    ),
    (
        "game g = identity [] []; game j = g; game k = j; game main = ",
        "block { :---: operation : ",
        47,
        "k",
        "; :---: }",
        ";",
        Ok(()),
    ),
    (
        "game g = identity [] []; game j = g; game k = j; game main = ",
        "block { :---: operation : ",
        48,
        "k",
        "; :---: }",
        ";",
        Err(WireFault::TooBig(1309)),
    ),
    (
        "game g(p : bool) = identity [] [] &&& (identity [] [] >>> identity [] []); game main
= ",
        "block { :---: operation : ",
        45,
        "g",
        "; :---: }",
        ";",
        Err(WireFault::WrongCount(1257)),
    ),
    (
        "game g(p : bool) = identity [] [] &&& (identity [] [] >>> identity [] []); game main
= ",
        "block { :---: operation : ",
        46,
        "g",
        "; :---: }",
        ";",
        Err(WireFault::TooBig(1283)),
    ),
    (
        "game g(p : bool) = identity [] [] &&& (identity [] [] >>> identity [] []); game main
= ",
        "block { :---: operation : ",
        45,
        "g(1)",
        "; :---: }",
        ";",
        Err(WireFault::WrongType(1259)),
    ),
    (
        "game g(p : bool) = identity [] [] &&& (identity [] [] >>> identity [] []); game main
= ",
        "block { :---: operation : ",
        46,
        "g(1)",
        "; :---: }",
        ";",
        Err(WireFault::TooBig(1283)),
    ),
    // An arm of a branch is one deeper.
    (
        "version 2 ; game main = ",
        "block { :---: operation : ",
        45,
        "block { :---: inputs : 0; operation : branch 0..0 { (0) -> identity [] []; }; :---:
}",
        "; :---: }",
        ";",
        Ok(()),
    ),
    (
        "version 2 ; game main = ",
        "block { :---: operation : ",
        46,
        "block { :---: inputs : 0; operation : branch 0..0 { (0) -> identity [] []; }; :---:
}",
        "; :---: }",
        ";",
        Err(WireFault::TooBig(1279)),
    ),
    (
        "version 2 ; game main = ",
        "block { :---: operation : ",
        46,
        "block { :---: inputs : 0; operation : branch 0..0 { (0) -> h; }; :---: }",
        "; :---: }",
        ";",
        Err(WireFault::TooBig(1279)),
    ),
    (
        "version 2 ; game main = ",
        "block { :---: operation : ",
        46,
        "block { :---: inputs : 0; operation : branch 0..0 { (A) -> h; }; :---: }",
        "; :---: }",
        ";",
        Err(WireFault::Unknown(1273)),
    ),
];

/// Branches at the limit inside each other, and above it.
const INNER: &[Nest] = &[
    // Branches straight inside each other.
    (
        "version 2 ; game g = ",
        "branch 0..0 { (0) -> ",
        16,
        "identity [] []",
        "; }",
        "; game main = identity [] [];",
        Ok(()),
    ),
    (
        "version 2 ; game g = ",
        "branch 0..0 { (0) -> ",
        15,
        "branch 0..0 { (0) -> identity [] []; }",
        "; }",
        "; game main = identity [] [];",
        Ok(()),
    ),
    (
        "version 2 ; game g = ",
        "branch 0..0 { (0) -> ",
        16,
        "branch 0..0 { (0) -> identity [] []; }",
        "; }",
        "; game main = identity [] [];",
        Err(WireFault::TooBig(357)),
    ),
    (
        "version 2 ; game g = ",
        "branch 0..0 { (0) -> ",
        16,
        "h",
        "; }",
        "; game main = identity [] [];",
        Err(WireFault::Unknown(357)),
    ),
    (
        "version 2 ; game g = ",
        "branch 0..0 { (0) -> ",
        16,
        "branch number { }",
        "; }",
        "; game main = identity [] [];",
        Err(WireFault::TooBig(357)),
    ),
    (
        "version 2 ; game g = ",
        "branch 0..0 { (0) -> ",
        15,
        "branch number { }",
        "; }",
        "; game main = identity [] [];",
        Err(WireFault::NotFinite(343)),
    ),
    (
        "version 2 ; game g = ",
        "branch 0..0 { (0) -> ",
        15,
        "branch 0..0 { (0) -> identity [] []; } &&& branch 0..0 { (0) -> identity [] []; }",
        "; }",
        "; game main = identity [] [];",
        Ok(()),
    ),
    (
        "version 2 ; game g = ",
        "branch 0..0 { (0) -> ",
        16,
        "branch 0..0 { (0) -> identity [] []; } &&& h",
        "; }",
        "; game main = identity [] [];",
        Err(WireFault::TooBig(357)),
    ),
    (
        "version 2 ; game g = ",
        "branch 0..0 { (0) -> ",
        16,
        "identity [] [] &&& branch 0..0 { (0) -> identity [] []; }",
        "; }",
        "; game main = identity [] [];",
        Err(WireFault::TooBig(376)),
    ),
    (
        "version 2 ; game g = ",
        "branch 0..0 { (0) -> ",
        16,
        "h &&& branch 0..0 { (0) -> identity [] []; }",
        "; }",
        "; game main = identity [] [];",
        Err(WireFault::Unknown(357)),
    ),
    // With blocks between them.
    (
        "version 2 ; game g = ",
        "branch 0..0 { (0) -> block { :---: inputs : 0; operation : ",
        16,
        "forwardFunction (x : 0..0) -> ()",
        "; :---: }; }",
        "; game main = identity [] [];",
        Ok(()),
    ),
    (
        "version 2 ; game g = ",
        "branch 0..0 { (0) -> block { :---: inputs : 0; operation : ",
        15,
        "branch 0..0 { (0) -> identity [] []; }",
        "; :---: }; }",
        "; game main = identity [] [];",
        Ok(()),
    ),
    (
        "version 2 ; game g = ",
        "branch 0..0 { (0) -> block { :---: inputs : 0; operation : ",
        16,
        "branch 0..0 { (0) -> identity [] []; }",
        "; :---: }; }",
        "; game main = identity [] [];",
        Err(WireFault::TooBig(965)),
    ),
    // A call brings the branches of its body.
    (
        "version 2 ; game c = branch 0..0 { (0) -> branch 0..0 { (0) -> identity [] []; }; };
game g = ",
        "branch 0..0 { (0) -> ",
        14,
        "c",
        "; }",
        "; game main = identity [] [];",
        Ok(()),
    ),
    (
        "version 2 ; game c = branch 0..0 { (0) -> branch 0..0 { (0) -> identity [] []; }; };
game g = ",
        "branch 0..0 { (0) -> ",
        15,
        "c",
        "; }",
        "; game main = identity [] [];",
        Err(WireFault::TooBig(409)),
    ),
    (
        "version 2 ; game c = branch 0..0 { (0) -> branch 0..0 { (0) -> identity [] []; }; };
game g = ",
        "branch 0..0 { (0) -> ",
        14,
        "c &&& c",
        "; }",
        "; game main = identity [] [];",
        Ok(()),
    ),
    (
        "version 2 ; game c = branch 0..0 { (0) -> branch 0..0 { (0) -> identity [] []; }; };
game g = ",
        "branch 0..0 { (0) -> ",
        15,
        "identity [] [] &&& c",
        "; }",
        "; game main = identity [] [];",
        Err(WireFault::TooBig(428)),
    ),
    (
        "version 2 ; game c = branch 0..0 { (0) -> branch 0..0 { (0) -> identity [] []; }; };
game d = c &&& c; game g = ",
        "branch 0..0 { (0) -> ",
        14,
        "d",
        "; }",
        "; game main = identity [] [];",
        Ok(()),
    ),
    (
        "version 2 ; game c = branch 0..0 { (0) -> branch 0..0 { (0) -> identity [] []; }; };
game d = c &&& c; game g = ",
        "branch 0..0 { (0) -> ",
        15,
        "d",
        "; }",
        "; game main = identity [] [];",
        Err(WireFault::TooBig(427)),
    ),
    (
        "version 2 ; game c = branch 0..0 { (0) -> branch 0..0 { (0) -> identity [] []; }; };
game d = identity [] [] &&& c; game g = ",
        "branch 0..0 { (0) -> ",
        14,
        "d",
        "; }",
        "; game main = identity [] [];",
        Ok(()),
    ),
    (
        "version 2 ; game c = branch 0..0 { (0) -> branch 0..0 { (0) -> identity [] []; }; };
game d = identity [] [] &&& c; game g = ",
        "branch 0..0 { (0) -> ",
        15,
        "d",
        "; }",
        "; game main = identity [] [];",
        Err(WireFault::TooBig(440)),
    ),
    (
        "version 2 ; game c = branch 0..0 { (0) -> branch 0..0 { (0) -> identity [] []; }; };
game d = branch 0..0 { (0) -> c; }; game g = ",
        "branch 0..0 { (0) -> ",
        13,
        "d",
        "; }",
        "; game main = identity [] [];",
        Ok(()),
    ),
    (
        "version 2 ; game c = branch 0..0 { (0) -> branch 0..0 { (0) -> identity [] []; }; };
game d = branch 0..0 { (0) -> c; }; game g = ",
        "branch 0..0 { (0) -> ",
        14,
        "d",
        "; }",
        "; game main = identity [] [];",
        Err(WireFault::TooBig(424)),
    ),
    (
        "version 2 ; game d = identity [] []; game g = ",
        "branch 0..0 { (0) -> ",
        16,
        "d",
        "; }",
        "; game main = identity [] [];",
        Ok(()),
    ),
    (
        "version 2 ; game c(p : bool) = branch 0..0 { (0) -> branch 0..0 { (0) -> identity []
[]; }; }; game g = ",
        "branch 0..0 { (0) -> ",
        14,
        "c",
        "; }",
        "; game main = identity [] [];",
        Err(WireFault::WrongCount(398)),
    ),
    (
        "version 2 ; game c(p : bool) = branch 0..0 { (0) -> branch 0..0 { (0) -> identity []
[]; }; }; game g = ",
        "branch 0..0 { (0) -> ",
        15,
        "c",
        "; }",
        "; game main = identity [] [];",
        Err(WireFault::TooBig(419)),
    ),
    (
        "version 2 ; game c(p : bool) = branch 0..0 { (0) -> branch 0..0 { (0) -> identity []
[]; }; }; game g = ",
        "branch 0..0 { (0) -> ",
        14,
        "c(1)",
        "; }",
        "; game main = identity [] [];",
        Err(WireFault::WrongType(400)),
    ),
    (
        "version 2 ; game c(p : bool) = branch 0..0 { (0) -> branch 0..0 { (0) -> identity []
[]; }; }; game g = ",
        "branch 0..0 { (0) -> ",
        15,
        "c(1)",
        "; }",
        "; game main = identity [] [];",
        Err(WireFault::TooBig(419)),
    ),
    (
        "version 2 ; game c(p : bool) = branch 0..0 { (0) -> branch 0..0 { (0) -> identity []
[]; }; }; game g = ",
        "branch 0..0 { (0) -> ",
        14,
        "c(true)",
        "; }",
        "; game main = identity [] [];",
        Ok(()),
    ),
];

#[test]
fn deep(rt: HostRuntime) {
    check_nests(&rt, rt.alloc(), DEEP);
}

#[test]
fn inner(rt: HostRuntime) {
    check_nests(&rt, rt.alloc(), INNER);
}
