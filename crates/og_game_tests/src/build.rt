//! Which forms make games, and with which ports.
use crate::equal::check_equal;
use og_game::{Game, GameFault, GameNodeOf};
use og_list::{Boxed, List};
use og_types::Ty;
use std::alloc::Global;
use std::process::Abort;

/// How many types each side has, by inputs, feedback, outputs and returns, or the refusal.
pub fn told(built: Result<Game, GameFault>) -> Result<(usize, usize, usize, usize), GameFault> {
    match built {
        Ok(game) => {
            let ports = game.ports();
            Ok((
                ports.inputs.len(),
                ports.feedback.len(),
                ports.outputs.len(),
                ports.returns.len(),
            ))
        }
        Err(fault) => Err(fault),
    }
}

/// A type by a letter: a truth, a number, 0 or 1, or one with no, one value too many, or in a wrong order.
pub fn letter(of: &u8) -> Ty {
    match of {
        b'b' => Ty::Bool,
        b'n' => Ty::Number,
        b'r' => Ty::Range(0, 1),
        b'm' => Ty::Range(1, 4096),
        b'w' => Ty::Range(0, 4096),
        b'd' => Ty::Range(3, 1),
        b'e' => Ty::Enum(0, 2),
        _ => Ty::Enum(0, 0),
    }
}

pub fn types(rt: &impl Abort, alloc: Global, of: &[u8]) -> List<Ty> {
    let mut all = List::new(alloc);
    for one in of {
        all.add(letter(one)).expect(rt, "memory");
    }
    all
}

pub fn identity(
    rt: &impl Abort,
    alloc: Global,
    forward: &[u8],
    backward: &[u8],
) -> Result<Game, GameFault> {
    let forward = types(rt, alloc, forward);
    let backward = types(rt, alloc, backward);
    Game::build(alloc, GameNodeOf::Id { forward, backward })
}

/// Types of wires, each way, and whether wires may pass.
const WIRES: [(&[u8], &[u8], bool); 8] = [
    (b"", b"", true),
    (b"bnre", b"n", true),
    (b"m", b"", true),
    (b"w", b"", false),
    (b"d", b"", false),
    (b"", b"b0", false),
    (b"", b"m", true),
    (b"0", b"", false),
];

#[test]
fn identities(rt: HostRuntime) {
    let alloc = rt.alloc();
    for (forward, backward, goes) in WIRES {
        let found = told(identity(&rt, alloc, forward, backward));
        let want = if goes {
            Ok((forward.len(), backward.len(), forward.len(), backward.len()))
        } else {
            Err(GameFault::BadWiring)
        };
        check_equal(&rt, found, want);
    }
}

/// What the left lets through each way, what the right does, and whether one goes after the other.
const CHAINS: [(&[u8], &[u8], &[u8], &[u8], bool); 6] = [
    (b"b", b"", b"b", b"", true),
    (b"b", b"", b"", b"", false),
    (b"r", b"", b"n", b"", false),
    (b"b", b"n", b"b", b"n", true),
    (b"b", b"n", b"b", b"r", false),
    (b"bn", b"", b"nb", b"", false),
];

fn boxed(rt: &impl Abort, alloc: Global, game: Game) -> Boxed<Game> {
    match Boxed::new(alloc, game) {
        Ok(made) => made,
        Err(_) => panic!(rt; "memory"),
    }
}

#[test]
fn compositions(rt: HostRuntime) {
    let alloc = rt.alloc();
    for (left, left_back, right, right_back, meet) in CHAINS {
        let first = identity(&rt, alloc, left, left_back).expect(&rt, "a game");
        let second = identity(&rt, alloc, right, right_back).expect(&rt, "a game");
        let node = GameNodeOf::Seq(boxed(&rt, alloc, first), boxed(&rt, alloc, second));
        let found = told(Game::build(alloc, node));
        let want = if meet {
            Ok((left.len(), left_back.len(), right.len(), right_back.len()))
        } else {
            Err(GameFault::BadWiring)
        };
        check_equal(&rt, found, want);
    }
    let first = identity(&rt, alloc, b"b", b"n").expect(&rt, "a game");
    let second = identity(&rt, alloc, b"rr", b"").expect(&rt, "a game");
    let node = GameNodeOf::Par(boxed(&rt, alloc, first), boxed(&rt, alloc, second));
    check_equal(&rt, told(Game::build(alloc, node)), Ok((3, 1, 3, 1)));
}

fn sets(rt: &impl Abort, alloc: Global, of: &[&[u32]]) -> List<List<u32>> {
    let mut all = List::new(alloc);
    for ranks in of {
        let set = List::from_slice(alloc, ranks).expect(rt, "memory");
        all.add(set).expect(rt, "memory");
    }
    all
}

/// What is observed, what is allowed at each of 0 and 1, and whether there is such a decision over three actions.
const DECISIONS: [(&[u8], &[&[u32]], bool); 7] = [
    (b"r", &[&[0], &[0, 1]], true),
    (b"r", &[&[0]], false),
    (b"r", &[&[0], &[]], false),
    (b"r", &[&[0], &[1, 0]], false),
    (b"r", &[&[0], &[0, 0]], false),
    (b"r", &[&[0], &[0, 2]], false),
    (b"n", &[&[0], &[1]], false),
];

#[test]
fn decisions(rt: HostRuntime) {
    let alloc = rt.alloc();
    for (observes, allowed, goes) in DECISIONS {
        let node = GameNodeOf::Decision {
            number: 1,
            agent: 0,
            observes: types(&rt, alloc, observes),
            action: Ty::Bool,
            allowed: Some(sets(&rt, alloc, allowed)),
        };
        let want = if goes {
            Ok((1, 0, 1, 1))
        } else {
            Err(GameFault::BadWiring)
        };
        check_equal(&rt, told(Game::build(alloc, node)), want);
    }
}

/// The scale and the row of a nature over two outcomes, and whether there is such a nature.
const NATURES: [(u64, &[(u32, u64)], bool); 9] = [
    (2, &[(0, 1), (1, 1)], true),
    (2, &[(1, 2)], true),
    (3, &[(0, 1), (1, 1)], false),
    (1, &[(0, 1), (1, 1)], false),
    (2, &[(0, 2), (1, 0)], false),
    (2, &[(1, 1), (0, 1)], false),
    (2, &[(2, 2)], false),
    (0, &[], false),
    (4611686018427387904, &[(0, 4611686018427387904)], false),
];

#[test]
fn natures(rt: HostRuntime) {
    let alloc = rt.alloc();
    for (scale, row, goes) in NATURES {
        let mut rows = List::new(alloc);
        let row = List::from_slice(alloc, row).expect(&rt, "memory");
        rows.add(row).expect(&rt, "memory");
        let node = GameNodeOf::Nature {
            number: 1,
            observes: List::new(alloc),
            outcome: Ty::Enum(3, 2),
            scale,
            rows,
        };
        let want = if goes {
            Ok((0, 0, 1, 0))
        } else {
            Err(GameFault::BadWiring)
        };
        check_equal(&rt, told(Game::build(alloc, node)), want);
    }
}
