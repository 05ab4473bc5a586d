//! Which functions, blocks and branches make games.
use crate::build::{identity, letter, told, types};
use crate::equal::check_equal;
use og_expr::{Expr, NodeOf};
use og_game::{ArmOf, BlockOf, Game, GameFault, GameNodeOf, LineOf, Typed};
use og_list::{Boxed, List};
use og_native::Ports;
use og_types::Ty;
use std::alloc::Global;
use std::process::Abort;

/// A variable's number, and the letter of the type by which it is named.
type Named = (u32, u8);

fn variable(rt: &impl Abort, alloc: Global, of: Named) -> Expr {
    let node = NodeOf::Var {
        number: of.0,
        ty: letter(&of.1),
    };
    Expr::build(alloc, node).expect(rt, "a variable")
}

fn one(rt: &impl Abort, alloc: Global, of: Named) -> List<Expr> {
    let mut all = List::new(alloc);
    all.add(variable(rt, alloc, of)).expect(rt, "memory");
    all
}

fn typed(rt: &impl Abort, alloc: Global, of: Named, ty: u8) -> List<Typed> {
    let mut all = List::new(alloc);
    all.add(Typed {
        expr: variable(rt, alloc, of),
        ty: letter(&ty),
    })
    .expect(rt, "memory");
    all
}

/// A parameter's type, the variable that is the result, the type that is written at it, and whether that goes.
const FUNCTIONS: [(&[u8], Named, u8, bool); 6] = [
    (b"r", (0, b'r'), b'n', true),
    (b"r", (0, b'r'), b'r', true),
    (b"r", (0, b'n'), b'n', false),
    (b"r", (1, b'r'), b'n', false),
    (b"n", (0, b'n'), b'r', false),
    (b"r", (0, b'r'), b'w', false),
];

#[test]
fn functions(rt: HostRuntime) {
    let alloc = rt.alloc();
    for (params, result, written, goes) in FUNCTIONS {
        let node = GameNodeOf::Forward {
            params: types(&rt, alloc, params),
            results: typed(&rt, alloc, result, written),
        };
        let want = if goes {
            Ok((1, 0, 1, 0))
        } else {
            Err(GameFault::BadWiring)
        };
        check_equal(&rt, told(Game::build(alloc, node)), want);
        let node = GameNodeOf::Backward {
            params: types(&rt, alloc, params),
            results: typed(&rt, alloc, result, written),
        };
        let want = if goes {
            Ok((0, 1, 0, 1))
        } else {
            Err(GameFault::BadWiring)
        };
        check_equal(&rt, told(Game::build(alloc, node)), want);
    }
}

/// So many numbers as inputs of a block of the host program, what it gives, and whether that goes.
const NATIVES: [(usize, &[u8], bool); 5] = [
    (2, b"r", true),
    (0, b"", true),
    (256, b"e", true),
    (257, b"r", false),
    (2, b"d", false),
];

#[test]
fn natives(rt: HostRuntime) {
    let alloc = rt.alloc();
    for (many, outputs, goes) in NATIVES {
        let mut inputs = List::new(alloc);
        for _ in 0..many {
            inputs.add(Ty::Number).expect(&rt, "memory");
        }
        let ports = Ports {
            inputs,
            feedback: List::new(alloc),
            outputs: types(&rt, alloc, outputs),
            returns: List::new(alloc),
        };
        let want = if goes {
            Ok((many, 0, outputs.len(), 0))
        } else {
            Err(GameFault::BadWiring)
        };
        let node = GameNodeOf::Native { block: 0, ports };
        check_equal(&rt, told(Game::build(alloc, node)), want);
    }
}

/// A decision over 0 and 1, whose action is variable 0, with what comes back to it.
fn chosen(rt: &impl Abort, alloc: Global, returns: Named) -> LineOf<Game> {
    let node = GameNodeOf::Decision {
        number: 1,
        agent: 0,
        observes: List::new(alloc),
        action: Ty::Range(0, 1),
        allowed: None,
    };
    LineOf {
        inputs: List::new(alloc),
        feedback: List::new(alloc),
        operation: Game::build(alloc, node).expect(rt, "a decision"),
        outputs: List::from_slice(alloc, &[0]).expect(rt, "memory"),
        returns: one(rt, alloc, returns),
    }
}

/// Wires that pass: what goes in forwards comes out as variable 2, and what comes back goes back as variable 1.
fn passed(rt: &impl Abort, alloc: Global, input: Named, returns: Named) -> LineOf<Game> {
    LineOf {
        inputs: one(rt, alloc, input),
        feedback: List::from_slice(alloc, &[1]).expect(rt, "memory"),
        operation: identity(rt, alloc, b"r", b"n").expect(rt, "wires"),
        outputs: List::from_slice(alloc, &[2]).expect(rt, "memory"),
        returns: one(rt, alloc, returns),
    }
}

/// What comes back to the decision, what goes into the wires and what comes back to them, what comes out of the block
/// and what goes back from it, where its return is variable 3; and whether that goes.
const BLOCKS: [(Named, Named, Named, Named, Named, bool); 8] = [
    ((1, b'n'), (0, b'r'), (3, b'n'), (2, b'r'), (1, b'n'), true),
    ((0, b'r'), (0, b'r'), (2, b'r'), (0, b'r'), (3, b'n'), true),
    // its own feedback, behind it and before it
    ((1, b'n'), (0, b'r'), (1, b'n'), (2, b'r'), (1, b'n'), false),
    ((1, b'n'), (1, b'r'), (3, b'n'), (2, b'r'), (1, b'n'), false),
    // its own output
    ((1, b'n'), (2, b'r'), (3, b'n'), (2, b'r'), (1, b'n'), false),
    // what goes back, as what comes out
    ((1, b'n'), (0, b'r'), (3, b'n'), (1, b'n'), (1, b'n'), false),
    // another type than the variable's
    ((1, b'n'), (0, b'r'), (3, b'r'), (2, b'r'), (1, b'n'), false),
    // there is no variable 4
    ((1, b'n'), (0, b'r'), (3, b'n'), (2, b'r'), (4, b'n'), false),
];

#[test]
fn blocks(rt: HostRuntime) {
    let alloc = rt.alloc();
    for (payoff, input, back, output, feedback, goes) in BLOCKS {
        let mut lines = List::new(alloc);
        lines.add(chosen(&rt, alloc, payoff)).expect(&rt, "memory");
        lines
            .add(passed(&rt, alloc, input, back))
            .expect(&rt, "memory");
        let block = BlockOf {
            inputs: List::new(alloc),
            feedback: typed(&rt, alloc, feedback, b'n'),
            lines,
            outputs: typed(&rt, alloc, output, b'n'),
            returns: types(&rt, alloc, b"n"),
        };
        let node = match Boxed::new(alloc, block) {
            Ok(made) => GameNodeOf::Block(made),
            Err(_) => panic!(&rt; "memory"),
        };
        let want = if goes {
            Ok((0, 1, 1, 1))
        } else {
            Err(GameFault::BadWiring)
        };
        check_equal(&rt, told(Game::build(alloc, node)), want);
    }
}

/// The arms of a branch on a truth, each with its key and the wires that pass it, and whether there is such a branch.
const BRANCHES: [(&[(u32, u8)], bool); 7] = [
    (&[(0, b'n'), (1, b'n')], true),
    (&[(1, b'n'), (0, b'n')], true),
    (&[(0, b'n')], false),
    (&[], false),
    (&[(0, b'n'), (0, b'n')], false),
    (&[(0, b'n'), (2, b'n')], false),
    (&[(0, b'n'), (1, b'r')], false),
];

#[test]
fn branches(rt: HostRuntime) {
    let alloc = rt.alloc();
    for (those, goes) in BRANCHES {
        let mut arms = List::new(alloc);
        for (key, wire) in those {
            let game = identity(&rt, alloc, &[*wire], b"").expect(&rt, "wires");
            arms.add(ArmOf { key: *key, game }).expect(&rt, "memory");
        }
        let node = GameNodeOf::Branch {
            selector: Ty::Bool,
            arms,
        };
        let want = if goes {
            Ok((2, 0, 1, 0))
        } else {
            Err(GameFault::BadWiring)
        };
        check_equal(&rt, told(Game::build(alloc, node)), want);
    }
}
