//! Decisions and natures of a text's games, in order, with their numbers, their rows and what they allow.
use og_elaboration::{Given, Made, State, decision_made, nature_made};
use og_expr::Expr;
use og_game::{Game, GameNodeOf};
use og_list::{List, Text};
use og_names::Names;
use og_syntax::{Decl, GameTree, Program};
use og_texts::read_program;
use og_typing::{Meaning, declare_alias, declare_enum};
use std::alloc::Global;
use std::process::Abort;

fn given(alloc: Global) -> Given {
    Given {
        values: Names::<Expr>::new(alloc),
        agents: Names::<Text>::new(alloc),
    }
}

fn nothing(alloc: Global) -> State {
    State {
        decisions: 0,
        natures: 0,
        agents: Names::new(alloc),
        owners: List::new(alloc),
    }
}

/// The types that a text declares.
fn types(rt: &impl Abort, alloc: Global, program: &Program) -> Names<Meaning> {
    let mut declared = Names::new(alloc);
    let mut number = 0;
    for decl in program.decls.as_slice() {
        match decl {
            Decl::Enum { at, name, cases } => {
                match declare_enum(alloc, number, *at, name.as_str(), cases, &mut declared) {
                    Ok(()) => {}
                    Err(_) => panic!(rt; "a type that is refused"),
                }
            }
            Decl::Alias { at, name, ty } => {
                match declare_alias(alloc, *at, name.as_str(), ty, &mut declared) {
                    Ok(()) => {}
                    Err(_) => panic!(rt; "a name that is refused"),
                }
            }
            Decl::Fn { .. } | Decl::Game { .. } => {}
        }
        number = number.saturating_add(1);
    }
    declared
}

/// The game of a decision or of a nature whose weights are in 6 parts of one.
fn made(
    rt: &impl Abort,
    alloc: Global,
    body: &GameTree,
    declared: &Names<Meaning>,
    state: State,
) -> Made {
    let round = given(alloc);
    let found = match body {
        GameTree::Decision {
            agent,
            observes,
            action,
            among,
            ..
        } => decision_made(
            alloc, agent, observes, action, among, declared, &round, state,
        ),
        GameTree::Nature {
            observes,
            outcome,
            rows,
            ..
        } => nature_made(alloc, observes, outcome, 6, rows, declared, state),
        _ => panic!(rt; "a game of another form"),
    };
    match found {
        Ok(made) => made,
        Err(_) => panic!(rt; "a form that makes no game"),
    }
}

fn check_ranks(rt: &impl Abort, found: &[u32], want: &[u32]) {
    assert_eq!(rt; found.len(), want.len());
    for (at, rank) in want.iter().enumerate() {
        assert_eq!(rt; found.get(at), Some(rank));
    }
}

const TEXT: &str = "type M = { L, C, R };
game a = dependentDecision \"x\" [bool] M among { (true) -> R, L; (false) -> C; };
game b = nature [bool] 0..2 { (true) -> 2 : 1/2, 0 : 1/3, 1 : 1/6; (false) -> 1 : 1, 0 : 0; };
game c = dependentDecision \"y\" [] bool;
game d = dependentDecision \"x\" [] M;
game e = nature [] bool { () -> false : 1; };";

/// The games of the text, in order, with what was numbered by its end.
fn all(rt: &impl Abort, alloc: Global, program: &Program) -> (List<Game>, State) {
    let declared = types(rt, alloc, program);
    let mut state = nothing(alloc);
    let mut games = List::new(alloc);
    for decl in program.decls.as_slice() {
        if let Decl::Game { body, .. } = decl {
            let Made { game, state: next } = made(rt, alloc, body, &declared, state);
            games.add(game).expect(rt, "memory");
            state = next;
        }
    }
    (games, state)
}

/// A decision's or a nature's number.
fn number_of(game: &Game) -> u32 {
    match game.node() {
        GameNodeOf::Decision { number, .. } => *number,
        GameNodeOf::Nature { number, .. } => *number,
        _ => 0,
    }
}

#[test]
fn numbered(rt: HostRuntime) {
    let alloc = rt.alloc();
    match read_program(alloc, TEXT.as_bytes()) {
        Ok(read) => {
            let (games, state) = all(&rt, alloc, &read.tree);
            check_ranks(&rt, state.owners.as_slice(), &[0, 1, 0]);
            assert_eq!(rt; state.agents.len(), 2);
            assert_eq!(rt; state.agents.place("y"), Some(1));
            assert_eq!(rt; state.decisions, 3);
            assert_eq!(rt; state.natures, 2);
            let mut numbers = List::new(alloc);
            for game in games.as_slice() {
                numbers.add(number_of(game)).expect(&rt, "memory");
            }
            check_ranks(&rt, numbers.as_slice(), &[1, 1, 2, 3, 2]);
        }
        Err(_) => panic!(rt; "a text that is no program"),
    }
}

#[test]
fn rows(rt: HostRuntime) {
    let alloc = rt.alloc();
    match read_program(alloc, TEXT.as_bytes()) {
        Ok(read) => {
            let (games, _state) = all(&rt, alloc, &read.tree);
            let first = games.get(0).expect(&rt, "a game");
            check_ranks(&rt, first.allowed(1, 0).expect(&rt, "a set"), &[1]);
            check_ranks(&rt, first.allowed(1, 1).expect(&rt, "a set"), &[0, 2]);
            let second = games.get(1).expect(&rt, "a game");
            match second.node() {
                GameNodeOf::Nature { rows, .. } => {
                    let low = rows.get(0).expect(&rt, "a row");
                    let high = rows.get(1).expect(&rt, "a row");
                    assert_eq!(rt; rows.len(), 2);
                    assert_eq!(rt; low.len(), 1);
                    assert_eq!(rt; low.get(0), Some(&(1, 6)));
                    assert_eq!(rt; high.len(), 3);
                    assert_eq!(rt; high.get(0), Some(&(0, 2)));
                    assert_eq!(rt; high.get(1), Some(&(1, 1)));
                    assert_eq!(rt; high.get(2), Some(&(2, 3)));
                }
                _ => panic!(rt; "a game of another form"),
            }
        }
        Err(_) => panic!(rt; "a text that is no program"),
    }
}
