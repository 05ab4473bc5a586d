use crate::told::{check_told, tell};
use og_list::List;
use og_small::{
    Key, Line, Row, Section, SmallGame, TypeDecl, accepts, fits, fitting_strategies, report_on,
};
use std::alloc::Global;
use std::process::Abort;
use std::str::SplitWhitespace;

/// The name of these bytes.
fn name(rt: &impl Abort, alloc: Global, text: &str) -> List<u8> {
    List::from_slice(alloc, text.as_bytes()).expect(rt, "memory")
}

/// The name of the next word, or the empty name where there is none.
fn next_name(rt: &impl Abort, alloc: Global, words: &mut SplitWhitespace<'_>) -> List<u8> {
    name(rt, alloc, words.next().unwrap_or(""))
}

/// The names of all words that are left.
fn names(rt: &impl Abort, alloc: Global, words: SplitWhitespace<'_>) -> List<List<u8>> {
    let mut all = List::new(alloc);
    for word in words {
        all.add(name(rt, alloc, word)).expect(rt, "memory");
    }
    all
}

/// Adds to the line's table: `key OUTPUT TYPE` or `pays NUMBER CASES`.
fn add_to_line(
    rt: &impl Abort,
    alloc: Global,
    line: &mut Line,
    kind: &str,
    mut words: SplitWhitespace<'_>,
) {
    if kind == "key" {
        let output = next_name(rt, alloc, &mut words);
        let action = next_name(rt, alloc, &mut words);
        line.keys.add(Key { output, action }).expect(rt, "memory");
    } else {
        let pay = words.next().unwrap_or("").parse::<u64>();
        let pay = pay.ok().expect(rt, "a number");
        let cases = names(rt, alloc, words);
        line.rows.add(Row { cases, pay }).expect(rt, "memory");
    }
}

/// The line of `AGENT TYPE OUTPUT`, with an empty table.
fn line(rt: &impl Abort, alloc: Global, mut words: SplitWhitespace<'_>) -> Line {
    Line {
        agent: next_name(rt, alloc, &mut words),
        action: next_name(rt, alloc, &mut words),
        output: next_name(rt, alloc, &mut words),
        keys: List::new(alloc),
        rows: List::new(alloc),
    }
}

/// The type of `NAME CASES`.
fn declared(rt: &impl Abort, alloc: Global, mut words: SplitWhitespace<'_>) -> TypeDecl {
    TypeDecl {
        name: next_name(rt, alloc, &mut words),
        cases: names(rt, alloc, words),
    }
}

/// Adds one part of a game's text: `type NAME CASES`, `line AGENT TYPE OUTPUT`, or `key OUTPUT TYPE`
/// and `pays NUMBER CASES`, which belong to the last line.
fn add_part(rt: &impl Abort, alloc: Global, game: &mut SmallGame, part: &str) {
    let mut words = part.split_whitespace();
    match words.next().unwrap_or("") {
        "" => {}
        "type" => {
            let made = declared(rt, alloc, words);
            game.types.add(made).expect(rt, "memory");
        }
        "line" => {
            let made = line(rt, alloc, words);
            game.lines.add(made).expect(rt, "memory");
        }
        kind => {
            let mut last = game.lines.pop().expect(rt, "a line");
            add_to_line(rt, alloc, &mut last, kind, words);
            game.lines.add(last).expect(rt, "memory");
        }
    }
}

/// Adds the parts of a game's text, which have `;` between them.
fn add_parts(rt: &impl Abort, alloc: Global, game: &mut SmallGame, text: &str) {
    for part in text.split(';') {
        add_part(rt, alloc, game, part);
    }
}

/// The game of a text.
fn game(rt: &impl Abort, alloc: Global, text: &str) -> SmallGame {
    let mut made = SmallGame {
        types: List::new(alloc),
        lines: List::new(alloc),
    };
    add_parts(rt, alloc, &mut made, text);
    made
}

fn section(rt: &impl Abort, alloc: Global, agent: &str, choice: &str) -> Section {
    Section {
        agent: name(rt, alloc, agent),
        choice: name(rt, alloc, choice),
    }
}

/// The strategy of a text: for each section its agent and its choice.
fn strategy(rt: &impl Abort, alloc: Global, text: &str) -> List<Section> {
    let mut made = List::new(alloc);
    let mut words = text.split_whitespace();
    for _ in 0..5 {
        if let Some(agent) = words.next() {
            let section = section(rt, alloc, agent, words.next().unwrap_or(""));
            made.add(section).expect(rt, "memory");
        }
    }
    made
}

/// Adds the report on an accepted game and a strategy that fits it.
fn tell_report(
    rt: &impl Abort,
    alloc: Global,
    game: &SmallGame,
    sections: &[Section],
    told: &mut String,
) {
    let made = report_on(alloc, game, sections).expect(rt, "memory");
    let text = str::from_utf8(made.text.as_slice())
        .ok()
        .expect(rt, "a text");
    assert!(rt; made.is_equilibrium == text.starts_with("equilibrium"));
    tell(rt, told, text);
}

/// Adds what is told about a game: `refused`, `unfit` where the strategy does not fit, or a report.
fn tell_game(rt: &impl Abort, alloc: Global, text: &str, choices: &str, told: &mut String) {
    let game = game(rt, alloc, text);
    let sections = strategy(rt, alloc, choices);
    if !accepts(alloc, &game).expect(rt, "memory") {
        tell(rt, told, "refused");
    } else if fits(&game, sections.as_slice()) {
        tell_report(rt, alloc, &game, sections.as_slice(), told);
    } else {
        tell(rt, told, "unfit");
    }
}

/// The prisoner's dilemma.
const DILEMMA: &str = "type Move C D;
    line player1 Move x; key x Move; key y Move; pays 3 C C; pays 0 C D; pays 5 D C; pays 1 D D;
    line player2 Move y; key y Move; key x Move; pays 3 C C; pays 0 C D; pays 5 D C; pays 1 D D;";

/// One agent at both lines, the second paid by both choices.
const FIRM: &str = "type Level Low High;
    line firm Level price; key price Level; pays 1 Low; pays 4 High;
    line firm Level stock; key price Level; key stock Level;
    pays 2 Low Low; pays 5 Low High; pays 0 High Low; pays 7 High High";

/// Of four cases two gain at Left, and one is paid the same.
const SIDE: &str = "type Side Left Middle Right Back;
    line solo Side z; key z Side; pays 1 Left; pays 5 Middle; pays 3 Right; pays 1 Back";

/// An agent who comes again.
const AGAIN: &str =
    "type Move C D; line b Move x; pays 4; line a Move y; pays 2; line b Move z; pays 3";

/// Games, strategies, and what is told about them.
const REPORTS: &[(&str, &str, &str)] = &[
    (
        DILEMMA,
        "player1 C player2 C",
        "deviations 2\nvalue \"player1\" = 3\nvalue \"player2\" = 3\ndecision 1 \"player1\" at () play D gain 2\ndecision 2 \"player2\" at () play D gain 2\n",
    ),
    (
        DILEMMA,
        "player1 D player2 D",
        "equilibrium\nvalue \"player1\" = 1\nvalue \"player2\" = 1\n",
    ),
    (
        DILEMMA,
        "player1 C player2 D",
        "deviations 1\nvalue \"player1\" = 0\nvalue \"player2\" = 5\ndecision 1 \"player1\" at () play D gain 1\n",
    ),
    (
        FIRM,
        "firm Low firm Low",
        "deviations 2\nvalue \"firm\" = 3\ndecision 1 \"firm\" at () play High gain 1\ndecision 2 \"firm\" at () play High gain 3\n",
    ),
    (
        FIRM,
        "firm High firm High",
        "equilibrium\nvalue \"firm\" = 11\n",
    ),
    (
        SIDE,
        "solo Left",
        "deviations 2\nvalue \"solo\" = 1\ndecision 1 \"solo\" at () play Middle gain 4\ndecision 1 \"solo\" at () play Right gain 2\n",
    ),
    (
        SIDE,
        "solo Right",
        "deviations 1\nvalue \"solo\" = 3\ndecision 1 \"solo\" at () play Middle gain 2\n",
    ),
    (SIDE, "solo Middle", "equilibrium\nvalue \"solo\" = 5\n"),
    (
        AGAIN,
        "b C a C b D",
        "equilibrium\nvalue \"b\" = 7\nvalue \"a\" = 2\n",
    ),
    ("", "", "equilibrium\n"),
    ("", "player1 C", "unfit"),
    (DILEMMA, "player2 C player1 C", "unfit"),
    (DILEMMA, "player1 C player2 Move", "unfit"),
    (DILEMMA, "player1 C", "unfit"),
    (DILEMMA, "player1 C player2 C player1 C", "unfit"),
];

#[test]
fn reports(rt: HostRuntime) {
    for (text, choices, want) in REPORTS {
        let mut told = String::new(rt.alloc());
        tell_game(&rt, rt.alloc(), text, choices, &mut told);
        check_told(&rt, choices, told.as_str(), want);
    }
}

/// What stands after the prisoner's dilemma, and whether all that is accepted.
const ACCEPTED: &[(&str, bool)] = &[
    ("", true),
    (
        "type Side E; line a Side z; key x Move; key z Side; pays 1 C E; pays 2 D E",
        true,
    ),
    // names that differ, and none `main`
    ("type Move E", false),
    ("type D E", false),
    ("type x E", false),
    ("type Side E D", false),
    ("type Side E E", false),
    ("type Side y", false),
    ("type Side Side", false),
    ("line a Move x; pays 0", false),
    ("line a Move C; pays 0", false),
    ("type Side E main", false),
    ("type main E", false),
    ("line a Move main; pays 0", false),
    ("line main Move z; pays 0", true),
    // declared types, and keys that are outputs with their types
    ("line a Side z; pays 0", false),
    ("line a Move z; key x Side", false),
    ("type Side E; line a Side z; key w Side; pays 0 E", false),
    ("type Side E; line a Side z; key x Side; pays 0 E", false),
    // a row for each joint key
    ("line a Move z; key x Move; pays 1 D", false),
    ("line a Move z; key x Move; pays 1 D; pays 2 C", true),
    (
        "line a Move z; key x Move; pays 1 D; pays 2 C; pays 1 D",
        false,
    ),
    (
        "line a Move z; key x Move; pays 1 D; pays 2 C; pays 1 x",
        false,
    ),
    (
        "line a Move z; key x Move; pays 1 D; pays 2 C; pays 1",
        false,
    ),
    (
        "line a Move z; key x Move; pays 1 D; pays 2 C; pays 1 C D",
        false,
    ),
    ("line a Move z", false),
    // numbers below 2^63
    ("line a Move z; pays 9223372036854775807", true),
    ("line a Move z; pays 9223372036854775808", false),
    // sizes
    ("type Side a b c d e f g h", true),
    ("type Side a b c d e f g h i", false),
    ("line a Move z; pays 0; line a Move w; pays 0", true),
    (
        "line a Move z; pays 0; line a Move w; pays 0; line a Move v; pays 0",
        false,
    ),
    (
        "type Side E; line a Side z; key z Side; key z Side; key z Side; key z Side; pays 0 E E E E",
        true,
    ),
    (
        "type Side E; line a Side z; key z Side; key z Side; key z Side; key z Side; key z Side; pays 0 E E E E E",
        false,
    ),
];

/// The prisoner's dilemma with more after it is accepted, or it isn't.
fn check_accepted(rt: &impl Abort, alloc: Global, more: &str, want: bool) {
    let mut game = game(rt, alloc, DILEMMA);
    add_parts(rt, alloc, &mut game, more);
    let accepted = accepts(alloc, &game).expect(rt, "memory");
    assert!(rt; accepted == want, "with {more}");
}

#[test]
fn accepted_games(rt: HostRuntime) {
    for (more, want) in ACCEPTED {
        check_accepted(&rt, rt.alloc(), more, *want);
    }
}

#[test]
fn laws() {
    fitting_strategies();
}
