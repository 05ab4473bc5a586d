ghost use Rattle.std.specs.Prelude.{◌≡◌, ◌<◌};

use crate::equal::check_equal;
use og_io::{MemFiles, MemSink};
use og_native::Library;
use og_steps::Steps;
use og_tool::{Status, run};
use std::alloc::Global;
use std::marker::Brand;
use std::process::Abort;
use std::sync::ledger::{Blank, Ledger};

/// The words, the texts under the names `g` and `s`, what of them is to fail, and what is wanted.
#[derive(Clone, Copy)]
struct Case<'a> {
    words: &'a str,
    game: &'a str,
    strategy: Option<&'a str>,
    failing_load: Option<u32>,
    failing_put: Option<usize>,
    written: &'a str,
    status: Status,
}

/// A case in which no load and no put fails.
fn calm<'a>(game: &'a str, strategy: &'a str, written: &'a str, status: Status) -> Case<'a> {
    Case {
        words: "check g s",
        game,
        strategy: Some(strategy),
        failing_load: None,
        failing_put: None,
        written,
        status,
    }
}

fn words_of(rt: &impl Abort, alloc: Global, words: &str) -> Vec<String> {
    let mut all = Vec::new(alloc);
    for word in words.split_whitespace() {
        let word = String::from_str(alloc, word).expect(rt, "memory");
        all.push(word).expect(rt, "memory");
    }
    all
}

fn files_of(rt: &impl Abort, alloc: Global, case: &Case<'_>) -> MemFiles {
    let mut files = MemFiles::new(alloc);
    files
        .add(alloc, "g", case.game.as_bytes())
        .expect(rt, "memory");
    if let Some(strategy) = case.strategy {
        files
            .add(alloc, "s", strategy.as_bytes())
            .expect(rt, "memory");
    }
    if let Some(call) = case.failing_load {
        files.fail(call).expect(rt, "memory");
    }
    files
}

fn sink_of(rt: &impl Abort, alloc: Global, case: &Case<'_>) -> MemSink {
    let mut out = MemSink::new(alloc);
    out.reserve(8_192).expect(rt, "memory");
    if let Some(after) = case.failing_put {
        out.fail(1, after).expect(rt, "memory");
    }
    out
}

fn run_with<L: Ledger>(
    alloc: Global,
    words: &[String],
    files: &mut MemFiles,
    out: &mut MemSink,
    library: &Library,
    blank: Blank,
) -> Status
    requires name { blank.name ≡ L.name }
    requires parts { blank.parts ≡ L.parts }
    requires some { 0 < L.parts }
{
    let mut steps = Steps::<L>::start(blank);
    run(alloc, words, files, out, library, &mut steps)
}

/// Runs the words with a library without blocks.
fn run_case(
    rt: &impl Abort,
    alloc: Global,
    words: &[String],
    files: &mut MemFiles,
    out: &mut MemSink,
) -> Status {
    match Library::new(alloc, Vec::new(alloc)) {
        Ok(library) => run_with::<Brand>(alloc, words, files, out, &library, Blank::new(1)),
        Err(_) => panic!(rt; "no library"),
    }
}

/// How the case's run over its files ends.
fn status_of(rt: &impl Abort, alloc: Global, case: &Case<'_>, out: &mut MemSink) -> Status {
    let mut files = files_of(rt, alloc, case);
    let words = words_of(rt, alloc, case.words);
    run_case(rt, alloc, words.as_slice(), &mut files, out)
}

/// The run writes what the case says, and has its status.
fn check(rt: &impl Abort, alloc: Global, case: &Case<'_>) {
    let mut out = sink_of(rt, alloc, case);
    let status = status_of(rt, alloc, case, &mut out);
    check_equal(rt, str::from_utf8(out.written()), Ok(case.written));
    check_equal(rt, status, case.status);
}

const EMPTY: &str = "game main = block { :---: :---: };\n";

const UNBUILT_GAME: &str = "refused game NotBuilt at 1:1\n";

const UNBUILT_STRATEGY: &str = "refused strategy NotBuilt at 1:1\n";

/// The prisoner's dilemma with every field written out.
const PRISONERS: &str = "type Move = { Cooperate, Defect };
game main = block { inputs : ; feedback : ; :-----:
  inputs : ; feedback : ;
  operation : dependentDecision \"player1\" [] Move ; outputs : x ;
  returns : table (x : Move, y : Move) { (Cooperate, Cooperate) -> 3; (Cooperate, Defect) -> 0;
    (Defect, Cooperate) -> 5; (Defect, Defect) -> 1; } ;
  inputs : ; feedback : ;
  operation : dependentDecision \"player2\" [] Move ; outputs : y ;
  returns : table (y : Move, x : Move) { (Cooperate, Cooperate) -> 3; (Cooperate, Defect) -> 0;
    (Defect, Cooperate) -> 5; (Defect, Defect) -> 1; } ;
:-----: outputs : ; returns : ; };";

const COOPERATE: &str =
    "strategy \"player1\" { () -> Cooperate; } strategy \"player2\" { () -> Cooperate; }";

const DEFECT: &str =
    "strategy \"player1\" { () -> Defect; } strategy \"player2\" { () -> Defect; }";

/// One agent who decides twice, each time paid by the other choice too.
const TWICE: &str = "type A = { L, R }; game main = block { :---:
  operation : dependentDecision \"a\" [] A ; outputs : x ; returns : table (y : A) { (L) -> 0; (R) -> 4; } ;
  operation : dependentDecision \"a\" [] A ; outputs : y ; returns : table (y : A) { (L) -> 3; (R) -> 1; } ;
:---: };";

const ONE: &str = "type A = { L, R }; game main = block { :---:
  operation : dependentDecision \"a\" [] A ; outputs : x ; returns : table (x : A) { (L) -> 2; (R) -> 7; } ;
:---: };";

/// Three agents in a ring, each paid 1 where it chooses as the one before it.
const THREE: &str = "type A = { L, R }; game main = block { :---:
  operation : dependentDecision \"a\" [] A ; outputs : x ;
  returns : table (x : A, z : A) { (L, L) -> 1; (L, R) -> 0; (R, L) -> 0; (R, R) -> 1; } ;
  operation : dependentDecision \"b\" [] A ; outputs : y ;
  returns : table (y : A, x : A) { (L, L) -> 1; (L, R) -> 0; (R, L) -> 0; (R, R) -> 1; } ;
  operation : dependentDecision \"c\" [] A ; outputs : z ;
  returns : table (z : A, y : A) { (L, L) -> 1; (L, R) -> 0; (R, L) -> 0; (R, R) -> 1; } ;
:---: };";

/// Games that are accepted, strategies, the reports on them and the statuses.
const REPORTS: &[(&str, &str, &str, Status)] = &[
    (EMPTY, "", "equilibrium\n", Status::Done),
    (EMPTY, " \n", "equilibrium\n", Status::Done),
    (
        PRISONERS,
        COOPERATE,
        "deviations 2\nvalue \"player1\" = 3\nvalue \"player2\" = 3\ndecision 1 \"player1\" at () play Defect gain 2\ndecision 2 \"player2\" at () play Defect gain 2\n",
        Status::Deviations,
    ),
    (
        PRISONERS,
        DEFECT,
        "equilibrium\nvalue \"player1\" = 1\nvalue \"player2\" = 1\n",
        Status::Done,
    ),
    // At y the action R moves 3 down to 1 in its own table and 0 up to 4 in the other.
    (
        TWICE,
        "strategy \"a\" { () -> L; } strategy \"a\" { () -> L; }",
        "deviations 1\nvalue \"a\" = 3\ndecision 2 \"a\" at () play R gain 2\n",
        Status::Deviations,
    ),
    (
        ONE,
        "strategy \"a\" { () -> L; }",
        "deviations 1\nvalue \"a\" = 2\ndecision 1 \"a\" at () play R gain 5\n",
        Status::Deviations,
    ),
    (
        THREE,
        "strategy \"a\" { () -> L; } strategy \"b\" { () -> L; } strategy \"c\" { () -> R; }",
        "deviations 2\nvalue \"a\" = 0\nvalue \"b\" = 1\nvalue \"c\" = 0\ndecision 1 \"a\" at () play R gain 1\ndecision 3 \"c\" at () play L gain 1\n",
        Status::Deviations,
    ),
];

#[test]
fn reports(rt: HostRuntime) {
    for &(game, strategy, written, status) in REPORTS {
        check(&rt, rt.alloc(), &calm(game, strategy, written, status));
    }
}

/// Adds the part at the end.
fn add(rt: &impl Abort, text: &mut String, part: &str) {
    text.push_str(part).expect(rt, "memory");
}

/// Adds a row for each way to choose one of eight cases for each of four lines, each of which pays 6.
fn add_rows(rt: &impl Abort, alloc: Global, text: &mut String) {
    for joint in 0..4_096u32 {
        let (w, x, y, z) = (joint / 512, joint / 64 % 8, joint / 8 % 8, joint % 8);
        let row = format!(in alloc; "(w{w},x{x},y{y},z{z})->6;\n").expect(rt, "memory");
        add(rt, text, row.as_str());
    }
}

/// Adds a decision, paid by a table of four columns.
fn add_line(rt: &impl Abort, alloc: Global, text: &mut String, letter: &str) {
    add(rt, text, "operation : dependentDecision \"");
    add(rt, text, letter);
    add(rt, text, "\" [] T");
    add(rt, text, letter);
    add(rt, text, " ; outputs : o");
    add(rt, text, letter);
    add(
        rt,
        text,
        " ;\nreturns : table (ow : Tw, ox : Tx, oy : Ty, oz : Tz) {\n",
    );
    add_rows(rt, alloc, text);
    add(rt, text, "} ;\n");
}

/// A game with as much of everything as it may have: four lines, eight cases for each, four columns in
/// each table.
fn largest_game(rt: &impl Abort, alloc: Global) -> String {
    let mut text = String::new(alloc);
    add(
        rt,
        &mut text,
        "type Tw = { w0, w1, w2, w3, w4, w5, w6, w7 };\n",
    );
    add(
        rt,
        &mut text,
        "type Tx = { x0, x1, x2, x3, x4, x5, x6, x7 };\n",
    );
    add(
        rt,
        &mut text,
        "type Ty = { y0, y1, y2, y3, y4, y5, y6, y7 };\n",
    );
    add(
        rt,
        &mut text,
        "type Tz = { z0, z1, z2, z3, z4, z5, z6, z7 };\n",
    );
    add(rt, &mut text, "game main = block { :---:\n");
    for letter in ["w", "x", "y", "z"] {
        add_line(rt, alloc, &mut text, letter);
    }
    add(rt, &mut text, ":---: };\n");
    text
}

/// The largest game is reported on.
#[test]
fn the_largest_game(rt: HostRuntime) {
    let game = largest_game(&rt, rt.alloc());
    let strategy =
        "strategy \"w\" { () -> w0; } strategy \"x\" { () -> x7; } strategy \"y\" { () -> y3; } strategy \"z\" { () -> z5; }";
    let report =
        "equilibrium\nvalue \"w\" = 6\nvalue \"x\" = 6\nvalue \"y\" = 6\nvalue \"z\" = 6\n";
    let case = calm(game.as_str(), strategy, report, Status::Done);
    check(&rt, rt.alloc(), &case);
}

const PENNIES: &str = "type Side = { Heads, Tails }; game main = block { :-----:
  operation : dependentDecision \"even\" [] Side ; outputs : x ; returns : if x == y then 1 else -1 end ;
  operation : dependentDecision \"odd\" [] Side ; outputs : y ; returns : if x == y then -1 else 1 end ;
:-----: };";

/// Games that are refused, with the line that says why.
const REFUSED_GAMES: &[(&str, &str)] = &[
    // Programs that are no small game.
    (PENNIES, UNBUILT_GAME),
    (
        "// a comment\ngame main = block { :---: :---: };",
        UNBUILT_GAME,
    ),
    (
        "game main = block { :---: :---: }; type \u{e9} = bool;",
        UNBUILT_GAME,
    ),
    (
        "type A = { B, C, D, E, F, G, H, I, J }; game main = block { :---: :---: };",
        UNBUILT_GAME,
    ),
    (
        "version 2; game main = block { :---: :---: };",
        UNBUILT_GAME,
    ),
    // Programs that break a rule of the wiring.
    ("", "refused game Unknown at 1:1\n"),
    (
        "game other = block { :---: :---: };",
        "refused game Unknown at 1:36\n",
    ),
    (
        "type A = { main }; game main = block { :---: :---: };",
        "refused game Twice at 1:25\n",
    ),
    (
        "type A = { B, B }; game main = block { :---: :---: };",
        "refused game Twice at 1:15\n",
    ),
    (
        "type A = { B }; game main = block { :---: operation : dependentDecision \"a\" [] C ; outputs : x ; returns : table (x : A) { (B) -> 1; } ; :---: };",
        "refused game Unknown at 1:80\n",
    ),
    (
        "type A = { B, C }; game main = block { :---: operation : dependentDecision \"a\" [] A ; outputs : x ; returns : table (x : A) { (B) -> 1; } ; :---: };",
        "refused game MissingRow at 1:111\n",
    ),
    (
        "type A = { B }; game main = block { :---: operation : dependentDecision \"a\" [] A ; outputs : x ; returns : table (y : A) { (B) -> 1; } ; :---: };",
        "refused game Unknown at 1:115\n",
    ),
    (
        "game main = block { :---: inputs : p ; operation : identity [bool] [] ; outputs : x ; :---: returns : p : bool ; };",
        "refused game BackwardInForward at 1:36\n",
    ),
    (
        "game main = nature [] bool { () -> true : 1/2; };",
        "refused game NotOne at 1:30\n",
    ),
    (
        "game f = identity [bool] [];\ngame main = f;",
        "refused game NotClosed at 2:6\n",
    ),
    (
        "fn f(x : 3..1) : number = x; game main = block { :---: :---: };",
        "refused game WrongType at 1:10\n",
    ),
    (
        "game main = library split2;",
        "refused game Unknown at 1:21\n",
    ),
    // Texts that are no program.
    (
        "game main = block { :--: :---: };",
        "refused game Syntax at 1:21\n",
    ),
    (
        "game main = block { :---:\n:---: }",
        "refused game Syntax at 2:8\n",
    ),
    (
        "game main = block { :---: :---: };\n ;",
        "refused game Syntax at 2:2\n",
    ),
    (
        "game main = block { :---: :---: }; \u{e9} $",
        "refused game BadChar at 1:39\n",
    ),
    (
        "game main = block { :---: :---: };\n\"",
        "refused game OpenText at 2:1\n",
    ),
    (
        "type A = { B }; game main = block { :---: operation : dependentDecision \"a\" [] A ; outputs : x ; returns : table (x : A) { (B) -> 9223372036854775808; } ; :---: };",
        "refused game WideNumber at 1:131\n",
    ),
    (
        "game main = ((((((((((((((((((((((((((((((((((((((((((((((((((((((((((((((((((",
        "refused game Deep at 1:77\n",
    ),
    (
        "game main = branch bool { };",
        "refused game Syntax at 1:13\n",
    ),
];

/// Games that are refused, whatever the strategy, and also where the strategy is missing or fails: it
/// isn't read.
#[test]
fn refused_games(rt: HostRuntime) {
    for &(game, line) in REFUSED_GAMES {
        let mut case = calm(game, "", line, Status::GameText);
        check(&rt, rt.alloc(), &case);
        case.failing_load = Some(2);
        check(&rt, rt.alloc(), &case);
        case.strategy = None;
        check(&rt, rt.alloc(), &case);
    }
}

/// Strategies that are refused, after the games that they are for, with the line that says why.
const REFUSED_STRATEGIES: &[(&str, &str, &str)] = &[
    // Strategy files that don't fit, or are no small strategy.
    (PRISONERS, "", UNBUILT_STRATEGY),
    (
        PRISONERS,
        "strategy \"player1\" { () -> Cooperate; }",
        UNBUILT_STRATEGY,
    ),
    (
        PRISONERS,
        "strategy \"player2\" { () -> Cooperate; } strategy \"player1\" { () -> Cooperate; }",
        UNBUILT_STRATEGY,
    ),
    (
        PRISONERS,
        "strategy \"player1\" { () -> Cooperate; } strategy \"player2\" { () -> Other; }",
        UNBUILT_STRATEGY,
    ),
    (
        PRISONERS,
        "strategy \"player1\" { () -> Cooperate; } strategy \"player2\" { () -> Cooperate; } // both",
        UNBUILT_STRATEGY,
    ),
    (EMPTY, "strategy \"a\" { }", UNBUILT_STRATEGY),
    (ONE, "strategy \"a\" { () -> L : 1; }", UNBUILT_STRATEGY),
    // Texts that are no strategy file.
    (
        EMPTY,
        "strategy \"a\" { () -> x }",
        "refused strategy Syntax at 1:24\n",
    ),
    (EMPTY, EMPTY, "refused strategy Syntax at 1:1\n"),
    (EMPTY, "\n ~", "refused strategy BadChar at 2:2\n"),
    (
        EMPTY,
        "strategy \"a { }",
        "refused strategy OpenText at 1:10\n",
    ),
    (
        EMPTY,
        "99999999999999999999",
        "refused strategy WideNumber at 1:1\n",
    ),
    (
        EMPTY,
        "strategy \"a\" { (((((((((((((((((((((((((((((((((((((((((((((((((((((((((((((((((",
        "refused strategy Deep at 1:79\n",
    ),
];

#[test]
fn refused_strategies(rt: HostRuntime) {
    for &(game, strategy, line) in REFUSED_STRATEGIES {
        let case = calm(game, strategy, line, Status::StrategyText);
        check(&rt, rt.alloc(), &case);
    }
}

/// Bytes of a game and of a strategy, of which one is no text, with the line that says where.
const BAD_BYTES: &[(&[u8], &[u8], &str, Status)] = &[
    (
        b"\xff",
        b"",
        "refused game BadUtf8 at 1:1\n",
        Status::GameText,
    ),
    (
        b"game main = block { :---: :---: };\n\xc3\xa9\xc3",
        b"\xff",
        "refused game BadUtf8 at 2:3\n",
        Status::GameText,
    ),
    (
        b"game main = block { :---: :---: };",
        b"strategy \"\x80",
        "refused strategy BadUtf8 at 1:11\n",
        Status::StrategyText,
    ),
];

#[test]
fn bytes_that_are_no_text(rt: HostRuntime) {
    for &(game, strategy, written, status) in BAD_BYTES {
        let mut files = MemFiles::new(rt.alloc());
        files.add(rt.alloc(), "g", game).expect(&rt, "memory");
        files.add(rt.alloc(), "s", strategy).expect(&rt, "memory");
        let mut out = MemSink::new(rt.alloc());
        let words = words_of(&rt, rt.alloc(), "check g s");
        let ended = run_case(&rt, rt.alloc(), words.as_slice(), &mut files, &mut out);
        check_equal(&rt, str::from_utf8(out.written()), Ok(written));
        check_equal(&rt, ended, status);
    }
}

/// A text of the greatest length is read, and one that is a byte longer isn't.
#[test]
fn lengths(rt: HostRuntime) {
    let alloc = rt.alloc();
    let mut text = String::from_str(alloc, EMPTY).expect(&rt, "memory");
    for _ in text.len()..1_048_576 {
        add(&rt, &mut text, " ");
    }
    let case = calm(text.as_str(), "", "equilibrium\n", Status::Done);
    check(&rt, alloc, &case);
    add(&rt, &mut text, " ");
    let line = "refused game TooLong at 1:1\n";
    let case = calm(text.as_str(), "", line, Status::GameText);
    check(&rt, alloc, &case);
    let line = "refused strategy TooLong at 1:1\n";
    let case = calm(EMPTY, text.as_str(), line, Status::StrategyText);
    check(&rt, alloc, &case);
}

/// Words that are no command.
const REFUSED_WORDS: &[&str] = &[
    "",
    "check",
    "check g",
    "check g s s",
    "check --json g",
    "check g -s",
    "demo 1",
];

#[test]
fn refused_words(rt: HostRuntime) {
    for words in REFUSED_WORDS {
        let mut case = calm(EMPTY, "", "refused words\n", Status::Words);
        case.words = words;
        check(&rt, rt.alloc(), &case);
    }
}

/// The load that fails, the strategy, how much of the put is written if it fails, and what the run
/// writes, with its status.
const FAULTS: &[(Option<u32>, Option<&str>, Option<usize>, &str, Status)] = &[
    (
        Some(1),
        Some(""),
        None,
        "refused read game\n",
        Status::ReadFault,
    ),
    (
        Some(2),
        Some(""),
        None,
        "refused read strategy\n",
        Status::ReadFault,
    ),
    (
        None,
        None,
        None,
        "refused read strategy\n",
        Status::ReadFault,
    ),
    (None, Some(""), Some(5), "equil", Status::WriteFault),
    (None, Some(""), Some(0), "", Status::WriteFault),
    (
        None,
        Some(""),
        Some(99),
        "equilibrium\n",
        Status::WriteFault,
    ),
    (Some(1), Some(""), Some(7), "refused", Status::WriteFault),
];

/// A load or a put fails.
#[test]
fn faults(rt: HostRuntime) {
    for &(failing_load, strategy, failing_put, written, status) in FAULTS {
        let case = Case {
            words: "check g s",
            game: EMPTY,
            strategy,
            failing_load,
            failing_put,
            written,
            status,
        };
        check(&rt, rt.alloc(), &case);
    }
}

const CODES: &[(Status, u8)] = &[
    (Status::Done, 0),
    (Status::Deviations, 1),
    (Status::Words, 2),
    (Status::GameText, 3),
    (Status::StrategyText, 4),
    (Status::Passes, 5),
    (Status::ReadFault, 6),
    (Status::WriteFault, 7),
    (Status::Memory, 8),
];

#[test]
fn codes(rt: HostRuntime) {
    for &(status, code) in CODES {
        check_equal(&rt, status.code(), code);
    }
}
