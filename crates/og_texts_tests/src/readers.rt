ghost use Rattle.std.specs.Prelude.{All};
ghost use Rattle.og_lex.specs.Spelling.{IsTokenOf};

use crate::told::{check_told, tell};
use og_grammar::{
    exact_reading, nonterminals, same_terminals, single_value, single_verdict, sound_reading,
    viable_fronts, whole_reading,
};
use og_lex::{MAX_TEXT, Token, lex};
use og_list::List;
use og_read::{SmallGames, Strategies, one_game, one_strategy, read_game, read_strategy};
use og_small::{Key, Line, Row, Section, SmallGame, TypeDecl};
use std::alloc::Global;
use std::process::Abort;

const DILEMMA: &str = "type Move = { Cooperate , Defect } ;
game main = block { inputs : ; feedback : ; :-----:
inputs : ; feedback : ; operation : dependentDecision \"player1\" [ ] Move ; outputs : x ;
returns : table ( x : Move , y : Move ) {
( Cooperate , Cooperate ) -> 3 ; ( Cooperate , Defect ) -> 0 ;
( Defect , Cooperate ) -> 5 ; ( Defect , Defect ) -> 1 ; } ;
operation : dependentDecision \"player2\" [ ] Move ; outputs : y ;
returns : table ( y : Move , x : Move ) {
( Cooperate , Cooperate ) -> 3 ; ( Cooperate , Defect ) -> 0 ;
( Defect , Cooperate ) -> 5 ; ( Defect , Defect ) -> 1 ; } ;
:-----: outputs : ; returns : ; } ;";

const DILEMMA_SHOWN: &str = "type Move: Cooperate Defect
player1 picks Move as x by x:Move y:Move
3 for Cooperate Cooperate
0 for Cooperate Defect
5 for Defect Cooperate
1 for Defect Defect
player2 picks Move as y by y:Move x:Move
3 for Cooperate Cooperate
0 for Cooperate Defect
5 for Defect Cooperate
1 for Defect Defect
";

fn tell_name(rt: &impl Abort, told: &mut String, name: &List<u8>) {
    let text = str::from_utf8(name.as_slice()).ok().expect(rt, "a text");
    tell(rt, told, text);
}

fn tell_names(rt: &impl Abort, told: &mut String, names: &List<List<u8>>) {
    for name in names.as_slice() {
        tell(rt, told, " ");
        tell_name(rt, told, name);
    }
    tell(rt, told, "\n");
}

fn tell_type(rt: &impl Abort, told: &mut String, declared: &TypeDecl) {
    tell(rt, told, "type ");
    tell_name(rt, told, &declared.name);
    tell(rt, told, ":");
    tell_names(rt, told, &declared.cases);
}

fn tell_key(rt: &impl Abort, told: &mut String, key: &Key) {
    tell(rt, told, " ");
    tell_name(rt, told, &key.output);
    tell(rt, told, ":");
    tell_name(rt, told, &key.action);
}

fn tell_row(rt: &impl Abort, alloc: Global, told: &mut String, row: &Row) {
    let pay = format!(in alloc; "{} for", row.pay).expect(rt, "memory");
    tell(rt, told, pay.as_str());
    tell_names(rt, told, &row.cases);
}

fn tell_line(rt: &impl Abort, alloc: Global, told: &mut String, line: &Line) {
    tell_name(rt, told, &line.agent);
    tell(rt, told, " picks ");
    tell_name(rt, told, &line.action);
    tell(rt, told, " as ");
    tell_name(rt, told, &line.output);
    tell(rt, told, " by");
    for key in line.keys.as_slice() {
        tell_key(rt, told, key);
    }
    tell(rt, told, "\n");
    for row in line.rows.as_slice() {
        tell_row(rt, alloc, told, row);
    }
}

fn tell_game(rt: &impl Abort, alloc: Global, told: &mut String, game: &SmallGame) {
    for declared in game.types.as_slice() {
        tell_type(rt, told, declared);
    }
    for line in game.lines.as_slice() {
        tell_line(rt, alloc, told, line);
    }
}

fn tell_section(rt: &impl Abort, told: &mut String, section: &Section) {
    tell_name(rt, told, &section.agent);
    tell(rt, told, " picks ");
    tell_name(rt, told, &section.choice);
    tell(rt, told, "\n");
}

pub fn tokens_of(rt: &impl Abort, alloc: Global, text: &str) -> List<Token>
    ensures { All (IsTokenOf text.now) result }
{
    assert!(rt; text.len() <= MAX_TEXT);
    lex(alloc, text).ok().expect(rt, "tokens")
}

/// Adds the game that the text is read as, or `none`.
fn tell_read_game(rt: &impl Abort, alloc: Global, text: &str, told: &mut String) {
    let tokens = tokens_of(rt, alloc, text);
    let read = read_game(alloc, text, tokens.as_slice());
    match read.expect(rt, "memory") {
        Some(game) => tell_game(rt, alloc, told, &game),
        None => tell(rt, told, "none"),
    }
}

/// Adds the strategy that the text is read as, or `none`.
fn tell_read_strategy(rt: &impl Abort, alloc: Global, text: &str, told: &mut String) {
    let tokens = tokens_of(rt, alloc, text);
    let read = read_strategy(alloc, text, tokens.as_slice());
    match read.expect(rt, "memory") {
        Some(sections) => {
            for section in sections.as_slice() {
                tell_section(rt, told, section);
            }
        }
        None => tell(rt, told, "none"),
    }
}

/// Texts, and the games that they are read as.
const GAMES: &[(&str, &str)] = &[
    (DILEMMA, DILEMMA_SHOWN),
    ("game main = block { :-----: :-----: } ;", ""),
    (
        "type A = { B } ; game main = block { :-----: :-----: } ;",
        "type A: B\n",
    ),
    ("", "none"),
    ("game other = block { :-----: :-----: } ;", "none"),
    ("game main = block { :-----: :-----: } ; ;", "none"),
    ("game main = block { :-----: :-----: }", "none"),
    (
        "type A = { } ; game main = block { :-----: :-----: } ;",
        "none",
    ),
    (
        "game main = block { feedback : ; inputs : ; :-----: :-----: } ;",
        "none",
    ),
];

#[test]
fn games(rt: HostRuntime) {
    for (text, want) in GAMES {
        let mut told = String::new(rt.alloc());
        tell_read_game(&rt, rt.alloc(), text, &mut told);
        check_told(&rt, text, told.as_str(), want);
    }
}

/// Texts, and the strategies that they are read as.
const STRATEGIES: &[(&str, &str)] = &[
    (
        "strategy \"player1\" { ( ) -> Defect ; } strategy \"player2\" { ( ) -> Cooperate ; }",
        "player1 picks Defect\nplayer2 picks Cooperate\n",
    ),
    ("", ""),
    ("strategy \"player1\" { }", "none"),
    ("strategy \"player1\" { ( ) -> Defect ; } ;", "none"),
    ("strategy player1 { ( ) -> Defect ; }", "none"),
];

#[test]
fn strategies(rt: HostRuntime) {
    for (text, want) in STRATEGIES {
        let mut told = String::new(rt.alloc());
        tell_read_strategy(&rt, rt.alloc(), text, &mut told);
        check_told(&rt, text, told.as_str(), want);
    }
}

#[test]
fn laws() {
    same_terminals();
    nonterminals::<SmallGames>();
    sound_reading::<SmallGames>();
    whole_reading::<SmallGames>();
    single_value::<SmallGames>();
    viable_fronts::<SmallGames>();
    exact_reading::<Strategies>();
    single_verdict::<Strategies>();
    one_game();
    one_strategy();
}
