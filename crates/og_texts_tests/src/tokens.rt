use crate::told::{check_told, tell};
use og_lex::{MAX_TEXT, Mark, Token, Word, lex, one_lexing, some_lexing};
use std::alloc::Global;
use std::process::Abort;

/// Adds what the token is, and the bytes from which to which it stands.
fn tell_token(rt: &impl Abort, alloc: Global, token: &Token, told: &mut String) {
    let kind = token.kind;
    let start = token.start;
    let end = token.end;
    let shown = format!(in alloc; "{kind:?} {start}..{end};").expect(rt, "memory");
    tell(rt, told, shown.as_str());
}

/// Adds what a text has: its tokens, or its fault.
fn tell_tokens(rt: &impl Abort, alloc: Global, text: &str, told: &mut String) {
    assert!(rt; text.len() <= MAX_TEXT);
    match lex(alloc, text) {
        Ok(tokens) => {
            for token in tokens.as_slice() {
                tell_token(rt, alloc, token, told);
            }
        }
        Err(fault) => {
            let shown = format!(in alloc; "{fault:?}").expect(rt, "memory");
            tell(rt, told, shown.as_str());
        }
    }
}

/// Adds the part of the text that each token is.
fn tell_parts(rt: &impl Abort, alloc: Global, text: &str, told: &mut String) {
    assert!(rt; text.len() <= MAX_TEXT);
    let tokens = lex(alloc, text).ok().expect(rt, "tokens");
    for token in tokens.as_slice() {
        tell(rt, told, token.text(text));
        tell(rt, told, "|");
    }
}

/// Texts, and the parts of them that are tokens.
const PARTS: &[(&str, &str)] = &[
    (
        "bid_\u{e9}->\"a b\"// x\n _y 007 :---:",
        "bid_\u{e9}|->|\"a b\"|_y|007|:---:|",
    ),
    // Three colons and three hyphens in each of their orders: only a colon, three hyphens and a
    // colon side by side are a separator.
    ("---:::", "-|-|-|:|:|:|"),
    ("--:-::", "-|-|:|-|:|:|"),
    ("--::-:", "-|-|:|:|-|:|"),
    ("--:::-", "-|-|:|:|:|-|"),
    ("-:--::", "-|:|-|-|:|:|"),
    ("-:-:-:", "-|:|-|:|-|:|"),
    ("-:-::-", "-|:|-|:|:|-|"),
    ("-::--:", "-|:|:|-|-|:|"),
    ("-::-:-", "-|:|:|-|:|-|"),
    ("-:::--", "-|:|:|:|-|-|"),
    (":---::", ":---:|:|"),
    (":--:-:", ":|-|-|:|-|:|"),
    (":--::-", ":|-|-|:|:|-|"),
    (":-:--:", ":|-|:|-|-|:|"),
    (":-:-:-", ":|-|:|-|:|-|"),
    (":-::--", ":|-|:|:|-|-|"),
    ("::---:", ":|:---:|"),
    ("::--:-", ":|:|-|-|:|-|"),
    ("::-:--", ":|:|-|:|-|-|"),
    (":::---", ":|:|:|-|-|-|"),
];

#[test]
fn parts_of_texts(rt: HostRuntime) {
    for (text, want) in PARTS {
        let mut told = String::new(rt.alloc());
        tell_parts(&rt, rt.alloc(), text, &mut told);
        check_told(&rt, text, told.as_str(), want);
    }
}

/// All the reserved words.
const WORDS: &str =
    "type fn game block inputs feedback operation outputs returns dependentDecision nature forwardFunction backwardFunction identity library if then elif else end table and or not true false bool number agent ratio min max clamp strategy among branch version";

const WORDS_SHOWN: &str =
    "Word(Type) 0..4;Word(Fn) 5..7;Word(Game) 8..12;Word(Block) 13..18;Word(Inputs) 19..25;Word(Feedback) 26..34;Word(Operation) 35..44;Word(Outputs) 45..52;Word(Returns) 53..60;Word(DependentDecision) 61..78;Word(Nature) 79..85;Word(ForwardFunction) 86..101;Word(BackwardFunction) 102..118;Word(Identity) 119..127;Word(Library) 128..135;Word(If) 136..138;Word(Then) 139..143;Word(Elif) 144..148;Word(Else) 149..153;Word(End) 154..157;Word(Table) 158..163;Word(And) 164..167;Word(Or) 168..170;Word(Not) 171..174;Word(True) 175..179;Word(False) 180..185;Word(Bool) 186..190;Word(Number) 191..197;Word(Agent) 198..203;Word(Ratio) 204..209;Word(Min) 210..213;Word(Max) 214..217;Word(Clamp) 218..223;Word(Strategy) 224..232;Word(Among) 233..238;Word(Branch) 239..245;Word(Version) 246..253;";

/// Texts, and their tokens or their fault.
const TOKENS: &[(&str, &str)] = &[
    ("a:---:b", "Name 0..1;Separator 1..6;Name 6..7;"),
    (
        "a:--:b",
        "Name 0..1;Mark(Colon) 1..2;Mark(Minus) 2..3;Mark(Minus) 3..4;Mark(Colon) 4..5;Name 5..6;",
    ),
    (":---:", "Separator 0..5;"),
    (":----:", "Separator 0..6;"),
    ("::---:", "Mark(Colon) 0..1;Separator 1..6;"),
    (":---::", "Separator 0..5;Mark(Colon) 5..6;"),
    (
        ":-:--:",
        "Mark(Colon) 0..1;Mark(Minus) 1..2;Mark(Colon) 2..3;Mark(Minus) 3..4;Mark(Minus) 4..5;Mark(Colon) 5..6;",
    ),
    (
        ":--:-:",
        "Mark(Colon) 0..1;Mark(Minus) 1..2;Mark(Minus) 2..3;Mark(Colon) 3..4;Mark(Minus) 4..5;Mark(Colon) 5..6;",
    ),
    (
        "---:::",
        "Mark(Minus) 0..1;Mark(Minus) 1..2;Mark(Minus) 2..3;Mark(Colon) 3..4;Mark(Colon) 4..5;Mark(Colon) 5..6;",
    ),
    (
        ":::---",
        "Mark(Colon) 0..1;Mark(Colon) 1..2;Mark(Colon) 2..3;Mark(Minus) 3..4;Mark(Minus) 4..5;Mark(Minus) 5..6;",
    ),
    (
        "-:--::",
        "Mark(Minus) 0..1;Mark(Colon) 1..2;Mark(Minus) 2..3;Mark(Minus) 3..4;Mark(Colon) 4..5;Mark(Colon) 5..6;",
    ),
    (
        ":--->:",
        "Mark(Colon) 0..1;Mark(Minus) 1..2;Mark(Minus) 2..3;Mark(Arrow) 3..5;Mark(Colon) 5..6;",
    ),
    (
        ":---:---:",
        "Separator 0..5;Mark(Minus) 5..6;Mark(Minus) 6..7;Mark(Minus) 7..8;Mark(Colon) 8..9;",
    ),
    (">>>=", "Mark(Then) 0..3;Mark(Assign) 3..4;"),
    (">>=", "Mark(Greater) 0..1;Mark(AtLeast) 1..3;"),
    ("..", "Mark(DotDot) 0..2;"),
    ("...", "Mark(DotDot) 0..2;Mark(Dot) 2..3;"),
    ("0..1", "Number(0) 0..1;Mark(DotDot) 1..3;Number(1) 3..4;"),
    ("-->", "Mark(Minus) 0..1;Mark(Arrow) 1..3;"),
    ("==", "Mark(Equal) 0..2;"),
    ("===", "Mark(Equal) 0..2;Mark(Assign) 2..3;"),
    (
        "!=<=<",
        "Mark(Differs) 0..2;Mark(AtMost) 2..4;Mark(Less) 4..5;",
    ),
    (
        "{}()[]",
        "Mark(LeftBrace) 0..1;Mark(RightBrace) 1..2;Mark(LeftParen) 2..3;Mark(RightParen) 3..4;Mark(LeftBracket) 4..5;Mark(RightBracket) 5..6;",
    ),
    (
        ",;+*/&&&",
        "Mark(Comma) 0..1;Mark(Semicolon) 1..2;Mark(Plus) 2..3;Mark(Star) 3..4;Mark(Slash) 4..5;Mark(Beside) 5..8;",
    ),
    ("", ""),
    (" \t\r\n", ""),
    ("a//b", "Name 0..1;"),
    ("a// @ \"\nb", "Name 0..1;Name 8..9;"),
    ("// \u{e9}\r\nb", "Name 7..8;"),
    ("a / b", "Name 0..1;Mark(Slash) 2..3;Name 4..5;"),
    (
        "\u{e9}t\u{e9} = 1",
        "Name 0..5;Mark(Assign) 6..7;Number(1) 8..9;",
    ),
    ("type Type typed", "Word(Type) 0..4;Name 5..9;Name 10..15;"),
    ("1a a1", "Number(1) 0..1;Name 1..2;Name 3..5;"),
    ("_1 __", "Under 0..2;Under 3..5;"),
    ("007", "Number(7) 0..3;"),
    ("9223372036854775807", "Number(9223372036854775807) 0..19;"),
    ("\"a b\" \"\u{e9}\"", "Text 0..5;Text 6..10;"),
    (WORDS, WORDS_SHOWN),
    // the first fault of a text without tokens
    ("\"a", "OpenText(0)"),
    ("x \"a\tb\"", "OpenText(2)"),
    ("\"\u{7f}\"", "OpenText(0)"),
    ("\"a\"\"", "OpenText(3)"),
    ("x @", "BadChar(2)"),
    ("_", "BadChar(0)"),
    ("a _ b", "BadChar(2)"),
    ("&", "BadChar(0)"),
    ("&&&&", "BadChar(3)"),
    ("!", "BadChar(0)"),
    ("a\u{0}", "BadChar(1)"),
    ("\u{e9} \u{a0}", "BadChar(3)"),
    ("9223372036854775808", "WideNumber(0)"),
    ("1 00018446744073709551616", "WideNumber(2)"),
    ("@ \"", "BadChar(0)"),
];

#[test]
fn tokens_of_texts(rt: HostRuntime) {
    for (text, want) in TOKENS {
        let mut told = String::new(rt.alloc());
        tell_tokens(&rt, rt.alloc(), text, &mut told);
        check_told(&rt, text, told.as_str(), want);
    }
}

#[test]
fn words_and_marks(rt: HostRuntime) {
    check_told(
        &rt,
        "a word",
        Word::DependentDecision.text(),
        "dependentDecision",
    );
    check_told(&rt, "a mark", Mark::Beside.text(), "&&&");
    one_lexing();
    some_lexing();
}
