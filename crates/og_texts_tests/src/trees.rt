ghost use Rattle.std.specs.Prelude.{All};
ghost use Rattle.og_lex.specs.Spelling.{IsTokenOf};

use crate::readers::tokens_of;
use crate::told::{check_told, tell};
use og_canonical::{print_program, print_strategy};
use og_grammar::{Fault, Tokens};
use og_language::{one_program, one_program_verdict, one_strategy_file, one_strategy_verdict};
use og_lex::written_read_back;
use og_list::{List, Text};
use og_parse::{one_program_answer, one_strategy_answer};
use og_reread::{programs_of_texts, programs_read_back, strategies_of_texts, strategies_read_back};
use og_syntax::{
    Decl, ExprTree, NameTree, Program, RowTree, Section, StrategyFile, TyTree, first_deep, laws,
};
use og_terms::{expr, rows};
use std::alloc::Global;
use std::process::Abort;

/// Adds the canonical text of a copy of the function with this body.
fn tell_body(rt: &impl Abort, alloc: Global, body: ExprTree, told: &mut String) {
    let mut decls = List::new(alloc);
    let function = Decl::Fn {
        at: 0,
        name: Text::from(alloc, "f").expect(rt, "memory"),
        params: List::new(alloc),
        answer: TyTree::Number(0),
        body,
    };
    decls.add(function).expect(rt, "memory");
    let program = Program {
        at: 0,
        version: 1,
        decls,
    };
    let program = program.copy(alloc).expect(rt, "memory");
    let text = print_program(alloc, &program).expect(rt, "memory");
    tell(rt, told, text.as_str());
}

/// Adds at how many tokens before the end the text goes wrong.
fn tell_left(rt: &impl Abort, alloc: Global, left: usize, told: &mut String) {
    let text = format!(in alloc; "{left} left").expect(rt, "memory");
    tell(rt, told, text.as_str());
}

/// Adds the canonical text of a function whose body is read from the text, or where that goes wrong.
fn tell_read_body(rt: &impl Abort, alloc: Global, text: &str, told: &mut String) {
    let tokens = tokens_of(rt, alloc, text);
    let mut rest = Tokens::new(text, tokens.as_slice());
    let room = tokens.len().saturating_add(1);
    match expr(alloc, &mut rest, room) {
        Ok(body) if rest.is_done() => tell_body(rt, alloc, body, told),
        Ok(_) => tell_left(rt, alloc, rest.left(), told),
        Err(Fault::Syntax(left)) => tell_left(rt, alloc, left, told),
        Err(Fault::Memory) => tell(rt, told, "no memory"),
    }
}

/// Expressions, and how they are printed.
const PRINTED: &[(&str, &str)] = &[
    ("007", "7 "),
    ("-3", "- 3 "),
    ("-(3)", "- ( 3 ) "),
    ("- -3", "2 left"),
    ("_x", "_x "),
    ("f()", "f ( ) "),
    ("f(a, _b)", "f ( a , _b ) "),
    ("((a))", "a "),
    ("(a, (true, false))", "( a , ( true , false ) ) "),
    ("a or b and not c or d", "a or b and not c or d "),
    ("(a or b) and c", "( a or b ) and c "),
    ("not (not a)", "not ( not a ) "),
    ("a == b", "a == b "),
    ("(a != b) != c", "( a != b ) != c "),
    ("a < b + 1", "a < b + 1 "),
    ("a <= b and c > d or e >= f", "a <= b and c > d or e >= f "),
    ("a - (b - c) + d", "a - ( b - c ) + d "),
    ("(a - b) - c", "( a - b ) - c "),
    ("a * -2 / 3 * (b + c)", "a * - 2 / 3 * ( b + c ) "),
    ("-x.0", "- x . 0 "),
    ("(-x).0", "( - x ) . 0 "),
    ("e.1.0", "e . 1 . 0 "),
    ("((e).1).0", "e . 1 . 0 "),
    ("(1).2", "( 1 ) . 2 "),
    (
        "if a then 1 elif b then 2 else 3 end",
        "if a then 1 elif b then 2 else 3 end ",
    ),
    ("ratio(1, x, 0)", "ratio ( 1 , x , 0 ) "),
    ("min(1, max(2, x))", "min ( 1 , max ( 2 , x ) ) "),
    ("clamp -1..2 (x)", "clamp - 1 .. 2 ( x ) "),
    (
        "table (x : bool, y : (T, -1..2)) { (true, (A, -1)) -> 1; (false, (A, 2)) -> 0; }",
        "table ( x : bool , y : ( T , - 1 .. 2 ) ) {\n( true , ( A , - 1 ) ) -> 1 ;\n( false , ( A , 2 ) ) -> 0 ;\n}\n",
    ),
    ("", "0 left"),
    ("a b", "1 left"),
    ("a + * b", "2 left"),
    ("a / 0", "1 left"),
    ("if a then b end", "1 left"),
];

#[test]
fn expressions(rt: HostRuntime) {
    for (text, want) in PRINTED {
        let mut wanted = String::new(rt.alloc());
        if want.ends_with(" left") {
            tell(&rt, &mut wanted, want);
        } else {
            tell(&rt, &mut wanted, "fn f ( ) : number = ");
            tell(&rt, &mut wanted, want);
            tell(&rt, &mut wanted, ";\n");
        }
        let mut told = String::new(rt.alloc());
        tell_read_body(&rt, rt.alloc(), text, &mut told);
        check_told(&rt, text, told.as_str(), wanted.as_str());
    }
}

/// Where expressions begin: brackets that leave no node don't count.
const PLACES: &[(&str, u32)] = &[
    ("(a) + b", 1),
    ("((a) == b) and c", 2),
    ("(a, b)", 0),
    ("-(3)", 0),
    ("(e.1).0", 1),
];

#[test]
fn places_of_expressions(rt: HostRuntime) {
    for (text, want) in PLACES {
        let tokens = tokens_of(&rt, rt.alloc(), text);
        let mut rest = Tokens::new(text, tokens.as_slice());
        let room = tokens.len().saturating_add(1);
        let read = expr(rt.alloc(), &mut rest, room);
        let read = read.ok().expect(&rt, "an expression");
        assert_eq!(&rt; read.at(), *want, "{text}");
    }
}

/// The strategy file of an agent `p` with these rows.
fn file_of(rt: &impl Abort, alloc: Global, rows: List<RowTree>) -> StrategyFile {
    let name = Text::from(alloc, "p").expect(rt, "memory");
    let agent = NameTree { at: 0, name };
    let mut sections = List::new(alloc);
    sections
        .add(Section { at: 0, agent, rows })
        .expect(rt, "memory");
    StrategyFile { at: 0, sections }
}

#[test]
fn rows_of_a_strategy(rt: HostRuntime) {
    let text = "{ () -> A; (x, 1) -> B : 1/2, C : 2 / 4, D : 3; }";
    let tokens = tokens_of(&rt, rt.alloc(), text);
    let mut rest = Tokens::new(text, tokens.as_slice());
    let read = rows(rt.alloc(), &mut rest, tokens.len());
    let file = file_of(&rt, rt.alloc(), read.ok().expect(&rt, "rows"));
    let file = file.copy(rt.alloc()).expect(&rt, "memory");
    let printed = print_strategy(rt.alloc(), &file).expect(&rt, "memory");
    let want =
        "strategy \"p\" {\n( ) -> A : 1 ;\n( x , 1 ) -> B : 1 / 2 , C : 2 / 4 , D : 3 ;\n}\n";
    check_told(&rt, text, printed.as_str(), want);
}

/// The text as often as is said.
pub(crate) fn times(rt: &impl Abort, alloc: Global, text: &str, count: u32) -> String {
    let mut all = String::new(alloc);
    for _ in 0..count {
        tell(rt, &mut all, text);
    }
    all
}

#[test]
fn the_first_token_that_is_too_deep(rt: HostRuntime) {
    for (part, count, want) in [
        ("(", 64, None),
        ("(", 65, Some(64)),
        ("if ", 65, Some(64)),
        ("( ) ", 65, None),
        ("a >>> ", 32, None),
        ("a >>> ", 33, Some(65)),
        ("a &&& a >>> ", 17, Some(65)),
        ("a >>> b ; ", 33, None),
    ] {
        let text = times(&rt, rt.alloc(), part, count);
        let tokens = tokens_of(&rt, rt.alloc(), text.as_str());
        assert!(&rt; tokens.len() < 1000);
        assert_eq!(&rt; first_deep(tokens.as_slice()), want, "{part}");
    }
}

#[test]
fn laws_of_the_language() {
    one_program();
    one_program_verdict();
    one_strategy_file();
    one_strategy_verdict();
    one_program_answer();
    one_strategy_answer();
    laws::without_places();
}

#[test]
fn laws_of_canonical_texts() {
    written_read_back();
    programs_of_texts();
    programs_read_back();
    strategies_of_texts();
    strategies_read_back();
}
