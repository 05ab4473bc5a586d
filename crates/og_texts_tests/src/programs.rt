ghost use Rattle.std.specs.Prelude.{All};
ghost use Rattle.og_lex.specs.Spelling.{IsTokenOf};

use crate::readers::tokens_of;
use crate::told::{check_told, tell};
use crate::trees::times;
use og_canonical::{print_program, print_strategy};
use og_parse::{ParseFault, parse_program, parse_strategy};
use std::alloc::Global;
use std::process::Abort;

/// Adds the fault of a text.
fn tell_fault(rt: &impl Abort, alloc: Global, fault: ParseFault, told: &mut String) {
    match fault {
        ParseFault::Syntax(k) => {
            let text = format!(in alloc; "Syntax {k}").expect(rt, "memory");
            tell(rt, told, text.as_str());
        }
        ParseFault::Deep(k) => {
            let text = format!(in alloc; "Deep {k}").expect(rt, "memory");
            tell(rt, told, text.as_str());
        }
        ParseFault::Memory => tell(rt, told, "no memory"),
    }
}

/// Adds the canonical text of the program that is read from the text, or its fault.
fn tell_program(rt: &impl Abort, alloc: Global, text: &str, told: &mut String) {
    let tokens = tokens_of(rt, alloc, text);
    assert!(rt; tokens.len() < 1000);
    assert!(rt; text.len() < 10000);
    match parse_program(alloc, text, tokens.as_slice()) {
        Ok(program) => {
            assert_eq!(rt; program.at as usize, text.len());
            let printed = print_program(alloc, &program).expect(rt, "memory");
            tell(rt, told, printed.as_str());
        }
        Err(fault) => tell_fault(rt, alloc, fault, told),
    }
}

/// Adds the canonical text of the strategy file that is read from the text, or its fault.
fn tell_strategy(rt: &impl Abort, alloc: Global, text: &str, told: &mut String) {
    let tokens = tokens_of(rt, alloc, text);
    assert!(rt; tokens.len() < 1000);
    assert!(rt; text.len() < 10000);
    match parse_strategy(alloc, text, tokens.as_slice()) {
        Ok(file) => {
            assert_eq!(rt; file.at as usize, text.len());
            let printed = print_strategy(alloc, &file).expect(rt, "memory");
            tell(rt, told, printed.as_str());
        }
        Err(fault) => tell_fault(rt, alloc, fault, told),
    }
}

/// Programs, and how they are printed, or their faults.
const PROGRAMS: &[(&str, &str)] = &[
    ("", ""),
    ("type A={B,C};", "type A = {\nB , C }\n;\n"),
    ("type A = (bool, 0..3);", "type A = ( bool , 0 .. 3 ) ;\n"),
    (
        "fn f(x: bool) : number = if x then 1 else 2 end;",
        "fn f ( x : bool ) : number = if x then 1 else 2 end ;\n",
    ),
    ("game g = f;", "game g = f ;\n"),
    (
        "game g(_a: agent, _n: 0..3) = f(\"b\", _a, 2, _n);",
        "game g ( _a : agent , _n : 0 .. 3 ) = f ( \"b\" , _a , 2 , _n ) ;\n",
    ),
    (
        "game g = a >>> b &&& (c >>> d);",
        "game g = a >>> b &&& ( c >>> d ) ;\n",
    ),
    (
        "game g = (a >>> b) >>> (c &&& d);",
        "game g = a >>> b >>> c &&& d ;\n",
    ),
    (
        "game g = a >>> (b >>> c);",
        "game g = a >>> ( b >>> c ) ;\n",
    ),
    (
        "game g = a &&& (b &&& c);",
        "game g = a &&& ( b &&& c ) ;\n",
    ),
    (
        "game g = dependentDecision \"p\" [bool] A;",
        "game g = dependentDecision \"p\" [ bool ] A ;\n",
    ),
    (
        "game g = dependentDecision _p [] A among { () -> B, C; };",
        "game g = dependentDecision _p [ ] A among {\n( ) -> B , C ;\n}\n;\n",
    ),
    (
        "game g = nature [bool] A { (true) -> B : 1/2, C : 1/2; (false) -> C; };",
        "game g = nature [ bool ] A {\n( true ) -> B : 1 / 2 , C : 1 / 2 ;\n( false ) -> C : 1 ;\n}\n;\n",
    ),
    (
        "game g = forwardFunction (x: bool) -> (not x: bool);",
        "game g = forwardFunction ( x : bool ) -> ( not x : bool ) ;\n",
    ),
    (
        "game g = backwardFunction () -> ();",
        "game g = backwardFunction ( ) -> ( ) ;\n",
    ),
    (
        "game g = identity [bool] [];",
        "game g = identity [ bool ] [ ] ;\n",
    ),
    (
        "game g = library second_price;",
        "game g = library second_price ;\n",
    ),
    (
        "game g = block { inputs : x : bool ; :---: inputs : x ; operation : f ; outputs : y ; :---: outputs : y : bool ; };",
        "game g = block {\ninputs : x : bool ;\nfeedback : ;\n:-----:\ninputs : x ;\nfeedback : ;\noperation : f ;\noutputs : y ;\nreturns : ;\n:-----:\noutputs : y : bool ;\nreturns : ;\n}\n;\n",
    ),
    (
        "version 2; game g = branch bool { (true) -> a; (false) -> b; };",
        "version 2 ;\ngame g = branch bool {\n( true ) -> a ;\n( false ) -> b ;\n}\n;\n",
    ),
    ("version 2 ;", "version 2 ;\n"),
    ("version 3 ;", "Syntax 1"),
    ("version 1 ;", "Syntax 1"),
    ("game g = branch bool { };", "Syntax 3"),
    ("game main = ;", "Syntax 3"),
    ("type A = ", "Syntax 3"),
    ("type A ;", "Syntax 2"),
    ("game g = a >>> ;", "Syntax 5"),
    ("game g = a b;", "Syntax 4"),
    ("game g() = a;", "Syntax 3"),
    (
        "game g = block { :---: outputs : x ; operation : f ; :---: };",
        "Syntax 6",
    ),
    ("a", "Syntax 0"),
];

#[test]
fn programs(rt: HostRuntime) {
    for (text, want) in PROGRAMS {
        let mut told = String::new(rt.alloc());
        tell_program(&rt, rt.alloc(), text, &mut told);
        check_told(&rt, text, told.as_str(), want);
        // What is printed is read back, and printed so again.
        if want.ends_with('\n') {
            let mut again = String::new(rt.alloc());
            tell_program(&rt, rt.alloc(), want, &mut again);
            check_told(&rt, want, again.as_str(), want);
        }
    }
}

/// Strategy files, likewise.
const STRATEGIES: &[(&str, &str)] = &[
    ("", ""),
    ("strategy \"a\" { }", "strategy \"a\" {\n}\n"),
    (
        "strategy \"a\" { () -> x; } strategy \"b\" { (1) -> y : 2; }",
        "strategy \"a\" {\n( ) -> x : 1 ;\n}\nstrategy \"b\" {\n( 1 ) -> y : 2 ;\n}\n",
    ),
    ("strategy \"a\" { () -> x }", "Syntax 7"),
    ("strategy a { }", "Syntax 1"),
];

#[test]
fn strategy_files(rt: HostRuntime) {
    for (text, want) in STRATEGIES {
        let mut told = String::new(rt.alloc());
        tell_strategy(&rt, rt.alloc(), text, &mut told);
        check_told(&rt, text, told.as_str(), want);
        // What is printed is read back, and printed so again.
        if want.ends_with('\n') {
            let mut again = String::new(rt.alloc());
            tell_strategy(&rt, rt.alloc(), want, &mut again);
            check_told(&rt, want, again.as_str(), want);
        }
    }
}

/// What stands behind `game g = `: a part so many times, and an end; and the fault.
const DEEP: &[(&str, u32, &str, &str)] = &[
    ("(", 64, "", "Syntax 67"),
    ("(", 65, "", "Deep 67"),
    ("(", 66, "", "Deep 67"),
    ("(", 64, "[", "Syntax 67"),
    ("(", 65, "] ;", "Deep 67"),
    ("a >>> ", 32, ";", "Syntax 67"),
    ("a >>> ", 33, "a ;", "Deep 68"),
    ("a &&& a >>> ", 17, "a ;", "Deep 68"),
];

#[test]
fn deep_games(rt: HostRuntime) {
    for (part, count, end, want) in DEEP {
        let mut text = String::new(rt.alloc());
        tell(&rt, &mut text, "game g = ");
        let parts = times(&rt, rt.alloc(), part, *count);
        tell(&rt, &mut text, parts.as_str());
        tell(&rt, &mut text, end);
        let mut told = String::new(rt.alloc());
        tell_program(&rt, rt.alloc(), text.as_str(), &mut told);
        check_told(&rt, part, told.as_str(), want);
    }
}
