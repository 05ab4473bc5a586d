ghost use Rattle.std.specs.Prelude.{◌≡◌, ◌<◌, ◌≤◌, ◌^◌, All, length, IfOk, MatchResult};
ghost use Rattle.std.specs.Str.{IsUtf8};
ghost use Rattle.og_lex.specs.Spelling.{AreInOrder, IsTokenOf};
ghost use Rattle.og_texts.specs.Texts.{longest_text, start_of, ReadsProgram, ReadsStrategy};
ghost use Rattle.og_texts.specs.Steps.{of_lex, of_parse, IsBadText, Tokenizes};

use crate::fault::TextFault;
use og_lex::{LexFault, MAX_TEXT, Token, lex};
use og_list::List;
use og_parse::{ParseFault, parse_program, parse_strategy};
use og_syntax::{Program, StrategyFile};
use std::alloc::Global;
use std::str;

/// A text that was read, with its tokens and the tree that they spell.
#[derive(Drop)]
pub struct ReadText<'a, T> {
    /// The text.
    pub text: &'a str,
    /// Its tokens.
    pub tokens: List<Token>,
    /// The tree that they spell.
    pub tree: T,
}

/// Reads the bytes as a program.
pub fn read_program(alloc: Global, bytes: &[u8]) -> Result<ReadText<'_, Program>, TextFault>
    ensures reads { ReadsProgram bytes.now result }
    ensures order { IfOk result (λ r. AreInOrder 0 (length bytes.now) r.tokens) }
    ensures each { IfOk result (λ r. All (IsTokenOf bytes.now) r.tokens) }
{
    let (text, tokens) = tokenize(alloc, bytes)?;
    match parse_program(alloc, text, tokens.as_slice()) {
        Ok(tree) => Ok(ReadText { text, tokens, tree }),
        Err(fault) => Err(place_fault(fault, text, tokens.as_slice())),
    }
}

/// Reads the bytes as a strategy file.
pub fn read_strategy(alloc: Global, bytes: &[u8]) -> Result<ReadText<'_, StrategyFile>, TextFault>
    ensures reads { ReadsStrategy bytes.now result }
    ensures order { IfOk result (λ r. AreInOrder 0 (length bytes.now) r.tokens) }
    ensures each { IfOk result (λ r. All (IsTokenOf bytes.now) r.tokens) }
{
    let (text, tokens) = tokenize(alloc, bytes)?;
    match parse_strategy(alloc, text, tokens.as_slice()) {
        Ok(tree) => Ok(ReadText { text, tokens, tree }),
        Err(fault) => Err(place_fault(fault, text, tokens.as_slice())),
    }
}

/// The text of the bytes with its tokens.
fn tokenize(alloc: Global, bytes: &[u8]) -> Result<(&str, List<Token>), TextFault>
    ensures { Tokenizes bytes.now result }
{
    let text = text_of(bytes)?;
    match lex(alloc, text) {
        Ok(tokens) => Ok((text, tokens)),
        Err(fault) => Err(lex_fault(fault)),
    }
}

/// The text that the bytes are.
fn text_of(bytes: &[u8]) -> Result<&str, TextFault>
    ensures { MatchResult result
        (λ text. (text.now ≡ bytes.now) × (length bytes.now ≤ longest_text) × IsUtf8 bytes.now)
        (IsBadText bytes.now) }
{
    if bytes.len() > MAX_TEXT {
        return Err(TextFault::TooLong);
    }
    match str::from_utf8(bytes) {
        Ok(text) => Ok(text),
        Err(fault) => Err(TextFault::BadUtf8(fault.valid_up_to() as u32)),
    }
}

/// The same fault as one of a text.
fn lex_fault(fault: LexFault) -> TextFault
    ensures { result ≡ of_lex fault }
{
    match fault {
        LexFault::BadChar(at) => TextFault::BadChar(at),
        LexFault::OpenText(at) => TextFault::OpenText(at),
        LexFault::WideNumber(at) => TextFault::WideNumber(at),
        LexFault::Memory => TextFault::Memory,
    }
}

/// The same fault with the place of its token.
fn place_fault(fault: ParseFault, text: &str, tokens: &[Token]) -> TextFault
    requires { length text.now < 2 ^ 32 }
    ensures { result ≡ of_parse text.now tokens.now fault }
{
    match fault {
        ParseFault::Syntax(k) => TextFault::Syntax(start_of(k, text, tokens)),
        ParseFault::Deep(k) => TextFault::Deep(start_of(k, text, tokens)),
        ParseFault::Memory => TextFault::Memory,
    }
}

/// Where the token of that number starts, and behind the last one where the text ends.
fn start_of(k: u32, text: &str, tokens: &[Token]) -> u32
    requires { length text.now < 2 ^ 32 }
    ensures { result ≡ start_of text.now tokens.now k }
{
    match tokens.get(k as usize) {
        Some(token) => token.start,
        None => text.len() as u32,
    }
}
