ghost use Rattle.std.specs.Prelude.{All, ◌≡◌, ◌≢◌, ◌≤◌, ◌⊎◌, length, IfErr, IfOk, MatchResult, OnOk};
ghost use Rattle.std.specs.List.{AllByRecursion};
ghost use Rattle.og_lex.specs.Spelling.{AreInOrder, IsTokenOf, Lexed};
ghost use Rattle.og_lex.specs.LeftToRight.{tokens, with_token_of};

use crate::fault::LexFault;
use crate::reader;
use crate::token::{Kind, Token};
use og_list::List;
use std::alloc::Global;

/// The length in bytes that a text has at most.
pub const MAX_TEXT: usize = 1_048_576;

/// The tokens of the text, in order. Blanks and comments stand between them: `a // b` has the one
/// token `a`. At each place the longest token that begins there is taken, so `-->` is `-` and `->`.
///
/// Refuses a text in which a place comes where no token, blank or comment starts, and tells the first
/// such place and why. It asks for memory only for the list of tokens.
pub fn lex(alloc: Global, text: &str) -> Result<List<Token>, LexFault>
    requires { length text.now ≤ 1048576 }
    // By the definition of tokens, whatever reads them.
    ensures lexed { Lexed text.now result }

    // The same as a value.
    ensures exact { (result ≡ Err LexFault.Memory) ⊎ (result ≡ tokens text.now) }

    // Where the tokens stand, and that the text between the places of each one writes its kind.
    ensures order { IfOk result (AreInOrder 0 (length text.now)) }
    ensures each { IfOk result (All (IsTokenOf text.now)) }
    ensures in_turn { IfOk result (AllByRecursion (IsTokenOf text.now)) }

    // Each takes a byte or more.
    ensures few { IfOk result (λ ts. length ts ≤ length text.now) }
{
    read(alloc, text)
}

/// As `lex`, said of the reading of the characters.
fn read(alloc: Global, text: &str) -> Result<List<Token>, LexFault>
    requires { length text.now ≤ 1048576 }
    ensures { MatchResult result (λ ts. tokens text.now ≡ Ok ts)
        (λ fault. fault ≢ LexFault.Memory → tokens text.now ≡ Err fault) }
{
    let mut tokens = List::new(alloc);
    let mut rest = text;
    let mut place = 0;
    'pieces: while !rest.is_empty() {
        let (kind, after) = reader::piece_at(rest, place)?;
        let end = place + (rest.len() - after.len()) as u32;
        add(&mut tokens, kind, place, end)?;
        rest = after;
        place = end;
    }
    Ok(tokens)
}

/// Adds the token of the kind, if there is one.
fn add(tokens: &mut List<Token>, kind: Option<Kind>, start: u32, end: u32) -> Result<(), LexFault>
    ensures ok { OnOk result (tokens.new ≡ with_token_of tokens.old kind start end) }
    ensures err { IfErr result (λ fault. fault ≡ LexFault.Memory) }
{
    let Some(kind) = kind else {
        return Ok(());
    };
    match tokens.add(Token { kind, start, end }) {
        Ok(()) => Ok(()),
        Err(_) => Err(LexFault::Memory),
    }
}
