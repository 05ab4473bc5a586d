ghost use Rattle.std.specs.Prelude.{◌≡◌, ◌∷◌, [], IfOk, IfSome, MatchOption, MatchResult};
ghost use Rattle.std.specs.Str.{chars, IsUtf8};
ghost use Rattle.og_lex.specs.LeftToRight.{word_among, mark_among, word_of, name_at, under_at, number_at, text_at, separator_end, mark_at, symbol_at, token_at, piece_at};
ghost use Rattle.og_lex.specs.Characters.{is_blank};

use crate::class::Class;
use crate::fault::LexFault;
use crate::front;
use crate::token::{Kind, Mark, Word};

/// Numbers are below this.
const NUMBER_LIMIT: u64 = 0x8000_0000_0000_0000;

/// Every reserved word.
const WORDS: [Word; 37] = [
    Word::Type,
    Word::Fn,
    Word::Game,
    Word::Block,
    Word::Inputs,
    Word::Feedback,
    Word::Operation,
    Word::Outputs,
    Word::Returns,
    Word::DependentDecision,
    Word::Nature,
    Word::ForwardFunction,
    Word::BackwardFunction,
    Word::Identity,
    Word::Library,
    Word::If,
    Word::Then,
    Word::Elif,
    Word::Else,
    Word::End,
    Word::Table,
    Word::And,
    Word::Or,
    Word::Not,
    Word::True,
    Word::False,
    Word::Bool,
    Word::Number,
    Word::Agent,
    Word::Ratio,
    Word::Min,
    Word::Max,
    Word::Clamp,
    Word::Strategy,
    Word::Among,
    Word::Branch,
    Word::Version,
];

/// Every mark, the longest first.
const MARKS: [Mark; 25] = [
    Mark::Then,
    Mark::Beside,
    Mark::DotDot,
    Mark::Arrow,
    Mark::Equal,
    Mark::Differs,
    Mark::AtMost,
    Mark::AtLeast,
    Mark::LeftBrace,
    Mark::RightBrace,
    Mark::LeftParen,
    Mark::RightParen,
    Mark::LeftBracket,
    Mark::RightBracket,
    Mark::Comma,
    Mark::Semicolon,
    Mark::Colon,
    Mark::Dot,
    Mark::Assign,
    Mark::Less,
    Mark::Greater,
    Mark::Plus,
    Mark::Minus,
    Mark::Star,
    Mark::Slash,
];

/// The first of the words that is written so.
fn word_among(words: &[Word], name: &str) -> Option<Word>
    ensures { result ≡ word_among words.now name.now }
{
    'words: for word in words {
        if word.text() == name {
            return Some(*word);
        }
    }
    None
}

/// The first of the marks with which the text begins, and the text behind it.
fn mark_among<'a>(marks: &[Mark], text: &'a str) -> Option<(Mark, &'a str)>
    ensures cases { MatchOption result (mark_among marks.now (chars text.now) ≡ None)
        (λ x. mark_among marks.now (chars text.now) ≡ Some (x.0, chars x.1.now)) }
    ensures utf8 { IfSome result (λ x. IsUtf8 x.1.now) }
{
    'marks: for mark in marks {
        if let Some(rest) = front::strip(text, mark.text()) {
            return Some((*mark, rest));
        }
    }
    None
}

/// The reserved word that is written so.
#[tactic(auto, unfolding(crate::specs::LeftToRight::word_of, crate::specs::Tables::all_words))]
fn word_of(name: &str) -> Option<Word>
    ensures { result ≡ word_of name.now }
{
    word_among(&WORDS, name)
}

/// The longest mark with which the text begins, and the text behind it.
#[tactic(auto, unfolding(crate::specs::LeftToRight::mark_at, crate::specs::Tables::all_marks))]
fn mark_at(text: &str) -> Option<(Mark, &str)>
    ensures cases { MatchOption result (mark_at (chars text.now) ≡ None)
        (λ x. mark_at (chars text.now) ≡ Some (x.0, chars x.1.now)) }
    ensures utf8 { IfSome result (λ x. IsUtf8 x.1.now) }
{
    mark_among(&MARKS, text)
}

/// The name or the reserved word with which the text begins, and the text behind it.
#[tactic(auto, using(crate::proofs::WordBytes::word_of_encodes), unfolding(crate::specs::LeftToRight::name_at, crate::specs::Characters::has))]
fn name_at(text: &str) -> (Kind, &str)
    ensures value { name_at (chars text.now) ≡ (result.0, chars result.1.now) }
    ensures utf8 { IsUtf8 result.1.now }
{
    let (name, rest) = front::cut(text, Class::NameRest);
    let kind = match word_of(name) {
        Some(word) => Kind::Word(word),
        None => Kind::Name,
    };
    (kind, rest)
}

/// The token that begins with an underscore, and the text behind it.
#[tactic(auto, unfolding(crate::specs::LeftToRight::under_at, crate::specs::Characters::has, crate::specs::Characters::byte_len))]
fn under_at(text: &str, place: u32) -> Result<(Kind, &str), LexFault>
    ensures cases { MatchResult result
        (λ x. under_at place (chars text.now) ≡ Ok (x.0, chars x.1.now))
        (λ fault. under_at place (chars text.now) ≡ Err fault) }
    ensures utf8 { IfOk result (λ x. IsUtf8 x.1.now) }
{
    let (name, rest) = front::cut(text, Class::NameRest);
    if name.len() > 1 {
        Ok((Kind::Under, rest))
    } else {
        Err(LexFault::BadChar(place))
    }
}

/// The number with whose digits the text begins, and the text behind it.
#[tactic(auto, unfolding(crate::specs::LeftToRight::number_at, crate::specs::Characters::has))]
fn number_at(text: &str, place: u32) -> Result<(Kind, &str), LexFault>
    ensures cases { MatchResult result
        (λ x. number_at place (chars text.now) ≡ Ok (x.0, chars x.1.now))
        (λ fault. number_at place (chars text.now) ≡ Err fault) }
    ensures utf8 { IfOk result (λ x. IsUtf8 x.1.now) }
{
    let (digits, rest) = front::cut(text, Class::Digit);
    match digits.parse::<u64>() {
        Ok(value) if value < NUMBER_LIMIT => Ok((Kind::Number(value), rest)),
        _ => Err(LexFault::WideNumber(place)),
    }
}

/// The text between double quotes, the first of which stands just before, and the text behind it.
#[tactic(auto, unfolding(crate::specs::LeftToRight::text_at, crate::specs::Characters::has))]
fn text_at(after: &str, place: u32) -> Result<(Kind, &str), LexFault>
    ensures cases { MatchResult result
        (λ x. text_at place (chars after.now) ≡ Ok (x.0, chars x.1.now))
        (λ fault. text_at place (chars after.now) ≡ Err fault) }
    ensures utf8 { IfOk result (λ x. IsUtf8 x.1.now) }
{
    match front::strip(front::after(after, Class::InText), "\"") {
        Some(rest) => Ok((Kind::Text, rest)),
        None => Err(LexFault::OpenText(place)),
    }
}

/// What follows a separator whose first colon stands just before the text.
#[tactic(auto, unfolding(crate::specs::LeftToRight::separator_end, crate::specs::Characters::has, crate::specs::Characters::byte_len))]
fn separator_end(after: &str) -> Option<&str>
    ensures cases { MatchOption result (separator_end (chars after.now) ≡ None)
        (λ rest. separator_end (chars after.now) ≡ Some (chars rest.now)) }
    ensures utf8 { IfSome result (λ rest. IsUtf8 rest.now) }
{
    let (hyphens, rest) = front::cut(after, Class::Hyphen);
    if hyphens.len() < 3 {
        return None;
    }
    front::strip(rest, ":")
}

/// The separator or the mark with which the text begins, and the text behind it. The text is the
/// character and then `after`.
#[tactic(auto, unfolding(crate::specs::LeftToRight::symbol_at))]
fn symbol_at<'a>(
    text: &'a str,
    c: char,
    after: &'a str,
    place: u32,
) -> Result<(Kind, &'a str), LexFault>
    ensures cases { MatchResult result
        (λ x. symbol_at place c (chars after.now) (chars text.now) ≡ Ok (x.0, chars x.1.now))
        (λ fault. symbol_at place c (chars after.now) (chars text.now) ≡ Err fault) }
    ensures utf8 { IfOk result (λ x. IsUtf8 x.1.now) }
{
    if c == ':'
        && let Some(rest) = separator_end(after)
    {
        return Ok((Kind::Separator, rest));
    }
    match mark_at(text) {
        Some((mark, rest)) => Ok((Kind::Mark(mark), rest)),
        None => Err(LexFault::BadChar(place)),
    }
}

/// The token at the front of the text, which stands at the place, and the text behind it.
#[tactic(auto, unfolding(crate::specs::LeftToRight::token_at))]
fn token_at(text: &str, place: u32) -> Result<(Kind, &str), LexFault>
    ensures cases { MatchResult result
        (λ x. token_at place (chars text.now) ≡ Ok (x.0, chars x.1.now))
        (λ fault. token_at place (chars text.now) ≡ Err fault) }
    ensures utf8 { IfOk result (λ x. IsUtf8 x.1.now) }
{
    let Some((c, after)) = front::first(text) else {
        return Err(LexFault::BadChar(place));
    };
    if unicode_ident::is_xid_start(c) {
        Ok(name_at(text))
    } else if c == '_' {
        under_at(text, place)
    } else if c.is_ascii_digit() {
        number_at(text, place)
    } else if c == '"' {
        text_at(after, place)
    } else {
        symbol_at(text, c, after, place)
    }
}

/// What stands at the front of the text, which stands at the place: a token of the kind, or a blank
/// or a comment. With it comes the text behind it.
#[tactic(auto, unfolding(crate::specs::LeftToRight::piece_at, crate::specs::Characters::has))]
pub(crate) fn piece_at(text: &str, place: u32) -> Result<(Option<Kind>, &str), LexFault>
    ensures cases { MatchResult result
        (λ x. piece_at place (chars text.now) ≡ Ok (x.0, chars x.1.now))
        (λ fault. piece_at place (chars text.now) ≡ Err fault) }
    ensures utf8 { IfOk result (λ x. IsUtf8 x.1.now) }
{
    let Some((c, after)) = front::first(text) else {
        return Err(LexFault::BadChar(place));
    };
    if is_blank(c) {
        return Ok((None, after));
    }
    if let Some(inside) = front::strip(text, "//") {
        return Ok((None, front::after(inside, Class::InComment)));
    }
    let (kind, rest) = token_at(text, place)?;
    Ok((Some(kind), rest))
}

/// Whether the character only separates tokens.
fn is_blank(c: char) -> bool
    ensures { result ≡ is_blank c }
{
    matches!(c, ' ' | '\t' | '\n' | '\r')
}
