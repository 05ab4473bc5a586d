ghost use Rattle.std.specs.Prelude.{◌≡◌, ◌≤◌, length, slice_range};
ghost use Rattle.std.specs.List.{list_all};
ghost use Rattle.og_lex.specs.Characters.{is_blank};
ghost use Rattle.og_lex.specs.Spelling.{AreInOrder};
ghost use Rattle.og_tool.specs.Texts.{are_gaps_blank, is_ascii, is_plain};

use og_lex::Token;

/// Whether all bytes are blanks.
fn are_blank(bytes: &[u8]) -> bool
    ensures { result ≡ list_all is_blank bytes.now }
{
    bytes.iter().all(|byte| *byte == b' ' || *byte == b'\t' || *byte == b'\n' || *byte == b'\r')
}

/// Whether all bytes are ASCII.
fn is_ascii(bytes: &[u8]) -> bool
    ensures { result ≡ is_ascii bytes.now }
{
    bytes.iter().all(|byte| *byte < 128)
}

/// Whether all bytes from one place up to another are blanks.
fn is_gap_blank(text: &[u8], from: usize, to: usize) -> bool
    requires order { from ≤ to }
    requires within { to ≤ length text.now }
    ensures { result ≡ list_all is_blank (slice_range text.now from to) }
{
    are_blank(&text[from..to])
}

/// Whether only blanks stand round the tokens.
#[tactic(auto, using(crate::proofs::TokenOrder::gap_starts, crate::proofs::TokenOrder::gap_ends))]
fn are_gaps_blank(text: &[u8], tokens: &[Token]) -> bool
    requires { AreInOrder 0 (length text.now) tokens.now }
    ensures { result ≡ are_gaps_blank text.now 0 tokens.now }
{
    let mut place = 0u32;
    'tokens: for token in tokens {
        if !is_gap_blank(text, place as usize, token.start as usize) {
            return false;
        }
        place = token.end;
    }
    are_blank(&text[place as usize..])
}

/// Whether the text with these tokens is of ASCII and has no comment.
pub(crate) fn is_plain(text: &[u8], tokens: &[Token]) -> bool
    requires { AreInOrder 0 (length text.now) tokens.now }
    ensures { result ≡ is_plain text.now tokens.now }
{
    is_ascii(text) && are_gaps_blank(text, tokens)
}
