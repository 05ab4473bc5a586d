//! Tokens of the canonical text, added at the end of a text.
ghost use Rattle.std.specs.Prelude.{◌≡◌, ◌++◌, OnOk};
ghost use Rattle.og_canonical.specs.Tokens.{spaced, ends_line, mark, word, separator, quoted, number, whole};

use og_lex::{Mark, Word};
use og_list::Text;
use std::alloc::{AllocError, Global};

/// Whether a line feed stands behind the mark, in place of a space.
fn ends_line(mark: Mark) -> bool
    ensures { result ≡ ends_line mark }
{
    match mark {
        Mark::LeftBrace | Mark::RightBrace | Mark::Semicolon => true,
        _ => false,
    }
}

/// Adds a token that is written like this.
#[tactic(auto, unfolding(crate::specs::Tokens::spaced))]
pub(crate) fn write_token(token: &str, out: &mut Text) -> Result<(), AllocError>
    ensures { OnOk result (out.new ≡ out.old ++ spaced token.now) }
{
    out.push_str(token)?;
    out.push_str(" ")
}

/// Adds a mark.
#[tactic(auto, unfolding(crate::specs::Tokens::mark))]
pub(crate) fn write_mark(sign: Mark, out: &mut Text) -> Result<(), AllocError>
    ensures { OnOk result (out.new ≡ out.old ++ mark sign) }
{
    out.push_str(sign.text())?;
    out.push_str(if ends_line(sign) { "\n" } else { " " })
}

/// Adds a reserved word.
#[tactic(auto, unfolding(crate::specs::Tokens::word))]
pub(crate) fn write_word(reserved: Word, out: &mut Text) -> Result<(), AllocError>
    ensures { OnOk result (out.new ≡ out.old ++ word reserved) }
{
    write_token(reserved.text(), out)
}

/// Adds a separator.
#[tactic(auto, unfolding(crate::specs::Tokens::separator))]
pub(crate) fn write_separator(out: &mut Text) -> Result<(), AllocError>
    ensures { OnOk result (out.new ≡ out.old ++ separator) }
{
    out.push_str(":-----:\n")
}

/// Adds a name in quotes.
#[tactic(auto, unfolding(crate::specs::Tokens::quoted))]
pub(crate) fn write_quoted(name: &str, out: &mut Text) -> Result<(), AllocError>
    ensures { OnOk result (out.new ≡ out.old ++ quoted name.now) }
{
    out.push_str("\"")?;
    out.push_str(name)?;
    out.push_str("\" ")
}

/// Adds a number.
#[tactic(auto, unfolding(crate::specs::Tokens::number))]
pub(crate) fn write_number(alloc: Global, n: u64, out: &mut Text) -> Result<(), AllocError>
    ensures { OnOk result (out.new ≡ out.old ++ number n) }
{
    let digits = format!(in alloc; "{n}")?;
    write_token(digits.as_str(), out)
}

/// Adds a whole number.
#[tactic(auto, unfolding(crate::specs::Tokens::whole))]
pub(crate) fn write_whole(alloc: Global, n: i64, out: &mut Text) -> Result<(), AllocError>
    ensures { OnOk result (out.new ≡ out.old ++ whole n) }
{
    if n < 0 {
        write_mark(Mark::Minus, out)?;
    }
    write_number(alloc, n.unsigned_abs(), out)
}
