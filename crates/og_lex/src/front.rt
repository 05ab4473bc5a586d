ghost use Rattle.std.specs.Prelude.{◌≡◌, ◌<◌, ◌++◌, ◌∷◌, [], IsTrue, length, MatchOption, IfSome, encode_utf8, encode_utf8_all};
ghost use Rattle.std.specs.Str.{chars, IsUtf8};
ghost use Rattle.std.specs.List.{list_all};
ghost use Rattle.og_lex.specs.Characters.{has, run, behind, is_ascii_char};
ghost use Rattle.og_lex.specs.LeftToRight.{strip};

use crate::class::Class;

/// The first character of the text, and the text behind it.
pub(crate) fn first(text: &str) -> Option<(char, &str)>
    ensures cases { MatchOption result (chars text.now ≡ [])
        (λ x. chars text.now ≡ x.0 ∷ chars x.1.now) }
    ensures whole { MatchOption result (text.now ≡ [])
        (λ x. text.now ≡ encode_utf8 x.0 ++ x.1.now) }
    ensures shorter { IfSome result (λ x. length x.1.now < length text.now) }
    ensures utf8 { IfSome result (λ x. IsUtf8 x.1.now) }
{
    let mut chars = text.chars();
    let c = chars.next()?;
    Some((c, chars.as_str()))
}

/// The text behind its longest front of characters of the class.
pub(crate) fn after(text: &str, class: Class) -> &str
    ensures rest { chars result.now ≡ behind (has class) (chars text.now) }
    ensures whole { text.now ≡ encode_utf8_all (run (has class) (chars text.now)) ++ result.now }
{
    let mut rest = text;
    'run: while let Some((c, behind)) = first(rest) {
        if !class.has(c) {
            break;
        }
        rest = behind;
    }
    rest
}

/// Cuts the text behind its longest front of characters of the class.
pub(crate) fn cut(text: &str, class: Class) -> (&str, &str)
    ensures front { result.0.now ≡ encode_utf8_all (run (has class) (chars text.now)) }
    ensures rest { chars result.1.now ≡ behind (has class) (chars text.now) }
    ensures utf8 { IsUtf8 result.1.now }
{
    let rest = after(text, class);
    text.split_at(text.len() - rest.len())
}

/// The text behind the front, if it begins with it.
pub(crate) fn strip<'a>(text: &'a str, front: &str) -> Option<&'a str>
    requires { IsTrue (list_all is_ascii_char front.now) }
    ensures cases { MatchOption result (strip front.now (chars text.now) ≡ None)
        (λ rest. strip front.now (chars text.now) ≡ Some (chars rest.now)) }
    ensures utf8 { IfSome result (λ rest. IsUtf8 rest.now) }
{
    text.strip_prefix(front)
}
