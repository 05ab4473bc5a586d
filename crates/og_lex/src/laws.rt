//! What the definition of the tokens says of every text. The functions do nothing: their contracts
//! are the laws.

ghost use Rattle.std.specs.Prelude.{◌≡◌, ◌≢◌, ℕ, List, Result, Err, slice_range};
ghost use Rattle.std.specs.List.{AllByRecursion, AllZip};
ghost use Rattle.std.specs.Str.{IsUtf8};
ghost use Rattle.og_lex.specs.declared.token.Token.{Token};
ghost use Rattle.og_lex.specs.declared.fault.LexFault.{LexFault};
ghost use Rattle.og_lex.specs.declared.fault.LexFault.TheVariants.{Memory};
ghost use Rattle.og_lex.specs.Spelling.{Lexed, AreTokens};
ghost use Rattle.og_lex.specs.LeftToRight.{tokens};
ghost use Rattle.og_lex.specs.Written.{Written, IsWritten, text_of, placed};

/// A text has at most one row of tokens, and if it has a fault it has no tokens and no other first
/// fault.
pub fn one_lexing()
    ensures { (text : List ℕ) (one other : Result (List Token) LexFault) → Lexed text one
        → Lexed text other → one ≢ Err Memory → other ≢ Err Memory → one ≡ other }
{}

/// A text has a row of tokens or a first fault: those that `tokens` computes.
pub fn some_lexing()
    ensures lexed { (text : List ℕ) → Lexed text (tokens text) }
    ensures read { (text : List ℕ) → tokens text ≢ Err Memory }
{}

/// Tokens that are written one after another, each with a blank behind it, are read back as these
/// tokens, and the text between the places of each is what writes it.
pub fn written_read_back()
    ensures utf8 { (ws : List Written) → AllByRecursion IsWritten ws → IsUtf8 (text_of ws) }
    ensures tokens { (ws : List Written) → AllByRecursion IsWritten ws
        → AreTokens (text_of ws) (placed 0 ws) }
    ensures bytes { (ws : List Written)
        → AllZip (λ w t. slice_range (text_of ws) t.start t.end ≡ w.bytes) ws (placed 0 ws) }
{}
