ghost use Rattle.std.specs.Prelude.{All, ◌≡◌, ◌↔◌, ◌<◌, ◌^◌, [], length, IsTrue, IfErr, IfOk, Err};
ghost use Rattle.og_lex.specs.Spelling.{IsTokenOf};
ghost use Rattle.og_grammar.specs.Lexeme.{lexemes_of};
ghost use Rattle.og_grammar.specs.Lexeme as lexeme;
ghost use Rattle.og_grammar.specs.Reading as reading;
ghost use Rattle.og_grammar.specs.Reads.{ReadsBy};

use crate::fault::Fault;
use crate::terminal::{Terminal, same_terminal, terminal_of};
use og_lex::{Kind, Token};
use og_list::Text;
use std::alloc::Global;
use std::marker::Model;

/// A cursor over the tokens of a text. Contracts see it as the list of the tokens that are left, each with
/// the bytes that write it.
#[derive(Drop)]
pub struct Tokens<'a> {
    text: &'a str,
    rest: &'a [Token],
}

impl<'a> Model for Tokens<'a> {
    ghost use Rattle.std.specs.Prelude.{List};
    ghost use Rattle.std.specs.List.{AllByRecursion};
    ghost use Rattle.og_lex.specs.Spelling.{IsTokenOf};
    ghost use Rattle.og_grammar.specs.Lexeme.{Lexeme, lexemes_of};

    ghost Value = { List Lexeme };

    ghost view = { λ t. lexemes_of t.text.now t.rest.now };

    ghost invariant = { λ t. AllByRecursion (IsTokenOf t.text.now) t.rest.now };
}

impl<'a> Tokens<'a> {
    /// A cursor at the first of the tokens, which are tokens of the text.
    pub fn new(text: &'a str, tokens: &'a [Token]) -> Tokens<'a>
        requires { All (IsTokenOf text.now) tokens.now }
        ensures { result ≡ lexemes_of text.now tokens.now }
    {
        Tokens { text, rest: tokens }
    }

    /// How many tokens are left.
    pub fn left(&self) -> usize
        ensures { result ≡ length self.now }
    {
        self.rest.len()
    }

    /// Whether no token is left.
    pub fn is_done(&self) -> bool
        ensures { IsTrue result ↔ (self.now ≡ []) }
    {
        self.rest.is_empty()
    }

    /// Where the next token stands in the text, and 0 behind the last.
    #[tactic(auto, unfolding(crate::specs::Reading::place))]
    pub fn place(&self) -> u32
        ensures { result ≡ reading.place self.now }
    {
        match self.rest {
            [next, ..] => next.start,
            [] => 0,
        }
    }

    /// The value of the next token where it is a number, and else 0.
    #[tactic(auto, unfolding(crate::specs::Reading::next_value))]
    pub fn value(&self) -> u64
        ensures value { result ≡ reading.next_value self.now }
        ensures small { result < 2 ^ 63 }
    {
        match self.rest {
            [next, ..] => match next.kind {
                Kind::Number(value) => value,
                _ => 0,
            },
            [] => 0,
        }
    }

    /// The part of the text that writes the next token, and the empty text behind the last.
    #[tactic(auto, unfolding(crate::specs::Reading::next_spelling))]
    pub fn spelling(&self) -> &'a str
        ensures { result.now ≡ reading.next_spelling self.now }
    {
        match self.rest {
            [next, ..] => &self.text[next.start as usize..next.end as usize],
            [] => "",
        }
    }

    /// Whether the next token is for the terminal.
    #[tactic(auto, unfolding(crate::specs::Reading::sees))]
    pub fn sees(&self, terminal: Terminal) -> bool
        ensures { result ≡ reading.sees terminal self.now }
    {
        match self.rest {
            [next, ..] => same_terminal(terminal_of(next.kind), terminal),
            [] => false,
        }
    }

    /// Whether the next token is for one of the terminals.
    pub fn sees_any(&self, terminals: &[Terminal]) -> bool
        ensures { result ≡ reading.sees_any terminals.now self.now }
    {
        match terminals {
            [terminal, more @ ..] => self.sees(*terminal) || self.sees_any(more),
            [] => false,
        }
    }

    /// Takes the next token, which has to be for the terminal, and tells where it stands. Where it isn't,
    /// the tokens stay as they were. It never wants memory.
    #[tactic(auto, unfolding(crate::specs::Reading::read_token))]
    pub fn take(&mut self, terminal: Terminal) -> Result<u32, Fault>
        ensures read { ReadsBy (reading.read_place terminal) self.old result self.new }
        ensures refused { IfErr result (λ _. self.new ≡ self.old) }
        ensures no_memory { result ≡ Err Fault.Memory → ⊥ }
    {
        match self.rest {
            [next, rest @ ..] if same_terminal(terminal_of(next.kind), terminal) => {
                let start = next.start;
                self.rest = rest;
                Ok(start)
            }
            _ => Err(Fault::Syntax(self.left())),
        }
    }

    /// Takes the next token, which has to be a number, and tells its value.
    #[tactic(auto, unfolding(crate::specs::Reading::read_token, crate::specs::Reading::next_value))]
    pub fn number(&mut self) -> Result<u64, Fault>
        ensures read { ReadsBy reading.read_number self.old result self.new }
        ensures small { IfOk result (λ value. value < 2 ^ 63) }
        ensures refused { IfErr result (λ _. self.new ≡ self.old) }
        ensures no_memory { result ≡ Err Fault.Memory → ⊥ }
    {
        let value = self.value();
        self.take(Terminal::Number)?;
        Ok(value)
    }

    /// Takes the next token, which has to be for the terminal, as the text that writes it.
    #[tactic(auto, unfolding(crate::specs::Reading::read_token, crate::specs::Reading::next_spelling))]
    pub fn spelled(&mut self, alloc: Global, terminal: Terminal) -> Result<Text, Fault>
        ensures { ReadsBy (reading.read_spelling terminal) self.old result self.new }
    {
        let spelling = self.spelling();
        self.take(terminal)?;
        Ok(Text::from(alloc, spelling)?)
    }

    /// Takes the next token, which has to be a text in quotes, as what stands between the quotes.
    #[tactic(auto, unfolding(crate::specs::Reading::read_token, crate::specs::Reading::next_spelling))]
    pub fn quoted(&mut self, alloc: Global) -> Result<Text, Fault>
        ensures { ReadsBy reading.read_quoted self.old result self.new }
    {
        let spelling = self.spelling();
        self.take(Terminal::Text)?;
        Ok(Text::from(alloc, inside_quotes(spelling))?)
    }
}

/// What stands between the quotes of a text in quotes, and nothing of any other.
#[tactic(auto, using(crate::proofs::Quotes::after_quote, crate::proofs::Quotes::before_quote))]
fn inside_quotes(spelling: &str) -> &str
    ensures { result.now ≡ lexeme.inside_quotes spelling.now }
{
    match spelling.as_bytes() {
        [b'"', .., b'"'] => &spelling[1..spelling.len() - 1],
        _ => "",
    }
}
