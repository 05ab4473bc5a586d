ghost use Rattle.std.specs.Prelude.{All, IfOk};
ghost use Rattle.og_lex.specs.Spelling.{IsTokenOf};
ghost use Rattle.og_grammar.specs.Reads.{Reads};
ghost use Rattle.og_read.specs.Grammar as spec;
ghost use Rattle.og_read.specs.Spelled.{FindsGame};

use crate::lexemes::{main_name, name, names};
use crate::lines::{empty_field, lines};
use og_grammar::{Fault, Terminal, Tokens, many};
use og_lex::{Mark, Token, Word};
use og_list::List;
use og_small::{Line, SmallGame, TypeDecl};
use std::alloc::{AllocError, Global};

/// Names in braces.
#[tactic(auto, unfolding(crate::specs::Grammar::cases))]
fn cases(alloc: Global, tokens: &mut Tokens<'_>) -> Result<List<List<u8>>, Fault>
    ensures { Reads spec.reads spec.cases tokens.old result tokens.new }
{
    tokens.take(Terminal::Mark(Mark::LeftBrace))?;
    let cases = names(alloc, tokens)?;
    tokens.take(Terminal::Mark(Mark::RightBrace))?;
    Ok(cases)
}

/// `type NAME = { NAME, .. };`
#[tactic(auto, unfolding(crate::specs::Grammar::type_decl))]
fn type_decl(alloc: Global, tokens: &mut Tokens<'_>, _room: usize) -> Result<TypeDecl, Fault>
    ensures { Reads spec.reads spec.type_decl tokens.old result tokens.new }
{
    tokens.take(Terminal::Word(Word::Type))?;
    let name = name(alloc, tokens, 0)?;
    tokens.take(Terminal::Mark(Mark::Assign))?;
    let cases = cases(alloc, tokens)?;
    tokens.take(Terminal::Mark(Mark::Semicolon))?;
    Ok(TypeDecl { name, cases })
}

/// Types, as many as there are.
#[tactic(auto, unfolding(crate::specs::Grammar::types, crate::specs::Grammar::type_decl))]
fn types(alloc: Global, tokens: &mut Tokens<'_>) -> Result<List<TypeDecl>, Fault>
    ensures { Reads spec.reads spec.types tokens.old result tokens.new }
{
    many(alloc, tokens, 0, &[Terminal::Word(Word::Type)], type_decl)
}

/// `game main =`
#[tactic(auto, unfolding(crate::specs::Grammar::title))]
fn title(tokens: &mut Tokens<'_>) -> Result<u32, Fault>
    ensures { Reads spec.reads spec.title tokens.old result tokens.new }
{
    tokens.take(Terminal::Word(Word::Game))?;
    let name = main_name(tokens)?;
    tokens.take(Terminal::Mark(Mark::Assign))?;
    Ok(name)
}

/// What stands in a block before its lines: the empty fields and the separator.
#[tactic(auto, unfolding(crate::specs::Grammar::head))]
fn head(tokens: &mut Tokens<'_>) -> Result<u32, Fault>
    ensures { Reads spec.reads spec.head tokens.old result tokens.new }
{
    empty_field(tokens, Word::Inputs)?;
    empty_field(tokens, Word::Feedback)?;
    tokens.take(Terminal::Separator)
}

/// What stands in a block behind its lines: the separator and the empty fields.
#[tactic(auto, unfolding(crate::specs::Grammar::foot))]
fn foot(tokens: &mut Tokens<'_>) -> Result<u32, Fault>
    ensures { Reads spec.reads spec.foot tokens.old result tokens.new }
{
    let separator = tokens.take(Terminal::Separator)?;
    empty_field(tokens, Word::Outputs)?;
    empty_field(tokens, Word::Returns)?;
    Ok(separator)
}

/// The lines of a block, with what stands round them.
#[tactic(auto, unfolding(crate::specs::Grammar::parts))]
fn parts(alloc: Global, tokens: &mut Tokens<'_>) -> Result<List<Line>, Fault>
    ensures { Reads spec.reads spec.parts tokens.old result tokens.new }
{
    head(tokens)?;
    let lines = lines(alloc, tokens)?;
    foot(tokens)?;
    Ok(lines)
}

/// `block { .. }`
#[tactic(auto, unfolding(crate::specs::Grammar::block))]
fn block(alloc: Global, tokens: &mut Tokens<'_>) -> Result<List<Line>, Fault>
    ensures { Reads spec.reads spec.block tokens.old result tokens.new }
{
    tokens.take(Terminal::Word(Word::Block))?;
    tokens.take(Terminal::Mark(Mark::LeftBrace))?;
    let lines = parts(alloc, tokens)?;
    tokens.take(Terminal::Mark(Mark::RightBrace))?;
    Ok(lines)
}

/// A whole small game.
#[tactic(auto, unfolding(crate::specs::Grammar::game))]
fn game(alloc: Global, tokens: &mut Tokens<'_>) -> Result<SmallGame, Fault>
    ensures { Reads spec.reads spec.game tokens.old result tokens.new }
{
    let types = types(alloc, tokens)?;
    title(tokens)?;
    let lines = block(alloc, tokens)?;
    tokens.take(Terminal::Mark(Mark::Semicolon))?;
    Ok(SmallGame { types, lines })
}

/// Reads the tokens, which are tokens of the text, as one small game. The answer is `None` exactly where
/// they are none.
pub fn read_game(
    alloc: Global,
    text: &str,
    tokens: &[Token],
) -> Result<Option<SmallGame>, AllocError>
    requires { All (IsTokenOf text.now) tokens.now }
    ensures { IfOk result (FindsGame text.now tokens.now) }
{
    let mut rest = Tokens::new(text, tokens);
    match game(alloc, &mut rest) {
        Ok(game) => {
            if rest.is_done() {
                Ok(Some(game))
            } else {
                Ok(None)
            }
        }
        Err(Fault::Syntax(_)) => Ok(None),
        Err(Fault::Memory) => Err(AllocError),
    }
}
