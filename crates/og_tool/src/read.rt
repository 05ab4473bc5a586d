ghost use Rattle.std.specs.Prelude.{◌≡◌, ℕ, List, All, IfOk, length};
ghost use Rattle.og_lex.specs.Spelling.{AreInOrder, IsTokenOf};
ghost use Rattle.og_small.specs.declared.tree.SmallGame.{SmallGame};
ghost use Rattle.og_small.specs.declared.tree.Section.{Section};
ghost use Rattle.og_wires.specs.Sites.{blocks_of};
ghost use Rattle.og_wires.specs.Programs.{WiresOrBreaks};
ghost use Rattle.og_tool.specs.Texts.{IsGame, IsStrategy, FindsGame, FindsStrategy, ReadsGame, ReadsStrategy};

use crate::plain::is_plain;
use og_lex::{Token, one_lexing};
use og_list::List;
use og_native::Library;
use og_read::{one_game, one_strategy, read_game, read_strategy};
use og_small::{Section, SmallGame, accepts};
use og_syntax::Program;
use og_texts::{TextFault, read_program, read_strategy as read_strategy_file};
use og_typing::WireFault;
use og_wires::walk_program;
use std::alloc::{AllocError, Global};

/// Why a game's text is refused: for a fault of the text, or for a rule of the wiring that it breaks.
#[derive(Clone, Copy, Debug, PartialEq, Eq)]
pub(crate) enum GameFault {
    Text(TextFault),
    Wire(WireFault),
}

impl From<TextFault> for GameFault {
    ghost use Rattle.std.specs.Prelude.{◌≡◌};
    ghost use Rattle.og_tool.specs.declared.read.GameFault.TheVariants.{Text};

    ghost from_gives = { λ fault made. made ≡ Text fault };

    fn from(fault: TextFault) -> GameFault {
        GameFault::Text(fault)
    }
}

impl From<WireFault> for GameFault {
    ghost use Rattle.std.specs.Prelude.{◌≡◌};
    ghost use Rattle.og_tool.specs.declared.read.GameFault.TheVariants.{Wire};

    ghost from_gives = { λ fault made. made ≡ Wire fault };

    fn from(fault: WireFault) -> GameFault {
        GameFault::Wire(fault)
    }
}

/// The small game that the text is, if it is one, or the text's first fault, or the first rule of the wiring that it breaks.
pub(crate) fn game_of(
    alloc: Global,
    bytes: &[u8],
    library: &Library,
) -> Result<Option<SmallGame>, GameFault>
    ensures { ReadsGame (blocks_of library.now.blocks.items) bytes.now result }
{
    one_lexing();
    let read = read_program(alloc, bytes)?;
    wired(alloc, &read.tree, library)?;
    match small_game(alloc, read.text, read.tokens.as_slice()) {
        Ok(found) => Ok(found),
        Err(_) => Err(GameFault::Text(TextFault::Memory)),
    }
}

/// Whether the program breaks no rule of the wiring, or the first one that it breaks.
fn wired(alloc: Global, program: &Program, library: &Library) -> Result<(), WireFault>
    ensures { WiresOrBreaks (blocks_of library.now.blocks.items) program.now result }
{
    walk_program(alloc, program, library)?;
    Ok(())
}

/// The small game that the text with these tokens is, if it is one that is accepted.
fn small_game(alloc: Global, text: &str, tokens: &[Token]) -> Result<Option<SmallGame>, AllocError>
    requires order { AreInOrder 0 (length text.now) tokens.now }
    requires each { All (IsTokenOf text.now) tokens.now }
    ensures { IfOk result (FindsGame text.now tokens.now) }
{
    one_game();
    if !is_plain(text.as_bytes(), tokens) {
        return Ok(None);
    }
    match read_game(alloc, text, tokens)? {
        Some(tree) => {
            let is_accepted = accepts(alloc, &tree)?;
            if is_accepted {
                Ok(Some(tree))
            } else {
                Ok(None)
            }
        }
        None => Ok(None),
    }
}

/// The sections of the small strategy that the text is, if it is one, or the text's first fault.
pub(crate) fn strategy_of(alloc: Global, bytes: &[u8]) -> Result<Option<List<Section>>, TextFault>
    ensures { ReadsStrategy bytes.now result }
{
    one_lexing();
    let read = read_strategy_file(alloc, bytes)?;
    match small_strategy(alloc, read.text, read.tokens.as_slice()) {
        Ok(found) => Ok(found),
        Err(_) => Err(TextFault::Memory),
    }
}

/// The sections of the small strategy that the text with these tokens is, if it is one.
fn small_strategy(
    alloc: Global,
    text: &str,
    tokens: &[Token],
) -> Result<Option<List<Section>>, AllocError>
    requires order { AreInOrder 0 (length text.now) tokens.now }
    requires each { All (IsTokenOf text.now) tokens.now }
    ensures { IfOk result (FindsStrategy text.now tokens.now) }
{
    if !is_plain(text.as_bytes(), tokens) {
        return Ok(None);
    }
    read_strategy(alloc, text, tokens)
}

/// A text is at most one small game.
pub fn one_small_game()
    ensures { (text : List ℕ) (one other : SmallGame) → IsGame text one → IsGame text other → one ≡ other }
{
    one_game();
    one_lexing();
}

/// A text is at most one small strategy.
pub fn one_small_strategy()
    ensures { (text : List ℕ) (one other : List Section)
        → IsStrategy text one → IsStrategy text other → one ≡ other }
{
    one_strategy();
    one_lexing();
}
