//! What the definition of the answer says of every two texts. The functions do nothing but call the
//! laws that theirs rest on: their contracts are the laws.

ghost use Rattle.std.specs.Prelude.{◌≡◌, ℕ, List, Option};
ghost use Rattle.og_tool.specs.declared.answer.Answer.{Answer};
ghost use Rattle.og_io.specs.Outside.{FilesState};
ghost use Rattle.og_tool.specs.Answer.{Answers};
ghost use Rattle.og_wires.specs.Sites.{Blocks};
ghost use Rattle.og_tool.specs.Command.{Command};
ghost use Rattle.og_tool.specs.Ran.{AnswersWords, TellsTexts};

use crate::read::{one_small_game, one_small_strategy};
use og_texts::{one_program_text, one_strategy_text};

/// Two texts have at most one answer: one status, and one list of bytes.
pub fn one_answer()
    ensures { (blocks : Blocks) (game strategy : List ℕ) (one other : Answer)
        → Answers blocks game strategy one → Answers blocks game strategy other → one ≡ other }
{
    one_small_game();
    one_small_strategy();
    one_program_text();
    one_strategy_text();
}

/// Where the texts are told, the words have at most one answer between two states of the files: the
/// counts of loads and faults tell which files were read and which couldn't be.
pub fn one_answer_to_words()
    ensures { (blocks : Blocks) (words : Option Command) (before after : FilesState) (one other : Answer) → TellsTexts words before
        → AnswersWords blocks words before after one → AnswersWords blocks words before after other → one ≡ other }
{
    one_answer();
}
