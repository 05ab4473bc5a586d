ghost use Rattle.std.specs.Prelude.{◌≡◌, ◌↔◌, [], ◌∷◌, Some, IfOk, map, string_bytes};
ghost use Rattle.og_io.specs.Outside.{OnlyLoads};
ghost use Rattle.og_small.specs.Meaning.{choices_of};
ghost use Rattle.og_small.specs.Equilibrium.{IsEquilibrium};
ghost use Rattle.og_small.specs.Report.{report};
ghost use Rattle.og_tool.specs.Command.{command_of, files_of};
ghost use Rattle.og_tool.specs.Answer.{AnswersStrategy, verdict_of};
ghost use Rattle.og_wires.specs.Sites.{blocks_of};
ghost use Rattle.og_tool.specs.Ran.{AnswersWords};
ghost use Rattle.og_tool.specs.Halves.{TellsGame, StepsToGame, StepsToStrategy};

use crate::Status;
use crate::command::command_of;
use crate::fetch::{Fetched, fetch};
use crate::read::{GameFault, game_of, one_small_strategy, strategy_of};
use crate::refusal::{line, refuse, refuse_wiring};
use og_io::Files;
use og_list::List;
use og_native::Library;
use og_small::{Section, SmallGame, fits, fitting_strategies, report_on};
use og_texts::TextFault;
use og_typing::WireFault;
use std::alloc::{AllocError, Global};

/// What to write, and the status to end with.
#[derive(Debug, Drop)]
pub(crate) struct Answer {
    pub status: Status,
    pub bytes: List<u8>,
}

/// What came of the game's file.
#[derive(Debug, Drop)]
enum GameStep {
    Accepted(SmallGame),
    Refused(Answer),
}

/// What the text of a game comes to.
fn answer_game(alloc: Global, text: &[u8], library: &Library) -> Result<GameStep, AllocError>
    ensures { IfOk result (TellsGame (blocks_of library.now.blocks.items) text.now) }
{
    let unbuilt = b"refused game NotBuilt at 1:1\n".as_slice();
    match game_of(alloc, text, library) {
        Ok(Some(tree)) => Ok(GameStep::Accepted(tree)),
        Ok(None) => Ok(GameStep::Refused(line(alloc, Status::GameText, unbuilt)?)),
        Err(GameFault::Text(TextFault::Memory)) => Err(AllocError),
        Err(GameFault::Wire(WireFault::Memory)) => Err(AllocError),
        Err(GameFault::Text(fault)) => {
            Ok(GameStep::Refused(refuse(alloc, Status::GameText, "game", text, fault)?))
        }
        Err(GameFault::Wire(fault)) => { Ok(GameStep::Refused(refuse_wiring(alloc, text, fault)?)) }
    }
}

/// Reads the game's file, and its text.
fn step_to_game<F: Files>(
    alloc: Global,
    file: &str,
    library: &Library,
    files: &mut F,
) -> Result<GameStep, AllocError>
    ensures only { OnlyLoads (file.now ∷ []) (F.state files.old) (F.state files.new) }
    ensures steps { IfOk result (StepsToGame (blocks_of library.now.blocks.items) file.now (F.state files.old) (F.state files.new)) }
{
    let long = b"refused game TooLong at 1:1\n".as_slice();
    let missed = b"refused read game\n".as_slice();
    match fetch(alloc, file, files)? {
        Fetched::Text(text) => Ok(answer_game(alloc, text.as_slice(), library)?),
        Fetched::TooLong => Ok(GameStep::Refused(line(alloc, Status::GameText, long)?)),
        Fetched::Failed => Ok(GameStep::Refused(line(alloc, Status::ReadFault, missed)?)),
    }
}

/// The report on the game where the sections are played.
fn reported(alloc: Global, tree: &SmallGame, sections: &[Section]) -> Result<Answer, AllocError>
    ensures ends { IfOk result (λ a. a.status ≡ verdict_of tree.now sections.now) }
    ensures equilibrium { IfOk result (λ a.
        (a.status ≡ Status.Done) ↔ IsEquilibrium tree.now (choices_of sections.now)) }
    ensures writes { IfOk result (λ a. a.bytes ≡ report tree.now (choices_of sections.now)) }
{
    let report = report_on(alloc, tree, sections)?;
    let status = if report.is_equilibrium {
        Status::Done
    } else {
        Status::Deviations
    };
    Ok(Answer {
        status,
        bytes: report.text,
    })
}

/// The report on the game under the strategy's text, or its refusal.
fn judge(alloc: Global, tree: &SmallGame, text: &[u8]) -> Result<Answer, AllocError>
    ensures { IfOk result (AnswersStrategy tree.now text.now) }
{
    one_small_strategy();
    fitting_strategies();
    let unbuilt = b"refused strategy NotBuilt at 1:1\n".as_slice();
    match strategy_of(alloc, text) {
        Ok(Some(sections)) => {
            let suits = fits(tree, sections.as_slice());
            if suits {
                Ok(reported(alloc, tree, sections.as_slice())?)
            } else {
                Ok(line(alloc, Status::StrategyText, unbuilt)?)
            }
        }
        Ok(None) => Ok(line(alloc, Status::StrategyText, unbuilt)?),
        Err(TextFault::Memory) => Err(AllocError),
        Err(fault) => Ok(refuse(alloc, Status::StrategyText, "strategy", text, fault)?),
    }
}

/// Reads the strategy's file, and answers.
fn step_to_strategy<F: Files>(
    alloc: Global,
    tree: &SmallGame,
    file: &str,
    files: &mut F,
) -> Result<Answer, AllocError>
    ensures only { OnlyLoads (file.now ∷ []) (F.state files.old) (F.state files.new) }
    ensures steps { IfOk result (StepsToStrategy tree.now file.now (F.state files.old) (F.state files.new)) }
{
    let long = b"refused strategy TooLong at 1:1\n".as_slice();
    let missed = b"refused read strategy\n".as_slice();
    match fetch(alloc, file, files)? {
        Fetched::Text(text) => Ok(judge(alloc, tree, text.as_slice())?),
        Fetched::TooLong => Ok(line(alloc, Status::StrategyText, long)?),
        Fetched::Failed => Ok(line(alloc, Status::ReadFault, missed)?),
    }
}

/// Reads both files in turn, and answers.
#[tactic(auto, using(crate::proofs::HalvesMeet::loads_twice, crate::proofs::HalvesMeet::loads_once))]
fn check<F: Files>(
    alloc: Global,
    game: &str,
    strategy: &str,
    library: &Library,
    files: &mut F,
) -> Result<Answer, AllocError>
    ensures only { OnlyLoads (game.now ∷ strategy.now ∷ []) (F.state files.old) (F.state files.new) }
    ensures answers { IfOk result (AnswersWords (blocks_of library.now.blocks.items)
        (Some (record { game = game.now; strategy = strategy.now })) (F.state files.old) (F.state files.new)) }
{
    match step_to_game(alloc, game, library, files)? {
        GameStep::Accepted(tree) => Ok(step_to_strategy(alloc, &tree, strategy, files)?),
        GameStep::Refused(answer) => Ok(answer),
    }
}

/// What to write for the words, and the status to end with.
#[tactic(auto, using(crate::proofs::HalvesMeet::loads_none, crate::proofs::HalvesMeet::reads_none))]
pub(crate) fn answer_words<F: Files>(
    alloc: Global,
    words: &[String],
    library: &Library,
    files: &mut F,
) -> Result<Answer, AllocError>
    ensures only { OnlyLoads (files_of (command_of (map string_bytes words.now)))
        (F.state files.old) (F.state files.new) }
    ensures answers { IfOk result (AnswersWords (blocks_of library.now.blocks.items) (command_of (map string_bytes words.now))
        (F.state files.old) (F.state files.new)) }
{
    match command_of(words) {
        Some(command) => check(alloc, command.game, command.strategy, library, files),
        None => line(alloc, Status::Words, b"refused words\n"),
    }
}
