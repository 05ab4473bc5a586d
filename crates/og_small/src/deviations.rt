ghost use Rattle.std.specs.Prelude.{◌≡◌, ◌<◌, ◌++◌, [], List, flat_map, option_to_list, slice_set, IfOk, OnOk};
ghost use Rattle.og_small.specs.Meaning.{choices_of, deviation, deviations_at, deviations};

use crate::copies::copy_names;
use crate::pay::total;
use crate::rules::cases_of;
use crate::{Line, Section, SmallGame};
use og_list::List;
use std::alloc::{AllocError, Global};

/// A decision whose agent gains by another action, all else as it is.
#[derive(Debug, Drop)]
pub struct Deviation {
    /// The decision's number, from 1.
    pub line: u64,
    /// Who decides there.
    pub agent: List<u8>,
    /// What is played there instead.
    pub action: List<u8>,
    /// By how much the agent's total rises. It is above 0.
    pub gain: u128,
}

/// What the sections choose.
pub(crate) fn choices_of(alloc: Global, sections: &[Section]) -> Result<List<List<u8>>, AllocError>
    ensures { IfOk result (λ made. made ≡ choices_of sections.now) }
{
    let mut made = List::new(alloc);
    'sections: for section in sections {
        made.add(List::from_slice(alloc, section.choice.as_slice())?)?;
    }
    Ok(made)
}

/// The joint choice with another action at one line.
fn with_action(
    alloc: Global,
    choices: &[List<u8>],
    at: usize,
    action: &[u8],
) -> Result<List<List<u8>>, AllocError>
    ensures { IfOk result (λ made. made ≡ slice_set choices.now at action.now) }
{
    let mut made = copy_names(alloc, choices)?;
    if at < made.len() {
        made.set(at, List::from_slice(alloc, action)?);
    }
    Ok(made)
}

/// The deviation to this action at the line with this number, if it gains.
fn deviation_by(
    alloc: Global,
    lines: &[Line],
    choices: &[List<u8>],
    number: u64,
    line: &Line,
    action: &[u8],
) -> Result<Option<Deviation>, AllocError>
    requires { 0 < number }
    ensures { IfOk result
        (λ found. option_to_list found ≡ deviation lines.now choices.now number line.now action.now) }
{
    let other = with_action(alloc, choices, (number - 1) as usize, action)?;
    let before = total(lines, choices, line.agent.as_slice());
    let after = total(lines, other.as_slice(), line.agent.as_slice());
    if before >= after {
        return Ok(None);
    }
    Ok(Some(Deviation {
        line: number,
        agent: List::from_slice(alloc, line.agent.as_slice())?,
        action: List::from_slice(alloc, action)?,
        gain: after - before,
    }))
}

/// Adds the deviations at one line, by case.
fn add_deviations(
    found: &mut List<Deviation>,
    alloc: Global,
    lines: &[Line],
    choices: &[List<u8>],
    number: u64,
    line: &Line,
    cases: &[List<u8>],
) -> Result<(), AllocError>
    requires { 0 < number }
    ensures { OnOk result
        (found.new ≡ found.old ++ flat_map (deviation lines.now choices.now number line.now) cases.now) }
{
    'cases: for action in cases {
        if let Some(one) = deviation_by(alloc, lines, choices, number, line, action.as_slice())? {
            found.add(one)?;
        }
    }
    Ok(())
}

/// Adds the deviations at one line, whose cases its type has.
fn add_line(
    found: &mut List<Deviation>,
    alloc: Global,
    game: &SmallGame,
    choices: &[List<u8>],
    number: u64,
    line: &Line,
) -> Result<(), AllocError>
    requires { 0 < number }
    ensures { OnOk result (found.new ≡ found.old ++ deviations_at game.now choices.now (number, line.now)) }
{
    let lines = game.lines.as_slice();
    match cases_of(game.types.as_slice(), line.action.as_slice()) {
        Some(cases) => add_deviations(found, alloc, lines, choices, number, line, cases.as_slice()),
        None => Ok(()),
    }
}

/// All deviations from the joint choice, by line and then by case.
pub(crate) fn find_deviations(
    alloc: Global,
    game: &SmallGame,
    choices: &[List<u8>],
) -> Result<List<Deviation>, AllocError>
    ensures { IfOk result (λ found. found ≡ deviations game.now choices.now) }
{
    let lines = game.lines.as_slice();
    let mut found = List::new(alloc);
    'lines: for i in 0..lines.len() {
        let line = &lines[i];
        add_line(&mut found, alloc, game, choices, i as u64 + 1, line)?;
    }
    Ok(found)
}
