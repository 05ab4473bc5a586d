ghost use Rattle.std.specs.Prelude.{◌≡◌, ◌++◌, [], ◌∷◌, IfOk, OnOk, IsTrue, ◌↔◌, decimal, codes, flat_map};
ghost use Rattle.og_small.specs.Meaning.{choices_of, deviations, agents, has_agent};
ghost use Rattle.og_small.specs.Equilibrium.{IsEquilibrium};
ghost use Rattle.og_small.specs.Report.{in_quotes, count_line, verdict, value_line, decision, gain, deviation_line, report};

use crate::deviations::{Deviation, choices_of, find_deviations};
use crate::pay::total;
use crate::{Line, Section, SmallGame};
use og_list::List;
use std::alloc::{AllocError, Global};

/// The report on a small game.
#[derive(Debug, Drop)]
pub struct Report {
    /// Whether there is no deviation: no agent gains by another action at one decision alone.
    pub is_equilibrium: bool,
    /// The lines to print.
    pub text: List<u8>,
}

/// Adds a number in decimal digits.
fn push_number(out: &mut List<u8>, alloc: Global, number: u128) -> Result<(), AllocError>
    ensures { OnOk result (out.new ≡ out.old ++ decimal number) }
{
    let digits = format!(in alloc; "{number}")?;
    out.extend_from_slice(digits.as_bytes())
}

/// Adds a text in double quotes.
fn push_quoted(out: &mut List<u8>, text: &[u8]) -> Result<(), AllocError>
    ensures { OnOk result (out.new ≡ out.old ++ in_quotes text.now) }
{
    out.extend_from_slice(b"\"")?;
    out.extend_from_slice(text)?;
    out.extend_from_slice(b"\"")
}

/// Adds how many deviations there are.
#[tactic(auto, unfolding(crate::specs::Report::count_line))]
fn push_count(out: &mut List<u8>, alloc: Global, count: u128) -> Result<(), AllocError>
    ensures { OnOk result (out.new ≡ out.old ++ count_line count) }
{
    out.extend_from_slice(b"deviations ")?;
    push_number(out, alloc, count)?;
    out.extend_from_slice(b"\n")?;
    Ok(())
}

/// Adds the first line.
fn push_verdict(out: &mut List<u8>, alloc: Global, count: u128) -> Result<(), AllocError>
    ensures { OnOk result (out.new ≡ out.old ++ verdict count) }
{
    if count == 0 {
        out.extend_from_slice(b"equilibrium\n")
    } else {
        push_count(out, alloc, count)
    }
}

/// Adds the line of an agent's total.
#[tactic(auto, unfolding(crate::specs::Report::value_line))]
fn push_value(
    out: &mut List<u8>,
    alloc: Global,
    game: &SmallGame,
    choices: &[List<u8>],
    agent: &[u8],
) -> Result<(), AllocError>
    ensures { OnOk result (out.new ≡ out.old ++ value_line game.now choices.now agent.now) }
{
    out.extend_from_slice(b"value ")?;
    push_quoted(out, agent)?;
    out.extend_from_slice(b" = ")?;
    push_number(out, alloc, total(game.lines.as_slice(), choices, agent))?;
    out.extend_from_slice(b"\n")
}

/// Adds who deviates, and where.
#[tactic(auto, unfolding(crate::specs::Report::decision))]
fn push_decision(out: &mut List<u8>, alloc: Global, one: &Deviation) -> Result<(), AllocError>
    ensures { OnOk result (out.new ≡ out.old ++ decision one.now) }
{
    out.extend_from_slice(b"decision ")?;
    push_number(out, alloc, u128::from(one.line))?;
    out.extend_from_slice(b" ")?;
    push_quoted(out, one.agent.as_slice())
}

/// Adds what the deviation gains, and the end of the line.
#[tactic(auto, unfolding(crate::specs::Report::gain))]
fn push_gain(out: &mut List<u8>, alloc: Global, one: &Deviation) -> Result<(), AllocError>
    ensures { OnOk result (out.new ≡ out.old ++ gain one.now) }
{
    out.extend_from_slice(b" gain ")?;
    push_number(out, alloc, one.gain)?;
    out.extend_from_slice(b"\n")
}

/// Adds the line of a deviation.
#[tactic(auto, unfolding(crate::specs::Report::deviation_line))]
fn push_deviation(out: &mut List<u8>, alloc: Global, one: &Deviation) -> Result<(), AllocError>
    ensures { OnOk result (out.new ≡ out.old ++ deviation_line one.now) }
{
    push_decision(out, alloc, one)?;
    out.extend_from_slice(b" at () play ")?;
    out.extend_from_slice(one.action.as_slice())?;
    push_gain(out, alloc, one)?;
    Ok(())
}

/// Whether one of the lines is the agent's.
fn has_agent(lines: &[Line], agent: &[u8]) -> bool
    ensures { result ≡ has_agent lines.now agent.now }
{
    lines.iter().any(|line| line.agent.as_slice() == agent)
}

/// Adds the line of each agent's total, in order of first appearance.
#[tactic(auto, using(crate::proofs::MeaningLemmas::agents_new, crate::proofs::MeaningLemmas::agents_known))]
fn push_values(
    out: &mut List<u8>,
    alloc: Global,
    game: &SmallGame,
    choices: &[List<u8>],
) -> Result<(), AllocError>
    ensures { OnOk result
        (out.new ≡ out.old ++ flat_map (value_line game.now choices.now) (agents game.now.lines)) }
{
    let lines = game.lines.as_slice();
    'lines: for i in 0..lines.len() {
        let line = &lines[i];
        if !has_agent(&lines[..i], line.agent.as_slice()) {
            push_value(out, alloc, game, choices, line.agent.as_slice())?;
        }
    }
    Ok(())
}

/// Adds the line of each deviation.
fn push_deviations(
    out: &mut List<u8>,
    alloc: Global,
    deviations: &[Deviation],
) -> Result<(), AllocError>
    ensures { OnOk result (out.new ≡ out.old ++ flat_map deviation_line deviations.now) }
{
    'deviations: for one in deviations {
        push_deviation(out, alloc, one)?;
    }
    Ok(())
}

/// The report on the game where the sections are played: the verdict, each agent's total in order of
/// first appearance, and each deviation with its gain. Where an agent has several lines, its total is
/// what it is paid at all of them, and a deviation changes one alone. On the prisoner's dilemma with
/// both at `Cooperate` the text is
///
/// ```text
/// deviations 2
/// value "player1" = 3
/// value "player2" = 3
/// decision 1 "player1" at () play Defect gain 2
/// decision 2 "player2" at () play Defect gain 2
/// ```
#[tactic(auto, using(crate::proofs::EquilibriumLemmas::is_equilibrium, crate::proofs::EquilibriumLemmas::no_deviation))]
pub fn report_on(
    alloc: Global,
    game: &SmallGame,
    sections: &[Section],
) -> Result<Report, AllocError>
    ensures text { IfOk result (λ made. made.text ≡ report game.now (choices_of sections.now)) }
    ensures verdict { IfOk result
        (λ made. IsTrue made.is_equilibrium ↔ (deviations game.now (choices_of sections.now) ≡ [])) }
    ensures equilibrium { IfOk result
        (λ made. IsTrue made.is_equilibrium ↔ IsEquilibrium game.now (choices_of sections.now)) }
{
    let choices = choices_of(alloc, sections)?;
    let deviations = find_deviations(alloc, game, choices.as_slice())?;
    let mut text = List::new(alloc);
    push_verdict(&mut text, alloc, deviations.len() as u128)?;
    push_values(&mut text, alloc, game, choices.as_slice())?;
    push_deviations(&mut text, alloc, deviations.as_slice())?;
    Ok(Report {
        is_equilibrium: deviations.is_empty(),
        text,
    })
}
