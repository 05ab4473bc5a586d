//! What is found of blocks beside their operations.
ghost use Rattle.std.specs.Prelude.{◌≡◌, map, length};
ghost use Rattle.std.specs.Option.{option_copied};
ghost use Rattle.og_typing.specs.Checked.{Walks};
ghost use Rattle.og_wires.specs.Sites.{site_of};
ghost use Rattle.og_wires.specs.Levels.{line_with, block_with};
ghost use Rattle.og_wires.specs.Games.{part_of, block_start, inputs_handed, line_named, named_ports, lines_back, line_back, outputs_made, returns_made, outer_pass, feedback_made, second_pass, block_rest};

use crate::atoms::no_params;
use crate::kind::{GameKind, Level, Size};
use crate::place::game_at;
use crate::sites::{Site, alone, with_part};
use crate::wires::{Handed, Results, backward_names, takes, walk_handed, walk_names, walk_results};
use og_game::{Origin, Stand, Variable};
use og_list::List;
use og_names::Names;
use og_native::Ports;
use og_syntax::{BlockTree, LineTree, ResultTree};
use og_types::Ty;
use og_typing::{Params, Scope, WireFault, walk_params};
use std::alloc::Global;

/// What was found of the lines of a block, up to some line.
#[derive(Drop)]
pub struct Lines {
    /// The block's variables.
    pub variables: Names<Variable>,
    /// What each line's operation wants back.
    pub returns: List<List<Ty>>,
    /// How large the block is up to there.
    pub size: Size,
}

/// What a block's first pass finds.
#[derive(Drop)]
pub struct Forwards {
    /// The types of the inputs.
    pub inputs: List<Ty>,
    /// What each line's operation wants back.
    pub wanted: List<List<Ty>>,
    /// The types of the outputs.
    pub outputs: List<Ty>,
    /// All variables, and the types of the returns.
    pub back: Params,
    /// How large the block is up to there.
    pub size: Size,
}

/// What is known of a block before its lines.
#[derive(Drop)]
pub struct Start {
    /// The names that come backwards.
    pub hidden: Names<()>,
    /// The types of the inputs.
    pub inputs: List<Ty>,
    /// No line yet, and the inputs as variables.
    pub lines: Lines,
}

/// The inputs of a block, and the names that come backwards in it.
#[tactic(auto, using(crate::proofs::Walked::backwards))]
pub(crate) fn walk_start(
    alloc: Global,
    block: &BlockTree,
    site: &Site<'_>,
    level: Level,
) -> Result<Start, WireFault>
    ensures { Walks (block_start (site_of site.now) level (block_with part_of block.now)) result }
{
    let hidden = backward_names(alloc, &block.lines, &block.returns)?;
    let none = no_params(alloc);
    let outer = walk_params(alloc, &block.inputs, &site.around, Origin::Input, none)?;
    let Params { variables, types } = outer;
    Ok(Start {
        hidden,
        inputs: types,
        lines: Lines {
            variables,
            returns: List::new(alloc),
            size: alone(level),
        },
    })
}

/// What is handed to the operation of the line with the number.
pub(crate) fn hand_over(
    alloc: Global,
    line: &LineTree,
    site: &Site<'_>,
    hidden: &Names<()>,
    k: usize,
    before: &Lines,
) -> Result<Handed, WireFault>
    ensures { Walks (inputs_handed (site_of site.now) hidden.now k before.now line.now.inputs) result }
{
    let scope = Scope {
        declared: site.around.declared,
        given: site.around.given,
        variables: &before.variables,
        hidden,
        stand: Stand::Before(k),
    };
    walk_handed(alloc, &line.inputs, &scope, before.size)
}

/// The names of what goes back from an operation with these ports, and of what comes out of it.
fn name_ports(
    alloc: Global,
    at: u32,
    line: &LineTree,
    ports: &Ports,
    site: &Site<'_>,
    k: usize,
    variables: Names<Variable>,
) -> Result<Names<Variable>, WireFault>
    ensures { Walks (named_ports (site_of site.now) at k ports.now variables line.now.feedback line.now.outputs) result }
{
    let back = walk_names(
        alloc,
        &site.around,
        at,
        Origin::Feedback(k),
        &ports.feedback,
        &line.feedback,
        variables,
    )?;
    walk_names(
        alloc,
        &site.around,
        at,
        Origin::Output(k),
        &ports.outputs,
        &line.outputs,
        back,
    )
}

/// With one line more: its operation takes what is handed over, and gives what has names.
pub(crate) fn name_line(
    alloc: Global,
    line: &LineTree,
    site: &Site<'_>,
    k: usize,
    before: Lines,
    handed: Handed,
    found: GameKind,
) -> Result<Lines, WireFault>
    ensures { Walks (line_named (site_of site.now) k before handed found (line_with part_of line.now)) result }
{
    let at = game_at(&line.operation);
    let GameKind { ports, size } = found;
    takes(at, &ports.inputs, &handed.items)?;
    let Lines {
        variables,
        mut returns,
        ..
    } = before;
    let variables = name_ports(alloc, at, line, &ports, site, k, variables)?;
    returns.add(ports.returns)?;
    Ok(Lines {
        variables,
        returns,
        size: with_part(handed.size, size),
    })
}

/// The outputs of a block with these lines.
fn make_outputs(
    alloc: Global,
    block: &BlockTree,
    site: &Site<'_>,
    hidden: &Names<()>,
    lines: &Lines,
) -> Result<Results, WireFault>
    ensures { Walks (outputs_made (site_of site.now) hidden.now lines.now (block_with part_of block.now)) result }
{
    let scope = Scope {
        declared: site.around.declared,
        given: site.around.given,
        variables: &lines.variables,
        hidden,
        stand: Stand::Before(lines.returns.len()),
    };
    walk_results(alloc, &block.outputs, true, &scope, lines.size)
}

/// The returns of a block with inputs of these types, these lines and these outputs.
fn make_returns(
    alloc: Global,
    block: &BlockTree,
    site: &Site<'_>,
    inputs: List<Ty>,
    lines: Lines,
    made: Results,
) -> Result<Forwards, WireFault>
    ensures { Walks (returns_made (site_of site.now) inputs lines made (block_with part_of block.now)) result }
{
    let start = Params {
        variables: lines.variables,
        types: List::new(alloc),
    };
    let back = walk_params(alloc, &block.returns, &site.around, Origin::Return, start)?;
    Ok(Forwards {
        inputs,
        wanted: lines.returns,
        outputs: made.types,
        back,
        size: made.size,
    })
}

/// Behind the lines of a block with inputs of these types, its outputs and its returns.
fn walk_outer(
    alloc: Global,
    block: &BlockTree,
    site: &Site<'_>,
    hidden: &Names<()>,
    inputs: List<Ty>,
    lines: Lines,
) -> Result<Forwards, WireFault>
    ensures { Walks (outer_pass (site_of site.now) hidden.now inputs lines (block_with part_of block.now)) result }
{
    let made = make_outputs(alloc, block, site, hidden, &lines)?;
    make_returns(alloc, block, site, inputs, lines, made)
}

/// What is handed back to a line's operation, which takes that.
fn hand_back(
    alloc: Global,
    line: &LineTree,
    site: &Site<'_>,
    variables: &Names<Variable>,
    wanted: Option<&List<Ty>>,
    k: usize,
    size: Size,
) -> Result<Size, WireFault>
    ensures { Walks (line_back (site_of site.now) variables.now (option_copied wanted.entry) k size (line_with part_of line.now)) result }
{
    let hidden = Names::new(alloc);
    let scope = Scope {
        declared: site.around.declared,
        given: site.around.given,
        variables,
        hidden: &hidden,
        stand: Stand::Behind(k),
    };
    let handed = walk_handed(alloc, &line.returns, &scope, size)?;
    let at = game_at(&line.operation);
    match wanted {
        Some(types) => takes(at, types, &handed.items)?,
        None => return Err(WireFault::WrongCount(at)),
    }
    Ok(handed.size)
}

fn walk_lines_back(
    alloc: Global,
    lines: &List<LineTree>,
    site: &Site<'_>,
    variables: &Names<Variable>,
    wanted: &List<List<Ty>>,
    mut size: Size,
) -> Result<Size, WireFault>
    ensures { Walks (lines_back (site_of site.now) variables.now wanted.now 0 size (map (line_with part_of) lines.now)) result }
{
    'lines: for (k, line) in lines.as_slice().iter().enumerate() {
        size = hand_back(alloc, line, site, variables, wanted.get(k), k, size)?;
    }
    Ok(size)
}

/// What goes back from a block.
fn make_feedback(
    alloc: Global,
    feedback: &List<ResultTree>,
    site: &Site<'_>,
    variables: &Names<Variable>,
    size: Size,
) -> Result<Results, WireFault>
    ensures { Walks (feedback_made (site_of site.now) variables.now size feedback.now) result }
{
    let hidden = Names::new(alloc);
    let scope = Scope {
        declared: site.around.declared,
        given: site.around.given,
        variables,
        hidden: &hidden,
        stand: Stand::Anywhere,
    };
    walk_results(alloc, feedback, true, &scope, size)
}

/// The second pass over a block: what goes back from it, and what is handed back to each line.
fn walk_second(
    alloc: Global,
    block: &BlockTree,
    site: &Site<'_>,
    found: Forwards,
) -> Result<GameKind, WireFault>
    ensures { Walks (second_pass (site_of site.now) found (block_with part_of block.now)) result }
{
    let Forwards {
        inputs,
        wanted,
        outputs,
        back,
        size,
    } = found;
    let Params { variables, types } = back;
    let made = make_feedback(alloc, &block.feedback, site, &variables, size)?;
    let size = walk_lines_back(alloc, &block.lines, site, &variables, &wanted, made.size)?;
    Ok(GameKind {
        ports: Ports {
            inputs,
            feedback: made.types,
            outputs,
            returns: types,
        },
        size,
    })
}

/// What stands behind the lines of a block, and its second pass.
pub(crate) fn walk_rest(
    alloc: Global,
    block: &BlockTree,
    site: &Site<'_>,
    hidden: Names<()>,
    inputs: List<Ty>,
    lines: Lines,
) -> Result<GameKind, WireFault>
    ensures { Walks (block_rest (site_of site.now) hidden inputs lines (block_with part_of block.now)) result }
{
    let found = walk_outer(alloc, block, site, &hidden, inputs, lines)?;
    walk_second(alloc, block, site, found)
}
