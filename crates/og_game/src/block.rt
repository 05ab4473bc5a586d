//! The ports of blocks.
ghost use Rattle.std.specs.Prelude.{◌≡◌, ◌+◌, ◌++◌, map, length, IfOk};
ghost use Rattle.og_game.specs.declared.node.GameNodeOf.TheVariants as GameNodeOf;
ghost use Rattle.og_game.specs.Plans.{plan_of};
ghost use Rattle.og_game.specs.Levels.{block_with, line_with};
ghost use Rattle.og_game.specs.Scopes.{from, lines_variables, block_variables};
ghost use Rattle.og_game.specs.Wired.{ports_of, number_if, are_variables, goes_with, behind, are_lines, is_block, block_ports};

use crate::atoms::{ports_if, written};
use crate::node::{Block, Line};
use crate::scope::{Origin, Seen, Stand, Variable, all_go, are_results};
use crate::types::are_wires;
use og_list::List;
use og_native::Ports;
use og_types::{Ty, copy_types};
use std::alloc::{AllocError, Global};

/// The variables, and one more for each type.
fn with_types(
    alloc: Global,
    variables: List<Variable>,
    types: &List<Ty>,
    origin: Origin,
) -> Result<List<Variable>, AllocError>
    ensures { IfOk result (λ all. all ≡ variables ++ map (from origin) types.now) }
{
    let mut all = variables;
    'types: for ty in types.as_slice() {
        all.add(Variable {
            ty: ty.copy(alloc)?,
            origin,
        })?;
    }
    Ok(all)
}

/// The variables, and those of the lines.
fn with_lines(
    alloc: Global,
    variables: List<Variable>,
    lines: &List<Line>,
) -> Result<List<Variable>, AllocError>
    ensures { IfOk result (λ all. all ≡ variables ++ lines_variables 0 (map (line_with ports_of) lines.now)) }
{
    let mut all = variables;
    'lines: for (k, line) in lines.as_slice().iter().enumerate() {
        let ports = line.operation.ports();
        all = with_types(alloc, all, &ports.feedback, Origin::Feedback(k))?;
        all = with_types(alloc, all, &ports.outputs, Origin::Output(k))?;
    }
    Ok(all)
}

/// The block's variables, by their numbers.
fn variables(alloc: Global, block: &Block) -> Result<List<Variable>, AllocError>
    ensures { IfOk result (λ all. all ≡ block_variables (block_with ports_of block.now)) }
{
    let all = with_types(alloc, List::new(alloc), &block.inputs, Origin::Input)?;
    let all = with_lines(alloc, all, &block.lines)?;
    with_types(alloc, all, &block.returns, Origin::Return)
}

/// The number behind the variables', where these are the next ones, one for each type.
fn next_variable(n: usize, numbers: &List<u32>, types: &List<Ty>) -> Option<usize>
    ensures { result ≡ number_if (are_variables n numbers.now types.now) (n + length types.now) }
{
    if numbers.len() != types.len() {
        return None;
    }
    let mut next = n;
    'numbers: for number in numbers.as_slice() {
        if *number as usize != next {
            return None;
        }
        next += 1;
    }
    Some(next)
}

/// The number behind the line's variables, where the line goes with its operation.
fn line_end(variables: &List<Variable>, k: usize, n: usize, line: &Line) -> Option<usize>
    ensures { result ≡ number_if (goes_with variables.now k n line.now (ports_of line.now.operation))
        (behind n (ports_of line.now.operation)) }
{
    let ports = line.operation.ports();
    let before = Seen {
        variables,
        stand: Stand::Before(k),
    };
    let behind = Seen {
        variables,
        stand: Stand::Behind(k),
    };
    if !all_go(&before, &line.inputs, &ports.inputs) {
        return None;
    }
    let middle = next_variable(n, &line.feedback, &ports.feedback)?;
    let end = next_variable(middle, &line.outputs, &ports.outputs)?;
    if all_go(&behind, &line.returns, &ports.returns) {
        Some(end)
    } else {
        None
    }
}

fn are_lines(variables: &List<Variable>, n: usize, lines: &List<Line>) -> bool
    ensures { result ≡ are_lines variables.now 0 n (map (line_with ports_of) lines.now) }
{
    let mut next = n;
    'lines: for (k, line) in lines.as_slice().iter().enumerate() {
        match line_end(variables, k, next, line) {
            Some(end) => next = end,
            None => return false,
        }
    }
    true
}

/// Whether the block's lines go with their operations, and what it gives goes as the written types.
fn is_block(variables: &List<Variable>, block: &Block) -> bool
    ensures { result ≡ is_block variables.now (length block.now.lines) (block_with ports_of block.now) }
{
    let outputs = Seen {
        variables,
        stand: Stand::Before(block.lines.len()),
    };
    let feedback = Seen {
        variables,
        stand: Stand::Anywhere,
    };
    let inputs = are_wires(&block.inputs);
    let returns = are_wires(&block.returns);
    let lines = are_lines(variables, block.inputs.len(), &block.lines);
    let forwards = are_results(&outputs, &block.outputs);
    let backwards = are_results(&feedback, &block.feedback);
    ((inputs & returns) & lines) & (forwards & backwards)
}

fn ports(alloc: Global, block: &Block) -> Result<Ports, AllocError>
    ensures { IfOk result (λ ports. ports ≡ block_ports block.now) }
{
    Ok(Ports {
        inputs: copy_types(alloc, &block.inputs)?,
        feedback: written(alloc, &block.feedback)?,
        outputs: written(alloc, &block.outputs)?,
        returns: copy_types(alloc, &block.returns)?,
    })
}

/// The block's ports, where it is well wired.
#[tactic(auto, using(crate::proofs::Forms::block_node))]
pub(crate) fn ports_of_block(alloc: Global, block: &Block) -> Result<Option<Ports>, AllocError>
    ensures { IfOk result (λ found. found ≡ ports_of (plan_of (GameNodeOf.Block block.now))) }
{
    let variables = variables(alloc, block)?;
    let holds = is_block(&variables, block);
    Ok(ports_if(holds, ports(alloc, block)?))
}
