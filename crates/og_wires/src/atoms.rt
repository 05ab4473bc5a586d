//! Games without parts.
ghost use Rattle.std.specs.Prelude.{◌≡◌, ◌∷◌, [], IfOk};
ghost use Rattle.std.specs.Option.{option_copied};
ghost use Rattle.og_game.specs.Wired.{decision_ports, nature_ports, identity_ports};
ghost use Rattle.og_types.specs.Values.{AreSmall, IsSmall};
ghost use Rattle.og_typing.specs.Checked.{Walks};
ghost use Rattle.og_wires.specs.Atoms.{agent_named, agent_walk, among_if, actions_if, decision_walk, with_scale, nature_walk, no_params, function_results, forward_walk, backward_walk, identity_walk, ports_found, library_walk, game_named, call_fits, call_walk, FindsGame};
ghost use Rattle.og_wires.specs.Sites.{site_of};

use crate::arguments::walk_arguments;
use crate::kind::{DeclaredGame, GameKind, Level, Size};
use crate::rows::{Choice, actions_in, entries_in, walk_among, walk_choice, walk_weights};
use crate::sites::{Site, alone, called, with_lines};
use crate::wires::{Results, walk_results};
use og_game::{Origin, Stand, Variable};
use og_list::List;
use og_names::Names;
use og_native::Ports;
use og_syntax::{AgentTree, Among, ArgTree, NameTree, ParamTree, ResultTree, RowTree, TyTree};
use og_types::{Ty, copy_types};
use og_typing::{Given, Meaning, Params, Scope, WireFault, plus, walk_params, walk_types};
use std::alloc::{AllocError, Global};

// ---- decisions and natures

fn agent_named(at: u32, found: Option<&Given>) -> Result<(), WireFault>
    ensures { Walks (agent_named at (option_copied found.entry)) result }
{
    match found {
        Some(Given::Agent) => Ok(()),
        _ => Err(WireFault::Unknown(at)),
    }
}

/// An agent is written, or is a parameter that stands for one.
fn walk_agent(agent: &AgentTree, params: &Names<Given>) -> Result<(), WireFault>
    ensures { Walks (agent_walk params.now agent.now) result }
{
    match agent {
        AgentTree::Quoted(..) => Ok(()),
        AgentTree::Var(at, name) => agent_named(*at, params.get(name.as_str())),
    }
}

fn walk_among_if(
    alloc: Global,
    among: &Option<Among>,
    choice: &Choice,
    declared: &Names<Meaning>,
) -> Result<(), WireFault>
    requires observed { AreSmall choice.now.observes }
    requires chosen { IsSmall choice.now.chosen }
    ensures { Walks (among_if declared.now choice.now among.now) result }
{
    match among {
        Some(among) => walk_among(alloc, among, choice, declared),
        None => Ok(()),
    }
}

fn actions_if(among: &Option<Among>) -> u32
    ensures { result ≡ actions_if among.now }
{
    match among {
        Some(among) => actions_in(among),
        None => 0,
    }
}

/// A list of one type.
pub(crate) fn one(alloc: Global, ty: Ty) -> Result<List<Ty>, AllocError>
    ensures { IfOk result (λ types. types ≡ ty ∷ []) }
{
    let mut types = List::new(alloc);
    types.add(ty)?;
    Ok(types)
}

fn decision_ports(alloc: Global, choice: Choice) -> Result<Ports, AllocError>
    ensures { IfOk result (λ ports. ports ≡ decision_ports choice.observes choice.chosen) }
{
    let Choice { observes, chosen } = choice;
    Ok(Ports {
        inputs: observes,
        feedback: List::new(alloc),
        outputs: one(alloc, chosen)?,
        returns: one(alloc, Ty::Number)?,
    })
}

/// A decision: who decides, what is observed and what is chosen, and what is allowed.
pub(crate) fn walk_decision(
    alloc: Global,
    at: u32,
    agent: &AgentTree,
    observes: &List<TyTree>,
    action: &TyTree,
    among: &Option<Among>,
    site: &Site<'_>,
    level: Level,
) -> Result<GameKind, WireFault>
    ensures { Walks (decision_walk (site_of site.now) level at agent.now observes.now action.now among.now) result }
{
    walk_agent(agent, site.around.given)?;
    let choice = walk_choice(alloc, at, observes, action, site.around.declared)?;
    walk_among_if(alloc, among, &choice, site.around.declared)?;
    Ok(GameKind {
        ports: decision_ports(alloc, choice)?,
        size: with_lines(1, actions_if(among), alone(level)),
    })
}

fn nature_ports(alloc: Global, choice: Choice) -> Result<Ports, AllocError>
    ensures { IfOk result (λ ports. ports ≡ nature_ports choice.observes choice.chosen) }
{
    let Choice { observes, chosen } = choice;
    Ok(Ports {
        inputs: observes,
        feedback: List::new(alloc),
        outputs: one(alloc, chosen)?,
        returns: List::new(alloc),
    })
}

fn with_scale(scale: u64, size: Size) -> Size
    ensures { result ≡ with_scale scale size }
{
    Size { scale, ..size }
}

/// A nature: what is observed and what is drawn, and its rows.
pub(crate) fn walk_nature(
    alloc: Global,
    at: u32,
    observes: &List<TyTree>,
    outcome: &TyTree,
    rows: &List<RowTree>,
    site: &Site<'_>,
    level: Level,
) -> Result<GameKind, WireFault>
    ensures { Walks (nature_walk (site_of site.now) level at observes.now outcome.now rows.now) result }
{
    let choice = walk_choice(alloc, at, observes, outcome, site.around.declared)?;
    let scale = walk_weights(alloc, at, rows, &choice, site.around.declared)?;
    Ok(GameKind {
        ports: nature_ports(alloc, choice)?,
        size: with_scale(scale, with_lines(1, entries_in(rows), alone(level))),
    })
}

// ---- functions and wires

/// No variable, and no parameter.
pub(crate) fn no_params(alloc: Global) -> Params
    ensures { result ≡ no_params }
{
    Params {
        variables: Names::new(alloc),
        types: List::new(alloc),
    }
}

/// The results of a function of the variables.
fn walk_function(
    alloc: Global,
    variables: &Names<Variable>,
    results: &List<ResultTree>,
    site: &Site<'_>,
    level: Level,
) -> Result<Results, WireFault>
    ensures { Walks (function_results (site_of site.now) level variables.now results.now) result }
{
    let hidden = Names::new(alloc);
    let scope = Scope {
        declared: site.around.declared,
        given: site.around.given,
        variables,
        hidden: &hidden,
        stand: Stand::Anywhere,
    };
    walk_results(alloc, results, false, &scope, alone(level))
}

/// Expressions of what comes forwards.
pub(crate) fn walk_forward(
    alloc: Global,
    params: &List<ParamTree>,
    results: &List<ResultTree>,
    site: &Site<'_>,
    level: Level,
) -> Result<GameKind, WireFault>
    ensures { Walks (forward_walk (site_of site.now) level params.now results.now) result }
{
    let none = no_params(alloc);
    let Params { variables, types } = walk_params(
        alloc,
        params,
        &site.around,
        Origin::Input,
        none,
    )?;
    let made = walk_function(alloc, &variables, results, site, level)?;
    Ok(GameKind {
        ports: Ports {
            inputs: types,
            feedback: List::new(alloc),
            outputs: made.types,
            returns: List::new(alloc),
        },
        size: made.size,
    })
}

/// Expressions of what comes backwards.
pub(crate) fn walk_backward(
    alloc: Global,
    params: &List<ParamTree>,
    results: &List<ResultTree>,
    site: &Site<'_>,
    level: Level,
) -> Result<GameKind, WireFault>
    ensures { Walks (backward_walk (site_of site.now) level params.now results.now) result }
{
    let none = no_params(alloc);
    let Params { variables, types } = walk_params(
        alloc,
        params,
        &site.around,
        Origin::Input,
        none,
    )?;
    let made = walk_function(alloc, &variables, results, site, level)?;
    Ok(GameKind {
        ports: Ports {
            inputs: List::new(alloc),
            feedback: made.types,
            outputs: List::new(alloc),
            returns: types,
        },
        size: made.size,
    })
}

fn identity_ports(alloc: Global, forward: List<Ty>, backward: List<Ty>) -> Result<Ports, AllocError>
    ensures { IfOk result (λ ports. ports ≡ identity_ports forward backward) }
{
    Ok(Ports {
        inputs: copy_types(alloc, &forward)?,
        feedback: copy_types(alloc, &backward)?,
        outputs: forward,
        returns: backward,
    })
}

/// Wires that pass.
pub(crate) fn walk_identity(
    alloc: Global,
    forward: &List<TyTree>,
    backward: &List<TyTree>,
    site: &Site<'_>,
    level: Level,
) -> Result<GameKind, WireFault>
    ensures { Walks (identity_walk (site_of site.now) level forward.now backward.now) result }
{
    let forwards = walk_types(alloc, forward, site.around.declared)?;
    let backwards = walk_types(alloc, backward, site.around.declared)?;
    Ok(GameKind {
        ports: identity_ports(alloc, forwards, backwards)?,
        size: alone(level),
    })
}

// ---- the library

fn ports_found(alloc: Global, at: u32, found: Option<&Ports>) -> Result<Ports, WireFault>
    ensures { Walks (ports_found at (option_copied found.entry)) result }
{
    match found {
        Some(ports) => Ok(ports.copy(alloc)?),
        None => Err(WireFault::Unknown(at)),
    }
}

/// A block of the library.
pub(crate) fn walk_library(
    alloc: Global,
    name: &NameTree,
    site: &Site<'_>,
    level: Level,
) -> Result<GameKind, WireFault>
    ensures { Walks (library_walk (site_of site.now) level name.now) result }
{
    let found = site.blocks.get(name.name.as_str());
    Ok(GameKind {
        ports: ports_found(alloc, name.at, found)?,
        size: with_lines(1, 0, alone(level)),
    })
}

// ---- calls

/// The game that the name stands for.
fn game_named<'a>(
    at: u32,
    games: &'a List<DeclaredGame>,
    found: Option<&Meaning>,
) -> Result<&'a DeclaredGame, WireFault>
    ensures { FindsGame (game_named at games.now (option_copied found.entry)) result }
{
    match found {
        Some(Meaning::Game(number)) => match games.get(*number as usize) {
            Some(game) => Ok(game),
            None => Err(WireFault::Unknown(at)),
        },
        _ => Err(WireFault::Unknown(at)),
    }
}

/// The body is neither too deep nor inside too many branches there, and has as many parameters.
fn call_fits(at: u32, level: Level, game: &DeclaredGame, count: usize) -> Result<(), WireFault>
    ensures { Walks (call_fits at level game.now count) result }
{
    if plus(level.depth, game.kind.size.deep) > 49 {
        return Err(WireFault::TooBig(at));
    }
    if plus(level.inside, game.kind.size.nested) > 16 {
        return Err(WireFault::TooBig(at));
    }
    if count != game.params.len() {
        return Err(WireFault::WrongCount(at));
    }
    Ok(())
}

/// A declared game, with arguments.
pub(crate) fn walk_call(
    alloc: Global,
    at: u32,
    name: &str,
    args: &List<ArgTree>,
    site: &Site<'_>,
    level: Level,
) -> Result<GameKind, WireFault>
    ensures { Walks (call_walk (site_of site.now) level at name.now args.now) result }
{
    let game = game_named(at, site.games, site.around.declared.get(name))?;
    call_fits(at, level, game, args.len())?;
    walk_arguments(
        alloc,
        args,
        &game.params,
        site.around.declared,
        site.around.given,
    )?;
    Ok(GameKind {
        ports: game.kind.ports.copy(alloc)?,
        size: called(level, game.kind.size),
    })
}
