//! Decisions and natures with their numbers.
ghost use Rattle.std.specs.Prelude.{◌≡◌, IfOk};
ghost use Rattle.og_inlining.specs.Steps.{Gives};
ghost use Rattle.og_elaboration.specs.Numbers.{with_agent_of, decided_at, decided, drawn_next, decision_in, decision_made, nature_made};

use crate::arguments::agent_named;
use crate::given::Given;
use crate::state::{Decided, Made, State};
use og_atoms::{decision, nature};
use og_expr::BuildFault;
use og_list::List;
use og_names::Names;
use og_syntax::{AgentTree, Among, RowTree, TyTree};
use og_typing::Meaning;
use std::alloc::{AllocError, Global};

/// The agents in order, with this one, if it is new.
fn with_agent_of(alloc: Global, name: &str, mut agents: Names<()>) -> Result<Names<()>, AllocError>
    ensures { IfOk result (λ made. made ≡ with_agent_of name.now agents) }
{
    if !agents.has(name) {
        agents.insert(alloc, name, ())?;
    }
    Ok(agents)
}

/// The next decision, of the agent at the place.
fn decided_at(
    decisions: u32,
    natures: u32,
    agents: Names<()>,
    owners: List<u32>,
    place: Option<usize>,
) -> Result<Decided, BuildFault>
    ensures { Gives (decided_at decisions natures owners agents place) result }
{
    let mut owners = owners;
    match place {
        Some(agent) if decisions < 4_294_967_295 && agent < 1 << 32 => {
            let agent = agent as u32;
            owners.add(agent)?;
            Ok(Decided {
                agent,
                state: State {
                    decisions: decisions + 1,
                    natures,
                    agents,
                    owners,
                },
            })
        }
        _ => Err(BuildFault::BadType),
    }
}

/// The next decision, of the agent with the name.
fn decided(alloc: Global, name: &str, state: State) -> Result<Decided, BuildFault>
    ensures { Gives (decided name.now state) result }
{
    let State {
        decisions,
        natures,
        agents,
        owners,
    } = state;
    let agents = with_agent_of(alloc, name, agents)?;
    let place = agents.place(name);
    decided_at(decisions, natures, agents, owners, place)
}

/// The next nature.
fn drawn_next(state: State) -> Result<State, BuildFault>
    ensures { Gives (drawn_next state) result }
{
    if state.natures >= 4_294_967_295 {
        return Err(BuildFault::BadType);
    }
    Ok(State {
        natures: state.natures + 1,
        ..state
    })
}

/// The decision that was numbered.
#[tactic(auto, unfolding(crate::specs::Numbers::decision_in))]
fn decision_in(
    alloc: Global,
    observes: &List<TyTree>,
    action: &TyTree,
    among: &Option<Among>,
    declared: &Names<Meaning>,
    next: Decided,
) -> Result<Made, BuildFault>
    ensures { Gives (decision_in declared.now next observes.now action.now among.now) result }
{
    let Decided { agent, state } = next;
    let number = state.decisions;
    let game = decision(alloc, number, agent, observes, action, among, declared)?;
    Ok(Made { game, state })
}

/// The next decision, in a game whose parameters stand for `given`. BadType comes exactly where its agent is no agent's
/// parameter, there are 2^32 - 1 decisions before it or 2^32 agents, something in it stands for nothing, or it isn't well wired.
#[tactic(auto, unfolding(crate::specs::Numbers::decision_made))]
pub fn decision_made(
    alloc: Global,
    agent: &AgentTree,
    observes: &List<TyTree>,
    action: &TyTree,
    among: &Option<Among>,
    declared: &Names<Meaning>,
    given: &Given,
    state: State,
) -> Result<Made, BuildFault>
    ensures { Gives (decision_made declared.now given.now state agent.now observes.now action.now among.now) result }
{
    let name = agent_named(alloc, agent, given)?;
    let next = decided(alloc, name.as_str(), state)?;
    decision_in(alloc, observes, action, among, declared, next)
}

/// The next nature, whose weights are in so many parts of one. BadType comes exactly where there are 2^32 - 1 natures before it,
/// something in it stands for nothing, or it isn't well wired.
#[tactic(auto, unfolding(crate::specs::Numbers::nature_made))]
pub fn nature_made(
    alloc: Global,
    observes: &List<TyTree>,
    outcome: &TyTree,
    scale: u64,
    rows: &List<RowTree>,
    declared: &Names<Meaning>,
    state: State,
) -> Result<Made, BuildFault>
    ensures { Gives (nature_made declared.now state observes.now outcome.now scale rows.now) result }
{
    let state = drawn_next(state)?;
    let game = nature(
        alloc,
        state.natures,
        observes,
        outcome,
        scale,
        rows,
        declared,
    )?;
    Ok(Made { game, state })
}
