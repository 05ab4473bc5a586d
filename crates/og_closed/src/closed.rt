ghost use Rattle.std.specs.Prelude.{◌≡◌, IfOk};

use og_game::{Game, Plan};
use og_list::{List, Text};
use og_types::Enums;
use std::alloc::{AllocError, Global};
use std::marker::Model;

/// A closed game as contracts see it.
pub struct ClosedPlan {
    /// The game.
    pub game: Plan,
    /// The names of its enums and their cases.
    pub enums: Enums,
    /// The names of its agents, in order of first appearance among the decisions.
    pub agents: List<Text>,
    /// The agent's place among these, for each decision in flat order.
    pub owners: List<u32>,
}

/// A game without ports, with the names of its enums and agents.
#[derive(Drop)]
pub struct Closed {
    /// The game.
    pub game: Game,
    /// The names of its enums and their cases.
    pub enums: Enums,
    /// The names of its agents, in order of first appearance among the decisions.
    pub agents: List<Text>,
    /// The agent's place among these, for each decision in flat order.
    pub owners: List<u32>,
}

impl Model for Closed {
    ghost use Rattle.std.specs.Coded.{codes};
    ghost use Rattle.og_closed.specs.contracts.closed.ClosedPlan as closed;
    ghost use Rattle.og_closed.specs.declared.closed.ClosedPlan.{ClosedPlan};

    ghost Value = { ClosedPlan };

    ghost coded = { Prim.hlevel (codes, closed.the_row.coded) };

    ghost use Rattle.og_closed.specs.Closed.{IsClosed, closed_of};

    ghost view = { λ c. closed_of c.game c.enums c.agents c.owners };

    ghost invariant = { λ c. IsClosed (closed_of c.game c.enums c.agents c.owners) };
}

fn copy_names(alloc: Global, names: &List<Text>) -> Result<List<Text>, AllocError>
    ensures { IfOk result (λ made. made ≡ names.now) }
{
    let mut all = List::new(alloc);
    'names: for name in names.as_slice() {
        all.add(name.copy(alloc)?)?;
    }
    Ok(all)
}

impl Closed {
    ghost use Rattle.std.specs.Prelude.{◌≡◌, IfOk};
    ghost use Rattle.std.specs.Option.{option_copied};
    ghost use Rattle.og_game.specs.Choices.{allowed_of};
    ghost use Rattle.og_closed.specs.Closed.{IsClosed, closed_of};

    /// The closed game of these parts.
    pub fn make(game: Game, enums: Enums, agents: List<Text>, owners: List<u32>) -> Closed
        requires { IsClosed (closed_of game enums agents owners) }
        ensures { result ≡ closed_of game enums agents owners }
    {
        Closed {
            game,
            enums,
            agents,
            owners,
        }
    }

    /// An equal closed game, in memory of its own.
    pub fn copy(&self, alloc: Global) -> Result<Closed, AllocError>
        ensures { IfOk result (λ made. made ≡ self.now) }
    {
        let game = self.game.copy(alloc)?;
        let enums = self.enums.copy(alloc)?;
        let agents = copy_names(alloc, &self.agents)?;
        let owners = List::from_slice(alloc, self.owners.as_slice())?;
        Ok(Closed {
            game,
            enums,
            agents,
            owners,
        })
    }

    /// The ranks of the actions, ascending, that the decision with the number `d` allows at the observation of the joint
    /// rank `seen`. `None` where there is no such decision or no such observation. It takes no memory.
    pub fn allowed(&self, d: u32, seen: u32) -> Option<&[u32]>
        ensures { option_copied result ≡ allowed_of d seen self.now.game }
    {
        self.game.allowed(d, seen)
    }

    /// What a closed game keeps. This does nothing: its clause is what it says.
    pub fn kept(&self)
        ensures { IsClosed self.now }
    {
        let _game = &self.game;
    }
}
