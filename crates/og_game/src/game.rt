use crate::allowed::answer;
use crate::copy::copy;
use crate::node::{GameNode, GameNodeOf, Plan};
use og_list::List;
use og_native::Ports;
use std::alloc::{AllocError, Global};
use std::marker::Model;

/// Why a form doesn't make a game.
#[derive(Clone, Copy, Debug, PartialEq, Eq)]
pub enum GameFault {
    /// The form's types, variables, ports or rows aren't as its rule asks.
    BadWiring,
    /// There was no memory.
    Memory,
}

/// A well wired game. Contracts see it as its form over games, whose ports are told by the form alone.
#[derive(Drop)]
pub struct Game {
    /// The outermost form.
    pub node: GameNodeOf<Game>,
    pub(crate) ports: Ports,
    pub(crate) decisions: u32,
    /// Of a decision without sets the ranks of its actions.
    pub(crate) all: List<u32>,
}

impl Model for Game {
    ghost use Rattle.std.specs.Prelude.{◌≡◌, Some};
    ghost use Rattle.std.specs.Coded.{codes};
    ghost use Rattle.og_game.specs.contracts.node.Plan as plan;
    ghost use Rattle.og_game.specs.declared.node.Plan.{Plan, size-Plan};

    ghost Value = { Plan };

    ghost coded = { Prim.hlevel (codes, plan.the_row.coded) };

    ghost use Rattle.og_game.specs.Plans.{plan_of};
    ghost use Rattle.og_expr.specs.Counts.{capped};
    ghost use Rattle.og_game.specs.Wired.{ports_of};
    ghost use Rattle.og_game.specs.Counts.{decisions_in};
    ghost use Rattle.og_game.specs.Choices.{all_of};

    ghost view = { λ g. plan_of g.node };

    ghost invariant = { λ g. (ports_of (plan_of g.node) ≡ Some g.ports)
        × (g.decisions ≡ capped (decisions_in (plan_of g.node))) × (g.all ≡ all_of (plan_of g.node)) };

    ghost size = { size-Plan };

    ghost use Rattle.std.proofs.Common.{arith};
    ghost use Rattle.og_list.specs.laws.Weights.{weight_more};
    ghost use Rattle.og_game.specs.declared.game.Game.TheShapes.{weighed-Game-node};
    ghost use Rattle.og_game.specs.declared.node.Plan.TheViews.{size_roll-Plan};

    ghost size_decreases = { λ a h. omega (arith, size_roll-Plan (record { node = a.node }), weight_more weighed-Game-node size-Plan a.node) };
}

impl Game {
    ghost use Rattle.std.specs.Prelude.{◌≡◌, Some, IfOk};
    ghost use Rattle.std.specs.Option.{option_copied};
    ghost use Rattle.og_expr.specs.Counts.{capped};
    ghost use Rattle.og_game.specs.Plans.{plan_of};
    ghost use Rattle.og_game.specs.Wired.{ports_of};
    ghost use Rattle.og_game.specs.Counts.{decisions_in};
    ghost use Rattle.og_game.specs.Choices.{allowed_of};

    /// The game's ports.
    pub fn ports(&self) -> &Ports
        ensures { ports_of self.now ≡ Some result.now }
    {
        &self.ports
    }

    /// The outermost form, of which `Game::build` makes an equal game.
    pub fn node(&self) -> &GameNode
        ensures { plan_of result.now ≡ self.now }
    {
        &self.node
    }

    /// An equal game, in memory of its own.
    pub fn copy(&self, alloc: Global) -> Result<Game, AllocError>
        ensures { IfOk result (λ made. made ≡ self.now) }
    {
        copy(alloc, self)
    }

    /// How many decisions there are, or 2^32 - 1 where there are more.
    pub fn decisions(&self) -> u32
        ensures { result ≡ capped (decisions_in self.now) }
    {
        self.decisions
    }

    /// The ranks of the actions, ascending, that the first decision in flat order with the number `d` allows at the
    /// observation of the joint rank `seen`. `None` where there is no such decision or no such observation. It takes
    /// no memory.
    pub fn allowed(&self, d: u32, seen: u32) -> Option<&[u32]>
        ensures { option_copied result ≡ allowed_of d seen self.now }
    {
        match answer(self, d, seen) {
            Some(found) => found,
            None => None,
        }
    }
}
