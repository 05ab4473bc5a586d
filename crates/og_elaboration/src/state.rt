use og_game::Game;
use og_list::List;
use og_names::Names;

/// What was numbered so far, in flat order.
#[derive(Drop)]
pub struct State {
    /// How many decisions.
    pub decisions: u32,
    /// How many natures.
    pub natures: u32,
    /// The agents' names, in the order in which they first decide.
    pub agents: Names<()>,
    /// The agent's place among these, for each decision.
    pub owners: List<u32>,
}

/// A decision that was numbered.
#[derive(Drop)]
pub struct Decided {
    /// The place of its agent.
    pub agent: u32,
    /// What was numbered by then, it too.
    pub state: State,
}

/// A game with what was numbered by its end.
#[derive(Drop)]
pub struct Made {
    /// The game.
    pub game: Game,
    /// What was numbered by its end.
    pub state: State,
}
