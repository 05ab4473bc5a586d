ghost use Rattle.std.specs.Prelude.{◌≡◌, ℕ, List, Ok, IfOk};

use crate::boxes::{add_made, both, new_box};
use crate::expressions::{ExprTree, ResultTree, copy_exprs, copy_results};
use crate::types::{NameTree, ParamTree, TyTree, copy_names, copy_params, copy_types};
use crate::values::{RowTree, ValueTree, copy_rows, copy_values};
use og_list::{Boxed, List, Text};
use std::alloc::{AllocError, Global};

/// Who decides.
#[derive(Drop)]
pub enum AgentTree {
    /// An agent's name in quotes: the place of the first quote, and what stands between the quotes.
    Quoted(u32, Text),
    /// A parameter of the game: its place, and its name.
    Var(u32, Text),
}

/// An argument of a game.
#[derive(Drop)]
pub enum ArgTree {
    /// An agent's name in quotes: the place of the first quote, and what stands between the quotes.
    Quoted(u32, Text),
    /// A parameter of the game around the call that begins with `_`: its place, and its name.
    Var(u32, Text),
    /// A value, or a parameter of the game around the call.
    Val(ValueTree),
}

/// A game as it is written. Round brackets round a game leave no node, so a composition begins where its
/// first part begins.
///
/// The types of its parts, as `LineTree`, are over any type of games: a definition by recursion on games has
/// in their place what it gives of each.
#[derive(Drop)]
pub enum GameTree {
    /// A declared game.
    Call {
        /// The place of the game's name.
        at: u32,
        /// The game's name.
        name: Text,
        /// The arguments, in order.
        args: List<ArgTree>,
    },
    /// Two games, the second on what the first gives.
    Seq(Boxed<GameTree>, Boxed<GameTree>),
    /// Two games side by side.
    Par(Boxed<GameTree>, Boxed<GameTree>),
    /// Lines that are wired by names.
    Block {
        /// The place of `block`.
        at: u32,
        /// The wires at the border, and the lines.
        block: Boxed<BlockTree>,
    },
    /// A decision of an agent.
    Decision {
        /// The place of `dependentDecision`.
        at: u32,
        /// Who decides.
        agent: AgentTree,
        /// The types of what is observed.
        observes: List<TyTree>,
        /// The type of the action.
        action: TyTree,
        /// Which actions are allowed at which observation, where that is written. Else all are.
        among: Option<Among>,
    },
    /// A random draw.
    Nature {
        /// The place of `nature`.
        at: u32,
        /// The types of what the draw depends on.
        observes: List<TyTree>,
        /// The type of what is drawn.
        outcome: TyTree,
        /// What is drawn at which observation, in order.
        rows: List<RowTree>,
    },
    /// Expressions that are computed as the game is played.
    Forward {
        /// The place of `forwardFunction`.
        at: u32,
        /// The inputs.
        params: List<ParamTree>,
        /// The outputs.
        results: List<ResultTree>,
    },
    /// Expressions that are computed as payments are handed back.
    Backward {
        /// The place of `backwardFunction`.
        at: u32,
        /// What is handed back from behind.
        params: List<ParamTree>,
        /// What is handed on to the front.
        results: List<ResultTree>,
    },
    /// Wires that are passed on as they are.
    Identity {
        /// The place of `identity`.
        at: u32,
        /// The types of the wires that go forward.
        forward: List<TyTree>,
        /// The types of the wires that go backward.
        backward: List<TyTree>,
    },
    /// A block of the library.
    Library {
        /// The place of `library`.
        at: u32,
        /// The block's name.
        name: NameTree,
    },
    /// A choice between games by a value.
    Branch {
        /// The place of `branch`.
        at: u32,
        /// The type of the value.
        selector: TyTree,
        /// The games, each with the value at which it is played, in order.
        arms: List<ArmTree>,
    },
}

/// The actions that are allowed at each observation of a decision.
#[derive(Drop)]
pub struct Among {
    /// The place of `among`.
    pub at: u32,
    /// The rows, in order.
    pub rows: List<AmongTree>,
}

/// The actions that are allowed at one observation.
#[derive(Drop)]
pub struct AmongTree {
    /// The place of `(`.
    pub at: u32,
    /// What is observed, one value for each observed wire.
    pub key: List<ValueTree>,
    /// The actions: one or more.
    pub actions: List<ValueTree>,
}

/// The game of a branch at one value.
#[derive(Drop)]
pub struct ArmTree<G = GameTree> {
    /// The place of `(`.
    pub at: u32,
    /// The value.
    pub key: ValueTree,
    /// The game that is played there.
    pub game: G,
}

/// A block: the wires at its border, and its lines. A field that isn't written is empty.
#[derive(Drop)]
pub struct BlockTree<G = GameTree> {
    /// The wires that come in at the front.
    pub inputs: List<ParamTree>,
    /// What is handed back at the front.
    pub feedback: List<ResultTree>,
    /// The lines, in order.
    pub lines: List<LineTree<G>>,
    /// What goes out at the back.
    pub outputs: List<ResultTree>,
    /// The wires that are handed back from behind.
    pub returns: List<ParamTree>,
}

/// A line of a block. A field that isn't written is empty.
#[derive(Drop)]
pub struct LineTree<G = GameTree> {
    /// What the game is played on.
    pub inputs: List<ExprTree>,
    /// The names of what the game hands back.
    pub feedback: List<NameTree>,
    /// The game.
    pub operation: G,
    /// The names of what the game gives.
    pub outputs: List<NameTree>,
    /// What is handed back to the game.
    pub returns: List<ExprTree>,
}

impl AgentTree {
    /// An equal agent, in memory of its own.
    pub fn copy(&self, alloc: Global) -> Result<AgentTree, AllocError>
        ensures { IfOk result (λ made. made ≡ self.now) }
    {
        match self {
            AgentTree::Quoted(at, name) => Ok(AgentTree::Quoted(*at, name.copy(alloc)?)),
            AgentTree::Var(at, name) => Ok(AgentTree::Var(*at, name.copy(alloc)?)),
        }
    }
}

impl ArgTree {
    /// An equal argument, in memory of its own.
    pub fn copy(&self, alloc: Global) -> Result<ArgTree, AllocError>
        ensures { IfOk result (λ made. made ≡ self.now) }
    {
        match self {
            ArgTree::Quoted(at, name) => Ok(ArgTree::Quoted(*at, name.copy(alloc)?)),
            ArgTree::Var(at, name) => Ok(ArgTree::Var(*at, name.copy(alloc)?)),
            ArgTree::Val(value) => Ok(ArgTree::Val(value.copy(alloc)?)),
        }
    }
}

impl Among {
    /// Equal rows of allowed actions, in memory of their own.
    pub fn copy(&self, alloc: Global) -> Result<Among, AllocError>
        ensures { IfOk result (λ made. made ≡ self.now) }
    {
        let mut rows = List::new(alloc);
        'rows: for row in self.rows.as_slice() {
            add_made(&mut rows, row.copy(alloc))?;
        }
        Ok(Among { at: self.at, rows })
    }
}

impl AmongTree {
    /// An equal row of allowed actions, in memory of its own.
    pub fn copy(&self, alloc: Global) -> Result<AmongTree, AllocError>
        ensures { IfOk result (λ made. made ≡ self.now) }
    {
        let (key, actions) = both(
            copy_values(alloc, &self.key),
            copy_values(alloc, &self.actions),
        )?;
        Ok(AmongTree {
            at: self.at,
            key,
            actions,
        })
    }
}

impl GameTree {
    /// An equal game, in memory of its own.
    #[cycle(game_copies)]
    pub fn copy(&self, alloc: Global) -> Result<GameTree, AllocError>
        ensures { IfOk result (λ made. made ≡ self.now) }
    {
        match self {
            GameTree::Call { at, name, args } => {
                call(*at, name.copy(alloc), copy_args(alloc, args))
            }
            GameTree::Seq(first, second) => {
                sequence(copy_box(alloc, first), copy_box(alloc, second))
            }
            GameTree::Par(first, second) => {
                beside(copy_box(alloc, first), copy_box(alloc, second))
            }
            GameTree::Block { at, block } => {
                let block = block.get();
                let lines = copy_lines(alloc, &block.lines);
                boxed_block(*at, alloc, copy_border(alloc, block, lines))
            }
            GameTree::Decision {
                at,
                agent,
                observes,
                action,
                among,
            } => copy_decision(alloc, *at, agent, observes, action, among),
            GameTree::Nature {
                at,
                observes,
                outcome,
                rows,
            } => copy_nature(alloc, *at, observes, outcome, rows),
            GameTree::Forward {
                at,
                params,
                results,
            } => copy_forward(alloc, *at, params, results),
            GameTree::Backward {
                at,
                params,
                results,
            } => copy_backward(alloc, *at, params, results),
            GameTree::Identity {
                at,
                forward,
                backward,
            } => copy_identity(alloc, *at, forward, backward),
            GameTree::Library { at, name } => Ok(GameTree::Library {
                at: *at,
                name: name.copy(alloc)?,
            }),
            GameTree::Branch { at, selector, arms } => {
                branch(*at, selector.copy(alloc), copy_arms(alloc, arms))
            }
        }
    }
}

impl ArmTree<GameTree> {
    /// An equal arm, in memory of its own.
    pub fn copy(&self, alloc: Global) -> Result<ArmTree, AllocError>
        ensures { IfOk result (λ made. made ≡ self.now) }
    {
        arm(self.at, self.key.copy(alloc), self.game.copy(alloc))
    }
}

impl BlockTree<GameTree> {
    /// An equal block, in memory of its own.
    pub fn copy(&self, alloc: Global) -> Result<BlockTree, AllocError>
        ensures { IfOk result (λ made. made ≡ self.now) }
    {
        copy_border(alloc, self, copy_lines(alloc, &self.lines))
    }
}

impl LineTree<GameTree> {
    /// An equal line, in memory of its own.
    pub fn copy(&self, alloc: Global) -> Result<LineTree, AllocError>
        ensures { IfOk result (λ made. made ≡ self.now) }
    {
        copy_wires(alloc, self, self.operation.copy(alloc))
    }
}

/// An equal game behind a pointer of its own.
#[cycle(game_copies)]
fn copy_box(alloc: Global, part: &Boxed<GameTree>) -> Result<Boxed<GameTree>, AllocError>
    ensures { IfOk result (λ made. made ≡ part.now) }
{
    new_box(alloc, part.get().copy(alloc)?)
}

/// Equal lines, in the same order, in memory of their own.
#[cycle(game_copies)]
fn copy_lines(alloc: Global, lines: &List<LineTree>) -> Result<List<LineTree>, AllocError>
    ensures { IfOk result (λ made. made ≡ lines.now) }
{
    let mut all = List::new(alloc);
    'lines: for line in lines.as_slice() {
        all.add(copy_wires(alloc, line, line.operation.copy(alloc))?)?;
    }
    Ok(all)
}

/// Equal arms, in the same order, in memory of their own.
#[cycle(game_copies)]
fn copy_arms(alloc: Global, arms: &List<ArmTree>) -> Result<List<ArmTree>, AllocError>
    ensures { IfOk result (λ made. made ≡ arms.now) }
{
    let mut all = List::new(alloc);
    'arms: for one in arms.as_slice() {
        all.add(arm(one.at, one.key.copy(alloc), one.game.copy(alloc))?)?;
    }
    Ok(all)
}

/// The block with these lines in place of its own, where they could be made, and with an equal border in memory of its
/// own.
fn copy_border(
    alloc: Global,
    block: &BlockTree,
    lines: Result<List<LineTree>, AllocError>,
) -> Result<BlockTree, AllocError>
    ensures { (l : List (LineTree GameTree)) → IfOk lines (λ it. it ≡ l) → IfOk result (λ made. made ≡ record {
      inputs = block.now.inputs;
      feedback = block.now.feedback;
      lines = l;
      outputs = block.now.outputs;
      returns = block.now.returns;
    }) }
{
    let front = both(
        copy_params(alloc, &block.inputs),
        copy_results(alloc, &block.feedback),
    );
    let back = both(
        copy_results(alloc, &block.outputs),
        copy_params(alloc, &block.returns),
    );
    let (lines, ((inputs, feedback), (outputs, returns))) = both(lines, both(front, back))?;
    Ok(BlockTree {
        inputs,
        feedback,
        lines,
        outputs,
        returns,
    })
}

/// The line with this game in place of its own, where it could be made, and with equal wires in memory of their own.
fn copy_wires(
    alloc: Global,
    line: &LineTree,
    operation: Result<GameTree, AllocError>,
) -> Result<LineTree, AllocError>
    ensures { IfOk result (λ made. (operation ≡ Ok made.operation)
        × (made.inputs ≡ line.now.inputs) × (made.feedback ≡ line.now.feedback)
        × (made.outputs ≡ line.now.outputs) × (made.returns ≡ line.now.returns)) }
{
    let front = both(
        copy_exprs(alloc, &line.inputs),
        copy_names(alloc, &line.feedback),
    );
    let back = both(
        copy_names(alloc, &line.outputs),
        copy_exprs(alloc, &line.returns),
    );
    let (operation, ((inputs, feedback), (outputs, returns))) = both(operation, both(front, back))?;
    Ok(LineTree {
        inputs,
        feedback,
        operation,
        outputs,
        returns,
    })
}

/// Equal arguments, in the same order, in memory of their own.
fn copy_args(alloc: Global, list: &List<ArgTree>) -> Result<List<ArgTree>, AllocError>
    ensures { IfOk result (λ made. made ≡ list.now) }
{
    let mut all = List::new(alloc);
    'list: for arg in list.as_slice() {
        add_made(&mut all, arg.copy(alloc))?;
    }
    Ok(all)
}

/// Equal rows of allowed actions, where there are any.
fn copy_among(alloc: Global, among: &Option<Among>) -> Result<Option<Among>, AllocError>
    ensures { IfOk result (λ made. made ≡ among.now) }
{
    match among {
        Some(rows) => Ok(Some(rows.copy(alloc)?)),
        None => Ok(None),
    }
}

/// A call of these parts, where they could be made.
fn call(
    at: u32,
    name: Result<Text, AllocError>,
    args: Result<List<ArgTree>, AllocError>,
) -> Result<GameTree, AllocError>
    ensures { (n : List ℕ) (a : List ArgTree) → IfOk name (λ it. it ≡ n) → IfOk args (λ it. it ≡ a)
        → IfOk result (λ made. made ≡ GameTree.Call at n a) }
{
    let (name, args) = both(name, args)?;
    Ok(GameTree::Call { at, name, args })
}

/// The second game on what the first gives, where they could be made.
fn sequence(
    first: Result<Boxed<GameTree>, AllocError>,
    second: Result<Boxed<GameTree>, AllocError>,
) -> Result<GameTree, AllocError>
    ensures { (f : GameTree) (s : GameTree) → IfOk first (λ it. it ≡ f) → IfOk second (λ it. it ≡ s)
        → IfOk result (λ made. made ≡ GameTree.Seq f s) }
{
    let (first, second) = both(first, second)?;
    Ok(GameTree::Seq(first, second))
}

/// Two games side by side, where they could be made.
fn beside(
    first: Result<Boxed<GameTree>, AllocError>,
    second: Result<Boxed<GameTree>, AllocError>,
) -> Result<GameTree, AllocError>
    ensures { (f : GameTree) (s : GameTree) → IfOk first (λ it. it ≡ f) → IfOk second (λ it. it ≡ s)
        → IfOk result (λ made. made ≡ GameTree.Par f s) }
{
    let (first, second) = both(first, second)?;
    Ok(GameTree::Par(first, second))
}

/// A block of these parts, where they could be made.
fn boxed_block(
    at: u32,
    alloc: Global,
    block: Result<BlockTree, AllocError>,
) -> Result<GameTree, AllocError>
    ensures { (b : BlockTree GameTree) → IfOk block (λ it. it ≡ b)
        → IfOk result (λ made. made ≡ GameTree.Block at b) }
{
    let block = new_box(alloc, block?)?;
    Ok(GameTree::Block { at, block })
}

/// A branch of these parts, where they could be made.
fn branch(
    at: u32,
    selector: Result<TyTree, AllocError>,
    arms: Result<List<ArmTree>, AllocError>,
) -> Result<GameTree, AllocError>
    ensures { (s : TyTree) (a : List (ArmTree GameTree)) → IfOk selector (λ it. it ≡ s) → IfOk arms (λ it. it ≡ a)
        → IfOk result (λ made. made ≡ GameTree.Branch at s a) }
{
    let (selector, arms) = both(selector, arms)?;
    Ok(GameTree::Branch { at, selector, arms })
}

/// An arm of these parts, where they could be made.
fn arm(
    at: u32,
    key: Result<ValueTree, AllocError>,
    game: Result<GameTree, AllocError>,
) -> Result<ArmTree, AllocError>
    ensures { IfOk result (λ made. (made.at ≡ at) × (key ≡ Ok made.key) × (game ≡ Ok made.game)) }
{
    let (key, game) = both(key, game)?;
    Ok(ArmTree { at, key, game })
}

/// A decision of equal parts, in memory of their own.
fn copy_decision(
    alloc: Global,
    at: u32,
    agent: &AgentTree,
    observes: &List<TyTree>,
    action: &TyTree,
    among: &Option<Among>,
) -> Result<GameTree, AllocError>
    ensures { IfOk result (λ made. made ≡ GameTree.Decision at agent.now observes.now action.now among.now) }
{
    let decides = both(agent.copy(alloc), copy_types(alloc, observes));
    let acts = both(action.copy(alloc), copy_among(alloc, among));
    let ((agent, observes), (action, among)) = both(decides, acts)?;
    Ok(GameTree::Decision {
        at,
        agent,
        observes,
        action,
        among,
    })
}

/// A draw of equal parts, in memory of their own.
fn copy_nature(
    alloc: Global,
    at: u32,
    observes: &List<TyTree>,
    outcome: &TyTree,
    rows: &List<RowTree>,
) -> Result<GameTree, AllocError>
    ensures { IfOk result (λ made. made ≡ GameTree.Nature at observes.now outcome.now rows.now) }
{
    let typed = both(copy_types(alloc, observes), outcome.copy(alloc));
    let ((observes, outcome), rows) = both(typed, copy_rows(alloc, rows))?;
    Ok(GameTree::Nature {
        at,
        observes,
        outcome,
        rows,
    })
}

/// Expressions on the way forward of equal parts, in memory of their own.
fn copy_forward(
    alloc: Global,
    at: u32,
    params: &List<ParamTree>,
    results: &List<ResultTree>,
) -> Result<GameTree, AllocError>
    ensures { IfOk result (λ made. made ≡ GameTree.Forward at params.now results.now) }
{
    let (params, results) = both(copy_params(alloc, params), copy_results(alloc, results))?;
    Ok(GameTree::Forward {
        at,
        params,
        results,
    })
}

/// Expressions on the way back of equal parts, in memory of their own.
fn copy_backward(
    alloc: Global,
    at: u32,
    params: &List<ParamTree>,
    results: &List<ResultTree>,
) -> Result<GameTree, AllocError>
    ensures { IfOk result (λ made. made ≡ GameTree.Backward at params.now results.now) }
{
    let (params, results) = both(copy_params(alloc, params), copy_results(alloc, results))?;
    Ok(GameTree::Backward {
        at,
        params,
        results,
    })
}

/// Wires of equal types, in memory of their own.
fn copy_identity(
    alloc: Global,
    at: u32,
    forward: &List<TyTree>,
    backward: &List<TyTree>,
) -> Result<GameTree, AllocError>
    ensures { IfOk result (λ made. made ≡ GameTree.Identity at forward.now backward.now) }
{
    let (forward, backward) = both(copy_types(alloc, forward), copy_types(alloc, backward))?;
    Ok(GameTree::Identity {
        at,
        forward,
        backward,
    })
}
