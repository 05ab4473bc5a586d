//! Arguments of calls.
ghost use Rattle.std.specs.Prelude.{◌≡◌, false};
ghost use Rattle.std.specs.Option.{option_copied};
ghost use Rattle.og_syntax.specs.declared.values.ValueTree.TheViews.{out-ValueTree};
ghost use Rattle.og_syntax.specs.declared.declarations.ParamKind.TheVariants as kinds;
ghost use Rattle.og_names.specs.Names.{has_name};
ghost use Rattle.og_inlining.specs.Steps.{Gives};
ghost use Rattle.og_inlining.specs.Trees.{built, case_tree};
ghost use Rattle.og_elaboration.specs.Arguments.{named_in, agent_given, agent_named, leaf_in, tree_or_leaf, value_given, agent_added, kind_given, with_argument, given_in};

use crate::given::Given;
use og_atoms::type_in;
use og_expr::{BuildFault, Expr, Node, NodeOf};
use og_list::{List, Text};
use og_names::Names;
use og_syntax::{AgentTree, ArgTree, GameParam, ParamKind, TyTree, ValueTree};
use og_typing::Meaning;
use std::alloc::Global;

/// What the name of a value stands for among these, where it is a name.
fn named_in<'a, V: Drop>(value: &ValueTree, given: &'a Names<V>) -> Option<&'a V>
    ensures { option_copied result ≡ named_in given.now (out-ValueTree value.now) }
{
    match value {
        ValueTree::Name(_, name) => given.get(name.as_str()),
        ValueTree::Flag(..) | ValueTree::Number(..) | ValueTree::Tuple(..) => None,
    }
}

/// A copy of a name that is there.
fn name_of(alloc: Global, found: Option<&Text>) -> Result<Text, BuildFault>
    ensures { Gives (option_copied found.entry) result }
{
    match found {
        Some(name) => Ok(name.copy(alloc)?),
        None => Err(BuildFault::BadType),
    }
}

/// The name of the agent that the argument is.
fn agent_given(alloc: Global, arg: &ArgTree, round: &Given) -> Result<Text, BuildFault>
    ensures { Gives (agent_given round.now arg.now) result }
{
    match arg {
        ArgTree::Quoted(_, name) => Ok(name.copy(alloc)?),
        ArgTree::Var(_, name) => name_of(alloc, round.agents.get(name.as_str())),
        ArgTree::Val(value) => name_of(alloc, named_in(value, &round.agents)),
    }
}

/// The name of the agent who decides. BadType comes exactly where a parameter is none.
pub fn agent_named(alloc: Global, agent: &AgentTree, round: &Given) -> Result<Text, BuildFault>
    ensures { Gives (agent_named round.now agent.now) result }
{
    match agent {
        AgentTree::Quoted(_, name) => Ok(name.copy(alloc)?),
        AgentTree::Var(_, name) => name_of(alloc, round.agents.get(name.as_str())),
    }
}

/// The tree of a form, where it is typed.
#[tactic(auto, unfolding(og_inlining::specs::Trees::built))]
fn built(alloc: Global, node: Node) -> Result<Expr, BuildFault>
    ensures { Gives (built node) result }
{
    Expr::build(alloc, node)
}

/// The tree of a case.
fn case(alloc: Global, found: Option<&Meaning>) -> Result<Expr, BuildFault>
    ensures { Gives (case_tree (option_copied found.entry)) result }
{
    match found {
        Some(Meaning::Case(family, cases, index)) => built(
            alloc,
            NodeOf::Case {
                family: *family,
                cases: *cases,
                index: *index,
            },
        ),
        _ => Err(BuildFault::BadType),
    }
}

/// The tree of a value that is no tuple.
fn leaf_in(alloc: Global, value: &ValueTree, declared: &Names<Meaning>) -> Result<Expr, BuildFault>
    ensures { Gives (leaf_in declared.now (out-ValueTree value.now)) result }
{
    match value {
        ValueTree::Name(_, name) => case(alloc, declared.get(name.as_str())),
        ValueTree::Flag(_, flag) => built(alloc, NodeOf::Flag(*flag)),
        ValueTree::Number(_, n) => built(alloc, NodeOf::Literal(*n)),
        ValueTree::Tuple(..) => Err(BuildFault::BadType),
    }
}

/// A copy of the tree, if it is there.
fn copied(alloc: Global, found: Option<&Expr>) -> Result<Expr, BuildFault>
    ensures { Gives (option_copied found.entry) result }
{
    match found {
        Some(tree) => Ok(tree.copy(alloc)?),
        None => Err(BuildFault::BadType),
    }
}

/// The tree of a parameter round the call, else that of the value.
fn tree_or_leaf(
    alloc: Global,
    value: &ValueTree,
    found: Option<&Expr>,
    declared: &Names<Meaning>,
) -> Result<Expr, BuildFault>
    ensures { Gives (tree_or_leaf declared.now (out-ValueTree value.now) (option_copied found.entry)) result }
{
    match found {
        Some(tree) => Ok(tree.copy(alloc)?),
        None => leaf_in(alloc, value, declared),
    }
}

/// The tree of the value that the argument is.
fn value_given(
    alloc: Global,
    arg: &ArgTree,
    round: &Given,
    declared: &Names<Meaning>,
) -> Result<Expr, BuildFault>
    ensures { Gives (value_given declared.now round.now arg.now) result }
{
    match arg {
        ArgTree::Quoted(..) => Err(BuildFault::BadType),
        ArgTree::Var(_, name) => copied(alloc, round.values.get(name.as_str())),
        ArgTree::Val(value) => {
            tree_or_leaf(alloc, value, named_in(value, &round.values), declared)
        }
    }
}

/// With an agent more.
fn agent_added(
    alloc: Global,
    name: &str,
    arg: &ArgTree,
    round: &Given,
    found: Given,
) -> Result<Given, BuildFault>
    requires { has_name name.now found.agents ≡ false }
    ensures { Gives (agent_added round.now name.now found arg.now) result }
{
    let agent = agent_given(alloc, arg, round)?;
    let Given { values, mut agents } = found;
    agents.insert(alloc, name, agent)?;
    Ok(Given { values, agents })
}

/// With a value more, of the written type.
fn value_added(
    alloc: Global,
    name: &str,
    arg: &ArgTree,
    written: &TyTree,
    round: &Given,
    declared: &Names<Meaning>,
    found: Given,
) -> Result<Given, BuildFault>
    requires { has_name name.now found.values ≡ false }
    ensures { Gives (kind_given declared.now round.now name.now found arg.now (kinds.Of written.now)) result }
{
    let ty = type_in(alloc, written, declared)?;
    let tree = value_given(alloc, arg, round, declared)?;
    if !tree.ty().fits(&ty) {
        return Err(BuildFault::BadType);
    }
    let Given { mut values, agents } = found;
    values.insert(alloc, name, tree)?;
    Ok(Given { values, agents })
}

/// With a parameter more.
fn with_argument(
    alloc: Global,
    param: &GameParam,
    arg: Option<&ArgTree>,
    round: &Given,
    declared: &Names<Meaning>,
    found: Given,
) -> Result<Given, BuildFault>
    ensures { Gives (with_argument declared.now round.now found param.now (option_copied arg.entry)) result }
{
    let name = param.name.as_str();
    match arg {
        Some(arg) => {
            if found.values.has(name) || found.agents.has(name) {
                return Err(BuildFault::BadType);
            }
            match &param.kind {
                ParamKind::Agent => agent_added(alloc, name, arg, round, found),
                ParamKind::Of(written) => {
                    value_added(alloc, name, arg, written, round, declared, found)
                }
            }
        }
        None => Err(BuildFault::BadType),
    }
}

/// What the parameters of a called game stand for, where the parameters round the call stand for `round`. BadType comes exactly
/// where a name stands twice, a type stands for none, or an argument isn't there, is no agent, or has no tree of the type.
pub fn given_in(
    alloc: Global,
    params: &List<GameParam>,
    args: &List<ArgTree>,
    round: &Given,
    declared: &Names<Meaning>,
) -> Result<Given, BuildFault>
    ensures { Gives (given_in declared.now round.now params.now args.now) result }
{
    let mut found = Given {
        values: Names::new(alloc),
        agents: Names::new(alloc),
    };
    'params: for (at, param) in params.as_slice().iter().enumerate() {
        found = with_argument(alloc, param, args.get(at), round, declared, found)?;
    }
    Ok(found)
}
