ghost use Rattle.std.specs.Prelude.{◌≡◌, ◌++◌, OnOk, flat_map, map};
ghost use Rattle.og_canonical.specs.Tokens.{mark, word, commas, in_parens, in_braces, optional};
ghost use Rattle.og_canonical.specs.Values.{value_text};
ghost use Rattle.og_canonical.specs.Types.{params_text, names_text};
ghost use Rattle.og_canonical.specs.Expressions.{at_least, exprs_text, results_text};
ghost use Rattle.og_canonical.specs.Games.{field, agent_text, arg_text, allowed_text, among_text, call_text};
ghost use Rattle.og_canonical.specs.Games.{line_front, line_back, line_text, block_front, block_back};
ghost use Rattle.og_canonical.specs.Games.{branch_arm_text, decision_text, nature_text, function_text};
ghost use Rattle.og_canonical.specs.Games.{identity_text, shown_game, game_text};

use crate::expressions::{write_exprs, write_results};
use crate::tokens::{write_mark, write_quoted, write_separator, write_token, write_word};
use crate::types::{write_names, write_params, write_type, write_types};
use crate::values::{write_key, write_rows, write_value, write_values};
use og_lex::{Mark, Word};
use og_list::{List, Text};
use og_syntax::{
    AgentTree, Among, AmongTree, ArgTree, ArmTree, ExprTree, GameTree, LineTree, NameTree,
    ParamTree, ResultTree, RowTree, TyTree, ValueTree,
};
use std::alloc::{AllocError, Global};

/// The level of `>>>`, the least: any game may stand where it is asked for.
const SEQ: u8 = 1;
/// The level of `&&&`.
const PAR: u8 = 2;
/// The level of all else.
const ATOM: u8 = 3;

/// Adds a game where any may stand.
pub(crate) fn write_game(game: &GameTree, alloc: Global, out: &mut Text) -> Result<(), AllocError>
    ensures { OnOk result (out.new ≡ out.old ++ game_text game.now) }
{
    write_at(game, SEQ, alloc, out)
}

/// How tightly the game's outermost composition binds.
#[tactic(auto, using(crate::proofs::GameForms::forms))]
fn level(game: &GameTree) -> u8
    ensures { result ≡ (shown_game game.now).level }
{
    match game {
        GameTree::Seq(..) => SEQ,
        GameTree::Par(..) => PAR,
        GameTree::Call { .. } | GameTree::Block { .. } | GameTree::Decision { .. } => ATOM,
        GameTree::Nature { .. } | GameTree::Forward { .. } | GameTree::Backward { .. } => ATOM,
        GameTree::Identity { .. } | GameTree::Library { .. } | GameTree::Branch { .. } => ATOM,
    }
}

/// Adds a game where at least this level is asked for.
#[cycle(game_texts)]
#[tactic(auto, unfolding(crate::specs::Expressions::at_least))]
fn write_at(game: &GameTree, asked: u8, alloc: Global, out: &mut Text) -> Result<(), AllocError>
    ensures { OnOk result (out.new ≡ out.old ++ at_least asked (shown_game game.now)) }
{
    if level(game) >= asked {
        return write_form(game, alloc, out);
    }
    write_mark(Mark::LeftParen, out)?;
    write_form(game, alloc, out)?;
    write_mark(Mark::RightParen, out)
}

/// Adds a game without round brackets around it.
#[cycle(game_texts)]
#[tactic(auto, using(crate::proofs::GameForms::forms))]
fn write_form(game: &GameTree, alloc: Global, out: &mut Text) -> Result<(), AllocError>
    ensures { OnOk result (out.new ≡ out.old ++ (shown_game game.now).text) }
{
    match game {
        GameTree::Call { name, args, .. } => write_call(name.as_str(), args, alloc, out),
        GameTree::Seq(first, second) => {
            write_at(first.get(), SEQ, alloc, out)?;
            write_mark(Mark::Then, out)?;
            write_at(second.get(), PAR, alloc, out)
        }
        GameTree::Par(first, second) => {
            write_at(first.get(), PAR, alloc, out)?;
            write_mark(Mark::Beside, out)?;
            write_at(second.get(), ATOM, alloc, out)
        }
        GameTree::Block { block, .. } => {
            let block = block.get();
            write_block_front(&block.inputs, &block.feedback, alloc, out)?;
            write_lines(&block.lines, alloc, out)?;
            write_block_back(&block.outputs, &block.returns, alloc, out)?;
            write_mark(Mark::RightBrace, out)
        }
        GameTree::Decision {
            agent,
            observes,
            action,
            among,
            ..
        } => write_decision(agent, observes, action, among, alloc, out),
        GameTree::Nature {
            observes,
            outcome,
            rows,
            ..
        } => write_nature(observes, outcome, rows, alloc, out),
        GameTree::Forward {
            params,
            results,
            ..
        } => write_function(Word::ForwardFunction, params, results, alloc, out),
        GameTree::Backward {
            params,
            results,
            ..
        } => write_function(Word::BackwardFunction, params, results, alloc, out),
        GameTree::Identity {
            forward,
            backward,
            ..
        } => write_identity(forward, backward, alloc, out),
        GameTree::Library { name, .. } => {
            write_word(Word::Library, out)?;
            write_token(name.name.as_str(), out)
        }
        GameTree::Branch { selector, arms, .. } => {
            write_word(Word::Branch, out)?;
            write_type(selector, alloc, out)?;
            write_arms(arms, alloc, out)
        }
    }
}

/// Adds the lines of a block, one after another.
#[cycle(game_texts)]
fn write_lines(lines: &List<LineTree>, alloc: Global, out: &mut Text) -> Result<(), AllocError>
    ensures { OnOk result (out.new ≡ out.old ++ flat_map (line_text game_text) lines.now) }
{
    'lines: for line in lines.as_slice() {
        write_line_front(&line.inputs, &line.feedback, alloc, out)?;
        write_field_start(Word::Operation, out)?;
        write_at(&line.operation, SEQ, alloc, out)?;
        write_mark(Mark::Semicolon, out)?;
        write_line_back(&line.outputs, &line.returns, alloc, out)?;
    }
    Ok(())
}

/// Adds the games of a branch, each with its value, in braces.
#[cycle(game_texts)]
fn write_arms(arms: &List<ArmTree>, alloc: Global, out: &mut Text) -> Result<(), AllocError>
    ensures { OnOk result (out.new ≡ out.old ++ in_braces (flat_map (branch_arm_text game_text) arms.now)) }
{
    write_mark(Mark::LeftBrace, out)?;
    'arms: for arm in arms.as_slice() {
        write_arm_front(&arm.key, alloc, out)?;
        write_at(&arm.game, SEQ, alloc, out)?;
        write_mark(Mark::Semicolon, out)?;
    }
    write_mark(Mark::RightBrace, out)
}

/// Adds a declared game with its arguments.
#[tactic(auto, unfolding(crate::specs::Games::call_text))]
fn write_call(
    name: &str,
    args: &List<ArgTree>,
    alloc: Global,
    out: &mut Text,
) -> Result<(), AllocError>
    ensures { OnOk result (out.new ≡ out.old ++ call_text name.now args.now) }
{
    write_token(name, out)?;
    write_optional(args, alloc, out)
}

/// Adds the arguments in round brackets, and nothing where there is none.
#[tactic(auto, using(crate::proofs::Optional::optional_forms))]
fn write_optional(args: &List<ArgTree>, alloc: Global, out: &mut Text) -> Result<(), AllocError>
    ensures { OnOk result (out.new ≡ out.old ++ optional (map arg_text args.now)) }
{
    if args.is_empty() {
        return Ok(());
    }
    write_mark(Mark::LeftParen, out)?;
    write_args(args, alloc, out)?;
    write_mark(Mark::RightParen, out)
}

/// Adds the arguments, with a comma between each two.
fn write_args(args: &List<ArgTree>, alloc: Global, out: &mut Text) -> Result<(), AllocError>
    ensures { OnOk result (out.new ≡ out.old ++ commas (map arg_text args.now)) }
{
    'list: for (at, arg) in args.as_slice().iter().enumerate() {
        if at > 0 {
            write_mark(Mark::Comma, out)?;
        }
        write_arg(arg, alloc, out)?;
    }
    Ok(())
}

/// Adds an argument.
#[tactic(auto, unfolding(crate::specs::Games::arg_text))]
fn write_arg(arg: &ArgTree, alloc: Global, out: &mut Text) -> Result<(), AllocError>
    ensures { OnOk result (out.new ≡ out.old ++ arg_text arg.now) }
{
    match arg {
        ArgTree::Quoted(_, name) => write_quoted(name.as_str(), out),
        ArgTree::Var(_, name) => write_token(name.as_str(), out),
        ArgTree::Val(value) => write_value(value, alloc, out),
    }
}

/// Adds what a block has before its lines.
#[tactic(auto, unfolding(crate::specs::Games::block_front))]
fn write_block_front(
    inputs: &List<ParamTree>,
    feedback: &List<ResultTree>,
    alloc: Global,
    out: &mut Text,
) -> Result<(), AllocError>
    ensures { OnOk result (out.new ≡ out.old ++ (word Word.Block ++ mark Mark.LeftBrace ++ block_front inputs.now feedback.now)) }
{
    write_word(Word::Block, out)?;
    write_mark(Mark::LeftBrace, out)?;
    write_param_field(Word::Inputs, inputs, alloc, out)?;
    write_result_field(Word::Feedback, feedback, alloc, out)?;
    write_separator(out)
}

/// Adds what a block has behind its lines.
#[tactic(auto, unfolding(crate::specs::Games::block_back))]
fn write_block_back(
    outputs: &List<ResultTree>,
    returns: &List<ParamTree>,
    alloc: Global,
    out: &mut Text,
) -> Result<(), AllocError>
    ensures { OnOk result (out.new ≡ out.old ++ block_back outputs.now returns.now) }
{
    write_separator(out)?;
    write_result_field(Word::Outputs, outputs, alloc, out)?;
    write_param_field(Word::Returns, returns, alloc, out)
}

/// Adds what a line has before its game.
#[tactic(auto, unfolding(crate::specs::Games::line_front))]
fn write_line_front(
    inputs: &List<ExprTree>,
    feedback: &List<NameTree>,
    alloc: Global,
    out: &mut Text,
) -> Result<(), AllocError>
    ensures { OnOk result (out.new ≡ out.old ++ line_front inputs.now feedback.now) }
{
    write_expr_field(Word::Inputs, inputs, alloc, out)?;
    write_name_field(Word::Feedback, feedback, out)
}

/// Adds what a line has behind its game.
#[tactic(auto, unfolding(crate::specs::Games::line_back))]
fn write_line_back(
    outputs: &List<NameTree>,
    returns: &List<ExprTree>,
    alloc: Global,
    out: &mut Text,
) -> Result<(), AllocError>
    ensures { OnOk result (out.new ≡ out.old ++ line_back outputs.now returns.now) }
{
    write_name_field(Word::Outputs, outputs, out)?;
    write_expr_field(Word::Returns, returns, alloc, out)
}

/// Adds a field of expressions.
fn write_expr_field(
    head: Word,
    exprs: &List<ExprTree>,
    alloc: Global,
    out: &mut Text,
) -> Result<(), AllocError>
    ensures { OnOk result (out.new ≡ out.old ++ field head (exprs_text exprs.now)) }
{
    write_field_start(head, out)?;
    write_exprs(exprs, alloc, out)?;
    write_mark(Mark::Semicolon, out)
}

/// Adds a field of names.
fn write_name_field(head: Word, names: &List<NameTree>, out: &mut Text) -> Result<(), AllocError>
    ensures { OnOk result (out.new ≡ out.old ++ field head (names_text names.now)) }
{
    write_field_start(head, out)?;
    write_names(names, out)?;
    write_mark(Mark::Semicolon, out)
}

/// Adds a field of expressions with their types.
fn write_result_field(
    head: Word,
    results: &List<ResultTree>,
    alloc: Global,
    out: &mut Text,
) -> Result<(), AllocError>
    ensures { OnOk result (out.new ≡ out.old ++ field head (results_text results.now)) }
{
    write_field_start(head, out)?;
    write_results(results, alloc, out)?;
    write_mark(Mark::Semicolon, out)
}

/// Adds a field of variables with their types.
fn write_param_field(
    head: Word,
    params: &List<ParamTree>,
    alloc: Global,
    out: &mut Text,
) -> Result<(), AllocError>
    ensures { OnOk result (out.new ≡ out.old ++ field head (params_text params.now)) }
{
    write_field_start(head, out)?;
    write_params(params, alloc, out)?;
    write_mark(Mark::Semicolon, out)
}

/// Adds a field's word and its colon.
fn write_field_start(head: Word, out: &mut Text) -> Result<(), AllocError>
    ensures { OnOk result (out.new ≡ out.old ++ (word head ++ mark Mark.Colon)) }
{
    write_word(head, out)?;
    write_mark(Mark::Colon, out)
}

/// Adds the value at which a game of a branch is played, and the arrow.
fn write_arm_front(key: &ValueTree, alloc: Global, out: &mut Text) -> Result<(), AllocError>
    ensures { OnOk result (out.new ≡ out.old ++ (in_parens (value_text key.now) ++ mark Mark.Arrow)) }
{
    write_mark(Mark::LeftParen, out)?;
    write_value(key, alloc, out)?;
    write_mark(Mark::RightParen, out)?;
    write_mark(Mark::Arrow, out)
}

/// Adds a decision.
#[tactic(auto, unfolding(crate::specs::Games::decision_text))]
fn write_decision(
    agent: &AgentTree,
    observes: &List<TyTree>,
    action: &TyTree,
    among: &Option<Among>,
    alloc: Global,
    out: &mut Text,
) -> Result<(), AllocError>
    ensures { OnOk result (out.new ≡ out.old ++ decision_text agent.now observes.now action.now among.now) }
{
    write_word(Word::DependentDecision, out)?;
    write_agent(agent, out)?;
    write_types(observes, alloc, out)?;
    write_type(action, alloc, out)?;
    write_among(among, alloc, out)
}

/// Adds who decides.
#[tactic(auto, unfolding(crate::specs::Games::agent_text))]
fn write_agent(agent: &AgentTree, out: &mut Text) -> Result<(), AllocError>
    ensures { OnOk result (out.new ≡ out.old ++ agent_text agent.now) }
{
    match agent {
        AgentTree::Quoted(_, name) => write_quoted(name.as_str(), out),
        AgentTree::Var(_, name) => write_token(name.as_str(), out),
    }
}

/// Adds the rows of allowed actions, where there are any.
#[tactic(auto, unfolding(crate::specs::Games::among_text))]
fn write_among(among: &Option<Among>, alloc: Global, out: &mut Text) -> Result<(), AllocError>
    ensures { OnOk result (out.new ≡ out.old ++ among_text among.now) }
{
    match among {
        None => Ok(()),
        Some(among) => {
            write_word(Word::Among, out)?;
            write_mark(Mark::LeftBrace, out)?;
            write_allowed(&among.rows, alloc, out)?;
            write_mark(Mark::RightBrace, out)
        }
    }
}

/// Adds the rows of allowed actions, one after another.
fn write_allowed(rows: &List<AmongTree>, alloc: Global, out: &mut Text) -> Result<(), AllocError>
    ensures { OnOk result (out.new ≡ out.old ++ flat_map allowed_text rows.now) }
{
    'rows: for row in rows.as_slice() {
        write_allowed_row(row, alloc, out)?;
    }
    Ok(())
}

/// Adds the actions that are allowed at one observation.
#[tactic(auto, unfolding(crate::specs::Games::allowed_text))]
fn write_allowed_row(row: &AmongTree, alloc: Global, out: &mut Text) -> Result<(), AllocError>
    ensures { OnOk result (out.new ≡ out.old ++ allowed_text row.now) }
{
    write_key(&row.key, alloc, out)?;
    write_mark(Mark::Arrow, out)?;
    write_values(&row.actions, alloc, out)?;
    write_mark(Mark::Semicolon, out)
}

/// Adds a random draw.
#[tactic(auto, unfolding(crate::specs::Games::nature_text))]
fn write_nature(
    observes: &List<TyTree>,
    outcome: &TyTree,
    rows: &List<RowTree>,
    alloc: Global,
    out: &mut Text,
) -> Result<(), AllocError>
    ensures { OnOk result (out.new ≡ out.old ++ nature_text observes.now outcome.now rows.now) }
{
    write_word(Word::Nature, out)?;
    write_types(observes, alloc, out)?;
    write_type(outcome, alloc, out)?;
    write_mark(Mark::LeftBrace, out)?;
    write_rows(rows, alloc, out)?;
    write_mark(Mark::RightBrace, out)
}

/// Adds variables, and what is computed from them.
#[tactic(auto, unfolding(crate::specs::Games::function_text))]
fn write_function(
    head: Word,
    params: &List<ParamTree>,
    results: &List<ResultTree>,
    alloc: Global,
    out: &mut Text,
) -> Result<(), AllocError>
    ensures { OnOk result (out.new ≡ out.old ++ function_text head params.now results.now) }
{
    write_word(head, out)?;
    write_mark(Mark::LeftParen, out)?;
    write_params(params, alloc, out)?;
    write_mark(Mark::RightParen, out)?;
    write_mark(Mark::Arrow, out)?;
    write_mark(Mark::LeftParen, out)?;
    write_results(results, alloc, out)?;
    write_mark(Mark::RightParen, out)
}

/// Adds wires that are passed on as they are.
#[tactic(auto, unfolding(crate::specs::Games::identity_text))]
fn write_identity(
    forward: &List<TyTree>,
    backward: &List<TyTree>,
    alloc: Global,
    out: &mut Text,
) -> Result<(), AllocError>
    ensures { OnOk result (out.new ≡ out.old ++ identity_text forward.now backward.now) }
{
    write_word(Word::Identity, out)?;
    write_types(forward, alloc, out)?;
    write_types(backward, alloc, out)
}
