//! Expressions of the canonical text. How tightly an operation binds is a number, its level: the higher, the
//! tighter. Round brackets stand where a place asks for a higher level than the expression's.
ghost use Rattle.std.specs.Prelude.{◌≡◌, ◌++◌, OnOk, flat_map, map};
ghost use Rattle.og_canonical.specs.Tokens.{mark, word, number, joined, in_parens, in_braces};
ghost use Rattle.og_canonical.specs.Expressions.{at_least, op_mark, sum_part, product_part, arm_text, table_row_text};
ghost use Rattle.og_canonical.specs.Expressions.{path_text, shown, expr_text, exprs_text, results_text};

use crate::tokens::{write_mark, write_number, write_token, write_whole, write_word};
use crate::types::{write_range, write_type};
use crate::values::write_key;
use og_lex::{Mark, Word};
use og_list::{List, Text};
use og_syntax::{CompareOp, ExprTree, IfArm, ProductPart, ResultTree, SumPart, TableRow};
use std::alloc::{AllocError, Global};

/// The level of `or`, the least: any expression may stand where it is asked for.
const OR: u8 = 1;
/// The level of `and`.
const AND: u8 = 2;
/// The level of `not`.
const NOT: u8 = 3;
/// The level of comparisons.
const COMPARE: u8 = 4;
/// The level of `+` and `-` between two parts.
const SUM: u8 = 5;
/// The level of `*` and `/`.
const PRODUCT: u8 = 6;
/// The level of literal numbers, and of a minus before an expression.
const UNARY: u8 = 7;
/// The level of all else.
const TIGHT: u8 = 8;

/// How the comparison is written.
fn compare_mark(op: CompareOp) -> Mark
    ensures { result ≡ op_mark op }
{
    match op {
        CompareOp::Equal => Mark::Equal,
        CompareOp::Differs => Mark::Differs,
        CompareOp::Less => Mark::Less,
        CompareOp::AtMost => Mark::AtMost,
        CompareOp::Greater => Mark::Greater,
        CompareOp::AtLeast => Mark::AtLeast,
    }
}

/// How tightly the expression's outermost operation binds.
#[tactic(auto, using(crate::proofs::ExprForms::forms))]
fn level(expr: &ExprTree) -> u8
    ensures { result ≡ (shown expr.now).level }
{
    match expr {
        ExprTree::Or(..) => OR,
        ExprTree::And(..) => AND,
        ExprTree::Not(..) => NOT,
        ExprTree::Compare { .. } => COMPARE,
        ExprTree::Sum { .. } => SUM,
        ExprTree::Product { .. } => PRODUCT,
        ExprTree::Number(..) | ExprTree::Neg(..) => UNARY,
        ExprTree::Flag(..) | ExprTree::Name(..) | ExprTree::Call { .. } => TIGHT,
        ExprTree::Field { .. } | ExprTree::Tuple(..) | ExprTree::If { .. } => TIGHT,
        ExprTree::Table { .. } | ExprTree::Ratio { .. } => TIGHT,
        ExprTree::Min(..) | ExprTree::Max(..) | ExprTree::Clamp { .. } => TIGHT,
    }
}

/// Adds an expression where any may stand.
pub(crate) fn write_expr(expr: &ExprTree, alloc: Global, out: &mut Text) -> Result<(), AllocError>
    ensures { OnOk result (out.new ≡ out.old ++ expr_text expr.now) }
{
    write_at(expr, OR, alloc, out)
}

/// Adds an expression where at least this level is asked for.
#[cycle(expression_texts)]
#[tactic(auto, unfolding(crate::specs::Expressions::at_least))]
fn write_at(expr: &ExprTree, asked: u8, alloc: Global, out: &mut Text) -> Result<(), AllocError>
    ensures { OnOk result (out.new ≡ out.old ++ at_least asked (shown expr.now)) }
{
    if level(expr) >= asked {
        return write_form(expr, alloc, out);
    }
    write_mark(Mark::LeftParen, out)?;
    write_form(expr, alloc, out)?;
    write_mark(Mark::RightParen, out)
}

/// Adds a mark, and an expression where at least this level is asked for.
#[cycle(expression_texts)]
fn write_behind(
    expr: &ExprTree,
    before: Mark,
    asked: u8,
    alloc: Global,
    out: &mut Text,
) -> Result<(), AllocError>
    ensures { OnOk result (out.new ≡ out.old ++ (mark before ++ at_least asked (shown expr.now))) }
{
    write_mark(before, out)?;
    write_at(expr, asked, alloc, out)
}

/// Adds a word, and the first expression in the round brackets behind it.
#[cycle(expression_texts)]
fn write_opened(
    expr: &ExprTree,
    before: Word,
    alloc: Global,
    out: &mut Text,
) -> Result<(), AllocError>
    ensures { OnOk result (out.new ≡ out.old ++ (word before ++ mark Mark.LeftParen ++ expr_text expr.now)) }
{
    write_word(before, out)?;
    write_behind(expr, Mark::LeftParen, OR, alloc, out)
}

/// Adds a mark, and the last expression in round brackets.
#[cycle(expression_texts)]
fn write_closed(
    expr: &ExprTree,
    before: Mark,
    alloc: Global,
    out: &mut Text,
) -> Result<(), AllocError>
    ensures { OnOk result (out.new ≡ out.old ++ (mark before ++ expr_text expr.now ++ mark Mark.RightParen)) }
{
    write_behind(expr, before, OR, alloc, out)?;
    write_mark(Mark::RightParen, out)
}

/// Adds what holds where no condition is true.
#[cycle(expression_texts)]
fn write_else(expr: &ExprTree, alloc: Global, out: &mut Text) -> Result<(), AllocError>
    ensures { OnOk result (out.new ≡ out.old ++ (word Word.Else ++ expr_text expr.now ++ word Word.End)) }
{
    write_word(Word::Else, out)?;
    write_at(expr, OR, alloc, out)?;
    write_word(Word::End, out)
}

/// Adds an expression without round brackets around it.
#[cycle(expression_texts)]
#[tactic(auto, using(crate::proofs::ExprForms::forms))]
fn write_form(expr: &ExprTree, alloc: Global, out: &mut Text) -> Result<(), AllocError>
    ensures { OnOk result (out.new ≡ out.old ++ (shown expr.now).text) }
{
    match expr {
        ExprTree::Number(_, number) => write_whole(alloc, *number, out),
        ExprTree::Flag(_, flag) => write_word(if *flag { Word::True } else { Word::False }, out),
        ExprTree::Name(_, name) => write_token(name.as_str(), out),
        ExprTree::Call { name, args, .. } => {
            write_token(name.as_str(), out)?;
            write_tuple(args, alloc, out)
        }
        ExprTree::Or(_, parts) => write_chain(parts, Word::Or, AND, alloc, out),
        ExprTree::And(_, parts) => write_chain(parts, Word::And, NOT, alloc, out),
        ExprTree::Not(_, part) => {
            write_word(Word::Not, out)?;
            write_at(part.get(), COMPARE, alloc, out)
        }
        ExprTree::Compare {
            op,
            left,
            right,
            ..
        } => {
            write_at(left.get(), SUM, alloc, out)?;
            write_behind(right.get(), compare_mark(*op), SUM, alloc, out)
        }
        ExprTree::Sum { first, rest, .. } => {
            write_at(first.get(), PRODUCT, alloc, out)?;
            write_sum_parts(rest, alloc, out)
        }
        ExprTree::Product { first, rest, .. } => {
            write_at(first.get(), UNARY, alloc, out)?;
            write_product_parts(rest, alloc, out)
        }
        ExprTree::Neg(_, part) => write_behind(part.get(), Mark::Minus, TIGHT, alloc, out),
        ExprTree::Field { part, path, .. } => {
            write_at(part.get(), TIGHT, alloc, out)?;
            write_path(alloc, path, out)
        }
        ExprTree::Tuple(_, parts) => write_tuple(parts, alloc, out),
        ExprTree::If {
            arms,
            otherwise,
            ..
        } => {
            write_word(Word::If, out)?;
            write_arms(arms, alloc, out)?;
            write_else(otherwise.get(), alloc, out)
        }
        ExprTree::Table { keys, rows, .. } => {
            write_word(Word::Table, out)?;
            write_keys(keys, alloc, out)?;
            write_table_rows(rows, alloc, out)
        }
        ExprTree::Ratio {
            x,
            y,
            otherwise,
            ..
        } => {
            write_opened(x.get(), Word::Ratio, alloc, out)?;
            write_behind(y.get(), Mark::Comma, OR, alloc, out)?;
            write_closed(otherwise.get(), Mark::Comma, alloc, out)
        }
        ExprTree::Min(_, first, second) => {
            write_opened(first.get(), Word::Min, alloc, out)?;
            write_closed(second.get(), Mark::Comma, alloc, out)
        }
        ExprTree::Max(_, first, second) => {
            write_opened(first.get(), Word::Max, alloc, out)?;
            write_closed(second.get(), Mark::Comma, alloc, out)
        }
        ExprTree::Clamp { lo, hi, part, .. } => {
            write_word(Word::Clamp, out)?;
            write_range(alloc, *lo, *hi, out)?;
            write_closed(part.get(), Mark::LeftParen, alloc, out)
        }
    }
}

/// Adds the expressions in round brackets, with a comma between each two.
#[cycle(expression_texts)]
fn write_tuple(exprs: &List<ExprTree>, alloc: Global, out: &mut Text) -> Result<(), AllocError>
    ensures { OnOk result (out.new ≡ out.old ++ in_parens (exprs_text exprs.now)) }
{
    write_mark(Mark::LeftParen, out)?;
    write_exprs(exprs, alloc, out)?;
    write_mark(Mark::RightParen, out)
}

/// Adds the expressions, with a comma between each two.
#[cycle(expression_texts)]
pub(crate) fn write_exprs(
    exprs: &List<ExprTree>,
    alloc: Global,
    out: &mut Text,
) -> Result<(), AllocError>
    ensures { OnOk result (out.new ≡ out.old ++ exprs_text exprs.now) }
{
    'exprs: for (at, expr) in exprs.as_slice().iter().enumerate() {
        if at > 0 {
            write_mark(Mark::Comma, out)?;
        }
        write_at(expr, OR, alloc, out)?;
    }
    Ok(())
}

/// Adds the parts of a chain, with the word between each two.
#[cycle(expression_texts)]
fn write_chain(
    parts: &List<ExprTree>,
    between: Word,
    asked: u8,
    alloc: Global,
    out: &mut Text,
) -> Result<(), AllocError>
    ensures { OnOk result (out.new ≡ out.old ++ joined (word between) (map (λ e. at_least asked (shown e)) parts.now)) }
{
    'parts: for (at, part) in parts.as_slice().iter().enumerate() {
        if at > 0 {
            write_word(between, out)?;
        }
        write_at(part, asked, alloc, out)?;
    }
    Ok(())
}

/// Adds the further parts of a sum, each behind its mark.
#[cycle(expression_texts)]
fn write_sum_parts(parts: &List<SumPart>, alloc: Global, out: &mut Text) -> Result<(), AllocError>
    ensures { OnOk result (out.new ≡ out.old ++ flat_map (sum_part (λ e. at_least 6 (shown e))) parts.now) }
{
    'parts: for part in parts.as_slice() {
        match part {
            SumPart::Plus(expr) => write_behind(expr, Mark::Plus, PRODUCT, alloc, out)?,
            SumPart::Minus(expr) => write_behind(expr, Mark::Minus, PRODUCT, alloc, out)?,
        }
    }
    Ok(())
}

/// Adds the further parts of a product, each behind its mark.
#[cycle(expression_texts)]
fn write_product_parts(
    parts: &List<ProductPart>,
    alloc: Global,
    out: &mut Text,
) -> Result<(), AllocError>
    ensures { OnOk result (out.new ≡ out.old ++ flat_map (product_part (λ e. at_least 7 (shown e))) parts.now) }
{
    'parts: for part in parts.as_slice() {
        match part {
            ProductPart::Times(expr) => write_behind(expr, Mark::Star, UNARY, alloc, out)?,
            ProductPart::Over(divisor) => write_numbered(alloc, Mark::Slash, *divisor, out)?,
        }
    }
    Ok(())
}

/// Adds the conditions, each with what holds under it, with `elif` between each two.
#[cycle(expression_texts)]
fn write_arms(arms: &List<IfArm>, alloc: Global, out: &mut Text) -> Result<(), AllocError>
    ensures { OnOk result (out.new ≡ out.old ++ joined (word Word.Elif) (map (arm_text expr_text) arms.now)) }
{
    'arms: for (at, arm) in arms.as_slice().iter().enumerate() {
        if at > 0 {
            write_word(Word::Elif, out)?;
        }
        write_at(&arm.cond, OR, alloc, out)?;
        write_word(Word::Then, out)?;
        write_at(&arm.body, OR, alloc, out)?;
    }
    Ok(())
}

/// Adds the keys of a table.
#[cycle(expression_texts)]
fn write_keys(keys: &List<ResultTree>, alloc: Global, out: &mut Text) -> Result<(), AllocError>
    ensures { OnOk result (out.new ≡ out.old ++ in_parens (results_text keys.now)) }
{
    write_mark(Mark::LeftParen, out)?;
    write_results(keys, alloc, out)?;
    write_mark(Mark::RightParen, out)
}

/// Adds the expressions with their types, with a comma between each two.
#[cycle(expression_texts)]
pub(crate) fn write_results(
    results: &List<ResultTree>,
    alloc: Global,
    out: &mut Text,
) -> Result<(), AllocError>
    ensures { OnOk result (out.new ≡ out.old ++ results_text results.now) }
{
    'results: for (at, typed) in results.as_slice().iter().enumerate() {
        if at > 0 {
            write_mark(Mark::Comma, out)?;
        }
        write_at(&typed.expr, OR, alloc, out)?;
        write_mark(Mark::Colon, out)?;
        write_type(&typed.ty, alloc, out)?;
    }
    Ok(())
}

/// Adds the rows of a table, in braces.
#[cycle(expression_texts)]
fn write_table_rows(rows: &List<TableRow>, alloc: Global, out: &mut Text) -> Result<(), AllocError>
    ensures { OnOk result (out.new ≡ out.old ++ in_braces (flat_map (table_row_text expr_text) rows.now)) }
{
    write_mark(Mark::LeftBrace, out)?;
    'rows: for row in rows.as_slice() {
        write_key(&row.key, alloc, out)?;
        write_mark(Mark::Arrow, out)?;
        write_at(&row.body, OR, alloc, out)?;
        write_mark(Mark::Semicolon, out)?;
    }
    write_mark(Mark::RightBrace, out)
}

/// Adds the components of a path, each behind a dot.
fn write_path(alloc: Global, path: &List<u64>, out: &mut Text) -> Result<(), AllocError>
    ensures { OnOk result (out.new ≡ out.old ++ path_text path.now) }
{
    'path: for component in path.as_slice() {
        write_numbered(alloc, Mark::Dot, *component, out)?;
    }
    Ok(())
}

/// Adds a mark and a number.
fn write_numbered(alloc: Global, before: Mark, n: u64, out: &mut Text) -> Result<(), AllocError>
    ensures { OnOk result (out.new ≡ out.old ++ (mark before ++ number n)) }
{
    write_mark(before, out)?;
    write_number(alloc, n, out)
}
