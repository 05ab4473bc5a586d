//! What expressions are made of. The reader of expressions that stand inside others is handed in, so that each
//! function here is proved by itself.
ghost use Rattle.std.specs.Prelude.{◌≡◌, IfOk};
ghost use Rattle.og_grammar.specs.Reading.{first, sees_any};
ghost use Rattle.og_language.specs.Begins.{tables};
ghost use Rattle.og_language.specs.Trees.{field_of, product_of, sum_of};
ghost use Rattle.og_terms.specs.Chains.{IsOnly, first_place};
ghost use Rattle.og_terms.specs.Nests.{Nests};
ghost use Rattle.og_terms.specs.Rooms.{Reads};
ghost use Rattle.og_language.specs.Grammar as grammar;

use crate::names::{bound, name, nonzero};
use crate::types::ty;
use crate::values::some_values;
use og_grammar::{Fault, Terminal, Tokens, commas_or_none, many, separated, with};
use og_lex::{Mark, Word};
use og_list::{Boxed, List};
use og_syntax::{
    CompareOp, ExprTree, IfArm, ProductPart, ResultTree, SumPart, TableRow, ValueTree, new_box,
};
use std::alloc::{AllocError, Global};

/// Reads parts of expressions, in a room: how deep nonterminals may still stand in one another.
#[derive(Clone, Copy)]
pub(crate) struct Inner<F> {
    pub(crate) alloc: Global,
    pub(crate) room: usize,
    pub(crate) expr: F,
}

impl<F: Fn(Global, &mut Tokens<'_>, usize) -> Result<ExprTree, Fault>> Inner<F> {
    /// An expression inside another.
    pub(crate) fn expr(&self, tokens: &mut Tokens<'_>) -> Result<ExprTree, Fault>
        requires { Nests self.now.room (F.pre self.now.expr) (F.post self.now.expr) }
        ensures { Reads self.now.room grammar.expr tokens.old result tokens.new }
    {
        (self.expr)(self.alloc, tokens, self.room)
    }

    /// Expressions with commas between, or none.
    pub(crate) fn exprs_or_none(&self, tokens: &mut Tokens<'_>) -> Result<List<ExprTree>, Fault>
        requires { Nests self.now.room (F.pre self.now.expr) (F.post self.now.expr) }
        ensures { Reads self.now.room grammar.exprs_or_none tokens.old result tokens.new }
    {
        let begins = [
            Terminal::Word(Word::Not),
            Terminal::Mark(Mark::Minus),
            Terminal::Number,
            Terminal::Name,
            Terminal::Under,
            Terminal::Word(Word::True),
            Terminal::Word(Word::False),
            Terminal::Mark(Mark::LeftParen),
            Terminal::Word(Word::If),
            Terminal::Word(Word::Table),
            Terminal::Word(Word::Ratio),
            Terminal::Word(Word::Min),
            Terminal::Word(Word::Max),
            Terminal::Word(Word::Clamp),
        ];
        commas_or_none(
            self.alloc,
            tokens,
            self.room,
            &begins,
            |_, tokens: &mut Tokens<'_>, _| self.expr(tokens),
        )
    }

    /// `CONDITION then EXPRESSION`
    #[tactic(auto, unfolding(og_language::specs::Grammar::arm))]
    fn arm(&self, tokens: &mut Tokens<'_>) -> Result<IfArm, Fault>
        requires { Nests self.now.room (F.pre self.now.expr) (F.post self.now.expr) }
        ensures { Reads self.now.room grammar.arm tokens.old result tokens.new }
    {
        let cond = self.expr(tokens)?;
        let (cond, _) = with(cond, tokens.take(Terminal::Word(Word::Then)))?;
        let (cond, body) = with(cond, self.expr(tokens))?;
        Ok(IfArm { cond, body })
    }

    /// `ARM elif ARM ..`, one or more.
    fn arms(&self, tokens: &mut Tokens<'_>) -> Result<List<IfArm>, Fault>
        requires { Nests self.now.room (F.pre self.now.expr) (F.post self.now.expr) }
        ensures { Reads self.now.room grammar.arms tokens.old result tokens.new }
    {
        separated(
            self.alloc,
            tokens,
            self.room,
            Terminal::Word(Word::Elif),
            |_, tokens: &mut Tokens<'_>, _| self.arm(tokens),
        )
    }

    /// `else EXPRESSION end`
    #[tactic(auto, unfolding(og_language::specs::Grammar::otherwise))]
    fn otherwise(&self, tokens: &mut Tokens<'_>) -> Result<ExprTree, Fault>
        requires { Nests self.now.room (F.pre self.now.expr) (F.post self.now.expr) }
        ensures { Reads self.now.room grammar.otherwise tokens.old result tokens.new }
    {
        tokens.take(Terminal::Word(Word::Else))?;
        let otherwise = self.expr(tokens)?;
        let (otherwise, _) = with(otherwise, tokens.take(Terminal::Word(Word::End)))?;
        Ok(otherwise)
    }

    /// `if ARMS OTHERWISE`
    #[tactic(auto, unfolding(og_language::specs::Grammar::choice))]
    fn choice(&self, tokens: &mut Tokens<'_>) -> Result<ExprTree, Fault>
        requires { Nests self.now.room (F.pre self.now.expr) (F.post self.now.expr) }
        ensures { Reads self.now.room grammar.choice tokens.old result tokens.new }
    {
        let at = tokens.take(Terminal::Word(Word::If))?;
        let arms = self.arms(tokens)?;
        let otherwise = self.otherwise(tokens)?;
        let otherwise = new_box(self.alloc, otherwise)?;
        Ok(ExprTree::If {
            at,
            arms,
            otherwise,
        })
    }

    /// `( EXPRESSION , .. )`, or `( )`.
    #[tactic(auto, unfolding(og_language::specs::Grammar::args_in_brackets))]
    fn args_in_brackets(&self, tokens: &mut Tokens<'_>) -> Result<List<ExprTree>, Fault>
        requires { Nests self.now.room (F.pre self.now.expr) (F.post self.now.expr) }
        ensures { Reads self.now.room grammar.args_in_brackets tokens.old result tokens.new }
    {
        tokens.take(Terminal::Mark(Mark::LeftParen))?;
        let args = self.exprs_or_none(tokens)?;
        tokens.take(Terminal::Mark(Mark::RightParen))?;
        Ok(args)
    }

    /// A name, with arguments or without.
    #[tactic(auto, unfolding(og_language::specs::Grammar::named, og_language::specs::Grammar::args_in_brackets))]
    fn named(&self, tokens: &mut Tokens<'_>) -> Result<ExprTree, Fault>
        requires { Nests self.now.room (F.pre self.now.expr) (F.post self.now.expr) }
        ensures { Reads self.now.room grammar.named tokens.old result tokens.new }
    {
        let at = tokens.place();
        let name = name(self.alloc, tokens, self.room)?;
        if tokens.sees(Terminal::Mark(Mark::LeftParen)) {
            let args = self.args_in_brackets(tokens)?;
            Ok(ExprTree::Call { at, name, args })
        } else {
            Ok(ExprTree::Name(at, name))
        }
    }

    /// Expressions with commas between, one or more.
    fn some_exprs(&self, tokens: &mut Tokens<'_>) -> Result<List<ExprTree>, Fault>
        requires { Nests self.now.room (F.pre self.now.expr) (F.post self.now.expr) }
        ensures { Reads self.now.room grammar.some_exprs tokens.old result tokens.new }
    {
        separated(
            self.alloc,
            tokens,
            self.room,
            Terminal::Mark(Mark::Comma),
            |_, tokens: &mut Tokens<'_>, _| self.expr(tokens),
        )
    }

    /// `( EXPRESSION , .. )`: brackets round one expression leave no node.
    #[tactic(auto, unfolding(og_language::specs::Grammar::group))]
    fn group(&self, tokens: &mut Tokens<'_>) -> Result<ExprTree, Fault>
        requires { Nests self.now.room (F.pre self.now.expr) (F.post self.now.expr) }
        ensures { Reads self.now.room grammar.group tokens.old result tokens.new }
    {
        let at = tokens.take(Terminal::Mark(Mark::LeftParen))?;
        let parts = self.some_exprs(tokens)?;
        tokens.take(Terminal::Mark(Mark::RightParen))?;
        match only(parts) {
            Ok(expr) => Ok(expr),
            Err(parts) => Ok(ExprTree::Tuple(at, parts)),
        }
    }

    /// `EXPRESSION : TYPE`
    #[tactic(auto, unfolding(og_language::specs::Grammar::result))]
    pub(crate) fn result(&self, tokens: &mut Tokens<'_>) -> Result<ResultTree, Fault>
        requires { Nests self.now.room (F.pre self.now.expr) (F.post self.now.expr) }
        ensures { Reads self.now.room grammar.result tokens.old result tokens.new }
    {
        let expr = self.expr(tokens)?;
        let (expr, _) = with(expr, tokens.take(Terminal::Mark(Mark::Colon)))?;
        let (expr, ty) = with(expr, ty(self.alloc, tokens, self.room))?;
        Ok(ResultTree { expr, ty })
    }

    /// `( VALUE , .. )`, with its place.
    #[tactic(auto, unfolding(og_language::specs::Grammar::table_key))]
    fn table_key(&self, tokens: &mut Tokens<'_>) -> Result<(u32, List<ValueTree>), Fault>
        requires { Nests self.now.room (F.pre self.now.expr) (F.post self.now.expr) }
        ensures { Reads self.now.room grammar.table_key tokens.old result tokens.new }
    {
        let at = tokens.take(Terminal::Mark(Mark::LeftParen))?;
        let key = some_values(self.alloc, tokens, self.room)?;
        tokens.take(Terminal::Mark(Mark::RightParen))?;
        Ok((at, key))
    }

    /// `TABLE_KEY -> EXPRESSION ;`
    #[tactic(auto, unfolding(og_language::specs::Grammar::table_row))]
    fn table_row(&self, tokens: &mut Tokens<'_>) -> Result<TableRow, Fault>
        requires { Nests self.now.room (F.pre self.now.expr) (F.post self.now.expr) }
        ensures { Reads self.now.room grammar.table_row tokens.old result tokens.new }
    {
        let (at, key) = self.table_key(tokens)?;
        tokens.take(Terminal::Mark(Mark::Arrow))?;
        let (key, body) = with(key, self.expr(tokens))?;
        let (body, _) = with(body, tokens.take(Terminal::Mark(Mark::Semicolon)))?;
        Ok(TableRow { at, key, body })
    }

    /// Results with commas between, one or more.
    fn some_results(&self, tokens: &mut Tokens<'_>) -> Result<List<ResultTree>, Fault>
        requires { Nests self.now.room (F.pre self.now.expr) (F.post self.now.expr) }
        ensures { Reads self.now.room grammar.some_results tokens.old result tokens.new }
    {
        separated(
            self.alloc,
            tokens,
            self.room,
            Terminal::Mark(Mark::Comma),
            |_, tokens: &mut Tokens<'_>, _| self.result(tokens),
        )
    }

    /// `( RESULT , .. )`
    #[tactic(auto, unfolding(og_language::specs::Grammar::table_keys))]
    fn table_keys(&self, tokens: &mut Tokens<'_>) -> Result<List<ResultTree>, Fault>
        requires { Nests self.now.room (F.pre self.now.expr) (F.post self.now.expr) }
        ensures { Reads self.now.room grammar.table_keys tokens.old result tokens.new }
    {
        tokens.take(Terminal::Mark(Mark::LeftParen))?;
        let keys = self.some_results(tokens)?;
        tokens.take(Terminal::Mark(Mark::RightParen))?;
        Ok(keys)
    }

    /// Rows of a table, as many as there are.
    fn table_rows_or_none(&self, tokens: &mut Tokens<'_>) -> Result<List<TableRow>, Fault>
        requires { Nests self.now.room (F.pre self.now.expr) (F.post self.now.expr) }
        ensures { Reads self.now.room grammar.table_rows_or_none tokens.old result tokens.new }
    {
        many(
            self.alloc,
            tokens,
            self.room,
            &[Terminal::Mark(Mark::LeftParen)],
            |_, tokens: &mut Tokens<'_>, _| self.table_row(tokens),
        )
    }

    /// `{ TABLE_ROW .. }`
    #[tactic(auto, unfolding(og_language::specs::Grammar::table_rows))]
    fn table_rows(&self, tokens: &mut Tokens<'_>) -> Result<List<TableRow>, Fault>
        requires { Nests self.now.room (F.pre self.now.expr) (F.post self.now.expr) }
        ensures { Reads self.now.room grammar.table_rows tokens.old result tokens.new }
    {
        tokens.take(Terminal::Mark(Mark::LeftBrace))?;
        let rows = self.table_rows_or_none(tokens)?;
        tokens.take(Terminal::Mark(Mark::RightBrace))?;
        Ok(rows)
    }

    /// `table TABLE_KEYS TABLE_ROWS`
    #[tactic(auto, unfolding(og_language::specs::Grammar::table))]
    fn table(&self, tokens: &mut Tokens<'_>) -> Result<ExprTree, Fault>
        requires { Nests self.now.room (F.pre self.now.expr) (F.post self.now.expr) }
        ensures { Reads self.now.room grammar.table tokens.old result tokens.new }
    {
        let at = tokens.take(Terminal::Word(Word::Table))?;
        let keys = self.table_keys(tokens)?;
        let rows = self.table_rows(tokens)?;
        Ok(ExprTree::Table { at, keys, rows })
    }

    /// `EXPRESSION , EXPRESSION`
    #[tactic(auto, unfolding(og_language::specs::Grammar::two_exprs))]
    fn two_exprs(
        &self,
        tokens: &mut Tokens<'_>,
    ) -> Result<(Boxed<ExprTree>, Boxed<ExprTree>), Fault>
        requires { Nests self.now.room (F.pre self.now.expr) (F.post self.now.expr) }
        ensures { Reads self.now.room grammar.two_exprs tokens.old result tokens.new }
    {
        let left = self.boxed(tokens)?;
        tokens.take(Terminal::Mark(Mark::Comma))?;
        let right = self.boxed(tokens)?;
        Ok((left, right))
    }

    /// An expression behind a pointer.
    fn boxed(&self, tokens: &mut Tokens<'_>) -> Result<Boxed<ExprTree>, Fault>
        requires { Nests self.now.room (F.pre self.now.expr) (F.post self.now.expr) }
        ensures { Reads self.now.room grammar.expr tokens.old result tokens.new }
    {
        let expr = self.expr(tokens)?;
        Ok(new_box(self.alloc, expr)?)
    }

    /// `( EXPRESSION , EXPRESSION )`
    #[tactic(auto, unfolding(og_language::specs::Grammar::pair))]
    fn pair(&self, tokens: &mut Tokens<'_>) -> Result<(Boxed<ExprTree>, Boxed<ExprTree>), Fault>
        requires { Nests self.now.room (F.pre self.now.expr) (F.post self.now.expr) }
        ensures { Reads self.now.room grammar.pair tokens.old result tokens.new }
    {
        tokens.take(Terminal::Mark(Mark::LeftParen))?;
        let pair = self.two_exprs(tokens)?;
        tokens.take(Terminal::Mark(Mark::RightParen))?;
        Ok(pair)
    }

    /// `( EXPRESSION , EXPRESSION , EXPRESSION )`
    #[tactic(auto, unfolding(og_language::specs::Grammar::triple))]
    fn triple(
        &self,
        tokens: &mut Tokens<'_>,
    ) -> Result<(Boxed<ExprTree>, (Boxed<ExprTree>, Boxed<ExprTree>)), Fault>
        requires { Nests self.now.room (F.pre self.now.expr) (F.post self.now.expr) }
        ensures { Reads self.now.room grammar.triple tokens.old result tokens.new }
    {
        tokens.take(Terminal::Mark(Mark::LeftParen))?;
        let first = self.boxed(tokens)?;
        tokens.take(Terminal::Mark(Mark::Comma))?;
        let others = self.two_exprs(tokens)?;
        tokens.take(Terminal::Mark(Mark::RightParen))?;
        Ok((first, others))
    }

    /// `ratio TRIPLE`
    #[tactic(auto, unfolding(og_language::specs::Grammar::ratio))]
    fn ratio(&self, tokens: &mut Tokens<'_>) -> Result<ExprTree, Fault>
        requires { Nests self.now.room (F.pre self.now.expr) (F.post self.now.expr) }
        ensures { Reads self.now.room grammar.ratio tokens.old result tokens.new }
    {
        let at = tokens.take(Terminal::Word(Word::Ratio))?;
        let (x, (y, otherwise)) = self.triple(tokens)?;
        Ok(ExprTree::Ratio {
            at,
            x,
            y,
            otherwise,
        })
    }

    /// `min PAIR`, or `max PAIR`.
    #[tactic(auto, unfolding(og_language::specs::Grammar::extremum))]
    fn extremum(&self, tokens: &mut Tokens<'_>) -> Result<ExprTree, Fault>
        requires { Nests self.now.room (F.pre self.now.expr) (F.post self.now.expr) }
        ensures { Reads self.now.room grammar.extremum tokens.old result tokens.new }
    {
        if tokens.sees(Terminal::Word(Word::Min)) {
            let at = tokens.take(Terminal::Word(Word::Min))?;
            let (left, right) = self.pair(tokens)?;
            Ok(ExprTree::Min(at, left, right))
        } else {
            let at = tokens.take(Terminal::Word(Word::Max))?;
            let (left, right) = self.pair(tokens)?;
            Ok(ExprTree::Max(at, left, right))
        }
    }

    /// `( EXPRESSION )`
    #[tactic(auto, unfolding(og_language::specs::Grammar::bracketed))]
    fn bracketed(&self, tokens: &mut Tokens<'_>) -> Result<Boxed<ExprTree>, Fault>
        requires { Nests self.now.room (F.pre self.now.expr) (F.post self.now.expr) }
        ensures { Reads self.now.room grammar.bracketed tokens.old result tokens.new }
    {
        tokens.take(Terminal::Mark(Mark::LeftParen))?;
        let part = self.boxed(tokens)?;
        tokens.take(Terminal::Mark(Mark::RightParen))?;
        Ok(part)
    }

    /// `clamp BOUND .. BOUND ( EXPRESSION )`
    #[tactic(auto, unfolding(og_language::specs::Grammar::clamp))]
    fn clamp(&self, tokens: &mut Tokens<'_>) -> Result<ExprTree, Fault>
        requires { Nests self.now.room (F.pre self.now.expr) (F.post self.now.expr) }
        ensures { Reads self.now.room grammar.clamp tokens.old result tokens.new }
    {
        let at = tokens.take(Terminal::Word(Word::Clamp))?;
        let (lo_at, (lo, hi)) = limits(tokens, self.room)?;
        let part = self.bracketed(tokens)?;
        Ok(ExprTree::Clamp {
            at,
            lo_at,
            lo,
            hi,
            part,
        })
    }

    /// `true`, or `false`.
    #[tactic(auto, unfolding(og_language::specs::Grammar::flag))]
    fn flag(&self, tokens: &mut Tokens<'_>) -> Result<ExprTree, Fault>
        requires { Nests self.now.room (F.pre self.now.expr) (F.post self.now.expr) }
        ensures { Reads self.now.room grammar.flag tokens.old result tokens.new }
    {
        if tokens.sees(Terminal::Word(Word::True)) {
            let at = tokens.take(Terminal::Word(Word::True))?;
            Ok(ExprTree::Flag(at, true))
        } else {
            let at = tokens.take(Terminal::Word(Word::False))?;
            Ok(ExprTree::Flag(at, false))
        }
    }

    /// What begins with a word or a bracket of its own.
    #[tactic(auto, unfolding(og_language::specs::Grammar::form, og_language::specs::Grammar::group, og_language::specs::Grammar::choice, og_language::specs::Grammar::table, og_language::specs::Grammar::ratio, og_language::specs::Grammar::extremum))]
    fn form(&self, tokens: &mut Tokens<'_>) -> Result<ExprTree, Fault>
        requires { Nests self.now.room (F.pre self.now.expr) (F.post self.now.expr) }
        ensures { Reads self.now.room grammar.form tokens.old result tokens.new }
    {
        if tokens.sees(Terminal::Mark(Mark::LeftParen)) {
            self.group(tokens)
        } else if tokens.sees(Terminal::Word(Word::If)) {
            self.choice(tokens)
        } else if tokens.sees(Terminal::Word(Word::Table)) {
            self.table(tokens)
        } else if tokens.sees(Terminal::Word(Word::Ratio)) {
            self.ratio(tokens)
        } else if tokens.sees(Terminal::Word(Word::Min)) || tokens.sees(Terminal::Word(Word::Max)) {
            self.extremum(tokens)
        } else {
            self.clamp(tokens)
        }
    }

    /// A part that no operation stands in front of.
    #[tactic(auto, unfolding(og_language::specs::Grammar::primary, og_language::specs::Grammar::named, og_language::specs::Grammar::name, og_language::specs::Grammar::flag))]
    fn primary(&self, tokens: &mut Tokens<'_>) -> Result<ExprTree, Fault>
        requires { Nests self.now.room (F.pre self.now.expr) (F.post self.now.expr) }
        ensures { Reads self.now.room grammar.primary tokens.old result tokens.new }
    {
        if tokens.sees(Terminal::Name) {
            self.named(tokens)
        } else if tokens.sees(Terminal::Under) {
            let at = tokens.place();
            let name = tokens.spelled(self.alloc, Terminal::Under)?;
            Ok(ExprTree::Name(at, name))
        } else if tokens.sees(Terminal::Word(Word::True))
            || tokens.sees(Terminal::Word(Word::False))
        {
            self.flag(tokens)
        } else {
            self.form(tokens)
        }
    }

    /// Components, one behind another, as many as there are.
    fn path(&self, tokens: &mut Tokens<'_>) -> Result<List<u64>, Fault>
        requires { Nests self.now.room (F.pre self.now.expr) (F.post self.now.expr) }
        ensures { Reads self.now.room grammar.path tokens.old result tokens.new }
    {
        many(
            self.alloc,
            tokens,
            self.room,
            &[Terminal::Mark(Mark::Dot)],
            component,
        )
    }

    /// A primary, or components of it.
    #[tactic(auto, unfolding(og_language::specs::Grammar::field))]
    fn field(&self, tokens: &mut Tokens<'_>) -> Result<ExprTree, Fault>
        requires { Nests self.now.room (F.pre self.now.expr) (F.post self.now.expr) }
        ensures { Reads self.now.room grammar.field tokens.old result tokens.new }
    {
        let (part, path) = with(self.primary(tokens)?, self.path(tokens))?;
        Ok(with_components(self.alloc, part, path)?)
    }

    /// `- NUMBER`, which is one literal, or a minus before another part.
    #[tactic(auto, unfolding(og_language::specs::Grammar::negation))]
    fn negation(&self, tokens: &mut Tokens<'_>) -> Result<ExprTree, Fault>
        requires { Nests self.now.room (F.pre self.now.expr) (F.post self.now.expr) }
        ensures { Reads self.now.room grammar.negation tokens.old result tokens.new }
    {
        let at = tokens.take(Terminal::Mark(Mark::Minus))?;
        if tokens.sees(Terminal::Number) {
            let size = tokens.number()?;
            Ok(ExprTree::Number(at, 0 - size as i64))
        } else {
            let part = self.field(tokens)?;
            Ok(ExprTree::Neg(at, new_box(self.alloc, part)?))
        }
    }

    /// A part of a product.
    #[tactic(auto, unfolding(og_language::specs::Grammar::unary, og_language::specs::Grammar::negation))]
    fn unary(&self, tokens: &mut Tokens<'_>) -> Result<ExprTree, Fault>
        requires { Nests self.now.room (F.pre self.now.expr) (F.post self.now.expr) }
        ensures { Reads self.now.room grammar.unary tokens.old result tokens.new }
    {
        if tokens.sees(Terminal::Mark(Mark::Minus)) {
            self.negation(tokens)
        } else if tokens.sees(Terminal::Number) {
            let at = tokens.place();
            let size = tokens.number()?;
            Ok(ExprTree::Number(at, size as i64))
        } else {
            self.field(tokens)
        }
    }

    /// `* UNARY`, or `/ NUMBER`.
    #[tactic(auto, unfolding(og_language::specs::Grammar::product_part))]
    fn product_part(&self, tokens: &mut Tokens<'_>) -> Result<ProductPart, Fault>
        requires { Nests self.now.room (F.pre self.now.expr) (F.post self.now.expr) }
        ensures { Reads self.now.room grammar.product_part tokens.old result tokens.new }
    {
        if tokens.sees(Terminal::Mark(Mark::Star)) {
            tokens.take(Terminal::Mark(Mark::Star))?;
            Ok(ProductPart::Times(self.unary(tokens)?))
        } else {
            tokens.take(Terminal::Mark(Mark::Slash))?;
            Ok(ProductPart::Over(nonzero(tokens, self.room)?))
        }
    }

    /// Further parts of a product, as many as there are.
    fn product_parts(&self, tokens: &mut Tokens<'_>) -> Result<List<ProductPart>, Fault>
        requires { Nests self.now.room (F.pre self.now.expr) (F.post self.now.expr) }
        ensures { Reads self.now.room grammar.product_parts tokens.old result tokens.new }
    {
        many(
            self.alloc,
            tokens,
            self.room,
            &[Terminal::Mark(Mark::Star), Terminal::Mark(Mark::Slash)],
            |_, tokens: &mut Tokens<'_>, _| self.product_part(tokens),
        )
    }

    /// A chain of `*` and `/`.
    #[tactic(auto, unfolding(og_language::specs::Grammar::product))]
    fn product(&self, tokens: &mut Tokens<'_>) -> Result<ExprTree, Fault>
        requires { Nests self.now.room (F.pre self.now.expr) (F.post self.now.expr) }
        ensures { Reads self.now.room grammar.product tokens.old result tokens.new }
    {
        let (first, rest) = with(self.unary(tokens)?, self.product_parts(tokens))?;
        Ok(product_onto(self.alloc, first, rest)?)
    }

    /// `+ PRODUCT`, or `- PRODUCT`.
    #[tactic(auto, unfolding(og_language::specs::Grammar::sum_part))]
    fn sum_part(&self, tokens: &mut Tokens<'_>) -> Result<SumPart, Fault>
        requires { Nests self.now.room (F.pre self.now.expr) (F.post self.now.expr) }
        ensures { Reads self.now.room grammar.sum_part tokens.old result tokens.new }
    {
        if tokens.sees(Terminal::Mark(Mark::Plus)) {
            tokens.take(Terminal::Mark(Mark::Plus))?;
            Ok(SumPart::Plus(self.product(tokens)?))
        } else {
            tokens.take(Terminal::Mark(Mark::Minus))?;
            Ok(SumPart::Minus(self.product(tokens)?))
        }
    }

    /// Further parts of a sum, as many as there are.
    fn sum_parts(&self, tokens: &mut Tokens<'_>) -> Result<List<SumPart>, Fault>
        requires { Nests self.now.room (F.pre self.now.expr) (F.post self.now.expr) }
        ensures { Reads self.now.room grammar.sum_parts tokens.old result tokens.new }
    {
        many(
            self.alloc,
            tokens,
            self.room,
            &[Terminal::Mark(Mark::Plus), Terminal::Mark(Mark::Minus)],
            |_, tokens: &mut Tokens<'_>, _| self.sum_part(tokens),
        )
    }

    /// A chain of `+` and `-`.
    #[tactic(auto, unfolding(og_language::specs::Grammar::sum))]
    fn sum(&self, tokens: &mut Tokens<'_>) -> Result<ExprTree, Fault>
        requires { Nests self.now.room (F.pre self.now.expr) (F.post self.now.expr) }
        ensures { Reads self.now.room grammar.sum tokens.old result tokens.new }
    {
        let (first, rest) = with(self.product(tokens)?, self.sum_parts(tokens))?;
        Ok(sum_onto(self.alloc, first, rest)?)
    }

    /// A sum, or a comparison of two.
    #[tactic(auto, unfolding(og_language::specs::Grammar::comparison))]
    fn comparison(&self, tokens: &mut Tokens<'_>) -> Result<ExprTree, Fault>
        requires { Nests self.now.room (F.pre self.now.expr) (F.post self.now.expr) }
        ensures { Reads self.now.room grammar.comparison tokens.old result tokens.new }
    {
        let left = self.sum(tokens)?;
        if !sees_comparison(tokens) {
            return Ok(left);
        }
        let at = left.at();
        let (left, (op, right)) = with(left, self.compared(tokens))?;
        let left = new_box(self.alloc, left)?;
        Ok(ExprTree::Compare {
            at,
            op,
            left,
            right,
        })
    }

    /// A comparison's mark, and what stands behind it.
    #[tactic(auto, unfolding(og_language::specs::Grammar::compared))]
    fn compared(&self, tokens: &mut Tokens<'_>) -> Result<(CompareOp, Boxed<ExprTree>), Fault>
        requires { Nests self.now.room (F.pre self.now.expr) (F.post self.now.expr) }
        ensures { Reads self.now.room grammar.compared tokens.old result tokens.new }
    {
        let op = comparison_mark(tokens, self.room)?;
        let right = self.sum(tokens)?;
        Ok((op, new_box(self.alloc, right)?))
    }

    /// A comparison, with `not` before it or without.
    #[tactic(auto, unfolding(og_language::specs::Grammar::inversion))]
    fn inversion(&self, tokens: &mut Tokens<'_>) -> Result<ExprTree, Fault>
        requires { Nests self.now.room (F.pre self.now.expr) (F.post self.now.expr) }
        ensures { Reads self.now.room grammar.inversion tokens.old result tokens.new }
    {
        if tokens.sees(Terminal::Word(Word::Not)) {
            let at = tokens.take(Terminal::Word(Word::Not))?;
            let part = self.comparison(tokens)?;
            Ok(ExprTree::Not(at, new_box(self.alloc, part)?))
        } else {
            self.comparison(tokens)
        }
    }

    /// Parts with `and` between each two, one or more.
    fn inversions(&self, tokens: &mut Tokens<'_>) -> Result<List<ExprTree>, Fault>
        requires { Nests self.now.room (F.pre self.now.expr) (F.post self.now.expr) }
        ensures { Reads self.now.room grammar.inversions tokens.old result tokens.new }
    {
        separated(
            self.alloc,
            tokens,
            self.room,
            Terminal::Word(Word::And),
            |_, tokens: &mut Tokens<'_>, _| self.inversion(tokens),
        )
    }

    /// A chain of `and`.
    #[tactic(auto, unfolding(og_language::specs::Grammar::conjunction))]
    fn conjunction(&self, tokens: &mut Tokens<'_>) -> Result<ExprTree, Fault>
        requires { Nests self.now.room (F.pre self.now.expr) (F.post self.now.expr) }
        ensures { Reads self.now.room grammar.conjunction tokens.old result tokens.new }
    {
        let parts = self.inversions(tokens)?;
        match only(parts) {
            Ok(expr) => Ok(expr),
            Err(parts) => {
                let at = first_place(&parts);
                Ok(ExprTree::And(at, parts))
            }
        }
    }

    /// Parts with `or` between each two, one or more.
    fn conjunctions(&self, tokens: &mut Tokens<'_>) -> Result<List<ExprTree>, Fault>
        requires { Nests self.now.room (F.pre self.now.expr) (F.post self.now.expr) }
        ensures { Reads self.now.room grammar.conjunctions tokens.old result tokens.new }
    {
        separated(
            self.alloc,
            tokens,
            self.room,
            Terminal::Word(Word::Or),
            |_, tokens: &mut Tokens<'_>, _| self.conjunction(tokens),
        )
    }

    /// A chain of `or`.
    #[tactic(auto, unfolding(og_language::specs::Grammar::expression_rule))]
    pub(crate) fn expression_rule(&self, tokens: &mut Tokens<'_>) -> Result<ExprTree, Fault>
        requires { Nests self.now.room (F.pre self.now.expr) (F.post self.now.expr) }
        ensures { Reads self.now.room grammar.expression_rule tokens.old result tokens.new }
    {
        let parts = self.conjunctions(tokens)?;
        match only(parts) {
            Ok(expr) => Ok(expr),
            Err(parts) => {
                let at = first_place(&parts);
                Ok(ExprTree::Or(at, parts))
            }
        }
    }
}

/// `BOUND .. BOUND`, with its place.
#[tactic(auto, unfolding(og_language::specs::Grammar::limits))]
fn limits(tokens: &mut Tokens<'_>, room: usize) -> Result<(u32, (i64, i64)), Fault>
    ensures { Reads room grammar.limits tokens.old result tokens.new }
{
    let at = tokens.place();
    let low = bound(tokens, room)?;
    tokens.take(Terminal::Mark(Mark::DotDot))?;
    let high = bound(tokens, room)?;
    Ok((at, (low, high)))
}

/// `. NUMBER`
#[tactic(auto, unfolding(og_language::specs::Grammar::component))]
fn component(_: Global, tokens: &mut Tokens<'_>, room: usize) -> Result<u64, Fault>
    ensures { Reads room grammar.component tokens.old result tokens.new }
{
    tokens.take(Terminal::Mark(Mark::Dot))?;
    tokens.number()
}

/// Whether a comparison's mark comes next.
#[tactic(auto, unfolding(og_language::specs::Grammar::compared, og_language::specs::Grammar::comparison_mark))]
fn sees_comparison(tokens: &Tokens<'_>) -> bool
    ensures { result ≡ sees_any (first tables grammar.compared) tokens.now }
{
    tokens.sees(Terminal::Mark(Mark::Equal))
        || tokens.sees(Terminal::Mark(Mark::Differs))
        || tokens.sees(Terminal::Mark(Mark::Less))
        || tokens.sees(Terminal::Mark(Mark::AtMost))
        || tokens.sees(Terminal::Mark(Mark::Greater))
        || tokens.sees(Terminal::Mark(Mark::AtLeast))
}

/// A comparison's mark.
#[tactic(auto, unfolding(og_language::specs::Grammar::comparison_mark))]
fn comparison_mark(tokens: &mut Tokens<'_>, room: usize) -> Result<CompareOp, Fault>
    ensures { Reads room grammar.comparison_mark tokens.old result tokens.new }
{
    let (mark, op) = if tokens.sees(Terminal::Mark(Mark::Equal)) {
        (Mark::Equal, CompareOp::Equal)
    } else if tokens.sees(Terminal::Mark(Mark::Differs)) {
        (Mark::Differs, CompareOp::Differs)
    } else if tokens.sees(Terminal::Mark(Mark::Less)) {
        (Mark::Less, CompareOp::Less)
    } else if tokens.sees(Terminal::Mark(Mark::AtMost)) {
        (Mark::AtMost, CompareOp::AtMost)
    } else if tokens.sees(Terminal::Mark(Mark::Greater)) {
        (Mark::Greater, CompareOp::Greater)
    } else {
        (Mark::AtLeast, CompareOp::AtLeast)
    };
    tokens.take(Terminal::Mark(mark))?;
    Ok(op)
}

/// The only expression of the list, or the list where it has none or several.
#[tactic(auto, using(crate::proofs::Chains::only_one, crate::proofs::Chains::not_one))]
fn only(mut parts: List<ExprTree>) -> Result<ExprTree, List<ExprTree>>
    ensures { IsOnly parts result }
{
    if parts.len() != 1 {
        return Err(parts);
    }
    match parts.pop() {
        Some(only) => Ok(only),
        None => Err(parts),
    }
}

/// Where the first expression of the list begins, and 0 where there is none.
fn first_place(parts: &List<ExprTree>) -> u32
    ensures { result ≡ first_place parts.now }
{
    match parts.as_slice() {
        [first, ..] => first.at(),
        [] => 0,
    }
}

/// The product of the first part and the others, or the first part alone where there are no others.
fn product_onto(
    alloc: Global,
    first: ExprTree,
    rest: List<ProductPart>,
) -> Result<ExprTree, AllocError>
    ensures { IfOk result (λ made. made ≡ product_of first rest) }
{
    if rest.is_empty() {
        return Ok(first);
    }
    let at = first.at();
    let first = new_box(alloc, first)?;
    Ok(ExprTree::Product { at, first, rest })
}

/// The sum of the first part and the others, or the first part alone where there are no others.
fn sum_onto(alloc: Global, first: ExprTree, rest: List<SumPart>) -> Result<ExprTree, AllocError>
    ensures { IfOk result (λ made. made ≡ sum_of first rest) }
{
    if rest.is_empty() {
        return Ok(first);
    }
    let at = first.at();
    let first = new_box(alloc, first)?;
    Ok(ExprTree::Sum { at, first, rest })
}

/// The components of the expression, where some are asked for. Components of components are one chain.
#[tactic(auto)]
fn with_components(alloc: Global, part: ExprTree, path: List<u64>) -> Result<ExprTree, AllocError>
    ensures { IfOk result (λ made. made ≡ field_of part path) }
{
    if path.is_empty() {
        return Ok(part);
    }
    match part {
        ExprTree::Field {
            at,
            part,
            path: mut taken,
        } => {
            taken.extend_from_slice(path.as_slice())?;
            Ok(ExprTree::Field {
                at,
                part,
                path: taken,
            })
        }
        part => {
            let at = part.at();
            let part = new_box(alloc, part)?;
            Ok(ExprTree::Field { at, part, path })
        }
    }
}
