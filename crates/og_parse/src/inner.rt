//! What games are made of. The reader of games that stand inside others is handed in, so that each function here is
//! proved by itself.
ghost use Rattle.std.specs.Prelude.{◌≡◌, true, IfOk};
ghost use Rattle.og_language.specs.Trees.{par_onto, seq_onto};
ghost use Rattle.og_terms.specs.Rooms.{Reads};
ghost use Rattle.og_language.specs.Grammar as grammar;
ghost use Rattle.og_parse.specs.NestsGames.{NestsGames};

use crate::atoms::{call, decision, function, identity, library, nature};
use crate::fields::{exprs_field, names_field, params_field, results_field};
use og_grammar::{Fault, Terminal, Tokens, many, with};
use og_lex::{Mark, Word};
use og_list::{Boxed, List};
use og_syntax::{ArmTree, BlockTree, ExprTree, GameTree, LineTree, NameTree, new_box};
use og_terms::{ty, value};
use std::alloc::{AllocError, Global};

/// Reads parts of games, in a room: how deep nonterminals may still stand in one another.
#[derive(Clone, Copy)]
pub(crate) struct Inner<F> {
    pub(crate) alloc: Global,
    pub(crate) room: usize,
    /// Whether branches may stand in the games.
    pub(crate) branches: bool,
    pub(crate) game: F,
}

impl<F: Fn(Global, &mut Tokens<'_>, usize, bool) -> Result<GameTree, Fault>> Inner<F> {
    /// A game inside another.
    fn subgame(&self, tokens: &mut Tokens<'_>) -> Result<GameTree, Fault>
        requires { NestsGames self.now.room self.now.branches (F.pre self.now.game) (F.post self.now.game) }
        ensures { Reads self.now.room (grammar.subgame self.now.branches) tokens.old result tokens.new }
    {
        (self.game)(self.alloc, tokens, self.room, self.branches)
    }

    /// `( GAME )`
    #[tactic(auto, unfolding(og_language::specs::Grammar::game_in_brackets))]
    fn game_in_brackets(&self, tokens: &mut Tokens<'_>) -> Result<GameTree, Fault>
        requires { NestsGames self.now.room self.now.branches (F.pre self.now.game) (F.post self.now.game) }
        ensures { Reads self.now.room (grammar.game_in_brackets self.now.branches) tokens.old result tokens.new }
    {
        tokens.take(Terminal::Mark(Mark::LeftParen))?;
        let game = self.subgame(tokens)?;
        let (game, _) = with(game, tokens.take(Terminal::Mark(Mark::RightParen)))?;
        Ok(game)
    }

    /// `operation : GAME ;`
    #[tactic(auto, unfolding(og_language::specs::Grammar::operation))]
    fn operation(&self, tokens: &mut Tokens<'_>) -> Result<GameTree, Fault>
        requires { NestsGames self.now.room self.now.branches (F.pre self.now.game) (F.post self.now.game) }
        ensures { Reads self.now.room (grammar.operation self.now.branches) tokens.old result tokens.new }
    {
        tokens.take(Terminal::Word(Word::Operation))?;
        tokens.take(Terminal::Mark(Mark::Colon))?;
        let game = self.subgame(tokens)?;
        let (game, _) = with(game, tokens.take(Terminal::Mark(Mark::Semicolon)))?;
        Ok(game)
    }

    /// What stands behind the game of a line.
    #[tactic(auto, unfolding(og_language::specs::Grammar::line_back))]
    fn behind(&self, tokens: &mut Tokens<'_>) -> Result<(List<NameTree>, List<ExprTree>), Fault>
        requires { NestsGames self.now.room self.now.branches (F.pre self.now.game) (F.post self.now.game) }
        ensures { Reads self.now.room grammar.line_back tokens.old result tokens.new }
    {
        let outputs = names_field(self.alloc, tokens, self.room, Word::Outputs)?;
        let returns = exprs_field(self.alloc, tokens, self.room, Word::Returns)?;
        Ok((outputs, returns))
    }

    /// A line of a block.
    #[tactic(auto, unfolding(og_language::specs::Grammar::line))]
    fn line(&self, tokens: &mut Tokens<'_>) -> Result<LineTree, Fault>
        requires { NestsGames self.now.room self.now.branches (F.pre self.now.game) (F.post self.now.game) }
        ensures { Reads self.now.room (grammar.line self.now.branches) tokens.old result tokens.new }
    {
        let inputs = exprs_field(self.alloc, tokens, self.room, Word::Inputs)?;
        let feedback = names_field(self.alloc, tokens, self.room, Word::Feedback)?;
        let (operation, (outputs, returns)) = with(self.operation(tokens)?, self.behind(tokens))?;
        Ok(LineTree {
            inputs,
            feedback,
            operation,
            outputs,
            returns,
        })
    }

    /// Lines, as many as there are.
    fn line_list(&self, tokens: &mut Tokens<'_>) -> Result<List<LineTree>, Fault>
        requires { NestsGames self.now.room self.now.branches (F.pre self.now.game) (F.post self.now.game) }
        ensures { Reads self.now.room (grammar.line_list self.now.branches) tokens.old result tokens.new }
    {
        let begins = [
            Terminal::Word(Word::Inputs),
            Terminal::Word(Word::Feedback),
            Terminal::Word(Word::Operation),
        ];
        many(
            self.alloc,
            tokens,
            self.room,
            &begins,
            |_, tokens: &mut Tokens<'_>, _| self.line(tokens),
        )
    }

    /// `SEPARATOR LINES SEPARATOR`
    #[tactic(auto, unfolding(og_language::specs::Grammar::lines))]
    fn lines(&self, tokens: &mut Tokens<'_>) -> Result<List<LineTree>, Fault>
        requires { NestsGames self.now.room self.now.branches (F.pre self.now.game) (F.post self.now.game) }
        ensures { Reads self.now.room (grammar.lines self.now.branches) tokens.old result tokens.new }
    {
        tokens.take(Terminal::Separator)?;
        let lines = self.line_list(tokens)?;
        tokens.take(Terminal::Separator)?;
        Ok(lines)
    }

    /// The border of a block and its lines.
    #[tactic(auto, unfolding(og_language::specs::Grammar::block_inside))]
    fn block_inside(&self, tokens: &mut Tokens<'_>) -> Result<BlockTree, Fault>
        requires { NestsGames self.now.room self.now.branches (F.pre self.now.game) (F.post self.now.game) }
        ensures { Reads self.now.room (grammar.block_inside self.now.branches) tokens.old result tokens.new }
    {
        let inputs = params_field(self.alloc, tokens, self.room, Word::Inputs)?;
        let feedback = results_field(self.alloc, tokens, self.room, Word::Feedback)?;
        let lines = self.lines(tokens)?;
        let outputs = results_field(self.alloc, tokens, self.room, Word::Outputs)?;
        let returns = params_field(self.alloc, tokens, self.room, Word::Returns)?;
        Ok(BlockTree {
            inputs,
            feedback,
            lines,
            outputs,
            returns,
        })
    }

    /// `block { BLOCK }`
    #[tactic(auto, unfolding(og_language::specs::Grammar::block))]
    fn block(&self, tokens: &mut Tokens<'_>) -> Result<GameTree, Fault>
        requires { NestsGames self.now.room self.now.branches (F.pre self.now.game) (F.post self.now.game) }
        ensures { Reads self.now.room (grammar.block self.now.branches) tokens.old result tokens.new }
    {
        let at = tokens.take(Terminal::Word(Word::Block))?;
        tokens.take(Terminal::Mark(Mark::LeftBrace))?;
        let block = self.block_inside(tokens)?;
        tokens.take(Terminal::Mark(Mark::RightBrace))?;
        let block = new_box(self.alloc, block)?;
        Ok(GameTree::Block { at, block })
    }

    /// A game by a word or bracket of its own, but for branches.
    #[tactic(auto, unfolding(og_language::specs::Grammar::plain_atom, og_language::specs::Grammar::call, og_language::specs::Grammar::name, og_language::specs::Grammar::game_in_brackets, og_language::specs::Grammar::block))]
    fn plain_atom(&self, tokens: &mut Tokens<'_>) -> Result<GameTree, Fault>
        requires { NestsGames self.now.room self.now.branches (F.pre self.now.game) (F.post self.now.game) }
        ensures { Reads self.now.room (grammar.plain_atom self.now.branches) tokens.old result tokens.new }
    {
        if tokens.sees(Terminal::Name) {
            call(self.alloc, tokens, self.room)
        } else if tokens.sees(Terminal::Mark(Mark::LeftParen)) {
            self.game_in_brackets(tokens)
        } else if tokens.sees(Terminal::Word(Word::Block)) {
            self.block(tokens)
        } else {
            self.plain_form(tokens)
        }
    }

    /// A game without games inside, by its word.
    #[tactic(auto, unfolding(og_language::specs::Grammar::plain_form, og_language::specs::Grammar::decision, og_language::specs::Grammar::nature, og_language::specs::Grammar::function, og_language::specs::Grammar::identity))]
    fn plain_form(&self, tokens: &mut Tokens<'_>) -> Result<GameTree, Fault>
        requires { NestsGames self.now.room self.now.branches (F.pre self.now.game) (F.post self.now.game) }
        ensures { Reads self.now.room grammar.plain_form tokens.old result tokens.new }
    {
        if tokens.sees(Terminal::Word(Word::DependentDecision)) {
            decision(self.alloc, tokens, self.room)
        } else if tokens.sees(Terminal::Word(Word::Nature)) {
            nature(self.alloc, tokens, self.room)
        } else if tokens.sees(Terminal::Word(Word::ForwardFunction))
            || tokens.sees(Terminal::Word(Word::BackwardFunction))
        {
            function(self.alloc, tokens, self.room)
        } else if tokens.sees(Terminal::Word(Word::Identity)) {
            identity(self.alloc, tokens, self.room)
        } else {
            library(self.alloc, tokens, self.room)
        }
    }

    /// A game without a composition.
    #[tactic(auto, unfolding(og_language::specs::Grammar::atom, og_language::specs::Grammar::branch))]
    fn atom(&self, tokens: &mut Tokens<'_>) -> Result<GameTree, Fault>
        requires { NestsGames self.now.room self.now.branches (F.pre self.now.game) (F.post self.now.game) }
        ensures { Reads self.now.room (grammar.atom self.now.branches) tokens.old result tokens.new }
    {
        if self.branches && tokens.sees(Terminal::Word(Word::Branch)) {
            self.branch(tokens)
        } else {
            self.plain_atom(tokens)
        }
    }

    /// `-> GAME ;`, where branches may stand.
    #[tactic(auto, unfolding(og_language::specs::Grammar::arm_game))]
    fn arm_game(&self, tokens: &mut Tokens<'_>) -> Result<GameTree, Fault>
        requires here { self.now.branches ≡ true }
        requires nests { NestsGames self.now.room self.now.branches (F.pre self.now.game) (F.post self.now.game) }
        ensures { Reads self.now.room grammar.arm_game tokens.old result tokens.new }
    {
        tokens.take(Terminal::Mark(Mark::Arrow))?;
        let game = self.subgame(tokens)?;
        let (game, _) = with(game, tokens.take(Terminal::Mark(Mark::Semicolon)))?;
        Ok(game)
    }

    /// `( VALUE ) -> GAME ;`, where branches may stand.
    #[tactic(auto, unfolding(og_language::specs::Grammar::branch_arm))]
    fn branch_arm(&self, tokens: &mut Tokens<'_>) -> Result<ArmTree, Fault>
        requires here { self.now.branches ≡ true }
        requires nests { NestsGames self.now.room self.now.branches (F.pre self.now.game) (F.post self.now.game) }
        ensures { Reads self.now.room grammar.branch_arm tokens.old result tokens.new }
    {
        let at = tokens.take(Terminal::Mark(Mark::LeftParen))?;
        let key = value(self.alloc, tokens, self.room)?;
        let (key, _) = with(key, tokens.take(Terminal::Mark(Mark::RightParen)))?;
        let (key, game) = with(key, self.arm_game(tokens))?;
        Ok(ArmTree { at, key, game })
    }

    /// Arms, as many as there are.
    fn branch_arms(&self, tokens: &mut Tokens<'_>) -> Result<List<ArmTree>, Fault>
        requires here { self.now.branches ≡ true }
        requires nests { NestsGames self.now.room self.now.branches (F.pre self.now.game) (F.post self.now.game) }
        ensures { Reads self.now.room grammar.branch_arms tokens.old result tokens.new }
    {
        many(
            self.alloc,
            tokens,
            self.room,
            &[Terminal::Mark(Mark::LeftParen)],
            |_, tokens: &mut Tokens<'_>, _| self.branch_arm(tokens),
        )
    }

    /// `{ ARM .. }`
    #[tactic(auto, unfolding(og_language::specs::Grammar::arms_in_braces))]
    fn arms_in_braces(&self, tokens: &mut Tokens<'_>) -> Result<List<ArmTree>, Fault>
        requires here { self.now.branches ≡ true }
        requires nests { NestsGames self.now.room self.now.branches (F.pre self.now.game) (F.post self.now.game) }
        ensures { Reads self.now.room grammar.arms_in_braces tokens.old result tokens.new }
    {
        tokens.take(Terminal::Mark(Mark::LeftBrace))?;
        let arms = self.branch_arms(tokens)?;
        tokens.take(Terminal::Mark(Mark::RightBrace))?;
        Ok(arms)
    }

    /// `branch TYPE { ARM .. }`
    #[tactic(auto, unfolding(og_language::specs::Grammar::branch))]
    fn branch(&self, tokens: &mut Tokens<'_>) -> Result<GameTree, Fault>
        requires here { self.now.branches ≡ true }
        requires nests { NestsGames self.now.room self.now.branches (F.pre self.now.game) (F.post self.now.game) }
        ensures { Reads self.now.room grammar.branch tokens.old result tokens.new }
    {
        let at = tokens.take(Terminal::Word(Word::Branch))?;
        let selector = ty(self.alloc, tokens, self.room)?;
        let (selector, arms) = with(selector, self.arms_in_braces(tokens))?;
        Ok(GameTree::Branch { at, selector, arms })
    }

    /// `&&& ATOM`
    #[tactic(auto, unfolding(og_language::specs::Grammar::next_beside))]
    fn next_beside(&self, tokens: &mut Tokens<'_>) -> Result<GameTree, Fault>
        requires { NestsGames self.now.room self.now.branches (F.pre self.now.game) (F.post self.now.game) }
        ensures { Reads self.now.room (grammar.next_beside self.now.branches) tokens.old result tokens.new }
    {
        tokens.take(Terminal::Mark(Mark::Beside))?;
        self.atom(tokens)
    }

    /// Games behind `&&&`, as many as there are.
    fn others_beside(&self, tokens: &mut Tokens<'_>) -> Result<List<GameTree>, Fault>
        requires { NestsGames self.now.room self.now.branches (F.pre self.now.game) (F.post self.now.game) }
        ensures { Reads self.now.room (grammar.others_beside self.now.branches) tokens.old result tokens.new }
    {
        many(
            self.alloc,
            tokens,
            self.room,
            &[Terminal::Mark(Mark::Beside)],
            |_, tokens: &mut Tokens<'_>, _| self.next_beside(tokens),
        )
    }

    /// A chain of `&&&`.
    #[tactic(auto, unfolding(og_language::specs::Grammar::beside))]
    fn beside(&self, tokens: &mut Tokens<'_>) -> Result<GameTree, Fault>
        requires { NestsGames self.now.room self.now.branches (F.pre self.now.game) (F.post self.now.game) }
        ensures { Reads self.now.room (grammar.beside self.now.branches) tokens.old result tokens.new }
    {
        let (first, others) = with(self.atom(tokens)?, self.others_beside(tokens))?;
        Ok(par_onto(self.alloc, first, others)?)
    }

    /// `>>> BESIDE`
    #[tactic(auto, unfolding(og_language::specs::Grammar::next_then))]
    fn next_then(&self, tokens: &mut Tokens<'_>) -> Result<GameTree, Fault>
        requires { NestsGames self.now.room self.now.branches (F.pre self.now.game) (F.post self.now.game) }
        ensures { Reads self.now.room (grammar.next_then self.now.branches) tokens.old result tokens.new }
    {
        tokens.take(Terminal::Mark(Mark::Then))?;
        self.beside(tokens)
    }

    /// Games behind `>>>`, as many as there are.
    fn others_then(&self, tokens: &mut Tokens<'_>) -> Result<List<GameTree>, Fault>
        requires { NestsGames self.now.room self.now.branches (F.pre self.now.game) (F.post self.now.game) }
        ensures { Reads self.now.room (grammar.others_then self.now.branches) tokens.old result tokens.new }
    {
        many(
            self.alloc,
            tokens,
            self.room,
            &[Terminal::Mark(Mark::Then)],
            |_, tokens: &mut Tokens<'_>, _| self.next_then(tokens),
        )
    }

    /// A chain of `>>>`.
    #[tactic(auto, unfolding(og_language::specs::Grammar::game_rule))]
    pub(crate) fn game_rule(&self, tokens: &mut Tokens<'_>) -> Result<GameTree, Fault>
        requires { NestsGames self.now.room self.now.branches (F.pre self.now.game) (F.post self.now.game) }
        ensures { Reads self.now.room (grammar.game_rule self.now.branches) tokens.old result tokens.new }
    {
        let (first, others) = with(self.beside(tokens)?, self.others_then(tokens))?;
        Ok(seq_onto(self.alloc, first, others)?)
    }
}

/// The first game beside all the others, from the left.
#[tactic(auto, using(crate::proofs::Compositions::par_last))]
fn par_onto(
    alloc: Global,
    first: GameTree,
    mut others: List<GameTree>,
) -> Result<GameTree, AllocError>
    ensures { IfOk result (λ made. made ≡ par_onto first others) }
{
    match others.pop() {
        None => Ok(first),
        Some(last) => {
            let (last, before) = with(last, par_onto(alloc, first, others))?;
            let (before, last) = two_boxes(alloc, before, last)?;
            Ok(GameTree::Par(before, last))
        }
    }
}

/// The first game before all the others, from the left.
#[tactic(auto, using(crate::proofs::Compositions::seq_last))]
fn seq_onto(
    alloc: Global,
    first: GameTree,
    mut others: List<GameTree>,
) -> Result<GameTree, AllocError>
    ensures { IfOk result (λ made. made ≡ seq_onto first others) }
{
    match others.pop() {
        None => Ok(first),
        Some(last) => {
            let (last, before) = with(last, seq_onto(alloc, first, others))?;
            let (before, last) = two_boxes(alloc, before, last)?;
            Ok(GameTree::Seq(before, last))
        }
    }
}

/// Two values, each behind a pointer of its own.
fn two_boxes<T: Drop>(
    alloc: Global,
    first: T,
    second: T,
) -> Result<(Boxed<T>, Boxed<T>), AllocError>
    ensures { IfOk result (λ made. (made.0 ≡ first) × (made.1 ≡ second)) }
{
    let (second, first) = with(second, new_box(alloc, first))?;
    with(first, new_box(alloc, second))
}
