use crate::copy::copy;
use crate::every::{Trees, VariableTest, every_variable};
use crate::node::{Node, NodeOf, Term};
use crate::replace::replace;
use crate::variables::variables;
use og_list::List;
use og_types::Ty;
use std::alloc::{AllocError, Global};
use std::marker::Model;

/// Why a form doesn't make an expression.
#[derive(Clone, Copy, Debug, PartialEq, Eq)]
pub enum BuildFault {
    /// The form's parts don't have the types that it asks for, or no text can write it.
    BadType,
    /// There was no memory.
    Memory,
}

impl From<AllocError> for BuildFault {
    ghost use Rattle.std.specs.Prelude.{◌≡◌};
    ghost use Rattle.og_expr.specs.declared.expr.BuildFault.TheVariants.{Memory};

    ghost from_gives = { λ _ e. e ≡ Memory };

    fn from(_e: AllocError) -> BuildFault {
        BuildFault::Memory
    }
}

/// A typed expression. Contracts see it as its form over expressions, whose type is told by the form alone.
#[derive(Drop)]
pub struct Expr {
    /// The outermost form.
    pub node: NodeOf<Expr>,
    pub(crate) ty: Ty,
    pub(crate) nodes: u32,
    pub(crate) height: u32,
}

impl Model for Expr {
    ghost use Rattle.std.specs.Prelude.{◌≡◌, Some};
    ghost use Rattle.std.specs.Coded.{codes};
    ghost use Rattle.og_expr.specs.contracts.node.Term as term;
    ghost use Rattle.og_expr.specs.declared.node.Term.{Term, size-Term};

    ghost Value = { Term };

    ghost coded = { Prim.hlevel (codes, term.the_row.coded) };

    ghost use Rattle.og_expr.specs.Terms.{term_of};
    ghost use Rattle.og_expr.specs.Types.{type_of};
    ghost use Rattle.og_expr.specs.Counts.{nodes_of, height_of, capped};

    ghost view = { λ e. term_of e.node };

    ghost invariant = { λ e. (type_of (term_of e.node) ≡ Some e.ty) × (e.nodes ≡ capped (nodes_of (term_of e.node)))
        × (e.height ≡ capped (height_of (term_of e.node))) };

    ghost size = { size-Term };

    ghost use Rattle.std.proofs.Common.{arith};
    ghost use Rattle.og_list.specs.laws.Weights.{weight_more};
    ghost use Rattle.og_expr.specs.declared.expr.Expr.TheShapes.{weighed-Expr-node};
    ghost use Rattle.og_expr.specs.declared.node.Term.TheViews.{size_roll-Term};

    ghost size_decreases = { λ a h. omega (arith, size_roll-Term (record { node = a.node }), weight_more weighed-Expr-node size-Term a.node) };
}

impl Expr {
    ghost use Rattle.std.specs.Prelude.{◌≡◌, ◌<◌, ◌↔◌, ℕ, true, Some, IfOk, AllPairs, Contains};
    ghost use Rattle.og_expr.specs.Terms.{term_of};
    ghost use Rattle.og_expr.specs.Types.{type_of};
    ghost use Rattle.og_expr.specs.Counts.{nodes_of, height_of, capped};
    ghost use Rattle.og_expr.specs.Variables.{numbers_of, all_variables, as_variable};
    ghost use Rattle.og_expr.specs.Replaced.{replaced, tree_at, takes};

    /// The expression's type.
    pub fn ty(&self) -> &Ty
        ensures { type_of self.now ≡ Some result.now }
    {
        &self.ty
    }

    /// The outermost form, of which `Expr::build` makes an equal expression.
    pub fn node(&self) -> &Node
        ensures { term_of result.now ≡ self.now }
    {
        &self.node
    }

    /// An equal expression, in memory of its own.
    pub fn copy(&self, alloc: Global) -> Result<Expr, AllocError>
        ensures { IfOk result (λ made. made ≡ self.now) }
    {
        copy(alloc, self)
    }

    /// How many nodes it has, or 2^32 - 1 where there are more.
    pub fn nodes(&self) -> u32
        ensures { result ≡ capped (nodes_of self.now) }
    {
        self.nodes
    }

    /// How high it is, or 2^32 - 1 where it is higher: 1 where it has no parts, and one more than its highest
    /// part elsewhere.
    pub fn height(&self) -> u32
        ensures { result ≡ capped (height_of self.now) }
    {
        self.height
    }

    /// Whether each tree of the list has a type that fits the one of the variables with its place as their
    /// number, so that it goes in their place.
    pub fn takes(&self, trees: &List<Expr>) -> bool
        ensures { result ≡ all_variables (takes trees.now) self.now }
    {
        every_variable(self, &Trees { trees })
    }

    /// Whether each variable that occurs passes the test.
    pub fn every_variable<T: VariableTest>(&self, test: &T) -> bool
        ensures { result ≡ all_variables (T.passes test.now) self.now }
    {
        every_variable(self, test)
    }

    /// The expression in which each variable is replaced by the list's tree at the variable's number, where there
    /// is one, with types by these trees. No other variable changes.
    pub fn replace(&self, alloc: Global, trees: &List<Expr>) -> Result<Expr, AllocError>
        requires { all_variables (takes trees.now) self.now ≡ true }
        ensures { IfOk result (λ made. made ≡ replaced (tree_at trees.now) self.now) }
    {
        replace(alloc, self, trees)
    }

    /// The variable's number, where the whole expression is a variable.
    #[tactic(auto, using(crate::proofs::Forms::as_variable_node))]
    pub fn as_variable(&self) -> Option<u32>
        ensures { result ≡ as_variable self.now }
    {
        match &self.node {
            NodeOf::Var { number, ty: _ } => Some(*number),
            _ => None,
        }
    }

    /// The numbers of the variables that occur, ascending, once each.
    pub fn variables(&self, alloc: Global) -> Result<List<u32>, AllocError>
        ensures ascending { IfOk result (λ found. AllPairs (λ m n. m < n) found) }
        ensures each { IfOk result (λ found. (n : ℕ) → Contains found n ↔ Contains (numbers_of self.now) n) }
    {
        variables(alloc, self)
    }
}
