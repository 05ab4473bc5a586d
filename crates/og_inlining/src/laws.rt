//! Laws of trees. No call here does anything: its clauses are the laws.
ghost use Rattle.std.specs.Prelude.{◌≡◌, ℕ, Bool, true, List, [], Some, Ok, IsSomeAnd};
ghost use Rattle.og_types.specs.declared.ty.Ty.{Ty};
ghost use Rattle.og_expr.specs.declared.node.Term.{Term};
ghost use Rattle.og_syntax.specs.declared.types.NameTree.{NameTree};
ghost use Rattle.og_syntax.specs.declared.types.ParamTree.{ParamTree};
ghost use Rattle.og_syntax.specs.declared.types.TyTree.{TyTree};
ghost use Rattle.og_syntax.specs.declared.expressions.ExprTree.{ExprTree};
ghost use Rattle.og_typing.specs.declared.kind.Kind.{Kind};
ghost use Rattle.og_typing.specs.declared.meaning.Meaning.{Meaning};
ghost use Rattle.og_typing.specs.declared.meaning.Meaning.TheVariants as meanings;
ghost use Rattle.og_typing.specs.Types.{Table};
ghost use Rattle.og_typing.specs.Scopes.{Names};
ghost use Rattle.og_typing.specs.Expressions.{expr_walk};
ghost use Rattle.og_typing.specs.Variables.{with_meaning, enum_walk, alias_walk, function_declared};
ghost use Rattle.og_expr.specs.Variables.{all_variables};
ghost use Rattle.og_game.specs.declared.scope.Variable.{Variable};
ghost use Rattle.og_names.specs.Names.{lookup, place};
ghost use Rattle.og_inlining.specs.Seen.{Seen};
ghost use Rattle.og_inlining.specs.Trees.{tree_in, tree_goes};
ghost use Rattle.og_inlining.specs.Bodies.{with_body};
ghost use Rattle.og_inlining.specs.Sound.{seen_with, Fits, Known, Extends};

/// Where what names stand for as trees goes as what they stand for in the walk, an accepted expression has a tree, whose
/// type fits the one that was found.
pub fn soundness()
    ensures { (names : Names) (given bodies : Table Term) → Fits names given bodies → (e : ExprTree) (depth : ℕ) (k : Kind)
        → expr_walk e names depth ≡ Ok k → tree_goes k.ty (tree_in e (seen_with names given bodies)) ≡ true }
{}

/// A test that the variables of an expression pass, by their places and types, and all variables of the given trees, is
/// passed by all variables of its tree.
pub fn variables()
    ensures { (test : ℕ → Ty → Bool) (seen : Seen)
        → ((name : List ℕ) (k : ℕ) (v : Variable) → place name seen.variables ≡ Some k → lookup name seen.variables ≡ Some v
        → test k v.ty ≡ true)
        → ((name : List ℕ) (t : Term) → lookup name seen.given ≡ Some t → all_variables test t ≡ true)
        → (e : ExprTree) (t : Term) → tree_in e seen ≡ Some t → all_variables test t ≡ true }
{}

/// Along accepted declarations there is a body for each function, of the function's type, whose variables are its parameters:
/// that of a function is added, and others leave the bodies as they are.
pub fn declarations()
    ensures nothing { Known [] [] }
    ensures enums { (family at : ℕ) (name : List ℕ) (declared made : Table Meaning) (bodies : Table Term) (cases : List NameTree)
        → Known declared bodies → enum_walk family at name declared cases ≡ Ok made → Known made bodies }
    ensures aliases { (at : ℕ) (name : List ℕ) (declared made : Table Meaning) (bodies : Table Term) (written : TyTree)
        → Known declared bodies → alias_walk at name declared written ≡ Ok made → Known made bodies }
    ensures functions { (number at : ℕ) (name : List ℕ) (declared made : Table Meaning) (bodies : Table Term) (params : List ParamTree)
        (written : TyTree) (body : ExprTree) → Known declared bodies
        → function_declared number at name declared params written body ≡ Ok made
        → IsSomeAnd (with_body name params body declared bodies) (Known made) }
    ensures games { (name : List ℕ) (number : ℕ) (declared : Table Meaning) (bodies : Table Term) → Known declared bodies
        → Known (with_meaning declared name (meanings.Game number)) bodies }
{}

/// The tree of an expression stays where more names are known.
pub fn extension()
    ensures { (seen more : Seen) → Extends seen more → (e : ExprTree) (t : Term) → tree_in e seen ≡ Some t → tree_in e more ≡ Some t }
{}
