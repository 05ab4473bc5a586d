//! Laws of trees and of tokens, for the crates above. No call here does anything: its clauses are the laws.
ghost use Rattle.std.specs.Prelude.{◌≡◌, ℕ, ◌-◌, ◌≤◌, List, map};
ghost use Rattle.og_lex.specs.declared.token.Token.{Token};
ghost use Rattle.og_syntax.specs.Deep.{open_in, before, opened, closed};
ghost use Rattle.og_syntax.specs.declared.types.TyTree.{TyTree};
ghost use Rattle.og_syntax.specs.declared.types.TyTree.TheVariants as tys;
ghost use Rattle.og_syntax.specs.declared.values.ValueTree.{ValueTree};
ghost use Rattle.og_syntax.specs.declared.values.ValueTree.TheVariants as values;
ghost use Rattle.og_syntax.specs.Unplaced.{ty_unplaced, value_unplaced};

/// Without its places a type or a value is the same wherever it stands, its parts stay in order, and there
/// is nothing more to leave out.
pub fn without_places()
    ensures types { (at : ℕ) (ts : List TyTree)
        → ty_unplaced (tys.Tuple at ts) ≡ tys.Tuple 0 (map ty_unplaced ts) }
    ensures types_twice { (t : TyTree) → ty_unplaced (ty_unplaced t) ≡ ty_unplaced t }
    ensures values { (at : ℕ) (vs : List ValueTree)
        → value_unplaced (values.Tuple at vs) ≡ values.Tuple 0 (map value_unplaced vs) }
    ensures values_twice { (v : ValueTree) → value_unplaced (value_unplaced v) ≡ value_unplaced v }
{}

/// Where no front of the tokens closes more brackets than it opens, a bracket is open for each one that was opened,
/// less those that were closed.
pub fn open_brackets()
    ensures { (tokens : List Token) → ((j : ℕ) → closed (before tokens j) ≤ opened (before tokens j))
        → (k : ℕ) → open_in (before tokens k) 0 ≡ opened (before tokens k) - closed (before tokens k) }
{}
