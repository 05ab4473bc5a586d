//! Laws of expressions, for the crates that put trees in the place of variables. No call here does
//! anything: its clauses are the laws.
ghost use Rattle.std.specs.Prelude.{◌≡◌, ◌↔◌, ℕ, ◌+◌, List, Bool, true, Some, Contains, map, slice_get, sum_by, unwrap_or};
ghost use Rattle.std.specs.List.{flat_map};
ghost use Rattle.std.specs.Option.{option_map};
ghost use Rattle.og_types.specs.declared.ty.Ty.{Ty};
ghost use Rattle.og_types.specs.Ty.{bounds_fit};
ghost use Rattle.og_expr.specs.declared.node.Term.{Term};
ghost use Rattle.og_expr.specs.Types.{type_of, goes_as};
ghost use Rattle.og_expr.specs.Counts.{nodes_of, height_of};
ghost use Rattle.og_expr.specs.Values.{Env, value_in};
ghost use Rattle.og_expr.specs.Variables.{Variable, variables_of, numbers_of, all_variables};
ghost use Rattle.og_expr.specs.Replaced.{replaced, renamed, tree_at, takes, nodes_with, height_with};
ghost use Rattle.og_expr.specs.Sound.{may_have};

/// Where each variable has nothing or a value of its type, so has an expression. The bounds of its type
/// are below 2^63 in size.
pub fn soundness()
    ensures values { (env : Env) (e : Term) (t : Ty) → all_variables (λ number u. may_have u (env number)) e ≡ true
        → type_of e ≡ Some t → may_have t (value_in env e) ≡ true }
    ensures bounds { (e : Term) (t : Ty) → type_of e ≡ Some t → bounds_fit t ≡ true }
{}

/// An expression with trees for its variables has the value that it has where each variable has its
/// tree's. Where each tree's type fits its variable's, it is typed, and its type fits the former one.
/// Its nodes and its height are what they are where a variable counts as its tree.
pub fn replacing()
    ensures value { (trees : ℕ → Ty → Term) (env other : Env) (e : Term)
        → ((number : ℕ) (t : Ty) → value_in env (trees number t) ≡ other number)
        → value_in env (replaced trees e) ≡ value_in other e }
    ensures listed { (trees : List Term) (env : Env) (e : Term) → value_in env (replaced (tree_at trees) e)
        ≡ value_in (λ number. unwrap_or (option_map (value_in env) (slice_get trees number)) (env number)) e }
    ensures types { (trees : ℕ → Ty → Term) (e : Term) (t : Ty)
        → all_variables (λ number u. goes_as u (type_of (trees number u))) e ≡ true
        → type_of e ≡ Some t → goes_as t (type_of (replaced trees e)) ≡ true }
    ensures listed_types { (trees : List Term) (e : Term) (t : Ty) → all_variables (takes trees) e ≡ true
        → type_of e ≡ Some t → goes_as t (type_of (replaced (tree_at trees) e)) ≡ true }
    ensures nodes { (trees : ℕ → Ty → Term) (e : Term)
        → nodes_of (replaced trees e) ≡ nodes_with (λ number t. nodes_of (trees number t)) e }
    ensures heights { (trees : ℕ → Ty → Term) (e : Term)
        → height_of (replaced trees e) ≡ height_with (λ number t. height_of (trees number t)) e }
{}

/// An expression with other numbers for its variables has the value that it has where each variable
/// has what its other number has. Its type, its nodes and its height stay the same.
pub fn renaming()
    ensures value { (f : ℕ → ℕ) (env : Env) (e : Term) → value_in env (renamed f e) ≡ value_in (λ n. env (f n)) e }
    ensures types { (f : ℕ → ℕ) (e : Term) → type_of (renamed f e) ≡ type_of e }
    ensures nodes { (f : ℕ → ℕ) (e : Term) → nodes_of (renamed f e) ≡ nodes_of e }
    ensures heights { (f : ℕ → ℕ) (e : Term) → height_of (renamed f e) ≡ height_of e }
{}

/// Only the variables that occur in an expression matter: to its value, and to what it becomes with
/// trees for its variables.
pub fn locality()
    ensures value { (env other : Env) (e : Term)
        → ((number : ℕ) → Contains (numbers_of e) number → env number ≡ other number)
        → value_in env e ≡ value_in other e }
    ensures replaced { (trees others : ℕ → Ty → Term) (e : Term)
        → ((v : Variable) → Contains (variables_of e) v → trees v.0 v.1 ≡ others v.0 v.1)
        → replaced trees e ≡ replaced others e }
{}

/// What is said of all variables is said of each that occurs. With trees for its variables, an
/// expression has the trees' variables, in order; and it has so many nodes more than it has without
/// its variables, as the trees have together.
pub fn variables()
    ensures all { (test : ℕ → Ty → Bool) (e : Term) → (all_variables test e ≡ true)
        ↔ ((v : Variable) → Contains (variables_of e) v → test v.0 v.1 ≡ true) }
    ensures replaced { (trees : ℕ → Ty → Term) (e : Term)
        → variables_of (replaced trees e) ≡ flat_map (λ v. variables_of (trees v.0 v.1)) (variables_of e) }
    ensures nodes { (many : ℕ → Ty → ℕ) (e : Term)
        → nodes_with many e ≡ nodes_with (λ number t. 0) e + sum_by (λ v. many v.0 v.1) (variables_of e) }
{}
