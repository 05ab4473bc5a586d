//! Laws of types and values, for the crates that compute with them. No call here does anything: its
//! clauses are the laws.
ghost use Rattle.std.specs.Prelude.{◌≡◌, ◌≢◌, ◌↔◌, ◌⊎◌, ℕ, ◌+◌, ◌*◌, ◌^◌, ◌<◌, ◌==◌, nat_lt, ℤ, int_le, unsigned_abs, List, [], ◌∷◌, ◌++◌, map, length, slice_get, Contains, AllPairs, Bool, IsTrue, true, false, ◌&&◌, if◌then◌else◌, Some, is_some, unwrap_or, IsSomeAnd, codes};
ghost use Rattle.std.specs.Int.{int_min, int_max};
ghost use Rattle.std.specs.List.{list_all};
ghost use Rattle.std.specs.Option.{option_map};
ghost use Rattle.std.specs.Ordering.{nat_cmp, bool_cmp, ordering_then, ordering_reverse};
ghost use Rattle.std.specs.Cmp.Lexicographic.{pointwise, slice_cmp};
ghost use Rattle.std.specs.declared.cmp.Ordering.TheVariants.{Less, Equal};
ghost use Rattle.og_frac.specs.Fraction as fraction;
ghost use Rattle.og_frac.specs.Fraction.{Fraction, IsInLowestTerms};
ghost use Rattle.og_frac.specs.Text.{text};
ghost use Rattle.og_types.specs.declared.enums.Enums.{Enums};
ghost use Rattle.og_types.specs.declared.value.Value.{Value};
ghost use Rattle.og_types.specs.declared.value.Value.TheVariants as value;
ghost use Rattle.og_types.specs.declared.ty.Ty.{Ty};
ghost use Rattle.og_types.specs.declared.ty.Ty.TheVariants as ty;
ghost use Rattle.og_types.specs.Value.{same, order};
ghost use Rattle.og_types.specs.Ty.{fits, join, joins, holds, is_between, is_finite, bounds_fit};
ghost use Rattle.og_types.specs.Ty as types;
ghost use Rattle.og_types.specs.Names.{case_of, with_commas, text_of};
ghost use Rattle.og_types.specs.Values.{values_of, joint_values_of, rank_of, joint_rank_of};

/// The list of a finite type has each of its values and no other, and none twice.
pub fn listing()
    ensures each { (t : Ty) (v : Value) → is_finite t ≡ true → (holds t v ≡ true) ↔ Contains (values_of t) v }
    ensures once { (t : Ty) → AllPairs (λ v w. v ≢ w) (values_of t) }
{}

/// The same of the lists of one value of each type. A tuple's values are these, as tuples.
pub fn joint_listing()
    ensures each { (ts : List Ty) (vs : List Value) → list_all is_finite ts ≡ true
        → (pointwise holds ts vs ≡ true) ↔ Contains (joint_values_of ts) vs }
    ensures once { (ts : List Ty) → AllPairs (λ vs ws. vs ≢ ws) (joint_values_of ts) }
    ensures many { (t : Ty) (ts : List Ty) → length (joint_values_of (t ∷ ts))
        ≡ length (values_of t) * length (joint_values_of ts) }
    ensures tuples { (ts : List Ty) → values_of (ty.Tuple ts) ≡ map value.Tuple (joint_values_of ts) }
{}

/// A rank is a place in the list: it is there exactly for the values of the type, it tells them apart,
/// and it goes by their order.
pub fn ranking()
    ensures places { (t : Ty) (v : Value) (k : ℕ) → (rank_of t v ≡ Some k) ↔ (slice_get (values_of t) k ≡ Some v) }
    ensures there { (t : Ty) (v : Value) → is_finite t ≡ true → is_some (rank_of t v) ≡ holds t v }
    ensures equal { (t : Ty) (v w : Value) → is_finite t ≡ true → holds t v ≡ true → holds t w ≡ true
        → (rank_of t v ≡ rank_of t w) ↔ (v ≡ w) }
    ensures ordered { (t : Ty) (v w : Value) (i j : ℕ) → rank_of t v ≡ Some i → rank_of t w ≡ Some j
        → order v w ≡ nat_cmp i j }
{}

/// The same of lists of one value of each type, of which the first type's go slowest. Tuples have the
/// ranks of their lists of components.
pub fn joint_ranking()
    ensures places { (ts : List Ty) (vs : List Value) (k : ℕ)
        → (joint_rank_of ts vs ≡ Some k) ↔ (slice_get (joint_values_of ts) k ≡ Some vs) }
    ensures there { (ts : List Ty) (vs : List Value) → list_all is_finite ts ≡ true
        → is_some (joint_rank_of ts vs) ≡ pointwise holds ts vs }
    ensures equal { (ts : List Ty) (vs ws : List Value) (k : ℕ) → joint_rank_of ts vs ≡ Some k
        → joint_rank_of ts ws ≡ Some k → vs ≡ ws }
    ensures ordered { (ts : List Ty) (vs ws : List Value) (i j : ℕ) → joint_rank_of ts vs ≡ Some i
        → joint_rank_of ts ws ≡ Some j → slice_cmp order vs ws ≡ nat_cmp i j }
    ensures parts { (t : Ty) (ts : List Ty) (v : Value) (vs : List Value) (i j : ℕ) → rank_of t v ≡ Some i
        → joint_rank_of ts vs ≡ Some j → joint_rank_of (t ∷ ts) (v ∷ vs) ≡ Some (i * length (joint_values_of ts) + j) }
    ensures first_slowest { (t : Ty) (ts : List Ty) (v w : Value) (vs ws : List Value) (i j k l m n : ℕ)
        → rank_of t v ≡ Some i → rank_of t w ≡ Some j → joint_rank_of ts vs ≡ Some k
        → joint_rank_of ts ws ≡ Some l → joint_rank_of (t ∷ ts) (v ∷ vs) ≡ Some m
        → joint_rank_of (t ∷ ts) (w ∷ ws) ≡ Some n → nat_cmp m n ≡ ordering_then (nat_cmp i j) (nat_cmp k l) }
    ensures tuples { (ts : List Ty) (vs : List Value) → rank_of (ty.Tuple ts) (value.Tuple vs) ≡ joint_rank_of ts vs }
{}

/// Fitting is an order of types, and a value of a type is one of each type that it fits.
pub fn fitting()
    ensures reflexive { (t : Ty) → fits t t ≡ true }
    ensures transitive { (t u w : Ty) → fits t u ≡ true → fits u w ≡ true → fits t w ≡ true }
    ensures antisymmetric { (t u : Ty) → fits t u ≡ true → fits u t ≡ true → t ≡ u }
    ensures holds { (t u : Ty) (v : Value) → fits t u ≡ true → holds t v ≡ true → holds u v ≡ true }
{}

/// The join is the least type that both types fit, and there is none exactly where they fit no type
/// in common. Its bounds fit where those of both types do.
pub fn joining()
    ensures fits_both { (t u w : Ty) → join t u ≡ Some w → (fits t w ≡ true) × (fits u w ≡ true) }
    ensures least { (t u w : Ty) → fits t w ≡ true → fits u w ≡ true
        → IsSomeAnd (join t u) (λ least. fits least w ≡ true) }
    ensures none { (t u : Ty) → (join t u ≡ None) ↔ ((w : Ty) → fits t w ≡ true → fits u w ≡ true → ⊥) }
    ensures idempotent { (t : Ty) → join t t ≡ Some t }
    ensures commute { (t u : Ty) → join t u ≡ join u t }
    ensures fits_exactly { (t u : Ty) → (fits t u ≡ true) ↔ (join t u ≡ Some u) }
    ensures bounds { (t u w : Ty) → bounds_fit t ≡ true → bounds_fit u ≡ true → join t u ≡ Some w
        → bounds_fit w ≡ true }
{}

/// The order of values is total, and it finds two values equal exactly where they are. Cases go by
/// their enum and then by their place in it, false before true, tuples by their components from the
/// first on, and numbers in lowest terms as fractions do.
pub fn ordering()
    ensures reversed { (v w : Value) → order v w ≡ ordering_reverse (order w v) }
    ensures equal { (v w : Value) → (order v w ≡ Equal) ↔ (v ≡ w) }
    ensures transitive { (u v w : Value) → order u v ≡ Less → order v w ≡ Less → order u w ≡ Less }
    ensures numbers { (p q : Fraction) → IsInLowestTerms p → IsInLowestTerms q
        → order (value.Number p) (value.Number q) ≡ fraction.order p q }
    ensures cases { (family index other at : ℕ) → order (value.Case family index) (value.Case other at)
        ≡ ordering_then (nat_cmp family other) (nat_cmp index at) }
    ensures flags { (a b : Bool) → order (value.Flag a) (value.Flag b) ≡ bool_cmp a b }
    ensures tuples { (vs ws : List Value) → order (value.Tuple vs) (value.Tuple ws) ≡ slice_cmp order vs ws }
{
    og_frac::laws::orders();
}

/// Values that are found to be the same are equal, and so are types, lists of values and lists of
/// types.
pub fn equality()
    ensures values { (v w : Value) → IsTrue (same v w) ↔ (v ≡ w) }
    ensures types { (t u : Ty) → IsTrue (types.same t u) ↔ (t ≡ u) }
    ensures lists { (vs ws : List Value) → (pointwise same vs ws ≡ true) ↔ (vs ≡ ws) }
    ensures lists_of_types { (ts us : List Ty) → (pointwise types.same ts us ≡ true) ↔ (ts ≡ us) }
{}

/// Which values are of a type, at each form of type: the cases of its enum, true and false, the whole
/// numbers of a range, every number, and one value of each component's type.
pub fn forms_of_values()
    ensures enums { (family cases other index : ℕ) → holds (ty.Enum family cases) (value.Case other index)
        ≡ (family == other) && nat_lt index cases }
    ensures bools { (b : Bool) → holds ty.Bool (value.Flag b) ≡ true }
    ensures ranges { (low high : ℤ) (q : Fraction) → holds (ty.Range low high) (value.Number q)
        ≡ is_between low high q }
    ensures numbers { (q : Fraction) → holds ty.Number (value.Number q) ≡ true }
    ensures tuples { (ts : List Ty) (vs : List Value) → holds (ty.Tuple ts) (value.Tuple vs) ≡ pointwise holds ts vs }
{}

/// What a value of a type is: a case of the enum, a truth, a number of the range, a number, or a tuple
/// of one value of each component's type.
pub fn values_of_types()
    ensures enums { (family cases : ℕ) (v : Value) → holds (ty.Enum family cases) v ≡ true
        → (index : ℕ) × (v ≡ value.Case family index) × (index < cases) }
    ensures bools { (v : Value) → holds ty.Bool v ≡ true → (b : Bool) × (v ≡ value.Flag b) }
    ensures ranges { (low high : ℤ) (v : Value) → holds (ty.Range low high) v ≡ true
        → (q : Fraction) × (v ≡ value.Number q) × (is_between low high q ≡ true) }
    ensures numbers { (v : Value) → holds ty.Number v ≡ true → (q : Fraction) × (v ≡ value.Number q) }
    ensures tuples { (ts : List Ty) (v : Value) → holds (ty.Tuple ts) v ≡ true
        → (vs : List Value) × (v ≡ value.Tuple vs) × (pointwise holds ts vs ≡ true) }
{}

/// When a type fits another of its form: an equal enum, a range within a wider one, and a tuple whose
/// components fit. A range fits the type of all numbers too.
pub fn forms_of_fitting()
    ensures enums { (family cases other count : ℕ) → fits (ty.Enum family cases) (ty.Enum other count)
        ≡ (family == other) && (cases == count) }
    ensures bools { fits ty.Bool ty.Bool ≡ true }
    ensures ranges { (low high from to : ℤ) → fits (ty.Range low high) (ty.Range from to)
        ≡ int_le from low && int_le high to }
    ensures range_number { (low high : ℤ) → fits (ty.Range low high) ty.Number ≡ true }
    ensures numbers { fits ty.Number ty.Number ≡ true }
    ensures tuples { (ts us : List Ty) → fits (ty.Tuple ts) (ty.Tuple us) ≡ pointwise fits ts us }
{}

/// What a type is that fits one of a given form.
pub fn types_that_fit()
    ensures enums { (family cases : ℕ) (t : Ty) → fits t (ty.Enum family cases) ≡ true → t ≡ ty.Enum family cases }
    ensures bools { (t : Ty) → fits t ty.Bool ≡ true → t ≡ ty.Bool }
    ensures ranges { (from to : ℤ) (t : Ty) → fits t (ty.Range from to) ≡ true → (low : ℤ) × (high : ℤ)
        × (t ≡ ty.Range low high) × (int_le from low ≡ true) × (int_le high to ≡ true) }
    ensures numbers { (t : Ty) → fits t ty.Number ≡ true
        → (t ≡ ty.Number) ⊎ ((low : ℤ) × (high : ℤ) × (t ≡ ty.Range low high)) }
    ensures tuples { (us : List Ty) (t : Ty) → fits t (ty.Tuple us) ≡ true
        → (ts : List Ty) × (t ≡ ty.Tuple ts) × (pointwise fits ts us ≡ true) }
{}

/// What a type is that one of a given form fits.
pub fn types_fitted()
    ensures enums { (family cases : ℕ) (u : Ty) → fits (ty.Enum family cases) u ≡ true → u ≡ ty.Enum family cases }
    ensures bools { (u : Ty) → fits ty.Bool u ≡ true → u ≡ ty.Bool }
    ensures ranges { (low high : ℤ) (u : Ty) → fits (ty.Range low high) u ≡ true
        → (u ≡ ty.Number) ⊎ ((from : ℤ) × (to : ℤ) × (u ≡ ty.Range from to)) }
    ensures numbers { (u : Ty) → fits ty.Number u ≡ true → u ≡ ty.Number }
    ensures tuples { (ts : List Ty) (u : Ty) → fits (ty.Tuple ts) u ≡ true
        → (us : List Ty) × (u ≡ ty.Tuple us) × (pointwise fits ts us ≡ true) }
{}

/// What the join of two types of one form is: of ranges the range from the lesser to the greater end,
/// of tuples the tuple of the joins, and any number where a number is one of the two.
pub fn forms_of_joining()
    ensures enums { (family cases other count : ℕ) → join (ty.Enum family cases) (ty.Enum other count)
        ≡ (if (family == other) && (cases == count) then Some (ty.Enum family cases) else None) }
    ensures bools { join ty.Bool ty.Bool ≡ Some ty.Bool }
    ensures ranges { (low high from to : ℤ) → join (ty.Range low high) (ty.Range from to)
        ≡ Some (ty.Range (int_min low from) (int_max high to)) }
    ensures range_number { (low high : ℤ) → join (ty.Range low high) ty.Number ≡ Some ty.Number }
    ensures number_range { (low high : ℤ) → join ty.Number (ty.Range low high) ≡ Some ty.Number }
    ensures numbers { join ty.Number ty.Number ≡ Some ty.Number }
    ensures tuples { (ts us : List Ty) → join (ty.Tuple ts) (ty.Tuple us)
        ≡ option_map ty.Tuple (joins (map join ts) us) }
{}

/// Which types are finite: a tuple where each of its components is, and all others but the type of all
/// numbers.
pub fn forms_of_finite_types()
    ensures enums { (family cases : ℕ) → is_finite (ty.Enum family cases) ≡ true }
    ensures bools { is_finite ty.Bool ≡ true }
    ensures ranges { (low high : ℤ) → is_finite (ty.Range low high) ≡ true }
    ensures numbers { is_finite ty.Number ≡ false }
    ensures tuples { (ts : List Ty) → is_finite (ty.Tuple ts) ≡ list_all is_finite ts }
{}

/// Where the bounds of a type fit: of a range where both are below 2^63 in size, of a tuple where those
/// of each component do, and of other types always.
pub fn forms_of_bounds()
    ensures enums { (family cases : ℕ) → bounds_fit (ty.Enum family cases) ≡ true }
    ensures bools { bounds_fit ty.Bool ≡ true }
    ensures ranges { (low high : ℤ) → bounds_fit (ty.Range low high)
        ≡ nat_lt (unsigned_abs low) (2 ^ 63) && nat_lt (unsigned_abs high) (2 ^ 63) }
    ensures numbers { bounds_fit ty.Number ≡ true }
    ensures tuples { (ts : List Ty) → bounds_fit (ty.Tuple ts) ≡ list_all bounds_fit ts }
{}

/// How a value prints, at each form: a case by its name, `true` or `false`, a number as a fraction, and
/// a tuple's values in parentheses, with commas.
pub fn forms_of_text()
    ensures cases { (enums : Enums) (family index : ℕ) → text_of enums (value.Case family index)
        ≡ unwrap_or (case_of enums family index) [] }
    ensures flags { (enums : Enums) (b : Bool) → text_of enums (value.Flag b)
        ≡ (if b then codes "true" else codes "false") }
    ensures numbers { (enums : Enums) (q : Fraction) → text_of enums (value.Number q) ≡ text q }
    ensures tuples { (enums : Enums) (vs : List Value) → text_of enums (value.Tuple vs)
        ≡ codes "(" ++ with_commas (map (text_of enums) vs) ++ codes ")" }
{}

/// Lists of types that fit place by place: fitting is an order of them too, values go along with it,
/// and the join of two lists is the least list that both fit, whose bounds fit where theirs do. Lists
/// that fit, types and their values, and two lists and their join are of one length.
pub fn lists()
    ensures reflexive { (ts : List Ty) → pointwise fits ts ts ≡ true }
    ensures transitive { (ts us ws : List Ty) → pointwise fits ts us ≡ true → pointwise fits us ws ≡ true
        → pointwise fits ts ws ≡ true }
    ensures antisymmetric { (ts us : List Ty) → pointwise fits ts us ≡ true → pointwise fits us ts ≡ true → ts ≡ us }
    ensures holds { (ts us : List Ty) (vs : List Value) → pointwise fits ts us ≡ true
        → pointwise holds ts vs ≡ true → pointwise holds us vs ≡ true }
    ensures fits_both { (ts us ws : List Ty) → joins (map join ts) us ≡ Some ws
        → (pointwise fits ts ws ≡ true) × (pointwise fits us ws ≡ true) }
    ensures least { (ts us ws : List Ty) → pointwise fits ts ws ≡ true → pointwise fits us ws ≡ true
        → IsSomeAnd (joins (map join ts) us) (λ least. pointwise fits least ws ≡ true) }
    ensures fitting_lengths { (ts us : List Ty) → pointwise fits ts us ≡ true → length ts ≡ length us }
    ensures holding_lengths { (ts : List Ty) (vs : List Value) → pointwise holds ts vs ≡ true → length ts ≡ length vs }
    ensures joined_lengths { (ts us ws : List Ty) → joins (map join ts) us ≡ Some ws
        → (length ts ≡ length ws) × (length us ≡ length ws) }
    ensures bounds { (ts us ws : List Ty) → list_all bounds_fit ts ≡ true → list_all bounds_fit us ≡ true
        → joins (map join ts) us ≡ Some ws → list_all bounds_fit ws ≡ true }
{}
