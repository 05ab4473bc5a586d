//! Laws of fractions and of sums of terms, for the crates that compute with them. No call here does
//! anything: its clauses are the laws.
ghost use Rattle.std.specs.Int.{◌∣◌};
ghost use Rattle.og_frac.specs.Terms.{common_denominator, value_over, absolute_over, total, IsPositive, HasWeight, SameWeights, scaled};
ghost use Rattle.std.specs.Prelude.{◌≡◌, List, ◌∷◌, ◌++◌, All, IsPermutation, filter, map, Bool, ℕ, ◌+◌, ◌*◌, ◌<◌, ◌≤◌, ◌↔◌, ℤ, pos, ◌+ℤ◌, ◌-ℤ◌, ◌*ℤ◌, ◌<ℤ◌, ◌≤ℤ◌, unsigned_abs};
ghost use Rattle.std.specs.Ordering.{ordering_reverse};
ghost use Rattle.std.specs.declared.cmp.Ordering.TheVariants.{Less, Equal};
ghost use Rattle.og_frac.specs.declared.terms.Term.{Term};
ghost use Rattle.og_frac.specs.Fraction.{Fraction, in_lowest_terms, IsInLowestTerms, SameNumber, IsFrac, Fits, whole, sum, difference, product, order, total_order, floor};

/// Lowest terms stand for the same number, and each number has one such form.
pub fn lowest_terms()
    ensures lowest { (q : Fraction) → 0 < q.denominator → IsInLowestTerms (in_lowest_terms q) }
    ensures same { (q : Fraction) → SameNumber (in_lowest_terms q) q }
    ensures one_form { (a b : Fraction) → IsInLowestTerms a → IsInLowestTerms b → (a ≡ b) ↔ SameNumber a b }
    ensures by_number { (a b : Fraction) → 0 < a.denominator → 0 < b.denominator → SameNumber a b
        → in_lowest_terms a ≡ in_lowest_terms b }
{}

/// Addition goes in any order.
pub fn sums()
    ensures commute { (a b : Fraction) → sum a b ≡ sum b a }
    ensures associate { (a b c : Fraction) → 0 < a.denominator → 0 < b.denominator → 0 < c.denominator
        → sum (sum a b) c ≡ sum a (sum b c) }
{}

/// The opposite of a fraction of the program fits. Whole numbers are subtracted, added and multiplied
/// as they are.
pub fn differences()
    ensures from_zero { (q : Fraction) → IsFrac q → Fits (difference (whole (pos 0)) q) }
    ensures wholes { (a b : ℤ) → difference (whole a) (whole b) ≡ whole (a -ℤ b) }
    ensures whole_sums { (a b : ℤ) → sum (whole a) (whole b) ≡ whole (a +ℤ b) }
    ensures whole_products { (a b : ℤ) → product (whole a) (whole b) ≡ whole (a *ℤ b) }
{}

/// Any two fractions are in order, and for those of the program it is the order that `==` and `<`
/// test.
pub fn orders()
    ensures reversed { (a b : Fraction) → order a b ≡ ordering_reverse (order b a) }
    ensures equal { (a b : Fraction) → (order a b ≡ Equal) ↔ SameNumber a b }
    ensures less { (a b : Fraction) → (order a b ≡ Less)
        ↔ ((a.numerator *ℤ pos b.denominator) <ℤ (b.numerator *ℤ pos a.denominator)) }
    ensures transitive { (a b c : Fraction) → 0 < a.denominator → 0 < b.denominator → 0 < c.denominator
        → order a b ≡ Less → order b c ≡ Less → order a c ≡ Less }
    ensures total { (a b : Fraction) → IsInLowestTerms a → IsInLowestTerms b → total_order a b ≡ order a b }
{}

/// The floor is the greatest whole number that is not above the fraction.
pub fn floors()
    ensures at_most { (q : Fraction) → 0 < q.denominator → (floor q *ℤ pos q.denominator) ≤ℤ q.numerator }
    ensures greatest { (q : Fraction) → 0 < q.denominator → q.numerator <ℤ ((floor q +ℤ pos 1) *ℤ pos q.denominator) }
{}

/// The least common multiple of the denominators is the least, and the order of the terms and a
/// weight split over two equal terms change nothing.
pub fn common_denominators()
    ensures multiple { (ts : List Term) → All IsPositive ts → All (λ t. t.pay.denominator ∣ common_denominator ts) ts }
    ensures least { (ts : List Term) (m : ℕ) → All IsPositive ts → All (λ t. t.pay.denominator ∣ m) ts
        → common_denominator ts ∣ m }
    ensures reordered { (ts us : List Term) → All IsPositive ts → IsPermutation ts us
        → common_denominator ts ≡ common_denominator us }
    ensures split { (t u : Term) (ts : List Term) → t.pay ≡ u.pay → IsPositive t → All IsPositive ts
        → common_denominator (t ∷ u ∷ ts) ≡ common_denominator (u ∷ ts) }
{}

/// The order of the terms and a weight split over two equal terms change neither the sum over a
/// denominator nor the sum of sizes.
pub fn sums_over()
    ensures reordered { (common : ℕ) (ts us : List Term) → IsPermutation ts us
        → value_over common ts ≡ value_over common us }
    ensures sizes_reordered { (common : ℕ) (ts us : List Term) → IsPermutation ts us
        → absolute_over common ts ≡ absolute_over common us }
    ensures split { (common v w : ℕ) (pay : Fraction) (ts : List Term)
        → value_over common (record { weight = v + w; pay = pay } ∷ ts)
        ≡ value_over common (record { weight = v; pay = pay } ∷ record { weight = w; pay = pay } ∷ ts) }
    ensures sizes_split { (common v w : ℕ) (pay : Fraction) (ts : List Term)
        → absolute_over common (record { weight = v + w; pay = pay } ∷ ts)
        ≡ absolute_over common (record { weight = v; pay = pay } ∷ record { weight = w; pay = pay } ∷ ts) }
{}

/// The sum's own size is at most the sum of sizes, and picking some of the terms never raises that.
/// The sums of two lists add up to those of both, and weights that are all multiplied by one number
/// multiply the sums by it and leave the common denominator.
pub fn sizes()
    ensures value { (common : ℕ) (ts : List Term) → unsigned_abs (value_over common ts) ≤ absolute_over common ts }
    ensures picked { (keep : Term → Bool) (common : ℕ) (ts : List Term)
        → absolute_over common (filter keep ts) ≤ absolute_over common ts }
    ensures joined { (common : ℕ) (ts us : List Term)
        → value_over common (ts ++ us) ≡ value_over common ts +ℤ value_over common us }
    ensures sizes_joined { (common : ℕ) (ts us : List Term)
        → absolute_over common (ts ++ us) ≡ absolute_over common ts + absolute_over common us }
    ensures scaled { (k common : ℕ) (ts : List Term)
        → value_over common (map (scaled k) ts) ≡ pos k *ℤ value_over common ts }
    ensures sizes_scaled { (k common : ℕ) (ts : List Term)
        → absolute_over common (map (scaled k) ts) ≡ k * absolute_over common ts }
    ensures denominator_scaled { (k : ℕ) (ts : List Term)
        → common_denominator (map (scaled k) ts) ≡ common_denominator ts }
{}

/// Lists in which each payment has the same weight, added up over its terms, have the same sums, and
/// where no weight is 0 the same common denominator.
pub fn weights()
    ensures value { (common : ℕ) (ts us : List Term) → SameWeights ts us
        → value_over common ts ≡ value_over common us }
    ensures sizes { (common : ℕ) (ts us : List Term) → SameWeights ts us
        → absolute_over common ts ≡ absolute_over common us }
    ensures denominator { (ts us : List Term) → All IsPositive ts → All IsPositive us
        → All HasWeight ts → All HasWeight us → SameWeights ts us
        → common_denominator ts ≡ common_denominator us }
{}

/// The numerator of a sum over a denominator that the terms share, over that denominator, is the
/// terms' sum as fractions.
pub fn totals()
    ensures over { (common : ℕ) (ts : List Term) → 0 < common → All IsPositive ts
        → All (λ t. t.pay.denominator ∣ common) ts
        → in_lowest_terms (record { numerator = value_over common ts; denominator = common }) ≡ total ts }
{}
