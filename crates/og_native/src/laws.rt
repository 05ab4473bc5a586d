//! Laws of the mechanisms, in the words of those who design them. No call here does anything: its
//! clauses are the laws.
ghost use Rattle.std.specs.Prelude.{◌≡◌, ◌↔◌, List, true, false, pos, Some};
ghost use Rattle.og_frac.specs.Fraction.{Fraction, IsFrac, whole, sum, difference};
ghost use Rattle.og_native.specs.declared.auction.Tie.{Tie};
ghost use Rattle.og_types.specs.declared.value.Value.{Value};
ghost use Rattle.og_native.specs.declared.auction.Winner.TheVariants as winners;
ghost use Rattle.og_native.specs.declared.mechanism.Mechanism.{Mechanism};
ghost use Rattle.og_native.specs.Mechanisms.{winner, is_below, second_price, share};
ghost use Rattle.og_native.specs.Ports.{are_outputs, are_feedback};
ghost use Rattle.og_native.specs.Shipped.{ports_of, played, payoffs};

/// The winner of an auction bids at least the reserve, and no less than the other. Nobody wins exactly
/// where both bids are below the reserve.
pub fn winning()
    ensures first { (reserve : Fraction) (tie : Tie) (x y : Fraction) → IsFrac reserve → IsFrac x → IsFrac y
        → winner reserve tie x y ≡ winners.First → (is_below x reserve ≡ false) × (is_below x y ≡ false) }
    ensures second { (reserve : Fraction) (tie : Tie) (x y : Fraction) → IsFrac reserve → IsFrac x → IsFrac y
        → winner reserve tie x y ≡ winners.Second → (is_below y reserve ≡ false) × (is_below y x ≡ false) }
    ensures nobody { (reserve : Fraction) (tie : Tie) (x y : Fraction) → (winner reserve tie x y ≡ winners.Nobody)
        ↔ (is_below x reserve ≡ true) × (is_below y reserve ≡ true) }
{}

/// What the bidders get in a second price auction doesn't rest on the winner's own bid.
pub fn own_bids()
    ensures first { (reserve : Fraction) (tie : Tie) (x z y v w : Fraction) → winner reserve tie x y ≡ winners.First
        → winner reserve tie z y ≡ winners.First → second_price reserve (winner reserve tie x y) x y v w
        ≡ second_price reserve (winner reserve tie z y) z y v w }
    ensures second { (reserve : Fraction) (tie : Tie) (x y z v w : Fraction) → winner reserve tie x y ≡ winners.Second
        → winner reserve tie x z ≡ winners.Second → second_price reserve (winner reserve tie x y) x y v w
        ≡ second_price reserve (winner reserve tie x z) x z v w }
{}

/// The shares of a split add up to one.
pub fn shares()
    ensures { (x y s : Fraction) → IsFrac x → IsFrac y → share x y ≡ Some s
        → sum s (difference (whole (pos 1)) s) ≡ whole (pos 1) }
{}

/// What a mechanism answers is of its ports.
pub fn at_ports()
    ensures plays { (m : Mechanism) (inputs answer : List Value) → played m inputs ≡ Some answer
        → are_outputs (ports_of m) answer ≡ true }
    ensures pays { (m : Mechanism) (inputs returns answer : List Value) → payoffs m inputs returns ≡ Some answer
        → are_feedback (ports_of m) answer ≡ true }
{}
