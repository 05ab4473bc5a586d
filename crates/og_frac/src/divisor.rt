ghost use Rattle.std.specs.Prelude.{◌≡◌};
ghost use Rattle.og_frac.specs.Fraction.{greatest_common_divisor};

/// The greatest common divisor by Euclid's algorithm, one division a step. Two steps bring the second
/// number below its half, so there are at most 256.
#[tactic(auto, using(crate::proofs::Divisors::euclid))]
pub fn greatest_common_divisor(first: u128, second: u128) -> u128
    ensures { result ≡ greatest_common_divisor first second }
{
    let mut kept = first;
    let mut left = second;
    'steps: while left != 0 {
        let rest = kept % left;
        kept = left;
        left = rest;
    }
    kept
}
