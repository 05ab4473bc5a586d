ghost use Rattle.std.specs.Prelude.{◌≡◌, ◌≤◌, ◌*◌, min, length, IfSome};
ghost use Rattle.std.specs.List.{list_all};
ghost use Rattle.og_types.specs.Ty.{is_finite};
ghost use Rattle.og_types.specs.Values.{values_of, joint_values_of, capped_count, span, IsSmall, AreSmall};

use crate::ty::Ty;
use og_list::List;

/// How far values are counted: one more than a type or a list of types may have.
const ENOUGH: u32 = 4097;

impl Ty {
    /// How many values the type has, or 4,097 where there are more. `None` where a number stands in
    /// the type.
    #[tactic(auto, using(crate::proofs::CappedCount::small_from_count))]
    pub fn count(&self) -> Option<u32>
        ensures many { result ≡ capped_count (is_finite self.now) (length (values_of self.now)) }
        ensures at_most { IfSome result (λ n. n ≤ 4097) }
        ensures small { IfSome result (λ n. n ≤ 4096 → IsSmall self.now) }
    {
        self.many()
    }

    // `count`, which adds what follows from it.
    #[cycle(counting)]
    #[tactic(auto, using(crate::proofs::CappedCount::capped_counts))]
    fn many(&self) -> Option<u32>
        ensures many { result ≡ capped_count (is_finite self.now) (length (values_of self.now)) }
        ensures at_most { IfSome result (λ n. n ≤ 4097) }
    {
        match self {
            Ty::Enum(_, cases) => Some((*cases).min(ENOUGH)),
            Ty::Bool => Some(2),
            Ty::Range(low, high) => Some(count_between(*low, *high)),
            Ty::Tuple(parts) => joint_many(parts),
            Ty::Number => None,
        }
    }
}

/// How many whole numbers there are from the first to the second, or 4,097 where there are more.
fn count_between(low: i64, high: i64) -> u32
    ensures { result ≡ min (span low high) 4097 }
{
    if high < low {
        return 0;
    }
    let above = i128::from(high) - i128::from(low);
    if above < 4096 {
        above as u32 + 1
    } else {
        ENOUGH
    }
}

/// How many lists of one value of each type there are, or 4,097 where there are more. `None` where a
/// number stands in a type.
#[tactic(auto, using(crate::proofs::CappedCount::small_from_joint_count))]
pub fn joint_count(types: &List<Ty>) -> Option<u32>
    ensures many { result ≡ capped_count (list_all is_finite types.now) (length (joint_values_of types.now)) }
    ensures at_most { IfSome result (λ n. n ≤ 4097) }
    ensures small { IfSome result (λ n. n ≤ 4096 → AreSmall types.now) }
{
    joint_many(types)
}

// `joint_count`, which adds what follows from it.
#[cycle(counting)]
fn joint_many(types: &List<Ty>) -> Option<u32>
    ensures many { result ≡ capped_count (list_all is_finite types.now) (length (joint_values_of types.now)) }
    ensures at_most { IfSome result (λ n. n ≤ 4097) }
{
    let mut many = 1;
    'types: for ty in types.as_slice() {
        match ty.many() {
            Some(count) => many = (many * count).min(ENOUGH),
            None => return None,
        }
    }
    Some(many)
}
