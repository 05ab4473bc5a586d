ghost use Rattle.std.specs.Prelude.{◌≡◌, ◌≤◌, ◌≤ℤ◌, if◌then◌else◌, is_some};
ghost use Rattle.std.specs.Cmp.Lexicographic.{pointwise};
ghost use Rattle.std.specs.Int.{int_gap};
ghost use Rattle.og_types.specs.Ty.{holds, is_between};
ghost use Rattle.og_types.specs.Values.{rank_of, joint_rank_of, span, IsSmall, AreSmall};

use crate::count::joint_count;
use crate::ty::{Ty, is_between};
use crate::value::Value;
use og_frac::Frac;
use og_list::List;

impl Ty {
    /// The place of the value among the type's values, from 0, or `None` where it isn't of the type.
    #[tactic(auto, using(crate::proofs::RankLaws::rank_is_there))]
    pub fn rank(&self, v: &Value) -> Option<u32>
        requires small { IsSmall self.now }
        ensures rank { result ≡ rank_of self.now v.now }
        ensures there { is_some result ≡ holds self.now v.now }
    {
        self.place(v)
    }

    // `rank`, which adds what follows from it.
    #[cycle(ranking)]
    #[tactic(auto, using(crate::proofs::RankOf::rank_at))]
    fn place(&self, v: &Value) -> Option<u32>
        requires small { IsSmall self.now }
        ensures { result ≡ rank_of self.now v.now }
    {
        match (self, v) {
            (Ty::Enum(family, cases), Value::Case(of_family, index)) => {
                if family == of_family && index < cases {
                    Some(*index)
                } else {
                    None
                }
            }
            (Ty::Bool, Value::Flag(flag)) => Some(u32::from(*flag)),
            (Ty::Range(low, high), Value::Number(number)) => place_between(*low, *high, number),
            (Ty::Tuple(types), Value::Tuple(values)) => joint_place(types, values),
            _ => None,
        }
    }
}

/// The place of the number among the whole numbers from the first to the second.
#[tactic(auto, using(crate::proofs::Span::between_gap))]
fn place_between(low: i64, high: i64, number: &Frac) -> Option<u32>
    requires few { span low high ≤ 4096 }
    ensures { result ≡ (if is_between low high number.now then Some (int_gap low number.now.numerator) else None) }
{
    if is_between(low, high, number) {
        Some(gap(low, number.num()) as u32)
    } else {
        None
    }
}

/// How far the second number is above the first.
fn gap(low: i64, high: i64) -> u64
    requires { low ≤ℤ high }
    ensures { result ≡ int_gap low high }
{
    (i128::from(high) - i128::from(low)) as u64
}

/// The place of the list of values among those of one value of each type, the first type's slowest,
/// or `None` where a value isn't of its type or the lengths differ.
#[tactic(auto, using(crate::proofs::RankLaws::joint_rank_is_there))]
pub fn joint_rank(types: &List<Ty>, values: &List<Value>) -> Option<u32>
    requires small { AreSmall types.now }
    ensures rank { result ≡ joint_rank_of types.now values.now }
    ensures there { is_some result ≡ pointwise holds types.now values.now }
{
    joint_place(types, values)
}

// `joint_rank`, which adds what follows from it.
#[cycle(ranking)]
fn joint_place(types: &List<Ty>, values: &List<Value>) -> Option<u32>
    requires small { AreSmall types.now }
    ensures { result ≡ joint_rank_of types.now values.now }
{
    if types.len() != values.len() {
        return None;
    }
    let mut weight = match joint_count(types) {
        Some(count) => count,
        None => return None,
    };
    if weight == 0 {
        // A type without values: no list is one of one value of each.
        return None;
    }
    let mut rank = 0;
    'types: for (at, ty) in types.as_slice().iter().enumerate() {
        match ty.count() {
            Some(count) => weight /= count,
            None => return None,
        }
        match values.get(at) {
            Some(value) => match ty.place(value) {
                Some(place) => rank += place * weight,
                None => return None,
            },
            None => return None,
        }
    }
    Some(rank)
}
