ghost use Rattle.std.specs.Prelude.{◌≡◌, ◌↔◌, IfOk, IsTrue};
ghost use Rattle.std.specs.Cmp.Lexicographic.{slice_cmp};
ghost use Rattle.og_types.specs.Value.{same, order, number_of};

use og_frac::Frac;
use og_list::List;
use std::alloc::{AllocError, Global};
use std::cmp::Ordering;

/// What a wire carries.
#[derive(Debug, Drop)]
pub enum Value {
    /// A case: its enum's number and its index there.
    Case(u32, u32),
    /// A truth.
    Flag(bool),
    /// A number. One of a range has the denominator 1.
    Number(Frac),
    /// One value for each component of a tuple.
    Tuple(List<Value>),
}

impl Value {
    /// An equal value, in memory of its own.
    #[cycle(value_copies)]
    pub fn copy(&self, alloc: Global) -> Result<Value, AllocError>
        ensures { IfOk result (λ made. made ≡ self.now) }
    {
        match self {
            Value::Case(family, index) => Ok(Value::Case(*family, *index)),
            Value::Flag(flag) => Ok(Value::Flag(*flag)),
            Value::Number(number) => Ok(Value::Number(*number)),
            Value::Tuple(parts) => Ok(Value::Tuple(copy_values(alloc, parts)?)),
        }
    }

    /// The number, of a value that is one.
    pub fn as_number(&self) -> Option<Frac>
        ensures { result ≡ number_of self.now }
    {
        match self {
            Value::Number(number) => Some(*number),
            _ => None,
        }
    }

    /// Whether the two values are equal: whether neither comes before the other.
    #[tactic(auto, using(crate::specs::laws::ValueOrder::order_equal))]
    fn is_same(&self, other: &Value) -> bool
        ensures { result ≡ same self.now other.now }
    {
        self.order(other).is_eq()
    }

    /// The order of the two values. Of one type, they stand as in the list of its values, and numbers
    /// by their order as fractions.
    #[cycle(value_orders)]
    #[tactic(auto, using(crate::proofs::ValueLevels::order_tuples))]
    pub fn order(&self, other: &Value) -> Ordering
        ensures { result ≡ order self.now other.now }
    {
        match (self, other) {
            (Value::Case(family, index), Value::Case(other_family, other_index)) => {
                family.cmp(other_family).then(index.cmp(other_index))
            }
            (Value::Case(_, _), _) => Ordering::Less,
            (Value::Flag(_), Value::Case(_, _)) => Ordering::Greater,
            (Value::Flag(first), Value::Flag(second)) => first.cmp(second),
            (Value::Flag(_), _) => Ordering::Less,
            (Value::Number(first), Value::Number(second)) => first.cmp(second),
            (Value::Number(_), Value::Tuple(_)) => Ordering::Less,
            (Value::Number(_), _) => Ordering::Greater,
            (Value::Tuple(parts), Value::Tuple(other_parts)) => order_all(parts, other_parts),
            (Value::Tuple(_), _) => Ordering::Greater,
        }
    }
}

/// Equal values, in the same order, in memory of their own.
#[cycle(value_copies)]
pub fn copy_values(alloc: Global, values: &List<Value>) -> Result<List<Value>, AllocError>
    ensures { IfOk result (λ made. made ≡ values.now) }
{
    let mut all = List::new(alloc);
    'values: for value in values.as_slice() {
        all.add(value.copy(alloc)?)?;
    }
    Ok(all)
}

/// The order of the two lists: by the first values, then the second, and so on.
#[cycle(value_orders)]
fn order_all(values: &List<Value>, others: &List<Value>) -> Ordering
    ensures { result ≡ slice_cmp order values.now others.now }
{
    'values: for (at, value) in values.as_slice().iter().enumerate() {
        match others.get(at) {
            Some(other) => {
                let found = value.order(other);
                if found.is_ne() {
                    return found;
                }
            }
            None => return Ordering::Greater,
        }
    }
    values.len().cmp(&others.len())
}

/// Values are equal where they are of one form and their parts are equal: `==` answers true exactly at
/// equal values.
impl PartialEq for Value {
    ghost use Rattle.og_types.specs.Value.{same};
    ghost use Rattle.og_types.specs.laws.ValueEquality.{same_decides};
    ghost use Rattle.std.specs.Cmp.{decided, partial_equiv_from_equiv};

    ghost eq = { same };

    ghost laws = { partial_equiv_from_equiv (decided same same_decides) };

    #[tactic(auto, using(crate::specs::laws::ValueEquality::same_decides))]
    fn eq(&self, other: &Value) -> bool
        ensures same { result ≡ same self.now other.now }
        ensures equal { IsTrue result ↔ (self.now ≡ other.now) }
    {
        self.is_same(other)
    }
}

impl Eq for Value {
    ghost use Rattle.og_types.specs.Value.{same};
    ghost use Rattle.og_types.specs.laws.ValueEquality.{same_decides};
    ghost use Rattle.std.specs.Cmp.{decided};

    ghost laws = { decided same same_decides };
}

/// The order that `order` answers: `cmp` answers equal exactly at equal values.
impl Ord for Value {
    ghost use Rattle.std.proofs.Common.{refl};
    ghost use Rattle.og_types.specs.Value.{order};
    ghost use Rattle.og_types.specs.laws.ValueOrder.{order_total, order_equal};

    ghost cmp = { order };

    ghost total = { order_total };

    ghost matches_partial_cmp = { λ v w. refl };

    ghost matches_eq = { order_equal };

    fn cmp(&self, other: &Value) -> Ordering
        ensures { result ≡ order self.now other.now }
    {
        self.order(other)
    }
}

/// As `Ord`.
impl PartialOrd for Value {
    ghost use Rattle.std.proofs.Common.{refl};
    ghost use Rattle.std.specs.Cmp.{partial_order_from_agreeing_total};
    ghost use Rattle.std.specs.Ordering.{as_partial_cmp};
    ghost use Rattle.og_types.specs.Value.{order};
    ghost use Rattle.og_types.specs.laws.ValueOrder.{order_total, order_equal};

    ghost partial_cmp = { as_partial_cmp order };

    ghost laws = { partial_order_from_agreeing_total order order_total (λ v w. refl) order_equal };

    fn partial_cmp(&self, other: &Value) -> Option<Ordering>
        ensures { result ≡ as_partial_cmp order self.now other.now }
    {
        Some(self.cmp(other))
    }
}
