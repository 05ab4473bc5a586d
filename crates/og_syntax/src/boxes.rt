ghost use Rattle.std.specs.Prelude.{◌≡◌, ◌++◌, ◌∷◌, [], Ok, IfOk, OnOk};

use og_list::{Boxed, List};
use std::alloc::{AllocError, Global};

/// The value behind a pointer. Where memory is wanting, the value is let go.
pub fn new_box<T: Drop>(alloc: Global, value: T) -> Result<Boxed<T>, AllocError>
    ensures { IfOk result (λ made. made ≡ value) }
{
    match Boxed::new(alloc, value) {
        Ok(made) => Ok(made),
        Err(_) => Err(AllocError),
    }
}

/// The two, where both could be made.
pub(crate) fn both<A: Drop, B: Drop>(
    first: Result<A, AllocError>,
    second: Result<B, AllocError>,
) -> Result<(A, B), AllocError>
    ensures { IfOk result (λ made. (first ≡ Ok made.0) × (second ≡ Ok made.1)) }
{
    match first {
        Ok(first) => match second {
            Ok(second) => Ok((first, second)),
            Err(fault) => Err(fault),
        },
        Err(fault) => Err(fault),
    }
}

/// Adds the item at the end, where it could be made.
pub(crate) fn add_made<T: Drop>(
    list: &mut List<T>,
    item: Result<T, AllocError>,
) -> Result<(), AllocError>
    ensures { (made : T) → IfOk item (λ it. it ≡ made) → OnOk result (list.new ≡ list.old ++ made ∷ []) }
{
    list.add(item?)
}
