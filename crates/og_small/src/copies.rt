ghost use Rattle.std.specs.Prelude.{◌≡◌, IfOk};

use og_list::List;
use std::alloc::{AllocError, Global};

/// Names of their own.
pub(crate) fn copy_names(alloc: Global, names: &[List<u8>]) -> Result<List<List<u8>>, AllocError>
    ensures { IfOk result (λ made. made ≡ names.now) }
{
    let mut made = List::new(alloc);
    'names: for name in names {
        made.add(List::from_slice(alloc, name.as_slice())?)?;
    }
    Ok(made)
}
