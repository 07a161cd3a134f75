//! Numbered places, one for each thing with a number.

ghost use Rattle.std.specs.Prelude.{◌≡◌, vec_len, IfOk};

use pt_tags::Memory;
use std::alloc::Global;

/// An empty place for each number below `count`.
pub fn empty_places<T: Drop>(alloc: Global, count: usize) -> Result<Vec<Option<T>>, Memory>
    ensures { IfOk result (λ v. vec_len v ≡ count) }
{
    let mut places = Vec::with_capacity(alloc, count)?;
    for _k in 0..count {
        places.push_reserved(None);
    }
    Ok(places)
}
