//! An engine's airways at the start of a run, and when messages arrive at the platforms.

ghost use Rattle.std.specs.Prelude.{◌≡◌, IfOk, replicate};
ghost use Rattle.pt_semantics.specs.Arrivals.{empty_airway};

use crate::airway::Airway;
use pt_tags::Memory;
use std::alloc::Global;

/// `count` airways on which nothing was put.
pub fn airways(alloc: Global, count: usize) -> Result<Vec<Airway>, Memory>
    ensures { IfOk result (λ airways. airways.items ≡ replicate count empty_airway) }
{
    let mut airways = Vec::new(alloc);
    for _ in 0..count {
        if airways.push(Airway::new(alloc)).is_err() {
            return Err(Memory);
        }
    }
    Ok(airways)
}

/// For each of `count` platforms the time 0, before which no message arrives.
pub fn arrivals(alloc: Global, count: usize) -> Result<Vec<u64>, Memory>
    ensures { IfOk result (λ arrivals. arrivals.items ≡ replicate count 0) }
{
    let mut arrivals = Vec::new(alloc);
    for _ in 0..count {
        if arrivals.push(0).is_err() {
            return Err(Memory);
        }
    }
    Ok(arrivals)
}
