//! The offsets of an actor's units.

ghost use Rattle.std.specs.Prelude.{◌≡◌, ◌<◌, ◌^◌, ℕ, IfOk, length, slice_index_or, None};
ghost use Rattle.std.specs.Option.{ForSome};
ghost use Rattle.pt_causality.specs.Delays.{AreSmall, least_of};
ghost use Rattle.pt_offsets.specs.Bounded.{AreModest, offset_by, offset_from};
ghost use Rattle.pt_offsets.specs.Greatest.{HasGreatest};
ghost use Rattle.pt_offsets.specs.Margins.{unit_at};
ghost use Rattle.pt_offsets.specs.Sources.{AreSources};

use crate::bounds::bound_at;
use crate::greatest::greater;
use pt_causality::Least;
use pt_types::Unit;
use std::alloc::{AllocError, Global};

/// The offsets of an actor's units, for groups 0 to `groups - 1`.
///
/// `bounds` has the bounds of all actors, in microseconds, and `sources` the numbers of those that have one.
pub fn unit_offsets(
    alloc: Global,
    bounds: &[Option<u64>],
    sources: &[u32],
    least: &Least,
    actor: u32,
    groups: u32,
) -> Result<Vec<Option<i64>>, AllocError>
    requires sources { AreSources bounds.now sources.now }
    requires modest { AreModest bounds.now }
    requires small { AreSmall (least_of least.now) }
    ensures len { IfOk result (λ v. length v.items ≡ groups) }
    ensures each { IfOk result (λ v. (k : ℕ) → k < groups →
        HasGreatest (length bounds.now) (offset_from bounds.now (least_of least.now)
        (unit_at actor k)) (slice_index_or v.items k None)) }
{
    let mut offsets = Vec::new(alloc);
    for group in 0..groups {
        offsets.push(unit_offset(bounds, sources, least, Unit { actor, group }))?;
    }
    Ok(offsets)
}

/// The offset of a unit: the greatest for all sensors and receivers.
fn unit_offset(bounds: &[Option<u64>], sources: &[u32], least: &Least, unit: Unit) -> Option<i64>
    requires sources { AreSources bounds.now sources.now }
    requires modest { AreModest bounds.now }
    requires small { AreSmall (least_of least.now) }
    ensures { HasGreatest (length bounds.now)
        (offset_from bounds.now (least_of least.now) unit) result }
{
    let mut offset = None;
    for actor in sources {
        let source = Unit {
            actor: *actor,
            group: 0,
        };
        offset = greater(
            offset,
            offset_by(least, bound_at(bounds, *actor), source, unit),
        );
    }
    offset
}

/// The offset of a unit for one source: bound minus least delay, if the source has a bound and leads to the unit.
fn offset_by(least: &Least, bound: Option<u64>, source: Unit, unit: Unit) -> Option<i64>
    requires bound { ForSome bound (λ b. b < 2 ^ 62) }
    requires small { AreSmall (least_of least.now) }
    ensures { result ≡ offset_by bound (least_of least.now source unit) }
{
    let bound = bound?;
    let delay = least.get(source, unit)?;
    Some(bound as i64 - delay.time as i64)
}
