//! The least slack that a sender or an actuator needs.

ghost use Rattle.std.specs.Prelude.{◌≡◌, ◌<◌, ◌≤◌, ◌^◌, ◌+◌, ℕ, true, length, slice_index};
ghost use Rattle.pt_types.specs.Kinds.{kind_is_lawful};
ghost use Rattle.pt_types.specs.Lawful.{IsLawful};
ghost use Rattle.pt_causality.specs.Delays.{least_of};
ghost use Rattle.pt_slacks.specs.Hops.{hop_at};
ghost use Rattle.pt_slacks.specs.Needs.{IsBase, IsRaised, by_kind, needed_by};

use crate::hop::Hop;
use pt_causality::Least;
use pt_tags::{Delay, Time};
use pt_types::{Graph, Kind, Unit};

/// The slack that an actor needs by the sensors alone, in microseconds.
pub fn base(graph: &Graph, least: &Least, actor: u32) -> u64
    requires { IsLawful graph.now }
    ensures { IsBase graph.now (least_of least.now) actor result }
{
    let mut most: u64 = 0;
    for (number, source) in graph.actors.as_slice().iter().enumerate() {
        most = most.max(by_kind(&source.kind, least, number as u32, actor));
    }
    most
}

/// The greater of `start` and the slack that an actor needs by the links, in microseconds.
///
/// `row` has the slack of each link's sender.
pub fn raised(hops: &[Hop], least: &Least, row: &[u64], start: Time, actor: u32) -> u64
    requires len { length row.now ≡ length hops.now }
    requires row { (w : ℕ) → w < length hops.now → slice_index row.now w < 2 ^ 62 }
    requires cost { (w : ℕ) → w < length hops.now → (hop_at hops.now w).cost < 2 ^ 52 }
    ensures { IsRaised hops.now (least_of least.now) (slice_index row.now) actor start result }
{
    let mut most = start;
    for (number, hop) in hops.iter().enumerate() {
        most = most.max(by_source(least, row[number] + hop.cost, hop.to, actor));
    }
    most
}

/// The slack that an actor needs by a source with this number and kind, if it is a sensor.
fn by_kind(kind: &Kind, least: &Least, source: u32, actor: u32) -> u64
    requires { kind_is_lawful kind.now ≡ true }
    ensures { result ≡ by_kind kind.now
        (least_of least.now (record { actor = source; group = 0 })
        (record { actor = actor; group = 0 })) }
{
    match kind {
        Kind::Sensor { bound, .. } => by_source(least, *bound + 1, source, actor),
        _ => 0,
    }
}

/// The slack that an actor needs by a source at which an event comes this late, in microseconds.
pub fn by_source(least: &Least, late: u64, source: u32, actor: u32) -> u64
    ensures { result ≡ needed_by late
        (least_of least.now (record { actor = source; group = 0 })
        (record { actor = actor; group = 0 })) }
{
    let source = Unit {
        actor: source,
        group: 0,
    };
    needed(late, least.get(source, Unit { actor, group: 0 }))
}

/// What is left of a time after a delay; 0 if there is no delay.
fn needed(late: u64, delay: Option<Delay>) -> u64
    ensures { result ≡ needed_by late delay }
{
    match delay {
        Some(delay) => late.saturating_sub(delay.time),
        None => 0,
    }
}
