//! From when on messages arrive at each platform.

ghost use Rattle.std.specs.Prelude.{◌≡◌, ◌<◌, ◌≤◌, ℕ, false, length, slice_index_or};
ghost use Rattle.pt_replay.specs.Visits.Moments.{ArriveFrom};

use crate::airway::Airway;
use pt_tags::TrueTime;
use pt_types::Graph;

/// Lowers the time that the list has for a platform to this arrival, if it is later.
fn lower(arrivals: &mut [u64], number: u32, arrival: u64)
    ensures here { slice_index_or arrivals.new number 0 ≤ arrival }
    ensures not_raised { (i : ℕ) → slice_index_or arrivals.new i 0
        ≤ slice_index_or arrivals.old i 0 }
{
    let place = number as usize;
    if place >= arrivals.len() {
        return;
    }
    if arrival < arrivals[place] {
        arrivals[place] = arrival;
    }
}

/// Sets for each platform, by its number, the least arrival of the messages that are on their way to it, in microseconds;
/// `u64::MAX` if there are none.
// Not inlined: most visits don't need it.
#[inline(never)]
fn find_arrivals(graph: &Graph, airways: &[Airway], arrivals: &mut [u64])
    requires airways { length airways.now ≡ length graph.now.links }
    ensures { ArriveFrom graph.now arrivals.new airways.now }
{
    arrivals.fill(u64::MAX);
    let links = graph.links.as_slice();
    for l in 0..links.len() {
        let next = airways[l].next_arrival().unwrap_or(u64::MAX);
        lower(arrivals, graph.platform_of(links[l].to), next);
    }
}

/// Finds the arrivals anew after a visit of a platform with this arrival, unless none were sent and none had arrived: then the
/// times are still right.
pub fn update_arrivals(
    graph: &Graph,
    airways: &[Airway],
    arrivals: &mut [u64],
    sent: bool,
    arrival: u64,
    now: TrueTime,
)
    requires airways { length airways.now ≡ length graph.now.links }
    requires still { sent ≡ false → now < arrival → ArriveFrom graph.now arrivals.old airways.now }
    ensures { ArriveFrom graph.now arrivals.new airways.now }
{
    if !sent {
        if now < arrival {
            return;
        }
    }
    find_arrivals(graph, airways, arrivals);
}

/// The time that the list has for a platform, or 0 if it has none.
pub fn arrival_at(arrivals: &[u64], number: u32) -> u64
    ensures { result ≡ slice_index_or arrivals.now number 0 }
{
    arrivals.get(number as usize).copied().unwrap_or(0)
}
