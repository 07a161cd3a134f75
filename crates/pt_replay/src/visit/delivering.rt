//! Messages that have arrived.

ghost use Rattle.std.specs.Prelude.{◌≡◌, [], drop, length, map, take};
ghost use Rattle.pt_semantics.specs.Lists.{Each};
ghost use Rattle.pt_types.specs.declared.air.InAir.{InAir};
ghost use Rattle.pt_replay.specs.Visits.Moments.{ArriveFrom};
ghost use Rattle.pt_semantics.specs.TrueTime.{came, come_on, left_on, map_from};

use crate::airway::Airway;
use crate::visit::arrivals::arrival_at;
use pt_links::{PLACES, Pipe};
use pt_tags::TrueTime;
use pt_types::Graph;

/// Moves the messages that have arrived from an airway into an empty pipe, as many as it holds.
fn deliver_from(airway: &mut Airway, pipe: &mut Pipe, now: TrueTime)
    requires empty { pipe.old ≡ [] }
    ensures pipe { pipe.new ≡ map (λ (m : InAir). m.message)
        (take (came now airway.old.on_way) airway.old.on_way) }
    ensures airway { airway.new ≡ record airway.old
        { on_way = drop (came now airway.old.on_way) airway.old.on_way } }
{
    for _k in 0..PLACES {
        let Some(message) = airway.arrived(now) else {
            return;
        };
        let _ = pipe.push(message);
    }
}

/// Moves the messages that have arrived at a platform from the airways into the pipes of their links, which are empty, as
/// many as each pipe holds.
// Not inlined: most visits don't need it.
#[inline(never)]
fn deliver_all(
    graph: &Graph,
    number: u32,
    airways: &mut [Airway],
    pipes: &mut [Pipe],
    now: TrueTime,
)
    requires airways { length airways.old ≡ length graph.now.links }
    requires pipes { length pipes.old ≡ length graph.now.links }
    requires empty { Each (λ pipe. pipe ≡ []) pipes.old }
    ensures pipes { pipes.new ≡ map_from (come_on graph.now number now) 0 airways.old }
    ensures airways { airways.new ≡ map_from (left_on graph.now number now) 0 airways.old }
{
    let links = graph.links.as_slice();
    for l in 0..links.len() {
        if graph.platform_of(links[l].to) == number {
            deliver_from(&mut airways[l], &mut pipes[l], now);
        }
    }
}

/// Moves the messages that have arrived at a platform from the airways into the pipes of their links, which are empty, as
/// many as each pipe holds. `arrivals` has a time for each platform before which no message arrives there.
pub fn deliver(
    graph: &Graph,
    number: u32,
    airways: &mut [Airway],
    arrivals: &[u64],
    pipes: &mut [Pipe],
    now: TrueTime,
)
    requires airways { length airways.old ≡ length graph.now.links }
    requires arrivals { ArriveFrom graph.now arrivals.now airways.old }
    requires pipes { length pipes.old ≡ length graph.now.links }
    requires empty { Each (λ pipe. pipe ≡ []) pipes.old }
    ensures pipes { pipes.new ≡ map_from (come_on graph.now number now) 0 airways.old }
    ensures airways { airways.new ≡ map_from (left_on graph.now number now) 0 airways.old }
{
    if now < arrival_at(arrivals, number) {
        return;
    }
    deliver_all(graph, number, airways, pipes, now);
}
