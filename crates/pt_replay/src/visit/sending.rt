//! Messages that are put on their way.

ghost use Rattle.std.specs.Prelude.{◌≡◌, [], IfOk, OnOk, ℕ, false, length, map, slice_index_or, true};
ghost use Rattle.pt_semantics.specs.TrueTime.{map_from, put_all, put_link};

use crate::airway::Airway;
use pt_engine::are_empty;
use pt_links::Pipe;
use pt_tags::{Memory, TrueTime};
use pt_types::{Air, Graph};

/// Puts all messages in a pipe on their way.
fn send_from(
    pipe: &mut Pipe,
    airway: &mut Airway,
    transits: &[u64],
    delay: u64,
    now: TrueTime,
) -> Result<(), Memory>
    ensures airway { OnOk result (airway.new ≡ put_all now transits.now delay pipe.old airway.old) }
    ensures pipe { OnOk result (pipe.new ≡ []) }
{
    while let Some(message) = pipe.take() {
        airway.put(now, transits, delay, message)?;
    }
    Ok(())
}

/// Puts all messages in the pipes on their way, and returns whether there were any.
// Not inlined: most visits send none.
#[inline(never)]
fn send_all(
    graph: &Graph,
    air: &Air,
    pipes: &mut [Pipe],
    airways: &mut [Airway],
    now: TrueTime,
) -> Result<bool, Memory>
    requires airways { length airways.old ≡ length graph.now.links }
    requires pipes { length pipes.old ≡ length graph.now.links }
    requires transits { length air.now.transits ≡ length graph.now.links }
    ensures airways { OnOk result (airways.new
        ≡ map_from (λ l. put_link air.now graph.now now l
        (slice_index_or pipes.old l [])) 0 airways.old) }
    ensures pipes { OnOk result (pipes.new ≡ map (λ pipe. []) pipes.old) }
    ensures none { IfOk result (λ sent. sent ≡ false → airways.new ≡ airways.old) }
{
    let links = graph.links.as_slice();
    let transits = air.transits.as_slice();
    let mut sent = false;
    for l in 0..links.len() {
        if pipes[l].peek().is_none() {
            continue;
        }
        sent = true;
        let recorded = transits[l].as_slice();
        send_from(
            &mut pipes[l],
            &mut airways[l],
            recorded,
            links[l].delay,
            now,
        )?;
    }
    Ok(sent)
}

/// Puts all messages in the pipes on their way, and returns whether there were any.
pub fn send(
    graph: &Graph,
    air: &Air,
    pipes: &mut [Pipe],
    airways: &mut [Airway],
    now: TrueTime,
) -> Result<bool, Memory>
    requires airways { length airways.old ≡ length graph.now.links }
    requires pipes { length pipes.old ≡ length graph.now.links }
    requires transits { length air.now.transits ≡ length graph.now.links }
    ensures airways { OnOk result (airways.new
        ≡ map_from (λ l. put_link air.now graph.now now l
        (slice_index_or pipes.old l [])) 0 airways.old) }
    ensures pipes { OnOk result (pipes.new ≡ map (λ pipe. []) pipes.old) }
    ensures none { IfOk result (λ sent. sent ≡ false → airways.new ≡ airways.old) }
{
    if are_empty(pipes) {
        return Ok(false);
    }
    send_all(graph, air, pipes, airways, now)
}
