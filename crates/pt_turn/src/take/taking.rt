//! The messages that a turn takes.

ghost use Rattle.std.specs.Prelude.{◌≡◌, ◌+◌, ◌<◌, ◌≤◌, length, vec_len, vec_capacity};
ghost use Rattle.pt_semantics.specs.Floor.{NothingThere};
ghost use Rattle.pt_semantics.specs.Meaning.{added};
ghost use Rattle.pt_semantics.specs.Wired.{IsWired};
ghost use Rattle.pt_offsets.specs.Plans.{AreOffsets};
ghost use Rattle.pt_queue.specs.Events.{waiting_in};
ghost use Rattle.pt_turn.specs.Fields.State.{state_of, IsSound};
ghost use Rattle.pt_turn.specs.Takes.Taken.{carried, Basis, Arrive, NeverTakes, Taken};

use crate::state::Fields;
use crate::take::on_time::{bound, is_on_time};
use pt_offsets::Offsets;
use pt_queue::Queue;
use pt_tags::Message;
use pt_types::{Event, Graph, Link, OnLink};

/// Lets the event of a message wait at the link's receiver; does nothing for `End`.
fn deliver(queue: &mut Queue, link: Link, message: Message)
    requires spare { 0 < queue.old.spare }
    requires actor { link.to < length queue.old.groups }
    requires absent { NothingThere (waiting_in queue.old.events) (carried link message) }
    ensures waits { waiting_in queue.new.events
        ≡ added (waiting_in queue.old.events) (carried link message) }
    ensures groups { queue.new.groups ≡ queue.old.groups }
    ensures spare { queue.old.spare ≤ queue.new.spare + 1 }
{
    match message {
        Message::End => (),
        Message::Event { tag, value } => {
            queue.insert(Event {
                tag,
                actor: link.to,
                port: 0,
                value,
            });
        }
    }
}

/// Takes messages in order, up to and including the first that is late, and returns whether one was late. Those taken are
/// appended to `kept`.
///
/// Each message must be on a link to this platform, and must keep the messages of that link orderly. No event may wait where
/// a message on time goes: this holds in every state that a history without late messages leads to.
pub fn takes(
    fields: &mut Fields,
    graph: &Graph,
    offsets: &Offsets,
    messages: &[OnLink],
    kept: &mut Vec<OnLink>,
) -> bool
    ghost basis: { Basis }
    requires sound { IsSound graph.now fields.old }
    requires wired { IsWired graph.now }
    requires offsets { AreOffsets graph.now offsets.now }
    requires arrive { Arrive graph.now basis messages.now }
    requires never { NeverTakes graph.now basis (state_of fields.old basis.taken) }
    requires events { length messages.now ≤ fields.old.queue.spare }
    requires kept { vec_len kept.old + length messages.now ≤ vec_capacity kept.old }
    ensures sound { IsSound graph.now fields.new }
    ensures took { Taken graph.now basis fields.old fields.new kept.old.items kept.new.items
        messages.now result }
    ensures events { fields.old.queue.spare ≤ fields.new.queue.spare + length messages.now }
    ensures kept { (vec_capacity kept.old ≤ vec_capacity kept.new)
        × (vec_len kept.new ≤ vec_len kept.old + length messages.now) }
    ensures groups { fields.new.queue.groups ≡ fields.old.queue.groups }
    ensures frame { (fields.new.open_claims ≡ fields.old.open_claims)
        × (fields.new.states ≡ fields.old.states) × (fields.new.sensors ≡ fields.old.sensors)
        × (fields.new.outbox ≡ fields.old.outbox) × (fields.new.reading ≡ fields.old.reading)
        × (fields.new.closed ≡ fields.old.closed) × (fields.new.claims ≡ fields.old.claims) }
{
    let links = graph.links.as_slice();
    for message in messages {
        match kept.push(*message) {
            Ok(()) => (),
            Err(_) => unreachable!(),
        }
        let link = links[message.link as usize];
        if !is_on_time(fields.reading, bound(offsets, link.to), message.message) {
            return true;
        }
        deliver(&mut fields.queue, link, message.message);
        fields.none_safe_before = 0;
    }
    false
}
