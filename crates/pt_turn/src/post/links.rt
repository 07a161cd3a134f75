//! The messages that a firing sends along links.

ghost use Rattle.std.specs.Prelude.{◌≡◌, ℕ, ◌+◌, ◌<◌, ◌≤◌, ◌^◌, ◌++◌, length, slice_get};
ghost use Rattle.pt_types.specs.Ends.{is_send};
ghost use Rattle.pt_semantics.specs.Closing.{on_link};
ghost use Rattle.pt_semantics.specs.Posting.{message_from};
ghost use Rattle.pt_semantics.specs.Wired.{IsWired};
ghost use Rattle.pt_turn.specs.Posts.Sent.{sent_on};

use crate::state::Outbox;
use pt_tags::{Message, Tag};
use pt_types::{Graph, Kind, Link, Ports};

/// Puts an actor's output 0, if it has a value, into the outbox, if the link leaves that actor.
fn send_on(outbox: &mut Outbox, number: u32, link: Link, actor: u32, tag: Tag, output: Option<i64>)
    requires number { number < outbox.old.links }
    requires room { 0 < outbox.old.spare }
    ensures sent { (l : ℕ) → on_link l outbox.new.items
        ≡ on_link l outbox.old.items ++ sent_on l number link actor tag output }
    ensures links { outbox.new.links ≡ outbox.old.links }
    ensures spare { outbox.old.spare ≤ outbox.new.spare + 1 }
    ensures len { length outbox.new.items ≤ length outbox.old.items + 1 }
{
    if link.from != actor {
        return;
    }
    match output {
        None => (),
        Some(value) => {
            outbox.push_reserved(number, Message::Event { tag, value });
        }
    }
}

/// Whether actors of this kind are senders.
#[inline(always)]
fn is_send(kind: &Kind) -> bool
    ensures { result ≡ is_send kind.now }
{
    match kind {
        Kind::Send { .. } => true,
        _ => false,
    }
}

/// Puts the output of a sender's firing at a tag into the outbox, for its link. Does nothing for other actors, which are most.
#[inline(always)]
pub fn send(outbox: &mut Outbox, graph: &Graph, actor: u32, tag: Tag, outputs: &Ports)
    requires wired { IsWired graph.now }
    requires actor { actor < length graph.now.actors }
    requires links { length graph.now.links < 2 ^ 32 }
    requires outbox { outbox.old.links ≡ length graph.now.links }
    requires room { length graph.now.links ≤ outbox.old.spare }
    ensures sent { (l : ℕ) → on_link l outbox.new.items
        ≡ on_link l outbox.old.items ++ message_from
        (slice_get graph.now.links l) actor tag outputs.now }
    ensures links { outbox.new.links ≡ outbox.old.links }
    ensures spare { outbox.old.spare ≤ outbox.new.spare + length graph.now.links }
    ensures len { length outbox.new.items ≤ length outbox.old.items + length graph.now.links }
{
    if !is_send(&graph.actors.as_slice()[actor as usize].kind) {
        return;
    }
    send_on_links(outbox, graph, actor, tag, outputs);
}

/// Puts an actor's output at a tag into the outbox, for each link that leaves it. Not inlined, so that the caller stays short.
#[inline(never)]
fn send_on_links(outbox: &mut Outbox, graph: &Graph, actor: u32, tag: Tag, outputs: &Ports)
    requires links { length graph.now.links < 2 ^ 32 }
    requires outbox { outbox.old.links ≡ length graph.now.links }
    requires room { length graph.now.links ≤ outbox.old.spare }
    ensures sent { (l : ℕ) → on_link l outbox.new.items
        ≡ on_link l outbox.old.items ++ message_from
        (slice_get graph.now.links l) actor tag outputs.now }
    ensures links { outbox.new.links ≡ outbox.old.links }
    ensures spare { outbox.old.spare ≤ outbox.new.spare + length graph.now.links }
    ensures len { length outbox.new.items ≤ length outbox.old.items + length graph.now.links }
{
    let links = graph.links.as_slice();
    for l in 0..links.len() {
        send_on(outbox, l as u32, links[l], actor, tag, outputs.get(0));
    }
}
