//! The end messages of the outgoing links.

ghost use Rattle.std.specs.Prelude.{◌≡◌, ℕ, ◌+◌, ◌<◌, ◌≤◌, ◌^◌, ◌++◌, length, slice_get};
ghost use Rattle.pt_semantics.specs.Closing.{on_link, end_for};
ghost use Rattle.pt_types.specs.Lookups.{platform_of};
ghost use Rattle.pt_turn.specs.Closes.Ends.{ended_on};

use crate::state::Outbox;
use pt_tags::Message;
use pt_types::Graph;

/// Puts `End` into the outbox for a link, if it leads from this platform.
fn end_on(outbox: &mut Outbox, link: u32, from: u32, number: u32)
    requires link { link < outbox.old.links }
    requires room { 0 < outbox.old.spare }
    ensures ends { (l : ℕ) → on_link l outbox.new.items
        ≡ on_link l outbox.old.items ++ ended_on l link from number }
    ensures links { outbox.new.links ≡ outbox.old.links }
    ensures spare { outbox.old.spare ≤ outbox.new.spare + 1 }
    ensures len { length outbox.new.items ≤ length outbox.old.items + 1 }
{
    if from != number {
        return;
    }
    outbox.push_reserved(link, Message::End);
}

/// Puts `End` into the outbox for each link that leads from a platform. Allocates nothing.
pub fn shut_links(outbox: &mut Outbox, graph: &Graph, number: u32)
    requires links { length graph.now.links < 2 ^ 32 }
    requires outbox { outbox.old.links ≡ length graph.now.links }
    requires room { length graph.now.links ≤ outbox.old.spare }
    ensures ends { (l : ℕ) → on_link l outbox.new.items
        ≡ on_link l outbox.old.items ++ end_for graph.now number (slice_get graph.now.links l) }
    ensures links { outbox.new.links ≡ outbox.old.links }
    ensures spare { outbox.old.spare ≤ outbox.new.spare + length graph.now.links }
    ensures len { length outbox.new.items ≤ length outbox.old.items + length graph.now.links }
{
    let links = graph.links.as_slice();
    for l in 0..links.len() {
        end_on(outbox, l as u32, graph.platform_of(links[l].from), number);
    }
}
