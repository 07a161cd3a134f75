//! Messages that leave a platform.

ghost use Rattle.std.specs.Prelude.{◌≡◌, ◌<◌, ◌++◌, ℕ, [], Some, length, map, slice_get};
ghost use Rattle.pt_semantics.specs.Closing.{on_link};
ghost use Rattle.pt_turn.specs.Gone.{last_sent};
ghost use Rattle.pt_links.specs.Line.{IsOrderlyBy};
ghost use Rattle.pt_links.specs.Ends.{SentBy};
ghost use Rattle.pt_pool.specs.Ends.{NumbersDiffer, end_out};
ghost use Rattle.pt_pool.specs.Lanes.{ArePut, WentOut};

use crate::taking::MESSAGES_A_VISIT;
use pt_links::Outlet;
use pt_turn::Platform;
use std::sync::Wait;

/// Sends what is pending on one link, until its outbox is empty, the link is full, or 64 messages were sent.
fn put_link<R: Wait>(rt: &R, platform: &mut Platform, link: u32, outlet: &mut Outlet)
    requires begun { 0 < length platform.old.turns }
    requires nothing_sent { on_link link (last_sent platform.old.turns) ≡ [] }
    requires orderly { IsOrderlyBy outlet.old.limits
        (outlet.old.sent ++ on_link link platform.old.outbox) }
    ensures { WentOut link platform.old platform.new outlet.old outlet.new }
{
    for _k in 0..MESSAGES_A_VISIT {
        let Some(message) = platform.outgoing(link) else {
            return;
        };
        let Ok(()) = outlet.push(rt, message) else {
            return;
        };
        platform.went(link);
    }
}

/// Sends what is pending on each link.
pub(crate) fn put_all<R: Wait>(rt: &R, platform: &mut Platform, outlets: &mut [(u32, Outlet)])
    requires begun { 0 < length platform.old.turns }
    requires nothing_sent { last_sent platform.old.turns ≡ [] }
    requires apart { NumbersDiffer (map end_out outlets.old) }
    requires orderly { (i : ℕ) (e : ℕ × SentBy) → slice_get outlets.old i ≡ Some e →
        IsOrderlyBy e.1.limits (e.1.sent ++ on_link e.0 platform.old.outbox) }
    ensures { ArePut platform.old platform.new outlets.old outlets.new }
{
    for k in 0..outlets.len() {
        let end = &mut outlets[k];
        put_link(rt, platform, end.0, &mut end.1);
    }
}
