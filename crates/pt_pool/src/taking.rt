//! Messages that have come on the links of a platform.

ghost use Rattle.std.specs.Prelude.{◌≡◌, ◌+◌, ◌*◌, ◌≤◌, ◌++◌, ℕ, List, [], length, map, vec_len, vec_capacity};
ghost use Rattle.pt_tags.specs.declared.message.Message.{Message as Sent};
ghost use Rattle.pt_visits.specs.Pipes.{put_on};
ghost use Rattle.pt_pool.specs.Ends.{NumbersDiffer, end_in};
ghost use Rattle.pt_pool.specs.Lanes.{AreTaken, Took};

use pt_links::Inlet;
use pt_types::OnLink;
use std::sync::Wait;

/// The most messages of a link that are taken or sent in one visit.
pub const MESSAGES_A_VISIT: usize = 64;

/// Takes the messages of one link, until it is found empty or 64 were taken.
fn take_link<R: Wait>(rt: &R, link: u32, inlet: &mut Inlet, given: &mut Vec<OnLink>)
    requires room { vec_len given.old + 64 ≤ vec_capacity given.old }
    ensures room { (vec_len given.new ≤ vec_len given.old + 64)
        × (vec_capacity given.new ≡ vec_capacity given.old) }
    ensures took { (ms : List Sent) × Took link inlet.old inlet.new ms
        × (given.new.items ≡ given.old.items ++ map (put_on link) ms) }
{
    for _k in 0..MESSAGES_A_VISIT {
        let Some(message) = inlet.take(rt) else {
            break;
        };
        given.push_reserved(OnLink { link, message });
    }
}

/// Takes the messages of each link, link by link.
pub(crate) fn take_all<R: Wait>(rt: &R, inlets: &mut [(u32, Inlet)], given: &mut Vec<OnLink>)
    requires empty { given.old.items ≡ [] }
    requires room { 64 * length inlets.old ≤ vec_capacity given.old }
    requires apart { NumbersDiffer (map end_in inlets.old) }
    ensures room { vec_len given.new ≤ 64 * length inlets.old }
    ensures taken { AreTaken inlets.old inlets.new given.new.items }
{
    for k in 0..inlets.len() {
        let end = &mut inlets[k];
        take_link(rt, end.0, &mut end.1, given);
    }
}
