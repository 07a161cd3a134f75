//! A visit of a platform, over the ends of its links.

ghost use Rattle.std.specs.Prelude.{◌≡◌, ◌≤◌, None, OnErr, OnOk};
ghost use Rattle.pt_turn.specs.Posts.Posted.{AreDone};
ghost use Rattle.pt_turn.specs.Platforms.{PlatformView};
ghost use Rattle.pt_pool.specs.LinkedPlatform.{BelongTogether, WasVisited};

use crate::facts::show_running;
use crate::putting::put_all;
use crate::taking::{MESSAGES_A_VISIT, take_all};
use pt_actors::{Done, Tasks};
use pt_laws::outgoing_lists_stay_orderly;
use pt_links::{Inlet, Outlet};
use pt_tags::{Memory, Reading};
use pt_turn::{Platform, Room};
use pt_types::OnLink;
use std::alloc::Global;
use std::sync::Wait;

/// Visits a platform: takes the messages that have come, makes one turn, and sends what is pending. All memory is reserved
/// before any message is taken.
pub(crate) fn visit_platform<R: Wait>(
    rt: &R,
    alloc: Global,
    platform: &mut Platform,
    outlets: &mut [(u32, Outlet)],
    inlets: &mut [(u32, Inlet)],
    reading: Reading,
    done: &[Done],
    most: usize,
    tasks: &mut Tasks,
) -> Result<(), Memory>
    requires no_fault { platform.old.fault ≡ None }
    requires fits { BelongTogether platform.old outlets.old inlets.old }
    requires most { (1 ≤ most) × (most ≤ 64) }
    requires done { AreDone platform.old.plan.graph done.now }
    ensures visited { OnOk result (WasVisited reading most done.now platform.old platform.new
        outlets.old outlets.new inlets.old inlets.new tasks.old.tasks tasks.new.tasks) }
    ensures refused { OnErr result ((platform.new
        ≡ record platform.old { room = platform.new.room }) × (outlets.new ≡ outlets.old)
        × (inlets.new ≡ inlets.old) × (tasks.new.tasks ≡ tasks.old.tasks)) }
{
    show_running(platform);
    outgoing_lists_stay_orderly();
    let Some(most_taken) = inlets.len().checked_mul(MESSAGES_A_VISIT) else {
        return Err(Memory);
    };
    let mut given: Vec<OnLink> = Vec::new(alloc);
    if given.reserve(most_taken).is_err() {
        return Err(Memory);
    }
    tasks.reserve(most)?;
    platform.room(Room {
        reading,
        done: done.len(),
        taken: most_taken,
        most,
    })?;
    take_all(rt, inlets, &mut given);
    platform.turn(reading, done, given.as_slice(), most, tasks);
    put_all(rt, platform, outlets);
    Ok(())
}
