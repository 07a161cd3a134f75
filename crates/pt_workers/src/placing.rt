//! The linked platforms of a run that is about to begin.

ghost use Rattle.std.specs.Prelude.{◌≡◌, IfOk, OnOk, Some, length, vec_len};
ghost use Rattle.pt_io.specs.Clocks.{viewed};
ghost use Rattle.pt_offsets.specs.Plans.{IsAdmitted};
ghost use Rattle.pt_turn.specs.All.{AreAll, AreNew};
ghost use Rattle.pt_workers.specs.Working.Orders.{count_up, numbers};
ghost use Rattle.pt_workers.specs.Opened.{AreBegun, AreNamedBy, AreOpenEnds};

use crate::ends::collect;
use crate::opening::{Ends, owners_of};
use pt_io::Clock;
use pt_offsets::Plan;
use pt_pool::{LinkedPlatform, Run};
use pt_tags::Memory;
use pt_turn::Platform;
use std::alloc::Global;

/// A linked platform for each platform, with its clock and the ends of its links, in the order of the platforms.
pub(crate) fn make_linked<J: Run, C: Clock>(
    alloc: Global,
    plan: &Plan,
    mut platforms: Vec<Platform>,
    mut clocks: Vec<C>,
    ends: Ends,
) -> Result<Vec<LinkedPlatform<J, C>>, Memory>
    requires plan { J.plan ≡ Some plan.now }
    requires all { AreAll plan.now J.rows platforms.items }
    requires fresh { AreNew platforms.items }
    requires clocks { length clocks.items ≡ length platforms.items }
    requires begun { AreBegun J.began J.fixed (viewed C.readings C.ahead clocks.items) }
    requires open { AreOpenEnds plan.now
        (length plan.now.graph.links) ends.outlets.items ends.inlets.items }
    requires named { AreNamedBy J.link ends.outlets.items }
    ensures admitted { OnOk result (IsAdmitted plan.now) }
    ensures count { IfOk result (λ v. vec_len v ≡ length plan.now.graph.platforms) }
    ensures order { IfOk result (λ v.
        numbers v.items ≡ count_up (length plan.now.graph.platforms)) }
{
    let sides = owners_of(alloc, plan.graph())?;
    let Ends {
        mut outlets,
        mut inlets,
    } = ends;
    let mut linked_platforms = Vec::with_capacity(alloc, platforms.len())?;
    while let Some(platform) = platforms.pop() {
        let Some(clock) = clocks.pop() else {
            unreachable!()
        };
        let number = platform.number();
        let Ok(sending) = collect(alloc, sides.senders.as_slice(), number, &mut outlets) else {
            drop(platform);
            return Err(Memory);
        };
        let Ok(taking) = collect(alloc, sides.receivers.as_slice(), number, &mut inlets) else {
            drop(platform);
            return Err(Memory);
        };
        linked_platforms.push_reserved(LinkedPlatform::new(platform, clock, sending, taking));
    }
    linked_platforms.as_mut_slice().reverse();
    Ok(linked_platforms)
}
