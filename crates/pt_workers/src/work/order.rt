//! Linked platforms in the order of their numbers.
ghost use Rattle.pt_pool.specs.LinkedPlatform.{plan_graph};
ghost use Rattle.std.specs.Prelude.{◌≡◌, ◌+◌, ◌^◌, length, vec_len, IfOk};
ghost use Rattle.pt_workers.specs.Working.Orders.{numbers, count_up, order_weight, AreFilled};

use crate::work::places::empty_places;
use pt_io::Clock;
use pt_pool::{LinkedPlatform, Run};
use pt_tags::Memory;
use std::alloc::Global;

/// Puts each linked platform into the place of its number. No place stays empty, since the linked platforms' powers of two add up.
fn in_places<J: Run, C: Clock>(
    alloc: Global,
    mut linked_platforms: Vec<LinkedPlatform<J, C>>,
) -> Result<Vec<Option<LinkedPlatform<J, C>>>, Memory>
    requires count { vec_len linked_platforms ≡ length (plan_graph J.plan).platforms }
    requires weight { order_weight (numbers linked_platforms.items) + 1
        ≡ 2 ^ vec_len linked_platforms }
    ensures count { IfOk result (λ places. vec_len places ≡ vec_len linked_platforms) }
    ensures filled { IfOk result (λ places. AreFilled (vec_len linked_platforms) places.items) }
{
    let mut places = empty_places(alloc, linked_platforms.len())?;
    while let Some(linked) = linked_platforms.pop() {
        let number = linked.platform().number() as usize;
        drop(places[number].replace(linked));
    }
    Ok(places)
}

/// Puts the linked platforms in the order of their numbers. Each is there, since their powers of two add up.
pub(crate) fn in_order<J: Run, C: Clock>(
    alloc: Global,
    linked_platforms: Vec<LinkedPlatform<J, C>>,
) -> Result<Vec<LinkedPlatform<J, C>>, Memory>
    requires count { vec_len linked_platforms ≡ length (plan_graph J.plan).platforms }
    requires weight { order_weight (numbers linked_platforms.items) + 1
        ≡ 2 ^ vec_len linked_platforms }
    ensures count { IfOk result (λ v. vec_len v ≡ vec_len linked_platforms) }
    ensures order { IfOk result (λ v. numbers v.items ≡ count_up (vec_len linked_platforms)) }
{
    let count = linked_platforms.len();
    let mut places = in_places(alloc, linked_platforms)?;
    let mut ordered = Vec::with_capacity(alloc, count)?;
    for k in 0..count {
        let place = &mut places[k];
        let Some(linked) = place.take() else {
            unreachable!()
        };
        ordered.push_reserved(linked);
    }
    Ok(ordered)
}
