//! Which of many units are asked first.

ghost use Rattle.pt_turn.specs.Fields.State.{IsSound};

use crate::claim::early::{is_passed_over, next_word};
use crate::claim::order::is_before;
use crate::claim::safe::is_due;
use crate::state::Fields;
use arrayvec::ArrayVec;
use pt_offsets::Plan;
use pt_queue::{Waiting, place_of};
use pt_tags::Reading;

/// For up to this many claims few units are asked first. A turn that may claim more asks all units at once.
const MOST: usize = 16;

/// Whether all of these units come before another one, and they are at least `few`.
fn are_enough_before(firsts: &[Waiting], few: usize, next: Waiting) -> bool {
    if firsts.len() < few {
        return false;
    }
    match firsts.last() {
        None => true,
        Some(last) => is_before(*last, next),
    }
}

/// Puts a unit at its place among these, which are in order, and returns the one that comes behind all others.
fn put_at_place(firsts: &mut [Waiting], next: Waiting) -> Waiting {
    let mut next = next;
    for place in 0..firsts.len() {
        let other = firsts[place];
        if is_before(next, other) {
            firsts[place] = next;
            next = other;
        }
    }
    next
}

/// Adds a unit to the first `few` in order, if it is one of them.
fn add(firsts: &mut ArrayVec<Waiting, 16>, few: usize, next: Waiting) {
    if are_enough_before(firsts.as_slice(), few, next) {
        return;
    }
    let behind = put_at_place(firsts.as_mut_slice(), next);
    if firsts.len() < few && !firsts.is_full() {
        firsts.push(behind);
    }
}

/// The last of the first `few` units that are due at a reading (in microseconds); `None` if they are fewer, if few units have events, or
/// if `few` is large. To ask a unit takes far longer than to compare its tag.
///
/// Nothing is proved of it: it only says which units are asked first.
pub fn cut_behind(fields: &Fields, plan: &Plan, reading: Reading, few: usize) -> Option<Waiting>
    requires sound { IsSound plan.now.graph fields.now }
{
    if few > MOST || !fields.queue.are_many() {
        return None;
    }
    let mut firsts: ArrayVec<Waiting, 16> = ArrayVec::new();
    let mut from = 0usize;
    while let Some(waiting) = fields.queue.first_waiting(from) {
        let place = place_of(waiting.unit);
        if is_passed_over(fields, plan, reading, from, place) {
            from = next_word(place);
            continue;
        }
        if is_due(plan, reading, waiting.unit, waiting.tag) {
            add(&mut firsts, few, waiting);
        }
        from = place + 1;
    }
    if firsts.len() < few {
        return None;
    }
    firsts.as_slice().last().copied()
}
