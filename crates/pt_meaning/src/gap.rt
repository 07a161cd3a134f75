//! The gap in a line of events, into which new ones go.

ghost use Rattle.std.specs.Prelude.{◌≡◌, ◌++◌, ◌∷◌, [], List, IfOk, IsTrue, IsSome, MatchOption};
ghost use Rattle.pt_meaning.specs.declared.gap_buffer.Sent.{Sent};
ghost use Rattle.pt_meaning.specs.Line.{begins_with, in_line, AreAfter, AreBefore, IsSortedLine};
ghost use Rattle.pt_meaning.specs.Waiting.{place_cmp};

use crate::gap_buffer::Sent;
use crate::place::{EventPlace, is_of};
use pt_tags::{Memory, Tag};
use std::collections::VecDeque;

/// How many events the gap may move over for a new one: where it would have to move further, a map is faster.
const MOVED: usize = 256;

/// The place of the first of these events.
#[inline(always)]
pub(crate) fn place_at_front(events: &VecDeque<Sent>) -> Option<EventPlace>
    ensures { MatchOption result (events.now.items ≡ [])
        (λ place. (sent : Sent) × (rest : List Sent) × (events.now.items ≡ sent ∷ rest)
        × (place ≡ sent.place)) }
{
    match events.front() {
        Some(sent) => Some(sent.place),
        None => None,
    }
}

/// Whether the first of these events is of this tag and actor.
#[inline(always)]
pub(crate) fn begins_with(events: &VecDeque<Sent>, tag: Tag, actor: u32) -> bool
    ensures { result ≡ begins_with tag actor events.now.items }
{
    match events.front() {
        Some(sent) => is_of(tag, actor, &sent.place),
        None => false,
    }
}

/// Whether all of these events, which are in order, are before a place.
#[inline(always)]
pub(crate) fn ends_before(events: &VecDeque<Sent>, place: EventPlace) -> bool
    ensures { IsTrue result → IsSortedLine place_cmp events.now.items →
        AreBefore place_cmp place events.now.items }
{
    match events.back() {
        Some(last) => last.place < place,
        None => true,
    }
}

/// Whether all of these events, which are in order, are after a place.
pub(crate) fn begins_after(events: &VecDeque<Sent>, place: EventPlace) -> bool
    ensures { IsTrue result → IsSortedLine place_cmp events.now.items →
        AreAfter place_cmp place events.now.items }
{
    match events.front() {
        Some(first) => place < first.place,
        None => true,
    }
}

/// Whether the last of these events is at a place.
pub(crate) fn ends_at(events: &VecDeque<Sent>, place: EventPlace) -> bool
    ensures { IsTrue result → IsSome (in_line place_cmp events.now.items place) }
{
    match events.back() {
        Some(last) => last.place == place,
        None => false,
    }
}

/// Whether a place is between the events of two parts of a line.
#[inline(always)]
fn fits(before: &VecDeque<Sent>, after: &VecDeque<Sent>, place: EventPlace) -> bool
    ensures { IsTrue result → IsSortedLine place_cmp (before.now.items ++ after.now.items) →
        AreBefore place_cmp place before.now.items × AreAfter place_cmp place after.now.items }
{
    ends_before(before, place) && begins_after(after, place)
}

/// Moves the gap between two parts of a line towards a place, and returns whether it is there. If it would have to move over
/// more than `MOVED` events it may stop on its way.
pub(crate) fn reach(
    before: &mut VecDeque<Sent>,
    after: &mut VecDeque<Sent>,
    place: EventPlace,
) -> Result<bool, Memory>
    ensures same { before.new.items ++ after.new.items ≡ before.old.items ++ after.old.items }
    ensures there { IfOk result (λ there. IsTrue there →
        IsSortedLine place_cmp (before.new.items ++ after.new.items) →
        AreBefore place_cmp place before.new.items × AreAfter place_cmp place after.new.items) }
{
    if fits(before, after, place) {
        return Ok(true);
    }
    move_back(before, after, place)?;
    move_on(before, after, place)?;
    Ok(fits(before, after, place))
}

/// Moves the gap back until the event before it is before a place, by at most `MOVED` events.
fn move_back(
    before: &mut VecDeque<Sent>,
    after: &mut VecDeque<Sent>,
    place: EventPlace,
) -> Result<(), Memory>
    ensures { before.new.items ++ after.new.items ≡ before.old.items ++ after.old.items }
{
    for _ in 0..MOVED {
        if ends_before(before, place) {
            return Ok(());
        }
        step_back(before, after)?;
    }
    Ok(())
}

/// Moves the gap on until the event after it is after a place, by at most `MOVED` events.
fn move_on(
    before: &mut VecDeque<Sent>,
    after: &mut VecDeque<Sent>,
    place: EventPlace,
) -> Result<(), Memory>
    ensures { before.new.items ++ after.new.items ≡ before.old.items ++ after.old.items }
{
    for _ in 0..MOVED {
        if begins_after(after, place) {
            return Ok(());
        }
        step_on(before, after)?;
    }
    Ok(())
}

/// Moves the gap back over one event, if there is one.
fn step_back(before: &mut VecDeque<Sent>, after: &mut VecDeque<Sent>) -> Result<(), Memory>
    ensures { before.new.items ++ after.new.items ≡ before.old.items ++ after.old.items }
{
    let Some(last) = before.back().copied() else {
        return Ok(());
    };
    after.push_front(last)?;
    before.pop_back();
    Ok(())
}

/// Moves the gap on over one event, if there is one.
fn step_on(before: &mut VecDeque<Sent>, after: &mut VecDeque<Sent>) -> Result<(), Memory>
    ensures { before.new.items ++ after.new.items ≡ before.old.items ++ after.old.items }
{
    let Some(first) = after.front().copied() else {
        return Ok(());
    };
    before.push_back(first)?;
    after.pop_front();
    Ok(())
}
