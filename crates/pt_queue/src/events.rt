//! Events: which unit each waits for, and where its tag leads.

ghost use Rattle.std.specs.Prelude.{◌≡◌, ◌≤◌, not, filter};
ghost use Rattle.std.specs.List.{list_any};
ghost use Rattle.std.specs.VecDeque.{deque_len, deque_capacity};
ghost use Rattle.pt_tags.specs.Tags.{tag_lt, plus};
ghost use Rattle.pt_queue.specs.Events.{waiting_in};
ghost use Rattle.pt_queue.specs.Scans.{is_at, is_for, is_of, least_from, sooner, reaches, unit_in};

use crate::groups::{Groups, group_in};
use pt_tags::{Delay, Tag};
use pt_types::{Event, Unit};
use std::collections::VecDeque;

/// The unit that an event waits for.
pub fn unit_of(table: &[Groups], event: &Event) -> Unit
    ensures { result ≡ unit_in table.now event.now }
{
    Unit {
        actor: event.actor,
        group: group_in(table, event.actor, event.port),
    }
}

/// Whether an event waits for a unit.
fn is_of(table: &[Groups], unit: Unit, event: &Event) -> bool
    ensures { result ≡ is_of table.now unit event.now }
{
    event.actor == unit.actor && group_in(table, event.actor, event.port) == unit.group
}

/// Whether an event waits for a unit at a tag.
fn is_at(table: &[Groups], unit: Unit, tag: Tag, event: &Event) -> bool
    ensures { result ≡ is_at table.now unit tag event.now }
{
    is_of(table, unit, event) && tag == event.tag
}

/// Whether an event waits at an input of an actor.
fn is_for(actor: u32, event: &Event) -> bool
    ensures { result ≡ is_for actor event.now }
{
    event.actor == actor
}

/// Whether one of the events waits at an input of an actor. Inlined up to the test whether there are events: mostly there
/// are none.
#[inline(always)]
pub fn has_events(events: &VecDeque<Event>, actor: u32) -> bool
    ensures { result ≡ list_any (is_for actor) events.now.items }
{
    if events.is_empty() {
        return false;
    }
    is_one_for(actor, events)
}

/// As `has_events`, by a search.
#[inline(never)]
fn is_one_for(actor: u32, events: &VecDeque<Event>) -> bool
    ensures { result ≡ list_any (is_for actor) events.now.items }
{
    let (front, back) = events.as_slices();
    front.iter().chain(back).any(|event| is_for(actor, event))
}

/// Removes the events of a tag that wait for a unit, by a pass over all events.
#[inline(never)]
pub fn remove_some(events: &mut VecDeque<Event>, table: &[Groups], unit: Unit, tag: Tag)
    ensures left { events.new.items ≡ filter
        (λ e. not (is_at table.now unit tag e)) events.old.items }
    ensures len { deque_len events.new ≤ deque_len events.old }
    ensures capacity { deque_capacity events.new ≡ deque_capacity events.old }
{
    events.retain(|event| !is_at(table, unit, tag, event));
}

/// The lesser of the least tag so far and another tag.
pub fn sooner(best: Option<Tag>, tag: Tag) -> Option<Tag>
    ensures { result ≡ sooner best tag }
{
    match best {
        None => Some(tag),
        Some(least) => {
            if tag.is_before(least) {
                Some(tag)
            } else {
                Some(least)
            }
        }
    }
}

/// The least of `so_far` and the tags of the events that wait for a unit, by a pass over all events.
#[inline(never)]
pub fn least_among(
    table: &[Groups],
    events: &VecDeque<Event>,
    unit: Unit,
    so_far: Option<Tag>,
) -> Option<Tag>
    ensures { result ≡ least_from table.now unit so_far events.now.items }
{
    let mut best = so_far;
    for place in 0..events.len() {
        let event = events[place];
        if is_of(table, unit, &event) {
            best = sooner(best, event.tag);
        }
    }
    best
}

/// The value that waits at an input of an actor at a tag, by a search.
#[inline(never)]
pub fn value_at(events: &VecDeque<Event>, actor: u32, port: u32, tag: Tag) -> Option<i64>
    ensures { result ≡ waiting_in events.now.items actor port tag }
{
    for place in 0..events.len() {
        let event = events[place];
        if event.actor == actor && event.port == port && event.tag == tag {
            return Some(event.value);
        }
    }
    None
}

/// Whether a tag is before the sum of another tag and a delay. If the sum's time overflows 64 bits, each tag is before it; if
/// only its step does, each tag up to that time is.
fn is_before_sum(tag: Tag, from: Tag, delay: Delay) -> bool
    ensures { result ≡ tag_lt tag (plus from delay) }
{
    let Some(time) = from.time.checked_add(delay.time) else {
        return true;
    };
    match from.step.checked_add(delay.step) {
        None => tag.time <= time,
        Some(step) => tag.is_before(Tag { time, step }),
    }
}

/// Whether an event at `from` leads to `tag` or before, along a path of this delay (`None`: no path).
pub fn reaches(delay: Option<Delay>, from: Tag, tag: Tag) -> bool
    ensures { result ≡ reaches delay from tag }
{
    match delay {
        None => false,
        Some(delay) => !is_before_sum(tag, from, delay),
    }
}
