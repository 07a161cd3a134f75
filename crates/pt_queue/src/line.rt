//! The events of one input, in rising order of tag.

ghost use Rattle.std.specs.Prelude.{◌≡◌, ◌==◌, [], ◌∷◌, ◌++◌, true, length, not, filter, if◌then◌else◌};
ghost use Rattle.pt_tags.specs.Tags.{same_tag, Before};
ghost use Rattle.pt_semantics.specs.Lists.{Each};
ghost use Rattle.pt_queue.specs.Lines.{TagsRise, first, value_on};

use pt_tags::Tag;
use pt_types::Event;
use std::alloc::Global;
use std::collections::VecDeque;
use std::marker::Model;

/// What was taken from a line, and what comes next there.
#[derive(Clone, Copy)]
pub struct Taken {
    /// The value of the event that was taken; `None` if there was none.
    pub value: Option<i64>,
    /// The first of the events that are left.
    pub next: Option<Event>,
}

/// The events of one input. Contracts see them as a list.
#[derive(Drop)]
pub struct Line {
    events: VecDeque<Event>,
}

impl Model for Line {
    ghost use Rattle.std.specs.Prelude.{List};
    ghost use Rattle.pt_types.specs.declared.firing.Event.{Event};
    ghost use Rattle.pt_queue.specs.Lines.{TagsRise};

    ghost Value = { List Event };

    ghost view = { λ l. l.events.items };

    ghost invariant = { λ l. TagsRise l.events.items };
}

impl Line {
    /// An empty line.
    pub fn new(alloc: Global) -> Line
        ensures { result ≡ [] }
    {
        Line {
            events: VecDeque::new(alloc),
        }
    }

    /// The event with the least tag.
    pub fn first(&self) -> Option<Event>
        ensures first { result ≡ first self.now }
        ensures in_order { TagsRise self.now }
    {
        self.events.front().copied()
    }

    /// Whether there are no events.
    pub fn is_empty(&self) -> bool
        ensures { result ≡ (length self.now == 0) }
    {
        self.events.is_empty()
    }

    /// Appends an event, and returns whether it did. It does only if the event's tag is the greatest and there is room.
    /// Allocates nothing.
    pub fn push(&mut self, event: Event) -> bool
        ensures { self.new ≡ (if result then self.old ++ event ∷ [] else self.old) }
    {
        if self.events.len() >= self.events.capacity() {
            return false;
        }
        if !comes_last(&self.events, event.tag) {
            return false;
        }
        self.events.push_back(event).is_ok()
    }

    /// Makes room for one more event. Without memory for it, nothing changes.
    pub fn grow(&mut self)
        ensures { self.new ≡ self.old }
    {
        let _ = self.events.reserve(1);
    }

    /// Takes the event at a tag, if there is one.
    #[inline(always)]
    pub fn take(&mut self, tag: Tag) -> Taken
        ensures value { result.value ≡ value_on self.old tag }
        ensures left { self.new ≡ filter (λ e. not (same_tag tag e.tag)) self.old }
        ensures next { result.next ≡ first self.new }
        ensures in_order { TagsRise self.new }
    {
        let value = self.take_value(tag);
        Taken {
            value,
            next: self.first(),
        }
    }

    /// As `take`, and returns only the value.
    #[inline(always)]
    fn take_value(&mut self, tag: Tag) -> Option<i64>
        ensures value { result ≡ value_on self.old tag }
        ensures left { self.new ≡ filter (λ e. not (same_tag tag e.tag)) self.old }
    {
        let event = self.first()?;
        if event.tag == tag {
            self.events.pop_front();
            return Some(event.value);
        }
        if tag.is_before(event.tag) {
            return None;
        }
        take_behind(&mut self.events, tag)
    }
}

/// Takes the event at a tag, if there is one, and returns its value, by a search. Mostly the first event is taken instead.
#[inline(never)]
fn take_behind(events: &mut VecDeque<Event>, tag: Tag) -> Option<i64>
    ensures value { result ≡ value_on events.old.items tag }
    ensures left { events.new.items ≡ filter (λ e. not (same_tag tag e.tag)) events.old.items }
{
    let value = value_among(events, tag);
    events.retain(|event| tag != event.tag);
    value
}

/// The value at a tag, by a search from the front.
fn value_among(events: &VecDeque<Event>, tag: Tag) -> Option<i64>
    ensures { result ≡ value_on events.now.items tag }
{
    for place in 0..events.len() {
        let event = events[place];
        if event.tag == tag {
            return Some(event.value);
        }
    }
    None
}

/// Whether a tag is greater than those of all events: `true` without events.
fn comes_last(events: &VecDeque<Event>, tag: Tag) -> bool
    requires { TagsRise events.now.items }
    ensures { result ≡ true → Each (λ e. Before e.tag tag) events.now.items }
{
    match events.back() {
        None => true,
        Some(last) => last.tag.is_before(tag),
    }
}
