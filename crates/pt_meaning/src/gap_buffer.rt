//! A line of events that wait, in the order in which they fire.

ghost use Rattle.std.specs.Prelude.{◌≡◌, ◌≤◌, ◌++◌, ◌∷◌, [], List, IfOk, IsTrue, MatchBool, MatchOption, None, length};
ghost use Rattle.pt_meaning.specs.declared.place.EventPlace.{EventPlace};
ghost use Rattle.pt_meaning.specs.declared.gap_buffer.Sent.{Sent};
ghost use Rattle.pt_meaning.specs.Front.{Enters, IsLeastPlace};
ghost use Rattle.pt_meaning.specs.Line.{begins_with, in_line, AreBefore, IsSortedLine};
ghost use Rattle.pt_meaning.specs.Waiting.{place_cmp};
ghost use Rattle.pt_meaning.specs.Crowded.{IsCrowded};

use crate::front::TakeFirst;
use crate::gap::{begins_with, ends_at, ends_before, place_at_front, reach};
use crate::place::EventPlace;
use pt_tags::{Memory, Tag};
use std::alloc::Global;
use std::collections::VecDeque;
use std::marker::Model;

/// An event that waits.
#[derive(Clone, Copy, Debug, PartialEq, Eq)]
pub struct Sent {
    pub place: EventPlace,
    pub value: i64,
}

/// Events in the order of their places, no two at one. Contracts see the list of them.
///
/// The gap between the two parts is after the event that was last put between others. The next one mostly belongs there, and
/// then no other event moves.
#[derive(Drop)]
pub struct GapBuffer {
    before: VecDeque<Sent>,
    after: VecDeque<Sent>,
}

impl Model for GapBuffer {
    ghost use Rattle.std.specs.Prelude.{List, ◌++◌};
    ghost use Rattle.pt_meaning.specs.declared.gap_buffer.Sent.{Sent};
    ghost use Rattle.pt_meaning.specs.Line.{IsSortedLine};
    ghost use Rattle.pt_meaning.specs.Waiting.{place_cmp};

    ghost Value = { List Sent };

    ghost view = { λ line. line.before.items ++ line.after.items };

    ghost invariant = { λ line. IsSortedLine place_cmp (line.before.items ++ line.after.items) };
}

impl GapBuffer {
    /// No events.
    pub fn new(alloc: Global) -> GapBuffer
        ensures { result ≡ [] }
    {
        GapBuffer {
            before: VecDeque::new(alloc),
            after: VecDeque::new(alloc),
        }
    }

    /// The place of the first event.
    #[inline(always)]
    pub fn first(&self) -> Option<EventPlace>
        ensures { MatchOption result ((q : EventPlace) → in_line place_cmp self.now q ≡ None)
            (λ place. IsLeastPlace (in_line place_cmp self.now) place) }
    {
        self.head()
    }

    /// The place of the first event.
    #[inline(always)]
    fn head(&self) -> Option<EventPlace>
        ensures first { MatchOption result (self.now ≡ [])
            (λ place. (sent : Sent) × (rest : List Sent) × (self.now ≡ sent ∷ rest)
            × (place ≡ sent.place)) }
        ensures rising { IsSortedLine place_cmp self.now }
    {
        if self.before.is_empty() {
            place_at_front(&self.after)
        } else {
            place_at_front(&self.before)
        }
    }

    /// Adds an event, unless one waits at its place. Returns false, and adds nothing, if it belongs too far from the gap.
    pub fn enter(&mut self, place: EventPlace, value: i64) -> Result<bool, Memory>
        ensures { IfOk result (λ entered.
            MatchBool entered (Enters place value (in_line place_cmp self.old)
            (in_line place_cmp self.new)) (self.new ≡ self.old)) }
    {
        if self.is_past(place) {
            self.after.push_back(Sent { place, value })?;
            return Ok(true);
        }
        if !reach(&mut self.before, &mut self.after, place)? {
            return Ok(ends_at(&self.before, place));
        }
        self.before.push_back(Sent { place, value })?;
        Ok(true)
    }

    /// How many events there are.
    #[inline(always)]
    fn len(&self) -> usize
        ensures len { result ≤ length self.now }
        ensures rising { IsSortedLine place_cmp self.now }
    {
        self.before.len().saturating_add(self.after.len())
    }

    /// Whether there are more events than this many firings can take, each of which takes eight at most.
    #[inline(always)]
    pub fn is_crowded(&self, firings: usize) -> bool
        ensures { IsTrue result → IsCrowded (in_line place_cmp self.now) firings }
    {
        self.len() / 8 > firings
    }

    /// Whether there are events after the gap and a place is after all of them, as that of a new one often is.
    fn is_past(&self, place: EventPlace) -> bool
        ensures { IsTrue result → AreBefore place_cmp place self.now }
    {
        !self.after.is_empty() && ends_before(&self.after, place)
    }

    /// Whether the first event is of this tag and actor.
    #[inline(always)]
    fn is_first_of(&self, tag: Tag, actor: u32) -> bool
        ensures is { result ≡ begins_with tag actor self.now }
        ensures rising { IsSortedLine place_cmp self.now }
    {
        if self.before.is_empty() {
            begins_with(&self.after, tag, actor)
        } else {
            begins_with(&self.before, tag, actor)
        }
    }

    /// Takes the first event. Not inlined, so that the look at it stays short.
    #[inline(never)]
    fn pop(&mut self) -> Option<Sent>
        ensures { MatchOption result (self.old ≡ []) (λ sent. self.old ≡ sent ∷ self.new) }
    {
        if self.before.is_empty() {
            self.after.pop_front()
        } else {
            self.before.pop_front()
        }
    }
}

impl TakeFirst for GapBuffer {
    ghost held = { λ line. in_line place_cmp line };

    ghost count = { λ line. length line };

    fn take_first(&mut self, tag: Tag, actor: u32) -> Option<(u32, i64)> {
        if !self.is_first_of(tag, actor) {
            return None;
        }
        let sent = self.pop()?;
        Some((sent.place.port, sent.value))
    }
}
