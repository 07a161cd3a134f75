//! The events sent since the start for later tags, in the order in which they fire.

ghost use Rattle.std.specs.Prelude.{◌≡◌, ℕ, IfSome, IfNone, IsTrue, OnOk, None, length};
ghost use Rattle.pt_tags.specs.declared.tag.Tag.{Tag};
ghost use Rattle.pt_meaning.specs.Placed.{FiresFirst, HasInput, IsPlaced, NoneWaits, PutsFirstInputs, StayPlaced, TakesFirst};
ghost use Rattle.pt_meaning.specs.Waiting.{waits_in, EventsArePlaced};
ghost use Rattle.pt_meaning.specs.Front.{Enters};
ghost use Rattle.pt_meaning.specs.Held.{pending_value};
ghost use Rattle.pt_meaning.specs.Crowded.{IsCrowded};

use crate::front::take_all;
use crate::gap_buffer::GapBuffer;
use crate::later::Later;
use crate::place::{EventPlace, sooner};
use pt_tags::{Memory, Tag};
use pt_types::Ports;
use std::alloc::Global;

/// The events that wait, sent since the start. Nearly all are in the line; a map has those far from its gap, and those
/// that do not come before the map's first. If both have an event at a place, that of the line counts.
#[derive(Drop)]
pub struct Pending {
    pub line: GapBuffer,
    pub later: Later,
}

impl Pending {
    /// No events.
    pub fn new(alloc: Global) -> Pending
        ensures empty { (rank : ℕ → ℕ) → waits_in rank (pending_value result) ≡ (λ a p t. None) }
        ensures sound { (rank : ℕ → ℕ) (actors steps : ℕ) →
            EventsArePlaced rank actors steps (pending_value result) }
    {
        Pending {
            line: GapBuffer::new(alloc),
            later: Later::new(alloc),
        }
    }

    /// The place of the first event.
    #[inline(always)]
    pub fn first(&self) -> Option<EventPlace>
        ensures first { IfSome result (FiresFirst (pending_value self.now)) }
        ensures present { IfSome result (HasInput (pending_value self.now)) }
        ensures within { IfSome result (IsPlaced (pending_value self.now)) }
        ensures empty { IfNone result (NoneWaits (pending_value self.now)) }
    {
        let Some(near) = self.line.first() else {
            return self.later.first();
        };
        let Some(far) = self.later.first() else {
            return Some(near);
        };
        Some(sooner(near, far))
    }

    /// Puts an event where it belongs, unless one waits at its place. Not inlined, since most events are of the tag that runs.
    #[inline(never)]
    pub fn enter(&mut self, place: EventPlace, value: i64) -> Result<(), Memory>
        ensures { OnOk result (Enters place value (pending_value self.old)
            (pending_value self.new)) }
    {
        if self.later.is_after(place) && self.line.enter(place, value)? {
            return Ok(());
        }
        self.later.enter(place, value)
    }

    /// Whether in the line or in the map there are more events than this many firings can take.
    #[inline(always)]
    pub fn is_crowded(&self, firings: usize) -> bool
        ensures { IsTrue result → IsCrowded (pending_value self.now) firings }
    {
        self.line.is_crowded(firings) || self.later.is_crowded(firings)
    }

    /// Takes an actor's events of a tag, which must be the first, and writes their values at its inputs.
    pub fn take(&mut self, tag: Tag, actor: u32, inputs: &mut Ports)
        requires { length inputs.old ≡ 8 }
        ensures inputs { PutsFirstInputs (pending_value self.old) actor tag inputs.old inputs.new }
        ensures waits { TakesFirst actor tag (pending_value self.old) (pending_value self.new) }
        ensures sound { StayPlaced (pending_value self.old) (pending_value self.new) }
    {
        take_all(&mut self.later, tag, actor, inputs);
        take_all(&mut self.line, tag, actor, inputs);
    }
}
