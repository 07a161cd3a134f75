//! The events sent since the start.

ghost use Rattle.std.specs.Prelude.{◌≡◌, ℕ, IfOk, IfSome, IfNone, IsTrue, OnOk, None};
ghost use Rattle.pt_tags.specs.declared.tag.Tag.{Tag};
ghost use Rattle.pt_semantics.specs.Meaning.{added};
ghost use Rattle.pt_meaning.specs.Placed.{FiresFirst, GivesFirstInputs, HasInput, IsPlaced, NoneWaits, StayPlaced, TakesFirst};
ghost use Rattle.pt_meaning.specs.Waiting.{waits_in, value_at, IsPlaceIn, EventsArePlaced};
ghost use Rattle.pt_meaning.specs.Front.{Enters};
ghost use Rattle.pt_meaning.specs.Held.{late_value};
ghost use Rattle.pt_meaning.specs.Crowded.{IsCrowded};

use crate::current::Current;
use crate::pending::Pending;
use crate::place::{EventPlace, sooner};
use pt_tags::{Memory, Tag};
use pt_types::Ports;
use std::alloc::Global;

/// The events that wait, sent since the start: those of the tag that runs are in `current`, mostly all of them. If both have an
/// event at a place, that of `pending` counts.
#[derive(Drop)]
pub struct Late {
    pub pending: Pending,
    pub current: Current,
}

impl Late {
    /// No events, of actors with these ranks.
    pub fn new(alloc: Global, ranks: &[u32]) -> Result<Late, Memory>
        ensures empty { IfOk result (λ late. (rank : ℕ → ℕ) →
            waits_in rank (late_value late) ≡ (λ a p t. None)) }
        ensures sound { IfOk result (λ late. (rank : ℕ → ℕ) (actors steps : ℕ) →
            EventsArePlaced rank actors steps (late_value late)) }
    {
        let current = Current::new(alloc, ranks)?;
        let pending = Pending::new(alloc);
        Ok(Late { pending, current })
    }

    /// The place of the first event, or another one of its actor and tag.
    #[inline(always)]
    pub fn first(&self) -> Option<EventPlace>
        ensures first { IfSome result (FiresFirst (late_value self.now)) }
        ensures present { IfSome result (HasInput (late_value self.now)) }
        ensures within { IfSome result (IsPlaced (late_value self.now)) }
        ensures empty { IfNone result (NoneWaits (late_value self.now)) }
    {
        let Some(pending) = self.pending.first() else {
            return self.current.first();
        };
        let Some(current) = self.current.first() else {
            return Some(pending);
        };
        Some(sooner(pending, current))
    }

    /// Adds an event, unless one waits at its place.
    pub fn add(&mut self, place: EventPlace, value: i64) -> Result<(), Memory>
        ensures waits { OnOk result ((rank : ℕ → ℕ) → place.rank ≡ rank place.actor →
            waits_in rank (late_value self.new)
            ≡ added (waits_in rank (late_value self.old)) (value_at place value)) }
        ensures sound { OnOk result ((rank : ℕ → ℕ) (actors steps : ℕ) →
            IsPlaceIn rank actors steps place →
            EventsArePlaced rank actors steps (late_value self.old) →
            EventsArePlaced rank actors steps (late_value self.new)) }
    {
        self.put(place, value)
    }

    /// Puts an event where it belongs, unless one waits at its place.
    fn put(&mut self, place: EventPlace, value: i64) -> Result<(), Memory>
        ensures { OnOk result (Enters place value (late_value self.old) (late_value self.new)) }
    {
        if self.current.enter(place, value) {
            return Ok(());
        }
        self.pending.enter(place, value)
    }

    /// Whether more events wait for later tags than this many firings can take.
    #[inline(always)]
    pub fn is_crowded(&self, firings: usize) -> bool
        ensures { IsTrue result → IsCrowded (late_value self.now) firings }
    {
        self.pending.is_crowded(firings)
    }

    /// Takes an actor's events of a tag, which must be the first, and writes their values at its inputs. The tag runs then.
    pub fn take(&mut self, tag: Tag, actor: u32, inputs: &mut Ports)
        ensures inputs { GivesFirstInputs (late_value self.old) actor tag inputs.new }
        ensures waits { TakesFirst actor tag (late_value self.old) (late_value self.new) }
        ensures sound { StayPlaced (late_value self.old) (late_value self.new) }
    {
        self.current.take(tag, actor, inputs);
        self.pending.take(tag, actor, inputs);
        self.current.begin(tag);
    }
}
