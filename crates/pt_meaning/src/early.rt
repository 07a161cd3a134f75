//! The events known at the start, in the order in which they fire.

ghost use Rattle.std.specs.Prelude.{◌≡◌, ◌<◌, ℕ, IfOk, IfSome, IfNone, MatchOption, OnOk, Some, [], ◌∷◌, List};
ghost use Rattle.std.specs.List.Sorted.{IsPermutation, IsSortedByKey, IsStableByKey};
ghost use Rattle.pt_types.specs.Ports.{eight, only};
ghost use Rattle.pt_semantics.specs.Lists.{or_else};
ghost use Rattle.pt_meaning.specs.declared.early.Early.{Early};
ghost use Rattle.pt_semantics.specs.Meaning.{IsFirst, waiting, without};
ghost use Rattle.pt_meaning.specs.Early.{event_moment, event_moment_cmp, early_waits, is_event_at, left, place_of_early, AreEarly, Heads, IsFiringOrder, NotAtHead};

use crate::place::EventPlace;
use pt_tags::{Memory, Tag, Time};

/// When a starting event fires: moments are ordered by time, rank and actor, as the events fire.
#[derive(Clone, Copy, Debug, PartialEq, Eq, PartialOrd, Ord)]
pub struct EarlyMoment {
    pub time: Time,
    pub rank: u32,
    pub actor: u32,
}

/// A starting event, at input 0 of an actor at step 0 of a time (in microseconds).
#[derive(Clone, Copy, Debug, PartialEq, Eq)]
pub struct Early {
    pub moment: EarlyMoment,
    pub value: i64,
}

/// The starting events in the order in which they fire; those before index `next` are taken.
#[derive(Drop)]
pub struct EarlyList {
    pub events: Vec<Early>,
    pub next: usize,
}

/// Sorts events into the order in which they fire; those of one moment keep their order.
fn sort(events: &mut Vec<Early>) -> Result<(), Memory>
    ensures sorted { OnOk result (IsSortedByKey event_moment event_moment_cmp events.new.items) }
    ensures stable { OnOk result (IsStableByKey event_moment event_moment_cmp events.old.items
        events.new.items) }
    ensures permutation { IsPermutation events.old.items events.new.items }
{
    events.sort_by_key(|event| event.moment)?;
    Ok(())
}

impl EarlyList {
    /// Sorts these events. If several are of one moment, the first counts.
    pub fn new(events: Vec<Early>) -> Result<EarlyList, Memory>
        ensures waits { IfOk result (λ list. (rank : ℕ → ℕ) (actors : ℕ) →
            AreEarly rank actors events.items →
            early_waits (left list) ≡ early_waits events.items) }
        ensures orderly { IfOk result (λ list. (rank : ℕ → ℕ) (actors : ℕ) →
            AreEarly rank actors events.items → IsFiringOrder rank actors (left list)) }
    {
        let mut events = events;
        sort(&mut events)?;
        Ok(EarlyList { events, next: 0 })
    }

    /// The first event not taken yet.
    fn head(&self) -> Option<Early>
        ensures { MatchOption result (left self.now ≡ [])
            (λ event. (rest : List Early) × (left self.now ≡ event ∷ rest)) }
    {
        if self.next < self.events.len() {
            Some(self.events[self.next])
        } else {
            None
        }
    }

    /// The place of the first event not taken yet.
    pub fn first(&self) -> Option<EventPlace>
        ensures { MatchOption result (left self.now ≡ [])
            (λ place. (event : Early) × (rest : List Early) × (left self.now ≡ event ∷ rest)
            × (place ≡ place_of_early event)) }
    {
        let event = self.head()?;
        Some(EventPlace {
            tag: Tag {
                time: event.moment.time,
                step: 0,
            },
            rank: event.moment.rank,
            actor: event.moment.actor,
            port: 0,
        })
    }

    /// Takes the first event if it is of this tag and actor, and returns its value.
    fn take_first(&mut self, tag: Tag, actor: u32) -> Option<i64>
        ensures some { IfSome result (λ value.
            Heads tag actor value (left self.old) (left self.new)) }
        ensures none { IfNone result (NotAtHead tag actor (left self.old)
            × (left self.new ≡ left self.old)) }
    {
        let event = self.head()?;
        if !is_at(tag, actor, &event) {
            return None;
        }
        self.next += 1;
        Some(event.value)
    }

    /// Takes an actor's events of a tag, which must be the first, and returns the value at its input 0.
    pub fn take(&mut self, tag: Tag, actor: u32) -> Option<i64>
        ensures inputs { (rank : ℕ → ℕ) (actors : ℕ) → IsFiringOrder rank actors (left self.old) →
            IsFirst rank (early_waits (left self.old)) actor tag →
            eight (only 0 result) ≡ waiting (early_waits (left self.old)) actor tag }
        ensures waits { (rank : ℕ → ℕ) (actors : ℕ) → IsFiringOrder rank actors (left self.old) →
            IsFirst rank (early_waits (left self.old)) actor tag →
            early_waits (left self.new) ≡ without (early_waits (left self.old)) actor tag }
        ensures orderly { (rank : ℕ → ℕ) (actors : ℕ) → IsFiringOrder rank actors (left self.old) →
            IsFiringOrder rank actors (left self.new) }
    {
        let mut first = None;
        while let Some(value) = self.take_first(tag, actor) {
            first = kept(first, value);
        }
        first
    }
}

/// `first` if it is a value, else `value`.
fn kept(first: Option<i64>, value: i64) -> Option<i64>
    ensures { result ≡ or_else first (Some value) }
{
    match first {
        Some(_) => first,
        None => Some(value),
    }
}

/// Whether an event is of this tag and actor.
fn is_at(tag: Tag, actor: u32, event: &Early) -> bool
    ensures { result ≡ is_event_at tag actor event.now }
{
    event.moment.actor == actor && event.moment.time == tag.time && tag.step == 0
}
