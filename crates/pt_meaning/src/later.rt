//! The events that wait and have no place in the line.

ghost use Rattle.std.specs.Prelude.{◌≡◌, ℕ, MatchOption, OnOk, IsTrue, None};
ghost use Rattle.std.specs.BTreeMap as tree;
ghost use Rattle.pt_meaning.specs.declared.place.EventPlace.{EventPlace};
ghost use Rattle.pt_meaning.specs.Front.{Enters, IsLeastPlace, Replaces};
ghost use Rattle.pt_meaning.specs.Waiting.{place_cmp};
ghost use Rattle.pt_meaning.specs.Crowded.{IsCrowded};

use crate::front::TakeFirst;
use crate::place::{EventPlace, is_of};
use pt_tags::{Memory, Tag};
use std::alloc::Global;
use std::collections::BTreeMap;

/// Events that wait, by place.
#[derive(Drop)]
pub struct Later {
    pub events: BTreeMap<EventPlace, i64>,
}

impl Later {
    /// No events.
    pub fn new(alloc: Global) -> Later
        ensures { (q : EventPlace) → tree.get place_cmp result.events q ≡ None }
    {
        Later {
            events: BTreeMap::new(alloc),
        }
    }

    /// The place of the first event.
    pub fn first(&self) -> Option<EventPlace>
        ensures { MatchOption result ((q : EventPlace) →
            tree.get place_cmp self.now.events q ≡ None)
            (λ place. IsLeastPlace (tree.get place_cmp self.now.events) place) }
    {
        match self.events.first_key_value() {
            Some((place, _)) => Some(*place),
            None => None,
        }
    }

    /// Whether all events are after a place.
    pub fn is_after(&self, place: EventPlace) -> bool
        ensures { IsTrue result → tree.get place_cmp self.now.events place ≡ None }
    {
        match self.events.first_key_value() {
            Some((first, _)) => place < *first,
            None => true,
        }
    }

    /// Whether there are more events than this many firings can take, each of which takes eight at most.
    #[inline(always)]
    pub fn is_crowded(&self, firings: usize) -> bool
        ensures { IsTrue result → IsCrowded (tree.get place_cmp self.now.events) firings }
    {
        self.events.len() / 8 > firings
    }

    /// Adds an event, unless one waits at its place.
    pub fn enter(&mut self, place: EventPlace, value: i64) -> Result<(), Memory>
        ensures { OnOk result (Enters place value (tree.get place_cmp self.old.events)
            (tree.get place_cmp self.new.events)) }
    {
        match self.events.insert(place, value)? {
            None => Ok(()),
            Some(first) => self.put_back(place, first),
        }
    }

    /// Sets the value at a place.
    fn put_back(&mut self, place: EventPlace, value: i64) -> Result<(), Memory>
        ensures { OnOk result (Replaces place value (tree.get place_cmp self.old.events)
            (tree.get place_cmp self.new.events)) }
    {
        self.events.insert(place, value)?;
        Ok(())
    }
}

impl TakeFirst for Later {
    ghost held = { λ later. tree.get place_cmp later.events };

    ghost count = { λ later. tree.btree_map_len later.events };

    fn take_first(&mut self, tag: Tag, actor: u32) -> Option<(u32, i64)> {
        let (place, _) = self.events.first_key_value()?;
        if !is_of(tag, actor, place) {
            return None;
        }
        let (place, value) = self.events.pop_first()?;
        Some((place.port, value))
    }
}
