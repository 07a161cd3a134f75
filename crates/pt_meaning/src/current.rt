//! The events of the tag that runs.

ghost use Rattle.std.specs.Prelude.{◌≡◌, ◌==◌, ◌&&◌, ℕ, nat_lt, IfOk, IfSome, IfNone, MatchBool, MatchOption, None, true, length};
ghost use Rattle.pt_tags.specs.declared.tag.Tag.{Tag};
ghost use Rattle.pt_semantics.specs.Meaning.{without};
ghost use Rattle.pt_meaning.specs.declared.place.EventPlace.{EventPlace};
ghost use Rattle.pt_meaning.specs.Current.{current_value, is_standing_of, standing_at, IsPositionOf};
ghost use Rattle.pt_meaning.specs.ComesFirst.{ComesFirst};
ghost use Rattle.pt_meaning.specs.Front.{Enters};
ghost use Rattle.pt_meaning.specs.Placed.{FiresFirst, GivesInputs, HasInput, IsPlaced, NoneWaits, StayPlaced, Takes};
ghost use Rattle.pt_meaning.specs.Waiting.{place_of};

use crate::moments::number;
use crate::order::{Standing, firing_order, position_of, positions_in};
use crate::place::EventPlace;
use crate::ready::ReadyInputs;
use pt_tags::{Memory, Tag};
use pt_types::Ports;
use std::alloc::Global;
use std::marker::Model;

/// Events of one tag, by the position of their actor in the order in which actors fire. Contracts see these lists; `current_value` is the value
/// at each place.
///
/// An event of the tag that runs, sent without delay, mostly has its place here: it moves no other.
#[derive(Drop)]
pub struct Current {
    tag: Tag,
    order: Vec<Standing>,
    positions: Vec<u32>,
    inputs: ReadyInputs,
}

impl Model for Current {
    ghost use Rattle.pt_meaning.specs.Current.{IsCurrent, Slate};

    ghost Value = { Slate };

    ghost view = { λ c. record {
      tag = c.tag;
      order = c.order.items;
      positions = c.positions.items;
      inputs = c.inputs;
    } };

    ghost invariant = { λ c. IsCurrent c.order.items c.positions.items c.inputs };
}

impl Current {
    /// No events, of actors with these ranks.
    pub fn new(alloc: Global, ranks: &[u32]) -> Result<Current, Memory>
        ensures { IfOk result (λ current. (q : EventPlace) → current_value current q ≡ None) }
    {
        let order = firing_order(alloc, ranks)?;
        let positions = positions_in(alloc, order.as_slice())?;
        let inputs = ReadyInputs::new(alloc, number(order.len())?)?;
        Ok(Current {
            tag: Tag { time: 0, step: 0 },
            order,
            positions,
            inputs,
        })
    }

    /// The place of the first actor with events, at its input 0.
    #[inline(always)]
    fn leader(&self) -> Option<EventPlace>
        ensures { MatchOption result ((q : EventPlace) → current_value self.now q ≡ None)
            (ComesFirst (current_value self.now)) }
    {
        let position = self.inputs.first()?;
        let standing = self.order[position];
        Some(EventPlace {
            tag: self.tag,
            rank: standing.rank,
            actor: standing.actor,
            port: 0,
        })
    }

    /// The place of the first actor with events, at its input 0.
    #[inline(always)]
    pub fn first(&self) -> Option<EventPlace>
        ensures first { IfSome result (FiresFirst (current_value self.now)) }
        ensures present { IfSome result (HasInput (current_value self.now)) }
        ensures within { IfSome result (IsPlaced (current_value self.now)) }
        ensures empty { IfNone result (NoneWaits (current_value self.now)) }
    {
        self.leader()
    }

    /// Adds an event, unless one waits at its place. Returns false, and adds nothing, if it is of another tag or its actor has
    /// no position.
    #[inline(always)]
    pub fn enter(&mut self, place: EventPlace, value: i64) -> bool
        ensures { MatchBool result (Enters place value (current_value self.old)
            (current_value self.new)) ((current_value self.old place ≡ None)
            × (self.new ≡ self.old)) }
    {
        let position = position_of(self.positions.as_slice(), place.actor, self.order.len());
        if place.tag != self.tag || !stands_at(self.order.as_slice(), position, place) {
            return false;
        }
        if self.inputs.get(position, place.port).is_some() {
            return true;
        }
        if place.port >= 8 {
            return false;
        }
        self.inputs.put(position, place.port, value);
        true
    }

    /// The position of an actor whose events may be here; `None` if this tag doesn't run or the actor has no position.
    #[inline(always)]
    fn position(&self, tag: Tag, actor: u32) -> Option<usize>
        ensures { MatchOption result ((rank : ℕ → ℕ) (p : ℕ) →
            current_value self.now (place_of rank actor p tag) ≡ None)
            (IsPositionOf self.now tag actor) }
    {
        let position = position_of(self.positions.as_slice(), actor, self.order.len());
        if tag == self.tag && is_of_actor(self.order.as_slice(), position, actor) {
            Some(position)
        } else {
            None
        }
    }

    /// Takes an actor's events of a tag, and writes their values over `inputs`.
    #[inline(always)]
    pub fn take(&mut self, tag: Tag, actor: u32, inputs: &mut Ports)
        ensures inputs { GivesInputs (current_value self.old) actor tag inputs.new }
        ensures waits { Takes actor tag (current_value self.old) (current_value self.new) }
        ensures sound { StayPlaced (current_value self.old) (current_value self.new) }
        ensures len { length inputs.new ≡ 8 }
    {
        let Some(position) = self.position(tag, actor) else {
            *inputs = Ports::new();
            return;
        };
        self.inputs.take(position, inputs);
    }

    /// Lets a tag run, unless there are events of another one.
    pub fn begin(&mut self, tag: Tag)
        ensures { (q : EventPlace) → current_value self.new q ≡ current_value self.old q }
    {
        if tag == self.tag || self.inputs.first().is_some() {
            return;
        }
        self.tag = tag;
    }
}

/// Whether the actor at a position is that of a place.
#[inline(always)]
fn stands_at(order: &[Standing], position: usize, place: EventPlace) -> bool
    ensures { result ≡ (nat_lt position (length order.now) && is_standing_of place
        (standing_at order.now position)) }
{
    position < order.len()
        && order[position].rank == place.rank
        && order[position].actor == place.actor
}

/// Whether the actor at a position is this one.
#[inline(always)]
fn is_of_actor(order: &[Standing], position: usize, actor: u32) -> bool
    ensures { result ≡ (nat_lt position (length order.now) &&
        (standing_at order.now position).actor == actor) }
{
    position < order.len() && order[position].actor == actor
}
