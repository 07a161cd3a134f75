//! The bounds, offsets and margins of all actors.

ghost use Rattle.std.specs.Prelude.{◌≡◌, IfOk, length, map};
ghost use Rattle.pt_offsets.specs.Firsts.{first_offset};
ghost use Rattle.pt_offsets.specs.Words.{AreAtMostWords};

use crate::words::least_by_word;
use pt_tags::List;
use pt_types::Unit;
use std::alloc::{AllocError, Global};

/// The bound, offsets and margin of one actor, in microseconds.
#[derive(Drop)]
pub(crate) struct Timing {
    /// The bound of a sensor or a receiver.
    pub(crate) bound: Option<u64>,
    /// The offset of each of its units, by group.
    pub(crate) offsets: List<Option<i64>>,
    /// The greatest of these offsets.
    pub(crate) offset: Option<i64>,
    /// The margin of a sender or an actuator.
    pub(crate) margin: Option<i64>,
}

/// The offset of an actor's first unit; `None` if it has none.
fn first_offset(timing: &Timing) -> Option<i64>
    ensures { result ≡ first_offset timing.now }
{
    timing.offsets.as_slice().get(0).copied().unwrap_or(None)
}

/// The offset of each actor's first unit.
fn first_offsets(alloc: Global, timings: &[Timing]) -> Result<Vec<Option<i64>>, AllocError>
    ensures { IfOk result (λ firsts. firsts.items ≡ map first_offset timings.now) }
{
    let mut firsts = Vec::new(alloc);
    for timing in timings {
        firsts.push(first_offset(timing))?;
    }
    Ok(firsts)
}

/// The bounds, offsets and margins of a graph's actors and units, in microseconds.
#[derive(Drop)]
pub struct Offsets {
    /// By actor.
    actors: Vec<Timing>,
    /// The offset of each actor's first unit, which is mostly its only one: close together, since a turn asks for many.
    firsts: Vec<Option<i64>>,
    /// The least offset of the units of each eight actors, if all of them have one.
    words: Vec<Option<i64>>,
    ghost firsts_are: { firsts.items ≡ map first_offset actors.items },
}

impl Offsets {
    ghost use Rattle.pt_offsets.specs.Timings.{offset_of, actor_offset_of, bound_in, least_offset_in, margin_in};

    /// The offsets of actors with these timings.
    pub(crate) fn new(alloc: Global, actors: Vec<Timing>) -> Result<Offsets, AllocError>
        ensures actors { IfOk result (λ offsets. offsets.actors.items ≡ actors.items) }
        ensures words { IfOk result (λ offsets.
            AreAtMostWords (length actors.items) actors.items offsets.words.items) }
    {
        let firsts = first_offsets(alloc, actors.as_slice())?;
        let words = least_by_word(alloc, actors.as_slice())?;
        Ok(Offsets {
            actors,
            firsts,
            words,
        })
    }

    /// The offset of a unit; `None` if no sensor and no receiver leads to it.
    #[tactic(auto, unfolding(crate::specs::Timings::offset_of))]
    pub fn of_unit(&self, unit: Unit) -> Option<i64>
        ensures { result ≡ offset_of self.now unit }
    {
        if unit.group == 0 {
            return self
                .firsts
                .get(unit.actor as usize)
                .copied()
                .unwrap_or(None);
        }
        let timing = self.actors.get(unit.actor as usize)?;
        let offsets = timing.offsets.as_slice();
        offsets.get(unit.group as usize).copied().unwrap_or(None)
    }

    /// The least offset of the units of the eight actors from number 8 * `word` on; `None` if one of them has no offset, and
    /// past the last actor.
    #[tactic(auto, unfolding(crate::specs::Timings::least_offset_in))]
    pub fn least_in_word(&self, word: usize) -> Option<i64>
        ensures { result ≡ least_offset_in self.now word }
    {
        self.words.get(word).copied().unwrap_or(None)
    }

    /// The greatest offset of an actor's units; `None` if none of them has an offset.
    #[tactic(auto, unfolding(crate::specs::Timings::actor_offset_of))]
    pub fn of(&self, actor: u32) -> Option<i64>
        ensures { result ≡ actor_offset_of self.now actor }
    {
        self.actors.get(actor as usize)?.offset
    }

    /// The bound of a sensor or a receiver; `None` for other kinds.
    #[tactic(auto, unfolding(crate::specs::Timings::bound_in))]
    pub fn bound(&self, actor: u32) -> Option<u64>
        ensures { result ≡ bound_in self.now actor }
    {
        self.actors.get(actor as usize)?.bound
    }

    /// The margin of a sender or an actuator: `slack - (offset + 1)`. Slack 50 and offset 20 give margin 29. `None` for
    /// other kinds, and if there is no offset.
    #[tactic(auto, unfolding(crate::specs::Timings::margin_in))]
    pub fn margin(&self, actor: u32) -> Option<i64>
        ensures { result ≡ margin_in self.now actor }
    {
        self.actors.get(actor as usize)?.margin
    }
}
