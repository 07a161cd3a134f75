//! Which unit last held up each unit.

use crate::least_tags::place_of;
use pt_tags::Memory;
use pt_types::Unit;
use std::alloc::Global;
use std::cell::Cell;

/// For each unit the one that last held it up, which is tried first the next time. So a unit that stays held up costs one
/// lookup a turn. For each holder also the one that took its place, which is tried next. So when a holder lets go of many
/// units, as a rule only the first of them costs a search.
///
/// This is only a hint, and no contract mentions it: each use checks that it still holds.
#[derive(Drop)]
pub struct Holders {
    /// By actor and group, eight places for each actor.
    last: Vec<Cell<Option<Unit>>>,
    /// At the same places: which unit was last found to hold up a unit that this one had held up before.
    successors: Vec<Cell<Option<Unit>>>,
    /// The unit that was last found to hold up any unit.
    latest: Cell<Option<Unit>>,
}

/// `units` places without a unit.
fn none(alloc: Global, units: usize) -> Result<Vec<Cell<Option<Unit>>>, Memory> {
    let mut places = Vec::with_capacity(alloc, units)?;
    for _ in 0..units {
        places.push(Cell::new(None))?;
    }
    Ok(places)
}

/// The unit at another one's place.
fn at(places: &[Cell<Option<Unit>>], unit: Unit) -> Option<Unit> {
    match places.get(place_of(unit)) {
        None => None,
        Some(place) => place.get(),
    }
}

/// Sets the unit at another one's place.
fn set(places: &[Cell<Option<Unit>>], unit: Unit, other: Unit) {
    if let Some(place) = places.get(place_of(unit)) {
        place.set(Some(other));
    }
}

impl Holders {
    /// An empty cache for `units` units.
    pub fn new(alloc: Global, units: usize) -> Result<Holders, Memory> {
        Ok(Holders {
            last: none(alloc, units)?,
            successors: none(alloc, units)?,
            latest: Cell::new(None),
        })
    }

    /// The unit that last held up this one.
    pub fn of(&self, unit: Unit) -> Option<Unit> {
        at(self.last.as_slice(), unit)
    }

    /// The unit that took the place of this holder.
    pub fn successor(&self, holder: Unit) -> Option<Unit> {
        at(self.successors.as_slice(), holder)
    }

    /// A unit near which to begin the search for the next holder: the one that last held up this unit, or else any unit.
    pub fn near(&self, unit: Unit) -> Option<Unit> {
        self.of(unit).or(self.latest.get())
    }

    /// Records which unit holds up this one now, and that it took the place of the one before.
    pub fn keep(&self, unit: Unit, holder: Unit) {
        if let Some(last) = self.of(unit) {
            set(self.successors.as_slice(), last, holder);
        }
        set(self.last.as_slice(), unit, holder);
        self.latest.set(Some(holder));
    }
}
