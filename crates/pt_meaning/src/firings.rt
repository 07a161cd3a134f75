//! A compact list of firings.

ghost use Rattle.std.specs.Prelude.{◌≡◌, ◌++◌, ◌∷◌, [], IfOk, length, option_map, slice_get};
ghost use Rattle.pt_meaning.specs.Marks.{values_start_at};

use crate::cells::{cells_between, firing_from, push_firing};
use crate::moments::{moment_of, number, tag_at};
use pt_tags::{Memory, Tag};
use pt_types::ActorFiring;
use std::alloc::Global;
use std::marker::Model;

/// The actor of a firing, the index of its tag, and where its values end; they begin where those of the firing before end.
#[derive(Clone, Copy, Debug, PartialEq, Eq)]
pub struct FiringEntry {
    pub actor: u32,
    pub moment: u32,
    pub end: u32,
}

/// A compact list of firings, which contracts see as a list of whole firings.
#[derive(Drop)]
pub struct Firings {
    marks: Vec<FiringEntry>,
    tags: Vec<Tag>,
    places: Vec<u8>,
    values: Vec<i64>,
}

impl Model for Firings {
    ghost use Rattle.std.specs.Prelude.{List};
    ghost use Rattle.pt_types.specs.declared.firing.ActorFiring.{ActorFiring};
    ghost use Rattle.pt_meaning.specs.Marks.{firings_from, MarksFit};

    ghost Value = { List ActorFiring };

    ghost view = { λ f. firings_from f.tags.items f.places.items f.values.items 0 f.marks.items };

    ghost invariant = { λ f. MarksFit f.tags.items f.places.items f.values.items f.marks.items };
}

impl Firings {
    /// An empty list.
    pub fn new(alloc: Global) -> Firings
        ensures { result ≡ [] }
    {
        Firings {
            marks: Vec::new(alloc),
            tags: Vec::new(alloc),
            places: Vec::new(alloc),
            values: Vec::new(alloc),
        }
    }

    /// The number of firings.
    pub fn len(&self) -> usize
        ensures { result ≡ length self.now }
    {
        self.marks.len()
    }

    /// The list with one more firing at the end.
    pub fn with(self, firing: &ActorFiring) -> Result<Firings, Memory>
        ensures { IfOk result (λ more. more ≡ self ++ firing.now ∷ []) }
    {
        let Firings {
            mut marks,
            mut tags,
            mut places,
            mut values,
        } = self;
        let moment = moment_of(&mut tags, firing.tag)?;
        push_firing(&mut places, &mut values, firing)?;
        let end = number(places.len())?;
        let mark = FiringEntry {
            actor: firing.actor,
            moment,
            end,
        };
        marks.push(mark)?;
        Ok(Firings {
            marks,
            tags,
            places,
            values,
        })
    }

    /// The actor of firing `number`, from 0; `None` if there is no such firing.
    pub fn actor(&self, number: usize) -> Option<u32>
        ensures { result ≡ option_map (λ x. x.actor) (slice_get self.now number) }
    {
        if number < self.marks.len() {
            Some(self.marks[number].actor)
        } else {
            None
        }
    }

    /// Firing `number`, from 0; `None` if there is no such firing.
    pub fn get(&self, number: usize) -> Option<ActorFiring>
        ensures { result ≡ slice_get self.now number }
    {
        if number >= self.marks.len() {
            return None;
        }
        let mark = self.marks[number];
        let start = start_at(self.marks.as_slice(), number);
        let tag = tag_at(self.tags.as_slice(), mark.moment);
        let cells = cells_between(
            self.places.as_slice(),
            self.values.as_slice(),
            start,
            mark.end,
        );
        Some(firing_from(mark.actor, tag, &cells))
    }
}

/// The index at which the values of a firing begin.
fn start_at(marks: &[FiringEntry], number: usize) -> u32
    ensures { result ≡ values_start_at 0 marks.now number }
{
    if number == 0 {
        return 0;
    }
    let before = number - 1;
    if before < marks.len() {
        marks[before].end
    } else {
        0
    }
}
