//! Where lists start that are stored one after another.

ghost use Rattle.std.specs.Prelude.{◌≡◌, ℕ, ◌/◌, ◌+◌, ◌<◌, ◌≤◌, ◌++◌, [], IsOk, OnErr, OnOk, Some, length, max, replicate, slice_get, true};
ghost use Rattle.pt_history.specs.Levels.{IsLevel};

use crate::indices::Indices;
use crate::levels::Levels;
use crate::numbers::{number_at, push_number};
use crate::pieces::{MOST_ITEMS, widened};
use pt_tags::Memory;
use std::alloc::Global;
use std::marker::Model;

/// Where each list starts, and room reserved for more lists. Contracts see `items` and `spare`.
///
/// Lists that start at the same index share it: all but the last of them are empty. In the history of most platforms each list
/// has one item at most, so that the different starts are 0, 1, 2 and so on. Those are only counted, up to the first that is
/// another; the starts from that one on take 4 bytes each.
#[derive(Drop)]
pub(crate) struct ListStarts {
    /// How many of the different starts, from the first on, are 0, 1, 2 and so on.
    in_order: usize,
    /// The different starts after those.
    stored: Vec<u32>,
    /// For each list, the number of its start among the different ones.
    indices: Indices,
}

impl Model for ListStarts {
    ghost use Rattle.std.specs.Prelude.{ℕ};
    ghost use Rattle.pt_history.specs.Indices.{RoomyItems, values_at};
    ghost use Rattle.pt_history.specs.ListStartsWhole.{AreListStarts};
    ghost use Rattle.pt_history.specs.Numbers.{numbers_with};

    ghost Value = { RoomyItems ℕ };

    ghost view = { λ s. record {
      items = values_at (numbers_with s.in_order s.stored.items) s.indices.indices;
      spare = s.indices.spare;
    } };

    ghost invariant = { AreListStarts };
}

impl ListStarts {
    /// No lists and no room.
    pub fn new(alloc: Global) -> ListStarts
        ensures items { result.items ≡ [] }
        ensures spare { result.spare ≡ 0 }
    {
        ListStarts {
            in_order: 0,
            stored: Vec::new(alloc),
            indices: Indices::new(alloc),
        }
    }

    /// Reserves room for at least `more` more lists. If memory runs out, or the number of different starts could reach 2^32, it
    /// fails and nothing changes.
    pub fn reserve(&mut self, more: usize) -> Result<(), Memory>
        ensures items { self.new.items ≡ self.old.items }
        ensures room { OnOk result (self.new.spare ≡ max self.old.spare more) }
        ensures unchanged { OnErr result (self.new ≡ self.old) }
        ensures there { more ≤ self.old.spare → IsOk result × (self.new ≡ self.old) }
    {
        let spare = self.indices.spare();
        if more <= spare {
            return Ok(());
        }
        if more >= MOST_ITEMS - self.in_order - self.stored.len() {
            return Err(Memory);
        }
        widened(&mut self.stored, spare, more)?;
        self.indices.reserve(more)
    }

    /// Appends this many lists that start at an index. Allocates nothing.
    #[inline(always)]
    pub fn push_all(&mut self, start: u32, times: usize)
        requires some { 0 < times }
        requires room { times ≤ self.old.spare }
        ensures items { self.new.items ≡ self.old.items ++ replicate times start }
        ensures room { self.new.spare + times ≡ self.old.spare }
    {
        let index = (self.in_order + self.stored.len()) as u32;
        push_number(&mut self.in_order, &mut self.stored, start);
        self.indices.push_all(index, times);
    }

    /// How many lists there can be without another reservation.
    pub fn limit(&self) -> usize
        ensures { result ≡ length self.now.items + self.now.spare }
    {
        self.indices.limit()
    }

    /// The number of lists.
    pub fn len(&self) -> usize
        ensures { result ≡ length self.now.items }
    {
        self.indices.len()
    }

    /// The index at which a list starts.
    pub fn get(&self, number: usize) -> u32
        requires { number < length self.now.items }
        ensures { slice_get self.now.items number ≡ Some result }
    {
        number_at(
            self.in_order,
            self.stored.as_slice(),
            self.indices.get(number),
        )
    }

    /// Whether a list and the one after it are known to start at the same index. `false` says nothing.
    #[inline(always)]
    pub fn stays(&self, number: usize) -> bool
        requires { number + 1 < length self.now.items }
        ensures { result ≡ true → slice_get self.now.items (number + 1)
            ≡ slice_get self.now.items number }
    {
        self.indices.stays(number)
    }

    /// Which lists of a block of 64 are known to start where the next ones start.
    pub fn levels(&self, block: usize) -> Levels
        ensures next { (n : ℕ) → n / 64 ≡ block → IsLevel result n → n + 1 < length self.now.items }
        ensures same { (n : ℕ) → n / 64 ≡ block → IsLevel result n →
            slice_get self.now.items (n + 1) ≡ slice_get self.now.items n }
    {
        self.indices.levels(block)
    }
}
