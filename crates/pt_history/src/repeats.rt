//! A list in which neighbours are often equal.

ghost use Rattle.std.specs.Prelude.{◌≡◌, ℕ, ◌/◌, ◌+◌, ◌-◌, ◌<◌, ◌≤◌, ◌++◌, ◌∷◌, [], IsOk, OnErr, OnOk, Some, length, max, replicate, slice_get, true};
ghost use Rattle.pt_history.specs.Levels.{IsLevel};

use crate::indices::Indices;
use crate::levels::Levels;
use crate::pieces::{MOST_ITEMS, widened};
use pt_tags::Memory;
use std::alloc::Global;
use std::marker::Model;

/// A list of which equal neighbours are stored once, and room reserved for more items. Contracts see `items` and `spare`.
///
/// The items 7, 7 and 9 are stored as the values 7 and 9 and the indices 0, 0 and 1.
#[derive(Drop)]
pub(crate) struct Repeats<T> {
    values: Vec<T>,
    /// For each item, where its value is.
    indices: Indices,
}

impl<T> Model for Repeats<T> {
    ghost use Rattle.std.specs.Prelude.{◌≡◌, ◌+◌, ◌-◌, ◌<◌, ◌≤◌, ◌^◌, length, slice_index_or, vec_len, vec_capacity};
    ghost use Rattle.pt_history.specs.Indices.{AreBelow, RoomyItems, values_at};

    ghost Value = { RoomyItems T };

    ghost view = { λ r. record {
      items = values_at r.values.items r.indices.indices;
      spare = r.indices.spare;
    } };

    ghost invariant = { λ r. AreBelow (length r.values.items) r.indices.indices
        × (slice_index_or r.indices.indices (length r.indices.indices - 1) 0
        ≡ length r.values.items - 1) × (vec_len r.values + r.indices.spare ≤ vec_capacity r.values)
        × (length r.values.items + r.indices.spare < 2 ^ 32) };
}

impl<T: Drop> Repeats<T> {
    /// No items and no room.
    pub fn new(alloc: Global) -> Repeats<T>
        ensures items { result.items ≡ [] }
        ensures spare { result.spare ≡ 0 }
    {
        Repeats {
            values: Vec::new(alloc),
            indices: Indices::new(alloc),
        }
    }

    /// Reserves room for at least `more` more items. If memory runs out, or the number of values could reach 2^32, it fails
    /// and nothing changes.
    pub fn reserve(&mut self, more: usize) -> Result<(), Memory>
        ensures items { self.new.items ≡ self.old.items }
        ensures room { OnOk result (self.new.spare ≡ max self.old.spare more) }
        ensures unchanged { OnErr result (self.new ≡ self.old) }
        ensures there { more ≤ self.old.spare → IsOk result × (self.new ≡ self.old) }
    {
        let spare = self.indices.spare();
        if more <= spare {
            return Ok(());
        }
        if more >= MOST_ITEMS - self.values.len() {
            return Err(Memory);
        }
        widened(&mut self.values, spare, more)?;
        self.indices.reserve(more)
    }

    /// Appends an item. Allocates nothing.
    pub fn push(&mut self, item: T)
        requires { 0 < self.old.spare }
        ensures items { self.new.items ≡ self.old.items ++ item ∷ [] }
        ensures room { self.new.spare + 1 ≡ self.old.spare }
    {
        let index = self.values.len() as u32;
        self.values.push_reserved(item);
        self.indices.push(index);
    }

    /// Appends the last item again. Allocates nothing.
    #[inline(always)]
    pub fn again(&mut self)
        requires room { 0 < self.old.spare }
        requires begun { 0 < length self.old.items }
        ensures items { (x : T) → slice_get self.old.items (length self.old.items - 1) ≡ Some x →
            self.new.items ≡ self.old.items ++ x ∷ [] }
        ensures room { self.new.spare + 1 ≡ self.old.spare }
    {
        self.indices.again();
    }

    /// The number of items.
    pub fn len(&self) -> usize
        ensures { result ≡ length self.now.items }
    {
        self.indices.len()
    }

    /// Which items of a block of 64 are known to be the same as the next ones.
    pub fn levels(&self, block: usize) -> Levels
        ensures next { (n : ℕ) → n / 64 ≡ block → IsLevel result n → n + 1 < length self.now.items }
        ensures same { (n : ℕ) → n / 64 ≡ block → IsLevel result n →
            slice_get self.now.items (n + 1) ≡ slice_get self.now.items n }
    {
        self.indices.levels(block)
    }
}

impl<T: Copy> Repeats<T> {
    /// Item `number`, counted from 0.
    pub fn get(&self, number: usize) -> T
        requires { number < length self.now.items }
        ensures { slice_get self.now.items number ≡ Some result }
    {
        self.values[self.indices.get(number)]
    }

    /// The last item; `None` if there are no items.
    #[inline(always)]
    pub fn last(&self) -> Option<T>
        ensures { result ≡ slice_get self.now.items (length self.now.items - 1) }
    {
        if self.indices.len() == 0 {
            return None;
        }
        Some(self.values[self.values.len() - 1])
    }
}
