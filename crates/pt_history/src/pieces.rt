//! A list of lists, stored flat.

ghost use Rattle.std.specs.Prelude.{◌≡◌, ℕ, ◌/◌, ◌+◌, ◌<◌, ◌≤◌, ◌++◌, ◌∷◌, [], IsOk, OnOk, OnErr, MatchResult, Some, length, max, slice_get, slice_range, vec_len, vec_capacity};
ghost use Rattle.std.specs.List.{flat_map};
ghost use Rattle.pt_history.specs.Lists.{on_last};
ghost use Rattle.pt_history.specs.Levels.{IsLevel};

use crate::ends::Ends;
use crate::levels::Levels;
use pt_tags::Memory;
use std::alloc::Global;
use std::marker::Model;

/// The number of items is less than this, so that 32 bits hold each end.
pub(crate) const MOST_ITEMS: usize = 4_294_967_296;

/// A vector that grows gets room for this many times the items that it has.
const GROWTH: usize = 8;

/// A list of lists, with room reserved for more items and lists. Contracts see `lists`, `spare_items` and `spare_lists`.
///
/// The lists `[1, 2]`, `[]` and `[3]` are stored as the items 1, 2, 3, and start at 0, 2 and 2.
#[derive(Drop)]
pub struct Pieces<T> {
    items: Vec<T>,
    ends: Ends,
    spare_items: usize,
}

impl<T> Model for Pieces<T> {
    ghost use Rattle.std.specs.Prelude.{◌≡◌, ◌+◌, ◌<◌, ◌≤◌, ◌^◌, length, vec_len, vec_capacity};
    ghost use Rattle.pt_history.specs.Lists.{Rises, RoomyLists, pieces};

    ghost Value = { RoomyLists T };

    ghost view = { λ p. record {
      lists = pieces 0 p.ends.ends p.items.items;
      spare_items = p.spare_items;
      spare_lists = p.ends.spare;
    } };

    ghost invariant = { λ p. Rises 0 p.ends.ends (length p.items.items)
        × (vec_len p.items + p.spare_items ≤ vec_capacity p.items)
        × (p.ends.total ≡ length p.items.items) × (length p.items.items + p.spare_items < 2 ^ 32) };
}

impl<T: Drop> Pieces<T> {
    /// No lists and no room.
    pub fn new(alloc: Global) -> Pieces<T>
        ensures lists { result.lists ≡ [] }
        ensures spare { (result.spare_items ≡ 0) × (result.spare_lists ≡ 0) }
    {
        Pieces {
            items: Vec::new(alloc),
            ends: Ends::new(alloc),
            spare_items: 0,
        }
    }

    /// Reserves room for at least `items` more items and `lists` more lists. If memory runs out, or the number of items could
    /// reach 2^32, it fails and nothing changes.
    pub fn reserve(&mut self, items: usize, lists: usize) -> Result<(), Memory>
        ensures lists { self.new.lists ≡ self.old.lists }
        ensures items { OnOk result (self.new.spare_items ≡ max self.old.spare_items items) }
        ensures room { OnOk result (self.new.spare_lists ≡ max self.old.spare_lists lists) }
        ensures unchanged { OnErr result (self.new ≡ self.old) }
        ensures there { items ≤ self.old.spare_items → lists ≤ self.old.spare_lists → IsOk result
            × (self.new ≡ self.old) }
    {
        if items >= MOST_ITEMS - self.items.len() {
            return Err(Memory);
        }
        let spare_items = widened(&mut self.items, self.spare_items, items)?;
        self.ends.reserve(lists)?;
        self.spare_items = spare_items;
        Ok(())
    }

    /// Begins an empty list at the end. Allocates nothing.
    #[inline(always)]
    pub fn begin(&mut self)
        requires { 0 < self.old.spare_lists }
        ensures lists { self.new.lists ≡ self.old.lists ++ [] ∷ [] }
        ensures items { self.new.spare_items ≡ self.old.spare_items }
        ensures room { self.new.spare_lists + 1 ≡ self.old.spare_lists }
    {
        self.ends.begin();
    }

    /// Appends an item to the last list. Allocates nothing.
    #[inline(always)]
    pub(crate) fn push(&mut self, item: T)
        requires spare { 0 < self.old.spare_items }
        requires begun { 0 < length self.old.lists }
        ensures lists { self.new.lists ≡ on_last (λ list. list ++ item ∷ []) self.old.lists }
        ensures items { self.new.spare_items + 1 ≡ self.old.spare_items }
        ensures room { self.new.spare_lists ≡ self.old.spare_lists }
    {
        self.items.push_reserved(item);
        self.spare_items -= 1;
        self.ends.grow(1);
    }

    /// The number of lists.
    pub fn len(&self) -> usize
        ensures { result ≡ length self.now.lists }
    {
        self.ends.len()
    }

    /// The number of items in all lists together.
    pub fn total(&self) -> usize
        ensures { result ≡ length (flat_map (λ list. list) self.now.lists) }
    {
        self.items.len()
    }

    /// The items of all lists, in order.
    pub fn all(&self) -> &[T]
        ensures { result.now ≡ flat_map (λ list. list) self.now.lists }
    {
        self.items.as_slice()
    }

    /// List `number`, counted from 0. Most lists are empty.
    #[inline(always)]
    pub fn get(&self, number: usize) -> &[T]
        requires { number < length self.now.lists }
        ensures { slice_get self.now.lists number ≡ Some result.now }
    {
        if self.ends.is_bare(number) {
            return &[];
        }
        self.found(number)
    }

    /// Does the same as `get`, by looking up where the list starts and ends.
    #[inline(never)]
    fn found(&self, number: usize) -> &[T]
        requires { number < length self.now.lists }
        ensures { slice_get self.now.lists number ≡ Some result.now }
    {
        part(
            self.items.as_slice(),
            self.ends.start(number),
            self.ends.end(number),
        )
    }

    /// Which lists of a block of 64 are known to be empty.
    pub fn levels(&self, block: usize) -> Levels
        ensures { (n : ℕ) → n / 64 ≡ block → n < length self.now.lists → IsLevel result n →
            slice_get self.now.lists n ≡ Some [] }
    {
        self.ends.levels(block)
    }
}

impl<T: Copy> Pieces<T> {
    /// Appends items to the last list: mostly one. Allocates nothing.
    #[inline(always)]
    pub fn extend(&mut self, more: &[T])
        requires spare { length more.now ≤ self.old.spare_items }
        requires begun { 0 < length self.old.lists }
        ensures lists { self.new.lists ≡ on_last (λ list. list ++ more.now) self.old.lists }
        ensures items { self.new.spare_items + length more.now ≡ self.old.spare_items }
        ensures room { self.new.spare_lists ≡ self.old.spare_lists }
    {
        if more.len() == 1 {
            self.push(more[0]);
            return;
        }
        self.extend_all(more);
    }

    /// Does the same as `extend`, for any number of items.
    #[inline(never)]
    fn extend_all(&mut self, more: &[T])
        requires spare { length more.now ≤ self.old.spare_items }
        requires begun { 0 < length self.old.lists }
        ensures lists { self.new.lists ≡ on_last (λ list. list ++ more.now) self.old.lists }
        ensures items { self.new.spare_items + length more.now ≡ self.old.spare_items }
        ensures room { self.new.spare_lists ≡ self.old.spare_lists }
    {
        if more.is_empty() {
            return;
        }
        match self.items.extend_from_slice(more) {
            Ok(()) => self.spare_items -= more.len(),
            Err(_) => unreachable!(),
        }
        self.ends.grow(more.len());
    }
}

/// The items from index `start` up to, not including, `end`.
fn part<T>(items: &[T], start: usize, end: usize) -> &[T]
    requires rises { start ≤ end }
    requires within { end ≤ length items.now }
    ensures { result.now ≡ slice_range items.now start end }
{
    &items[start..end]
}

/// Makes room for at least `wanted` more items, and returns for how many there is room then.
pub(crate) fn widened<T>(items: &mut Vec<T>, spare: usize, wanted: usize) -> Result<usize, Memory>
    requires { vec_len items.old + spare ≤ vec_capacity items.old }
    ensures items { items.new.items ≡ items.old.items }
    ensures room { MatchResult result
        (λ room. (room ≡ max spare wanted) × (vec_len items.new + room ≤ vec_capacity items.new))
        (λ _. vec_len items.new + spare ≤ vec_capacity items.new) }
    ensures there { wanted ≤ spare → IsOk result }
{
    if spare >= wanted {
        return Ok(spare);
    }
    if items.capacity() - items.len() < wanted {
        widen(items, wanted)?;
    }
    Ok(wanted)
}

/// Makes room for at least `wanted` more items, and for `GROWTH` times those that are there if memory suffices for that. So
/// a vector is seldom copied. Room that is not used yet takes addresses only.
#[inline(never)]
fn widen<T>(items: &mut Vec<T>, wanted: usize) -> Result<(), Memory>
    ensures items { items.new.items ≡ items.old.items }
    ensures kept { vec_capacity items.old ≤ vec_capacity items.new }
    ensures room { OnOk result (vec_len items.new + wanted ≤ vec_capacity items.new) }
{
    let more = (GROWTH - 1).saturating_mul(items.len());
    if items.reserve(wanted.saturating_add(more)).is_ok() {
        return Ok(());
    }
    items.reserve(wanted)?;
    Ok(())
}
