//! Where each of many lists ends that are stored one after another.

ghost use Rattle.std.specs.Prelude.{◌≡◌, ℕ, ◌/◌, ◌+◌, ◌<◌, ◌≤◌, ◌-◌, ◌^◌, ◌++◌, ◌∷◌, [], IsOk, OnErr, OnOk, length, max, replicate, slice_index, slice_set, true};
ghost use Rattle.pt_history.specs.Levels.{IsLevel};

use crate::levels::Levels;
use crate::list_starts::ListStarts;
use pt_tags::Memory;
use std::alloc::Global;
use std::marker::Model;

/// Where each list starts and ends, and room reserved for more lists.
///
/// Most lists are empty. Beginning a list only counts it, and where it starts is stored when a list grows.
#[derive(Drop)]
pub(crate) struct Ends {
    /// The index at which each list starts, without the pending lists.
    starts: ListStarts,
    /// The number of items in all lists: the end of the last list.
    total: usize,
    /// The number of lists at the end, all empty, of which no start is stored yet.
    pending: usize,
}

impl Model for Ends {
    ghost use Rattle.std.specs.Prelude.{◌≡◌, ◌-◌, ◌<◌, ◌≤◌, ◌^◌, ◌++◌, ◌∷◌, [], slice_index_or};
    ghost use Rattle.pt_history.specs.Lists.{RoomyEnds, ends_of, starts_of};

    ghost Value = { RoomyEnds };

    ghost view = { λ e. record {
      ends = ends_of (starts_of e.starts.items e.pending e.total) e.total;
      total = e.total;
      spare = e.starts.spare - e.pending;
    } };

    ghost invariant = { λ e. (slice_index_or
        (starts_of e.starts.items e.pending e.total ++ e.total ∷ []) 0 0 ≡ 0) × (e.total < 2 ^ 32)
        × (e.pending ≤ e.starts.spare) };
}

impl Ends {
    /// No lists and no room.
    pub fn new(alloc: Global) -> Ends
        ensures { result ≡ record { ends = []; total = 0; spare = 0 } }
    {
        Ends {
            starts: ListStarts::new(alloc),
            total: 0,
            pending: 0,
        }
    }

    /// Reserves room for at least `lists` more lists. If memory runs out, or the number of lists could reach 2^32, it fails
    /// and nothing changes.
    pub fn reserve(&mut self, lists: usize) -> Result<(), Memory>
        ensures ends { self.new.ends ≡ self.old.ends }
        ensures total { self.new.total ≡ self.old.total }
        ensures room { OnOk result (self.new.spare ≡ max self.old.spare lists) }
        ensures unchanged { OnErr result (self.new ≡ self.old) }
        ensures there { lists ≤ self.old.spare → IsOk result × (self.new ≡ self.old) }
    {
        begin_all(&mut self.starts, self.total as u32, self.pending);
        self.pending = 0;
        self.starts.reserve(lists)
    }

    /// Begins an empty list at the end. Allocates nothing.
    #[inline(always)]
    pub fn begin(&mut self)
        requires { 0 < self.old.spare }
        ensures ends { self.new.ends ≡ self.old.ends ++ self.old.total ∷ [] }
        ensures total { self.new.total ≡ self.old.total }
        ensures room { self.new.spare + 1 ≡ self.old.spare }
    {
        // There are at most as many lists as this number, so that a `usize` holds how many there are.
        let _limit = self.starts.limit();
        self.pending += 1;
    }

    /// Makes the last list end `more` items later. Allocates nothing.
    pub fn grow(&mut self, more: usize)
        requires begun { 0 < length self.old.ends }
        requires fits { self.old.total + more < 2 ^ 32 }
        ensures ends { self.new.ends ≡ slice_set self.old.ends (length self.old.ends - 1)
            (self.old.total + more) }
        ensures total { self.new.total ≡ self.old.total + more }
        ensures room { self.new.spare ≡ self.old.spare }
    {
        begin_all(&mut self.starts, self.total as u32, self.pending);
        self.pending = 0;
        self.total += more;
    }

    /// The number of lists.
    pub fn len(&self) -> usize
        ensures { result ≡ length self.now.ends }
    {
        // As in `begin`: there are at most as many lists as this number.
        let _limit = self.starts.limit();
        self.starts.len() + self.pending
    }

    /// The number of items in all lists.
    pub fn total(&self) -> usize
        ensures { result ≡ self.now.total }
    {
        self.total
    }

    /// The index at which a list begins: the end of the one before it, or 0.
    pub fn start(&self, number: usize) -> usize
        requires { number < length self.now.ends }
        ensures { result ≡ slice_index (0 ∷ self.now.ends) number }
    {
        if number < self.starts.len() {
            self.starts.get(number) as usize
        } else {
            self.total
        }
    }

    /// The index at which a list ends.
    pub fn end(&self, number: usize) -> usize
        requires { number < length self.now.ends }
        ensures { result ≡ slice_index self.now.ends number }
    {
        if number >= self.starts.len() {
            return self.total;
        }
        if self.starts.len() - number == 1 {
            self.total
        } else {
            self.starts.get(number + 1) as usize
        }
    }

    /// The list that has an item, which is counted from 0 over all lists. It is found in few steps if it is soon after the list
    /// `near`; no contract depends on that one.
    pub fn list_of(&self, item: usize, near: usize) -> usize
        requires { item < self.now.total }
        ensures within { result < length self.now.ends }
        ensures starts { slice_index (0 ∷ self.now.ends) result ≤ item }
        ensures ends { item < slice_index self.now.ends result }
    {
        let _ = &self.starts;
        let mut low = self.list_before(item, near);
        let mut high = self.list_behind(item, low);
        while high - low > 1 {
            let middle = low + (high - low) / 2;
            if self.start(middle) <= item {
                low = middle;
            } else {
                high = middle;
            }
        }
        low
    }

    /// The list `near`, if it doesn't begin behind an item, or else the first one.
    fn list_before(&self, item: usize, near: usize) -> usize
        requires { item < self.now.total }
        ensures within { result < length self.now.ends }
        ensures starts { slice_index (0 ∷ self.now.ends) result ≤ item }
    {
        let _ = &self.starts;
        if near < self.len() && self.start(near) <= item {
            return near;
        }
        0
    }

    /// The first list, of those 1, 2, 4, 8 and so on after list `low`, that begins behind an item; the number of lists if there is
    /// none.
    fn list_behind(&self, item: usize, low: usize) -> usize
        requires { low < length self.now.ends }
        ensures less { low < result }
        ensures few { result ≤ length self.now.ends }
        ensures behind { result < length self.now.ends →
            item < slice_index (0 ∷ self.now.ends) result }
    {
        let lists = self.len();
        let mut high = low + 1;
        while high < lists && self.start(high) <= item {
            high = high.saturating_add(high - low);
        }
        high.min(lists)
    }

    /// Whether a list is known to be empty. `false` says nothing.
    #[inline(always)]
    pub fn is_bare(&self, number: usize) -> bool
        requires { number < length self.now.ends }
        ensures { result ≡ true → slice_index (0 ∷ self.now.ends) number
            ≡ slice_index self.now.ends number }
    {
        if number >= self.starts.len() {
            return true;
        }
        if self.starts.len() - number == 1 {
            return false;
        }
        self.starts.stays(number)
    }

    /// Which lists of a block of 64 are known to be empty.
    pub fn levels(&self, block: usize) -> Levels
        ensures { (n : ℕ) → n / 64 ≡ block → n < length self.now.ends → IsLevel result n →
            slice_index (0 ∷ self.now.ends) n ≡ slice_index self.now.ends n }
    {
        if block > self.starts.len() / 64 {
            return Levels {
                bits: 0,
                limit: usize::MAX,
            };
        }
        self.starts.levels(block)
    }
}

/// Stores that lists begin at an index. Allocates nothing.
#[inline(always)]
fn begin_all(starts: &mut ListStarts, start: u32, lists: usize)
    requires { lists ≤ starts.old.spare }
    ensures items { starts.new.items ≡ starts.old.items ++ replicate lists start }
    ensures room { starts.new.spare + lists ≡ starts.old.spare }
{
    if lists > 0 {
        starts.push_all(start, lists);
    }
}
