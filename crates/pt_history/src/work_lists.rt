//! The claims and the results of each turn.

ghost use Rattle.std.specs.Prelude.{◌≡◌, ℕ, ◌/◌, ◌+◌, ◌<◌, ◌≤◌, ◌++◌, ◌∷◌, [], OnOk, Some, length, option_map, slice_get, slice_index_or, take};
ghost use Rattle.std.specs.List.{flat_map};
ghost use Rattle.pt_history.specs.Lists.{on_last};
ghost use Rattle.pt_history.specs.Tasks.{mark_of};
ghost use Rattle.pt_history.specs.WorkLists.{IsRoomier};
ghost use Rattle.pt_history.specs.Levels.{IsLevel};

use crate::claims::Mark;
use crate::ends::Ends;
use crate::levels::Levels;
use crate::pieces::MOST_ITEMS;
use crate::work::Work;
use pt_tags::Memory;
use pt_types::{Done, Task};
use std::alloc::Global;
use std::marker::Model;

/// A list of the claims and a list of the results of each turn, and room reserved for more.
#[derive(Drop)]
pub(crate) struct WorkLists {
    work: Work,
    claimed: Ends,
    posted: Ends,
}

impl Model for WorkLists {
    ghost use Rattle.pt_history.specs.WorkLists.{AreWorkLists, RoomyWorkLists, work_lists};

    ghost Value = { RoomyWorkLists };

    ghost view = { work_lists };

    ghost invariant = { AreWorkLists };
}

impl WorkLists {
    /// No lists and no room.
    pub fn new(alloc: Global) -> WorkLists
        ensures claimed { result.claimed ≡ record { lists = []; spare_items = 0; spare_lists = 0 } }
        ensures posted { result.posted ≡ record { lists = []; spare_items = 0; spare_lists = 0 } }
    {
        WorkLists {
            work: Work::new(alloc),
            claimed: Ends::new(alloc),
            posted: Ends::new(alloc),
        }
    }

    /// Reserves room for at least this many more claims, results, and lists of each. It fails if memory runs out, or if the
    /// number of claims or that of results could reach 2^32.
    pub fn reserve(&mut self, claims: usize, results: usize, lists: usize) -> Result<(), Memory>
        ensures lists { (self.new.claimed.lists ≡ self.old.claimed.lists)
            × (self.new.posted.lists ≡ self.old.posted.lists) }
        ensures kept { IsRoomier self.old self.new }
        ensures claims { OnOk result ((claims ≤ self.new.claimed.spare_items)
            × (lists ≤ self.new.claimed.spare_lists)) }
        ensures results { OnOk result ((results ≤ self.new.posted.spare_items)
            × (lists ≤ self.new.posted.spare_lists)) }
    {
        if claims >= MOST_ITEMS - self.claimed.total() {
            return Err(Memory);
        }
        if results >= MOST_ITEMS - self.posted.total() {
            return Err(Memory);
        }
        self.claimed.reserve(lists)?;
        self.posted.reserve(lists)?;
        self.work.reserve(claims, results)
    }

    /// Begins an empty list of claims and an empty one of results. Allocates nothing.
    #[inline(always)]
    pub fn begin(&mut self)
        requires claimed { 0 < self.old.claimed.spare_lists }
        requires posted { 0 < self.old.posted.spare_lists }
        ensures claimed { self.new.claimed.lists ≡ self.old.claimed.lists ++ [] ∷ [] }
        ensures posted { self.new.posted.lists ≡ self.old.posted.lists ++ [] ∷ [] }
        ensures items { (self.new.claimed.spare_items ≡ self.old.claimed.spare_items)
            × (self.new.posted.spare_items ≡ self.old.posted.spare_items) }
        ensures room { (self.new.claimed.spare_lists + 1 ≡ self.old.claimed.spare_lists)
            × (self.new.posted.spare_lists + 1 ≡ self.old.posted.spare_lists) }
    {
        self.claimed.begin();
        self.posted.begin();
    }

    /// Appends claims to the last list of claims. Allocates nothing.
    pub fn claim(&mut self, tasks: &[Task])
        requires spare { length tasks.now ≤ self.old.claimed.spare_items }
        requires begun { 0 < length self.old.claimed.lists }
        ensures lists { self.new.claimed.lists
            ≡ on_last (λ list. list ++ tasks.now) self.old.claimed.lists }
        ensures items { self.new.claimed.spare_items + length tasks.now
            ≡ self.old.claimed.spare_items }
        ensures room { self.new.claimed.spare_lists ≡ self.old.claimed.spare_lists }
        ensures posted { self.new.posted ≡ self.old.posted }
    {
        if tasks.is_empty() {
            return;
        }
        self.work.claim_all(tasks);
        self.claimed.grow(tasks.len());
    }

    /// Appends results to the last list of results. Allocates nothing.
    pub fn post(&mut self, dones: &[Done])
        requires spare { length dones.now ≤ self.old.posted.spare_items }
        requires begun { 0 < length self.old.posted.lists }
        ensures lists { self.new.posted.lists
            ≡ on_last (λ list. list ++ dones.now) self.old.posted.lists }
        ensures items { self.new.posted.spare_items + length dones.now
            ≡ self.old.posted.spare_items }
        ensures room { self.new.posted.spare_lists ≡ self.old.posted.spare_lists }
        ensures claimed { self.new.claimed ≡ self.old.claimed }
    {
        if dones.is_empty() {
            return;
        }
        self.work.post_all(dones);
        self.posted.grow(dones.len());
    }

    /// The number of claims in all lists.
    pub fn claims(&self) -> usize
        ensures { result ≡ length (flat_map (λ list. list) self.now.claimed.lists) }
    {
        self.work.claims()
    }

    /// Claim `number` of all lists, counted from 0.
    pub fn task(&self, number: usize) -> Task
        requires { number < length (flat_map (λ list. list) self.now.claimed.lists) }
        ensures { slice_get (flat_map (λ list. list) self.now.claimed.lists) number ≡ Some result }
    {
        self.work.task(number)
    }

    /// Claim `number` of all lists, without its inputs and its state.
    pub fn mark(&self, number: usize) -> Mark
        requires { number < length (flat_map (λ list. list) self.now.claimed.lists) }
        ensures { option_map mark_of (slice_get
            (flat_map (λ list. list) self.now.claimed.lists) number) ≡ Some result }
    {
        self.work.mark(number)
    }

    /// The number of claims in a list.
    pub fn claimed(&self, list: usize) -> usize
        requires { list < length self.now.claimed.lists }
        ensures { result ≡ length (slice_index_or self.now.claimed.lists list []) }
    {
        if self.claimed.is_bare(list) {
            return 0;
        }
        self.claimed.end(list) - self.claimed.start(list)
    }

    /// Claim `number` of a list, counted from 0, without its inputs and its state.
    pub fn claim_mark(&self, list: usize, number: usize) -> Mark
        requires list { list < length self.now.claimed.lists }
        requires number { number < length (slice_index_or self.now.claimed.lists list []) }
        ensures { option_map mark_of (slice_get
            (slice_index_or self.now.claimed.lists list []) number) ≡ Some result }
    {
        self.work.mark(self.claimed.start(list) + number)
    }

    /// The number of results in a list.
    pub fn posted(&self, list: usize) -> usize
        requires { list < length self.now.posted.lists }
        ensures { result ≡ length (slice_index_or self.now.posted.lists list []) }
    {
        if self.posted.is_bare(list) {
            return 0;
        }
        self.posted.end(list) - self.posted.start(list)
    }

    /// The number of results in all lists.
    pub fn results(&self) -> usize
        ensures { result ≡ length (flat_map (λ list. list) self.now.posted.lists) }
    {
        self.work.results()
    }

    /// The task of result `number` of all lists, counted from 0, without its inputs and its state.
    pub fn result_mark(&self, number: usize) -> Mark
        requires { number < length (flat_map (λ list. list) self.now.posted.lists) }
        ensures { option_map (λ done. mark_of done.task)
            (slice_get (flat_map (λ list. list) self.now.posted.lists) number) ≡ Some result }
    {
        self.work.done_mark(number)
    }

    /// The list that has result `number` of all lists, counted from 0. It is found in few steps if it is soon after the list
    /// `near`.
    pub fn list_of_result(&self, number: usize, near: usize) -> usize
        requires { number < length (flat_map (λ list. list) self.now.posted.lists) }
        ensures within { result < length self.now.posted.lists }
        ensures starts { length (flat_map (λ list. list) (take result self.now.posted.lists))
            ≤ number }
        ensures ends { number < length (flat_map (λ list. list)
            (take (result + 1) self.now.posted.lists)) }
    {
        self.posted.list_of(number, near)
    }

    /// Result `number` of a list, counted from 0.
    pub fn done_in(&self, list: usize, number: usize) -> Done
        requires list { list < length self.now.posted.lists }
        requires number { number < length (slice_index_or self.now.posted.lists list []) }
        ensures { slice_get (slice_index_or self.now.posted.lists list []) number ≡ Some result }
    {
        self.work.done(self.posted.start(list) + number)
    }

    /// The task of result `number` of a list, counted from 0, without its inputs and its state.
    pub fn done_mark(&self, list: usize, number: usize) -> Mark
        requires list { list < length self.now.posted.lists }
        requires number { number < length (slice_index_or self.now.posted.lists list []) }
        ensures { option_map (λ done. mark_of done.task)
            (slice_get (slice_index_or self.now.posted.lists list []) number) ≡ Some result }
    {
        self.work.done_mark(self.posted.start(list) + number)
    }

    /// Which lists of claims, of a block of 64, are known to be empty.
    pub fn claimed_levels(&self, block: usize) -> Levels
        ensures { (n : ℕ) → n / 64 ≡ block → n < length self.now.claimed.lists → IsLevel result n →
            slice_get self.now.claimed.lists n ≡ Some [] }
    {
        self.claimed.levels(block)
    }

    /// Which lists of results, of a block of 64, are known to be empty.
    pub fn posted_levels(&self, block: usize) -> Levels
        ensures { (n : ℕ) → n / 64 ≡ block → n < length self.now.posted.lists → IsLevel result n →
            slice_get self.now.posted.lists n ≡ Some [] }
    {
        self.posted.levels(block)
    }

    /// The number of claims up to the end of a list.
    pub fn claims_through(&self, list: usize) -> usize
        requires { list < length self.now.claimed.lists }
        ensures { result ≡ length (flat_map (λ list. list)
            (take (list + 1) self.now.claimed.lists)) }
    {
        self.claimed.end(list)
    }

    /// The number of results up to the end of a list.
    pub fn results_through(&self, list: usize) -> usize
        requires { list < length self.now.posted.lists }
        ensures { result ≡ length (flat_map (λ list. list)
            (take (list + 1) self.now.posted.lists)) }
    {
        self.posted.end(list)
    }
}
