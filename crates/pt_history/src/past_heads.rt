//! The heads of recorded turns that can't change any more.

ghost use Rattle.std.specs.Prelude.{◌≡◌, ℕ, ◌/◌, ◌+◌, ◌-◌, ◌<◌, ◌++◌, ◌∷◌, [], MatchOption, OnErr, OnOk, Some, length, max, slice_get, true};
ghost use Rattle.pt_history.specs.Heads.{head_with, single};
ghost use Rattle.pt_history.specs.Levels.{IsLevelHead, IsSingleAfter};

use crate::head::Head;
use crate::levels::HeadLevels;
use crate::pieces::Pieces;
use crate::repeats::Repeats;
use pt_tags::{Memory, Reading};
use std::alloc::Global;
use std::marker::Model;

/// What the head of a run of turns has besides its last reading.
#[derive(Clone, Copy, Debug, PartialEq, Eq)]
pub(crate) struct Run {
    /// The first reading, in microseconds.
    pub first: u64,
    /// The number of turns.
    pub count: u64,
}

/// A list of heads, and room reserved for more. Contracts see `items` and `spare`.
///
/// Most heads are of single turns, and have the reading of the turn before. Of such a head only a few bits are stored.
#[derive(Drop)]
pub(crate) struct PastHeads {
    /// The last reading of each, in microseconds.
    lasts: Repeats<u64>,
    /// The last of `lasts`.
    newest: Option<u64>,
    /// A list for each: of one run, or of none for a single turn.
    runs: Pieces<Run>,
}

impl Model for PastHeads {
    ghost use Rattle.pt_history.specs.declared.head.Head.{Head};
    ghost use Rattle.pt_history.specs.Heads.{heads_of};
    ghost use Rattle.pt_history.specs.Indices.{RoomyItems};
    ghost use Rattle.pt_history.specs.PastHeadsWhole.{ArePastHeads};

    ghost Value = { RoomyItems Head };

    ghost view = { λ h. record {
      items = heads_of h.lasts.items h.runs.lists;
      spare = h.lasts.spare;
    } };

    ghost invariant = { ArePastHeads };
}

impl PastHeads {
    /// No heads and no room.
    pub fn new(alloc: Global) -> PastHeads
        ensures items { result.items ≡ [] }
        ensures spare { result.spare ≡ 0 }
    {
        PastHeads {
            lasts: Repeats::new(alloc),
            newest: None,
            runs: Pieces::new(alloc),
        }
    }

    /// Reserves room for at least `more` more heads. If memory runs out, or the number of different readings or that of runs
    /// could reach 2^32, it fails and nothing changes.
    pub fn reserve(&mut self, more: usize) -> Result<(), Memory>
        ensures items { self.new.items ≡ self.old.items }
        ensures room { OnOk result (self.new.spare ≡ max self.old.spare more) }
        ensures unchanged { OnErr result (self.new ≡ self.old) }
    {
        self.runs.reserve(more, more)?;
        self.lasts.reserve(more)
    }

    /// Appends a head. Allocates nothing.
    #[inline(never)]
    pub fn push(&mut self, head: Head)
        requires { 0 < self.old.spare }
        ensures items { self.new.items ≡ self.old.items ++ head ∷ [] }
        ensures room { self.new.spare + 1 ≡ self.old.spare }
    {
        if let Some(run) = run_of(head) {
            self.push_run(head.last, run);
            return;
        }
        self.push_single(head.last);
    }

    /// Appends the head of a single turn at a reading, in microseconds. Allocates nothing.
    #[inline(always)]
    pub fn push_single(&mut self, last: u64)
        requires { 0 < self.old.spare }
        ensures items { self.new.items ≡ self.old.items ++ single last ∷ [] }
        ensures room { self.new.spare + 1 ≡ self.old.spare }
    {
        self.runs.begin();
        store(&mut self.lasts, &mut self.newest, last);
    }

    /// Appends the head with this last reading, in microseconds, and a run. Not inlined, since this is rare. Allocates
    /// nothing.
    #[inline(never)]
    fn push_run(&mut self, last: u64, run: Run)
        requires { 0 < self.old.spare }
        ensures items { self.new.items ≡ self.old.items ++ head_with last (run ∷ []) ∷ [] }
        ensures room { self.new.spare + 1 ≡ self.old.spare }
    {
        self.runs.begin();
        self.runs.push(run);
        store(&mut self.lasts, &mut self.newest, last);
    }

    /// The number of heads.
    pub fn len(&self) -> usize
        ensures { result ≡ length self.now.items }
    {
        self.lasts.len()
    }

    /// Head `number`, counted from 0.
    pub fn get(&self, number: usize) -> Head
        requires { number < length self.now.items }
        ensures { slice_get self.now.items number ≡ Some result }
    {
        head_with(self.lasts.get(number), self.runs.get(number))
    }

    /// What is known of the heads of a block of 64, and the next ones.
    pub fn levels(&self, block: usize) -> HeadLevels
        ensures { (n : ℕ) → n / 64 ≡ block → IsLevelHead result n → IsSingleAfter self.now.items n }
    {
        HeadLevels {
            lasts: self.lasts.levels(block),
            runs: self.runs.levels(block),
        }
    }
}

/// Appends a reading to the last ones, of which `newest` is the last. That an equal one is only counted saves memory.
#[inline(always)]
fn store(lasts: &mut Repeats<u64>, newest: &mut Option<u64>, reading: Reading)
    requires room { 0 < lasts.old.spare }
    requires newest { newest.old ≡ slice_get lasts.old.items (length lasts.old.items - 1) }
    ensures items { lasts.new.items ≡ lasts.old.items ++ reading ∷ [] }
    ensures newest { newest.new ≡ Some reading }
    ensures room { lasts.new.spare + 1 ≡ lasts.old.spare }
{
    if let Some(last) = *newest {
        if last == reading {
            lasts.again();
            return;
        }
    }
    *newest = Some(reading);
    lasts.push(reading);
}

/// What the head of a run has besides its last reading; `None` for the head of a single turn, which only saves memory: a run
/// of one turn would be right too.
fn run_of(head: Head) -> Option<Run>
    ensures { MatchOption result (head ≡ single head.last)
        (λ run. head_with head.last (run ∷ []) ≡ head) }
{
    if same_head(head, Head::single(head.last)) {
        return None;
    }
    Some(Run {
        first: head.first,
        count: head.count,
    })
}

/// Whether two heads are equal.
fn same_head(first: Head, second: Head) -> bool
    ensures { result ≡ true → first ≡ second }
{
    first == second
}

/// The head with this last reading, and with the run in a list if there is one.
fn head_with(last: u64, runs: &[Run]) -> Head
    ensures { result ≡ head_with last runs.now }
{
    if runs.is_empty() {
        return Head::single(last);
    }
    Head {
        first: runs[0].first,
        last,
        count: runs[0].count,
    }
}
