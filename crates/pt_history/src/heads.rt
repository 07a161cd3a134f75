//! The heads of recorded turns.

ghost use Rattle.std.specs.Prelude.{◌≡◌, ℕ, ◌/◌, ◌+◌, ◌-◌, ◌<◌, ◌≤◌, ◌++◌, ◌∷◌, [], MatchOption, OnErr, OnOk, Some, length, max, slice_get, slice_set};
ghost use Rattle.pt_history.specs.Heads.{single};
ghost use Rattle.pt_history.specs.Recents.{EndWith, heads_in};
ghost use Rattle.pt_history.specs.Levels.{IsLevelHead, IsSingleAfter};

use crate::head::Head;
use crate::levels::HeadLevels;
use crate::past_heads::PastHeads;
use crate::pieces::MOST_ITEMS;
use pt_tags::{Memory, Reading};
use std::alloc::Global;
use std::marker::Model;

/// The number of past heads is less than this, so that the number of all heads is less than 2^32.
const MOST_PAST: usize = MOST_ITEMS - 2;

/// The last heads, of which two at most can still change. The last is that of a single turn, as both mostly are; of such a head
/// only its reading is kept.
#[derive(Clone, Copy, Debug, PartialEq, Eq)]
pub(crate) enum Recent {
    Empty,
    One(u64),
    /// Both are of single turns.
    TwoSingles(u64, u64),
    /// The first may be of a run of turns.
    Two(Head, u64),
}

/// The heads of recorded turns, and room reserved for more. Contracts see `items` and `spare`.
#[derive(Drop)]
pub(crate) struct Heads {
    /// All heads but the last two.
    past: PastHeads,
    recent: Recent,
}

impl Model for Heads {
    ghost use Rattle.std.specs.Prelude.{◌++◌};
    ghost use Rattle.pt_history.specs.declared.head.Head.{Head};
    ghost use Rattle.pt_history.specs.Indices.{RoomyItems};
    ghost use Rattle.pt_history.specs.Recents.{heads_in};
    ghost use Rattle.pt_history.specs.HeadsWhole.{AreHeads};

    ghost Value = { RoomyItems Head };

    ghost view = { λ h. record {
      items = h.past.items ++ heads_in h.recent;
      spare = h.past.spare;
    } };

    ghost invariant = { AreHeads };
}

impl Heads {
    /// No heads and no room.
    pub fn new(alloc: Global) -> Heads
        ensures items { result.items ≡ [] }
        ensures spare { result.spare ≡ 0 }
    {
        Heads {
            past: PastHeads::new(alloc),
            recent: Recent::Empty,
        }
    }

    /// Reserves room for at least `more` more heads. If memory runs out, or the number of heads could reach 2^32, it fails and
    /// nothing changes.
    pub fn reserve(&mut self, more: usize) -> Result<(), Memory>
        ensures items { self.new.items ≡ self.old.items }
        ensures room { OnOk result (self.new.spare ≡ max self.old.spare more) }
        ensures unchanged { OnErr result (self.new ≡ self.old) }
    {
        if more >= MOST_PAST - self.past.len() {
            return Err(Memory);
        }
        self.past.reserve(more)
    }

    /// Appends the head of a single turn at a reading, in microseconds. Allocates nothing.
    #[inline(always)]
    pub fn push(&mut self, reading: Reading)
        requires { 0 < self.old.spare }
        ensures items { self.new.items ≡ self.old.items ++ single reading ∷ [] }
        ensures room { self.old.spare ≤ self.new.spare + 1 }
    {
        if let Recent::TwoSingles(before, last) = self.recent {
            self.recent = Recent::TwoSingles(last, reading);
            self.past.push_single(before);
            return;
        }
        self.push_after(reading);
    }

    /// Does the same as `push`, whatever the last two heads are. Not inlined, since mostly both are of single turns.
    #[inline(never)]
    fn push_after(&mut self, reading: Reading)
        requires { 0 < self.old.spare }
        ensures items { self.new.items ≡ self.old.items ++ single reading ∷ [] }
        ensures room { self.old.spare ≤ self.new.spare + 1 }
    {
        match self.recent {
            Recent::Empty => self.recent = Recent::One(reading),
            Recent::One(last) => self.recent = Recent::TwoSingles(last, reading),
            Recent::TwoSingles(before, last) => {
                self.recent = Recent::TwoSingles(last, reading);
                self.past.push_single(before);
            }
            Recent::Two(before, last) => {
                self.recent = Recent::TwoSingles(last, reading);
                self.past.push(before);
            }
        }
    }

    /// Replaces the last two heads by another one and that of a single turn at a reading, in microseconds.
    pub fn replace(&mut self, before: Head, reading: Reading)
        requires { 2 ≤ length self.old.items }
        ensures items { self.new.items ≡ slice_set
            (slice_set self.old.items (length self.old.items - 2) before)
            (length self.old.items - 1) (single reading) }
        ensures room { self.new.spare ≡ self.old.spare }
    {
        self.recent = Recent::Two(before, reading);
    }

    /// The last two heads, or `None` if there are fewer.
    pub fn last_two(&self) -> Option<(Head, Head)>
        ensures { MatchOption result (length self.now.items < 2)
            (λ two. EndWith self.now.items two.0 two.1) }
    {
        match self.recent {
            Recent::Empty => None,
            Recent::One(_) => None,
            Recent::TwoSingles(before, last) => Some((Head::single(before), Head::single(last))),
            Recent::Two(before, last) => Some((before, Head::single(last))),
        }
    }

    /// The number of heads.
    pub fn len(&self) -> usize
        ensures { result ≡ length self.now.items }
    {
        self.past.len() + count_of(self.recent)
    }

    /// Head `number`, counted from 0.
    pub fn get(&self, number: usize) -> Head
        requires { number < length self.now.items }
        ensures { slice_get self.now.items number ≡ Some result }
    {
        let past = self.past.len();
        if number < past {
            self.past.get(number)
        } else {
            recent_at(self.recent, number - past)
        }
    }

    /// What is known of the heads of a block of 64, and the next ones. Nothing is known of the last two.
    pub fn levels(&self, block: usize) -> HeadLevels
        ensures { (n : ℕ) → n / 64 ≡ block → IsLevelHead result n → IsSingleAfter self.now.items n }
    {
        self.past.levels(block)
    }
}

/// The number of recent heads.
fn count_of(recent: Recent) -> usize
    ensures { result ≡ length (heads_in recent) }
{
    match recent {
        Recent::Empty => 0,
        Recent::One(_) => 1,
        Recent::TwoSingles(_, _) => 2,
        Recent::Two(_, _) => 2,
    }
}

/// Recent head `number`, counted from 0.
fn recent_at(recent: Recent, number: usize) -> Head
    requires { number < length (heads_in recent) }
    ensures { slice_get (heads_in recent) number ≡ Some result }
{
    match recent {
        Recent::Empty => unreachable!(),
        Recent::One(reading) => Head::single(reading),
        Recent::TwoSingles(before, reading) => {
            if number == 0 {
                Head::single(before)
            } else {
                Head::single(reading)
            }
        }
        Recent::Two(before, reading) => {
            if number == 0 {
                before
            } else {
                Head::single(reading)
            }
        }
    }
}
