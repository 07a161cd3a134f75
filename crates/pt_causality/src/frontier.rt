//! The units that a search has found and not yet settled, by their delays.

ghost use Rattle.std.specs.Prelude.{◌≡◌, ◌∷◌, [], IfSome, IfNone, OnOk, true, false};
ghost use Rattle.std.specs.BinaryHeap.{heap_items, IsHeap};
ghost use Rattle.std.specs.List.Sorted.{IsPermutation};
ghost use Rattle.pt_causality.specs.Waits.{compared, HasLeastDelay, NoneBefore, SomeBefore};

use pt_tags::Delay;
use std::alloc::{AllocError, Global};
use std::cmp::Reverse;
use std::collections::BinaryHeap;
use std::marker::Model;

/// A unit, by its number, and the delay of a path to it.
#[derive(Clone, Copy, PartialEq, Eq, PartialOrd, Ord)]
pub struct FoundUnit {
    pub at: Delay,
    pub unit: u32,
}

/// Pending units. Contracts see the list of them, in no order.
///
/// Most wires add no delay, so most units are pending at the delay of the one that was taken last. Those are on a stack,
/// and only the others are in a heap.
#[derive(Drop)]
pub struct Frontier {
    now: Delay,
    /// The units that are pending at `now`, by their numbers.
    ready: Vec<u32>,
    later: BinaryHeap<Reverse<FoundUnit>>,
}

impl Model for Frontier {
    ghost use Rattle.std.specs.Prelude.{List as Items, map, ◌++◌};
    ghost use Rattle.std.specs.BinaryHeap.{heap_items, IsHeap};
    ghost use Rattle.pt_causality.specs.Waits.{compared, waiting_at};
    ghost use Rattle.pt_causality.specs.declared.frontier.FoundUnit.{FoundUnit as Item};

    ghost Value = { Items Item };

    ghost view = { λ f. map (waiting_at f.now) f.ready.items
        ++ map (λ r. r.0) (heap_items f.later) };

    ghost invariant = { λ f. IsHeap (λ x y. compared y.0 x.0) (heap_items f.later) };
}

impl Frontier {
    /// No units.
    pub fn new(alloc: Global) -> Frontier
        ensures { result ≡ [] }
    {
        Frontier {
            now: Delay { time: 0, step: 0 },
            ready: Vec::new(alloc),
            later: BinaryHeap::new(alloc),
        }
    }

    /// Adds a unit.
    pub fn push(&mut self, unit: FoundUnit) -> Result<(), AllocError>
        ensures { OnOk result (IsPermutation (unit ∷ self.old) self.new) }
    {
        if unit.at == self.now {
            self.ready.push(unit.unit)?;
            return Ok(());
        }
        self.later.push(Reverse(unit))?;
        Ok(())
    }

    /// Takes a unit with the least delay.
    pub fn pop(&mut self) -> Option<FoundUnit>
        ensures taken { IfSome result (λ w. IsPermutation self.old (w ∷ self.new)) }
        ensures first { IfSome result (λ w. HasLeastDelay w self.old) }
        ensures none { IfNone result (self.old ≡ []) }
    {
        if self.ready.is_empty() {
            return match self.later.pop() {
                Some(Reverse(next)) => {
                    self.now = next.at;
                    Some(next)
                }
                None => None,
            };
        }
        if is_before(&self.later, self.now) {
            return match self.later.pop() {
                Some(Reverse(next)) => Some(next),
                None => None,
            };
        }
        match self.ready.pop() {
            Some(unit) => Some(FoundUnit { at: self.now, unit }),
            None => None,
        }
    }
}

/// Whether a unit in the heap has a delay less than `now`.
fn is_before(later: &BinaryHeap<Reverse<FoundUnit>>, now: Delay) -> bool
    requires { IsHeap (λ x y. compared y.0 x.0) (heap_items later.now) }
    ensures none { result ≡ false → NoneBefore now (heap_items later.now) }
    ensures some { result ≡ true → SomeBefore now (heap_items later.now) }
{
    match later.peek() {
        Some(Reverse(first)) => first.at < now,
        None => false,
    }
}
