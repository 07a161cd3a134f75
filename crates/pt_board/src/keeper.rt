//! The keeper of a board, which places tasks and collects their results.
ghost use Rattle.std.specs.Prelude.{◌≡◌, ◌<◌, ◌^◌, None, [], IfSome, IfNone, MatchOption, MatchResult, length};
ghost use Rattle.pt_board.specs.Rule.{keeper_first};
ghost use Rattle.pt_board.specs.Keepers.{CollectedFrom, HasCollected, HasPlaced, IsAllOut, IsFree, LookedAt, NoneIsFree, SawNoneDone};

use crate::board::Board;
use crate::rule::View;
use crate::slots::SLOTS;
use crate::table::Item;
use atomic_table::Seat;
use pt_actors::Done;
use pt_types::{Graph, Task};
use std::marker::Model;

/// The seat that places tasks and collects results, with the numbers of the placements that are out: whose results it hasn't
/// collected yet.
///
/// Contracts see its board's table, what it knows, and the number of its next placement.
#[derive(Drop)]
pub struct Keeper {
    pub(crate) seat: Seat<Item, View>,
    /// For each slot, the number of the placement that is out there; `None` if the slot is free.
    places: [Option<u64>; SLOTS],
    next: u64,
}

impl Model for Keeper {
    ghost use Rattle.pt_board.specs.Keepers.{KeeperView, IsKeeper};

    ghost Value = { KeeperView };

    ghost view = { λ k. record { table = k.seat.table_id; knows = k.seat.me.0; next = k.next } };

    ghost invariant = { λ k. IsKeeper k.seat k.places };
}

impl Keeper {
    /// The keeper of a new board.
    pub(crate) fn new(seat: Seat<Item, View>, graph: &Graph) -> Keeper
        requires seat { (seat.me.1 ≡ []) × (seat.me.0 ≡ keeper_first graph.now) }
        ensures { (result.table ≡ seat.table_id) × (result.knows ≡ seat.me.0) × (result.next ≡ 0) }
    {
        Keeper {
            seat,
            places: [None; SLOTS],
            next: 0,
        }
    }
}

/// The first slot for which no number is recorded.
fn first_free(places: &[Option<u64>]) -> Option<usize>
    requires { length places.now ≡ 32 }
    ensures { MatchOption result (NoneIsFree places.now) (IsFree places.now) }
{
    for slot in 0..SLOTS {
        if places[slot].is_none() {
            return Some(slot);
        }
    }
    None
}

impl Board {
    /// Puts a task into the first free slot, or returns it if no slot is free. Allocates nothing.
    pub fn place(&self, keeper: &mut Keeper, task: Task) -> Result<(), Task>
        requires table { keeper.old.table ≡ self.now.table }
        requires number { keeper.old.next < 2 ^ 62 }
        ensures placed { MatchResult result (λ _. HasPlaced keeper.old keeper.new task)
            (λ back. (back ≡ task) × (keeper.new ≡ keeper.old) × IsAllOut keeper.old) }
    {
        let Some(slot) = first_free(&keeper.places) else {
            return Err(task);
        };
        let number = keeper.next;
        self.slots.place_at(&mut keeper.seat, slot, number, task);
        keeper.places[slot] = Some(number);
        keeper.next = number + 1;
        Ok(())
    }

    /// Takes the result out of a slot; `None` if the slot is free or its task isn't done.
    fn collect_from(&self, keeper: &mut Keeper, slot: usize) -> Option<Done>
        requires table { keeper.old.table ≡ self.now.table }
        requires slot { slot < 32 }
        ensures { MatchOption result (LookedAt slot keeper.old keeper.new)
            (CollectedFrom slot keeper.old keeper.new) }
    {
        let Some(number) = keeper.places[slot] else {
            return None;
        };
        let Some(done) = self.slots.collect_at(&mut keeper.seat, slot, number) else {
            return None;
        };
        keeper.places[slot] = None;
        Some(done)
    }

    /// Takes a result that was handed in.
    ///
    /// Returns `None` only if the word of each slot that is out was loaded and none was done. Allocates nothing.
    pub fn collect(&self, keeper: &mut Keeper) -> Option<Done>
        requires table { keeper.old.table ≡ self.now.table }
        ensures collected { MatchOption result (SawNoneDone keeper.old keeper.new)
            (HasCollected keeper.old keeper.new) }
    {
        for slot in 0..SLOTS {
            if let Some(done) = self.collect_from(keeper, slot) {
                return Some(done);
            }
        }
        None
    }
}
