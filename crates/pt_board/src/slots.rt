//! The 32 slots of a board, and the steps of a seat on one of them.
//!
//! The word of a slot is the number of its last placement times four, and a phase: 0 free, 1 ready, 2 taken, 3 done.
//! A slot's content is read and written only by a seat that has taken it out. A seat takes it out at a load or a won exchange
//! of the word, and puts it back at a load or a store.
ghost use Rattle.std.specs.Prelude.{◌≡◌, ◌≢◌, ℕ, ◌<◌, ◌^◌, ◌+◌, ◌*◌, ◌%◌, ◌∷◌, [], true, false, None, Some, IfOk, IfSome, IfNone, MatchOption, length, replicate};
ghost use Rattle.pt_board.specs.Rule.{IsResultOf, IsResult, keeper_first, hand_first, part};
ghost use Rattle.pt_types.specs.declared.firing.Task.{Task};
ghost use Rattle.pt_types.specs.declared.graph.Graph.{Graph};
ghost use Rattle.pt_board.specs.Seats.{IsSeatOf, IsKeeperView, IsHandView, SameElse, Unready, Holds};
ghost use Rattle.pt_board.specs.declared.table.Item.TheVariants.{Nothing};

use crate::plays::{
    GiveBack, Leaves, Look, LookDone, NewHand, PutDone, PutFree, PutReady, TakeAgain, TakeFree, Try,
};
use crate::rule::View;
use crate::table::{Claims, Item};
use atomic_table::{Seat, Table};
use pt_actors::Done;
use pt_types::{Graph, Task};
use std::alloc::{AllocError, Global};

pub(crate) const SLOTS: usize = 32;

/// The words and contents of the slots, which threads share.
#[derive(Drop)]
pub(crate) struct Slots {
    table: Table<Item, View, Graph, Claims, Global>,
    ghost sized: { (table.shared.table_id.words ≡ 32) × (table.shared.table_id.slots ≡ 32) },
}

fn nothings(alloc: Global) -> Result<Vec<Item>, AllocError>
    ensures { IfOk result (λ v. v.items ≡ replicate 32 Nothing) }
{
    let mut items = Vec::with_capacity(alloc, SLOTS)?;
    for _k in 0..SLOTS {
        items.push_reserved(Item::Nothing);
    }
    Ok(items)
}

impl Slots {
    /// Free slots for the tasks of a graph, and the keeper's seat.
    pub(crate) fn new(alloc: Global, graph: &Graph) -> Result<(Slots, Seat<Item, View>), AllocError>
        ensures graph { IfOk result (λ r. r.0.table.shared.key ≡ graph.now) }
        ensures seat { IfOk result (λ r. IsSeatOf r.0.table.shared.table_id r.1
            × (r.1.me.0 ≡ keeper_first graph.now)) }
    {
        let items = nothings(alloc)?;
        let words = [0u64; SLOTS];
        let (table, seat) = Table::new(alloc, &words, items, graph).map_err(|_| AllocError)?;
        Ok((Slots { table }, seat))
    }

    /// Splits the seat of a hand off the keeper's.
    pub(crate) fn split(&self, keeper: &mut Seat<Item, View>) -> Seat<Item, View>
        requires { IsSeatOf self.now.table.shared.table_id keeper.old }
        ensures keeper { (keeper.new.table_id ≡ keeper.old.table_id)
            × (keeper.new.me ≡ keeper.old.me) }
        ensures hand { IsSeatOf self.now.table.shared.table_id result
            × (result.me.0 ≡ hand_first keeper.old.me.0.graph) }
    {
        self.table.shared.split_seat::<NewHand>(keeper)
    }

    /// Joins the seat of a hand to the keeper's.
    pub(crate) fn join(&self, keeper: &mut Seat<Item, View>, hand: Seat<Item, View>)
        requires { IsSeatOf self.now.table.shared.table_id keeper.old
            × IsSeatOf self.now.table.shared.table_id hand }
        ensures { (keeper.new.table_id ≡ keeper.old.table_id) × (keeper.new.me ≡ keeper.old.me) }
    {
        self.table.shared.join_seat::<Leaves>(keeper, hand);
    }

    /// Puts a task into a free slot.
    pub(crate) fn place_at(
        &self,
        keeper: &mut Seat<Item, View>,
        slot: usize,
        number: u64,
        task: Task,
    )
        requires seat { IsSeatOf self.now.table.shared.table_id keeper.old
            × IsKeeperView keeper.old.me.0 }
        requires slot { (slot < 32) × ((part slot keeper.old.me.0).out ≡ None)
            × ((part slot keeper.old.me.0).holds ≡ false) }
        requires number { number < 2 ^ 62 }
        ensures seat { IsSeatOf self.now.table.shared.table_id keeper.new
            × IsKeeperView keeper.new.me.0 }
        ensures out { ((part slot keeper.new.me.0).out ≡ Some (number, task))
            × ((part slot keeper.new.me.0).holds ≡ false) }
        ensures others { SameElse slot keeper.old.me.0 keeper.new.me.0 }
        ensures graph { keeper.new.me.0.graph ≡ keeper.old.me.0.graph }
    {
        self.table.shared.load::<TakeFree>(keeper, slot);
        self.table.shared.exchange(keeper, slot, Item::Placed(task));
        self.table
            .shared
            .store::<PutReady>(keeper, slot, number * 4 + 1);
    }

    /// Tries to claim the task of a slot. Returns the number of its placement, and the task.
    pub(crate) fn claim_at(&self, hand: &mut Seat<Item, View>, slot: usize) -> Option<(u64, Task)>
        requires seat { IsSeatOf self.now.table.shared.table_id hand.old
            × IsHandView hand.old.me.0 }
        requires slot { slot < 32 }
        ensures seat { IsSeatOf self.now.table.shared.table_id hand.new × IsHandView hand.new.me.0 }
        ensures none { IfNone result (Unready slot hand.old.me.0 hand.new.me.0) }
        ensures some { IfSome result (λ t. (t.0 < 2 ^ 62) × ((part slot hand.old.me.0).mine ≡ None)
            × Holds slot t.0 t.1 hand.new.me.0) }
        ensures others { SameElse slot hand.old.me.0 hand.new.me.0 }
        ensures graph { hand.new.me.0.graph ≡ hand.old.me.0.graph }
    {
        let word = self.table.shared.load::<Look>(hand, slot);
        if word % 4 != 1 {
            return None;
        }
        let number = word / 4;
        let found = self
            .table
            .shared
            .compare_exchange::<Try>(hand, slot, number * 4 + 1, number * 4 + 2);
        if found != number * 4 + 1 {
            return None;
        }
        let item = self.table.shared.exchange(hand, slot, Item::Nothing);
        self.table.shared.load::<GiveBack>(hand, slot);
        match item {
            Item::Placed(task) => Some((number, task)),
            _ => unreachable!(),
        }
    }

    /// Hands in the result of the task that the hand claimed there.
    pub(crate) fn finish_at(
        &self,
        hand: &mut Seat<Item, View>,
        slot: usize,
        number: u64,
        done: Done,
    )
        requires seat { IsSeatOf self.now.table.shared.table_id hand.old
            × IsHandView hand.old.me.0 }
        requires claimed { (slot < 32) × (number < 2 ^ 62)
            × Holds slot number done.task hand.old.me.0 }
        requires done { IsResultOf hand.old.me.0.graph done }
        ensures seat { IsSeatOf self.now.table.shared.table_id hand.new × IsHandView hand.new.me.0 }
        ensures given { ((part slot hand.new.me.0).mine ≡ None)
            × ((part slot hand.new.me.0).holds ≡ false) }
        ensures others { SameElse slot hand.old.me.0 hand.new.me.0 }
        ensures graph { hand.new.me.0.graph ≡ hand.old.me.0.graph }
    {
        self.table.shared.load::<TakeAgain>(hand, slot);
        self.table.shared.exchange(hand, slot, Item::Finished(done));
        self.table
            .shared
            .store::<PutDone>(hand, slot, number * 4 + 3);
    }

    /// Collects the result of the task that was placed in a slot under this number; `None` if it isn't done yet.
    pub(crate) fn collect_at(
        &self,
        keeper: &mut Seat<Item, View>,
        slot: usize,
        number: u64,
    ) -> Option<Done>
        requires seat { IsSeatOf self.now.table.shared.table_id keeper.old
            × IsKeeperView keeper.old.me.0 }
        requires slot { (slot < 32) × ((part slot keeper.old.me.0).holds ≡ false) }
        requires out { (number < 2 ^ 62)
            × ((task : Task) × ((part slot keeper.old.me.0).out ≡ Some (number, task))) }
        ensures seat { IsSeatOf self.now.table.shared.table_id keeper.new
            × IsKeeperView keeper.new.me.0 × ((part slot keeper.new.me.0).holds ≡ false) }
        ensures some { IfSome result (λ d. ((part slot keeper.old.me.0).out ≡ Some (number, d.task))
            × ((g : Graph) → keeper.old.me.0.graph ≡ Some g → IsResult g d)
            × ((part slot keeper.new.me.0).out ≡ None)) }
        ensures none { IfNone result (((part slot keeper.new.me.0).out
            ≡ (part slot keeper.old.me.0).out)
            × ((part slot keeper.new.me.0).loads ≡ (part slot keeper.old.me.0).loads + 1)
            × ((part slot keeper.new.me.0).last % 4 ≢ 3)) }
        ensures others { SameElse slot keeper.old.me.0 keeper.new.me.0 }
        ensures graph { keeper.new.me.0.graph ≡ keeper.old.me.0.graph }
    {
        let word = self.table.shared.load::<LookDone>(keeper, slot);
        if word % 4 != 3 {
            return None;
        }
        let item = self.table.shared.exchange(keeper, slot, Item::Nothing);
        self.table.shared.store::<PutFree>(keeper, slot, number * 4);
        match item {
            Item::Finished(done) => Some(done),
            _ => unreachable!(),
        }
    }
}
