//! Hands, which claim tasks and finish them.
ghost use Rattle.std.specs.Prelude.{◌≡◌, ◌<◌, ◌^◌, [], Option, None, Some, IfSome, IfNone, MatchOption};
ghost use Rattle.pt_board.specs.Rule.{IsResultOf, hand_first, part};
ghost use Rattle.pt_types.specs.declared.graph.Graph.{Graph};
ghost use Rattle.pt_board.specs.Seats.{SameElse, Unready};
ghost use Rattle.pt_board.specs.Hands.{FoundNotReady, HoldsOneMore, HasFinished, HoldsNone, HoldsTicket, SawNoneReady};

use crate::board::Board;
use crate::keeper::Keeper;
use crate::rule::View;
use crate::slots::SLOTS;
use crate::table::Item;
use atomic_table::Seat;
use pt_actors::Done;
use pt_types::Task;
use std::marker::Model;

/// The seat of a thread that claims tasks and hands in their results.
///
/// Contracts see its board's table and what it knows: for each slot what it claimed there, and its loads and lost exchanges.
#[derive(Drop)]
pub struct Hand {
    seat: Seat<Item, View>,
}

impl Model for Hand {
    ghost use Rattle.pt_board.specs.Hands.{HandView, IsHand};

    ghost Value = { HandView };

    ghost view = { λ h. record { table = h.seat.table_id; knows = h.seat.me.0 } };

    ghost invariant = { λ h. IsHand h.seat };
}

impl Hand {
    /// A hand of a seat that was split off the keeper's.
    fn new(seat: Seat<Item, View>) -> Hand
        requires none { seat.me.1 ≡ [] }
        requires first { (g : Option Graph) × (seat.me.0 ≡ hand_first g) }
        ensures { (result.table ≡ seat.table_id) × (result.knows ≡ seat.me.0) }
    {
        Hand { seat }
    }
}

/// A claimed task, with its slot and the number of its placement. It is used up when its result is handed in.
#[derive(Drop)]
pub struct Ticket {
    slot: usize,
    number: u64,
    task: Task,
}

impl Model for Ticket {
    ghost use Rattle.std.specs.Prelude.{◌<◌, ◌^◌};
    ghost use Rattle.pt_board.specs.Hands.{TicketView};

    ghost Value = { TicketView };

    ghost view = { λ t. record { slot = t.slot; number = t.number; task = t.task } };

    ghost invariant = { λ t. (t.slot < 32) × (t.number < 2 ^ 62) };
}

impl Ticket {
    /// The task.
    pub fn task(&self) -> &Task
        ensures { result.now ≡ self.now.task }
    {
        &self.task
    }
}

impl Board {
    /// A new hand, which holds no ticket.
    pub fn hand(&self, keeper: &mut Keeper) -> Hand
        requires table { keeper.old.table ≡ self.now.table }
        ensures keeper { keeper.new ≡ keeper.old }
        ensures hand { (result.table ≡ self.now.table)
            × (result.knows.graph ≡ keeper.old.knows.graph) }
        ensures none { HoldsNone result }
    {
        let seat = self.slots.split(&mut keeper.seat);
        Hand::new(seat)
    }

    /// Takes back a hand that holds no ticket.
    pub fn leave(&self, keeper: &mut Keeper, hand: Hand)
        requires table { (keeper.old.table ≡ self.now.table) × (hand.table ≡ self.now.table) }
        requires none { HoldsNone hand }
        ensures keeper { keeper.new ≡ keeper.old }
    {
        let Hand { seat } = hand;
        self.slots.join(&mut keeper.seat, seat);
    }

    /// Claims the task of one slot; `None` if none is ready there or the exchange is lost.
    fn claim_from(&self, hand: &mut Hand, slot: usize) -> Option<Ticket>
        requires table { hand.old.table ≡ self.now.table }
        requires slot { slot < 32 }
        ensures { MatchOption result (FoundNotReady slot hand.old hand.new)
            (HoldsOneMore hand.old hand.new) }
    {
        let Some((number, task)) = self.slots.claim_at(&mut hand.seat, slot) else {
            return None;
        };
        Some(Ticket { slot, number, task })
    }

    /// Claims a ready task, in one pass over the slots with at most one exchange at each.
    ///
    /// Returns `None` only if at each slot the hand found the word not ready, or lost the exchange to another hand.
    pub fn claim(&self, hand: &mut Hand) -> Option<Ticket>
        requires table { hand.old.table ≡ self.now.table }
        ensures claimed { MatchOption result (SawNoneReady hand.old hand.new)
            (HoldsOneMore hand.old hand.new) }
    {
        for slot in 0..SLOTS {
            if let Some(ticket) = self.claim_from(hand, slot) {
                return Some(ticket);
            }
        }
        None
    }

    /// Hands in the result of a ticket's task.
    pub fn finish(&self, hand: &mut Hand, ticket: Ticket, done: Done)
        requires table { hand.old.table ≡ self.now.table }
        requires ticket { HoldsTicket hand.old ticket }
        requires done { (done.task ≡ ticket.task) × IsResultOf hand.old.knows.graph done }
        ensures finished { HasFinished hand.old hand.new ticket }
    {
        let Ticket {
            slot,
            number,
            task: _,
        } = ticket;
        self.slots.finish_at(&mut hand.seat, slot, number, done);
    }
}
