//! Workers' hands at the boards of platforms.

ghost use Rattle.pt_pool.specs.LinkedPlatform.{plan_graph};
ghost use Rattle.std.specs.Prelude.{◌≡◌, Some};
ghost use Rattle.std.specs.Arc.{arc_value};
ghost use Rattle.pt_board.specs.Hands.{HoldsNone};

use crate::work::firing::Firing;
use crate::work::threads::Gate;
use pt_blocks::Blocks;
use pt_board::{Board, Hand};
use pt_pool::Run;
use pt_pool::station::Boards;
use std::marker::{Model, PhantomData};
use std::sync::Arc;

/// A worker's hand at the board of one platform. It holds no ticket between calls. Contracts see the platform's number.
#[derive(Drop)]
pub(crate) struct WorkerHand<J: Run, B: Boards> {
    board: Arc<Board>,
    hand: Hand,
    platform: u32,
    of: PhantomData<J>,
    at: PhantomData<B>,
}

impl<J: Run, B: Boards> Model for WorkerHand<J, B> {
    ghost use Rattle.std.specs.Prelude.{ℕ};
    ghost use Rattle.std.specs.Arc.{arc_value};
    ghost use Rattle.pt_pool.specs.LinkedPlatform.{plan_graph};
    ghost use Rattle.pt_workers.specs.Working.WorkerHands.{IsWorkerHand};

    ghost Value = { ℕ };

    ghost view = { λ h. h.platform };

    ghost invariant = { λ h. IsWorkerHand (plan_graph J.plan) B.table h.platform
        (arc_value h.board) h.hand };
}

impl<J: Run, B: Boards> WorkerHand<J, B> {
    /// From a hand of this board that holds no ticket.
    pub(crate) fn new(board: Arc<Board>, hand: Hand, platform: u32) -> WorkerHand<J, B>
        requires table { (hand.table ≡ (arc_value board).table) × (hand.table ≡ B.table platform) }
        requires graph { hand.knows.graph ≡ Some (plan_graph J.plan) }
        requires none { HoldsNone hand }
        ensures { result ≡ platform }
    {
        WorkerHand {
            board,
            hand,
            platform,
            of: PhantomData,
            at: PhantomData,
        }
    }

    /// The number of its platform.
    pub(crate) fn platform(&self) -> u32
        ensures { result ≡ self.now }
    {
        self.platform
    }

    /// Claims a task, fires it and hands in its result. `false` if no task was found ready.
    pub(crate) fn serve<G: Gate>(&mut self, firing: &Firing<J>, blocks: &Blocks, gate: &G) -> bool
        ensures { self.new ≡ self.old }
    {
        let Some(ticket) = self.board.claim(&mut self.hand) else {
            return false;
        };
        gate.at(self.platform, ticket.task().number);
        let done = firing.fire(blocks, ticket.task());
        self.board.finish(&mut self.hand, ticket, done);
        true
    }

    /// Its hand, which holds no ticket.
    pub(crate) fn into_hand(self) -> Hand
        ensures table { result.table ≡ B.table self }
        ensures none { HoldsNone result }
    {
        self.hand
    }
}
