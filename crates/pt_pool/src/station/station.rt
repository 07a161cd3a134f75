//! A linked platform with its board.

ghost use Rattle.std.specs.Prelude.{◌≡◌, ◌+◌, ◌≤◌, ◌<◌, ◌++◌, ◌∷◌, [], IfOk, OnErr, OnOk, None, Some, length};
ghost use Rattle.std.specs.Arc.{arc_value};
ghost use Rattle.pt_turn.specs.Posts.Posted.{IsDone};
ghost use Rattle.pt_board.specs.Hands.{HoldsNone};
ghost use Rattle.pt_pool.specs.LinkedPlatform.{plan_graph};
ghost use Rattle.pt_pool.specs.Stations.Stations.{StationAnswers};

use crate::station::boards::Boards;
use crate::station::visiting::visit_over;
use crate::{LinkedPlatform, Run, VisitFault};
use pt_actors::{Done, Tasks};
use pt_board::{Board, Hand, Keeper};
use pt_io::Clock;
use pt_tags::Memory;
use pt_turn::Platform;
use std::alloc::Global;
use std::marker::{Model, PhantomData};
use std::sync::{Arc, Wait};

/// A linked platform of a run with its board and the board's keeper, and the results that wait for the next visit.
#[derive(Drop)]
pub struct Station<J: Run, B: Boards, C: Clock> {
    linked: LinkedPlatform<J, C>,
    board: Arc<Board>,
    keeper: Keeper,
    results: Vec<Done>,
    /// What the last visit claimed.
    claimed: Tasks,
    of: PhantomData<B>,
}

impl<J: Run, B: Boards, C: Clock> Model for Station<J, B, C> {
    ghost use Rattle.std.specs.Arc.{arc_value};
    ghost use Rattle.pt_pool.specs.Stations.Stations.{IsStation, StationView};

    ghost Value = { StationView };

    ghost view = { λ s. record {
      linked = s.linked;
      keeper = s.keeper;
      results = s.results.items;
    } };

    ghost invariant = { λ s. IsStation J.plan B.table
        (arc_value s.board) s.linked s.keeper s.results.items };
}

impl<J: Run, B: Boards, C: Clock> Station<J, B, C> {
    /// A linked platform with its board, on which nothing was placed yet. Allocates nothing.
    pub fn new(
        alloc: Global,
        linked: LinkedPlatform<J, C>,
        board: Arc<Board>,
        keeper: Keeper,
    ) -> Station<J, B, C>
        requires table { (keeper.table ≡ (arc_value board).table)
            × (keeper.table ≡ B.table linked.platform.number) }
        requires graph { keeper.knows.graph ≡ Some (plan_graph J.plan) }
        requires none { keeper.next ≡ 0 }
        ensures { result ≡ record { linked = linked; keeper = keeper; results = [] } }
    {
        Station {
            linked,
            board,
            keeper,
            results: Vec::new(alloc),
            claimed: Tasks::new(alloc),
            of: PhantomData,
        }
    }

    /// Its platform.
    pub fn platform(&self) -> &Platform
        ensures platform { result.now ≡ self.now.linked.platform }
        ensures below { result.now.number < length (plan_graph J.plan).platforms }
        ensures plan { J.plan ≡ Some result.now.plan }
    {
        self.linked.platform()
    }

    /// Whether a visit gave up because memory ran out.
    pub fn marked(&self) -> bool
        ensures { result ≡ self.now.linked.marked }
    {
        self.linked.marked()
    }

    /// Whether the readings of its clock rise by themselves, so that a worker with nothing to do may let time pass.
    pub fn rises_by_itself(&self) -> bool {
        self.linked.rises_by_itself()
    }

    /// Its board, which other threads share.
    pub fn board(&self) -> &Arc<Board>
        ensures { (arc_value result.now).table ≡ B.table self.now.linked.platform.number }
    {
        &self.board
    }

    /// A new hand at its board, which holds no ticket.
    pub fn hand(&mut self) -> Hand
        ensures same { self.new ≡ self.old }
        ensures table { result.table ≡ B.table self.old.linked.platform.number }
        ensures graph { result.knows.graph ≡ Some (plan_graph J.plan) }
        ensures none { HoldsNone result }
    {
        self.board.hand(&mut self.keeper)
    }

    /// Takes back a hand of its board that holds no ticket.
    pub fn leave(&mut self, hand: Hand)
        requires table { hand.table ≡ B.table self.old.linked.platform.number }
        requires none { HoldsNone hand }
        ensures { self.new ≡ self.old }
    {
        self.board.leave(&mut self.keeper, hand);
    }

    /// Keeps a result for the next visit. If memory runs out, nothing is changed.
    pub fn keep(&mut self, done: Done) -> Result<(), Memory>
        requires { IsDone (plan_graph J.plan) done }
        ensures kept { OnOk result (self.new
            ≡ record self.old { results = self.old.results ++ done ∷ [] }) }
        ensures unchanged { OnErr result (self.new ≡ self.old) }
    {
        self.results.push(done)?;
        Ok(())
    }

    /// Visits the station once, in three steps: collects results from the board until none is found done or 32 were collected;
    /// visits the linked platform with the results that were kept before and then these; and places the tasks that it claimed on the
    /// board. Tasks for which no slot is free are added to `tasks`.
    ///
    /// If 2 results wait and 3 are found done on the board, the turn posts all 5.
    ///
    /// If memory runs out, no turn is made, the station is marked, and what was collected is kept for the next visit.
    pub fn visit<R: Wait>(
        &mut self,
        rt: &R,
        alloc: Global,
        most: usize,
        tasks: &mut Tasks,
    ) -> Result<(), VisitFault>
        requires no_fault { self.old.linked.platform.fault ≡ None }
        requires most { (1 ≤ most) × (most ≤ 32) }
        ensures answer { StationAnswers result most
            (plan_graph J.plan) self.old.linked self.new.linked self.old.keeper self.new.keeper
            self.old.results self.new.results tasks.old.tasks tasks.new.tasks }
        ensures number { self.new.linked.platform.number ≡ self.old.linked.platform.number }
    {
        visit_over(
            rt,
            alloc,
            &mut self.linked,
            &self.board,
            &mut self.keeper,
            &mut self.results,
            &mut self.claimed,
            most,
            tasks,
        )
    }

    /// Its linked platform, without the board. Tasks and results that are still on the board are lost.
    pub fn into_linked(self) -> LinkedPlatform<J, C>
        ensures { result ≡ self.linked }
    {
        self.linked
    }
}
