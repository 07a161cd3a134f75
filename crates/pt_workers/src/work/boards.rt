//! New boards, and the stations and hands at them.

ghost use Rattle.pt_pool.specs.LinkedPlatform.{plan_graph};
ghost use Rattle.std.specs.Prelude.{◌≡◌, [], IfOk, Some, vec_len};
ghost use Rattle.std.specs.Arc.{arc_value};

use crate::work::firing::Firing;
use crate::work::worker_hand::WorkerHand;
use pt_board::{Board, Keeper};
use pt_io::Clock;
use pt_pool::station::{Boards, Station};
use pt_pool::{LinkedPlatform, Run};
use pt_tags::Memory;
use std::alloc::Global;
use std::marker::{Model, PhantomData};
use std::sync::Arc;

/// A board for the tasks of a run, on which nothing was placed, with its keeper. Contracts see which board it is.
#[derive(Drop)]
pub(crate) struct NewBoard<J: Run> {
    board: Arc<Board>,
    keeper: Keeper,
    of: PhantomData<J>,
}

impl<J: Run> Model for NewBoard<J> {
    ghost use Rattle.std.specs.Arc.{arc_value};
    ghost use Rattle.atomic_table.specs.Seated.{TableId};
    ghost use Rattle.pt_pool.specs.LinkedPlatform.{plan_graph};
    ghost use Rattle.pt_workers.specs.Working.WorkerHands.{IsNewBoard};

    ghost Value = { TableId };

    ghost view = { λ b. b.keeper.table };

    ghost invariant = { λ b. IsNewBoard (plan_graph J.plan) (arc_value b.board) b.keeper };
}

impl<J: Run> NewBoard<J> {
    /// A new board for the tasks of the run whose tasks `firing` fires.
    fn open(alloc: Global, firing: &Firing<J>) -> Result<NewBoard<J>, Memory> {
        let (board, keeper) = Board::new(alloc, firing.graph())?;
        let board = Arc::new(alloc, board)?;
        Ok(NewBoard {
            board,
            keeper,
            of: PhantomData,
        })
    }

    /// The station of a linked platform and this board.
    pub(crate) fn with_linked<B: Boards, C: Clock>(
        self,
        alloc: Global,
        linked: LinkedPlatform<J, C>,
    ) -> Station<J, B, C>
        requires { self ≡ B.table linked.platform.number }
        ensures { result.linked ≡ linked }
    {
        let NewBoard {
            board,
            keeper,
            of: _,
        } = self;
        Station::new(alloc, linked, board, keeper)
    }
}

/// Opens `count` new boards.
pub(crate) fn open_boards<J: Run>(
    alloc: Global,
    firing: &Firing<J>,
    count: usize,
) -> Result<Vec<NewBoard<J>>, Memory>
    ensures { IfOk result (λ v. vec_len v ≡ count) }
{
    let mut boards = Vec::with_capacity(alloc, count)?;
    for _k in 0..count {
        boards.push_reserved(NewBoard::open(alloc, firing)?);
    }
    Ok(boards)
}

/// An empty list of hands for each worker.
pub(crate) fn no_hands<J: Run, B: Boards>(
    alloc: Global,
    workers: u32,
) -> Result<Vec<Vec<WorkerHand<J, B>>>, Memory> {
    let mut all_hands = Vec::new(alloc);
    for _w in 0..workers {
        all_hands.push(Vec::new(alloc))?;
    }
    Ok(all_hands)
}

/// Gives each worker a hand at the board of a station.
pub(crate) fn staff<J: Run, B: Boards, C: Clock>(
    station: &mut Station<J, B, C>,
    all_hands: &mut [Vec<WorkerHand<J, B>>],
) -> Result<(), Memory>
    ensures { station.new ≡ station.old }
{
    let platform = station.platform().number();
    for k in 0..all_hands.len() {
        let board = Arc::try_clone(station.board())?;
        let hand = WorkerHand::new(board, station.hand(), platform);
        all_hands[k].push(hand)?;
    }
    Ok(())
}

/// Removes the last hand of each worker, and gives it back to the board of this station if it belongs there.
pub(crate) fn dismiss<J: Run, B: Boards, C: Clock>(
    station: &mut Station<J, B, C>,
    all_hands: &mut [Vec<WorkerHand<J, B>>],
)
    ensures { station.new ≡ station.old }
{
    let platform = station.platform().number();
    for k in 0..all_hands.len() {
        if let Some(hand) = all_hands[k].pop() {
            if hand.platform() == platform {
                station.leave(hand.into_hand());
            }
        }
    }
}
