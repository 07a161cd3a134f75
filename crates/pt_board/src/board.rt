//! The board.
ghost use Rattle.std.specs.Prelude.{◌≡◌, IfOk};
ghost use Rattle.pt_board.specs.Rule.{keeper_first};

use crate::keeper::Keeper;
use crate::slots::Slots;
use pt_tags::Memory;
use pt_types::Graph;
use std::alloc::Global;
use std::marker::Model;

/// A board of 32 slots, which threads share. Contracts see which one it is, and the graph that its tasks are of.
#[derive(Drop)]
pub struct Board {
    pub(crate) slots: Slots,
}

impl Model for Board {
    ghost use Rattle.pt_board.specs.Keepers.{BoardView};

    ghost Value = { BoardView };

    ghost view = { λ b. record {
      table = b.slots.table.shared.table_id;
      graph = b.slots.table.shared.key;
    } };
}

impl Board {
    /// A board with nothing placed, and its keeper.
    pub fn new(alloc: Global, graph: &Graph) -> Result<(Board, Keeper), Memory>
        ensures board { IfOk result (λ r. r.0.graph ≡ graph.now) }
        ensures keeper { IfOk result (λ r. (r.1.table ≡ r.0.table)
            × (r.1.knows ≡ keeper_first graph.now) × (r.1.next ≡ 0)) }
    {
        let (slots, seat) = Slots::new(alloc, graph)?;
        Ok((Board { slots }, Keeper::new(seat, graph)))
    }
}
