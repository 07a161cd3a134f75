//! Collects results from a board.

ghost use Rattle.std.specs.Prelude.{◌≡◌, ◌+◌, ◌≤◌, ◌++◌, List, vec_len, vec_capacity};
ghost use Rattle.pt_types.specs.declared.firing.Done.{Done as Whole};
ghost use Rattle.pt_pool.specs.Stations.Stations.{HaveCollected};

use pt_actors::Done;
use pt_board::{Board, Keeper};

/// The greatest number of results that one visit collects: a board has 32 slots.
pub(crate) const RESULTS_A_VISIT: usize = 32;

/// Collects results until none is found done, or 32 were collected.
pub(crate) fn collect_all(board: &Board, keeper: &mut Keeper, results: &mut Vec<Done>)
    requires table { keeper.old.table ≡ board.now.table }
    requires room { vec_len results.old + 32 ≤ vec_capacity results.old }
    ensures { (ds : List Whole) × HaveCollected keeper.old keeper.new ds
        × (results.new.items ≡ results.old.items ++ ds) }
{
    for _k in 0..RESULTS_A_VISIT {
        let Some(done) = board.collect(keeper) else {
            return;
        };
        results.push_reserved(done);
    }
}
