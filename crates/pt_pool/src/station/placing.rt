//! Places tasks on a board.

ghost use Rattle.std.specs.Prelude.{◌≡◌, ◌+◌, ◌≤◌, ◌^◌, length};
ghost use Rattle.pt_pool.specs.Stations.Stations.{HavePlaced};

use pt_actors::Tasks;
use pt_board::{Board, Keeper};
use pt_types::Task;

/// Places tasks into free slots, in order. Those for which no slot is free are added to `left`.
pub(crate) fn place_all(board: &Board, keeper: &mut Keeper, tasks: &[Task], left: &mut Tasks)
    requires table { keeper.old.table ≡ board.now.table }
    requires numbers { keeper.old.next + length tasks.now ≤ 2 ^ 62 }
    requires room { length tasks.now ≤ left.old.spare }
    ensures { HavePlaced tasks.now keeper.old keeper.new left.old.tasks left.new.tasks }
{
    for k in 0..tasks.len() {
        if let Err(task) = board.place(keeper, tasks[k]) {
            left.push(task);
        }
    }
}
