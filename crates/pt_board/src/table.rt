//! The table under a board.
use crate::rule::View;
use atomic_table::TableRule;
use pt_actors::Done;
use pt_types::{Graph, Task};

/// What a slot holds.
#[derive(Clone, Copy)]
pub enum Item {
    Nothing,
    Placed(Task),
    Finished(Done),
}

/// The rule of the board.
pub struct Claims;

impl TableRule<Item, View, Graph> for Claims {
    ghost use Rattle.pt_board.specs.Rule.{BoardRule, keeper_first};

    ghost holds = { BoardRule };

    ghost first = { keeper_first };
}
