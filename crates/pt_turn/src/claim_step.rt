//! What a turn claims, and how it ends.

ghost use Rattle.std.specs.Prelude.{◌≡◌, ◌+◌, ◌≤◌, vec_len, vec_capacity};
ghost use Rattle.pt_turn.specs.Claims.Claimed.{OthersStay};
ghost use Rattle.pt_turn.specs.Fields.State.{IsSound};
ghost use Rattle.pt_turn.specs.Claiming.{HasClaimed, EndsFull};

use crate::claim::{claims, next_safe};
use crate::state::Fields;
use pt_offsets::Plan;
use pt_tags::Reading;
use pt_types::Task;

/// Whether other turns may follow a turn, and if not, why.
#[derive(Clone, Copy, Debug, PartialEq, Eq)]
pub enum TurnEnd {
    /// Other turns may follow.
    On,
    /// The last message taken was late.
    Late,
    /// All claims had been made before the turn, and a unit is safe.
    Long,
}

/// Claims at most `most` safe units, unless a message was late, and returns how the turn ends.
pub fn claim_unless(
    late: bool,
    fields: &mut Fields,
    plan: &Plan,
    reading: Reading,
    most: usize,
    tasks: &mut Vec<Task>,
) -> TurnEnd
    requires sound { IsSound plan.now.graph fields.old }
    requires claims { fields.old.claims ≤ plan.now.graph.claims }
    requires room { most ≤ fields.old.open_claims.spare }
    requires tasks { vec_len tasks.old + most ≤ vec_capacity tasks.old }
    ensures claimed { HasClaimed plan.now.graph reading most fields.old fields.new tasks.old.items
        tasks.new.items late result }
    ensures sound { IsSound plan.now.graph fields.new }
    ensures others { OthersStay fields.old fields.new }
    ensures tasks { vec_capacity tasks.old ≤ vec_capacity tasks.new }
{
    if late {
        return TurnEnd::Late;
    }
    if fields.claims >= plan.graph().claims {
        return full(fields, plan, reading);
    }
    claims(fields, plan, reading, most, tasks);
    TurnEnd::On
}

/// How a turn ends if all claims were made before it.
fn full(fields: &Fields, plan: &Plan, reading: Reading) -> TurnEnd
    requires sound { IsSound plan.now.graph fields.now }
    ensures { EndsFull plan.now.graph fields.now reading result }
{
    match next_safe(fields, plan, reading) {
        None => TurnEnd::On,
        Some(_) => TurnEnd::Long,
    }
}
