//! The five steps of a turn.

ghost use Rattle.std.specs.Prelude.{◌≡◌, ◌+◌, ◌*◌, ◌≤◌, ℕ, Some, length};
ghost use Rattle.pt_semantics.specs.Paced.{IsClosing};
ghost use Rattle.pt_turn.specs.Fields.State.{left_in, rows_at_sensors, IsSound};
ghost use Rattle.pt_turn.specs.Posts.Posted.{AreDone};
ghost use Rattle.pt_turn.specs.Fields.Sensors.{AreSensors};
ghost use Rattle.pt_turn.specs.Takes.Taken.{Arrive, Basis};
ghost use Rattle.pt_turn.specs.Steps.{AreEmpty, FitIn, HasRoom, IsGround, IsMade, NoneSeenBefore, ShowsEnd};

use crate::claim_step::{TurnEnd, claim_unless};
use crate::close::close;
use crate::enter::enter_from;
use crate::post::posts;
use crate::progress::Setup;
use crate::state::Fields;
use crate::take::takes;
use pt_actors::Done;
use pt_tags::Reading;
use pt_types::{OnLink, RowAt, Task};

/// What a turn did: the results posted, the rows entered, the messages taken, and the tasks claimed.
#[derive(Drop)]
pub struct Lists {
    /// The places of the posted results among those of the turn, counted from 0.
    pub posted: Vec<usize>,
    pub rows: Vec<RowAt>,
    pub taken: Vec<OnLink>,
    pub claimed: Vec<Task>,
}

/// Makes a turn of a platform at a reading that is not before the last, with these results and messages, and claims at most
/// `most` units. Records what it did in `lists`, which must be empty, and returns whether a turn may follow.
///
/// No row is seen by a reading below `next_row`, which is found anew if rows enter. Readings are microseconds. Allocates
/// nothing.
pub fn turn(
    fields: &mut Fields,
    setup: &Setup<'_>,
    reading: Reading,
    dones: &[Done],
    messages: &[OnLink],
    most: usize,
    lists: &mut Lists,
    next_row: &mut u64,
) -> TurnEnd
    ghost basis: { Basis }
    requires sound { IsSound setup.now.plan.now.graph fields.old }
    requires sensors { AreSensors setup.now.plan.now.graph fields.old.sensors.items }
    requires goes_on { IsGround setup.now.plan.now.graph basis fields.old }
    requires platform { basis.platform ≡ setup.now.number }
    requires closing { IsClosing setup.now.plan.now.graph setup.now.number setup.now.closing }
    requires rises { (p : ℕ) → fields.old.reading ≡ Some p → p ≤ reading }
    requires dones { AreDone setup.now.plan.now.graph dones.now }
    requires arrive { Arrive setup.now.plan.now.graph basis messages.now }
    requires most { (1 ≤ most) × (most ≤ 64) }
    requires claims { fields.old.claims ≤ setup.now.plan.now.graph.claims }
    requires room { HasRoom setup.now.plan.now.graph fields.old lists.old reading (length dones.now)
        (length messages.now) most }
    requires empty { AreEmpty lists.old }
    requires next_row { NoneSeenBefore next_row.old (left_in fields.old.sensors.items) }
    ensures sound { IsSound setup.now.plan.now.graph fields.new }
    ensures sensors { AreSensors setup.now.plan.now.graph fields.new.sensors.items }
    ensures made { IsMade setup.now.plan.now.graph basis reading most dones.now messages.now fields.old
        fields.new lists.new result }
    ensures all_rows { (a : ℕ) → rows_at_sensors fields.new.sensors.items a
        ≡ rows_at_sensors fields.old.sensors.items a }
    ensures reading { fields.new.reading ≡ Some reading }
    ensures claims { fields.new.claims ≤ setup.now.plan.now.graph.claims }
    ensures few { FitIn dones.now messages.now most setup.now.plan.now.graph reading fields.old
        lists.new }
    ensures full { ShowsEnd setup.now.plan.now.graph reading fields.new result }
    ensures outbox { length fields.new.outbox.items
        ≤ length fields.old.outbox.items
        + length dones.now * length setup.now.plan.now.graph.links
        + length setup.now.plan.now.graph.links }
    ensures next_row { NoneSeenBefore next_row.new (left_in fields.new.sensors.items) }
{
    let plan = setup.plan;
    let graph = plan.graph();
    posts(fields, graph, plan.branches(), dones, &mut lists.posted);
    let offsets = plan.offsets();
    enter_from(fields, graph, offsets, reading, next_row, &mut lists.rows);
    let late = takes(fields, graph, offsets, messages, &mut lists.taken);
    fields.reading = Some(reading);
    let ending = claim_unless(late, fields, plan, reading, most, &mut lists.claimed);
    close(fields, graph, setup.number, setup.closing, reading, late);
    ending
}
