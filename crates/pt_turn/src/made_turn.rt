//! A turn, run and recorded.

ghost use Rattle.std.specs.Prelude.{◌≡◌, ◌+◌, ◌*◌, ◌<◌, ◌≤◌, ◌++◌, ℕ, None, Some, length};
ghost use Rattle.pt_semantics.specs.Kept.{kept_with};
ghost use Rattle.pt_turn.specs.Fields.State.{left_in, rows_at_sensors, IsSound};
ghost use Rattle.pt_turn.specs.Fields.Sensors.{AreSensors};
ghost use Rattle.pt_turn.specs.Posts.Posted.{ArePlaces};
ghost use Rattle.pt_turn.specs.Takes.Taken.{Basis};
ghost use Rattle.pt_turn.specs.declared.claim_step.TurnEnd.TheVariants.{Late};
ghost use Rattle.pt_turn.specs.Faults.{IsFaultOf, SomeIsLate};
ghost use Rattle.pt_turn.specs.Steps.{AreEmpty, NoneSeenBefore, turn_of};
ghost use Rattle.pt_turn.specs.Making.{CanKeep, IsRecordedTurn, IsReady};
ghost use Rattle.pt_turn.specs.Platforms.{messages_of};
ghost use Rattle.pt_turn.specs.TakenEnds.{MarksEnds};

use crate::fault::TurnFault;
use crate::kept_turn::keep;
use crate::progress::{Progress, Setup};
use crate::steps::turn;
use crate::turn_fault::fault_of;
use crate::{Lists, TurnEnd};
use pt_actors::{Done, Tasks};
use pt_history::History;
use pt_offsets::Plan;
use pt_tags::Reading;
use pt_types::OnLink;

/// Makes a turn at a reading (in microseconds) that is not before the last, records it, and appends its claims to `tasks`.
/// If the turn has a fault, notes it in `progress`, where there is none yet. Allocates nothing.
pub fn make(
    progress: &mut Progress,
    setup: &Setup<'_>,
    reading: Reading,
    dones: &[Done],
    messages: &[OnLink],
    most: usize,
    tasks: &mut Tasks,
)
    ghost basis: { Basis }
    requires ready { IsReady setup.now.plan.now basis setup.now.number setup.now.closing reading most
        dones.now messages.now progress.old.fields progress.old.lists }
    requires keep { CanKeep setup.now.plan.now reading (length dones.now)
        (length messages.now) most progress.old.fields progress.old.history.room }
    requires tasks { most ≤ tasks.old.spare }
    requires no_fault { progress.old.fault ≡ None }
    requires next_row { NoneSeenBefore progress.old.next_row
        (left_in progress.old.fields.sensors.items) }
    requires ended { MarksEnds (length setup.now.plan.now.graph.links) progress.old.ended
        (messages_of progress.old.history.turns) }
    ensures kept { IsRecordedTurn setup.now.plan.now basis reading most dones.now messages.now
        progress.old.fields progress.new.fields progress.old.history.turns
        progress.new.history.turns tasks.old.tasks tasks.new.tasks progress.new.fault }
    ensures sound { IsSound setup.now.plan.now.graph progress.new.fields }
    ensures sensors { AreSensors setup.now.plan.now.graph progress.new.fields.sensors.items }
    ensures all_rows { (a : ℕ) → rows_at_sensors progress.new.fields.sensors.items a
        ≡ rows_at_sensors progress.old.fields.sensors.items a }
    ensures reading { progress.new.fields.reading ≡ Some reading }
    ensures claims { progress.new.fields.claims ≤ setup.now.plan.now.graph.claims }
    ensures empty { AreEmpty progress.new.lists }
    ensures outbox { length progress.new.fields.outbox.items
        ≤ length progress.old.fields.outbox.items
        + length dones.now * length setup.now.plan.now.graph.links
        + length setup.now.plan.now.graph.links }
    ensures sent { progress.new.history.room.sent ≡ progress.old.history.room.sent }
    ensures next_row { NoneSeenBefore progress.new.next_row
        (left_in progress.new.fields.sensors.items) }
    ensures ended { MarksEnds (length setup.now.plan.now.graph.links) progress.new.ended
        (messages_of progress.new.history.turns) }
{
    let last = progress.fields.reading;
    let ending = turn(
        &mut progress.fields,
        setup,
        reading,
        dones,
        messages,
        most,
        &mut progress.lists,
        &mut progress.next_row,
    );
    progress.ended.mark(progress.lists.taken.as_slice());
    match ending {
        TurnEnd::On => keep(
            &mut progress.history,
            reading,
            dones,
            &mut progress.lists,
            tasks,
        ),
        _ => {
            progress.fault = keep_last(
                setup.plan,
                ending,
                last,
                &mut progress.history,
                reading,
                dones,
                &mut progress.lists,
                tasks,
            );
        }
    }
}

/// Records the last turn of a platform, as `keep` does, and returns its fault: its ending is not `On`. Not inlined, since it
/// is called once at most.
#[inline(never)]
fn keep_last(
    plan: &Plan,
    ending: TurnEnd,
    last: Option<u64>,
    history: &mut History,
    reading: Reading,
    dones: &[Done],
    lists: &mut Lists,
    tasks: &mut Tasks,
) -> Option<TurnFault>
    requires late { ending ≡ Late → SomeIsLate plan.now.graph last lists.old.taken.items }
    requires turns { 0 < history.old.room.turns }
    requires posted { length lists.old.posted.items ≤ history.old.room.posted }
    requires places { ArePlaces dones.now lists.old.posted.items }
    requires rows { length lists.old.rows.items ≤ history.old.room.rows }
    requires taken { length lists.old.taken.items ≤ history.old.room.taken }
    requires claimed { length lists.old.claimed.items ≤ history.old.room.claimed }
    requires tasks { length lists.old.claimed.items ≤ tasks.old.spare }
    ensures fault { IsFaultOf plan.now.graph last lists.old.taken.items ending result }
    ensures turns { history.new.turns
        ≡ kept_with history.old.turns (turn_of reading dones.now lists.old) }
    ensures sent { history.new.room.sent ≡ history.old.room.sent }
    ensures tasks { tasks.new.tasks ≡ tasks.old.tasks ++ lists.old.claimed.items }
    ensures empty { AreEmpty lists.new }
{
    let fault = fault_of(plan, ending, last, lists.taken.as_slice());
    keep(history, reading, dones, lists, tasks);
    fault
}
