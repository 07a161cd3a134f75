//! Claiming one unit, and all the claims of a turn.

ghost use Rattle.std.specs.Prelude.{IfSome, ◌≡◌, ◌+◌, ◌<◌, ◌≤◌, ◌∷◌, [], None, false, true, List as Sequence, length, vec_len, vec_capacity};
ghost use Rattle.pt_types.specs.declared.firing.OnLink.{OnLink};
ghost use Rattle.pt_semantics.specs.Claiming.{after_claim};
ghost use Rattle.pt_semantics.specs.Units.{HasEvent};
ghost use Rattle.pt_causality.specs.Delays.{IsUnit};
ghost use Rattle.pt_offsets.specs.Plans.{IsAdmitted};
ghost use Rattle.pt_queue.specs.Events.{waiting_in};
ghost use Rattle.pt_turn.specs.Fields.State.{busy_in, state_of, states_in, IsSound};
ghost use Rattle.pt_turn.specs.Claims.Claimed.{AreClaimed, IsTaskOf, OthersStay};
ghost use Rattle.pt_turn.specs.Claims.Fronts.{AreBothSafe, AreFront};
ghost use Rattle.pt_turn.specs.Claiming.{IsIdle};

use crate::claim::front::{Front, Several, alone};
use crate::claim::none_safe::none_safe_before;
use crate::state::{Fields, OpenClaim};
use pt_offsets::Plan;
use pt_queue::Waiting;
use pt_tags::Reading;
use pt_types::{Task, Unit};

/// The state of an actor.
fn state_at(states: &[i64], actor: u32) -> i64
    requires there { actor < length states.now }
    ensures { result ≡ states_in states.now actor }
{
    states[actor as usize]
}

/// A task of a unit, as an open claim.
fn open_claim(unit: Unit, task: &Task) -> OpenClaim
    ensures { result ≡ record { unit = unit; task = task.now } }
{
    OpenClaim { unit, task: *task }
}

/// For the proof alone: a plan is admitted, so its graph's number of claims has a limit.
#[inline(always)]
fn show_admitted(plan: &Plan)
    ensures { IsAdmitted plan.now }
{
    let _ = plan.graph();
}

/// Claims the events of a unit at a tag: makes them an open claim, and returns its task. Allocates nothing.
#[inline(always)]
pub fn claim(fields: &mut Fields, plan: &Plan, next: Waiting) -> Task
    requires sound { IsSound plan.now.graph fields.old }
    requires unit { IsUnit plan.now.graph next.unit }
    requires event { HasEvent plan.now.graph
        (waiting_in fields.old.queue.events) next.unit next.tag }
    requires free { busy_in fields.old.open_claims.items next.unit ≡ None }
    requires room { 0 < fields.old.open_claims.spare }
    requires claims { fields.old.claims < plan.now.graph.claims }
    ensures task { IsTaskOf plan.now.graph fields.old next.unit next.tag result }
    ensures after { (taken : Sequence OnLink) →
        state_of fields.new taken ≡ after_claim plan.now.graph
        (state_of fields.old taken) next.unit result }
    ensures sound { IsSound plan.now.graph fields.new }
    ensures others { OthersStay fields.old fields.new }
    ensures claims { fields.new.claims ≡ fields.old.claims + 1 }
    ensures open_claims { fields.new.open_claims.spare + 1 ≡ fields.old.open_claims.spare }
{
    let task = Task {
        number: fields.claims,
        actor: next.unit.actor,
        tag: next.tag,
        inputs: fields.queue.take(next.unit, next.tag),
        state: state_at(fields.states.as_slice(), next.unit.actor),
    };
    fields.open_claims.add(open_claim(next.unit, &task));
    show_admitted(plan);
    fields.claims += 1;
    fields.none_safe_before = 0;
    task
}

/// Claims safe units, each time the one with the least tag, actor and group, and appends their tasks.
/// (The order is this project's own choice.)
///
/// No unit is asked where none is known to be safe: after a search that left none, until something changes or another unit is due.
///
/// Stops once no unit is safe at this reading (in microseconds), after `most` claims, or when the platform has made all
/// that the graph allows. Allocates nothing.
pub fn claims(
    fields: &mut Fields,
    plan: &Plan,
    reading: Reading,
    most: usize,
    tasks: &mut Vec<Task>,
)
    requires sound { IsSound plan.now.graph fields.old }
    requires claims { fields.old.claims ≤ plan.now.graph.claims }
    requires room { most ≤ fields.old.open_claims.spare }
    requires tasks { vec_len tasks.old + most ≤ vec_capacity tasks.old }
    ensures claimed { AreClaimed plan.now.graph reading most fields.old fields.new tasks.old.items
        tasks.new.items }
    ensures sound { IsSound plan.now.graph fields.new }
    ensures others { OthersStay fields.old fields.new }
    ensures tasks { vec_capacity tasks.old ≤ vec_capacity tasks.new }
{
    if reading < fields.none_safe_before {
        return;
    }
    let before = tasks.len();
    if !claim_safe(fields, plan, reading, most, tasks) {
        return;
    }
    let claimed = before < tasks.len();
    fields.none_safe_before = none_safe_before(fields, plan, reading, claimed);
}

/// Claims safe units, as `claims` does, and returns whether none is left; it may say `false` of none.
///
/// If few units have events it is first tried whether only one of them is safe: to clear a front takes longer.
fn claim_safe(
    fields: &mut Fields,
    plan: &Plan,
    reading: Reading,
    most: usize,
    tasks: &mut Vec<Task>,
) -> bool
    requires sound { IsSound plan.now.graph fields.old }
    requires claims { fields.old.claims ≤ plan.now.graph.claims }
    requires room { most ≤ fields.old.open_claims.spare }
    requires tasks { vec_len tasks.old + most ≤ vec_capacity tasks.old }
    ensures claimed { AreClaimed plan.now.graph reading most fields.old fields.new tasks.old.items
        tasks.new.items }
    ensures idle { result ≡ true → IsIdle plan.now.graph fields.new reading }
    ensures sound { IsSound plan.now.graph fields.new }
    ensures others { OthersStay fields.old fields.new }
    ensures tasks { vec_capacity tasks.old ≤ vec_capacity tasks.new }
{
    if fields.queue.are_many() {
        return claim_several(fields, plan, reading, most, None, tasks);
    }
    match alone(fields, plan, reading) {
        Ok(None) => true,
        Ok(Some(next)) => claim_alone(fields, plan, reading, most, next, tasks),
        Err(several) => claim_several(fields, plan, reading, most, Some(several), tasks),
    }
}

/// Claims the only safe unit, unless `most` is 0 or the platform has made all its claims; returns whether it did.
fn claim_alone(
    fields: &mut Fields,
    plan: &Plan,
    reading: Reading,
    most: usize,
    next: Waiting,
    tasks: &mut Vec<Task>,
) -> bool
    requires sound { IsSound plan.now.graph fields.old }
    requires claims { fields.old.claims ≤ plan.now.graph.claims }
    requires room { most ≤ fields.old.open_claims.spare }
    requires tasks { vec_len tasks.old + most ≤ vec_capacity tasks.old }
    requires front { AreFront plan.now.graph (waiting_in fields.old.queue.events)
        (busy_in fields.old.open_claims.items) reading false (next ∷ []) }
    ensures claimed { AreClaimed plan.now.graph reading most fields.old fields.new tasks.old.items
        tasks.new.items }
    ensures idle { result ≡ true → IsIdle plan.now.graph fields.new reading }
    ensures sound { IsSound plan.now.graph fields.new }
    ensures others { OthersStay fields.old fields.new }
    ensures tasks { vec_capacity tasks.old ≤ vec_capacity tasks.new }
{
    if most == 0 || fields.claims >= plan.graph().claims {
        return false;
    }
    let task = claim(fields, plan, next);
    tasks.push_reserved(task);
    true
}

/// Claims safe units in order, as `claims` does, however many they are, and returns whether none is left; it may say `false` of
/// none. Two of them may be `known` already.
fn claim_several(
    fields: &mut Fields,
    plan: &Plan,
    reading: Reading,
    most: usize,
    known: Option<Several>,
    tasks: &mut Vec<Task>,
) -> bool
    requires sound { IsSound plan.now.graph fields.old }
    requires claims { fields.old.claims ≤ plan.now.graph.claims }
    requires room { most ≤ fields.old.open_claims.spare }
    requires tasks { vec_len tasks.old + most ≤ vec_capacity tasks.old }
    requires known { IfSome known (AreBothSafe plan.now.graph (waiting_in fields.old.queue.events)
        (busy_in fields.old.open_claims.items) reading) }
    ensures claimed { AreClaimed plan.now.graph reading most fields.old fields.new tasks.old.items
        tasks.new.items }
    ensures idle { result ≡ true → IsIdle plan.now.graph fields.new reading }
    ensures sound { IsSound plan.now.graph fields.new }
    ensures others { OthersStay fields.old fields.new }
    ensures tasks { vec_capacity tasks.old ≤ vec_capacity tasks.new }
{
    let mut front = Front::new();
    front.refill(fields, plan, reading, known, most);
    for _ in 0..most {
        if fields.claims >= plan.graph().claims {
            return false;
        }
        match front.take(fields, plan, reading) {
            None => return true,
            Some(next) => {
                let task = claim(fields, plan, next);
                tasks.push_reserved(task);
            }
        }
    }
    false
}
