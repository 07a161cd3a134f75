//! The rows of sensors that enter in a turn.

ghost use Rattle.std.specs.Prelude.{◌≡◌, ℕ, ◌+◌, ◌<◌, ◌≤◌, ◌++◌, ◌∷◌, [], true, false, List as Sequence, drop, length, map, vec_len, vec_capacity};
ghost use Rattle.pt_types.specs.declared.firing.OnLink.{OnLink};
ghost use Rattle.pt_semantics.specs.Entering.{after_rows, all_due, due, not_due};
ghost use Rattle.pt_semantics.specs.Floor.{NothingThere};
ghost use Rattle.pt_semantics.specs.Meaning.{added};
ghost use Rattle.pt_semantics.specs.Rows.{TimesRise};
ghost use Rattle.pt_queue.specs.Events.{waiting_in};
ghost use Rattle.pt_turn.specs.Fields.State.{state_of, left_in, rows_at_sensors, IsSound};
ghost use Rattle.pt_turn.specs.Fields.Sensors.{at_sensor, seen_at, AreSensors, NeverEnters};

use crate::state::Fields;
use pt_queue::Queue;
use pt_tags::{Reading, Tag};
use pt_types::{Event, Graph, Row, RowAt};

/// A row of a sensor enters: it becomes a waiting event, and is appended to `kept`.
fn enter_row(queue: &mut Queue, sensor: u32, row: Row, kept: &mut Vec<RowAt>)
    requires spare { 0 < queue.old.spare }
    requires actor { sensor < length queue.old.groups }
    requires kept { vec_len kept.old < vec_capacity kept.old }
    requires absent { NothingThere (waiting_in queue.old.events) (seen_at sensor (row ∷ [])) }
    ensures waits { waiting_in queue.new.events
        ≡ added (waiting_in queue.old.events) (seen_at sensor (row ∷ [])) }
    ensures spare { queue.new.spare + 1 ≡ queue.old.spare }
    ensures groups { queue.new.groups ≡ queue.old.groups }
    ensures rows { kept.new.items ≡ kept.old.items ++ at_sensor sensor row ∷ [] }
    ensures kept { (vec_capacity kept.old ≤ vec_capacity kept.new)
        × (vec_len kept.new ≡ vec_len kept.old + 1) }
{
    queue.insert(Event {
        tag: Tag {
            time: row.time,
            step: 0,
        },
        actor: sensor,
        port: 0,
        value: row.value,
    });
    match kept.push(RowAt { sensor, row }) {
        Ok(()) => (),
        Err(_) => unreachable!(),
    }
}

/// Whether there is a row at an index and it is seen by a reading, in microseconds. If not, none is due from there on.
#[inline(always)]
pub fn is_seen(rows: &[Row], index: usize, reading: Reading) -> bool
    ensures none { result ≡ false → due reading (drop index rows.now) ≡ [] }
    ensures left { result ≡ false → not_due reading (drop index rows.now) ≡ drop index rows.now }
    ensures some { result ≡ true → 0 < length (due reading (drop index rows.now)) }
{
    if rows.len() <= index {
        return false;
    }
    let row = rows[index];
    if row.seen > reading {
        return false;
    }
    true
}

/// Of the rows after the first `entered`, those seen by the reading enter, in order, up to the first that is not. Returns
/// how many rows of the sensor have entered then. Not inlined, so that sensors without such rows take a few instructions each.
#[inline(never)]
fn enter_seen(
    queue: &mut Queue,
    sensor: u32,
    rows: &[Row],
    entered: usize,
    reading: Reading,
    kept: &mut Vec<RowAt>,
) -> usize
    requires entered { entered ≤ length rows.now }
    requires times { TimesRise (drop entered rows.now) }
    requires actor { sensor < length queue.old.groups }
    requires absent { NothingThere (waiting_in queue.old.events)
        (seen_at sensor (due reading (drop entered rows.now))) }
    requires spare { length (due reading (drop entered rows.now)) ≤ queue.old.spare }
    requires kept { vec_len kept.old + length (due reading (drop entered rows.now))
        ≤ vec_capacity kept.old }
    ensures waits { waiting_in queue.new.events
        ≡ added (waiting_in queue.old.events)
        (seen_at sensor (due reading (drop entered rows.now))) }
    ensures spare { queue.new.spare + length (due reading (drop entered rows.now))
        ≡ queue.old.spare }
    ensures groups { queue.new.groups ≡ queue.old.groups }
    ensures rows { kept.new.items ≡ kept.old.items
        ++ map (at_sensor sensor) (due reading (drop entered rows.now)) }
    ensures kept { (vec_capacity kept.old ≤ vec_capacity kept.new)
        × (vec_len kept.new ≡ vec_len kept.old + length (due reading (drop entered rows.now))) }
    ensures left { drop result rows.now ≡ not_due reading (drop entered rows.now) }
    ensures within { result ≤ length rows.now }
{
    for index in entered..rows.len() {
        let row = rows[index];
        if reading < row.seen {
            return index;
        }
        enter_row(queue, sensor, row, kept);
    }
    rows.len()
}

/// Of the rows after the first `entered`, those seen by the reading enter, in order, up to the first that is not. Returns
/// how many rows of the sensor have entered then. Mostly there are none.
fn enter_due(
    queue: &mut Queue,
    sensor: u32,
    rows: &[Row],
    entered: usize,
    reading: Reading,
    kept: &mut Vec<RowAt>,
) -> usize
    requires entered { entered ≤ length rows.now }
    requires times { TimesRise (drop entered rows.now) }
    requires actor { sensor < length queue.old.groups }
    requires absent { NothingThere (waiting_in queue.old.events)
        (seen_at sensor (due reading (drop entered rows.now))) }
    requires spare { length (due reading (drop entered rows.now)) ≤ queue.old.spare }
    requires kept { vec_len kept.old + length (due reading (drop entered rows.now))
        ≤ vec_capacity kept.old }
    ensures waits { waiting_in queue.new.events
        ≡ added (waiting_in queue.old.events)
        (seen_at sensor (due reading (drop entered rows.now))) }
    ensures spare { queue.new.spare + length (due reading (drop entered rows.now))
        ≡ queue.old.spare }
    ensures groups { queue.new.groups ≡ queue.old.groups }
    ensures rows { kept.new.items ≡ kept.old.items
        ++ map (at_sensor sensor) (due reading (drop entered rows.now)) }
    ensures kept { (vec_capacity kept.old ≤ vec_capacity kept.new)
        × (vec_len kept.new ≡ vec_len kept.old + length (due reading (drop entered rows.now))) }
    ensures left { drop result rows.now ≡ not_due reading (drop entered rows.now) }
    ensures within { result ≤ length rows.now }
{
    if !is_seen(rows, entered, reading) {
        return entered;
    }
    enter_seen(queue, sensor, rows, entered, reading, kept)
}

/// All rows seen by a reading (in microseconds) enter, sensor by sensor in the order of the graph. They become waiting
/// events, and are appended to `kept`.
///
/// No event may wait where a row enters: this holds in every state that a history leads to. Allocates nothing.
pub fn enter(fields: &mut Fields, graph: &Graph, reading: Reading, kept: &mut Vec<RowAt>)
    requires sound { IsSound graph.now fields.old }
    requires sensors { AreSensors graph.now fields.old.sensors.items }
    requires never { (taken : Sequence OnLink) → NeverEnters (state_of fields.old taken) reading }
    requires events { length (all_due graph.now reading (left_in fields.old.sensors.items))
        ≤ fields.old.queue.spare }
    requires kept { vec_len kept.old + length
        (all_due graph.now reading (left_in fields.old.sensors.items)) ≤ vec_capacity kept.old }
    ensures sound { IsSound graph.now fields.new }
    ensures sensors { AreSensors graph.now fields.new.sensors.items }
    ensures entered { (taken : Sequence OnLink) →
        state_of fields.new taken ≡ after_rows (state_of fields.old taken) reading }
    ensures rows { kept.new.items ≡ kept.old.items
        ++ all_due graph.now reading (left_in fields.old.sensors.items) }
    ensures all_rows { (a : ℕ) → rows_at_sensors fields.new.sensors.items a
        ≡ rows_at_sensors fields.old.sensors.items a }
    ensures events { fields.old.queue.spare
        ≡ fields.new.queue.spare + length
        (all_due graph.now reading (left_in fields.old.sensors.items)) }
    ensures kept { vec_capacity kept.old ≤ vec_capacity kept.new }
    ensures groups { fields.new.queue.groups ≡ fields.old.queue.groups }
    ensures frame { (fields.new.open_claims ≡ fields.old.open_claims)
        × (fields.new.states ≡ fields.old.states) × (fields.new.outbox ≡ fields.old.outbox)
        × (fields.new.reading ≡ fields.old.reading) × (fields.new.closed ≡ fields.old.closed)
        × (fields.new.claims ≡ fields.old.claims) }
{
    for i in 0..fields.sensors.len() {
        let sensor = &fields.sensors[i];
        let entered = enter_due(
            &mut fields.queue,
            sensor.actor,
            sensor.rows.as_slice(),
            sensor.entered,
            reading,
            kept,
        );
        fields.sensors[i].entered = entered;
    }
    fields.none_safe_before = 0;
}
