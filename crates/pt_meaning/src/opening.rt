//! The events known at the start: the first events of actors that begin by themselves, and the rows of the sensors.

ghost use Rattle.std.specs.Prelude.{◌≡◌, ◌<◌, ◌^◌, ℕ, IfOk, OnOk, None, [], ◌∷◌, length};
ghost use Rattle.pt_types.specs.declared.graph.Graph.{Graph};
ghost use Rattle.pt_semantics.specs.Lists.{Each};
ghost use Rattle.pt_semantics.specs.Meaning.{added, opening};
ghost use Rattle.pt_meaning.specs.Waiting.{rank_in};
ghost use Rattle.pt_meaning.specs.Early.{early_waits, left, AreEarly, IsFiringOrder, StayEarly};
ghost use Rattle.pt_meaning.specs.Opening.{start_event, start_one, starts_below, rows_from_sensors, rows_of_actor, rows_of_run};
ghost use Rattle.pt_sensors.specs.Listed.{IsOfActors};

use crate::early::{Early, EarlyList, EarlyMoment};
use crate::emission::rank_at;
use pt_sensors::{Row, SensorRows};
use pt_tags::{Memory, Time};
use pt_types::{Graph, Kind};
use std::alloc::Global;

/// Adds an event at input 0 of an actor, at step 0 of a time.
fn begin(
    events: &mut Vec<Early>,
    ranks: &[u32],
    actor: u32,
    time: Time,
    value: i64,
) -> Result<(), Memory>
    ensures waits { OnOk result (early_waits events.new.items
        ≡ added (early_waits events.old.items) (start_event actor time value)) }
    ensures sound { OnOk result (StayEarly ranks.now actor events.old.items events.new.items) }
{
    let moment = EarlyMoment {
        time,
        rank: rank_at(ranks, actor),
        actor,
    };
    events.push(Early { moment, value })?;
    Ok(())
}

/// Adds the starting event of an actor, if it begins by itself and not past the horizon.
fn start(
    events: &mut Vec<Early>,
    ranks: &[u32],
    until: Time,
    actor: u32,
    kind: &Kind,
) -> Result<(), Memory>
    ensures waits { OnOk result ((g : Graph) → g.until ≡ until →
        early_waits events.new.items ≡ added (early_waits events.old.items)
        (start_one g actor kind.now)) }
    ensures sound { OnOk result (StayEarly ranks.now actor events.old.items events.new.items) }
{
    match kind {
        Kind::Every { start, .. } => {
            if *start <= until {
                begin(events, ranks, actor, *start, 0)
            } else {
                Ok(())
            }
        }
        _ => Ok(()),
    }
}

/// Adds the starting events of all actors.
fn starts(events: &mut Vec<Early>, ranks: &[u32], graph: &Graph) -> Result<(), Memory>
    requires { length graph.now.actors < 2 ^ 32 }
    ensures waits { OnOk result (early_waits events.old.items ≡ (λ a p t. None) →
        early_waits events.new.items ≡ starts_below graph.now (length graph.now.actors)) }
    ensures sound { OnOk result (AreEarly (rank_in ranks.now)
        (length graph.now.actors) events.old.items →
        AreEarly (rank_in ranks.now) (length graph.now.actors) events.new.items) }
{
    let until = graph.until;
    for (number, actor) in graph.actors.as_slice().iter().enumerate() {
        start(events, ranks, until, number as u32, &actor.kind)?;
    }
    Ok(())
}

/// Adds a row of a sensor, unless it is past the horizon.
fn enter(
    events: &mut Vec<Early>,
    ranks: &[u32],
    until: Time,
    actor: u32,
    row: &Row,
) -> Result<(), Memory>
    ensures waits { OnOk result (early_waits events.new.items
        ≡ added (early_waits events.old.items) (rows_of_actor until actor (row.now ∷ []))) }
    ensures sound { OnOk result (StayEarly ranks.now actor events.old.items events.new.items) }
{
    if row.time <= until {
        begin(events, ranks, actor, row.time, row.value)
    } else {
        Ok(())
    }
}

/// Adds the rows of a sensor up to the horizon.
fn enter_rows(
    events: &mut Vec<Early>,
    ranks: &[u32],
    until: Time,
    actor: u32,
    rows: &[Row],
) -> Result<(), Memory>
    ensures waits { OnOk result (early_waits events.new.items
        ≡ added (early_waits events.old.items) (rows_of_actor until actor rows.now)) }
    ensures sound { OnOk result (StayEarly ranks.now actor events.old.items events.new.items) }
{
    for row in rows {
        enter(events, ranks, until, actor, row)?;
    }
    Ok(())
}

/// Adds the rows of all sensors up to the horizon.
fn enter_sensors(
    events: &mut Vec<Early>,
    ranks: &[u32],
    until: Time,
    sensors: &[SensorRows],
) -> Result<(), Memory>
    ensures waits { OnOk result (early_waits events.new.items
        ≡ added (early_waits events.old.items) (rows_from_sensors until sensors.now)) }
    ensures sound { OnOk result ((actors : ℕ) → Each (IsOfActors actors) sensors.now →
        AreEarly (rank_in ranks.now) actors events.old.items →
        AreEarly (rank_in ranks.now) actors events.new.items) }
{
    for sensor in sensors {
        enter_rows(events, ranks, until, sensor.actor, sensor.rows.as_slice())?;
    }
    Ok(())
}

/// All events known at the start.
pub fn opening(
    alloc: Global,
    graph: &Graph,
    ranks: &[u32],
    sensors: &[SensorRows],
) -> Result<EarlyList, Memory>
    requires actors { length graph.now.actors < 2 ^ 32 }
    requires sensors { Each (IsOfActors (length graph.now.actors)) sensors.now }
    ensures waits { IfOk result (λ list.
        early_waits (left list) ≡ opening graph.now (rows_of_run graph.now sensors.now)) }
    ensures sound { IfOk result (λ list.
        IsFiringOrder (rank_in ranks.now) (length graph.now.actors) (left list)) }
{
    let mut events = Vec::new(alloc);
    starts(&mut events, ranks, graph)?;
    enter_sensors(&mut events, ranks, graph.until, sensors)?;
    EarlyList::new(events)
}
