//! The definition of a platform's claims as a plain search: all events in one list, all units looked at for
//! each claim.

use crate::platforms::paths::{
    Way, bound_of, group_of_input, is_less, kind, link_bound, place, sum, units_of, way_of,
    ways_from, weight,
};
use pt_actors::{Done, Task};
use pt_tags::{Message, Reading, Tag};
use pt_types::{Event, Graph, Kind, OnLink, Ports, RowAt, Unit};
use std::alloc::{AllocError, Global};

/// The least delays from each unit.
fn ways(alloc: Global, graph: &Graph, units: &[Unit]) -> Result<Vec<Vec<Option<Way>>>, AllocError> {
    let mut ways = Vec::new(alloc);
    for from in 0..units.len() {
        ways.push(ways_from(alloc, graph, units, from)?)?;
    }
    Ok(ways)
}

/// The bound of each unit that is a sensor or a receiver of a platform.
fn bounds(
    alloc: Global,
    graph: &Graph,
    platform: u32,
    units: &[Unit],
) -> Result<Vec<Option<u64>>, AllocError> {
    let mut bounds = Vec::new(alloc);
    for unit in units {
        bounds.push(bound_of(graph, platform, unit.actor))?;
    }
    Ok(bounds)
}

/// What a platform has by the definition.
#[derive(Drop)]
pub struct Plain {
    units: Vec<Unit>,
    /// The least delay from each unit to each other, by their places.
    ways: Vec<Vec<Option<Way>>>,
    /// The bound of each unit that is a sensor or a receiver of this platform.
    bounds: Vec<Option<u64>>,
    pending: Vec<Event>,
    open: Vec<Task>,
    rows: Vec<RowAt>,
    states: Vec<i64>,
    reading: Option<Reading>,
    claims: u64,
    /// Whether a message was late: that turn was the platform's last, and nothing is claimed after it.
    late: bool,
}

impl Plain {
    /// What a platform has before its first turn, with these rows of its sensors.
    pub fn new(
        alloc: Global,
        graph: &Graph,
        platform: u32,
        rows: &[RowAt],
    ) -> Result<Plain, AllocError> {
        let units = units_of(alloc, graph)?;
        let ways = ways(alloc, graph, units.as_slice())?;
        let bounds = bounds(alloc, graph, platform, units.as_slice())?;
        let mut plain = Plain {
            units,
            ways,
            bounds,
            pending: Vec::new(alloc),
            open: Vec::new(alloc),
            rows: Vec::new(alloc),
            states: Vec::new(alloc),
            reading: None,
            claims: 0,
            late: false,
        };
        match plain.begin(graph, platform, rows) {
            Ok(()) => Ok(plain),
            Err(error) => {
                drop(plain);
                Err(error)
            }
        }
    }

    /// The starting events, the rows and the states.
    fn begin(&mut self, graph: &Graph, platform: u32, rows: &[RowAt]) -> Result<(), AllocError> {
        let mut actor = 0u32;
        for each in graph.actors.as_slice() {
            self.states.push(match &each.kind {
                Kind::Machine { start, .. } => *start,
                _ => 0,
            })?;
            if each.platform == platform {
                if let Kind::Every { start, period: _ } = &each.kind {
                    let tag = Tag {
                        time: *start,
                        step: 0,
                    };
                    self.add(graph, tag, actor, 0, 0)?;
                }
            }
            actor = actor.saturating_add(1);
        }
        for row in rows {
            let home = match graph.actors.as_slice().get(row.sensor as usize) {
                Some(actor) => actor.platform == platform,
                None => false,
            };
            if home && row.row.time <= graph.until {
                self.rows.push(*row)?;
            }
        }
        Ok(())
    }

    /// Adds an event that isn't past the horizon.
    fn add(
        &mut self,
        graph: &Graph,
        tag: Tag,
        actor: u32,
        port: u32,
        value: i64,
    ) -> Result<(), AllocError> {
        if tag.time <= graph.until {
            self.pending.push(Event {
                tag,
                actor,
                port,
                value,
            })?;
        }
        Ok(())
    }

    /// Posts a result, where its task is an open claim.
    pub fn post(&mut self, graph: &Graph, done: &Done) -> Result<(), AllocError> {
        let (task, fired) = (done.task(), done.fired());
        let before = self.open.len();
        self.open.retain(|open| *open != *task);
        if self.open.len() == before {
            return Ok(());
        }
        if let Some(kept) = self.states.as_mut_slice().get_mut(task.actor as usize) {
            *kept = fired.state;
        }
        let Some(from) = kind(graph, task.actor) else {
            return Ok(());
        };
        for wire in graph.wires.as_slice() {
            if wire.from != task.actor {
                continue;
            }
            let Some(value) = fired.outputs.get(wire.output) else {
                continue;
            };
            let (time, step) = sum(way_of(task.tag), weight(from, wire.output));
            self.add(graph, Tag { time, step }, wire.to, wire.input, value)?;
        }
        Ok(())
    }

    /// Lets the rows enter that are seen at a reading.
    fn enter(&mut self, alloc: Global, graph: &Graph, reading: Reading) -> Result<(), AllocError> {
        let rows = Vec::from_slice(alloc, self.rows.as_slice())?;
        for at in rows.as_slice() {
            let (sensor, row) = (at.sensor, at.row);
            if row.seen <= reading {
                let tag = Tag {
                    time: row.time,
                    step: 0,
                };
                self.add(graph, tag, sensor, 0, row.value)?;
            }
        }
        self.rows.retain(|row| reading < row.row.seen);
        Ok(())
    }

    /// Takes messages in their order; whether one of them was late.
    fn take(&mut self, graph: &Graph, messages: &[OnLink]) -> Result<bool, AllocError> {
        for message in messages {
            let Some(link) = graph.links.as_slice().get(message.link as usize) else {
                continue;
            };
            let Message::Event { tag, value } = message.message else {
                continue;
            };
            let bound = link_bound(graph, link.to).unwrap_or(0);
            if let Some(last) = self.reading {
                if tag.time.saturating_add(bound) < last {
                    return Ok(true);
                }
            }
            self.add(graph, tag, link.to, 0, value)?;
        }
        Ok(false)
    }

    /// The least delay from a unit to another, by their places.
    fn way(&self, from: usize, to: usize) -> Option<Way> {
        match self.ways.as_slice().get(from) {
            Some(ways) => ways.as_slice().get(to).copied().unwrap_or(None),
            None => None,
        }
    }

    /// The place of the unit of an event.
    fn place_of(&self, graph: &Graph, actor: u32, port: u32) -> Option<usize> {
        let kind = kind(graph, actor)?;
        place(self.units.as_slice(), actor, group_of_input(kind, port))
    }

    /// The place of the unit of a claim: that of its present inputs.
    fn place_of_task(&self, graph: &Graph, task: &Task) -> Option<usize> {
        for port in 0..8u32 {
            if task.inputs.get(port).is_some() {
                return self.place_of(graph, task.actor, port);
            }
        }
        None
    }

    /// The least tag that waits at a unit.
    fn least(&self, graph: &Graph, unit: usize) -> Option<Way> {
        let mut least = None;
        for event in self.pending.as_slice() {
            if self.place_of(graph, event.actor, event.port) != Some(unit) {
                continue;
            }
            let tag = way_of(event.tag);
            let lower = match least {
                None => true,
                Some(known) => is_less(tag, known),
            };
            if lower {
                least = Some(tag);
            }
        }
        least
    }

    /// Whether what is at one unit may still come to another at a tag or before it.
    fn may_reach(&self, from: usize, to: usize, at: Way, tag: Way) -> bool {
        match self.way(from, to) {
            Some(way) => from != to && !is_less(tag, sum(at, way)),
            None => false,
        }
    }

    /// Whether no row and no message can come to a unit any more at a time or before it.
    fn is_past(&self, unit: usize, time: u64, reading: Reading) -> bool {
        for from in 0..self.units.len() {
            let bound = self.bounds.as_slice().get(from).copied().unwrap_or(None);
            if let (Some(bound), Some(way)) = (bound, self.way(from, unit)) {
                if reading.saturating_add(way.0) <= time.saturating_add(bound) {
                    return false;
                }
            }
        }
        true
    }

    /// Whether a unit is safe, whose least tag that waits is this one.
    fn is_safe(&self, graph: &Graph, unit: usize, tag: Way, reading: Reading) -> bool {
        for task in self.open.as_slice() {
            let Some(from) = self.place_of_task(graph, task) else {
                continue;
            };
            if from == unit || self.may_reach(from, unit, way_of(task.tag), tag) {
                return false;
            }
        }
        for event in self.pending.as_slice() {
            let Some(from) = self.place_of(graph, event.actor, event.port) else {
                continue;
            };
            if self.may_reach(from, unit, way_of(event.tag), tag) {
                return false;
            }
        }
        self.is_past(unit, tag.0, reading)
    }

    /// The safe unit with the least tag, actor and group, by its place, and its tag.
    fn next(&self, graph: &Graph, reading: Reading) -> Option<(usize, Way)> {
        let mut next = None;
        for unit in 0..self.units.len() {
            let Some(tag) = self.least(graph, unit) else {
                continue;
            };
            if !self.is_safe(graph, unit, tag, reading) {
                continue;
            }
            let lower = match next {
                None => true,
                Some((_, known)) => is_less(tag, known),
            };
            if lower {
                next = Some((unit, tag));
            }
        }
        next
    }

    /// Takes a unit's events of a tag; gives their values by port.
    fn take_events(
        &mut self,
        alloc: Global,
        graph: &Graph,
        unit: usize,
        tag: Way,
    ) -> Result<Ports, AllocError> {
        let mut inputs = Ports::new();
        let mut left = Vec::new(alloc);
        for event in self.pending.as_slice() {
            let own = self.place_of(graph, event.actor, event.port) == Some(unit);
            if own && way_of(event.tag) == tag && event.port < 8 {
                inputs.put(event.port, event.value);
            } else {
                left.push(*event)?;
            }
        }
        self.pending = left;
        Ok(inputs)
    }

    /// Claims a unit's events of a tag.
    fn claim(
        &mut self,
        alloc: Global,
        graph: &Graph,
        unit: usize,
        tag: Way,
    ) -> Result<Task, AllocError> {
        let inputs = self.take_events(alloc, graph, unit, tag)?;
        let actor = match self.units.as_slice().get(unit) {
            Some(unit) => unit.actor,
            None => 0,
        };
        let state = match self.states.as_slice().get(actor as usize) {
            Some(state) => *state,
            None => 0,
        };
        let number = self.claims;
        self.claims = number.saturating_add(1);
        let (time, step) = tag;
        Ok(Task {
            number,
            actor,
            tag: Tag { time, step },
            inputs,
            state,
        })
    }

    /// Keeps a claim as an open one.
    fn keep(&mut self, task: &Task, claimed: &mut Vec<Task>) -> Result<(), AllocError> {
        self.open.push(*task)?;
        claimed.push(*task)?;
        Ok(())
    }

    /// What a turn must claim, where its results were posted: none where a message is late or was.
    pub fn turn(
        &mut self,
        alloc: Global,
        graph: &Graph,
        reading: Reading,
        messages: &[OnLink],
    ) -> Result<Vec<Task>, AllocError> {
        let reading = reading.max(self.reading.unwrap_or(0));
        self.enter(alloc, graph, reading)?;
        let late = self.take(graph, messages)?;
        self.late = self.late || late;
        self.reading = Some(reading);
        if self.late {
            return Ok(Vec::new(alloc));
        }
        self.claim_all(alloc, graph, reading)
    }

    /// Claims safe units, as many as a turn claims at most.
    fn claim_all(
        &mut self,
        alloc: Global,
        graph: &Graph,
        reading: Reading,
    ) -> Result<Vec<Task>, AllocError> {
        let mut claimed = Vec::new(alloc);
        for _ in 0..64 {
            let Some((unit, tag)) = self.next(graph, reading) else {
                break;
            };
            let task = self.claim(alloc, graph, unit, tag)?;
            self.keep(&task, &mut claimed)?;
        }
        Ok(claimed)
    }
}
