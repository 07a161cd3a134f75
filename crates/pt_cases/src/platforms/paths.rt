//! The units of a graph, how far one is from another at least, and the bounds of what comes from outside, by the definition.

use pt_tags::Tag;
use pt_types::{Graph, Kind, Unit, Wire};
use std::alloc::{AllocError, Global};

/// How far one unit is from another, at least: microseconds and steps.
pub type Way = (u64, u64);

/// Whether one tag or delay is less than another.
pub fn is_less(a: Way, b: Way) -> bool {
    a.0 < b.0 || (a.0 == b.0 && a.1 < b.1)
}

pub fn sum(a: Way, b: Way) -> Way {
    (a.0.saturating_add(b.0), a.1.saturating_add(b.1))
}

pub fn way_of(tag: Tag) -> Way {
    (tag.time, tag.step)
}

/// The kind of an actor.
pub fn kind(graph: &Graph, actor: u32) -> Option<&Kind> {
    match graph.actors.as_slice().get(actor as usize) {
        Some(actor) => Some(&actor.kind),
        None => None,
    }
}

/// The cell of an input of lanes, and 0 of another kind.
pub fn group_of_input(kind: &Kind, input: u32) -> u32 {
    let Kind::Lanes { cells } = kind else {
        return 0;
    };
    let mut group = 0u32;
    let mut end = 0u32;
    for cell in cells.as_slice() {
        end = end.saturating_add(*cell);
        if input < end {
            return group;
        }
        group = group.saturating_add(1);
    }
    0
}

/// The cell of an output of lanes, and 0 of another kind.
fn group_of_output(kind: &Kind, output: u32) -> u32 {
    match kind {
        Kind::Lanes { .. } => output,
        _ => 0,
    }
}

/// What a wire adds to a tag.
pub fn weight(kind: &Kind, output: u32) -> Way {
    match kind {
        Kind::Delay { d } => { if *d == 0 { (0, 1) } else { (*d, 0) } }
        Kind::Every { start: _, period } => { if output == 1 { (*period, 0) } else { (0, 0) } }
        _ => (0, 0),
    }
}

/// The units of all actors.
pub fn units_of(alloc: Global, graph: &Graph) -> Result<Vec<Unit>, AllocError> {
    let mut units = Vec::new(alloc);
    let mut actor = 0u32;
    for each in graph.actors.as_slice() {
        let groups = match &each.kind {
            Kind::Lanes { cells } => cells.as_slice().len(),
            _ => 1,
        };
        for group in 0..groups {
            units.push(Unit {
                actor,
                group: (group & 0xffff) as u32,
            })?;
        }
        actor = actor.saturating_add(1);
    }
    Ok(units)
}

/// The place of a unit.
pub fn place(units: &[Unit], actor: u32, group: u32) -> Option<usize> {
    units
        .iter()
        .position(|unit| unit.actor == actor && unit.group == group)
}

/// The place of the unit at a wire's start, and of that at its end.
fn ends(graph: &Graph, units: &[Unit], wire: &Wire) -> Option<(usize, usize, Way)> {
    let from = kind(graph, wire.from)?;
    let to = kind(graph, wire.to)?;
    let start = place(units, wire.from, group_of_output(from, wire.output))?;
    let end = place(units, wire.to, group_of_input(to, wire.input))?;
    Some((start, end, weight(from, wire.output)))
}

/// The least delays from a unit: as many times as there are units, each wire may make a way shorter.
pub fn ways_from(
    alloc: Global,
    graph: &Graph,
    units: &[Unit],
    from: usize,
) -> Result<Vec<Option<Way>>, AllocError> {
    let mut ways = vec![in alloc; None; units.len()]?;
    if let Some(way) = ways.as_mut_slice().get_mut(from) {
        *way = Some((0, 0));
    }
    for _ in 0..units.len() {
        for wire in graph.wires.as_slice() {
            shorten(graph, units, wire, &mut ways);
        }
    }
    Ok(ways)
}

/// Takes a wire where it makes a way shorter.
fn shorten(graph: &Graph, units: &[Unit], wire: &Wire, ways: &mut Vec<Option<Way>>) {
    let Some((start, end, weight)) = ends(graph, units, wire) else {
        return;
    };
    let Some(Some(way)) = ways.as_slice().get(start) else {
        return;
    };
    let longer = sum(*way, weight);
    if let Some(known) = ways.as_mut_slice().get_mut(end) {
        let better = match *known {
            None => true,
            Some(old) => is_less(longer, old),
        };
        if better {
            *known = Some(longer);
        }
    }
}

/// The bound of an actor of a platform that is a sensor or a receiver.
pub fn bound_of(graph: &Graph, platform: u32, actor: u32) -> Option<u64> {
    let found = graph.actors.as_slice().get(actor as usize)?;
    if found.platform != platform {
        return None;
    }
    match &found.kind {
        Kind::Sensor { bound, .. } => Some(*bound),
        Kind::Receive => link_bound(graph, actor),
        _ => None,
    }
}

/// The bound of a receiver: the slack of its sender, the delay of its link and the clock error.
pub fn link_bound(graph: &Graph, actor: u32) -> Option<u64> {
    let link = graph.links.as_slice().iter().find(|link| link.to == actor)?;
    let Kind::Send { slack } = kind(graph, link.from)? else {
        return None;
    };
    Some(
        slack
            .saturating_add(link.delay)
            .saturating_add(graph.clock_error),
    )
}
