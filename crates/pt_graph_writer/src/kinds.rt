//! Actors, kind by kind.

ghost use Rattle.std.specs.Prelude.{◌≡◌, [], true, IfOk};
ghost use Rattle.serde_json.specs.View.{members_view};
ghost use Rattle.pt_graph_writer.specs.Text.{members, kind_word, kind_fields, kind_fits};
ghost use Rattle.pt_types.specs.declared.kind.Kind.TheVariants as kind;

use crate::encode::{Encode, entries};
use crate::members::{named, one, two};
use crate::parts::block_name;
use pt_blocks::Named;
use pt_tags::{List, Time};
use pt_types::{Actor, Graph, Kind, MachineRow};
use serde_json::{Map, Value, put};
use std::alloc::{AllocError, Global};

impl Encode for Actor {
    ghost use Rattle.pt_graph_writer.specs.Text.{actor_data, kind_fits};

    ghost encoded = { actor_data };

    ghost fits = { λ a. kind_fits a.kind };

    fn encode(&self, alloc: Global, graph: &Graph, blocks: &[Named]) -> Result<Value, AllocError> {
        let platform = graph.platform_name(self.platform);
        let mut members = kind_members(alloc, graph, blocks, &self.kind)?;
        put(
            &mut members,
            alloc,
            "kind",
            Value::try_from_str(alloc, kind_word(&self.kind))?,
        )?;
        put(
            &mut members,
            alloc,
            "platform",
            Value::try_from_str(alloc, platform)?,
        )?;
        put(
            &mut members,
            alloc,
            "name",
            Value::try_from_str(alloc, self.name.as_str())?,
        )?;
        Ok(Value::Object(members))
    }
}

/// The word for a kind.
fn kind_word(kind: &Kind) -> &str
    ensures { result.now ≡ kind_word kind.now }
{
    match kind {
        Kind::Sensor { .. } => "sensor",
        Kind::Receive => "receive",
        Kind::Send { .. } => "send",
        Kind::Actuator { .. } => "actuator",
        Kind::Scale { .. } => "scale",
        Kind::Shift { .. } => "shift",
        Kind::Add => "add",
        Kind::Sub => "sub",
        Kind::Above { .. } => "above",
        Kind::Merge { .. } => "merge",
        Kind::Delay { .. } => "delay",
        Kind::Count => "count",
        Kind::Sum => "sum",
        Kind::Latch => "latch",
        Kind::Machine { .. } => "machine",
        Kind::Every { .. } => "every",
        Kind::Block { .. } => "block",
        Kind::Lanes { .. } => "lanes",
    }
}

/// The members that are particular to a kind.
fn kind_members(
    alloc: Global,
    graph: &Graph,
    blocks: &[Named],
    kind: &Kind,
) -> Result<Map<String, Value>, AllocError>
    ensures members { IfOk result (λ m.
        members_view m.entries ≡ members (kind_fields blocks.now kind.now)) }
    ensures fits { IfOk result (λ m. kind_fits kind.now ≡ true) }
{
    match kind {
        Kind::Sensor { file, bound } => sensor(alloc, file.as_str(), *bound),
        Kind::Send { slack } | Kind::Actuator { slack } => one(alloc, "slack", Value::from(*slack)),
        Kind::Scale { num, den } => two(alloc, "num", Value::from(*num), "den", Value::from(*den)),
        Kind::Shift { by } => one(alloc, "by", Value::from(*by)),
        Kind::Above { limit } => one(alloc, "limit", Value::from(*limit)),
        Kind::Merge { n } => one(alloc, "n", Value::from(*n)),
        Kind::Delay { d } => one(alloc, "d", Value::from(*d)),
        Kind::Machine {
            start,
            outputs,
            rows,
        } => { machine(alloc, graph, blocks, *start, *outputs, rows) }
        Kind::Every { start, period } => every(alloc, *start, *period),
        Kind::Block { block, .. } => named(alloc, "block", block_name(blocks, *block)),
        Kind::Lanes { cells } => lanes(alloc, graph, blocks, cells),
        _ => Ok(Map::new(alloc)),
    }
}

fn sensor(alloc: Global, file: &str, bound: u64) -> Result<Map<String, Value>, AllocError>
    ensures { IfOk result (λ m. members_view m.entries
        ≡ members (kind_fields [] (kind.Sensor file.now bound))) }
{
    let file = Value::try_from_str(alloc, file)?;
    two(alloc, "file", file, "bound", Value::from(bound))
}

fn machine(
    alloc: Global,
    graph: &Graph,
    blocks: &[Named],
    start: i64,
    outputs: u32,
    rows: &List<MachineRow>,
) -> Result<Map<String, Value>, AllocError>
    ensures members { IfOk result (λ m.
        members_view m.entries ≡ members
        (kind_fields blocks.now (kind.Machine start outputs rows.now))) }
    ensures fits { IfOk result (λ m. kind_fits (kind.Machine start outputs rows.now) ≡ true) }
{
    let rows = entries(alloc, graph, blocks, rows.as_slice())?;
    let mut members = two(alloc, "outputs", Value::from(outputs), "rows", rows)?;
    put(&mut members, alloc, "start", Value::from(start))?;
    Ok(members)
}

fn lanes(
    alloc: Global,
    graph: &Graph,
    blocks: &[Named],
    cells: &List<u32>,
) -> Result<Map<String, Value>, AllocError>
    ensures { IfOk result (λ m. members_view m.entries
        ≡ members (kind_fields blocks.now (kind.Lanes cells.now))) }
{
    one(
        alloc,
        "cells",
        entries(alloc, graph, blocks, cells.as_slice())?,
    )
}

fn every(alloc: Global, start: Time, period: u64) -> Result<Map<String, Value>, AllocError>
    ensures { IfOk result (λ m. members_view m.entries
        ≡ members (kind_fields [] (kind.Every start period))) }
{
    let start = Value::from(start);
    two(alloc, "start", start, "period", Value::from(period))
}
