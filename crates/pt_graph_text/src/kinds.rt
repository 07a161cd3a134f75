//! The kinds of actors as they are written.

ghost use Rattle.std.specs.Prelude.{◌≡◌};
ghost use Rattle.serde_json.specs.View.{view};
ghost use Rattle.pt_graph_text.specs.Decoding.{Decodes};
ghost use Rattle.pt_graph_text.specs.Kinds.{kind_text_of, number_kind_of, other_kind_of, plain_of, sensor_of, send_of, actuator_of, every_of, delay_of, scale_of, shift_of, above_of, merge_of, machine_of, block_of, lanes_of};

use crate::decode::{Misfit, has_members, member};
use crate::document::RowText;
use crate::version::Version;
use crate::word::Word;
use pt_tags::List;
use serde_json::Value;
use std::alloc::Global;

/// A kind of actor, with its names and numbers as they are written.
#[derive(Drop)]
pub enum KindText {
    Sensor {
        file: Word,
        bound: i64,
    },
    Receive,
    Send {
        slack: i64,
    },
    Actuator {
        slack: i64,
    },
    Every {
        start: i64,
        period: i64,
    },
    Delay {
        d: i64,
    },
    Scale {
        num: i64,
        den: i64,
    },
    Shift {
        by: i64,
    },
    Add,
    Sub,
    Above {
        limit: i64,
    },
    Count,
    Sum,
    Latch,
    Merge {
        n: i64,
    },
    Machine {
        start: i64,
        outputs: i64,
        rows: List<RowText>,
    },
    Block {
        block: Word,
    },
    Lanes {
        cells: List<i64>,
    },
}

/// The kind with this word, with its members.
#[tactic(auto, unfolding(crate::specs::Kinds::kind_text_of))]
pub fn kind_of(
    alloc: Global,
    version: Version,
    word: &str,
    value: &Value,
) -> Result<KindText, Misfit>
    ensures { Decodes (kind_text_of version word.now (view value.now)) result }
{
    match word {
        "sensor" => sensor_of(alloc, version, value),
        "receive" => plain_of(value, KindText::Receive),
        "send" => send_of(alloc, version, value),
        "actuator" => actuator_of(alloc, version, value),
        "every" => every_of(alloc, version, value),
        "delay" => delay_of(alloc, version, value),
        _ => number_kind_of(alloc, version, word, value),
    }
}

/// The kind with this word, if it computes with numbers.
#[tactic(auto, unfolding(crate::specs::Kinds::number_kind_of))]
fn number_kind_of(
    alloc: Global,
    version: Version,
    word: &str,
    value: &Value,
) -> Result<KindText, Misfit>
    ensures { Decodes (number_kind_of version word.now (view value.now)) result }
{
    match word {
        "scale" => scale_of(alloc, version, value),
        "shift" => shift_of(alloc, version, value),
        "add" => plain_of(value, KindText::Add),
        "sub" => plain_of(value, KindText::Sub),
        "above" => above_of(alloc, version, value),
        "count" => plain_of(value, KindText::Count),
        "sum" => plain_of(value, KindText::Sum),
        _ => other_kind_of(alloc, version, word, value),
    }
}

/// The kind with this word, of the other kinds.
#[tactic(auto, unfolding(crate::specs::Kinds::other_kind_of))]
fn other_kind_of(
    alloc: Global,
    version: Version,
    word: &str,
    value: &Value,
) -> Result<KindText, Misfit>
    ensures { Decodes (other_kind_of version word.now (view value.now)) result }
{
    match word {
        "latch" => plain_of(value, KindText::Latch),
        "merge" => merge_of(alloc, version, value),
        "machine" => machine_of(alloc, version, value),
        "block" => block_of(alloc, version, value),
        "lanes" => lanes_of(alloc, version, value),
        _ => Err(Misfit::Member),
    }
}

/// A kind that has no members of its own.
fn plain_of(value: &Value, kind: KindText) -> Result<KindText, Misfit>
    ensures { Decodes (plain_of kind (view value.now)) result }
{
    if has_members(value, 3) {
        Ok(kind)
    } else {
        Err(Misfit::Member)
    }
}

#[tactic(auto, unfolding(crate::specs::Kinds::sensor_of))]
fn sensor_of(alloc: Global, version: Version, value: &Value) -> Result<KindText, Misfit>
    ensures { Decodes (sensor_of version (view value.now)) result }
{
    if !has_members(value, 5) {
        return Err(Misfit::Member);
    }
    Ok(KindText::Sensor {
        file: member(alloc, version, value, "file")?,
        bound: member(alloc, version, value, "bound")?,
    })
}

#[tactic(auto, unfolding(crate::specs::Kinds::send_of))]
fn send_of(alloc: Global, version: Version, value: &Value) -> Result<KindText, Misfit>
    ensures { Decodes (send_of version (view value.now)) result }
{
    if !has_members(value, 4) {
        return Err(Misfit::Member);
    }
    Ok(KindText::Send {
        slack: member(alloc, version, value, "slack")?,
    })
}

#[tactic(auto, unfolding(crate::specs::Kinds::actuator_of))]
fn actuator_of(alloc: Global, version: Version, value: &Value) -> Result<KindText, Misfit>
    ensures { Decodes (actuator_of version (view value.now)) result }
{
    if !has_members(value, 4) {
        return Err(Misfit::Member);
    }
    Ok(KindText::Actuator {
        slack: member(alloc, version, value, "slack")?,
    })
}

#[tactic(auto, unfolding(crate::specs::Kinds::every_of))]
fn every_of(alloc: Global, version: Version, value: &Value) -> Result<KindText, Misfit>
    ensures { Decodes (every_of version (view value.now)) result }
{
    if !has_members(value, 5) {
        return Err(Misfit::Member);
    }
    Ok(KindText::Every {
        start: member(alloc, version, value, "start")?,
        period: member(alloc, version, value, "period")?,
    })
}

#[tactic(auto, unfolding(crate::specs::Kinds::delay_of))]
fn delay_of(alloc: Global, version: Version, value: &Value) -> Result<KindText, Misfit>
    ensures { Decodes (delay_of version (view value.now)) result }
{
    if !has_members(value, 4) {
        return Err(Misfit::Member);
    }
    Ok(KindText::Delay {
        d: member(alloc, version, value, "d")?,
    })
}

#[tactic(auto, unfolding(crate::specs::Kinds::scale_of))]
fn scale_of(alloc: Global, version: Version, value: &Value) -> Result<KindText, Misfit>
    ensures { Decodes (scale_of version (view value.now)) result }
{
    if !has_members(value, 5) {
        return Err(Misfit::Member);
    }
    Ok(KindText::Scale {
        num: member(alloc, version, value, "num")?,
        den: member(alloc, version, value, "den")?,
    })
}

#[tactic(auto, unfolding(crate::specs::Kinds::shift_of))]
fn shift_of(alloc: Global, version: Version, value: &Value) -> Result<KindText, Misfit>
    ensures { Decodes (shift_of version (view value.now)) result }
{
    if !has_members(value, 4) {
        return Err(Misfit::Member);
    }
    Ok(KindText::Shift {
        by: member(alloc, version, value, "by")?,
    })
}

#[tactic(auto, unfolding(crate::specs::Kinds::above_of))]
fn above_of(alloc: Global, version: Version, value: &Value) -> Result<KindText, Misfit>
    ensures { Decodes (above_of version (view value.now)) result }
{
    if !has_members(value, 4) {
        return Err(Misfit::Member);
    }
    Ok(KindText::Above {
        limit: member(alloc, version, value, "limit")?,
    })
}

#[tactic(auto, unfolding(crate::specs::Kinds::merge_of))]
fn merge_of(alloc: Global, version: Version, value: &Value) -> Result<KindText, Misfit>
    ensures { Decodes (merge_of version (view value.now)) result }
{
    if !has_members(value, 4) {
        return Err(Misfit::Member);
    }
    Ok(KindText::Merge {
        n: member(alloc, version, value, "n")?,
    })
}

#[tactic(auto, unfolding(crate::specs::Kinds::machine_of))]
fn machine_of(alloc: Global, version: Version, value: &Value) -> Result<KindText, Misfit>
    ensures { Decodes (machine_of version (view value.now)) result }
{
    if !has_members(value, 6) {
        return Err(Misfit::Member);
    }
    Ok(KindText::Machine {
        start: member(alloc, version, value, "start")?,
        outputs: member(alloc, version, value, "outputs")?,
        rows: member(alloc, version, value, "rows")?,
    })
}

#[tactic(auto, unfolding(crate::specs::Kinds::block_of))]
fn block_of(alloc: Global, version: Version, value: &Value) -> Result<KindText, Misfit>
    ensures { Decodes (block_of version (view value.now)) result }
{
    if !has_members(value, 4) {
        return Err(Misfit::Member);
    }
    Ok(KindText::Block {
        block: member(alloc, version, value, "block")?,
    })
}

#[tactic(auto, unfolding(crate::specs::Kinds::lanes_of))]
fn lanes_of(alloc: Global, version: Version, value: &Value) -> Result<KindText, Misfit>
    ensures { Decodes (lanes_of version (view value.now)) result }
{
    if !version.is_second() || !has_members(value, 4) {
        return Err(Misfit::Member);
    }
    Ok(KindText::Lanes {
        cells: member(alloc, version, value, "cells")?,
    })
}
