//! Readings of platforms that are opened with one row of actor 0: whether a starting event is pending, and the closing and
//! the next reading.

mod rows;

use crate::plans::plan_of;
use crate::readings::rows::one_row;
use pt_blocks::Blocks;
use pt_offsets::Plan;
use pt_turn::claim::next_reading;
use pt_turn::close::closing_reading;
use pt_turn::open_fields;
use pt_types::Row;
use std::alloc::{AllocError, Global};

/// An event at 50 that is seen at 55.
const ROW: Row = Row {
    time: 50,
    seen: 55,
    value: 7,
};

/// The readings of the platforms of a text's graph.
pub fn readings(alloc: Global, text: &str, blocks: &Blocks) -> Result<String, AllocError> {
    let mut readings = String::new(alloc);
    let written = match plan_of(alloc, text, blocks) {
        Some(plan) => write_all(alloc, &mut readings, &plan),
        None => readings.push_str("no plan\n"),
    };
    written?;
    Ok(readings)
}

/// Writes the readings of all platforms of a plan.
fn write_all(alloc: Global, text: &mut String, plan: &Plan) -> Result<(), AllocError> {
    for platform in 0..plan.graph().platforms.as_slice().len() {
        write_readings(alloc, text, plan, platform as u32)?;
    }
    Ok(())
}

/// Opens a platform, and writes what waits and its readings.
fn write_readings(
    alloc: Global,
    text: &mut String,
    plan: &Plan,
    platform: u32,
) -> Result<(), AllocError> {
    let rows = one_row(alloc, plan.graph(), platform, 0, ROW)?;
    let Ok(fields) = open_fields(alloc, plan, platform, rows) else {
        return Err(AllocError);
    };
    let waits = if fields.queue.is_empty() {
        "nothing"
    } else {
        "a start"
    };
    let closing = closing_reading(plan, platform);
    let next = next_reading(&fields, plan, platform, closing);
    drop(fields);
    write!(text, "{waits} waits, closing {closing}, next {next}\n")
}
