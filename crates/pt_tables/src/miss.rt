//! The lines of misses.

ghost use Rattle.std.specs.Prelude.{◌≡◌, ◌++◌, OnOk, flat_map, string_bytes};
ghost use Rattle.pt_tables.specs.Misses.{miss_line, missed_part, reading_part};

use pt_history::Miss;
use pt_tags::{Reading, Tag};
use pt_types::Graph;
use std::alloc::AllocError;

/// Appends the lines of misses, in order.
pub fn miss_lines(text: &mut String, graph: &Graph, misses: &[Miss]) -> Result<(), AllocError>
    ensures { OnOk result (string_bytes text.new
        ≡ string_bytes text.old ++ flat_map (miss_line graph.now) misses.now) }
{
    for miss in misses {
        miss_line(text, graph, *miss)?;
    }
    Ok(())
}

/// Appends the line of a miss: `missed ACTOR at TIME.STEP, reading N past L`, as in `missed out at 50.0, reading 61 past 60`.
pub fn miss_line(text: &mut String, graph: &Graph, miss: Miss) -> Result<(), AllocError>
    ensures { OnOk result (string_bytes text.new
        ≡ string_bytes text.old ++ miss_line graph.now miss) }
{
    push_missed(text, graph.actor_name(miss.actor), miss.tag)?;
    push_reading(text, miss.reading, miss.limit)
}

/// Appends the actor and the tag of a miss.
fn push_missed(text: &mut String, name: &str, tag: Tag) -> Result<(), AllocError>
    ensures { OnOk result (string_bytes text.new
        ≡ string_bytes text.old ++ missed_part name.now tag) }
{
    let Tag { time, step } = tag;
    write!(text, "missed {name} at {time}.{step}")
}

/// Appends the reading and the limit of a miss, and ends the line.
fn push_reading(text: &mut String, reading: Reading, limit: u64) -> Result<(), AllocError>
    ensures { OnOk result (string_bytes text.new
        ≡ string_bytes text.old ++ reading_part reading limit) }
{
    write!(text, ", reading {reading} past {limit}\n")
}
