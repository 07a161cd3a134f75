//! Least delays between the units of graphs.
//!
//! A line of the output has two units, each as actor and group, and the least delay from the first to the second,
//! as time and step. An empty line ends each graph. Where the units before a unit are not exactly those that have a delay
//! to it, a line says so.

ghost use Rattle.std.specs.Prelude.{◌<◌, ◌^◌, length};
ghost use Rattle.pt_types.specs.Lawful.{IsLawful};

use crate::graphs::graph_of;
use pt_blocks::Blocks;
use pt_causality::{Least, least_delays};
use pt_types::{Graph, Unit};
use std::alloc::{AllocError, Global};

/// The table of a graph.
pub fn table(alloc: Global, text: &str, blocks: &Blocks) -> Result<String, AllocError> {
    let mut table = String::new(alloc);
    write_table(alloc, &mut table, text, blocks)?;
    Ok(table)
}

fn write_table(
    alloc: Global,
    table: &mut String,
    text: &str,
    blocks: &Blocks,
) -> Result<(), AllocError> {
    let written = match graph_of(alloc, text, blocks) {
        Some(graph) => write_delays(alloc, table, &graph),
        None => table.push_str("no graph\n"),
    };
    written?;
    table.push_str("\n")
}

/// Writes the least delays of a graph.
fn write_delays(alloc: Global, table: &mut String, graph: &Graph) -> Result<(), AllocError>
    requires { IsLawful graph.now }
{
    match least_delays(alloc, graph) {
        Ok(least) => write_rows(table, graph, &least.with_before(alloc)),
        Err(_) => table.push_str("no memory\n"),
    }
}

fn write_rows(table: &mut String, graph: &Graph, least: &Least) -> Result<(), AllocError>
    requires { length graph.now.actors < 2 ^ 32 }
{
    for actor in 0..graph.actors.as_slice().len() {
        for group in 0..graph.groups(actor as u32) {
            let from = Unit {
                actor: actor as u32,
                group,
            };
            write_row(table, graph, least, from)?;
        }
    }
    Ok(())
}

fn write_row(table: &mut String, graph: &Graph, least: &Least, from: Unit) -> Result<(), AllocError>
    requires { length graph.now.actors < 2 ^ 32 }
{
    for actor in 0..graph.actors.as_slice().len() {
        for group in 0..graph.groups(actor as u32) {
            let to = Unit {
                actor: actor as u32,
                group,
            };
            write_pair(table, least, from, to)?;
        }
    }
    Ok(())
}

fn write_pair(table: &mut String, least: &Least, from: Unit, to: Unit) -> Result<(), AllocError> {
    let delay = least.get(from, to);
    if let Some(delay) = delay {
        write!(
            table,
            "{}.{} {}.{} {}.{}\n",
            from.actor, from.group, to.actor, to.group, delay.time, delay.step
        )?;
    }
    if is_before(least, from, to) != delay.is_some() {
        table.push_str("listed wrongly\n")?;
    }
    Ok(())
}

/// Whether the bit of `from` is set among the units before `to`.
fn is_before(least: &Least, from: Unit, to: Unit) -> bool {
    let Some(words) = least.before(to) else {
        return false;
    };
    let place = 8 * from.actor as usize + from.group as usize;
    match words.get(place / 64) {
        Some(word) => (*word >> (place % 64)) & 1 == 1,
        None => false,
    }
}
