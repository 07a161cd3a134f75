//! The table of margins.

ghost use Rattle.std.specs.Prelude.{◌≡◌, ◌<◌, ◌^◌, ◌++◌, ◌∷◌, IfOk, OnOk, length, string_bytes};
ghost use Rattle.pt_offsets.specs.Timings.{actor_offset_of, margin_in};
ghost use Rattle.pt_tables.specs.Margins.{cell, margins_head, margin_line, margins_text};

use pt_offsets::Offsets;
use pt_types::Graph;
use std::alloc::{AllocError, Global};

/// The offsets and margins of a graph's actors as text, in graph order and in microseconds.
///
/// The header line is `actor,offset,margin`; each actor has one line, with `-` for an absent number, as `s,10,-` for a sensor and
/// `out,-90,89` for an actuator.
pub fn margins(alloc: Global, graph: &Graph, offsets: &Offsets) -> Result<String, AllocError>
    requires { length graph.now.actors < 2 ^ 32 }
    ensures { IfOk result (λ text. string_bytes text
        ≡ margins_text graph.now (actor_offset_of offsets.now) (margin_in offsets.now)) }
{
    let mut text = String::new(alloc);
    push_head(&mut text)?;
    for (number, actor) in graph.actors.as_slice().iter().enumerate() {
        let offset = offsets.of(number as u32);
        let margin = offsets.margin(number as u32);
        push_line(&mut text, actor.name.as_str(), offset, margin)?;
    }
    Ok(text)
}

/// Appends the header line.
fn push_head(text: &mut String) -> Result<(), AllocError>
    ensures { OnOk result (string_bytes text.new ≡ string_bytes text.old ++ margins_head) }
{
    text.push_str("actor,offset,margin\n")
}

/// Appends the line of an actor.
fn push_line(
    text: &mut String,
    name: &str,
    offset: Option<i64>,
    margin: Option<i64>,
) -> Result<(), AllocError>
    ensures { OnOk result (string_bytes text.new
        ≡ string_bytes text.old ++ margin_line name.now offset margin) }
{
    text.push_str(name)?;
    push_cell(text, offset)?;
    push_cell(text, margin)?;
    text.push_str("\n")
}

/// Appends a comma and a number, or `-` if it is absent.
fn push_cell(text: &mut String, number: Option<i64>) -> Result<(), AllocError>
    ensures { OnOk result (string_bytes text.new ≡ string_bytes text.old ++ 44 ∷ cell number) }
{
    match number {
        Some(number) => write!(text, ",{number}"),
        None => text.push_str(",-"),
    }
}
