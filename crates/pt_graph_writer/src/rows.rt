//! Rows of machines.

ghost use Rattle.std.specs.Prelude.{◌≡◌, true, IfOk};
ghost use Rattle.serde_json.specs.View.{view, members_view};
ghost use Rattle.pt_graph_writer.specs.Text.{members, guard_fields, emit_data, emit_fits};

use crate::encode::Encode;
use crate::members::named;
use crate::parts::block_name;
use pt_blocks::Named;
use pt_types::{Graph, Law, MachineRow};
use serde_json::{Map, Value, json, put};
use std::alloc::{AllocError, Global};

impl Encode for MachineRow {
    ghost use Rattle.pt_graph_writer.specs.Text.{row_data, row_numbers_fit};

    ghost encoded = { λ graph. row_data };

    ghost fits = { row_numbers_fit };

    fn encode(&self, alloc: Global, _graph: &Graph, blocks: &[Named]) -> Result<Value, AllocError> {
        let mut members = guard_members(alloc, blocks, &self.guard)?;
        put(&mut members, alloc, "emit", emit_value(alloc, self.emit)?)?;
        put(&mut members, alloc, "next", Value::from(self.next))?;
        put(&mut members, alloc, "high", Value::from(self.high))?;
        put(&mut members, alloc, "low", Value::from(self.low))?;
        put(&mut members, alloc, "state", Value::from(self.state))?;
        Ok(Value::Object(members))
    }
}

/// The member `guard`, if there is a guard.
fn guard_members(
    alloc: Global,
    blocks: &[Named],
    guard: &Option<(u32, Law)>,
) -> Result<Map<String, Value>, AllocError>
    ensures { IfOk result (λ m. members_view m.entries
        ≡ members (guard_fields blocks.now guard.now)) }
{
    match guard {
        Some((block, _)) => named(alloc, "guard", block_name(blocks, *block)),
        None => Ok(Map::new(alloc)),
    }
}

/// An output and its value, or `null`.
fn emit_value(alloc: Global, emit: Option<(u32, i64)>) -> Result<Value, AllocError>
    ensures value { IfOk result (λ v. view v ≡ emit_data emit) }
    ensures fits { emit_fits emit ≡ true }
{
    match emit {
        Some((output, value)) => json!(in alloc; [output, value]),
        None => Ok(Value::Null),
    }
}
