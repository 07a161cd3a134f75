//! Objects of one and two members.

ghost use Rattle.std.specs.Prelude.{◌≡◌, [], ◌∷◌, IfOk};
ghost use Rattle.serde_json.specs.Data.{string};
ghost use Rattle.serde_json.specs.View.{view, members_view};
ghost use Rattle.pt_graph_writer.specs.Text.{members};

use serde_json::{Map, Value, put};
use std::alloc::{AllocError, Global};

/// An object with one member.
pub fn one(alloc: Global, key: &str, value: Value) -> Result<Map<String, Value>, AllocError>
    ensures { IfOk result (λ m. members_view m.entries ≡ members ((key.now, view value) ∷ [])) }
{
    let mut members = Map::new(alloc);
    put(&mut members, alloc, key, value)?;
    Ok(members)
}

/// An object with two members.
pub fn two(
    alloc: Global,
    first: &str,
    value: Value,
    second: &str,
    other: Value,
) -> Result<Map<String, Value>, AllocError>
    ensures { IfOk result (λ m. members_view m.entries
        ≡ members ((first.now, view value) ∷ (second.now, view other) ∷ [])) }
{
    let mut members = one(alloc, second, other)?;
    put(&mut members, alloc, first, value)?;
    Ok(members)
}

/// An object with one member, a name.
pub fn named(alloc: Global, key: &str, name: &str) -> Result<Map<String, Value>, AllocError>
    ensures { IfOk result (λ m. members_view m.entries
        ≡ members ((key.now, string name.now) ∷ [])) }
{
    one(alloc, key, Value::try_from_str(alloc, name)?)
}
