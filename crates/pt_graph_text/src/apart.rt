//! Arrays that are read item by item: each item is decoded, and its JSON value dropped, before the next is read.

ghost use Rattle.std.specs.Prelude.{◌≡◌, ◌<◌, Some, None, Err, IfOk, OnOk, OnErr, length};
ghost use Rattle.json.specs.Json.{value, items};
ghost use Rattle.serde_json.specs.Data.{Data, Items};
ghost use Rattle.serde_json.specs.Read.{of_json, of_items, converted};
ghost use Rattle.serde_json.specs.View.{view};
ghost use Rattle.pt_graph_text.specs.Decoding.{each_from};
ghost use Rattle.pt_graph_text.specs.Apart.{hollow, list_in, so_far, and_part};

use crate::decode::{Decode, Misfit};
use crate::reading::{Unread, value_from};
use crate::version::Version;
use json::{Reader, Token};
use pt_tags::List;
use serde_json::Value;
use std::alloc::Global;

/// The decoded items of an array, or the index of the first that can't be decoded.
pub type Listed<T> = Result<List<T>, usize>;

/// Reads and decodes the items after an opening bracket, and the closing one.
pub fn read_each<T: Decode>(
    alloc: Global,
    version: Version,
    reader: &mut Reader<'_>,
    depth: usize,
) -> Result<Listed<T>, Unread>
    ensures ok { IfOk result
        (λ listed. (ds : Items)
        × (converted of_items (items (value depth) (length reader.old) reader.old)
        ≡ Some (ds, reader.new))
        × (listed ≡ each_from (T.decoded version) 0 ds)) }
    ensures shorter { OnOk result (length reader.new < length reader.old) }
    ensures err { result ≡ Err Unread.NotJson
        → converted of_items (items (value depth) (length reader.old) reader.old) ≡ None }
{
    let mut found = Vec::new(alloc);
    let mut wrong = None;
    'items: while !reader.take_end_array() {
        let part = T::read(alloc, version, reader, depth)?;
        wrong = keep(&mut found, wrong, part)?;
    }
    match wrong {
        None => Ok(Ok(List::new(found))),
        Some(index) => Ok(Err(index)),
    }
}

/// Adds a part, if all before it could be decoded. Gives the index of the first that could not.
fn keep<T: Drop>(
    found: &mut Vec<T>,
    wrong: Option<usize>,
    part: Option<T>,
) -> Result<Option<usize>, Unread>
    ensures ok { IfOk result
        (λ now. so_far now found.new.items ≡ and_part (so_far wrong found.old.items) part) }
    ensures err { OnErr result (result ≡ Err Unread.Memory) }
{
    match (wrong, part) {
        (Some(index), _) => Ok(Some(index)),
        (None, None) => Ok(Some(found.len())),
        (None, Some(part)) => {
            found.push(part)?;
            Ok(None)
        }
    }
}

/// Reads the next value. If it is an array, its items go decoded into `listed`, and the value is an empty array.
pub fn read_apart<T: Decode>(
    alloc: Global,
    version: Version,
    listed: &mut Option<Listed<T>>,
    reader: &mut Reader<'_>,
    depth: usize,
) -> Result<Value, Unread>
    ensures ok { IfOk result
        (λ left. (d : Data) × (converted of_json (value depth reader.old) ≡ Some (d, reader.new))
        × (view left ≡ hollow d) × (listed.new ≡ list_in (T.decoded version) d)) }
    ensures shorter { OnOk result (length reader.new < length reader.old) }
    ensures err { result ≡ Err Unread.NotJson
        → converted of_json (value depth reader.old) ≡ None }
{
    let token = reader.next().ok_or(Unread::NotJson)?;
    match token {
        Token::BeginArray => {
            if depth == 0 {
                return Err(Unread::NotJson);
            }
            *listed = Some(read_each(alloc, version, reader, depth - 1)?);
            Ok(Value::Array(Vec::new(alloc)))
        }
        _ => {
            *listed = None;
            Ok(value_from(alloc, token, reader, depth)?)
        }
    }
}

/// Reads the next value. If it is an array, its items are dropped, and the value is an empty array.
pub fn read_hollow(
    alloc: Global,
    version: Version,
    reader: &mut Reader<'_>,
    depth: usize,
) -> Result<Value, Unread>
    ensures ok { IfOk result
        (λ left. (d : Data) × (converted of_json (value depth reader.old) ≡ Some (d, reader.new))
        × (view left ≡ hollow d)) }
    ensures shorter { OnOk result (length reader.new < length reader.old) }
    ensures err { result ≡ Err Unread.NotJson
        → converted of_json (value depth reader.old) ≡ None }
{
    let mut items: Option<Listed<Unused>> = None;
    Ok(read_apart(alloc, version, &mut items, reader, depth)?)
}

/// A part that is never decoded.
#[derive(Drop)]
struct Unused;

impl Decode for Unused {
    ghost decoded = { λ version d. None };

    fn decode(_alloc: Global, _version: Version, _value: &Value) -> Result<Unused, Misfit> {
        Err(Misfit::Member)
    }
}
