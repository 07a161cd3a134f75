//! Decoding of JSON values, part by part.

ghost use Rattle.std.specs.Prelude.{◌≡◌, ◌<◌, List, Option, Some, None, Err, IfOk, OnOk, length};
ghost use Rattle.json.specs.Json.{value};
ghost use Rattle.serde_json.specs.Data.{Data};
ghost use Rattle.serde_json.specs.Find.{get, as_str};
ghost use Rattle.serde_json.specs.Read.{of_json, converted};
ghost use Rattle.serde_json.specs.View.{view, items_view};
ghost use Rattle.pt_graph_text.specs.declared.version.Version.{Version};
ghost use Rattle.pt_graph_text.specs.Decoding.{Decodes, DecodesEach, whole, field, optional_field, place, has_members, has_items, each_from};

use crate::reading::{Unread, read_value};
use crate::version::Version;
use crate::word::Word;
use json::Reader;
use pt_tags::List;
use serde_json::Value;
use std::alloc::Global;

/// Why a value was not decoded.
#[derive(Clone, Copy, Debug, PartialEq, Eq)]
pub enum Misfit {
    Memory,
    /// A member is missing, is too many, or is not of the wanted form.
    Member,
}

/// Why an array was not decoded.
#[derive(Clone, Copy, Debug, PartialEq, Eq)]
pub enum Stop {
    Memory,
    /// The index of the first item that is not of the wanted form.
    At(usize),
}

/// A part of the file that can be decoded from a JSON value.
pub trait Decode: Drop {
    ghost decoded: { Version → Data → Option Self };

    fn decode(alloc: Global, version: Version, value: &Value) -> Result<Self, Misfit>
        ensures { Decodes (decoded version (view value.now)) result };

    /// Reads and decodes the next value; `None` if it is not of the wanted form.
    fn read(
        alloc: Global,
        version: Version,
        reader: &mut Reader<'_>,
        depth: usize,
    ) -> Result<Option<Self>, Unread>
        ensures ok { IfOk result
            (λ part. (d : Data) × (converted of_json (value depth reader.old)
            ≡ Some (d, reader.new))
            × (part ≡ decoded version d)) }
        ensures shorter { OnOk result (length reader.new < length reader.old) }
        ensures err { result ≡ Err Unread.NotJson
            → converted of_json (value depth reader.old) ≡ None }
    {
        let value = read_value(alloc, reader, depth)?;
        match Self::decode(alloc, version, &value) {
            Ok(part) => Ok(Some(part)),
            Err(Misfit::Member) => Ok(None),
            Err(Misfit::Memory) => Err(Unread::Memory),
        }
    }
}

impl Decode for i64 {
    ghost decoded = { λ v. whole };

    fn decode(_alloc: Global, _version: Version, value: &Value) -> Result<i64, Misfit> {
        match value.as_i64() {
            Some(number) => Ok(number),
            None => Err(Misfit::Member),
        }
    }
}

impl Decode for Word {
    ghost decoded = { λ v. as_str };

    fn decode(alloc: Global, _version: Version, value: &Value) -> Result<Word, Misfit> {
        let Some(text) = value.as_str() else {
            return Err(Misfit::Member);
        };
        match Word::new(alloc, text) {
            Ok(word) => Ok(word),
            Err(_) => Err(Misfit::Memory),
        }
    }
}

/// The decoded member with this key.
pub fn member<T: Decode>(
    alloc: Global,
    version: Version,
    value: &Value,
    key: &str,
) -> Result<T, Misfit>
    ensures { Decodes (field (T.decoded version) key.now (view value.now)) result }
{
    match value.get(key) {
        Some(found) => T::decode(alloc, version, found),
        None => Err(Misfit::Member),
    }
}

/// The decoded member with this key; `None` if there is no such member.
pub fn optional_member<T: Decode>(
    alloc: Global,
    version: Version,
    value: &Value,
    key: &str,
) -> Result<Option<T>, Misfit>
    ensures { Decodes (optional_field (T.decoded version) key.now (view value.now)) result }
{
    match value.get(key) {
        Some(found) => match T::decode(alloc, version, found) {
            Ok(part) => Ok(Some(part)),
            Err(misfit) => Err(misfit),
        },
        None => Ok(None),
    }
}

/// The decoded item at this index.
pub fn item<T: Decode>(
    alloc: Global,
    version: Version,
    value: &Value,
    index: usize,
) -> Result<T, Misfit>
    ensures { Decodes (place (T.decoded version) index (view value.now)) result }
{
    match value.get(index) {
        Some(found) => T::decode(alloc, version, found),
        None => Err(Misfit::Member),
    }
}

/// Whether the value is an array of exactly `count` items.
pub fn has_items(value: &Value, count: usize) -> bool
    ensures { result ≡ has_items count (view value.now) }
{
    match value.as_array() {
        Some(items) => items.as_slice().len() == count,
        None => false,
    }
}

/// Whether the value is an object of exactly `count` members.
pub fn has_members(value: &Value, count: usize) -> bool
    ensures { result ≡ has_members count (view value.now) }
{
    match value.as_object() {
        Some(members) => members.len() == count,
        None => false,
    }
}

/// The decoded items of an array.
pub fn each<T: Decode>(alloc: Global, version: Version, items: &[Value]) -> Result<List<T>, Stop>
    ensures { DecodesEach (each_from (T.decoded version) 0 (items_view items.now)) result }
{
    let mut found = Vec::new(alloc);
    for (i, item) in items.iter().enumerate() {
        match T::decode(alloc, version, item) {
            Ok(part) => {
                if found.push(part).is_err() {
                    return Err(Stop::Memory);
                }
            }
            Err(Misfit::Member) => return Err(Stop::At(i)),
            Err(Misfit::Memory) => return Err(Stop::Memory),
        }
    }
    Ok(List::new(found))
}
