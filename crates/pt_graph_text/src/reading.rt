//! JSON values from the tokens of a text, one at a time.

ghost use Rattle.std.specs.Prelude.{◌≡◌, ◌<◌, ◌≤◌, ◌∷◌, length, Some, None, Err, IfOk, OnOk};
ghost use Rattle.json.specs.Json.{value, items, members};
ghost use Rattle.json.specs.Reads.{token_of};
ghost use Rattle.serde_json.specs.Data.{no_members};
ghost use Rattle.serde_json.specs.Read.{of_json, of_items, of_members, converted};
ghost use Rattle.serde_json.specs.View.{view, items_view, members_view};

use crate::number::number_of;
use json::{Invalid, Reader, Token};
use serde_json::Value;
use serde_json::value::Map;
use std::alloc::{AllocError, AllocFailed, Global};

/// Why no value was read.
#[derive(Clone, Copy, Debug, PartialEq, Eq)]
pub enum Unread {
    Memory,
    /// The text is not JSON, or has a number that is too large, or nests too deep.
    NotJson,
}

impl From<AllocError> for Unread {
    ghost use Rattle.std.specs.Prelude.{◌≡◌};
    ghost use Rattle.pt_graph_text.specs.declared.reading.Unread.TheVariants.{Memory};

    ghost from_gives = { λ _ unread. unread ≡ Memory };

    fn from(_refused: AllocError) -> Unread {
        Unread::Memory
    }
}

impl<T: Drop> From<AllocFailed<T>> for Unread {
    ghost use Rattle.std.specs.Prelude.{◌≡◌};
    ghost use Rattle.pt_graph_text.specs.declared.reading.Unread.TheVariants.{Memory};

    ghost from_gives = { λ _ unread. unread ≡ Memory };

    fn from(_refused: AllocFailed<T>) -> Unread {
        Unread::Memory
    }
}

impl From<Invalid> for Unread {
    ghost use Rattle.std.specs.Prelude.{◌≡◌};
    ghost use Rattle.pt_graph_text.specs.declared.reading.Unread.TheVariants.{NotJson};

    ghost from_gives = { λ _ unread. unread ≡ NotJson };

    fn from(_invalid: Invalid) -> Unread {
        Unread::NotJson
    }
}

/// Reads the next value; arrays and objects may nest `depth` deep.
#[cycle(read)]
pub fn read_value(alloc: Global, reader: &mut Reader<'_>, depth: usize) -> Result<Value, Unread>
    ensures ok { IfOk result
        (λ v. converted of_json (value depth reader.old) ≡ Some (view v, reader.new)) }
    ensures shorter { OnOk result (length reader.new < length reader.old) }
    ensures err { result ≡ Err Unread.NotJson
        → converted of_json (value depth reader.old) ≡ None }
{
    let token = reader.next().ok_or(Unread::NotJson)?;
    value_from(alloc, token, reader, depth)
}

/// Reads the value that begins with this token.
#[cycle(read)]
pub fn value_from(
    alloc: Global,
    token: Token<'_>,
    reader: &mut Reader<'_>,
    depth: usize,
) -> Result<Value, Unread>
    ensures ok { IfOk result (λ v. converted of_json
        (value depth (token_of token.entry ∷ reader.old))
        ≡ Some (view v, reader.new)) }
    ensures shorter { OnOk result (length reader.new ≤ length reader.old) }
    ensures err { result ≡ Err Unread.NotJson
        → converted of_json (value depth (token_of token.entry ∷ reader.old)) ≡ None }
{
    match token {
        Token::String(text) => Ok(Value::String(String::from_str(alloc, text)?)),
        Token::Number(text) => match number_of(text) {
            Some(number) => Ok(Value::Number(number)),
            None => Err(Unread::NotJson),
        },
        Token::Bool(b) => Ok(Value::Bool(b)),
        Token::Null => Ok(Value::Null),
        Token::EndObject | Token::EndArray | Token::Key(_) | Token::Bad => Err(Unread::NotJson),
        Token::BeginArray => {
            if depth == 0 {
                return Err(Unread::NotJson);
            }
            Ok(Value::Array(read_items(alloc, reader, depth - 1)?))
        }
        Token::BeginObject => {
            if depth == 0 {
                return Err(Unread::NotJson);
            }
            Ok(Value::Object(read_members(alloc, reader, depth - 1)?))
        }
    }
}

#[cycle(read)]
fn read_items(alloc: Global, reader: &mut Reader<'_>, depth: usize) -> Result<Vec<Value>, Unread>
    ensures ok { IfOk result
        (λ v. converted of_items (items (value depth) (length reader.old) reader.old)
        ≡ Some (items_view v.items, reader.new)) }
    ensures shorter { OnOk result (length reader.new < length reader.old) }
    ensures err { result ≡ Err Unread.NotJson
        → converted of_items (items (value depth) (length reader.old) reader.old) ≡ None }
{
    let mut found = Vec::new(alloc);
    'items: while !reader.take_end_array() {
        let item = read_value(alloc, reader, depth)?;
        found.push(item)?;
    }
    Ok(found)
}

#[cycle(read)]
fn read_members(
    alloc: Global,
    reader: &mut Reader<'_>,
    depth: usize,
) -> Result<Map<String, Value>, Unread>
    ensures ok { IfOk result
        (λ m. converted (λ ms. of_members ms no_members)
        (members (value depth) (length reader.old) reader.old)
        ≡ Some (members_view m.entries, reader.new)) }
    ensures shorter { OnOk result (length reader.new < length reader.old) }
    ensures err { result ≡ Err Unread.NotJson
        → converted (λ ms. of_members ms no_members)
        (members (value depth) (length reader.old) reader.old) ≡ None }
{
    let mut found = Map::new(alloc);
    'members: while let Some(name) = reader.next_key()? {
        let key = String::from_str(alloc, name)?;
        let member = read_value(alloc, reader, depth)?;
        drop(found.insert(key, member)?);
    }
    Ok(found)
}
