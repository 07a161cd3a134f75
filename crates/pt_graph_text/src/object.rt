//! Objects that are read member by member; their arrays are decoded separately.

ghost use Rattle.std.specs.Prelude.{◌≡◌, ◌<◌, Some, None, Err, IfOk, OnOk, length};
ghost use Rattle.json.specs.Json.{value, members};
ghost use Rattle.serde_json.specs.Data.{Data, Members, no_members, object as object_of, put};
ghost use Rattle.serde_json.specs.Read.{of_json, of_members, converted};
ghost use Rattle.serde_json.specs.View.{view};
ghost use Rattle.pt_graph_text.specs.Apart.{hollow, hollow_members, without_items, members_in};
ghost use Rattle.pt_graph_text.specs.declared.version.Version.{Version};

use crate::reading::{Unread, value_from};
use crate::version::Version;
use json::{Reader, Token};
use serde_json::Value;
use serde_json::value::Map;
use std::alloc::Global;

/// The arrays of an object that are decoded separately.
pub trait ObjectArrays: Drop {
    /// The arrays of an object with these members.
    ghost lists_of: { Version → Members → Self };

    fn none() -> Self
        ensures { (version : Version) → result ≡ lists_of version no_members };

    /// Reads the value of one more member; an array is left without items. If a key comes twice, the last member counts.
    fn read(
        &mut self,
        alloc: Global,
        version: Version,
        key: &str,
        reader: &mut Reader<'_>,
        depth: usize,
    ) -> Result<Value, Unread>
        ensures ok { IfOk result
            (λ left. (d : Data) × (converted of_json (value depth reader.old)
            ≡ Some (d, reader.new))
            × (view left ≡ hollow d)
            × ((ms : Members) → self.old ≡ lists_of version ms →
            self.new ≡ lists_of version (put key.now d ms))) }
        ensures shorter { OnOk result (length reader.new < length reader.old) }
        ensures err { result ≡ Err Unread.NotJson
            → converted of_json (value depth reader.old) ≡ None };
}

/// A value; if it is an object, with its arrays decoded separately.
#[derive(Drop)]
pub struct Object<L: ObjectArrays> {
    /// The value; the arrays among its members have no items.
    pub left: Value,
    pub lists: L,
}

/// Reads the next value.
pub fn read_object<L: ObjectArrays>(
    alloc: Global,
    version: Version,
    reader: &mut Reader<'_>,
    depth: usize,
) -> Result<Object<L>, Unread>
    ensures ok { IfOk result
        (λ object. (d : Data) × (converted of_json (value depth reader.old) ≡ Some (d, reader.new))
        × (view object.left ≡ without_items d)
        × (object.lists ≡ L.lists_of version (members_in d))) }
    ensures shorter { OnOk result (length reader.new < length reader.old) }
    ensures err { result ≡ Err Unread.NotJson
        → converted of_json (value depth reader.old) ≡ None }
{
    let token = reader.next().ok_or(Unread::NotJson)?;
    match token {
        Token::BeginObject => {
            if depth == 0 {
                return Err(Unread::NotJson);
            }
            Ok(read_members(alloc, version, reader, depth - 1)?)
        }
        _ => {
            let left = value_from(alloc, token, reader, depth)?;
            Ok(Object {
                left,
                lists: L::none(),
            })
        }
    }
}

/// Reads the members after an opening bracket, and the closing one.
fn read_members<L: ObjectArrays>(
    alloc: Global,
    version: Version,
    reader: &mut Reader<'_>,
    depth: usize,
) -> Result<Object<L>, Unread>
    ensures ok { IfOk result
        (λ object. (ms : Members)
        × (converted (λ ms. of_members ms no_members)
        (members (value depth) (length reader.old) reader.old) ≡ Some (ms, reader.new))
        × (view object.left ≡ object_of (hollow_members ms))
        × (object.lists ≡ L.lists_of version ms)) }
    ensures shorter { OnOk result (length reader.new < length reader.old) }
    ensures err { result ≡ Err Unread.NotJson
        → converted (λ ms. of_members ms no_members)
        (members (value depth) (length reader.old) reader.old) ≡ None }
{
    let mut found = Map::new(alloc);
    let mut lists = L::none();
    'members: while let Some(name) = reader.next_key()? {
        let key = String::from_str(alloc, name)?;
        let left = lists.read(alloc, version, name, reader, depth)?;
        drop(found.insert(key, left)?);
    }
    Ok(Object {
        left: Value::Object(found),
        lists,
    })
}
