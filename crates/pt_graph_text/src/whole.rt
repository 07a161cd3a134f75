//! The whole file as it is written.

ghost use Rattle.std.specs.Prelude.{◌≡◌, ◌≢◌, Some, None, IfOk, IfErr};
ghost use Rattle.serde_json.specs.Data.{Data};
ghost use Rattle.serde_json.specs.Read.{read};
ghost use Rattle.serde_json.specs.View.{view};
ghost use Rattle.pt_graph_text.specs.Decoding.{Decodes};
ghost use Rattle.pt_graph_text.specs.Faults.{Gives, at, or_fault, top, array_parts};
ghost use Rattle.pt_graph_text.specs.Apart.{without_items, members_in};
ghost use Rattle.pt_graph_text.specs.Arrays.{arrays_of, pairs_in, document_with};
ghost use Rattle.pt_graph_text.specs.Whole.{head_of, top_members, document_of_text};

use crate::apart::Listed;
use crate::arrays::Arrays;
use crate::decode::{Misfit, has_members, member};
use crate::document::{Document, PairText, TopNumbers};
use crate::fault::{GraphFault, Part, Place};
use crate::object::{Object, read_object};
use crate::reading::Unread;
use crate::version::{Version, version_of};
use json::{Reader, Scratch};
use pt_tags::List;
use serde_json::Value;
use std::alloc::Global;

/// The depth to which arrays and objects may nest.
const MOST_DEPTH: usize = 127;

/// The place of a part and an index.
pub fn place(part: Part, index: usize) -> Place
    ensures { result ≡ at part index }
{
    Place {
        part,
        index: index.min(u32::MAX as usize) as u32,
    }
}

/// The document of a text, or its first fault.
///
/// The version decides how the arrays are decoded, but may come after them in the file. So the text is first read as
/// version 2, and read again if it is of version 1.
pub fn read_document(alloc: Global, text: &str) -> Result<Document, GraphFault>
    ensures { Gives (document_of_text text.now) result }
{
    let Object { left, lists } = read_top(alloc, Version::Second, text)?;
    if version_of(&left).is_second() {
        return document_with(alloc, Version::Second, &left, lists);
    }
    drop(lists);
    drop(left);
    let Object { left, lists } = read_top(alloc, Version::First, text)?;
    document_with(alloc, Version::First, &left, lists)
}

/// Reads the top object, with its arrays decoded as in this version.
fn read_top(alloc: Global, version: Version, text: &str) -> Result<Object<Arrays>, GraphFault>
    ensures ok { IfOk result
        (λ object. (d : Data) × (read text.now ≡ Some d) × (view object.left ≡ without_items d)
        × (object.lists ≡ arrays_of version (members_in d))) }
    ensures err { IfErr result
        (λ e. e ≢ GraphFault.Memory → (e ≡ GraphFault.NotJson) × (read text.now ≡ None)) }
{
    let mut scratch = Scratch::new(alloc);
    let mut reader = Reader::new(text, &mut scratch)?;
    match read_object(alloc, version, &mut reader, MOST_DEPTH) {
        Ok(object) => if reader.next().is_none() {
            Ok(object)
        } else {
            Err(GraphFault::NotJson)
        },
        Err(Unread::NotJson) => Err(GraphFault::NotJson),
        Err(Unread::Memory) => Err(GraphFault::Memory),
    }
}

#[tactic(auto, unfolding(crate::specs::Arrays::document_with))]
fn document_with(
    alloc: Global,
    version: Version,
    left: &Value,
    arrays: Arrays,
) -> Result<Document, GraphFault>
    ensures { Gives (document_with version (view left.now) arrays) result }
{
    let head = match head(alloc, version, left) {
        Ok(head) => head,
        Err(Misfit::Member) => return Err(GraphFault::Member(place(Part::Top, 0))),
        Err(Misfit::Memory) => return Err(GraphFault::Memory),
    };
    let pairs = pairs_in(alloc, version, arrays.pairs);
    let platforms = top(arrays.platforms)?;
    let actors = top(arrays.actors)?;
    let wires = top(arrays.wires)?;
    let links = top(arrays.links)?;
    let pairs = top(pairs)?;
    let platforms = within(Part::Platform, platforms)?;
    let actors = within(Part::Actor, actors)?;
    let wires = within(Part::Wire, wires)?;
    let links = within(Part::Link, links)?;
    let pairs = within(Part::Pair, pairs)?;
    Ok(Document {
        version,
        head,
        platforms,
        actors,
        wires,
        links,
        pairs,
    })
}

/// The numbers of the top object.
#[tactic(auto, unfolding(crate::specs::Whole::head_of))]
fn head(alloc: Global, version: Version, value: &Value) -> Result<TopNumbers, Misfit>
    ensures { Decodes (head_of version (view value.now)) result }
{
    if !has_members(value, top_members(version)) {
        return Err(Misfit::Member);
    }
    Ok(TopNumbers {
        version: member(alloc, version, value, "ptides")?,
        until: member(alloc, version, value, "until")?,
        clock_error: member(alloc, version, value, "clock_error")?,
    })
}

fn top_members(version: Version) -> usize
    ensures { result ≡ top_members version }
{
    match version {
        Version::First => 7,
        Version::Second => 8,
    }
}

/// The clock errors of pairs; version 1 has none.
fn pairs_in(
    alloc: Global,
    version: Version,
    pairs: Option<Listed<PairText>>,
) -> Option<Listed<PairText>>
    ensures { result ≡ pairs_in version pairs }
{
    match version {
        Version::First => Some(Ok(List::new(Vec::new(alloc)))),
        Version::Second => pairs,
    }
}

/// The member of the top object, or the fault if it is missing.
fn top<T>(listed: Option<Listed<T>>) -> Result<Listed<T>, GraphFault>
    ensures { result ≡ or_fault (GraphFault.Member top) listed }
{
    listed.ok_or(GraphFault::Member(place(Part::Top, 0)))
}

/// The parts of an array, or the place of the first that could not be decoded.
fn within<T>(part: Part, listed: Listed<T>) -> Result<List<T>, GraphFault>
    ensures { result ≡ array_parts part listed }
{
    match listed {
        Ok(parts) => Ok(parts),
        Err(index) => Err(GraphFault::Member(place(part, index))),
    }
}
