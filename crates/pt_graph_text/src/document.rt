//! The graph file as it is written, before its names and numbers are checked.

ghost use Rattle.std.specs.Prelude.{◌≡◌, Option};
ghost use Rattle.serde_json.specs.View.{view};
ghost use Rattle.pt_graph_text.specs.Rows.{row_members};

use crate::decode::{
    Decode, Misfit, Stop, each, has_items, has_members, item, member, optional_member,
};
use crate::inner::with_inner;
use crate::kinds::{KindText, kind_of};
use crate::object::{Object, read_object};
use crate::reading::Unread;
use crate::version::Version;
use crate::word::Word;
use json::Reader;
use pt_tags::List;
use serde_json::Value;
use std::alloc::Global;

/// A row of a machine.
#[derive(Drop)]
pub struct RowText {
    pub state: i64,
    pub low: i64,
    pub high: i64,
    pub next: i64,
    /// An output and the value that it gets.
    pub emit: Option<(i64, i64)>,
    /// The name of a block.
    pub guard: Option<Word>,
}

/// An actor.
#[derive(Drop)]
pub struct ActorText {
    pub name: Word,
    pub platform: Word,
    pub kind: KindText,
}

/// A wire, with the names of its actors.
#[derive(Drop)]
pub struct WireText {
    pub from: Word,
    pub output: i64,
    pub to: Word,
    pub input: i64,
}

/// A link, with the names of its actors.
#[derive(Drop)]
pub struct LinkText {
    pub from: Word,
    pub to: Word,
    pub delay: i64,
}

/// The names of two platforms and their clock error, in microseconds.
#[derive(Drop)]
pub struct PairText {
    pub a: Word,
    pub b: Word,
    pub error: i64,
}

/// The numbers of the top object.
#[derive(Clone, Copy, Debug)]
pub struct TopNumbers {
    /// The member `ptides`.
    pub version: i64,
    pub until: i64,
    pub clock_error: i64,
}

/// The whole file.
#[derive(Drop)]
pub struct Document {
    pub version: Version,
    pub head: TopNumbers,
    pub platforms: List<Word>,
    pub actors: List<ActorText>,
    pub wires: List<WireText>,
    pub links: List<LinkText>,
    /// Empty in version 1.
    pub pairs: List<PairText>,
}

impl Decode for LinkText {
    ghost use Rattle.pt_graph_text.specs.Documents.{link_of};

    ghost decoded = { link_of };

    #[tactic(auto, unfolding(crate::specs::Documents::link_of))]
    fn decode(alloc: Global, version: Version, value: &Value) -> Result<LinkText, Misfit> {
        if !has_members(value, 3) {
            return Err(Misfit::Member);
        }
        Ok(LinkText {
            from: member(alloc, version, value, "from")?,
            to: member(alloc, version, value, "to")?,
            delay: member(alloc, version, value, "delay")?,
        })
    }
}

impl Decode for WireText {
    ghost use Rattle.pt_graph_text.specs.Documents.{wire_of};

    ghost decoded = { wire_of };

    #[tactic(auto, unfolding(crate::specs::Documents::wire_of))]
    fn decode(alloc: Global, version: Version, value: &Value) -> Result<WireText, Misfit> {
        if !has_items(value, 4) {
            return Err(Misfit::Member);
        }
        Ok(WireText {
            from: item(alloc, version, value, 0)?,
            output: item(alloc, version, value, 1)?,
            to: item(alloc, version, value, 2)?,
            input: item(alloc, version, value, 3)?,
        })
    }
}

impl Decode for PairText {
    ghost use Rattle.pt_graph_text.specs.Documents.{pair_of};

    ghost decoded = { pair_of };

    #[tactic(auto, unfolding(crate::specs::Documents::pair_of))]
    fn decode(alloc: Global, version: Version, value: &Value) -> Result<PairText, Misfit> {
        if !has_items(value, 3) {
            return Err(Misfit::Member);
        }
        Ok(PairText {
            a: item(alloc, version, value, 0)?,
            b: item(alloc, version, value, 1)?,
            error: item(alloc, version, value, 2)?,
        })
    }
}

/// The number of members that a row must have.
fn row_members(version: Version, value: &Value) -> usize
    ensures { result ≡ row_members version (view value.now) }
{
    if version.is_second() && value.get("guard").is_some() {
        6
    } else {
        5
    }
}

impl Decode for RowText {
    ghost use Rattle.pt_graph_text.specs.Rows.{row_text_of};

    ghost decoded = { row_text_of };

    #[tactic(auto, unfolding(crate::specs::Rows::row_text_of))]
    fn decode(alloc: Global, version: Version, value: &Value) -> Result<RowText, Misfit> {
        if !has_members(value, row_members(version, value)) {
            return Err(Misfit::Member);
        }
        Ok(RowText {
            state: member(alloc, version, value, "state")?,
            low: member(alloc, version, value, "low")?,
            high: member(alloc, version, value, "high")?,
            next: member(alloc, version, value, "next")?,
            emit: member(alloc, version, value, "emit")?,
            guard: optional_member(alloc, version, value, "guard")?,
        })
    }
}

impl Decode for Option<(i64, i64)> {
    ghost use Rattle.pt_graph_text.specs.Rows.{emit_of};

    ghost decoded = { λ v. emit_of };

    #[tactic(auto, unfolding(crate::specs::Rows::emit_of))]
    fn decode(
        alloc: Global,
        version: Version,
        value: &Value,
    ) -> Result<Option<(i64, i64)>, Misfit> {
        if value.is_null() {
            return Ok(None);
        }
        if !has_items(value, 2) {
            return Err(Misfit::Member);
        }
        let output = item(alloc, version, value, 0)?;
        let given = item(alloc, version, value, 1)?;
        Ok(Some((output, given)))
    }
}

impl<T: Decode> Decode for List<T> {
    ghost use Rattle.pt_graph_text.specs.Rows.{list_of};

    ghost decoded = { λ v. list_of (T.decoded v) };

    fn decode(alloc: Global, version: Version, value: &Value) -> Result<List<T>, Misfit> {
        let Some(items) = value.as_array() else {
            return Err(Misfit::Member);
        };
        match each(alloc, version, items.as_slice()) {
            Ok(parts) => Ok(parts),
            Err(Stop::At(_)) => Err(Misfit::Member),
            Err(Stop::Memory) => Err(Misfit::Memory),
        }
    }
}

impl Decode for ActorText {
    ghost use Rattle.pt_graph_text.specs.Documents.{actor_of};

    ghost decoded = { actor_of };

    #[tactic(auto, unfolding(crate::specs::Documents::actor_of))]
    fn decode(alloc: Global, version: Version, value: &Value) -> Result<ActorText, Misfit> {
        let kind: Word = member(alloc, version, value, "kind")?;
        Ok(ActorText {
            name: member(alloc, version, value, "name")?,
            platform: member(alloc, version, value, "platform")?,
            kind: kind_of(alloc, version, kind.as_str(), value)?,
        })
    }

    fn read(
        alloc: Global,
        version: Version,
        reader: &mut Reader<'_>,
        depth: usize,
    ) -> Result<Option<ActorText>, Unread> {
        let Object { left, lists } = read_object(alloc, version, reader, depth)?;
        match ActorText::decode(alloc, version, &left) {
            Ok(actor) => Ok(with_inner(actor, lists)),
            Err(Misfit::Member) => Ok(None),
            Err(Misfit::Memory) => Err(Unread::Memory),
        }
    }
}
