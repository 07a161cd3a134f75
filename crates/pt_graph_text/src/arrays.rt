//! The arrays of the top object.

use crate::apart::{Listed, read_apart, read_hollow};
use crate::document::{ActorText, LinkText, PairText, WireText};
use crate::object::ObjectArrays;
use crate::reading::Unread;
use crate::version::Version;
use crate::word::Word;
use json::Reader;
use serde_json::Value;
use std::alloc::Global;

/// The arrays of the top object; `None` for one that is missing or is not an array.
#[derive(Drop)]
pub struct Arrays {
    pub platforms: Option<Listed<Word>>,
    pub actors: Option<Listed<ActorText>>,
    pub wires: Option<Listed<WireText>>,
    pub links: Option<Listed<LinkText>>,
    pub pairs: Option<Listed<PairText>>,
}

impl ObjectArrays for Arrays {
    ghost use Rattle.pt_graph_text.specs.Arrays.{arrays_of};

    ghost lists_of = { arrays_of };

    fn none() -> Arrays {
        Arrays {
            platforms: None,
            actors: None,
            wires: None,
            links: None,
            pairs: None,
        }
    }

    fn read(
        &mut self,
        alloc: Global,
        version: Version,
        key: &str,
        reader: &mut Reader<'_>,
        depth: usize,
    ) -> Result<Value, Unread> {
        match key {
            "platforms" => Ok(read_apart(alloc, version, &mut self.platforms, reader, depth)?),
            "actors" => Ok(read_apart(alloc, version, &mut self.actors, reader, depth)?),
            "wires" => Ok(read_apart(alloc, version, &mut self.wires, reader, depth)?),
            "links" => Ok(read_apart(alloc, version, &mut self.links, reader, depth)?),
            "clock_errors" => Ok(read_apart(alloc, version, &mut self.pairs, reader, depth)?),
            _ => Ok(read_hollow(alloc, version, reader, depth)?),
        }
    }
}
