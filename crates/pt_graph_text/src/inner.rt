//! The arrays of an actor.

ghost use Rattle.std.specs.Prelude.{◌≡◌};
ghost use Rattle.pt_graph_text.specs.Inner.{kind_with, with_inner};

use crate::apart::{Listed, read_apart, read_hollow};
use crate::document::{ActorText, RowText};
use crate::kinds::KindText;
use crate::object::ObjectArrays;
use crate::reading::Unread;
use crate::version::Version;
use json::Reader;
use serde_json::Value;
use std::alloc::Global;

/// The arrays of an actor; `None` for one that is missing or is not an array.
#[derive(Drop)]
pub struct Inner {
    pub rows: Option<Listed<RowText>>,
    pub cells: Option<Listed<i64>>,
}

impl ObjectArrays for Inner {
    ghost use Rattle.pt_graph_text.specs.Inner.{inner_of};

    ghost lists_of = { inner_of };

    fn none() -> Inner {
        Inner {
            rows: None,
            cells: None,
        }
    }

    fn read(
        &mut self,
        alloc: Global,
        version: Version,
        key: &str,
        reader: &mut Reader<'_>,
        depth: usize,
    ) -> Result<Value, Unread> {
        match key {
            "rows" => Ok(read_apart(alloc, version, &mut self.rows, reader, depth)?),
            "cells" => Ok(read_apart(alloc, version, &mut self.cells, reader, depth)?),
            _ => Ok(read_hollow(alloc, version, reader, depth)?),
        }
    }
}

/// The actor with these rows or cells, if they were decoded.
pub fn with_inner(actor: ActorText, inner: Inner) -> Option<ActorText>
    ensures { result ≡ with_inner inner actor }
{
    let ActorText {
        name,
        platform,
        kind,
    } = actor;
    match kind_with(kind, inner) {
        Some(kind) => Some(ActorText {
            name,
            platform,
            kind,
        }),
        None => None,
    }
}

fn kind_with(kind: KindText, inner: Inner) -> Option<KindText>
    ensures { result ≡ kind_with inner kind }
{
    let Inner { rows, cells } = inner;
    match kind {
        KindText::Machine { start, outputs, .. } => match rows {
            Some(Ok(rows)) => Some(KindText::Machine {
                start,
                outputs,
                rows,
            }),
            _ => None,
        },
        KindText::Lanes { .. } => match cells {
            Some(Ok(cells)) => Some(KindText::Lanes { cells }),
            _ => None,
        },
        kind => Some(kind),
    }
}
