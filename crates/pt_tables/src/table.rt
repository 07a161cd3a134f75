//! The table of one actor.

ghost use Rattle.std.specs.Prelude.{◌≡◌, ◌++◌, OnOk, []};
ghost use Rattle.pt_semantics.specs.Tables.{line};

use crate::line::LineBuffer;
use pt_tags::Tag;
use std::alloc::{AllocError, Global};
use std::marker::Model;

/// The lines of one actor. Contracts see them as bytes.
#[derive(Drop)]
pub(crate) struct Table {
    text: String,
}

impl Model for Table {
    ghost use Rattle.std.specs.Prelude.{List, ℕ, string_bytes};

    ghost Value = { List ℕ };

    ghost view = { λ t. string_bytes t.text };
}

impl Table {
    /// An empty table.
    pub(crate) fn new(alloc: Global) -> Table
        ensures { result ≡ [] }
    {
        Table {
            text: String::new(alloc),
        }
    }

    /// Appends one line.
    pub(crate) fn push_line(&mut self, name: &str, tag: Tag, value: i64) -> Result<(), AllocError>
        ensures { OnOk result (self.new ≡ self.old ++ line name.now tag value) }
    {
        let mut line = LineBuffer::new();
        line.value(value);
        line.field(tag.step);
        line.field(tag.time);
        self.text.push_str(name)?;
        self.text.push_str(line.as_str())
    }

    /// All lines, as text.
    pub(crate) fn as_str(&self) -> &str
        ensures { result.now ≡ self.now }
    {
        self.text.as_str()
    }
}
