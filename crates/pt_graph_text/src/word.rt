//! A text of a graph file.

ghost use Rattle.std.specs.Prelude.{◌≡◌, IfOk};

use crate::short::ShortText;
use pt_tags::Memory;
use std::alloc::Global;
use std::marker::Model;

/// Where a text lies.
#[derive(Drop)]
pub enum Text {
    Short(ShortText),
    Long(Box<String>),
}

/// A text of a graph file. Contracts see it as the list of its bytes.
///
/// It has 16 bytes, and no block of its own if the text is short: an array may have a text for each three bytes of its file.
#[derive(Drop)]
pub struct Word {
    text: Text,
}

impl Model for Word {
    ghost use Rattle.std.specs.Prelude.{ℕ, List};
    ghost use Rattle.pt_graph_text.specs.Words.{bytes_of};

    ghost Value = { List ℕ };

    ghost view = { λ w. bytes_of w.text };
}

impl Word {
    /// The word with this text.
    pub fn new(alloc: Global, text: &str) -> Result<Word, Memory>
        ensures { IfOk result (λ word. word ≡ text.now) }
    {
        if let Some(short) = ShortText::new(text) {
            return Ok(Word {
                text: Text::Short(short),
            });
        }
        let long = Box::new(alloc, String::from_str(alloc, text)?)?;
        Ok(Word {
            text: Text::Long(long),
        })
    }

    /// The word as text.
    pub fn as_str(&self) -> &str
        ensures { result.now ≡ self.now }
    {
        match &self.text {
            Text::Short(short) => short.as_str(),
            Text::Long(long) => long.as_str(),
        }
    }
}
