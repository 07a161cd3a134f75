//! The links whose `End` a platform has taken.

ghost use Rattle.std.specs.Prelude.{◌≡◌, ◌<◌, ◌||◌, [], ℕ, IfOk, false, length, slice_index_or};
ghost use Rattle.std.specs.List.{list_any};
ghost use Rattle.pt_semantics.specs.Lists.{Each};
ghost use Rattle.pt_turn.specs.TakenEnds.{MarksEnds, is_end_on};

use pt_tags::{Memory, Message};
use pt_types::OnLink;
use std::alloc::Global;
use std::marker::Model;

/// The links whose `End` a platform has taken. The history has these messages too, but would have to be searched for them.
///
/// Contracts see a flag for each link of the graph.
#[derive(Drop)]
pub struct TakenEnds {
    flags: Vec<bool>,
}

impl Model for TakenEnds {
    ghost use Rattle.std.specs.Prelude.{Bool, List};

    ghost Value = { List Bool };

    ghost view = { λ ends. ends.flags.items };
}

impl TakenEnds {
    /// None of this number of links.
    pub fn none(alloc: Global, links: usize) -> Result<TakenEnds, Memory>
        ensures { IfOk result (λ ends. MarksEnds links ends []) }
    {
        let flags = vec![in alloc; false; links]?;
        Ok(TakenEnds { flags })
    }

    /// Whether the `End` of a link was taken.
    pub fn has(&self, link: usize) -> bool
        requires { link < length self.now }
        ensures { result ≡ slice_index_or self.now link false }
    {
        self.flags[link]
    }

    /// Adds the links whose `End` is among these messages.
    pub fn mark(&mut self, messages: &[OnLink])
        requires links { Each (λ message. message.link < length self.old) messages.now }
        ensures len { length self.new ≡ length self.old }
        ensures flags { (l : ℕ) → l < length self.old → slice_index_or self.new l false
            ≡ (slice_index_or self.old l false || list_any (is_end_on l) messages.now) }
    {
        for message in messages {
            match message.message {
                Message::End => self.flags[message.link as usize] = true,
                Message::Event { tag: _, value: _ } => (),
            }
        }
    }
}
