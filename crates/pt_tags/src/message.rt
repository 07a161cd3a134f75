//! The messages on a link.

use crate::tag::Tag;

/// A message on a link.
#[derive(Clone, Copy, Debug, PartialEq, Eq)]
pub enum Message {
    /// An event for the receiver, at the tag that it has at the sender.
    Event {
        /// The tag of the event.
        tag: Tag,
        /// The value.
        value: i64,
    },
    /// The last message: no other comes on this link.
    End,
}
