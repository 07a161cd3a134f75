//! Model time and the plain values that every other crate uses: tags, delays, messages, lists and names.
//!
//! A tag is a time in whole microseconds and a step, the microstep of superdense time. Tags are ordered by
//! time and then by step. A delay is added to a tag part by part: time to time and step to step.
//!
//! Read first: `Tag::plus`. Its definition is `plus` in `specs/Tags.antt`.
#![tactic(auto)]

mod list;
mod memory;
mod message;
mod name;
mod tag;

pub use list::List;
pub use memory::Memory;
pub use message::Message;
pub use name::Name;
pub use tag::{Delay, Reading, Tag, Time, TrueTime};
