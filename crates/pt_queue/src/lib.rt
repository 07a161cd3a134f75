//! The pending events of a platform, taken unit by unit.
//!
//! Each input of each actor has a line of events in rising order of tag, and a table gives the input groups of every actor.
//! The queue also has the least tag of each unit that has events, and remembers for each unit which one held it up last.
//! Contracts mention only which value waits at each input and tag, so another representation could meet them too.
//!
//! Read first: `Queue`, then `specs/Events.antt`.
#![tactic(auto)]

mod blocked;
mod events;
mod few_words;
mod groups;
mod holders;
mod least_tags;
mod line;
mod lines;
mod loose;
mod marks;
mod queue;
mod taking;
mod waiting;

pub use events::reaches;
pub use least_tags::place_of;
pub use queue::Queue;
pub use waiting::Waiting;
