//! The meaning as a program: one global list of events, whose first event's actor fires, again and again.
//!
//! The list has three parts. The events known at the start are sorted once. Those sent for the tag that runs are at the inputs of
//! their actors, with a bit for each actor that has some, in the order in which actors fire. Those sent for other tags are in order, by
//! tag, rank, actor and port: nearly all in a line, into which a new one goes at the end or at a gap, and the rest in a map. The first of
//! all fires next. The definition is `IsMeaning` in `specs/Meaning.antt` of pt_semantics.
//!
//! A receiver takes the firings as they happen. `Firings` is a compact list of them: only values that are present are stored,
//! one after another, and consecutive firings at one tag share it. Contracts see the list of whole firings.
//!
//! Read first: `reference` and `Receiver`, then `engine.rt`, `world.rt`, `late.rt` and `Firings`.
#![tactic(auto)]

mod bits;
mod cells;
mod current;
mod early;
mod emission;
mod engine;
mod firings;
mod front;
mod gap;
mod gap_buffer;
mod late;
mod later;
mod meaning;
mod moments;
mod opening;
mod order;
mod pending;
mod place;
mod ready;
mod receiver;
mod world;

pub use firings::Firings;
pub use meaning::{MeaningFault, reference};
pub use receiver::Receiver;
