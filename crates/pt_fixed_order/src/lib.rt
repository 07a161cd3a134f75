//! The engine in fixed order: it visits all platforms in the order of the graph, again and again, each at the next reading of
//! its own clock, until all are finished or one has a fault.
//!
//! Read first: `alone`, then `specs/Outcome.antt`.
#![tactic(auto)]

mod asking;
mod engine;
mod going_on;
pub mod live;
mod visiting;

pub use engine::alone;
