//! The engine of replayed runs: it runs all platforms of a plan in rounds, each at one true time, with recorded lags of clocks
//! and transit times of messages.
//!
//! Read first: `replayed`, then `specs/Outcome.antt`.
#![tactic(auto)]

pub mod airway;
mod going_on;
mod passing;
mod rounds;
mod starting;
pub mod visit;

pub use rounds::replayed;
