//! Misses: results of actuators posted, and events of senders sent, later than their tag's time plus the slack.
//!
//! The history shows them: it has the reading of the turn that posted the result, or after which the event was sent.
//!
//! Read first: `missed`, `missed_in`, then `specs/Misses.antt`.
#![tactic(auto)]

mod platforms;
mod turns;

pub use platforms::missed;
pub use turns::missed_in;
