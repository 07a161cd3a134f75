//! The threaded engine as one call: platforms and clocks become stations with links between them, workers visit these,
//! and afterwards the platforms and clocks are returned.
//!
//! Read first: `threaded`, then `specs/Opened.antt`.
#![tactic(auto)]

pub mod ends;
mod engine;
mod opening;
mod placing;
mod reporting;
pub mod work;

pub use engine::threaded;
