//! Runs whose rows arrive while they go on: what is true of them. This crate has no code that runs: each function has a theorem as
//! its contract.
//!
//! A history stays legal if rows are added that are seen after its last reading (`growing`). So what is true between two visits in
//! fixed order is true over the rows that have arrived by then, and a finished live run means what the rows that arrived mean.
//! Platforms may also run in processes of their own: `machines` joins their histories.
//!
//! Read first: `specs/Growth/Growing.antt`, `specs/Between.antt` and `specs/Meant.antt`, then `specs/Joining/Machines.antt`.
#![tactic(auto)]

pub mod growing;
mod laws;
pub mod machines;

pub use laws::{going_grows, lines_in_order, live_is_meant, sound_grows};
