//! Replayed runs: their definition, and what is true of them. This crate has no code that runs: each function has a theorem as
//! its contract.
//!
//! Read first: `specs/ReplayState.antt`, then `specs/ReplayRounds.antt`.
#![tactic(auto)]

mod laws;
pub mod within_bounds;

pub use laws::{
    arrivals_never_fall, quiet_rounds_end_replays, quiet_rounds_leave_what_is_later,
    replayed_histories_are_legal, replays_agree, replays_begin, replays_end, true_time_never_falls,
    visits_keep,
};
