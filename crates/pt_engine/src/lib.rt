//! All platforms of a plan, owned by one engine: what the platforms, the pipes and the pending results represent between two
//! visits, and what a visit does to it.
//!
//! Read first: `specs/Shown.antt`, then `specs/Showing.antt`.
#![tactic(auto)]

mod asking;
mod laws;
mod resting;
mod rests;
mod rounds;
mod starting;

pub use asking::{are_finished, first_fault, was_quiet};
pub use laws::{may_come, shown_grows, start_shows, visit_shows};
pub use resting::{all_idle_until, are_empty, idle_time};
pub use rests::{Rests, SPARE};
pub use rounds::{CLAIMS_A_TURN, ClockedRounds, Rounds};
pub use starting::{no_results, pipes};
