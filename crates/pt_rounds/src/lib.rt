//! The paced engine: it runs all platforms of a plan in rounds, each at one common reading, until all are finished or one has
//! made all the claims that it may.
//!
//! Read first: `paced`, then `specs/Outcome.antt`.
#![tactic(auto)]

mod asking;
mod going_on;
mod laws;
mod passing;
mod rounds;

pub use laws::paced_runs_agree;
pub use rounds::paced;
