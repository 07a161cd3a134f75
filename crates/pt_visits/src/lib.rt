//! A visit of a platform by an engine that owns the platform and all links: it takes the messages that have arrived, makes
//! one turn, pushes the messages to send, and fires the tasks that were claimed.
//!
//! Read first: `visit`, then `specs/Visited.antt`.
#![tactic(auto)]

mod desk;
mod firing;
mod least;
mod pushing;
mod taking;
mod visiting;

pub use desk::Desk;
pub use firing::fire_one;
pub use least::lesser;
pub use visiting::{visit, visit_knowing};
