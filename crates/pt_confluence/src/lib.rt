//! Confluence: the claims of all platforms of a plan, gathered into the meaning.
//!
//! Read first: `gather` and `tables_of`, then `specs/Gathered.antt`.
#![tactic(auto)]

mod actuators;
mod gathering;
mod joining;
mod moment;

pub use actuators::tables_of;
pub use gathering::gather;
