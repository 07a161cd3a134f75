//! Stations: a platform with its clock, the ends of its links, its board and its waiting results. Any thread may visit one under
//! a lock. Without the board it is a linked platform.
//!
//! Read first: `LinkedPlatform` with `specs/LinkedPlatform.antt`, then `station::Station` with `specs/Stations/Stations.antt`.
#![tactic(auto)]

mod facts;
mod linked;
mod putting;
mod run;
pub mod station;
mod taking;
mod visiting;

pub use linked::{LinkedPlatform, Parts, VisitFault};
pub use run::Run;
