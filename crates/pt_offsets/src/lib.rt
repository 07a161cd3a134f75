//! Offsets: how long after a tag an event for it can still come, and whether each message can be sent in time.
//!
//! The offset of a unit is the greatest bound minus least delay, over the sensors and receivers that lead to it. Once the
//! clock is past tag time plus offset, none of these can still give the unit an event at the tag or before it (RTAS 2009).
//! `HasOffset` in `specs/Offsets.antt` of pt_semantics is the definition.
//!
//! Read first: `offsets`, then `Plan` and `plan_of`.
#![tactic(auto)]

mod admission;
mod bounds;
mod fault;
mod greatest;
mod plan;
mod planning;
mod table;
mod timing;
mod unit_offsets;
mod words;

pub use admission::offsets;
pub use fault::{OffsetFault, PlanFault};
pub use plan::Plan;
pub use planning::{Unplanned, plan_of};
pub use table::Offsets;
