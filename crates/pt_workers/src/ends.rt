//! The ends of the links between linked platforms, each in the place of its link's number. After a run all links are settled.
//!
//! Read first: `settle_run`, then `specs/LinkEnds/Settled.antt`.

mod laws;
mod places;
mod settling;

pub use laws::numbered_are_in_order;
pub use places::{collect, lay};
pub use settling::{Settled, settle_run};
