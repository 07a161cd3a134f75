//! The threaded engine: workers visit the stations under locks. Once they have ended, the caller visits all linked platforms until the
//! run is over.
//!
//! Read first: `free`, then `specs/Working/Orders.antt`.

mod boards;
mod ended;
mod firing;
mod order;
mod places;
mod results;
mod signs;
mod threads;
mod worker_hand;
mod workers;

pub use ended::{Ended, free};
pub use firing::Firing;
pub use places::empty_places;
pub use threads::{Gate, Open};
