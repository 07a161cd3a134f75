//! The recorded transit times and clock lags of a network: reads them from a file, and finds the first that breaks a stated
//! bound.
//!
//! An air file has comma-separated values, in the columns `what`, `name` and `value`. A row `lag,PLATFORM,NUMBER` says how far
//! the clock of a platform lags behind true time; the transit of the k-th event message of a sender is in the k-th row
//! `transit,SENDER,NUMBER`. What a text says, or its first fault, is `air_of` in `specs/AirOf.antt`.
//!
//! Read first: `read_air` with `specs/Rows.antt`, then `specs/Bounds.antt`.
#![tactic(auto)]

mod breach;
mod fault;
mod lines;
mod reader;
mod record;
mod row;
mod times;

pub use fault::AirFault;
pub use lines::fault_line;
pub use reader::read_air;
