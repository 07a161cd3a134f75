//! The files of a graph's sensors: fetches them from a source in graph order, and finds the first late row.
//!
//! Each file is fetched, read and, if late rows are refused, checked for late rows, before the next is fetched. Reading stops at the
//! first fault. What is said of a file is said of its bytes: of those that the source reports, if it does, and else of some
//! (`OfBytes` in `specs/Bytes.antt`).
//!
//! Read first: `recorded` with `specs/Recorded.antt`.
#![tactic(auto)]

mod file;
mod recorded_fault;
mod recorded_rows;

pub use recorded_fault::{LateRows, RecordedFault};
pub use recorded_rows::recorded;
