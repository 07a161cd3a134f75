//! The rows of sensors: reads their files from a source in graph order, and finds the first late row.
//!
//! A sensor file has comma-separated values, in the columns `time`, `seen` and `value`. The rows
//! of a text, or its first fault, are `rows_of` in `specs/RowsOf.antt`; what holds of these rows
//! is `RowsAreInOrder` in `specs/Order.antt`. Each file is fetched, read and, if late rows are
//! refused, checked for late rows, before the next is fetched. Reading stops at the first fault.
//!
//! The limits of a file follow from the claims of the graph, by `file_limits`.
//!
//! Read first: `recorded` with `specs/Recorded.antt`, then `read_rows`.
#![tactic(auto)]

mod fault;
mod file;
mod late;
mod limits;
mod lines;
mod numbers;
mod reader;
mod recorded_fault;
mod recorded_rows;
mod sensor_rows;

pub use fault::RowFault;
pub use late::first_late;
pub use limits::{FileLimits, file_limits};
pub use lines::{fault_line, late_line};
pub use numbers::limited;
pub use pt_types::Row;
pub use reader::{advance, cells, read_rows, reader_of};
pub use recorded_fault::{LateRows, RecordedFault};
pub use recorded_rows::recorded;
pub use sensor_rows::SensorRows;
