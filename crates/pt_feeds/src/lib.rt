//! Rows of sensors that come while a run goes on.
//!
//! A trait says what an engine may rely on: each row that a sensor gives has a time up to the reading at which the sensor was
//! asked. `ListFeeds` is in memory, and reports the rows that it gave. `PipeFeeds` takes the lines that threads read from named
//! pipes, devices or plain files by `read_file`, and reports nothing.
//!
//! Read first: `Feeds::next`, with `specs/Given.antt`, then `row_of_line`, with `specs/Lines.antt`.
#![tactic(auto)]

mod arrivals;
mod columns;
mod fault;
mod feeds;
mod fields;
mod inbox;
mod laws;
mod list_feeds;
mod pipe_feeds;
mod reading;
mod sample;

pub use arrivals::{Arrival, LINE_BYTES, Lines};
pub use columns::{Columns, columns_of};
pub use fault::{Column, RowFault};
pub use feeds::{Fed, Feeds};
pub use inbox::Inbox;
pub use laws::says_as_in_files;
pub use list_feeds::{Coming, ListFeeds};
pub use pipe_feeds::PipeFeeds;
pub use reading::read_file;
pub use sample::{Sample, row_of_line};
