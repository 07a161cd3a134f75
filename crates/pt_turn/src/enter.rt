//! Entering: the rows of a platform's sensors that are seen by a reading become waiting events.
//!
//! Sensors come in the order of the graph. The rows of each enter in order, up to the first that is not seen yet.
//!
//! Read first: `enter`, then `after_rows` in `specs/Entering.antt` of pt_semantics.

mod due_from;
mod due_rows;
mod entering;
mod next_row;

pub use due_rows::{count_due, next_seen};
pub use entering::{enter, is_seen};
pub use next_row::enter_from;
