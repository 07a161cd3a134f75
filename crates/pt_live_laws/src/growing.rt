//! Rows that come later: a history stays legal if rows that are seen after its last reading are added.
//!
//! Read first: `specs/Growth/Growing.antt`.

mod laws;

pub use laws::{histories_grow, rows_grow, turns_grow, visits_grow};
