//! Made inputs: from a number, a graph of 18 actors on four platforms, and rows for its four sensors.
//!
//! The input is defined in `specs/Input.antt`, and the summary of a run over it in `specs/Summary.antt`.
//!
//! Read first: `made_graph` and `made_rows`, then `made_graphs_can_run`, `made_runs_are_short` and `made_runs_miss_nothing`.
#![tactic(auto)]

mod graphs;
mod laws;
mod rows;
mod sums;

pub use graphs::made_graph;
pub use laws::{made_graphs_can_run, made_runs_are_short, made_runs_miss_nothing};
pub use rows::made_rows;
pub use sums::summary;
