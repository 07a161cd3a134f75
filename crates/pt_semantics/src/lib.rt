//! The definitions: what a program means and what a platform may do. This crate has no code that runs. The definitions are
//! in `specs/`. Each function has a theorem as its contract, about cycles or lawful graphs (`CycleTheorems`,
//! `LawfulGraphs`). The other theorems are in pt_laws and pt_paced_laws.
//!
//! Read `specs/` in this order. The order of tags is in `Tags` of
//! pt_tags; ports and lookups are in `Ports` and `Lookups` of pt_types.
//!
//! - What a program means: `Lists`, `Edges`, `Laws`, `Firing`, `Meaning`, `Ranks`, `Tables`.
//! - Units and their firings: `Units`, `Behaviours`, `Parts`, `Sorted`, `Cycles`, `Wired`, `Rows`.
//! - When a platform may act: `Paths`, `Bounds`, `Offsets`, `Platform`, `Safe`; the turn in five parts, `Posting`,
//!   `Entering`, `Orderly`, `Taking`, `Claiming`, `Closing`, `Turn`; and `Candidates`, all claims of a turn at once.
//! - Histories: `History`, `Kept`, `Readings`, `Linked`, `Settled`, `Floor`, `Paced`, `Missed`.
//! - True time: `TrueTime`, `Arrivals`, `RecordedTimes`.
//! - Engines: `Visits`, `Rounds`, `FixedOrder`, `Counts`.
#![tactic(auto)]

mod cycles;
mod wiring;

pub use cycles::{
    levels_are_one, levels_are_small, levels_exist, levels_forbid_cycles, ranks_are_one,
    ranks_exist,
};
pub use wiring::lawful_graphs_are_wired;
