//! The audit of a log: whether a file is what a run of a plan over these rows writes, tables and log.
//!
//! `specs/LawfulLogs.antt` says when a file is a lawful log, with no word of how it is read. `verify` reads the log part turn
//! by turn: its platforms make each turn again, and the turn's lines are printed again and compared. It stops at the first
//! turn that may not follow.
//!
//! Read first: `specs/LawfulLogs.antt` and `specs/Verdicts.antt`, then `verify`; the theorems are in `specs/Theorems.antt`.
#![tactic(auto)]

mod block;
mod blocks;
mod finishing;
mod laws;
mod limits;
mod linking;
mod log;
mod matching;
mod order;
mod parse;
mod remake;
mod turn;
mod verdict;
mod verification;

pub use laws::{
    fine_logs_are_lawful, lawful_logs_are_fine, printed_logs_are_lawful, verdicts_are_one,
};
pub use limits::log_limit;
pub use verdict::Verdict;
pub use verification::{Verification, verify};
