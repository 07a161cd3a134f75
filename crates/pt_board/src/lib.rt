//! A board of 32 slots, through which tasks go to other threads and their results return.
//!
//! The keeper of the board places tasks and collects results. Each hand claims tasks and hands in their results. A task is
//! claimed by one hand, and what the keeper collects from a slot is the result of the task that it placed there.
//!
//! Read first: `Board`, then `specs/Rule.antt`.
#![tactic(auto)]

mod board;
mod hand;
mod keeper;
mod plays;
mod rule;
mod slots;
mod table;

pub use board::Board;
pub use hand::{Hand, Ticket};
pub use keeper::Keeper;
