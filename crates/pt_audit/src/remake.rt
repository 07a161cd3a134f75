//! A platform makes again the turns of a log.
//!
//! A log gives hints of each turn: its readings, the numbers of the claims whose results were posted, its messages, and how
//! many claims were made. From the state before it, at most one turn has these hints. `remake_turn` makes it.
//!
//! Read first: `remake_turn`, then `specs/Remaking/Remade.antt`.

mod coming;
mod form;
mod posting;
mod remaking;
mod sending;
mod turning;

pub use remaking::{TurnBuffers, remake_turn};
