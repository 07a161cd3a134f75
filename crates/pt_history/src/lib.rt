//! The history of a platform: what it posted, entered, took, claimed and sent in each turn.
//!
//! Each of the five lists is stored flat for all turns: its items one after another, and the index at which each turn's
//! part starts (`Ends`). Of claims and results only the values that are there are stored, and a result refers to its claim
//! (`Work`). Readings and starts mostly repeat those of the turn before, and tags those of the claim before, and equal
//! neighbours are stored once (`Repeats`, `ListStarts`). Starts that are 0, 1, 2 and so on are only counted.
//! Most heads are of single turns, of which only the reading is stored (`PastHeads`).
//! A run of quiet turns is stored as one turn: `begin` joins the last two as defined in pt_semantics.
//! Memory is reserved before a turn, so that a turn allocates nothing.
//!
//! Read first: `History`, then `specs/Turns.antt`.
#![tactic(auto)]

mod cells;
mod claims;
mod ends;
mod head;
mod heads;
mod history;
mod indices;
mod levels;
mod list_starts;
mod marks;
mod miss;
mod numbers;
mod past_heads;
mod pieces;
mod posted_at;
mod repeats;
mod room;
mod sources;
mod work;
mod work_lists;

pub use claims::Mark;
pub use head::Head;
pub use history::History;
pub use levels::{HeadLevels, Levels, TurnLevels};
pub use miss::Miss;
pub use pieces::Pieces;
pub use posted_at::PostedAt;
pub use room::HistoryRoom;
