//! What changes from turn to turn, and what stays the same.

use crate::Lists;
use crate::fault::TurnFault;
use crate::state::Fields;
use crate::taken_ends::TakenEnds;
use pt_history::History;
use pt_offsets::Plan;

/// What changes from turn to turn of a platform.
#[derive(Drop)]
pub struct Progress {
    pub fields: Fields,
    pub history: History,
    pub ended: TakenEnds,
    /// What the current turn has done; empty between turns.
    pub lists: Lists,
    pub fault: Option<TurnFault>,
    /// No row is seen by a reading below this one, in microseconds.
    pub next_row: u64,
}

/// What stays the same from turn to turn of a platform: its plan, its number, and its closing reading in microseconds.
#[derive(Clone, Copy)]
pub struct Setup<'a> {
    pub plan: &'a Plan,
    pub number: u32,
    pub closing: u64,
}
