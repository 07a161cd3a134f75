//! What a seat at the board knows. Only contracts speak of these types: no value of them is made.
use pt_types::{Graph, Task};
use std::collections::LinkedList;

/// What a seat knows of one slot.
pub struct SlotView {
    /// For the keeper: the number and the task of the placement that is out there.
    pub out: Option<(u64, Task)>,
    /// For a hand: the number and the task of the placement that it claimed there.
    pub mine: Option<(u64, Task)>,
    /// Whether this seat has taken the slot's content out.
    pub holds: bool,
    /// How often this seat loaded the word.
    pub loads: u64,
    /// How many exchanges of the word this seat lost.
    pub lost: u64,
    /// The last word that this seat found.
    pub last: u64,
}

/// What a seat knows.
pub struct View {
    pub is_keeper: bool,
    /// The board's graph; `None` if the seat was joined to another.
    pub graph: Option<Graph>,
    /// What it knows of each slot, by the slot's index.
    pub parts: LinkedList<SlotView>,
}
