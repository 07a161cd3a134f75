//! The room of a history.

ghost use Rattle.std.specs.Prelude.{◌≡◌, ◌↔◌, true};
ghost use Rattle.pt_history.specs.Turns.{larger};

/// Room for more turns, and for more items in each of the five lists of all turns together.
#[derive(Clone, Copy, Debug, PartialEq, Eq)]
pub struct HistoryRoom {
    pub turns: usize,
    pub posted: usize,
    pub rows: usize,
    pub taken: usize,
    pub claimed: usize,
    pub sent: usize,
}

impl HistoryRoom {
    /// The greater of the two, number by number.
    pub(crate) fn or_more(self, other: HistoryRoom) -> HistoryRoom
        ensures { result ≡ larger self other }
    {
        HistoryRoom {
            turns: self.turns.max(other.turns),
            posted: self.posted.max(other.posted),
            rows: self.rows.max(other.rows),
            taken: self.taken.max(other.taken),
            claimed: self.claimed.max(other.claimed),
            sent: self.sent.max(other.sent),
        }
    }

    /// Whether no number of `other` is greater.
    pub(crate) fn holds(self, other: HistoryRoom) -> bool
        ensures { (result ≡ true) ↔ (larger self other ≡ self) }
    {
        other.turns <= self.turns
            && other.posted <= self.posted
            && other.rows <= self.rows
            && other.taken <= self.taken
            && other.claimed <= self.claimed
            && other.sent <= self.sent
    }
}
