//! What the rounds come to.

use pt_tags::List;

/// What the rounds come to.
#[derive(Drop)]
pub enum RoundsOutcome {
    /// The least slack of each link's sender.
    Row(List<u64>),
    /// The slacks don't settle: the slacks of each round, and a link whose sender the last one has raised.
    Rising { rows: Vec<List<u64>>, link: u32 },
}
