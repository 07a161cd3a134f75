//! What an engine's run leaves.

use pt_turn::{Platform, TurnFault};

/// The most units that a platform claims in a turn of a paced or of a replayed run.
pub const CLAIMS_A_TURN: usize = 64;

/// All platforms after a run, in the order of the graph; and the fault that ended the run, with the number of its platform. With
/// no fault all platforms are finished.
///
/// If platform 2 needed more claims than it may make, the fault is `Some((2, TurnFault::Long))`.
#[derive(Drop)]
pub struct Rounds {
    pub platforms: Vec<Platform>,
    pub fault: Option<(u32, TurnFault)>,
}

/// The same after a run by clocks, with the clocks of the platforms.
#[derive(Drop)]
pub struct ClockedRounds<C> {
    pub rounds: Rounds,
    pub clocks: Vec<C>,
}
