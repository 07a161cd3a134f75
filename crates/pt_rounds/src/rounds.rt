//! A paced run of all platforms.

ghost use Rattle.std.specs.Prelude.{◌≡◌, ◌<◌, ℕ, IfOk, List, length};
ghost use Rattle.pt_types.specs.declared.rows.Row.{Row};
ghost use Rattle.pt_causality.specs.Ranked.{level_of};
ghost use Rattle.pt_offsets.specs.Plans.{Parts};
ghost use Rattle.pt_turn.specs.All.{AreReady, IsReady};
ghost use Rattle.pt_rounds.specs.Outcome.{IsOutcome};

use crate::asking::next_reading;
use crate::going_on::go_on;
use pt_blocks::Blocks;
use pt_engine::{Rounds, no_results, pipes};
use pt_tags::Memory;
use pt_turn::Platform;
use pt_visits::Desk;
use std::alloc::Global;

/// Runs all platforms of one plan, just opened and in the order of its graph, under the paced clock: in rounds at one common
/// reading, until all are finished, or until after a round in which one needed more claims than it may make.
///
/// If the next readings of two platforms are 100 and 250, both make their first turn at 100, and the second round is at 100 too,
/// since the first one was not quiet.
///
/// `workers` has no effect: a round has at most 1,024 firings of some 10 nanoseconds each, which no other thread could take
/// over in less time, so the caller fires them all.
pub fn paced(
    alloc: Global,
    platforms: Vec<Platform>,
    blocks: &Blocks,
    workers: u32,
) -> Result<Rounds, Memory>
    requires some { 0 < length platforms.items }
    requires ready { IsReady platforms.items }
    ensures outcome { IfOk result (λ rounds. (plan : Parts) (rows : ℕ → List Row) →
        AreReady plan rows platforms.items →
        IsOutcome plan (level_of plan.ranks) rows rounds.platforms.items rounds.fault) }
{
    let mut platforms = platforms;
    let links = platforms[0].plan().graph().links.as_slice().len();
    let mut pipes = pipes(alloc, links)?;
    let mut results = no_results(alloc, platforms.as_slice())?;
    let mut desk = Desk::new(alloc);
    let begins = next_reading(platforms.as_slice());
    let fault = go_on(
        platforms.as_mut_slice(),
        pipes.as_mut_slice(),
        results.as_mut_slice(),
        &mut desk,
        blocks,
        begins,
    )?;
    Ok(Rounds { platforms, fault })
}
