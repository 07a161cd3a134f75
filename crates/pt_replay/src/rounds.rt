//! A replayed run of all platforms.

ghost use Rattle.std.specs.Prelude.{◌≡◌, ◌<◌, IfOk, ℕ, List, Some, length, slice_get};
ghost use Rattle.pt_types.specs.declared.rows.Row.{Row};
ghost use Rattle.pt_causality.specs.Ranked.{level_of};
ghost use Rattle.pt_offsets.specs.Plans.{Parts};
ghost use Rattle.pt_turn.specs.Platforms.{PlatformView};
ghost use Rattle.pt_turn.specs.All.{AreReady, IsReady};
ghost use Rattle.pt_replay.specs.Outcome.{IsOutcome};

use crate::going_on::{go_on, time_after};
use crate::starting::{airways, arrivals};
use pt_blocks::Blocks;
use pt_engine::{Rounds, no_results, pipes};
use pt_tags::Memory;
use pt_turn::Platform;
use pt_types::Air;
use pt_visits::Desk;
use std::alloc::Global;

/// Runs all platforms of one plan, just opened and in the order of its graph, with recorded lags of their clocks and transits
/// of their messages: in rounds at a true time, until all are finished, or until after a round in which one took a late message
/// or needed more claims than it may make.
///
/// A message that is sent at true time 100, with a recorded transit of 30, arrives at 130. A platform whose clock lags by 5
/// microseconds takes it in a turn at reading 125.
///
/// A round with a fault is made to its end. A true time that does not fit in 64 bits counts as out of memory.
///
/// `workers` has no effect: a round has at most 1,024 firings of some 10 nanoseconds each, which no other thread could take
/// over in less time, so the caller fires them all.
pub fn replayed(
    alloc: Global,
    platforms: Vec<Platform>,
    air: &Air,
    blocks: &Blocks,
    workers: u32,
) -> Result<Rounds, Memory>
    requires some { 0 < length platforms.items }
    requires ready { IsReady platforms.items }
    requires transits { (i : ℕ) (v : PlatformView) → slice_get platforms.items i ≡ Some v →
        length air.now.transits ≡ length v.plan.graph.links }
    ensures outcome { IfOk result (λ rounds. (plan : Parts) (rows : ℕ → List Row) →
        AreReady plan rows platforms.items →
        IsOutcome plan (level_of plan.ranks) rows air.now rounds.platforms.items rounds.fault) }
{
    let mut platforms = platforms;
    let links = platforms[0].plan().graph().links.as_slice().len();
    let mut airways = airways(alloc, links)?;
    let mut arrivals = arrivals(alloc, platforms.len())?;
    let mut pipes = pipes(alloc, links)?;
    let mut results = no_results(alloc, platforms.as_slice())?;
    let mut desk = Desk::new(alloc);
    let begins = time_after(platforms.as_slice(), airways.as_slice(), air)?;
    let fault = go_on(
        platforms.as_mut_slice(),
        airways.as_mut_slice(),
        arrivals.as_mut_slice(),
        pipes.as_mut_slice(),
        results.as_mut_slice(),
        &mut desk,
        blocks,
        air,
        begins,
    )?;
    Ok(Rounds { platforms, fault })
}
