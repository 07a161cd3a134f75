//! A run in fixed order.

ghost use Rattle.std.specs.Prelude.{◌≡◌, ◌<◌, ◌≤◌, ℕ, IfOk, List, length};
ghost use Rattle.pt_io.specs.Clocks.{viewed};
ghost use Rattle.pt_types.specs.declared.rows.Row.{Row};
ghost use Rattle.pt_offsets.specs.Plans.{Parts};
ghost use Rattle.pt_turn.specs.All.{AreReady, IsReady};
ghost use Rattle.pt_fixed_order.specs.Outcome.{IsOutcome};

use crate::going_on::go_on;
use pt_blocks::Blocks;
use pt_engine::{ClockedRounds, Rounds, no_results, pipes};
use pt_io::Clock;
use pt_tags::Memory;
use pt_turn::Platform;
use pt_visits::Desk;
use std::alloc::Global;
use std::sync::Wait;

/// Runs all platforms of one plan, just opened and in the order of its graph, each by its own clock: visits the first, the
/// second and so on, again and again, each at the next reading of its clock, until one has a fault or all are finished. A
/// platform claims at most `most` units at a visit.
///
/// Three platforms are visited in the order 0, 1, 2, 0, 1, 2 and so on. A clock that reads 5, 12 and 19 gives its platform turns
/// at 5, 12 and 19.
///
/// If the readings of a clock stop rising, the run may go on forever. If memory runs out, platforms and clocks are lost.
pub fn alone<C: Clock, R: Wait>(
    rt: &R,
    alloc: Global,
    platforms: Vec<Platform>,
    clocks: Vec<C>,
    blocks: &Blocks,
    most: usize,
) -> Result<ClockedRounds<C>, Memory>
    requires some { 0 < length platforms.items }
    requires ready { IsReady platforms.items }
    requires clocks { length clocks.items ≡ length platforms.items }
    requires most { (1 ≤ most) × (most ≤ 64) }
    ensures outcome { IfOk result (λ e. (plan : Parts) (rows : ℕ → List Row) →
        AreReady plan rows platforms.items →
        IsOutcome plan rows most (viewed C.readings C.ahead clocks.items)
        (viewed C.readings C.ahead e.clocks.items) e.rounds.platforms.items e.rounds.fault) }
{
    let mut platforms = platforms;
    let mut clocks = clocks;
    let links = platforms[0].plan().graph().links.as_slice().len();
    let mut pipes = pipes(alloc, links)?;
    let mut results = no_results(alloc, platforms.as_slice())?;
    let mut desk = Desk::new(alloc);
    let fault = go_on(
        rt,
        platforms.as_mut_slice(),
        clocks.as_mut_slice(),
        pipes.as_mut_slice(),
        results.as_mut_slice(),
        &mut desk,
        blocks,
        most,
    )?;
    Ok(ClockedRounds {
        rounds: Rounds { platforms, fault },
        clocks,
    })
}
