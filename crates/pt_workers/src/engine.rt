//! A threaded run.

ghost use Rattle.std.specs.Prelude.{◌≡◌, ◌<◌, ◌≤◌, ℕ, IfOk, List, Some, length};
ghost use Rattle.std.specs.Arc.{arc_value};
ghost use Rattle.pt_io.specs.Clocks.{viewed};
ghost use Rattle.pt_types.specs.declared.rows.Row.{Row};
ghost use Rattle.pt_offsets.specs.Plans.{Parts};
ghost use Rattle.pt_turn.specs.All.{AreAll, AreNew, AreReady, IsReady};
ghost use Rattle.pt_engine.specs.Outcome.{IsOutcome};
ghost use Rattle.pt_workers.specs.Opened.{AreBegun, AreNamedBy, AreOpenEnds};

use crate::ends::{Settled, settle_run};
use crate::opening::{Ends, open_links};
use crate::placing::make_linked;
use crate::reporting::{fault_at, show_histories};
use crate::work::{Firing, Gate, free};
use pt_blocks::Blocks;
use pt_engine::{ClockedRounds, Rounds};
use pt_io::Clock;
use pt_offsets::Plan;
use pt_pool::Run;
use pt_tags::Memory;
use pt_turn::Platform;
use std::alloc::Global;
use std::marker::Brand;
use std::sync::{Arc, Wait};
use std::thread::Threads;

/// The run that `J` names: its links are open, and its clocks have not been read yet.
fn run_named<J: Run + Send + Sync, C: Clock + Send, G: Gate + Sync, R: Threads + Wait + Sync>(
    rt: &R,
    alloc: Global,
    plan: Arc<Plan>,
    platforms: Vec<Platform>,
    clocks: Vec<C>,
    ends: Ends,
    blocks: &Blocks,
    workers: u32,
    most: usize,
    gate: &G,
) -> Result<ClockedRounds<C>, Memory>
    requires plan { J.plan ≡ Some (arc_value plan) }
    requires all { AreAll (arc_value plan) J.rows platforms.items }
    requires fresh { AreNew platforms.items }
    requires clocks { length clocks.items ≡ length platforms.items }
    requires begun { AreBegun J.began J.fixed (viewed C.readings C.ahead clocks.items) }
    requires open { AreOpenEnds (arc_value plan)
        (length (arc_value plan).graph.links) ends.outlets.items ends.inlets.items }
    requires named { AreNamedBy J.link ends.outlets.items }
    requires most { (1 ≤ most) × (most ≤ 32) }
    ensures outcome { IfOk result (λ e. (p : Parts) (rows : ℕ → List Row) →
        AreReady p rows platforms.items →
        IsOutcome p rows (viewed C.readings C.ahead clocks.items)
        (viewed C.readings C.ahead e.clocks.items) e.rounds.platforms.items e.rounds.fault) }
{
    let shared = Arc::try_clone(&plan)?;
    let linked_platforms = make_linked::<J, C>(alloc, &plan, platforms, clocks, ends)?;
    let crate::work::Ended {
        linked_platforms,
        failed,
    } = free(
        rt,
        alloc,
        linked_platforms,
        Firing::new(shared),
        blocks,
        workers,
        most,
        gate,
    )?;
    let Settled { platforms, clocks } = settle_run(rt, alloc, linked_platforms, &plan)?;
    show_histories(platforms.as_slice());
    let fault = fault_at(platforms.as_slice(), failed);
    Ok(ClockedRounds {
        rounds: Rounds { platforms, fault },
        clocks,
    })
}

/// Runs all platforms of one plan, just opened and in the order of its graph, each by its own clock: `workers` threads visit
/// them, in any order. A platform claims at most `most` units at a visit. The gate is called between the claim and the firing
/// of each task.
///
/// With 2 workers and 3 platforms, worker 0 begins at platform 0 and worker 1 at platform 1, and each visits all three.
///
/// If no fault is returned, all platforms are finished; otherwise the first platform that has a fault is named, with the fault.
///
/// If the readings of a clock stop rising, the run may go on forever. If memory runs out, platforms and clocks are lost.
pub fn threaded<C: Clock + Send, G: Gate + Sync, R: Threads + Wait + Sync>(
    rt: &R,
    alloc: Global,
    platforms: Vec<Platform>,
    clocks: Vec<C>,
    blocks: &Blocks,
    workers: u32,
    most: usize,
    gate: &G,
) -> Result<ClockedRounds<C>, Memory>
    requires some { 0 < length platforms.items }
    requires ready { IsReady platforms.items }
    requires clocks { length clocks.items ≡ length platforms.items }
    requires most { (1 ≤ most) × (most ≤ 32) }
    ensures outcome { IfOk result (λ e. (plan : Parts) (rows : ℕ → List Row) →
        AreReady plan rows platforms.items →
        IsOutcome plan rows (viewed C.readings C.ahead clocks.items)
        (viewed C.readings C.ahead e.clocks.items) e.rounds.platforms.items e.rounds.fault) }
{
    let plan = Arc::try_clone(platforms[0].plan())?;
    let ends = open_links(alloc, &plan)?;
    run_named::<Brand, C, G, R>(
        rt, alloc, plan, platforms, clocks, ends, blocks, workers, most, gate,
    )
}
