//! The engines of runs: rounds by the paced clock, and visits by clocks of their own. The latter may wait: a run by a clock that stops
//! may go on forever.

ghost use Rattle.std.specs.Prelude.{◌≡◌, ◌≤◌, ◌<◌, ◌++◌, ℕ, IfOk, OnOk, List, length, replicate, take, drop};
ghost use Rattle.pt_io.specs.Clocks.{viewed};
ghost use Rattle.pt_types.specs.declared.rows.Row.{Row};
ghost use Rattle.pt_offsets.specs.Plans.{Parts};
ghost use Rattle.pt_turn.specs.All.{AreReady, IsReady};
ghost use Rattle.pt_confluence.specs.Gathered.{AreLegal};
ghost use Rattle.pt_run.specs.Clocks.{AreAsMany};
ghost use Rattle.pt_run.specs.Prompt.{choice_of};
ghost use Rattle.pt_run.specs.Readings.{step_clock};
ghost use Rattle.pt_run.specs.Runs.{LeavesOutcome, clocks_by, paced_run_clocks, read_with, steps_by};
ghost use Rattle.pt_run.specs.Workers.{IsOutcomeOfWorkers};

use crate::own_run::OwnClock;
use pt_blocks::Blocks;
use pt_engine::{ClockedRounds, Rounds};
use pt_fixed_order::alone;
use pt_io::{Clock, StepClock};
use pt_rounds::paced;
use pt_tags::{Memory, Time};
use pt_turn::Platform;
use pt_workers::threaded;
use pt_workers::work::Open;
use std::alloc::Global;
use std::collections::VecDeque;
use std::mem;
use std::sync::Wait;
use std::thread::Threads;

/// The most units that a platform claims at a visit.
const CLAIMS_A_VISIT: usize = 8;

/// Runs all platforms of one plan, just opened and in the order of its graph, by this clock. By the machine's clock it has as many
/// workers, 1 to 64, and reads the first of the clocks that are handed in, one for each platform. By clocks of steps the number of
/// workers has no effect.
pub fn run_by<C: Clock + Send, R: Threads + Wait + Sync>(
    rt: &R,
    alloc: Global,
    platforms: Vec<Platform>,
    workers: u32,
    clock: OwnClock,
    clocks: &mut Vec<C>,
    blocks: &Blocks,
) -> Result<Rounds, Memory>
    requires some { 0 < length platforms.items }
    requires ready { IsReady platforms.items }
    requires clocks { length platforms.items ≤ length clocks.old.items }
    ensures outcome { IfOk result
        (LeavesOutcome (read_with workers (choice_of clock) (viewed C.readings C.ahead clocks.old.items)
        (viewed C.readings C.ahead clocks.new.items)) platforms.items) }
    ensures clocks { OnOk result (AreAsMany (choice_of clock) clocks.old.items clocks.new.items) }
{
    match clock {
        OwnClock::Steps { start, step } => {
            run_by_steps(rt, alloc, platforms, workers, start, step, blocks)
        }
        OwnClock::Machine => run_by_clocks(rt, alloc, platforms, workers, clocks, blocks),
    }
}

/// Runs all platforms of one plan, just opened and in the order of its graph, under the paced clock. The number of workers, 1
/// to 64, has no effect.
pub fn run_paced(
    alloc: Global,
    platforms: Vec<Platform>,
    blocks: &Blocks,
    workers: u32,
) -> Result<Rounds, Memory>
    requires some { 0 < length platforms.items }
    requires ready { IsReady platforms.items }
    ensures { IfOk result (LeavesOutcome (paced_run_clocks workers) platforms.items) }
{
    let rounds = paced(alloc, platforms, blocks, workers)?;
    are_legal(rounds.platforms.as_slice());
    Ok(rounds)
}

/// The recorded turns of each platform are a legal history, as each platform ensures. This is for proofs alone.
fn are_legal(platforms: &[Platform])
    ensures { AreLegal platforms.now }
{
    for platform in platforms {
        let _turns = platform.history().turns();
    }
}

/// Runs all platforms of one plan, just opened and in the order of its graph, by clocks of steps. They are visited in turn: the
/// number of workers, 1 to 64, has no effect.
fn run_by_steps<R: Wait>(
    rt: &R,
    alloc: Global,
    platforms: Vec<Platform>,
    workers: u32,
    start: Time,
    step: u64,
    blocks: &Blocks,
) -> Result<Rounds, Memory>
    requires some { 0 < length platforms.items }
    requires ready { IsReady platforms.items }
    ensures { IfOk result (LeavesOutcome (steps_by workers start step) platforms.items) }
{
    let clocks = step_clocks(alloc, platforms.len(), start, step)?;
    let ClockedRounds { rounds, clocks: _ } = alone(
        rt,
        alloc,
        platforms,
        clocks,
        blocks,
        CLAIMS_A_VISIT,
    )?;
    Ok(rounds)
}

/// As many clocks of steps, which handed out nothing.
fn step_clocks(
    alloc: Global,
    count: usize,
    start: Time,
    step: u64,
) -> Result<Vec<StepClock>, Memory>
    ensures { IfOk result
        (λ clocks. viewed ⟦<StepClock as Clock>⟧.readings ⟦<StepClock as Clock>⟧.ahead clocks.items
        ≡ replicate count (step_clock start step)) }
{
    let mut clocks = Vec::new(alloc);
    for _ in 0..count {
        if clocks.push(StepClock::new(start, step)).is_err() {
            return Err(Memory);
        }
    }
    Ok(clocks)
}

/// Runs all platforms of one plan, just opened and in the order of its graph, by the first of these clocks. If memory runs out,
/// the clocks are lost.
fn run_by_clocks<C: Clock + Send, R: Threads + Wait + Sync>(
    rt: &R,
    alloc: Global,
    platforms: Vec<Platform>,
    workers: u32,
    clocks: &mut Vec<C>,
    blocks: &Blocks,
) -> Result<Rounds, Memory>
    requires some { 0 < length platforms.items }
    requires ready { IsReady platforms.items }
    requires clocks { length platforms.items ≤ length clocks.old.items }
    ensures outcome { IfOk result
        (LeavesOutcome (clocks_by workers (viewed C.readings C.ahead clocks.old.items)
        (viewed C.readings C.ahead clocks.new.items)) platforms.items) }
    ensures clocks { OnOk result (length clocks.new.items ≡ length clocks.old.items) }
{
    let handed = mem::replace(clocks, Vec::new(alloc));
    let (own, others) = parted(handed, platforms.len())?;
    let ClockedRounds {
        rounds,
        clocks: read,
    } = visit_all(rt, alloc, platforms, own, workers, blocks)?;
    *clocks = joined(read, others)?;
    Ok(rounds)
}

/// Runs all platforms, each by its own clock: one worker visits them in turn, and more are threads that each
/// visit all of them.
fn visit_all<C: Clock + Send, R: Threads + Wait + Sync>(
    rt: &R,
    alloc: Global,
    platforms: Vec<Platform>,
    clocks: Vec<C>,
    workers: u32,
    blocks: &Blocks,
) -> Result<ClockedRounds<C>, Memory>
    requires some { 0 < length platforms.items }
    requires ready { IsReady platforms.items }
    requires clocks { length clocks.items ≡ length platforms.items }
    ensures { IfOk result
        (λ e. (plan : Parts) (rows : ℕ → List Row) → AreReady plan rows platforms.items →
        IsOutcomeOfWorkers workers plan rows (viewed C.readings C.ahead clocks.items)
        (viewed C.readings C.ahead e.clocks.items) e.rounds.platforms.items e.rounds.fault) }
{
    if workers == 1 {
        alone(rt, alloc, platforms, clocks, blocks, CLAIMS_A_VISIT)
    } else {
        threaded(
            rt,
            alloc,
            platforms,
            clocks,
            blocks,
            workers,
            CLAIMS_A_VISIT,
            &Open,
        )
    }
}

/// The first `count` of these clocks, and the others.
fn parted<C: Clock>(clocks: Vec<C>, count: usize) -> Result<(Vec<C>, Vec<C>), Memory>
    requires { count ≤ length clocks.items }
    ensures { IfOk result
        (λ parts. (parts.0.items ≡ take count clocks.items)
        × (parts.1.items ≡ drop count clocks.items)) }
{
    let mut first = VecDeque::from(clocks);
    let others = first.split_off(count)?;
    Ok((Vec::from(first), Vec::from(others)))
}

/// Some clocks, with others after them.
fn joined<C: Clock>(first: Vec<C>, others: Vec<C>) -> Result<Vec<C>, Memory>
    ensures { IfOk result (λ all. all.items ≡ first.items ++ others.items) }
{
    let mut all = first;
    let mut others = others;
    all.append(&mut others)?;
    Ok(all)
}
