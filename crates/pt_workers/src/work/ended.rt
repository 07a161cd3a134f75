//! A threaded run: the workers visit the stations, and then the caller visits the linked platforms until the run is over.
ghost use Rattle.pt_pool.specs.LinkedPlatform.{plan_graph};
ghost use Rattle.std.specs.Prelude.{◌≡◌, ◌≤◌, Ok, None, length, vec_len, IfOk, IfSome, OnOk, false};
ghost use Rattle.pt_workers.specs.Working.WorkerHands.{AreBoards};
ghost use Rattle.pt_workers.specs.Working.Orders.{numbers, count_up, AllDone, AreUnmarked, HasFailed};
ghost use Rattle.pt_workers.specs.Working.Surveys.{Surveyed};

use crate::work::boards::{NewBoard, no_hands, open_boards};
use crate::work::firing::Firing;
use crate::work::order::in_order;
use crate::work::results::Results;
use crate::work::threads::{Gate, run_workers};
use crate::work::workers::{Shared, lock_all, lock_hands, unlock_all};
use pt_actors::Tasks;
use pt_blocks::Blocks;
use pt_io::Clock;
use pt_pool::station::Boards;
use pt_pool::{LinkedPlatform, Run};
use pt_tags::Memory;
use pt_turn::Platform;
use std::alloc::Global;
use std::marker::Brand;
use std::sync::Wait;
use std::sync::ledger::{Blank, Ledger};
use std::thread::Threads;

/// The linked platforms in the order of their numbers, and the place of the one whose fault ended the run, if one did.
#[derive(Drop)]
pub struct Ended<J: Run, C: Clock> {
    pub linked_platforms: Vec<LinkedPlatform<J, C>>,
    pub failed: Option<usize>,
}

/// How far the run is, from a look at all linked platforms.
pub enum Survey {
    Going,
    Over,
    Failed(usize),
    Marked,
}

/// Whether a visit of one of them gave up because memory ran out.
fn any_marked<J: Run, C: Clock>(linked_platforms: &Vec<LinkedPlatform<J, C>>) -> bool
    ensures { result ≡ false → AreUnmarked linked_platforms.now.items }
{
    for k in 0..linked_platforms.len() {
        let linked = &linked_platforms[k];
        if linked.marked() {
            return true;
        }
    }
    false
}

/// Surveys all linked platforms. It looks for marks first, so that a fault is named only if no visit of any gave up.
fn look_over<J: Run, C: Clock>(linked_platforms: &Vec<LinkedPlatform<J, C>>) -> Survey
    ensures { Surveyed result linked_platforms.now.items }
{
    if any_marked(linked_platforms) {
        return Survey::Marked;
    }
    let mut over = true;
    for k in 0..linked_platforms.len() {
        let linked = &linked_platforms[k];
        let platform = linked.platform();
        if platform.fault().is_some() {
            return Survey::Failed(k);
        }
        if !platform.finished() {
            over = false;
        }
    }
    if over { Survey::Over } else { Survey::Going }
}

/// Visits each linked platform once.
fn visit_each<J: Run, C: Clock, R: Wait>(
    rt: &R,
    alloc: Global,
    firing: &Firing<J>,
    blocks: &Blocks,
    most: usize,
    linked_platforms: &mut Vec<LinkedPlatform<J, C>>,
) -> Result<(), Memory>
    requires most { (1 ≤ most) × (most ≤ 32) }
    ensures { (numbers linked_platforms.new.items ≡ numbers linked_platforms.old.items)
        × (vec_len linked_platforms.new ≡ vec_len linked_platforms.old) }
{
    for k in 0..linked_platforms.len() {
        let linked = &mut linked_platforms[k];
        visit_one(rt, alloc, firing, blocks, most, linked)?;
    }
    Ok(())
}

/// The results of all open claims of a platform.
fn results_of<J: Run>(
    alloc: Global,
    firing: &Firing<J>,
    blocks: &Blocks,
    platform: &Platform,
) -> Result<Results<J>, Memory> {
    let mut done = Results::new(alloc);
    for k in 0..platform.open_claims() {
        let Some(task) = platform.open_claim(k) else {
            break;
        };
        if !done.keep(firing.fire(blocks, task)) {
            return Err(Memory);
        }
    }
    Ok(done)
}

/// Visits a linked platform with the results of all open claims.
fn visit_one<J: Run, C: Clock, R: Wait>(
    rt: &R,
    alloc: Global,
    firing: &Firing<J>,
    blocks: &Blocks,
    most: usize,
    linked: &mut LinkedPlatform<J, C>,
) -> Result<(), Memory>
    requires most { (1 ≤ most) × (most ≤ 32) }
    ensures { linked.new.platform.number ≡ linked.old.platform.number }
{
    let platform = linked.platform();
    if platform.fault().is_some() {
        return Ok(());
    }
    let done = results_of(alloc, firing, blocks, platform)?;
    let mut tasks = Tasks::new(alloc);
    let _ = linked.visit(rt, alloc, done.as_slice(), most, &mut tasks);
    Ok(())
}

/// Visits until all are finished or one has a fault.
fn finish<J: Run, C: Clock, R: Wait>(
    rt: &R,
    alloc: Global,
    firing: &Firing<J>,
    blocks: &Blocks,
    most: usize,
    linked_platforms: &mut Vec<LinkedPlatform<J, C>>,
) -> Result<Option<usize>, Memory>
    requires most { (1 ≤ most) × (most ≤ 32) }
    ensures numbers { (numbers linked_platforms.new.items ≡ numbers linked_platforms.old.items)
        × (vec_len linked_platforms.new ≡ vec_len linked_platforms.old) }
    ensures done { result ≡ Ok None → AllDone linked_platforms.new.items }
    ensures fault { IfOk result (λ r. IfSome r (HasFailed linked_platforms.new.items)) }
    ensures unmarked { OnOk result (AreUnmarked linked_platforms.new.items) }
{
    'rounds: for _ in rt.forever() {
        match look_over(linked_platforms) {
            Survey::Marked => return Err(Memory),
            Survey::Failed(n) => return Ok(Some(n)),
            Survey::Over => return Ok(None),
            Survey::Going => visit_each(rt, alloc, firing, blocks, most, linked_platforms)?,
        }
    }
    unreachable!()
}

/// The run, with `L` as the name of its ledger and `B` as that of its boards.
fn free_in<
    J: Run + Send + Sync,
    L: Ledger + Send + Sync,
    B: Boards + Send + Sync,
    C: Clock + Send,
    G: Gate + Sync,
    R: Threads + Wait + Sync,
>(
    rt: &R,
    alloc: Global,
    blank: Blank,
    linked_platforms: Vec<LinkedPlatform<J, C>>,
    boards: Vec<NewBoard<J>>,
    firing: Firing<J>,
    blocks: &Blocks,
    workers: u32,
    most: usize,
    gate: &G,
) -> Result<Ended<J, C>, Memory>
    requires name { (blank.name ≡ L.name) × (blank.parts ≡ L.parts)
        × (blank.parts ≡ vec_len linked_platforms) }
    requires count { vec_len linked_platforms ≡ length (plan_graph J.plan).platforms }
    requires order { numbers linked_platforms.items ≡ count_up (vec_len linked_platforms) }
    requires few { length (plan_graph J.plan).platforms ≤ 16 }
    requires boards { (vec_len boards ≡ vec_len linked_platforms) × AreBoards B.table boards.items }
    requires most { (1 ≤ most) × (most ≤ 32) }
    ensures order { IfOk result (λ e.
        (vec_len e.linked_platforms ≡ length (plan_graph J.plan).platforms)
        × (numbers e.linked_platforms.items ≡ count_up (length (plan_graph J.plan).platforms))) }
    ensures done { IfOk result (λ e. e.failed ≡ None → AllDone e.linked_platforms.items) }
    ensures fault { IfOk result (λ e. IfSome e.failed (HasFailed e.linked_platforms.items)) }
    ensures unmarked { IfOk result (λ e. AreUnmarked e.linked_platforms.items) }
{
    let mut all_hands = no_hands::<J, B>(alloc, workers)?;
    let (stations, total, rest) = lock_all::<J, L, B, C>(
        alloc,
        blank,
        linked_platforms,
        boards,
        all_hands.as_mut_slice(),
    )?;
    let shared = Shared::new(firing, stations, lock_hands(alloc, all_hands)?, most);
    run_workers(rt, alloc, &shared, blocks, workers, gate);
    let Shared {
        firing,
        stations,
        all_hands,
        signs: _,
        most: _,
    } = shared;
    let linked_platforms = unlock_all(alloc, stations, all_hands, &total, rest)?;
    let mut linked_platforms = in_order(alloc, linked_platforms)?;
    let failed = finish(rt, alloc, &firing, blocks, most, &mut linked_platforms)?;
    Ok(Ended {
        linked_platforms,
        failed,
    })
}

/// Runs all linked platforms of a plan with `workers` threads. Each linked platform gets a board and becomes a station, and each
/// thread visits the stations one after another, each under its lock. The tasks that a visit claims are placed on the station's
/// board, from which workers take tasks after their visits and fire them without a lock. A platform claims at most `most` units
/// at a visit.
///
/// Once the workers have ended, the caller visits all linked platforms until all are finished or one has a fault: the first that
/// has one is named. If the result is `Ok`, no visit ran out of memory.
///
/// If the readings of a clock stop rising, the run may go on forever. If memory runs out, the linked platforms are lost.
pub fn free<J: Run + Send + Sync, C: Clock + Send, G: Gate + Sync, R: Threads + Wait + Sync>(
    rt: &R,
    alloc: Global,
    linked_platforms: Vec<LinkedPlatform<J, C>>,
    firing: Firing<J>,
    blocks: &Blocks,
    workers: u32,
    most: usize,
    gate: &G,
) -> Result<Ended<J, C>, Memory>
    requires count { vec_len linked_platforms ≡ length (plan_graph J.plan).platforms }
    requires order { numbers linked_platforms.items ≡ count_up (vec_len linked_platforms) }
    requires few { length (plan_graph J.plan).platforms ≤ 16 }
    requires most { (1 ≤ most) × (most ≤ 32) }
    ensures order { IfOk result (λ e.
        (vec_len e.linked_platforms ≡ length (plan_graph J.plan).platforms)
        × (numbers e.linked_platforms.items ≡ count_up (length (plan_graph J.plan).platforms))) }
    ensures done { IfOk result (λ e. e.failed ≡ None → AllDone e.linked_platforms.items) }
    ensures fault { IfOk result (λ e. IfSome e.failed (HasFailed e.linked_platforms.items)) }
    ensures unmarked { IfOk result (λ e. AreUnmarked e.linked_platforms.items) }
{
    let blank = Blank::new(linked_platforms.len() as u64);
    let boards = open_boards(alloc, &firing, linked_platforms.len())?;
    free_in::<J, Brand, Brand, C, G, R>(
        rt,
        alloc,
        blank,
        linked_platforms,
        boards,
        firing,
        blocks,
        workers,
        most,
        gate,
    )
}
