//! Runs by threads that have to meet. No clause says that threads work at the same time: these runs do.
//!
//! `firing JSON` holds the first firing on a platform until a second one has begun: only another worker can begin it, and only
//! if no lock is held. `sharing JSON` does the same where both tasks are claimed at one visit: the other worker has to get the second
//! one over the platform's board. `counting JSON` fires 10,000 tasks, each of which two workers may take. `reading JSON` holds the first readings of two clocks until both have begun. `ending JSON` makes many runs
//! and says whether each ended as it may. The sensors are `s` and `u`, each with the one row of `ROWS`.

mod clocks;
mod meeting;

ghost use Rattle.std.specs.Prelude.{◌≡◌, ◌≤◌, length};
ghost use Rattle.pt_turn.specs.All.{IsReady};

use crate::files::content;
use crate::meetings::clocks::{meeting_clocks, step_clocks};
use crate::meetings::meeting::{Meeting, Sharing};
use crate::plans::{opened, plan_of};
use pt_blocks::Blocks;
use pt_io::{Clock, Page, Shelf, StepClock};
use pt_offsets::Plan;
use pt_run::ptides;
use pt_tags::Memory;
use pt_turn::Platform;
use pt_workers::threaded;
use std::alloc::{AllocError, Global};
use std::sync::{Arc, Wait};
use std::thread::Threads;

/// A row of time 50, seen at 55, with the value 7.
const ROWS: &str = "time,seen,value\n50,55,7\n";

/// The tables of a run that finishes.
const TABLES: &str = "actuator,time,step,value\nout,140,0,7\n";

/// How many runs `ending` makes.
const RUNS: u32 = 180;

/// A platform that claims one task at a visit, and has four in all.
const ONE_BY_ONE: Share = Share {
    most: 1,
    start: 100,
    tasks: 4,
};

/// The same, with two tasks at a visit.
const TWO_AT_ONCE: Share = Share {
    most: 2,
    start: 100,
    tasks: 4,
};

/// A platform with 10,000 tasks.
const MANY: Share = Share {
    most: 8,
    start: 0,
    tasks: 10_000,
};

/// Bytes of a page.
const ROOM: usize = 4_096;

/// The sensors' files and a graph's.
fn files(alloc: Global, graph: &str) -> Result<Shelf, AllocError> {
    let mut contents = Vec::new(alloc);
    for (name, text) in [("g.json", graph), ("s.csv", ROWS), ("u.csv", ROWS)] {
        contents.push(content(alloc, name, text)?)?;
    }
    Ok(Shelf::new(alloc, contents, Vec::new(alloc)))
}

/// The run that the first word of a line names, of the graph that follows.
pub fn meet<R: Threads + Wait + Sync>(
    rt: &R,
    alloc: Global,
    line: &str,
    blocks: &Blocks,
) -> Result<String, AllocError> {
    let (name, text) = line.split_once(' ').unwrap_or((line, ""));
    match name {
        "firing" => shared(rt, alloc, text, blocks, ONE_BY_ONE),
        "sharing" => shared(rt, alloc, text, blocks, TWO_AT_ONCE),
        "counting" => shared(rt, alloc, text, blocks, MANY),
        "reading" => reading(rt, alloc, text, blocks),
        "ending" => ending(rt, alloc, text, blocks),
        _ => String::from_str(alloc, "no such meeting\n"),
    }
}

/// How two workers fire the tasks of one platform.
#[derive(Clone, Copy)]
struct Share {
    /// How many units the platform claims at most at a visit.
    most: usize,
    /// The clock reads this, then one more each time.
    start: u64,
    /// How many tasks there are.
    tasks: usize,
}

/// Runs a graph of one platform by two workers, and says how many firings met another one and how many tasks were fired, each once.
fn shared<R: Threads + Wait + Sync>(
    rt: &R,
    alloc: Global,
    text: &str,
    blocks: &Blocks,
    share: Share,
) -> Result<String, AllocError>
    requires { (1 ≤ share.most) × (share.most ≤ 32) }
{
    let Some(plan) = plan_of(alloc, text, blocks) else {
        return String::from_str(alloc, "no plan\n");
    };
    let plan = Arc::new(alloc, plan)?;
    share_plan(rt, alloc, text, &plan, blocks, share)
}

/// The same with the graph's plan.
fn share_plan<R: Threads + Wait + Sync>(
    rt: &R,
    alloc: Global,
    text: &str,
    plan: &Arc<Plan>,
    blocks: &Blocks,
    share: Share,
) -> Result<String, AllocError>
    requires { (1 ≤ share.most) × (share.most ≤ 32) }
{
    let source = files(alloc, text)?;
    let Some(platforms) = opened(alloc, plan, source)? else {
        return String::from_str(alloc, "no rows\n");
    };
    if platforms.len() != 1 {
        drop(platforms);
        return String::from_str(alloc, "not one platform\n");
    }
    share_platform(rt, alloc, platforms, blocks, share)
}

/// The same with the one platform, opened.
fn share_platform<R: Threads + Wait + Sync>(
    rt: &R,
    alloc: Global,
    platforms: Vec<Platform>,
    blocks: &Blocks,
    share: Share,
) -> Result<String, AllocError>
    requires ready { IsReady platforms.items }
    requires one { length platforms.items ≡ 1 }
    requires most { (1 ≤ share.most) × (share.most ≤ 32) }
{
    let Ok(gate) = Sharing::new(alloc, share.tasks) else {
        drop(platforms);
        return Err(AllocError);
    };
    let fault = fired(rt, alloc, platforms, blocks, share, &gate);
    let (met, once, all) = (gate.met(), gate.fired_once(), gate.firings());
    drop(gate);
    let fault = fault?;
    format!(in alloc; "{met} met, {once} tasks once in {all} firings, {fault}\n")
}

/// Fires the tasks of the platform; says whether there was a fault.
fn fired<R: Threads + Wait + Sync>(
    rt: &R,
    alloc: Global,
    platforms: Vec<Platform>,
    blocks: &Blocks,
    share: Share,
    gate: &Sharing,
) -> Result<&'static str, AllocError>
    requires ready { IsReady platforms.items }
    requires one { length platforms.items ≡ 1 }
    requires most { (1 ≤ share.most) × (share.most ≤ 32) }
{
    let Ok(clocks) = vec![in alloc; StepClock::new(share.start, 1)] else {
        drop(platforms);
        return Err(AllocError);
    };
    match threaded(rt, alloc, platforms, clocks, blocks, 2, share.most, gate) {
        Ok(ended) => Ok(if ended.rounds.fault.is_some() {
            "a fault"
        } else {
            "no fault"
        }),
        Err(Memory) => Err(AllocError),
    }
}

/// Runs a graph of two platforms by two workers, and says whether the first readings of both clocks met.
fn reading<R: Threads + Wait + Sync>(
    rt: &R,
    alloc: Global,
    text: &str,
    blocks: &Blocks,
) -> Result<String, AllocError> {
    let meeting = Arc::new(alloc, Meeting::new())?;
    let status = read_by(rt, alloc, text, blocks, &meeting);
    let met = meeting.met();
    drop(meeting);
    let ending = match status? {
        0 | 4 | 5 => "status 0, 4 or 5",
        _ => "another status",
    };
    format!(in alloc; "{met} met, {ending}\n")
}

/// The status of a run of a graph whose clocks meet here.
fn read_by<R: Threads + Wait + Sync>(
    rt: &R,
    alloc: Global,
    text: &str,
    blocks: &Blocks,
    meeting: &Arc<Meeting>,
) -> Result<u8, AllocError> {
    let clocks = meeting_clocks(alloc, meeting)?;
    let mut out = page(alloc)?;
    run(rt, alloc, text, 2, clocks, &mut out, blocks)
}

/// Runs a graph of two platforms many times by 2, 4 and 8 workers, and says whether each run ended as it may.
fn ending<R: Threads + Wait + Sync>(
    rt: &R,
    alloc: Global,
    text: &str,
    blocks: &Blocks,
) -> Result<String, AllocError> {
    let mut all = true;
    for k in 0..RUNS {
        let workers = match k % 3 {
            0 => 2,
            1 => 4,
            _ => 8,
        };
        if !ends_as_it_may(rt, alloc, text, workers, blocks)? {
            all = false;
        }
    }
    let ending = if all { "as they may" } else { "otherwise" };
    format!(in alloc; "runs ended {ending}\n")
}

/// Runs a graph by this many workers, and says whether the run ended as it may.
fn ends_as_it_may<R: Threads + Wait + Sync>(
    rt: &R,
    alloc: Global,
    text: &str,
    workers: u32,
    blocks: &Blocks,
) -> Result<bool, AllocError> {
    let clocks = step_clocks(alloc)?;
    let mut out = page(alloc)?;
    let status = run(rt, alloc, text, workers, clocks, &mut out, blocks)?;
    Ok(may_end(status, out.bytes()))
}

/// Whether a run may end with this status and this output: all its tables, or, after a late message, none.
fn may_end(status: u8, out: &[u8]) -> bool {
    match status {
        0 | 5 => out == TABLES.as_bytes(),
        4 => out.is_empty(),
        _ => false,
    }
}

/// An empty page.
fn page(alloc: Global) -> Result<Page, AllocError> {
    match Page::new(alloc, ROOM, Vec::new(alloc)) {
        Ok(page) => Ok(page),
        Err(Memory) => Err(AllocError),
    }
}

/// The words of a run by the machine's clock, with this many workers.
fn words(alloc: Global, workers: u32) -> Result<Vec<String>, AllocError> {
    let mut words = Vec::new(alloc);
    for word in ["run", "g.json", "--clock", "machine", "--workers"] {
        words.push(String::from_str(alloc, word)?)?;
    }
    words.push(format!(in alloc; "{workers}")?)?;
    Ok(words)
}

/// Runs a graph by these clocks, as the machine's. Gives the status; the output is on the page.
fn run<C: Clock + Send, R: Threads + Wait + Sync>(
    rt: &R,
    alloc: Global,
    text: &str,
    workers: u32,
    clocks: Vec<C>,
    out: &mut Page,
    blocks: &Blocks,
) -> Result<u8, AllocError>
    requires clocks { length clocks.items ≡ 16 }
{
    let words = words(alloc, workers)?;
    let mut source = files(alloc, text)?;
    let mut notes = page(alloc)?;
    let outcome = ptides(
        rt,
        alloc,
        words.as_slice(),
        &mut source,
        out,
        &mut notes,
        clocks,
        blocks,
    );
    let status = outcome.status;
    outcome.discard();
    Ok(status)
}
