//! The workers, and the stations under their locks.
ghost use Rattle.pt_pool.specs.LinkedPlatform.{plan_graph};
ghost use Rattle.std.specs.Prelude.{◌≡◌, ◌+◌, ◌^◌, ◌<◌, ◌≤◌, ℕ, length, vec_len, IfOk};
ghost use Rattle.pt_turn.specs.Posts.Posted.{IsDone};
ghost use Rattle.pt_workers.specs.Working.WorkerHands.{AreBoards};
ghost use Rattle.pt_workers.specs.Working.Orders.{numbers, count_up, order_weight};

use crate::work::boards::{NewBoard, dismiss, staff};
use crate::work::firing::Firing;
use crate::work::signs::{Calm, Quiet, Signs, VisitEnd, Visited};
use crate::work::threads::{Gate, SharedWork};
use crate::work::worker_hand::WorkerHand;
use pt_actors::{Done, Tasks};
use pt_blocks::Blocks;
use pt_engine::{Rests, idle_time};
use pt_io::Clock;
use pt_pool::station::{Boards, Station};
use pt_pool::{LinkedPlatform, Run};
use pt_tags::{Memory, Reading};
use pt_turn::Platform;
use pt_types::Task;
use std::alloc::Global;
use std::sync::ledger::{Blank, Ledger, Share, Total};
use std::sync::{Mutex, Wait};

/// What a lock guards: a station, and one part of the run's ledger.
#[derive(Drop)]
pub(crate) struct GuardedStation<J: Run, L: Ledger, B: Boards, C: Clock> {
    station: Station<J, B, C>,
    share: Share<L>,
    ghost one_part: { share.parts ≡ 1 },
    ghost amount: { share.amount ≡ 2 ^ station.linked.platform.number },
}

/// Whether the platform made a turn and nothing happened in its last one.
fn was_quiet(platform: &Platform) -> bool {
    let history = platform.history();
    history.turns() != 0 && history.was_quiet()
}

/// The reading of a platform's last turn, in microseconds; 0 if it made none.
fn reading_of(platform: &Platform) -> Reading {
    platform.reading().unwrap_or(0)
}

/// What a worker learns from a visit of this station in which nothing happened.
fn quiet_at<J: Run, B: Boards, C: Clock>(station: &Station<J, B, C>) -> Quiet {
    let platform = station.platform();
    let micros = if station.rises_by_itself() {
        idle_time(platform)
    } else {
        0
    };
    Quiet {
        until: reading_of(platform).saturating_add(micros),
        awaits: platform.open_claims() != 0,
    }
}

/// A visit of a station.
#[derive(Clone, Copy, Debug)]
struct Visit {
    /// The number of the station's platform.
    number: u32,
    /// The reading of the platform's last turn, in microseconds; 0 if it made none.
    reading: Reading,
    end: VisitEnd,
}

/// How a visit of a station ended that moved its platform, which had finished before or not.
fn end_of<J: Run, B: Boards, C: Clock>(station: &Station<J, B, C>, had_finished: bool) -> VisitEnd {
    let platform = station.platform();
    if !had_finished && platform.finished() {
        VisitEnd::Finished
    } else if was_quiet(platform) {
        VisitEnd::Quiet(quiet_at(station))
    } else {
        VisitEnd::On
    }
}

/// Visits a station once. Tasks for which no slot on the board is free are added to `tasks`.
fn visit_station<J: Run, B: Boards, C: Clock, R: Wait>(
    rt: &R,
    alloc: Global,
    station: &mut Station<J, B, C>,
    most: usize,
    tasks: &mut Tasks,
) -> Visit
    requires most { (1 ≤ most) × (most ≤ 32) }
    ensures { station.new.linked.platform.number ≡ station.old.linked.platform.number }
{
    let platform = station.platform();
    let number = platform.number();
    let had_finished = platform.finished();
    let failed = platform.fault().is_some()
        || station.marked()
        || station.visit(rt, alloc, most, tasks).is_err();
    let end = if failed {
        VisitEnd::Failed
    } else {
        end_of(station, had_finished)
    };
    let reading = reading_of(station.platform());
    Visit {
        number,
        reading,
        end,
    }
}

impl<J: Run, L: Ledger, B: Boards, C: Clock> GuardedStation<J, L, B, C> {
    /// Visits its station once. Tasks for which no slot on the board is free are added to `tasks`.
    fn visit<R: Wait>(&mut self, rt: &R, alloc: Global, most: usize, tasks: &mut Tasks) -> Visit
        requires most { (1 ≤ most) × (most ≤ 32) }
    {
        visit_station(rt, alloc, &mut self.station, most, tasks)
    }

    /// Keeps a result for the next visit. `false` if memory ran out.
    fn keep(&mut self, done: Done) -> bool
        requires { IsDone (plan_graph J.plan) done }
    {
        self.station.keep(done).is_ok()
    }
}

/// Visits a station once, under its lock.
fn visit_at<J: Run, L: Ledger, B: Boards, C: Clock, R: Wait>(
    rt: &R,
    alloc: Global,
    guarded: &Mutex<GuardedStation<J, L, B, C>>,
    most: usize,
    tasks: &mut Tasks,
) -> Visit
    requires most { (1 ≤ most) × (most ≤ 32) }
{
    guarded.lock(rt).visit(rt, alloc, most, tasks)
}

/// Keeps a result, under the lock, for the platform that claimed its task. `false` if memory ran out.
fn keep_at<J: Run, L: Ledger, B: Boards, C: Clock, R: Wait>(
    rt: &R,
    guarded: &Mutex<GuardedStation<J, L, B, C>>,
    done: Done,
) -> bool
    requires { IsDone (plan_graph J.plan) done }
{
    guarded.lock(rt).keep(done)
}

/// The hands of one worker, one for each station.
type Hands<J, B> = Vec<WorkerHand<J, B>>;

/// What all workers share: the stations under their locks, what fires their tasks, and each worker's hands at the boards.
#[derive(Drop)]
pub(crate) struct Shared<J: Run, L: Ledger, B: Boards, C: Clock> {
    pub(crate) firing: Firing<J>,
    pub(crate) stations: Vec<Mutex<GuardedStation<J, L, B, C>>>,
    pub(crate) all_hands: Vec<Mutex<Hands<J, B>>>,
    pub(crate) signs: Signs,
    /// The greatest number of units that a platform claims at a visit.
    pub(crate) most: usize,
    ghost some: { 1 ≤ most },
    ghost few: { most ≤ 32 },
}

impl<J: Run, L: Ledger, B: Boards, C: Clock> Shared<J, L, B, C> {
    /// The state before any worker begins.
    pub(crate) fn new(
        firing: Firing<J>,
        stations: Vec<Mutex<GuardedStation<J, L, B, C>>>,
        all_hands: Vec<Mutex<Hands<J, B>>>,
        most: usize,
    ) -> Shared<J, L, B, C>
        requires most { (1 ≤ most) × (most ≤ 32) }
        ensures { result.stations ≡ stations }
    {
        let signs = Signs::new(stations.len());
        Shared {
            firing,
            stations,
            all_hands,
            signs,
            most,
        }
    }
}

/// Claims and fires the tasks of a board one after another, until no task is found ready. Returns whether there was one.
fn serve_all<J: Run, L: Ledger, B: Boards, C: Clock, G: Gate, R: Wait>(
    rt: &R,
    shared: &Shared<J, L, B, C>,
    hand: &mut WorkerHand<J, B>,
    blocks: &Blocks,
    gate: &G,
) -> bool {
    let mut some = false;
    'tickets: for _ in rt.forever() {
        if !hand.serve(&shared.firing, blocks, gate) {
            break;
        }
        shared.signs.announce();
        some = true;
    }
    some
}

/// Fires the tasks of a station for which no slot on its board was free.
fn fire_left<J: Run, L: Ledger, B: Boards, C: Clock, G: Gate, R: Wait>(
    rt: &R,
    shared: &Shared<J, L, B, C>,
    guarded: &Mutex<GuardedStation<J, L, B, C>>,
    blocks: &Blocks,
    number: u32,
    tasks: &[Task],
    gate: &G,
) {
    for task in tasks {
        gate.at(number, task.number);
        if !keep_at(rt, guarded, shared.firing.fire(blocks, task)) {
            shared.signs.note(VisitEnd::Failed);
        }
    }
}

/// Visits a station, and then, with the lock released, fires the tasks that are ready on its board. Returns what the
/// worker learns from it.
fn visit_and_fire<J: Run, L: Ledger, B: Boards, C: Clock, G: Gate, R: Wait>(
    rt: &R,
    alloc: Global,
    shared: &Shared<J, L, B, C>,
    guarded: &Mutex<GuardedStation<J, L, B, C>>,
    hand: Option<&mut WorkerHand<J, B>>,
    blocks: &Blocks,
    tasks: &mut Tasks,
    gate: &G,
) -> Visited {
    tasks.clear();
    let visit = visit_at(rt, alloc, guarded, shared.most, tasks);
    shared.signs.note(visit.end);
    let number = visit.number;
    fire_left(rt, shared, guarded, blocks, number, tasks.as_slice(), gate);
    let served = match hand {
        Some(hand) => serve_all(rt, shared, hand, blocks, gate),
        None => false,
    };
    let quiet = match visit.end {
        VisitEnd::Quiet(quiet) => (!served).then_some(quiet),
        VisitEnd::On | VisitEnd::Finished | VisitEnd::Failed => None,
    };
    Visited {
        reading: visit.reading,
        quiet,
    }
}

/// The place after this one; after the last one it is 0.
fn next_place(at: usize, count: usize) -> usize
    requires { at < count }
    ensures { result < count }
{
    if at + 1 < count { at + 1 } else { 0 }
}

/// Visits the stations one after another, and fires tasks of each. After a round in which nothing happened it rests.
fn work<J: Run, L: Ledger, B: Boards, C: Clock, G: Gate, R: Wait>(
    rt: &R,
    alloc: Global,
    shared: &Shared<J, L, B, C>,
    blocks: &Blocks,
    first: usize,
    gate: &G,
) {
    let stations = shared.stations.as_slice();
    let Some(hands) = shared.all_hands.as_slice().get(first) else {
        return;
    };
    if stations.is_empty() {
        return;
    }
    let mut hands = hands.lock(rt);
    let own_hands = &mut *hands;
    let mut at = first % stations.len();
    let mut calm = Calm::new(&shared.signs);
    let mut rests = Rests::new();
    let mut tasks = Tasks::new(alloc);
    'rounds: for _ in rt.forever() {
        if shared.signs.ended() {
            break;
        }
        let hand = own_hands.as_mut_slice().get_mut(at);
        let visited = visit_and_fire(
            rt,
            alloc,
            shared,
            &stations[at],
            hand,
            blocks,
            &mut tasks,
            gate,
        );
        at = next_place(at, stations.len());
        rests.visited(visited.reading);
        calm = match visited.quiet {
            Some(quiet) => calm.and(visited.reading, quiet),
            None => Calm::new(&shared.signs),
        };
        if calm.is_round(stations.len()) {
            calm = shared.signs.rest(rt, &mut rests, calm);
        }
    }
}

impl<
    J: Run + Send + Sync,
    L: Ledger + Send + Sync,
    B: Boards + Send + Sync,
    C: Clock + Send,
> SharedWork for Shared<J, L, B, C> {
    fn work<G: Gate, R: Wait>(
        &self,
        rt: &R,
        alloc: Global,
        blocks: &Blocks,
        first: usize,
        gate: &G,
    ) {
        work(rt, alloc, self, blocks, first, gate);
    }
}

fn power(n: u32) -> u64
    requires { n < 32 }
    ensures { result ≡ 2 ^ n }
{
    1u64 << n
}

/// Puts each station under a lock, with its board and a share of the ledger. The share has one part, and its amount is 2 to the
/// power of the station's number. Each worker gets a hand at each board.
pub(crate) fn lock_all<J: Run, L: Ledger, B: Boards, C: Clock>(
    alloc: Global,
    blank: Blank,
    mut linked_platforms: Vec<LinkedPlatform<J, C>>,
    mut boards: Vec<NewBoard<J>>,
    all_hands: &mut [Hands<J, B>],
) -> Result<(Vec<Mutex<GuardedStation<J, L, B, C>>>, Total<L>, Share<L>), Memory>
    requires name { (blank.name ≡ L.name) × (blank.parts ≡ L.parts) }
    requires parts { L.parts ≡ vec_len linked_platforms }
    requires order { numbers linked_platforms.items ≡ count_up (vec_len linked_platforms) }
    requires few { length (plan_graph J.plan).platforms ≤ 16 }
    requires boards { (vec_len boards ≡ vec_len linked_platforms) × AreBoards B.table boards.items }
    ensures parts { IfOk result (λ r. (vec_len r.0 ≡ vec_len linked_platforms)
        × (r.1.parts ≡ vec_len linked_platforms)) }
    ensures total { IfOk result (λ r. r.1.amount + 1 ≡ 2 ^ vec_len linked_platforms) }
    ensures rest { IfOk result (λ r. (r.2.parts ≡ 0) × (r.2.amount ≡ 0)) }
{
    let (mut book, mut rest) = blank.open::<L>();
    let mut stations = Vec::with_capacity(alloc, linked_platforms.len())?;
    while let Some(linked) = linked_platforms.pop() {
        let Some(board) = boards.pop() else {
            unreachable!()
        };
        let mut station = board.with_linked(alloc, linked);
        if let Err(fault) = staff(&mut station, all_hands) {
            drop(station);
            return Err(fault);
        }
        let mut share = rest.split_off(1, 0);
        book.add(&mut share, power(station.platform().number()));
        stations.push_reserved(Mutex::new(GuardedStation { station, share }));
    }
    stations.as_mut_slice().reverse();
    Ok((stations, book.close(), rest))
}

/// Puts the hands of each worker under a lock, in the order of the stations.
pub(crate) fn lock_hands<J: Run, B: Boards>(
    alloc: Global,
    mut all_hands: Vec<Hands<J, B>>,
) -> Result<Vec<Mutex<Hands<J, B>>>, Memory> {
    let mut locked = Vec::with_capacity(alloc, all_hands.len())?;
    while let Some(mut hands) = all_hands.pop() {
        hands.as_mut_slice().reverse();
        locked.push(Mutex::new(hands))?;
    }
    Ok(locked)
}

/// Takes the hands of each worker out of their lock.
fn unlock_hands<J: Run, B: Boards>(
    alloc: Global,
    mut locked: Vec<Mutex<Hands<J, B>>>,
) -> Result<Vec<Hands<J, B>>, Memory> {
    let mut all_hands = Vec::new(alloc);
    while let Some(hands) = locked.pop() {
        all_hands.push(hands.into_inner())?;
    }
    Ok(all_hands)
}

/// Takes each station out of its lock, and gives the hands back to their boards. The stations' powers of two add up to the
/// ledger's total.
pub(crate) fn unlock_all<J: Run, L: Ledger, B: Boards, C: Clock>(
    alloc: Global,
    mut stations: Vec<Mutex<GuardedStation<J, L, B, C>>>,
    all_hands: Vec<Mutex<Hands<J, B>>>,
    total: &Total<L>,
    mut all: Share<L>,
) -> Result<Vec<LinkedPlatform<J, C>>, Memory>
    requires parts { vec_len stations ≡ total.now.parts }
    requires none { (all.parts ≡ 0) × (all.amount ≡ 0) }
    ensures parts { IfOk result (λ v. vec_len v ≡ total.now.parts) }
    ensures weight { IfOk result (λ v. order_weight (numbers v.items) ≡ total.now.amount) }
{
    let mut all_hands = unlock_hands(alloc, all_hands)?;
    let mut linked_platforms = Vec::with_capacity(alloc, stations.len())?;
    while let Some(guarded) = stations.pop() {
        let GuardedStation { mut station, share } = guarded.into_inner();
        dismiss(&mut station, all_hands.as_mut_slice());
        all.merge(share);
        linked_platforms.push_reserved(station.into_linked());
    }
    total.audit(&mut all);
    Ok(linked_platforms)
}
