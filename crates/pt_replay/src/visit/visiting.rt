//! A visit at a true time.

ghost use Rattle.std.specs.Prelude.{◌≡◌, ◌<◌, [], None, IfOk, OnOk, false, true};
ghost use Rattle.pt_turn.specs.Rested.{HasRested};
ghost use Rattle.pt_replay.specs.Visits.Visits.{WasVisitedAt, MayBeVisited};
ghost use Rattle.pt_replay.specs.Visits.Moments.{ArriveFrom};
ghost use Rattle.pt_semantics.specs.TrueTime.{lag_of, left_on, map_from, reading_at};

use crate::airway::Airway;
use crate::visit::arrivals::{arrival_at, update_arrivals};
use crate::visit::delivering::deliver;
use crate::visit::sending::send;
use pt_actors::Done;
use pt_blocks::Blocks;
use pt_engine::CLAIMS_A_TURN;
use pt_links::Pipe;
use pt_tags::{Memory, Reading, TrueTime};
use pt_turn::Platform;
use pt_types::Air;
use pt_visits::{Desk, visit};

/// Quick path: with no result and before the next arrival, tries an idle turn, and returns whether it made one. If not,
/// nothing changes.
fn rests(
    platform: &mut Platform,
    results: &[Done],
    arrival: u64,
    now: TrueTime,
    reading: Reading,
) -> Result<bool, Memory>
    requires no_fault { platform.old.fault ≡ None }
    ensures rested { IfOk result (λ rested. rested ≡ true → (results.now ≡ []) × (now < arrival)
        × HasRested platform.old platform.new reading) }
    ensures awake { IfOk result (λ rested. rested ≡ false → platform.new ≡ platform.old) }
{
    if !results.is_empty() {
        return Ok(false);
    }
    if arrival <= now {
        return Ok(false);
    }
    platform.rest(reading)
}

/// A visit with all its steps, at this reading of the platform's clock: messages that have arrived are taken, and those that
/// are sent are put on their way. Returns whether there were any to send.
fn full_visit(
    platform: &mut Platform,
    airways: &mut [Airway],
    arrivals: &[u64],
    pipes: &mut [Pipe],
    results: &mut Vec<Done>,
    desk: &mut Desk,
    blocks: &Blocks,
    air: &Air,
    now: TrueTime,
    reading: Reading,
) -> Result<bool, Memory>
    requires may_be_visited { MayBeVisited air.now now results.old.items platform.old airways.old
        arrivals.now pipes.old }
    requires reading { reading ≡ reading_at air.now platform.old.number now }
    ensures visit { OnOk result (WasVisitedAt air.now now results.old.items results.new.items
        platform.old platform.new airways.old airways.new) }
    ensures pipes { OnOk result (pipes.new ≡ pipes.old) }
    ensures none { IfOk result (λ sent. sent ≡ false →
        airways.new ≡ map_from (left_on platform.old.plan.graph platform.old.number now) 0
        airways.old) }
{
    let number = platform.number();
    deliver(
        platform.plan().graph(),
        number,
        airways,
        arrivals,
        pipes,
        now,
    );
    visit(
        platform,
        pipes,
        results,
        desk,
        blocks,
        reading,
        CLAIMS_A_TURN,
    )?;
    send(platform.plan().graph(), air, pipes, airways, now)
}

/// Visits a platform at a true time, in microseconds: it takes the messages that have arrived, link by link, at most 64 from
/// each, makes one turn at the reading of its clock with the pending results, and at most 64 messages on each link are put on
/// their way. It claims at most 64 tasks, which are fired: `results` then has their results, for the next visit.
///
/// The pipes carry messages within this call; they are empty before it and after it. `arrivals` has a time for each platform
/// before which no message arrives there, so most visits in which nothing happens look at no link.
///
/// No further visit may follow if the platform then has a `fault`, or if memory ran out: messages already taken are lost
/// then. An arrival that does not fit in 64 bits counts as out of memory.
pub fn visit_at(
    platform: &mut Platform,
    airways: &mut [Airway],
    arrivals: &mut [u64],
    pipes: &mut [Pipe],
    results: &mut Vec<Done>,
    desk: &mut Desk,
    blocks: &Blocks,
    air: &Air,
    now: TrueTime,
) -> Result<(), Memory>
    requires { MayBeVisited air.now now results.old.items platform.old airways.old arrivals.old
        pipes.old }
    ensures visit { OnOk result (WasVisitedAt air.now now results.old.items results.new.items
        platform.old platform.new airways.old airways.new) }
    ensures arrivals { OnOk result (ArriveFrom platform.old.plan.graph arrivals.new airways.new) }
    ensures pipes { OnOk result (pipes.new ≡ pipes.old) }
{
    let number = platform.number();
    let arrival = arrival_at(arrivals, number);
    let reading = now.saturating_sub(lag_of(air, number));
    let rested = rests(platform, results.as_slice(), arrival, now, reading)?;
    if rested {
        return Ok(());
    }
    let sent = full_visit(
        platform, airways, arrivals, pipes, results, desk, blocks, air, now, reading,
    )?;
    update_arrivals(
        platform.plan().graph(),
        airways,
        arrivals,
        sent,
        arrival,
        now,
    );
    Ok(())
}

/// How far the clock of a platform lags behind true time, in microseconds.
pub fn lag_of(air: &Air, number: u32) -> u64
    ensures { result ≡ lag_of air.now number }
{
    air.lags
        .as_slice()
        .get(number as usize)
        .copied()
        .unwrap_or(0)
}
