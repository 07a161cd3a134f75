//! A visit of a platform.

ghost use Rattle.std.specs.Prelude.{◌≡◌, ◌≤◌, [], None, IfOk, OnOk, false, length, true};
ghost use Rattle.std.specs.List.{list_all};
ghost use Rattle.pt_turn.specs.Posts.Posted.{AreDone};
ghost use Rattle.pt_semantics.specs.Turn.{is_empty};
ghost use Rattle.pt_turn.specs.Platforms.{level_at, state_at};
ghost use Rattle.pt_turn.specs.Rested.{HasRested};
ghost use Rattle.pt_turn.specs.Turned.{MayCome};
ghost use Rattle.pt_visits.specs.Pipes.{arriving};
ghost use Rattle.pt_visits.specs.Visited.{IsVisited};

use crate::desk::Desk;
use crate::firing::fire_all;
use crate::pushing::push_all;
use crate::taking::take_all;
use pt_actors::Done;
use pt_blocks::Blocks;
use pt_links::Pipe;
use pt_tags::{Memory, Reading};
use pt_turn::{Platform, Room};
use pt_types::OnLink;

/// Quick path: with no message and no result, tries an idle turn, and returns whether it made one. If not, nothing changes.
#[inline(always)]
fn rests(
    platform: &mut Platform,
    results: &[Done],
    taken: &[OnLink],
    reading: Reading,
) -> Result<bool, Memory>
    requires no_fault { platform.old.fault ≡ None }
    ensures rested { IfOk result (λ rested. rested ≡ true → (results.now ≡ []) × (taken.now ≡ [])
        × HasRested platform.old platform.new reading) }
    ensures awake { IfOk result (λ rested. rested ≡ false → platform.new ≡ platform.old) }
{
    if !results.is_empty() {
        return Ok(false);
    }
    if !taken.is_empty() {
        return Ok(false);
    }
    platform.rest(reading)
}

/// Visits a platform at a reading, in microseconds, which is raised to the last one if it is smaller: takes all messages that
/// have arrived, link by link, makes one turn with the pending results, and pushes messages to send until each outbox is
/// empty or its link is full. It claims at most `most` tasks, which are fired: `results` then has their results, for the next
/// visit.
///
/// No further visit may follow if the platform then has a `fault`, or if memory ran out: messages already taken are lost
/// then.
#[inline(always)]
pub fn visit(
    platform: &mut Platform,
    pipes: &mut [Pipe],
    results: &mut Vec<Done>,
    desk: &mut Desk,
    blocks: &Blocks,
    reading: Reading,
    most: usize,
) -> Result<(), Memory>
    requires most { (1 ≤ most) × (most ≤ 64) }
    requires no_fault { platform.old.fault ≡ None }
    requires links { length pipes.old ≡ length platform.old.plan.graph.links }
    requires done { AreDone platform.old.plan.graph results.old.items }
    requires taken { MayCome platform.old.plan.graph (level_at platform.old) platform.old.number
        (state_at platform.old)
        (arriving platform.old.plan.graph platform.old.number 0 pipes.old) }
    ensures visited { OnOk result (IsVisited most reading results.old.items results.new.items
        platform.old platform.new pipes.old pipes.new) }
{
    let mut under_way = true;
    visit_knowing(
        platform,
        pipes,
        results,
        desk,
        blocks,
        reading,
        most,
        &mut under_way,
    )
}

/// Visits a platform at a reading, as `visit`. Links are searched only if a message may be `under_way`: otherwise all of them
/// are empty.
#[inline(always)]
pub fn visit_knowing(
    platform: &mut Platform,
    pipes: &mut [Pipe],
    results: &mut Vec<Done>,
    desk: &mut Desk,
    blocks: &Blocks,
    reading: Reading,
    most: usize,
    under_way: &mut bool,
) -> Result<(), Memory>
    requires most { (1 ≤ most) × (most ≤ 64) }
    requires no_fault { platform.old.fault ≡ None }
    requires links { length pipes.old ≡ length platform.old.plan.graph.links }
    requires done { AreDone platform.old.plan.graph results.old.items }
    requires taken { MayCome platform.old.plan.graph (level_at platform.old) platform.old.number
        (state_at platform.old)
        (arriving platform.old.plan.graph platform.old.number 0 pipes.old) }
    requires none { under_way.old ≡ false → list_all is_empty pipes.old ≡ true }
    ensures visited { OnOk result (IsVisited most reading results.old.items results.new.items
        platform.old platform.new pipes.old pipes.new) }
    ensures none { OnOk result (under_way.new ≡ false → list_all is_empty pipes.new ≡ true) }
{
    desk.taken.clear();
    let graph = platform.plan().graph();
    take_all(graph, platform.number(), pipes, &mut desk.taken, under_way)?;
    let rested = rests(platform, results.as_slice(), desk.taken.as_slice(), reading)?;
    if rested {
        return Ok(());
    }
    desk.tasks.renew(most)?;
    platform.room(Room {
        reading,
        done: results.len(),
        taken: desk.taken.len(),
        most,
    })?;
    platform.turn(
        reading,
        results.as_slice(),
        desk.taken.as_slice(),
        most,
        &mut desk.tasks,
    );
    push_all(platform, pipes, under_way);
    fire_all(
        blocks,
        platform.plan().graph(),
        desk.tasks.as_slice(),
        results,
    )
}
