//! One turn of a platform, and what goes out after it.

ghost use Rattle.std.specs.Prelude.{◌≡◌, ◌<◌, IfOk, length};
ghost use Rattle.pt_types.specs.Lawful.{IsLawful};
ghost use Rattle.pt_turn.specs.Posts.Posted.{AreDone};
ghost use Rattle.pt_semantics.specs.Closing.{on_link};
ghost use Rattle.pt_turn.specs.Gone.{last_sent};

use crate::platforms::arrivals::{may_come, on_link};
use pt_actors::{Done, Task, Tasks};
use pt_blocks::Blocks;
use pt_tags::Reading;
use pt_turn::{Platform, Room};
use pt_types::{Graph, OnLink};
use pt_visits::fire_one;
use std::alloc::{AllocError, Global};

/// How many units a platform claims at most in one turn, and how many messages it sends at most on a link.
const MOST: usize = 64;

/// The results of tasks, in order.
fn results_of(
    alloc: Global,
    blocks: &Blocks,
    graph: &Graph,
    tasks: &[Task],
) -> Result<Vec<Done>, AllocError>
    requires lawful { IsLawful graph.now }
    ensures done { IfOk result (λ results. AreDone graph.now results.items) }
{
    let mut results = Vec::new(alloc);
    for task in tasks {
        results.push(fire_one(blocks, graph, task))?;
    }
    Ok(results)
}

/// What a turn was given, and what it claimed.
#[derive(Drop)]
pub struct Made {
    pub results: Vec<Done>,
    pub claimed: Vec<Task>,
}

/// Makes a turn with the results of these tasks and with these messages; none where these messages may not come.
pub fn make_turn(
    alloc: Global,
    platform: &mut Platform,
    reading: Reading,
    tasks: &[Task],
    messages: &[OnLink],
    blocks: &Blocks,
) -> Result<Option<Made>, AllocError> {
    let results = results_of(alloc, blocks, platform.plan().graph(), tasks)?;
    match claimed_in(alloc, platform, reading, results.as_slice(), messages)? {
        Some(claimed) => Ok(Some(Made { results, claimed })),
        None => Ok(None),
    }
}

/// Makes a turn with these results and messages; gives what it claimed, or none where these messages may not come.
fn claimed_in(
    alloc: Global,
    platform: &mut Platform,
    reading: Reading,
    results: &[Done],
    messages: &[OnLink],
) -> Result<Option<Vec<Task>>, AllocError>
    requires done { AreDone platform.old.plan.graph results.now }
{
    let room = Room {
        reading,
        done: results.len(),
        taken: messages.len(),
        most: MOST,
    };
    if platform.room(room).is_err() {
        return Err(AllocError);
    }
    if !may_come(alloc, platform, messages)? {
        return Ok(None);
    }
    let mut claimed = Tasks::new(alloc);
    if claimed.reserve(MOST).is_err() {
        return Err(AllocError);
    }
    platform.turn(reading, results, messages, MOST, &mut claimed);
    let claimed = Vec::from_slice(alloc, claimed.as_slice())?;
    Ok(Some(claimed))
}

/// How many messages were sent on a link since the last turn.
fn sent_lately(alloc: Global, platform: &Platform, link: u32) -> Result<usize, AllocError>
    requires { 0 < length platform.now.turns }
    ensures { IfOk result (λ count. count ≡ length (on_link link (last_sent platform.now.turns))) }
{
    let history = platform.history();
    let own = on_link(alloc, history.sent(history.turns() - 1), link)?;
    Ok(own.len())
}

/// Sends the messages of a link's outbox.
fn send_on(
    alloc: Global,
    platform: &mut Platform,
    link: u32,
    sent: &mut Vec<OnLink>,
) -> Result<(), AllocError> {
    for _ in 0..MOST {
        if platform.history().turns() == 0 || sent_lately(alloc, platform, link)? >= MOST {
            return Ok(());
        }
        let Some(message) = platform.outgoing(link) else {
            return Ok(());
        };
        platform.went(link);
        sent.push(OnLink { link, message })?;
    }
    Ok(())
}

/// Sends what is in the outboxes of a platform, link by link.
pub fn send_all(
    alloc: Global,
    platform: &mut Platform,
    sent: &mut Vec<OnLink>,
) -> Result<(), AllocError> {
    let links = platform.plan().graph().links.as_slice().len();
    for link in 0..links as u32 {
        send_on(alloc, platform, link, sent)?;
    }
    Ok(())
}
