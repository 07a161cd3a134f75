//! The misses of a history.

ghost use Rattle.std.specs.Prelude.{◌≡◌, ℕ, ◌+◌, ◌*◌, ◌/◌, ◌<◌, ◌≤◌, ◌++◌, IfSome, None, OnOk, Some, false, filter_map, length, option_to_list, slice_get, true};
ghost use Rattle.pt_types.specs.declared.graph.Graph.{Graph};
ghost use Rattle.pt_types.specs.Lookups.{slack_of};
ghost use Rattle.pt_history.specs.Levels.{IsLevel};
ghost use Rattle.pt_history.specs.Turns.{all_dated, posted_in};
ghost use Rattle.pt_monitors.specs.InTime.{AreInTime, EndBy, HasNoMiss, IsPostedBy};
ghost use Rattle.pt_monitors.specs.Misses.{AppendsMissed, AppendsMisses, AppendsSent, AppendsUpTo, IsMissOfMark, ListsMissed, miss_of_message, miss_past, missed_of};

use pt_history::{History, Mark, Miss, TurnLevels};
use pt_tags::{Memory, Message, Reading, Tag};
use pt_types::{Graph, Kind, OnLink};

/// Appends the misses of a platform's history: turn by turn, and in a turn the results before the messages.
///
/// With tag time 50 and slack 10, a reading of 60 is in time and one of 61 is a miss. If memory runs out, some may be
/// appended.
pub fn missed_in(graph: &Graph, history: &History, misses: &mut Vec<Miss>) -> Result<(), Memory>
    ensures missed { OnOk result (misses.new.items
        ≡ misses.old.items ++ missed_of graph.now history.now.turns) }
    ensures all { ListsMissed graph.now history.now.turns (missed_of graph.now history.now.turns) }
{
    missed_until(graph, history, None, misses)
}

/// Does the same as `missed_in`; no turn ends after `latest`, if that is given. Mostly no result is a miss, and then only the
/// messages are looked at turn by turn.
pub(crate) fn missed_until(
    graph: &Graph,
    history: &History,
    latest: Option<u64>,
    misses: &mut Vec<Miss>,
) -> Result<(), Memory>
    requires { IfSome latest (λ r. EndBy r history.now.turns) }
    ensures { OnOk result (misses.new.items
        ≡ misses.old.items ++ missed_of graph.now history.now.turns) }
{
    if are_in_time(graph, history, latest) {
        return missed_sent(graph, history, misses);
    }
    for number in 0..history.turns() {
        missed_at(graph, history, number, misses)?;
    }
    Ok(())
}

/// Whether every result of an actuator was posted in time. The results of all turns are read one after another; when one was
/// posted is looked up for an actuator's result alone, since most results are of other actors.
fn are_in_time(graph: &Graph, history: &History, latest: Option<u64>) -> bool
    requires { IfSome latest (λ r. EndBy r history.now.turns) }
    ensures { result ≡ true → AreInTime graph.now history.now.turns }
{
    let mut near = 0;
    for number in 0..history.results() {
        if is_late(graph, history, latest, number, &mut near) {
            return false;
        }
    }
    true
}

/// Whether a result of all turns, by its number, is an actuator's, posted past its limit. `near` is a turn that posted an earlier
/// one.
fn is_late(
    graph: &Graph,
    history: &History,
    latest: Option<u64>,
    number: usize,
    near: &mut usize,
) -> bool
    requires number { number < length (all_dated history.now.turns) }
    requires latest { IfSome latest (λ r. EndBy r history.now.turns) }
    ensures { result ≡ false → HasNoMiss graph.now
        (slice_get (all_dated history.now.turns) number) }
{
    let mark = history.result_mark(number);
    let Some(actor) = graph.actors.as_slice().get(mark.actor as usize) else {
        return false;
    };
    match &actor.kind {
        Kind::Actuator { slack } => is_past(history, latest, number, mark, *slack, near),
        _ => false,
    }
}

/// Whether an actuator's result was posted past its limit. To look up when it was posted takes a search among the turns after the
/// turn `near`, and none is needed if not even the latest reading is past the limit.
fn is_past(
    history: &History,
    latest: Option<u64>,
    number: usize,
    mark: Mark,
    slack: u64,
    near: &mut usize,
) -> bool
    requires number { number < length (all_dated history.now.turns) }
    requires latest { IfSome latest (λ r. EndBy r history.now.turns) }
    ensures { result ≡ false → IsPostedBy history.now.turns number mark.actor mark.tag slack }
{
    if let Some(latest) = latest {
        if miss_past(latest, mark.actor, mark.tag, slack).is_none() {
            return false;
        }
    }
    let posted = history.posted_at(number, *near);
    *near = posted.turn;
    miss_past(posted.reading, mark.actor, mark.tag, slack).is_some()
}

/// Appends the misses of a history of which no result is a miss: those among its messages. Goes block by block through the turns.
fn missed_sent(graph: &Graph, history: &History, misses: &mut Vec<Miss>) -> Result<(), Memory>
    requires in_time { AreInTime graph.now history.now.turns }
    ensures { OnOk result (misses.new.items
        ≡ misses.old.items ++ missed_of graph.now history.now.turns) }
{
    if history.all_sent().is_empty() {
        return Ok(());
    }
    let turns = history.turns();
    let mut start = 0;
    while start < turns {
        let end = start + (64 - start % 64).min(turns - start);
        missed_in_block(graph, history, start, end, misses)?;
        start = end;
    }
    Ok(())
}

/// Appends the misses among the messages that were sent after the turns from turn `from` up to turn `end` in a block of 64, of
/// which no result is a miss. Most turns send nothing, which is known of the whole block at once.
fn missed_in_block(
    graph: &Graph,
    history: &History,
    from: usize,
    end: usize,
    misses: &mut Vec<Miss>,
) -> Result<(), Memory>
    requires from { from < end }
    requires end { end ≤ length history.now.turns }
    requires block { end ≤ 64 * (from / 64) + 64 }
    requires in_time { AreInTime graph.now history.now.turns }
    ensures { OnOk result (AppendsUpTo graph.now history.now.turns from end misses.old.items
        misses.new.items) }
{
    let levels = history.levels(from / 64);
    let mut number = next_unknown(&levels, from, end);
    while number < end {
        missed_after(graph, history, number, misses)?;
        number = next_unknown(&levels, number + 1, end);
    }
    Ok(())
}

/// The next turn, from turn `from` up to turn `end` in a block of 64, of which it is not known that no messages were sent after it;
/// `end` if it is known of all. Of the last turn of a block nothing is known.
#[inline(always)]
fn next_unknown(levels: &TurnLevels, from: usize, end: usize) -> usize
    requires within { from ≤ end }
    requires block { end ≤ 64 * (from / 64) + 64 }
    ensures rises { from ≤ result }
    ensures within { result ≤ end }
    ensures level { (n : ℕ) → from ≤ n → n < result → IsLevel levels.now.sent n }
    ensures unknown { result < end → IsLevel levels.now.sent result → ⊥ }
{
    let known = levels.sent.limit.min(end);
    if known <= from {
        return from;
    }
    let others = (levels.sent.bits >> (from % 64)) / 2;
    if others == 0 {
        return known;
    }
    from + (others.trailing_zeros() as usize).min(known - from)
}

/// Appends the misses of a recorded turn.
fn missed_at(
    graph: &Graph,
    history: &History,
    number: usize,
    misses: &mut Vec<Miss>,
) -> Result<(), Memory>
    requires { number < length history.now.turns }
    ensures { OnOk result (AppendsMissed graph.now
        (slice_get history.now.turns number) misses.old.items misses.new.items) }
{
    missed_results(graph, history, number, history.posted(number), misses)?;
    missed_after(graph, history, number, misses)
}

/// Appends the misses among the messages that were sent after a recorded turn. Inlined, since mostly none were.
#[inline(always)]
fn missed_after(
    graph: &Graph,
    history: &History,
    number: usize,
    misses: &mut Vec<Miss>,
) -> Result<(), Memory>
    requires { number < length history.now.turns }
    ensures { OnOk result (AppendsSent graph.now
        (slice_get history.now.turns number) misses.old.items misses.new.items) }
{
    let sent = history.sent(number);
    if sent.is_empty() {
        return Ok(());
    }
    missed_messages(graph, history.last(number), sent, misses)
}

/// Appends the misses among the results, `posted` in number, that a recorded turn posted.
fn missed_results(
    graph: &Graph,
    history: &History,
    turn: usize,
    posted: usize,
    misses: &mut Vec<Miss>,
) -> Result<(), Memory>
    requires turn { turn < length history.now.turns }
    requires posted { posted ≡ length (posted_in history.now.turns turn) }
    ensures { OnOk result (AppendsMisses graph.now (slice_get history.now.turns turn)
        (posted_in history.now.turns turn) misses.old.items misses.new.items) }
{
    for number in 0..posted {
        let mark = history.done_mark(turn, number);
        push(misses, miss_of_result(graph, history, turn, mark))?;
    }
    Ok(())
}

/// Appends the misses among messages sent at a reading. Not inlined, since it is called after few turns.
#[inline(never)]
fn missed_messages(
    graph: &Graph,
    reading: Reading,
    sent: &[OnLink],
    misses: &mut Vec<Miss>,
) -> Result<(), Memory>
    ensures { OnOk result (misses.new.items
        ≡ misses.old.items ++ filter_map (miss_of_message graph.now reading) sent.now) }
{
    for message in sent {
        push(misses, miss_of_message(graph, reading, message))?;
    }
    Ok(())
}

/// Appends a miss, if there is one.
fn push(misses: &mut Vec<Miss>, miss: Option<Miss>) -> Result<(), Memory>
    ensures { OnOk result (misses.new.items ≡ misses.old.items ++ option_to_list miss) }
{
    let Some(miss) = miss else {
        return Ok(());
    };
    misses.push(miss)?;
    Ok(())
}

/// The miss of the result of a task, which is given without its inputs, in a recorded turn: an actuator's, posted past its
/// limit.
fn miss_of_result(graph: &Graph, history: &History, turn: usize, mark: Mark) -> Option<Miss>
    requires { turn < length history.now.turns }
    ensures { IsMissOfMark graph.now (slice_get history.now.turns turn) mark result }
{
    let actor = graph.actors.as_slice().get(mark.actor as usize)?;
    match &actor.kind {
        Kind::Actuator { slack } => { miss_past(history.last(turn), mark.actor, mark.tag, *slack) }
        _ => None,
    }
}

/// The miss of a message: an event sent past its sender's limit.
fn miss_of_message(graph: &Graph, reading: Reading, sent: &OnLink) -> Option<Miss>
    ensures { result ≡ miss_of_message graph.now reading sent.now }
{
    let link = graph.links.as_slice().get(sent.link as usize)?;
    match sent.message {
        Message::Event { tag, .. } => {
            miss_past(reading, link.from, tag, graph.slack_of(link.from))
        }
        Message::End => None,
    }
}

/// The miss of an actor at a tag, if the reading is past the tag's time plus the slack.
fn miss_past(reading: Reading, actor: u32, tag: Tag, slack: u64) -> Option<Miss>
    ensures { result ≡ miss_past reading actor tag slack }
{
    let limit = tag.time.checked_add(slack)?;
    if reading <= limit {
        return None;
    }
    Some(Miss {
        actor,
        tag,
        reading,
        limit,
    })
}
