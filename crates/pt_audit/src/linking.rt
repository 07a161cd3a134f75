//! Whether the receivers took all that was sent.

ghost use Rattle.std.specs.Prelude.{◌≡◌, ◌<◌, ◌↔◌, ◌++◌, ℕ, IfOk, MatchOption, OnOk, Some, length, slice_get, true};
ghost use Rattle.pt_types.specs.Lookups.{platform_of};
ghost use Rattle.pt_types.specs.Lawful.{IsLawful};
ghost use Rattle.pt_semantics.specs.Closing.{on_link};
ghost use Rattle.pt_semantics.specs.Linked.{AreLinked, all_sent, all_taken};
ghost use Rattle.pt_turn.specs.All.{histories_of};
ghost use Rattle.pt_audit.specs.Verdicts.{IsFirstUnlinked, IsLinked};

use pt_history::History;
use pt_tags::{Memory, Message};
use pt_turn::Platform;
use pt_types::{Graph, Link, OnLink};
use std::alloc::Global;

/// The first link, by number, whose receiver did not take all that its sender sent.
pub(crate) fn first_unlinked(
    alloc: Global,
    graph: &Graph,
    platforms: &[Platform],
) -> Result<Option<u32>, Memory>
    requires lawful { IsLawful graph.now }
    requires all { length platforms.now ≡ length graph.now.platforms }
    ensures { IfOk result
        (λ first. MatchOption first (AreLinked graph.now (histories_of platforms.now))
        (λ l. IsFirstUnlinked graph.now l (histories_of platforms.now))) }
{
    let links = graph.links.as_slice();
    for number in 0..links.len() {
        if !is_linked(alloc, graph, platforms, number as u32, &links[number])? {
            return Ok(Some(number as u32));
        }
    }
    Ok(None)
}

/// Whether the receiver of a link took all that its sender sent.
fn is_linked(
    alloc: Global,
    graph: &Graph,
    platforms: &[Platform],
    number: u32,
    link: &Link,
) -> Result<bool, Memory>
    requires lawful { IsLawful graph.now }
    requires all { length platforms.now ≡ length graph.now.platforms }
    requires link { slice_get graph.now.links number ≡ Some link.now }
    ensures { IfOk result
        (λ same. (same ≡ true) ↔ IsLinked graph.now (histories_of platforms.now) number) }
{
    let from = graph.platform_of(link.from) as usize;
    let to = graph.platform_of(link.to) as usize;
    let sent = sent_on(alloc, number, platforms[from].history())?;
    let taken = taken_on(alloc, number, platforms[to].history())?;
    Ok(sent.as_slice() == taken.as_slice())
}

/// All messages that a history sent on a link.
fn sent_on(alloc: Global, link: u32, history: &History) -> Result<Vec<Message>, Memory>
    ensures { IfOk result (λ messages. messages.items ≡ all_sent link history.now.turns) }
{
    let mut messages = Vec::new(alloc);
    for turn in 0..history.turns() {
        push_on(&mut messages, link, history.sent(turn))?;
    }
    Ok(messages)
}

/// All messages that a history took from a link.
fn taken_on(alloc: Global, link: u32, history: &History) -> Result<Vec<Message>, Memory>
    ensures { IfOk result (λ messages. messages.items ≡ all_taken link history.now.turns) }
{
    let mut messages = Vec::new(alloc);
    for turn in 0..history.turns() {
        push_on(&mut messages, link, history.taken(turn))?;
    }
    Ok(messages)
}

/// Appends the messages that are on a link.
fn push_on(messages: &mut Vec<Message>, link: u32, from: &[OnLink]) -> Result<(), Memory>
    ensures { OnOk result (messages.new.items ≡ messages.old.items ++ on_link link from.now) }
{
    for message in from {
        if message.link == link {
            messages.push(message.message)?;
        }
    }
    Ok(())
}
