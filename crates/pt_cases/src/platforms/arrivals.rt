//! Whether messages may come to a platform: what a turn asks of them, looked at before it.

ghost use Rattle.std.specs.Prelude.{◌≡◌, true, IfOk, length};
ghost use Rattle.pt_semantics.specs.Closing.{on_link};
ghost use Rattle.pt_semantics.specs.Lists.{Each};
ghost use Rattle.pt_semantics.specs.Orderly.{ComesAfter, FitsStep, InOrder};
ghost use Rattle.pt_turn.specs.Platforms.{level_at, messages_of, state_at};
ghost use Rattle.pt_turn.specs.Turned.{MayCome};
ghost use Rattle.pt_cases.specs.Arrivals.{AreOrderly, LeadsTo, ComesTo};

use pt_history::History;
use pt_tags::Message;
use pt_turn::Platform;
use pt_types::{Graph, OnLink};
use std::alloc::{AllocError, Global};

/// Whether a message may come after another on its link.
fn comes_after(first: &Message, next: &Message) -> bool
    ensures { result ≡ true → ComesAfter first.now next.now }
{
    match *first {
        Message::End => false,
        Message::Event { tag, value: _ } => match *next {
            Message::End => true,
            Message::Event {
                tag: later,
                value: _,
            } => tag.is_before(later),
        },
    }
}

/// Whether all of these may come after a message.
fn all_after(first: &Message, messages: &[Message]) -> bool
    ensures { result ≡ true → Each (ComesAfter first.now) messages.now }
{
    match messages {
        [] => true,
        [next, rest @ ..] => comes_after(first, next) && all_after(first, rest),
    }
}

/// Whether each message may come after those before it.
fn are_in_order(messages: &[Message]) -> bool
    ensures { result ≡ true → InOrder messages.now }
{
    match messages {
        [] => true,
        [first, rest @ ..] => all_after(first, rest) && are_in_order(rest),
    }
}

/// Whether a message is not past the horizon and its step is bounded, where the actor has this level.
fn fits_step(until: u64, actors: usize, level: u32, message: &Message) -> bool
    ensures { result ≡ true → FitsStep until actors level message.now }
{
    let Message::Event { tag, value: _ } = *message else {
        return true;
    };
    let Some(most) = (actors as u64).checked_mul(tag.time) else {
        return false;
    };
    let Some(most) = most.checked_add(level as u64) else {
        return false;
    };
    tag.time <= until && tag.step <= most
}

/// Whether all of these do.
fn all_fit(until: u64, actors: usize, level: u32, messages: &[Message]) -> bool
    ensures { result ≡ true → Each (FitsStep until actors level) messages.now }
{
    match messages {
        [] => true,
        [message, rest @ ..] => {
            fits_step(until, actors, level, message) && all_fit(until, actors, level, rest)
        }
    }
}

/// All messages that were taken in the kept turns.
fn taken_in(alloc: Global, history: &History) -> Result<Vec<OnLink>, AllocError>
    ensures { IfOk result (λ messages. messages.items ≡ messages_of history.now.turns) }
{
    let mut messages = Vec::new(alloc);
    for number in 0..history.turns() {
        messages.extend_from_slice(history.taken(number))?;
    }
    Ok(messages)
}

/// The messages of a link.
pub fn on_link(alloc: Global, messages: &[OnLink], link: u32) -> Result<Vec<Message>, AllocError>
    ensures { IfOk result (λ own. own.items ≡ on_link link messages.now) }
{
    let mut own = Vec::new(alloc);
    for message in messages {
        if message.link == link {
            own.push(message.message)?;
        }
    }
    Ok(own)
}

/// Whether each of these messages is on a link that leads to the platform.
fn all_come_to(graph: &Graph, number: u32, messages: &[OnLink]) -> bool
    ensures { result ≡ true → Each (ComesTo graph.now number) messages.now }
{
    match messages {
        [] => true,
        [message, rest @ ..] => {
            leads_to(graph, number, message.link) && all_come_to(graph, number, rest)
        }
    }
}

/// Whether a link leads to the platform.
pub fn leads_to(graph: &Graph, number: u32, link: u32) -> bool
    ensures { result ≡ true → LeadsTo graph.now number link }
{
    match graph.links.as_slice().get(link as usize) {
        Some(link) => graph.platform_of(link.to) == number,
        None => false,
    }
}

/// Whether the messages of a link are orderly.
fn is_orderly(graph: &Graph, level: u32, messages: &[Message]) -> bool
    ensures { result ≡ true → InOrder messages.now
        × Each (FitsStep graph.now.until (length graph.now.actors) level) messages.now }
{
    are_in_order(messages) && all_fit(graph.until, graph.actors.as_slice().len(), level, messages)
}

/// Whether all messages of each link that leads to the platform are orderly.
fn are_orderly(alloc: Global, platform: &Platform, messages: &[OnLink]) -> Result<bool, AllocError>
    ensures { IfOk result (λ holds. holds ≡ true →
        AreOrderly platform.now.plan.graph
        (level_at platform.now) platform.now.number messages.now) }
{
    let plan = platform.plan();
    let graph = plan.graph();
    let links = graph.links.as_slice();
    for l in 0..links.len() {
        if graph.platform_of(links[l].to) != platform.number() {
            continue;
        }
        let own = on_link(alloc, messages, l as u32)?;
        if !is_orderly(graph, plan.ranks().level(links[l].to), own.as_slice()) {
            return Ok(false);
        }
    }
    Ok(true)
}

/// Whether these messages may come to the platform after those that it took.
pub fn may_come(alloc: Global, platform: &Platform, messages: &[OnLink]) -> Result<bool, AllocError>
    ensures { IfOk result (λ may. may ≡ true →
        MayCome platform.now.plan.graph (level_at platform.now) platform.now.number
        (state_at platform.now) messages.now) }
{
    if !all_come_to(platform.plan().graph(), platform.number(), messages) {
        return Ok(false);
    }
    let mut all = taken_in(alloc, platform.history())?;
    all.extend_from_slice(messages)?;
    are_orderly(alloc, platform, all.as_slice())
}
