//! What a turn did, as text.

use crate::platforms::game::Game;
use pt_history::History;
use pt_tags::{Message, Tag};
use pt_turn::{Platform, TurnFault};
use pt_types::{Graph, OnLink};
use std::alloc::AllocError;

/// Appends a tag.
fn push_tag(text: &mut String, tag: Tag) -> Result<(), AllocError> {
    let Tag { time, step } = tag;
    write!(text, "{time}.{step}")
}

/// Appends a message at one end of a link.
fn push_message(
    text: &mut String,
    word: &str,
    name: &str,
    message: Message,
) -> Result<(), AllocError> {
    write!(text, " {word} {name} ")?;
    match message {
        Message::Event { tag, value } => {
            push_tag(text, tag)?;
            write!(text, "={value}")
        }
        Message::End => text.push_str("end"),
    }
}

/// Appends a claim.
pub fn push_claim(
    text: &mut String,
    graph: &Graph,
    number: u64,
    actor: u32,
    tag: Tag,
) -> Result<(), AllocError> {
    write!(text, " claim {number} ")?;
    text.push_str(graph.actor_name(actor))?;
    text.push_str("@")?;
    push_tag(text, tag)
}

/// Appends what was posted, entered and taken in a kept turn.
fn push_kept(
    text: &mut String,
    graph: &Graph,
    history: &History,
    number: usize,
) -> Result<(), AllocError> {
    if number >= history.turns() {
        return Ok(());
    }
    for posted in 0..history.posted(number) {
        let number = history.done_mark(number, posted).number;
        write!(text, " post {number}")?;
    }
    for at in history.rows(number) {
        let (sensor, time) = (graph.actor_name(at.sensor), at.row.time);
        write!(text, " enter {sensor} {time}")?;
    }
    for taken in history.taken(number) {
        push_message(text, "take", end_of(graph, taken, false), taken.message)?;
    }
    for claimed in 0..history.claimed(number) {
        let claim = history.claim_mark(number, claimed);
        push_claim(text, graph, claim.number, claim.actor, claim.tag)?;
    }
    for sent in history.sent(number) {
        push_message(text, "send", end_of(graph, sent, true), sent.message)?;
    }
    Ok(())
}

/// The name of the actor at an end of a message's link: that from which it leads, or that to which.
fn end_of<'a>(graph: &'a Graph, message: &OnLink, from: bool) -> &'a str {
    match graph.links.as_slice().get(message.link as usize) {
        Some(link) => graph.actor_name(if from { link.from } else { link.to }),
        None => "nobody",
    }
}

/// Appends why no turn may follow.
fn push_fault(text: &mut String, graph: &Graph, fault: TurnFault) -> Result<(), AllocError> {
    match fault {
        TurnFault::Long => text.push_str(", long"),
        TurnFault::Late {
            actor,
            tag,
            reading,
            limit,
        } => {
            text.push_str(", late ")?;
            text.push_str(graph.actor_name(actor))?;
            text.push_str("@")?;
            push_tag(text, tag)?;
            write!(text, " reading {reading} limit {limit}")
        }
    }
}

/// Appends the state of a platform.
fn push_state(text: &mut String, graph: &Graph, platform: &Platform) -> Result<(), AllocError> {
    if let Some(fault) = platform.fault() {
        push_fault(text, graph, fault)?;
    }
    let (turns, open) = (platform.history().turns(), platform.open_claims());
    write!(text, ", turns {turns}, open {open}")?;
    match platform.next_reading() {
        Some(next) => write!(text, ", next {next}")?,
        None => text.push_str(", closed")?,
    }
    if platform.finished() {
        text.push_str(", finished")?;
    }
    text.push_str("\n")
}

/// Appends what a turn of a platform did, if one was made, and the state of the platform after it.
pub fn push_turn(
    text: &mut String,
    game: &Game,
    number: u32,
    made: bool,
) -> Result<(), AllocError> {
    let graph = game.plan.graph();
    let Some(platform) = game.platforms.as_slice().get(number as usize) else {
        return text.push_str("no such platform\n");
    };
    if !made {
        return text.push_str("refused\n");
    }
    text.push_str("-")?;
    let history = platform.history();
    push_kept(text, graph, history, history.turns().saturating_sub(1))?;
    push_state(text, graph, platform)
}
