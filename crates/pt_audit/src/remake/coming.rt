//! Messages that come to a platform.

ghost use Rattle.std.specs.Prelude.{◌≡◌, ◌++◌, ◌↔◌, false, length, true};
ghost use Rattle.pt_types.specs.Lookups.{platform_of};
ghost use Rattle.pt_causality.specs.Ranked.{level_of};
ghost use Rattle.pt_semantics.specs.Closing.{on_link};
ghost use Rattle.pt_semantics.specs.Orderly.{ComesAfter, FitsStep};
ghost use Rattle.pt_turn.specs.Laws.{IsRunning};
ghost use Rattle.pt_turn.specs.Platforms.{level_at, state_at};
ghost use Rattle.pt_turn.specs.Turned.{MayCome};
ghost use Rattle.pt_audit.specs.Remaking.Lasts.{AreLast, KeepOthers};
ghost use Rattle.pt_audit.specs.Remaking.Steps.{ComesAfterLast, ComesNext};

use pt_offsets::Plan;
use pt_tags::{Message, Time};
use pt_turn::Platform;
use pt_types::OnLink;

/// Whether a message may come after another one on its link.
fn comes_after(first: Message, next: Message) -> bool
    ensures { (result ≡ true) ↔ ComesAfter first next }
{
    match first {
        Message::End => false,
        Message::Event { tag, value: _ } => match next {
            Message::End => true,
            Message::Event {
                tag: later,
                value: _,
            } => tag.is_before(later),
        },
    }
}

/// Whether a message may come after the last one on its link, if there was one.
fn comes_after_last(last: Option<Message>, next: Message) -> bool
    ensures { (result ≡ true) ↔ ComesAfterLast last next }
{
    match last {
        None => true,
        Some(last) => comes_after(last, next),
    }
}

/// Whether a message is within the horizon and its step is bounded, if its actor has this level.
fn fits_step(until: Time, actors: usize, level: u32, message: Message) -> bool
    ensures { (result ≡ true) ↔ FitsStep until actors level message }
{
    match message {
        Message::End => true,
        Message::Event { tag, value: _ } => {
            let most = (actors as u64)
                .saturating_mul(tag.time)
                .saturating_add(u64::from(level));
            tag.time <= until && tag.step <= most
        }
    }
}

/// Whether a message may come to this platform after the last one on its link.
fn comes_next(plan: &Plan, number: u32, last: &[Option<Message>], next: &OnLink) -> bool
    requires { length last.now ≡ length plan.now.graph.links }
    ensures { (result ≡ true)
        ↔ ComesNext plan.now.graph (level_of plan.now.ranks) number last.now next.now }
{
    let graph = plan.graph();
    let Some(link) = graph.links.as_slice().get(next.link as usize) else {
        return false;
    };
    if graph.platform_of(link.to) != number {
        return false;
    }
    if !comes_after_last(last[next.link as usize], next.message) {
        return false;
    }
    let level = plan.ranks().level(link.to);
    fits_step(
        graph.until,
        graph.actors.as_slice().len(),
        level,
        next.message,
    )
}

/// Whether these messages may come to a platform. If they may, `last` then has the last one on each link.
pub fn may_come(platform: &Platform, messages: &[OnLink], last: &mut [Option<Message>]) -> bool
    requires running { IsRunning platform.now }
    requires last { AreLast platform.now.plan.graph platform.now.number
        (state_at platform.now).taken last.old }
    ensures may { (result ≡ true)
        ↔ MayCome platform.now.plan.graph (level_at platform.now) platform.now.number
        (state_at platform.now) messages.now }
    ensures last { result ≡ true →
        AreLast platform.now.plan.graph platform.now.number
        (λ l. (state_at platform.now).taken l ++ on_link l messages.now) last.new }
    ensures others { KeepOthers platform.now.plan.graph platform.now.number last.old last.new }
{
    for message in messages {
        if !comes_next(platform.plan(), platform.number(), last, message) {
            return false;
        }
        last[message.link as usize] = Some(message.message);
    }
    true
}
