//! That 64 bits hold the numbers of turns and messages, as their types say.

ghost use Rattle.std.specs.Prelude.{◌≡◌, ◌/◌, ◌<◌, ℕ, Some, length, slice_get};
ghost use Rattle.pt_history.specs.Levels.{AreTurnLevels};
ghost use Rattle.pt_history.specs.Turns.{posted_in};
ghost use Rattle.pt_semantics.specs.Lists.{Each};
ghost use Rattle.pt_semantics.specs.Turn.{Turn};
ghost use Rattle.pt_tables.specs.Held.{FitsTag, HasHeldHead, IsHeld, IsHeldMessage, IsHeldResult, IsHeldTurn};

use crate::walk::{renew_levels, sent_in, taken_in};
use pt_history::{History, TurnLevels};
use pt_tags::{Message, Tag};
use pt_types::OnLink;

/// That 64 bits hold the numbers of all turns.
pub(crate) fn turns_hold(history: &History)
    ensures { Each IsHeldTurn history.now.turns }
{
    results_hold(history);
    let mut levels = history.levels(0);
    for number in 0..history.turns() {
        turn_holds(history, &levels, number);
        renew_levels(&mut levels, history, number);
    }
}

/// That 64 bits hold the numbers of a turn, but for those of its results.
#[inline(always)]
fn turn_holds(history: &History, levels: &TurnLevels, number: usize)
    requires number { number < length history.now.turns }
    requires levels { AreTurnLevels history.now.turns (number / 64) levels.now }
    ensures { (turn : Turn) → slice_get history.now.turns number ≡ Some turn → HasHeldHead turn
        × Each IsHeldMessage turn.taken × Each IsHeldMessage turn.sent }
{
    let _head = history.head(number);
    messages_hold(taken_in(history, levels, number));
    messages_hold(sent_in(history, levels, number));
}

/// That 64 bits hold the numbers of the results of all turns.
fn results_hold(history: &History)
    ensures { (turn : ℕ) → turn < length history.now.turns →
        Each IsHeldResult (posted_in history.now.turns turn) }
{
    for number in 0..history.results() {
        let _mark = history.result_mark(number);
    }
}

/// That 64 bits hold the numbers of messages.
#[inline(always)]
fn messages_hold(messages: &[OnLink])
    ensures { Each IsHeldMessage messages.now }
{
    for message in messages {
        holds(message.message);
    }
}

/// That 64 bits hold the numbers of a message.
pub fn holds(message: Message)
    ensures tag { FitsTag message }
    ensures value { IsHeld message }
{
    if let Message::Event { tag, value } = message {
        event_holds(tag, value);
    }
}

fn event_holds(tag: Tag, value: i64)
    ensures tag { FitsTag (Message.Event tag value) }
    ensures value { IsHeld (Message.Event tag value) }
{}
