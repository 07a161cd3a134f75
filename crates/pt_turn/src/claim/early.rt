//! Searching many units: a word of 64 places is passed over if none of its units is due for long.
//!
//! Where many units have events, mostly nearly all of them wait for a reading far ahead.

ghost use Rattle.std.specs.Prelude.{◌≡◌, ◌+◌, ◌*◌, ◌/◌, ◌<◌, ◌^◌, true};
ghost use Rattle.pt_queue.specs.Events.{waiting_in};
ghost use Rattle.pt_turn.specs.Fields.State.{IsSound};
ghost use Rattle.pt_turn.specs.Claims.Early.{IsEarlyWord};

use crate::claim::safe::has_reached;
use crate::state::Fields;
use pt_offsets::Plan;
use pt_tags::{Reading, Tag};

/// The first place of the next word. Behind place 100 it is 128.
#[inline(always)]
pub fn next_word(place: usize) -> usize
    requires { place < 2 ^ 36 }
    ensures { result ≡ 64 * (place / 64 + 1) }
{
    64 * (place / 64 + 1)
}

/// Whether no event of the units in a word of 64 places is due at a reading (in microseconds). It may say `false` of such a word.
#[inline(always)]
fn is_early(fields: &Fields, plan: &Plan, reading: Reading, word: usize) -> bool
    requires sound { IsSound plan.now.graph fields.now }
    ensures { result ≡ true → IsEarlyWord plan.now.graph
        (waiting_in fields.now.queue.events) reading word }
{
    let earliest = Tag {
        time: fields.queue.not_before(word),
        step: 0,
    };
    !has_reached(plan.offsets().least_in_word(word), earliest, reading)
}

/// Whether a search from place `from` on, whose first unit with events is at `place`, can pass over the word of that place: no event
/// of its units is due at the reading (in microseconds). Asked only where the search comes to the word, and not of each unit.
#[inline(always)]
pub fn is_passed_over(
    fields: &Fields,
    plan: &Plan,
    reading: Reading,
    from: usize,
    place: usize,
) -> bool
    requires sound { IsSound plan.now.graph fields.now }
    ensures { result ≡ true → IsEarlyWord plan.now.graph
        (waiting_in fields.now.queue.events) reading (place / 64) }
{
    from <= place - place % 64 && is_early(fields, plan, reading, place / 64)
}
