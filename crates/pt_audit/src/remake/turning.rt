//! The turn, and how much was done in it.

ghost use Rattle.std.specs.Prelude.{◌≡◌, ◌-◌, ◌<◌, ◌↔◌, None, OnOk, Some, length, slice_get, true};
ghost use Rattle.pt_turn.specs.Posts.Posted.{AreDone};
ghost use Rattle.pt_semantics.specs.Turn.{Turn};
ghost use Rattle.pt_turn.specs.Platforms.{level_at, state_at};
ghost use Rattle.pt_turn.specs.Turned.{MayCome};
ghost use Rattle.pt_audit.specs.Remaking.Steps.{HasCounts, IsInForm, MakesTurn};

use crate::parse::Hints;
use pt_actors::{Done, Tasks};
use pt_history::History;
use pt_tags::Memory;
use pt_turn::{Platform, Room};

/// Makes a turn at the last reading of the hints, with these results and the messages of the hints. It claims at most as
/// many units as the hints say. If they say none, it may claim one: then the hints are wrong.
pub fn make_turn(
    platform: &mut Platform,
    hints: &Hints,
    dones: &[Done],
    tasks: &mut Tasks,
) -> Result<(), Memory>
    requires no_fault { platform.old.fault ≡ None }
    requires in_form { IsInForm platform.old.reading hints.now }
    requires done { AreDone platform.old.plan.graph dones.now }
    requires taken { MayCome platform.old.plan.graph (level_at platform.old) platform.old.number
        (state_at platform.old) hints.now.taken.items }
    ensures { OnOk result (MakesTurn hints.now dones.now platform.old platform.new) }
{
    let most = hints.claims.max(1);
    tasks.clear();
    tasks.reserve(most)?;
    platform.room(Room {
        reading: hints.last,
        done: dones.len(),
        taken: hints.taken.len(),
        most,
    })?;
    platform.turn(hints.last, dones, hints.taken.as_slice(), most, tasks);
    Ok(())
}

/// Whether in the last turn as many results were posted, messages taken and tasks claimed as the hints say.
pub fn has_counts(history: &History, hints: &Hints) -> bool
    requires { 0 < length history.now.turns }
    ensures { (turn : Turn) →
        slice_get history.now.turns (length history.now.turns - 1) ≡ Some turn →
        (result ≡ true) ↔ HasCounts hints.now turn }
{
    let last = history.turns() - 1;
    history.posted(last) == hints.posts.len()
        && history.taken(last).len() == hints.taken.len()
        && history.claimed(last) == hints.claims
}
