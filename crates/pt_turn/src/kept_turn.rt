//! Recording a turn in the history.

ghost use Rattle.std.specs.Prelude.{◌≡◌, ◌<◌, ◌≤◌, ◌++◌, [], length};
ghost use Rattle.pt_history.specs.Lists.{on_last};
ghost use Rattle.pt_history.specs.Turns.{claiming, entering, posting, taking};
ghost use Rattle.pt_semantics.specs.Kept.{kept_with};
ghost use Rattle.pt_turn.specs.Posts.Posted.{ArePlaces, picked};
ghost use Rattle.pt_turn.specs.Steps.{AreEmpty, turn_of};
ghost use Rattle.pt_turn.specs.Platforms.{raised_to};

use crate::Lists;
use pt_actors::{Done, Tasks};
use pt_history::History;
use pt_tags::Reading;
use pt_types::{OnLink, RowAt, Task};

/// The given reading, or the last one if that is greater, in microseconds.
pub fn raised_to(last: Option<u64>, reading: Reading) -> u64
    ensures { result ≡ raised_to last reading }
{
    match last {
        None => reading,
        Some(last) => { if last <= reading { reading } else { last } }
    }
}

/// Records a turn at a reading, in microseconds, to which these results came, appends its claims to `tasks`, and empties the
/// lists. Allocates nothing.
#[inline(always)]
pub fn keep(
    history: &mut History,
    reading: Reading,
    dones: &[Done],
    lists: &mut Lists,
    tasks: &mut Tasks,
)
    requires turns { 0 < history.old.room.turns }
    requires posted { length lists.old.posted.items ≤ history.old.room.posted }
    requires places { ArePlaces dones.now lists.old.posted.items }
    requires rows { length lists.old.rows.items ≤ history.old.room.rows }
    requires taken { length lists.old.taken.items ≤ history.old.room.taken }
    requires claimed { length lists.old.claimed.items ≤ history.old.room.claimed }
    requires tasks { length lists.old.claimed.items ≤ tasks.old.spare }
    ensures turns { history.new.turns
        ≡ kept_with history.old.turns (turn_of reading dones.now lists.old) }
    ensures sent { history.new.room.sent ≡ history.old.room.sent }
    ensures tasks { tasks.new.tasks ≡ tasks.old.tasks ++ lists.old.claimed.items }
    ensures empty { AreEmpty lists.new }
{
    history.begin(reading);
    keep_posted(history, dones, &mut lists.posted);
    keep_rows(history, &mut lists.rows);
    keep_taken(history, &mut lists.taken);
    keep_claimed(history, &mut lists.claimed, tasks);
}

/// Records the results at these places as posted in the last turn, and empties the list of places.
#[inline(always)]
fn keep_posted(history: &mut History, dones: &[Done], posted: &mut Vec<usize>)
    requires room { length posted.old.items ≤ history.old.room.posted }
    requires places { ArePlaces dones.now posted.old.items }
    requires begun { 0 < length history.old.turns }
    ensures turns { history.new.turns
        ≡ on_last (posting (picked dones.now posted.old.items)) history.old.turns }
    ensures rows { history.new.room.rows ≡ history.old.room.rows }
    ensures taken { history.new.room.taken ≡ history.old.room.taken }
    ensures claimed { history.new.room.claimed ≡ history.old.room.claimed }
    ensures sent { history.new.room.sent ≡ history.old.room.sent }
    ensures empty { posted.new.items ≡ [] }
{
    for place in posted.as_slice() {
        history.post(std::slice::from_ref(dones[*place].as_record()));
    }
    posted.clear();
}

/// Records rows entered in the last turn, and empties their list. Mostly a list is empty, so each is looked at first.
#[inline(always)]
fn keep_rows(history: &mut History, rows: &mut Vec<RowAt>)
    requires room { length rows.old.items ≤ history.old.room.rows }
    requires begun { 0 < length history.old.turns }
    ensures turns { history.new.turns ≡ on_last (entering rows.old.items) history.old.turns }
    ensures taken { history.new.room.taken ≡ history.old.room.taken }
    ensures claimed { history.new.room.claimed ≡ history.old.room.claimed }
    ensures sent { history.new.room.sent ≡ history.old.room.sent }
    ensures empty { rows.new.items ≡ [] }
{
    if rows.as_slice().is_empty() {
        return;
    }
    history.enter(rows.as_slice());
    rows.clear();
}

/// Records messages taken in the last turn, and empties their list.
#[inline(always)]
fn keep_taken(history: &mut History, messages: &mut Vec<OnLink>)
    requires room { length messages.old.items ≤ history.old.room.taken }
    requires begun { 0 < length history.old.turns }
    ensures turns { history.new.turns ≡ on_last (taking messages.old.items) history.old.turns }
    ensures claimed { history.new.room.claimed ≡ history.old.room.claimed }
    ensures sent { history.new.room.sent ≡ history.old.room.sent }
    ensures empty { messages.new.items ≡ [] }
{
    if messages.as_slice().is_empty() {
        return;
    }
    history.take(messages.as_slice());
    messages.clear();
}

/// Records tasks claimed in the last turn, and moves them to `tasks`.
#[inline(always)]
fn keep_claimed(history: &mut History, claimed: &mut Vec<Task>, tasks: &mut Tasks)
    requires room { length claimed.old.items ≤ history.old.room.claimed }
    requires tasks { length claimed.old.items ≤ tasks.old.spare }
    requires begun { 0 < length history.old.turns }
    ensures turns { history.new.turns ≡ on_last (claiming claimed.old.items) history.old.turns }
    ensures sent { history.new.room.sent ≡ history.old.room.sent }
    ensures tasks { tasks.new.tasks ≡ tasks.old.tasks ++ claimed.old.items }
    ensures empty { claimed.new.items ≡ [] }
{
    if claimed.as_slice().is_empty() {
        return;
    }
    history.claim(claimed.as_slice());
    tasks.append(claimed);
}
