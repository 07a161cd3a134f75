//! The memory of a turn: how much it needs, and reserving it, in the history also for later turns.

ghost use Rattle.std.specs.Prelude.{◌+◌, ◌≤◌, OnOk, vec_len, vec_capacity, ◌≡◌, ◌⊎◌, [], IsOk, OnErr};
ghost use Rattle.pt_turn.specs.Growing.{AreWider, FieldsMeet, HistoryIsWider, HistoryMeets, IsWider, ListsAreWider, ListsMeet, ahead_of, more_than};
ghost use Rattle.pt_turn.specs.Steps.{AreEmpty};
ghost use Rattle.pt_history.specs.Turns.{larger};

use crate::Lists;
use crate::state::Fields;
use pt_history::{History, HistoryRoom};
use pt_tags::Memory;

/// How much a turn may need.
#[derive(Clone, Copy)]
pub struct Needs {
    /// Events added to the queue.
    pub events: usize,
    /// Messages added to the outbox.
    pub messages: usize,
    /// Messages that may be sent after the turn.
    pub sent: usize,
    pub posted: usize,
    pub rows: usize,
    pub taken: usize,
    pub claimed: usize,
}

/// Reserves the memory of a turn, whose lists are still empty. If memory runs out, some may be reserved, and nothing else
/// changes.
#[inline(always)]
pub fn make_room(
    fields: &mut Fields,
    lists: &mut Lists,
    history: &mut History,
    needs: Needs,
) -> Result<(), Memory>
    requires empty { AreEmpty lists.old }
    ensures fields { AreWider fields.old fields.new }
    ensures lists { ListsAreWider lists.old lists.new }
    ensures history { HistoryIsWider history.old history.new }
    ensures met { OnOk result (FieldsMeet needs fields.new × ListsMeet needs lists.new
        × HistoryMeets needs history.new.room) }
{
    widen_fields(fields, needs)?;
    widen_lists(lists, needs)?;
    widen_history(history, needs)
}

/// Reserves the memory needed by the queue, the open claims and the outbox.
#[inline(always)]
fn widen_fields(fields: &mut Fields, needs: Needs) -> Result<(), Memory>
    ensures fields { AreWider fields.old fields.new }
    ensures met { OnOk result (FieldsMeet needs fields.new) }
{
    fields.queue.reserve(needs.events)?;
    fields.open_claims.reserve(needs.claimed)?;
    fields.outbox.reserve(needs.messages)
}

/// Reserves the memory needed by the lists of a turn, which are empty.
#[inline(always)]
fn widen_lists(lists: &mut Lists, needs: Needs) -> Result<(), Memory>
    requires { AreEmpty lists.old }
    ensures lists { ListsAreWider lists.old lists.new }
    ensures met { OnOk result (ListsMeet needs lists.new) }
{
    widen(&mut lists.posted, needs.posted)?;
    widen(&mut lists.rows, needs.rows)?;
    widen(&mut lists.taken, needs.taken)?;
    widen(&mut lists.claimed, needs.claimed)
}

/// Reserves the memory needed by the history.
fn widen_history(history: &mut History, needs: Needs) -> Result<(), Memory>
    ensures history { HistoryIsWider history.old history.new }
    ensures met { OnOk result (HistoryMeets needs history.new.room) }
{
    if history.has_room(room_of(needs)) {
        return Ok(());
    }
    widen_ahead(history, room_of(needs))
}

/// The room of a history that a turn needs. It is made anew where it is used, since a comparison needs no memory for it.
#[inline(always)]
fn room_of(needs: Needs) -> HistoryRoom
    ensures { HistoryMeets needs result }
{
    HistoryRoom {
        turns: 1,
        posted: needs.posted,
        rows: needs.rows,
        taken: needs.taken,
        claimed: needs.claimed,
        sent: needs.sent,
    }
}

/// Reserves memory for this many items in an empty list. Mostly it is there, which its capacity alone shows.
#[inline(always)]
fn widen<T>(list: &mut Vec<T>, items: usize) -> Result<(), Memory>
    requires empty { list.old.items ≡ [] }
    ensures wider { IsWider list.old list.new }
    ensures room { OnOk result (vec_len list.new + items ≤ vec_capacity list.new) }
{
    if items <= list.capacity() {
        return Ok(());
    }
    widen_more(list, items)
}

/// Reserves memory for this many more items in a list. Not inlined, so that the caller stays short.
#[inline(never)]
fn widen_more<T>(list: &mut Vec<T>, items: usize) -> Result<(), Memory>
    ensures wider { IsWider list.old list.new }
    ensures room { OnOk result (vec_len list.new + items ≤ vec_capacity list.new) }
{
    list.reserve(items)?;
    Ok(())
}

/// Room reserved beyond twice the request, for turns and for list items. So a request for 1 turn gets room for 258, and one
/// for 64 claims gets room for 384.
const AHEAD: usize = 256;

/// 0 for 0, else twice the request and `AHEAD` more.
#[tactic(auto, unfolding(crate::specs::Growing::more_than))]
fn more(asked: usize) -> usize
    ensures enough { asked ≤ result }
    ensures is { result ≡ more_than asked }
{
    if asked == 0 {
        return 0;
    }
    asked.saturating_mul(2).saturating_add(AHEAD)
}

/// Room for the request and for later turns.
fn ahead(asked: HistoryRoom) -> HistoryRoom
    ensures enough { larger result asked ≡ result }
    ensures is { result ≡ ahead_of asked }
{
    HistoryRoom {
        turns: more(asked.turns),
        posted: more(asked.posted),
        rows: more(asked.rows),
        taken: more(asked.taken),
        claimed: more(asked.claimed),
        sent: more(asked.sent),
    }
}

/// Makes sure that a history has at least this much room. If it has less, room for later turns is reserved too, so that
/// most turns reserve nothing; if memory does not suffice for that, only this much.
#[inline(always)]
pub fn keep_room(history: &mut History, room: HistoryRoom) -> Result<(), Memory>
    ensures wider { HistoryIsWider history.old history.new }
    ensures met { OnOk result (larger history.new.room room ≡ history.new.room) }
    ensures there { larger history.old.room room ≡ history.old.room → IsOk result
        × (history.new ≡ history.old) }
    ensures room { OnOk result ((history.new.room ≡ larger history.old.room room)
        ⊎ (history.new.room ≡ larger history.old.room (ahead_of room))) }
    ensures refused { OnErr result (history.new ≡ history.old) }
{
    if history.has_room(room) {
        return Ok(());
    }
    widen_ahead(history, room)
}

/// Reserves this much room in a history, and room for later turns; if memory does not suffice for that, only this much. Not
/// inlined, since most turns have room.
#[inline(never)]
fn widen_ahead(history: &mut History, room: HistoryRoom) -> Result<(), Memory>
    ensures wider { HistoryIsWider history.old history.new }
    ensures met { OnOk result (larger history.new.room room ≡ history.new.room) }
    ensures room { OnOk result ((history.new.room ≡ larger history.old.room room)
        ⊎ (history.new.room ≡ larger history.old.room (ahead_of room))) }
    ensures refused { OnErr result (history.new ≡ history.old) }
{
    if history.reserve(ahead(room)).is_ok() {
        return Ok(());
    }
    history.reserve(room)
}
