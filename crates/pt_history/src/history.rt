//! The recorded turns of a platform.

ghost use Rattle.std.specs.Prelude.{◌≡◌, ◌↔◌, ◌+◌, ◌-◌, ◌<◌, ◌≤◌, ◌++◌, ◌∷◌, [], IsOk, MatchOption, OnErr, OnOk, Some, false, length, option_map, slice_get, take, true};
ghost use Rattle.std.specs.List.{flat_map};
ghost use Rattle.pt_history.specs.Lists.{on_last};
ghost use Rattle.pt_semantics.specs.Turn.{is_quiet};
ghost use Rattle.pt_semantics.specs.Kept.{kept_with, settled};
ghost use Rattle.pt_history.specs.Turns.{all_dated, claimed_in, claiming, entering, fresh, turn_head, larger, posted_in, posting, quiet, sending, taking};
ghost use Rattle.pt_history.specs.Keeping.{Joins};
ghost use Rattle.pt_history.specs.Tasks.{mark_of};
ghost use Rattle.pt_history.specs.Levels.{AreTurnLevels};

use crate::Pieces;
use crate::claims::Mark;
use crate::head::Head;
use crate::heads::Heads;
use crate::levels::TurnLevels;
use crate::posted_at::PostedAt;
use crate::room::HistoryRoom;
use crate::work_lists::WorkLists;
use pt_tags::{Memory, Reading};
use pt_types::{Done, OnLink, RowAt, Task};
use std::alloc::Global;
use std::marker::Model;

/// The turns of a platform, numbered from 0, and the room reserved for more. Contracts see both as `turns` and `room`.
///
/// A run of quiet turns, in which nothing happened, is recorded as one turn with a count.
#[derive(Drop)]
pub struct History {
    heads: Heads,
    /// What was claimed and posted.
    work: WorkLists,
    rows: Pieces<RowAt>,
    taken: Pieces<OnLink>,
    sent: Pieces<OnLink>,
    room: HistoryRoom,
    /// Whether the last turn is quiet; means nothing if there is none.
    last_quiet: bool,
    /// Whether the turn before the last is quiet; means nothing if there is none.
    before_quiet: bool,
}

impl Model for History {
    ghost use Rattle.pt_history.specs.Turns.{RoomyTurns};

    ghost Value = { RoomyTurns };

    ghost use Rattle.pt_history.specs.Whole.{IsWhole, roomy_turns};

    ghost view = { roomy_turns };

    ghost invariant = { IsWhole };
}

impl History {
    /// A history without turns and without room.
    pub fn new(alloc: Global) -> History
        ensures turns { result.turns ≡ [] }
        ensures room { result.room ≡ record
            { turns = 0; posted = 0; rows = 0; taken = 0; claimed = 0; sent = 0 } }
    {
        History {
            heads: Heads::new(alloc),
            work: WorkLists::new(alloc),
            rows: Pieces::new(alloc),
            taken: Pieces::new(alloc),
            sent: Pieces::new(alloc),
            room: HistoryRoom {
                turns: 0,
                posted: 0,
                rows: 0,
                taken: 0,
                claimed: 0,
                sent: 0,
            },
            last_quiet: true,
            before_quiet: true,
        }
    }

    /// Whether at least this much room is reserved.
    pub fn has_room(&self, room: HistoryRoom) -> bool
        ensures { (result ≡ true) ↔ (larger self.now.room room ≡ self.now.room) }
    {
        self.room.holds(room)
    }

    /// Reserves at least this much room. If memory runs out, nothing changes.
    pub fn reserve(&mut self, room: HistoryRoom) -> Result<(), Memory>
        ensures turns { self.new.turns ≡ self.old.turns }
        ensures room { OnOk result (self.new.room ≡ larger self.old.room room) }
        ensures unchanged { OnErr result (self.new ≡ self.old) }
        ensures there { larger self.old.room room ≡ self.old.room → IsOk result
            × (self.new ≡ self.old) }
    {
        if self.has_room(room) {
            return Ok(());
        }
        let room = self.room.or_more(room);
        self.heads.reserve(room.turns)?;
        self.work.reserve(room.claimed, room.posted, room.turns)?;
        self.rows.reserve(room.rows, room.turns)?;
        self.taken.reserve(room.taken, room.turns)?;
        self.sent.reserve(room.sent, room.turns)?;
        self.room = room;
        Ok(())
    }

    /// Begins a turn at a reading, in microseconds. First the last two turns are joined, if both are quiet and 64 bits hold
    /// the sum of their counts (this project's own choice: a history does not grow while nothing happens).
    /// This uses the room of one turn, and allocates nothing.
    pub fn begin(&mut self, reading: Reading)
        requires { 0 < self.old.room.turns }
        ensures turns { self.new.turns ≡ kept_with self.old.turns (fresh reading) }
        ensures room { self.new.room ≡ record self.old.room { turns = self.old.room.turns - 1 } }
    {
        match self.run() {
            Some(run) => {
                self.join(run, reading);
                self.room.turns -= 1;
            }
            None => self.add(reading),
        }
    }

    /// Does the same as `begin`, but needs no room if two turns are joined; returns `false` and changes nothing if a turn is
    /// to be added and there is no room for it. Allocates nothing.
    #[inline(always)]
    pub fn rest(&mut self, reading: Reading) -> bool
        ensures turns { result ≡ true → self.new.turns ≡ kept_with self.old.turns (fresh reading) }
        ensures room { result ≡ true → record self.new.room { turns = self.old.room.turns }
            ≡ self.old.room }
        ensures used { self.old.room.turns ≤ self.new.room.turns + 1 }
        ensures unchanged { result ≡ false → self.new ≡ self.old }
        ensures why { result ≡ false → self.old.room.turns ≡ 0 }
    {
        match self.run() {
            Some(run) => {
                self.join(run, reading);
                true
            }
            None => {
                if self.room.turns == 0 {
                    return false;
                }
                self.add(reading);
                true
            }
        }
    }

    /// Adds a quiet turn at a reading, in microseconds, at the end. Not inlined, since `rest` mostly joins.
    #[inline(never)]
    fn add(&mut self, reading: Reading)
        requires { 0 < self.old.room.turns }
        ensures turns { self.new.turns ≡ self.old.turns ++ fresh reading ∷ [] }
        ensures room { self.new.room ≡ record self.old.room { turns = self.old.room.turns - 1 } }
    {
        self.room.turns -= 1;
        self.work.begin();
        self.rows.begin();
        self.taken.begin();
        self.sent.begin();
        self.before_quiet = self.last_quiet;
        self.last_quiet = true;
        self.heads.push(reading);
    }

    /// Replaces the last two turns, which are quiet, by their joined run and a new quiet turn at a reading, in microseconds.
    fn join(&mut self, run: Head, reading: Reading)
        requires { Joins self.old.turns (length self.old.turns - 2) run }
        ensures turns { self.new.turns ≡ take (length self.old.turns - 2) self.old.turns
            ++ quiet run.first run.last run.count ∷ fresh reading ∷ [] }
        ensures room { self.new.room ≡ self.old.room }
    {
        self.heads.replace(run, reading);
    }

    /// The joined head of the last two turns, if both are quiet and their count fits; else `None`.
    #[inline(always)]
    fn run(&self) -> Option<Head>
        ensures { MatchOption result (settled self.now.turns ≡ self.now.turns)
            (λ run. Joins self.now.turns (length self.now.turns - 2) run) }
    {
        if !self.before_quiet {
            return None;
        }
        if !self.last_quiet {
            return None;
        }
        match self.heads.last_two() {
            None => None,
            Some((before, last)) => match before.count.checked_add(last.count) {
                None => None,
                Some(count) => Some(Head {
                    first: before.first,
                    last: last.last,
                    count,
                }),
            },
        }
    }

    /// Whether nothing was posted, entered, taken, claimed or sent in the last turn.
    pub fn was_quiet(&self) -> bool
        requires { 0 < length self.now.turns }
        ensures { option_map is_quiet (slice_get self.now.turns (length self.now.turns - 1))
            ≡ Some result }
    {
        self.last_quiet
    }

    /// Appends results to those posted in the last turn. Allocates nothing.
    pub fn post(&mut self, dones: &[Done])
        requires room { length dones.now ≤ self.old.room.posted }
        requires begun { 0 < length self.old.turns }
        ensures turns { self.new.turns ≡ on_last (posting dones.now) self.old.turns }
        ensures room { self.new.room ≡ record self.old.room
            { posted = self.old.room.posted - length dones.now } }
    {
        self.work.post(dones);
        self.room.posted -= dones.len();
        self.last_quiet &= dones.is_empty();
    }

    /// Appends rows to those entered in the last turn. Allocates nothing.
    pub fn enter(&mut self, rows: &[RowAt])
        requires room { length rows.now ≤ self.old.room.rows }
        requires begun { 0 < length self.old.turns }
        ensures turns { self.new.turns ≡ on_last (entering rows.now) self.old.turns }
        ensures room { self.new.room ≡ record self.old.room
            { rows = self.old.room.rows - length rows.now } }
    {
        self.rows.extend(rows);
        self.room.rows -= rows.len();
        self.last_quiet &= rows.is_empty();
    }

    /// Appends messages to those taken in the last turn. Allocates nothing.
    pub fn take(&mut self, messages: &[OnLink])
        requires room { length messages.now ≤ self.old.room.taken }
        requires begun { 0 < length self.old.turns }
        ensures turns { self.new.turns ≡ on_last (taking messages.now) self.old.turns }
        ensures room { self.new.room ≡ record self.old.room
            { taken = self.old.room.taken - length messages.now } }
    {
        self.taken.extend(messages);
        self.room.taken -= messages.len();
        self.last_quiet &= messages.is_empty();
    }

    /// Appends tasks to those claimed in the last turn. Allocates nothing.
    pub fn claim(&mut self, tasks: &[Task])
        requires room { length tasks.now ≤ self.old.room.claimed }
        requires begun { 0 < length self.old.turns }
        ensures turns { self.new.turns ≡ on_last (claiming tasks.now) self.old.turns }
        ensures room { self.new.room ≡ record self.old.room
            { claimed = self.old.room.claimed - length tasks.now } }
    {
        self.work.claim(tasks);
        self.room.claimed -= tasks.len();
        self.last_quiet &= tasks.is_empty();
    }

    /// Appends messages to those sent after the last turn. Allocates nothing.
    pub fn send(&mut self, messages: &[OnLink])
        requires room { length messages.now ≤ self.old.room.sent }
        requires begun { 0 < length self.old.turns }
        ensures turns { self.new.turns ≡ on_last (sending messages.now) self.old.turns }
        ensures room { self.new.room ≡ record self.old.room
            { sent = self.old.room.sent - length messages.now } }
    {
        self.sent.extend(messages);
        self.room.sent -= messages.len();
        self.last_quiet &= messages.is_empty();
    }

    /// The number of recorded turns; a run of quiet ones counts as one.
    pub fn turns(&self) -> usize
        ensures { result ≡ length self.now.turns }
    {
        self.heads.len()
    }

    /// The readings and the count of a recorded turn, all by one look-up.
    pub fn head(&self, number: usize) -> Head
        requires { number < length self.now.turns }
        ensures { option_map turn_head (slice_get self.now.turns number) ≡ Some result }
    {
        self.heads.get(number)
    }

    /// The first reading of a recorded turn, in microseconds.
    pub fn first(&self, number: usize) -> u64
        requires { number < length self.now.turns }
        ensures { option_map (λ turn. turn.first) (slice_get self.now.turns number) ≡ Some result }
    {
        self.heads.get(number).first
    }

    /// The last reading of a recorded turn, in microseconds.
    pub fn last(&self, number: usize) -> u64
        requires { number < length self.now.turns }
        ensures { option_map (λ turn. turn.last) (slice_get self.now.turns number) ≡ Some result }
    {
        self.heads.get(number).last
    }

    /// How many turns a recorded turn stands for.
    pub fn count(&self, number: usize) -> u64
        requires { number < length self.now.turns }
        ensures { option_map (λ turn. turn.count) (slice_get self.now.turns number) ≡ Some result }
    {
        self.heads.get(number).count
    }

    /// How many results were posted in a recorded turn.
    pub fn posted(&self, turn: usize) -> usize
        requires { turn < length self.now.turns }
        ensures { result ≡ length (posted_in self.now.turns turn) }
    {
        self.work.posted(turn)
    }

    /// Result `number` of a recorded turn, counted from 0.
    pub fn done_in(&self, turn: usize, number: usize) -> Done
        requires { number < length (posted_in self.now.turns turn) }
        ensures { slice_get (posted_in self.now.turns turn) number ≡ Some result }
    {
        self.work.done_in(turn, number)
    }

    /// The task of result `number` of a recorded turn, counted from 0, without its inputs and its state.
    pub fn done_mark(&self, turn: usize, number: usize) -> Mark
        requires { number < length (posted_in self.now.turns turn) }
        ensures { option_map (λ done. mark_of done.task)
            (slice_get (posted_in self.now.turns turn) number) ≡ Some result }
    {
        self.work.done_mark(turn, number)
    }

    /// How many results were posted in all recorded turns.
    pub fn results(&self) -> usize
        ensures { result ≡ length (all_dated self.now.turns) }
    {
        self.work.results()
    }

    /// The task of result `number` of all recorded turns, counted from 0, without its inputs and its state.
    pub fn result_mark(&self, number: usize) -> Mark
        requires { number < length (all_dated self.now.turns) }
        ensures { option_map (λ dated. mark_of dated.done.task)
            (slice_get (all_dated self.now.turns) number) ≡ Some result }
    {
        self.work.result_mark(number)
    }

    /// When result `number` of all recorded turns was posted, counted from 0. It is found in few steps if that was soon after turn
    /// `near`, as for the result after one that was posted in that turn.
    pub fn posted_at(&self, number: usize, near: usize) -> PostedAt
        requires { number < length (all_dated self.now.turns) }
        ensures { option_map (λ dated. dated.reading) (slice_get (all_dated self.now.turns) number)
            ≡ Some result.reading }
    {
        let turn = self.work.list_of_result(number, near);
        let reading = self.heads.get(turn).last;
        PostedAt { turn, reading }
    }

    /// The rows entered in a recorded turn.
    pub fn rows(&self, number: usize) -> &[RowAt]
        requires { number < length self.now.turns }
        ensures { option_map (λ turn. turn.rows) (slice_get self.now.turns number)
            ≡ Some result.now }
    {
        self.rows.get(number)
    }

    /// The messages taken in a recorded turn.
    pub fn taken(&self, number: usize) -> &[OnLink]
        requires { number < length self.now.turns }
        ensures { option_map (λ turn. turn.taken) (slice_get self.now.turns number)
            ≡ Some result.now }
    {
        self.taken.get(number)
    }

    /// The messages taken in all recorded turns, in order.
    pub fn all_taken(&self) -> &[OnLink]
        ensures { result.now ≡ flat_map (λ turn. turn.taken) self.now.turns }
    {
        self.taken.all()
    }

    /// The messages sent after all recorded turns, in order.
    pub fn all_sent(&self) -> &[OnLink]
        ensures { result.now ≡ flat_map (λ turn. turn.sent) self.now.turns }
    {
        self.sent.all()
    }

    /// How many tasks were claimed in a recorded turn.
    pub fn claimed(&self, turn: usize) -> usize
        requires { turn < length self.now.turns }
        ensures { result ≡ length (claimed_in self.now.turns turn) }
    {
        self.work.claimed(turn)
    }

    /// Claim `number` of a recorded turn, counted from 0, without its inputs and its state.
    pub fn claim_mark(&self, turn: usize, number: usize) -> Mark
        requires { number < length (claimed_in self.now.turns turn) }
        ensures { option_map mark_of (slice_get (claimed_in self.now.turns turn) number)
            ≡ Some result }
    {
        self.work.claim_mark(turn, number)
    }

    /// The messages sent after a recorded turn and before the next one.
    pub fn sent(&self, number: usize) -> &[OnLink]
        requires { number < length self.now.turns }
        ensures { option_map (λ turn. turn.sent) (slice_get self.now.turns number)
            ≡ Some result.now }
    {
        self.sent.get(number)
    }

    /// The number of tasks claimed in all recorded turns.
    pub fn claims(&self) -> u64
        ensures { result ≡ length (flat_map (λ turn. turn.claimed) self.now.turns) }
    {
        self.work.claims() as u64
    }

    /// Claim `number` of all recorded turns, counted from 0.
    pub fn task(&self, number: usize) -> Task
        requires { number < length (flat_map (λ turn. turn.claimed) self.now.turns) }
        ensures { slice_get (flat_map (λ turn. turn.claimed) self.now.turns) number ≡ Some result }
    {
        self.work.task(number)
    }

    /// Claim `number` of all recorded turns, counted from 0, without its inputs and its state.
    pub fn mark(&self, number: usize) -> Mark
        requires { number < length (flat_map (λ turn. turn.claimed) self.now.turns) }
        ensures { option_map mark_of (slice_get
            (flat_map (λ turn. turn.claimed) self.now.turns) number) ≡ Some result }
    {
        self.work.mark(number)
    }

    /// The number of results posted up to the end of a recorded turn.
    pub fn results_through(&self, turn: usize) -> usize
        requires { turn < length self.now.turns }
        ensures { result ≡ length (flat_map (λ turn. turn.posted)
            (take (turn + 1) self.now.turns)) }
    {
        self.work.results_through(turn)
    }

    /// The number of tasks claimed up to the end of a recorded turn.
    pub fn claims_through(&self, turn: usize) -> usize
        requires { turn < length self.now.turns }
        ensures { result ≡ length (flat_map (λ turn. turn.claimed)
            (take (turn + 1) self.now.turns)) }
    {
        self.work.claims_through(turn)
    }

    /// What is known of a block of 64 recorded turns: those whose number divided by 64 is `block`. For a reader that goes
    /// through all turns this is cheaper than to ask about each list of each turn.
    pub fn levels(&self, block: usize) -> TurnLevels
        ensures { AreTurnLevels self.now.turns block result }
    {
        TurnLevels {
            heads: self.heads.levels(block),
            posted: self.work.posted_levels(block),
            rows: self.rows.levels(block),
            taken: self.taken.levels(block),
            claimed: self.work.claimed_levels(block),
            sent: self.sent.levels(block),
        }
    }
}
