//! Turns in which nothing happens.

ghost use Rattle.std.specs.Prelude.{◌≡◌, ◌≤◌, None, IfOk, OnErr, OnOk, true, false};
ghost use Rattle.pt_semantics.specs.Kept.{kept_with};
ghost use Rattle.pt_semantics.specs.Paced.{IsNextReading};
ghost use Rattle.pt_history.specs.Turns.{fresh};
ghost use Rattle.pt_turn.specs.Platforms.{state_at};
ghost use Rattle.pt_turn.specs.Rested.{HasRested, IsAwake};

use crate::claim::next_reading;
use crate::kept_turn::raised_to;
use crate::memory::keep_room;
use crate::platform::Platform;
use pt_history::{History, HistoryRoom};
use pt_tags::{Memory, Reading};

/// Room for one turn in which nothing happens.
const ONE_TURN: HistoryRoom = HistoryRoom {
    turns: 1,
    posted: 0,
    rows: 0,
    taken: 0,
    claimed: 0,
    sent: 0,
};

impl Platform {
    /// The next reading, in microseconds. It is cached until something changes.
    fn find_next(&mut self) -> u64
        ensures next { IsNextReading self.old.plan.graph self.old.number
            (state_at self.old) result }
        ensures same { self.new ≡ self.old }
    {
        if let Some(next) = self.next {
            return next;
        }
        self.find_anew()
    }

    /// The next reading, found anew in microseconds. Not inlined, so that the caller stays short.
    #[inline(never)]
    fn find_anew(&mut self) -> u64
        ensures next { IsNextReading self.old.plan.graph self.old.number
            (state_at self.old) result }
        ensures same { self.new ≡ self.old }
    {
        let next = next_reading(&self.progress.fields, &self.plan, self.number, self.closing);
        self.next = Some(next);
        next
    }

    /// Records an idle turn at a reading if the platform is before its next reading and has nothing to send, and returns
    /// whether it did. The reading, in microseconds, is raised to the last one if it is smaller. If it returns `false`, or
    /// runs out of memory, nothing changes.
    #[inline(always)]
    pub fn rest(&mut self, reading: Reading) -> Result<bool, Memory>
        requires no_fault { self.old.fault ≡ None }
        ensures rested { IfOk result (λ rested. rested ≡ true →
            HasRested self.old self.new reading) }
        ensures awake { IfOk result (λ rested. rested ≡ false → self.new ≡ self.old) }
        ensures why { IfOk result (λ rested. rested ≡ false → IsAwake self.old reading) }
        ensures refused { OnErr result (self.new ≡ self.old) }
    {
        if !self.progress.fields.outbox.is_empty() {
            return Ok(false);
        }
        let next = self.find_next();
        let reading = raised_to(self.progress.fields.reading, reading);
        if next <= reading {
            return Ok(false);
        }
        keep_quiet(&mut self.progress.history, reading)?;
        self.progress.fields.reading = Some(reading);
        self.room.clear();
        Ok(true)
    }
}

/// Records a turn at a reading, in microseconds, in which nothing happens. If memory runs out, nothing changes.
fn keep_quiet(history: &mut History, reading: Reading) -> Result<(), Memory>
    ensures turns { OnOk result (history.new.turns ≡ kept_with history.old.turns (fresh reading)) }
    ensures sent { OnOk result (history.old.room.sent ≤ history.new.room.sent) }
    ensures refused { OnErr result (history.new ≡ history.old) }
{
    if history.rest(reading) {
        return Ok(());
    }
    keep_with_room(history, reading)
}

/// Reserves room for a turn and records it at a reading, in microseconds. If memory runs out, nothing changes. Not inlined, so
/// that the caller stays short.
#[inline(never)]
fn keep_with_room(history: &mut History, reading: Reading) -> Result<(), Memory>
    ensures turns { OnOk result (history.new.turns ≡ kept_with history.old.turns (fresh reading)) }
    ensures sent { OnOk result (history.old.room.sent ≤ history.new.room.sent) }
    ensures refused { OnErr result (history.new ≡ history.old) }
{
    keep_room(history, ONE_TURN)?;
    history.begin(reading);
    Ok(())
}
