//! The memory of the next turn.

ghost use Rattle.std.specs.Prelude.{IfSome, ◌≡◌, ◌≤◌, ℕ, OnErr, OnOk, Some, length};
ghost use Rattle.pt_semantics.specs.Entering.{all_due};
ghost use Rattle.pt_turn.specs.Fields.State.{left_in};
ghost use Rattle.pt_turn.specs.Growing.{AreEnough};
ghost use Rattle.pt_turn.specs.Platforms.{raised_to};
ghost use Rattle.pt_turn.specs.Steps.{count_due};

use crate::enter::count_due;
use crate::kept_turn::raised_to;
use crate::memory::{Needs, make_room};
use crate::platform::Platform;
use crate::state::Fields;
use pt_offsets::Plan;
use pt_tags::{Memory, Reading};

/// The turn to reserve memory for: its reading, in microseconds, and how many results, messages and claims it may have.
#[derive(Clone, Copy, Debug, PartialEq, Eq)]
pub struct Room {
    pub reading: Reading,
    pub done: usize,
    pub taken: usize,
    pub most: usize,
}

/// What a turn may need in which at most this many rows enter: an event for each wire, row and message, and a message on each
/// link for each result and for closing. `None` if 64 bits do not hold a number.
#[inline(always)]
fn needs_of(plan: &Plan, fields: &Fields, room: Room, rows: usize) -> Option<Needs>
    ensures { (r : ℕ) → count_due plan.now.graph r fields.now ≤ rows →
        IfSome result (AreEnough plan.now.graph fields.now r room) }
{
    let graph = plan.graph();
    let links = graph.links.as_slice().len();
    let wires = graph.wires.as_slice().len();
    let messages = room.done.checked_mul(links)?.checked_add(links)?;
    Some(Needs {
        events: wires.checked_add(rows)?.checked_add(room.taken)?,
        messages,
        sent: fields.outbox.len().checked_add(messages)?,
        posted: room.done,
        rows,
        taken: room.taken,
        claimed: room.most,
    })
}

impl Platform {
    /// Reserves the memory of the next turn, and of the messages sent after it. An error leaves all unchanged.
    #[inline(always)]
    pub fn room(&mut self, room: Room) -> Result<(), Memory>
        ensures room { OnOk result (self.new ≡ record self.old { room = Some room }) }
        ensures refused { OnErr result (self.new ≡ self.old) }
    {
        if raised_to(self.progress.fields.reading, room.reading) < self.progress.next_row {
            return self.room_with(room, 0);
        }
        self.room_with_rows(room.reading, room.done, room.taken, room.most)
    }

    /// The same where rows may enter. Not inlined, since at most turns none does. Takes the parts of a room, so that at those turns
    /// no room is written to memory.
    #[inline(never)]
    fn room_with_rows(
        &mut self,
        reading: Reading,
        done: usize,
        taken: usize,
        most: usize,
    ) -> Result<(), Memory>
        ensures room { OnOk result (self.new
            ≡ record self.old {
              room = Some
                  (record { reading = reading; done = done; taken = taken; most = most });
            }) }
        ensures refused { OnErr result (self.new ≡ self.old) }
    {
        let raised = raised_to(self.progress.fields.reading, reading);
        let Some(rows) = count_due(
            self.plan.graph(),
            self.progress.fields.sensors.as_slice(),
            raised,
        ) else {
            return Err(Memory);
        };
        let room = Room {
            reading,
            done,
            taken,
            most,
        };
        self.room_with(room, rows)
    }

    /// The same where at most this many rows enter.
    #[inline(always)]
    fn room_with(&mut self, room: Room, rows: usize) -> Result<(), Memory>
        requires rows { length (all_due self.old.plan.graph
            (raised_to self.old.reading room.reading) (left_in self.old.sensors)) ≤ rows }
        ensures room { OnOk result (self.new ≡ record self.old { room = Some room }) }
        ensures refused { OnErr result (self.new ≡ self.old) }
    {
        let Some(needs) = needs_of(&self.plan, &self.progress.fields, room, rows) else {
            return Err(Memory);
        };
        make_room(
            &mut self.progress.fields,
            &mut self.progress.lists,
            &mut self.progress.history,
            needs,
        )?;
        self.room.set(room);
        Ok(())
    }
}
