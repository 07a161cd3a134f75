//! The turn that memory is reserved for.

ghost use Rattle.std.specs.Prelude.{◌≡◌, None, Some};

use crate::room::Room;
use std::marker::Model;

/// The turn that memory is reserved for, if any. Contracts see it as an `Option<Room>`.
///
/// Each turn clears it, which takes one store, since whether there is such a turn is a flag beside the room. An `Option`
/// would be written as a whole.
#[derive(Drop)]
pub struct Reserved {
    room: Room,
    is_there: bool,
}

impl Model for Reserved {
    ghost use Rattle.std.specs.Prelude.{Option, None, Some, if◌then◌else◌};
    ghost use Rattle.pt_turn.specs.declared.room.Room.{Room};

    ghost Value = { Option Room };

    ghost view = { λ r. if r.is_there then Some r.room else None };
}

impl Reserved {
    /// No turn.
    pub fn none() -> Reserved
        ensures { result ≡ None }
    {
        Reserved {
            room: Room {
                reading: 0,
                done: 0,
                taken: 0,
                most: 0,
            },
            is_there: false,
        }
    }

    /// Memory is reserved for this turn now.
    #[inline(always)]
    pub fn set(&mut self, room: Room)
        ensures { self.new ≡ Some room }
    {
        self.room = room;
        self.is_there = true;
    }

    /// Memory is reserved for no turn any more.
    #[inline(always)]
    pub fn clear(&mut self)
        ensures { self.new ≡ None }
    {
        self.is_there = false;
    }
}
