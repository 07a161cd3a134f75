//! The clocks of runs that meet.

ghost use Rattle.std.specs.Prelude.{◌≡◌, IfOk, length};

use crate::meetings::meeting::Meeting;
use pt_io::{Clock, StepClock};
use std::alloc::{AllocError, Global};
use std::sync::Arc;

/// How many clocks a command gets.
const CLOCKS: usize = 16;

/// A clock that reads 0, 1, 2 and so on. Its first reading waits until another one has begun its own.
#[derive(Drop)]
pub struct MeetingClock {
    meeting: Arc<Meeting>,
    next: u64,
}

impl Clock for MeetingClock {
    ghost use Rattle.std.specs.Prelude.{None};

    ghost readings = { λ c. None };

    ghost ahead = { λ c. None };

    fn read(&mut self) -> u64 {
        let reading = self.next;
        if reading == 0 {
            let _ = self.meeting.come();
            self.meeting.wait();
        }
        self.next = reading.saturating_add(1);
        reading
    }

    fn rises_by_itself(&self) -> bool {
        true
    }

    fn wait(&mut self, _until: u64) {}
}

/// The clocks of a command that meet here.
pub fn meeting_clocks(
    alloc: Global,
    meeting: &Arc<Meeting>,
) -> Result<Vec<MeetingClock>, AllocError>
    ensures { IfOk result (λ clocks. length clocks.items ≡ 16) }
{
    let mut clocks = Vec::with_capacity(alloc, CLOCKS)?;
    while clocks.len() < CLOCKS {
        let meeting = Arc::clone(meeting)?;
        clocks.push(MeetingClock { meeting, next: 0 })?;
    }
    Ok(clocks)
}

/// The clocks of a command, each of which reads 0, 1, 2 and so on.
pub fn step_clocks(alloc: Global) -> Result<Vec<StepClock>, AllocError>
    ensures { IfOk result (λ clocks. length clocks.items ≡ 16) }
{
    let mut clocks = Vec::with_capacity(alloc, CLOCKS)?;
    while clocks.len() < CLOCKS {
        clocks.push(StepClock::new(0, 1))?;
    }
    Ok(clocks)
}
