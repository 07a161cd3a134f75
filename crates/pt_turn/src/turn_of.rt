//! A turn of a platform.

ghost use Rattle.std.specs.Prelude.{◌≡◌, ◌≤◌, ◌++◌, MatchOption, None, Some, length};
ghost use Rattle.pt_turn.specs.Posts.Posted.{AreDone};
ghost use Rattle.pt_turn.specs.Platforms.{level_at, state_at};
ghost use Rattle.pt_turn.specs.declared.fault.TurnFault.{TurnFault};
ghost use Rattle.pt_turn.specs.Turned.{IsEnough, IsTurned, MayCome, StaysThere};

use crate::kept_turn::raised_to;
use crate::made_turn::make;
use crate::platform::Platform;
use crate::progress::Setup;
use pt_actors::{Done, Tasks};
use pt_tags::Reading;
use pt_types::OnLink;

impl Platform {
    /// Makes one turn at a reading, in microseconds, which is raised to the last one if it is smaller. It posts the results
    /// of open claims, enters the rows that are seen, takes messages up to and including the first that is late, claims at
    /// most `most` units, whose tasks are appended to `tasks`, and closes if nothing is left to do.
    ///
    /// If a message was late, or all claims were made before it and a unit is safe, the platform then has a `fault`. From
    /// then on a turn changes nothing. Allocates nothing: `room` has reserved the memory.
    #[inline(always)]
    pub fn turn(
        &mut self,
        reading: Reading,
        done: &[Done],
        taken: &[OnLink],
        most: usize,
        tasks: &mut Tasks,
    )
        requires room { MatchOption self.old.room ⊥
            (IsEnough reading (length done.now) (length taken.now) most) }
        requires most { (1 ≤ most) × (most ≤ 64) }
        requires tasks { most ≤ tasks.old.spare }
        requires done { AreDone self.old.plan.graph done.now }
        requires taken { MayCome self.old.plan.graph (level_at self.old) self.old.number
            (state_at self.old) taken.now }
        ensures turned { self.old.fault ≡ None →
            (made : IsTurned self.old self.new reading most done.now taken.now)
            × (tasks.new.tasks ≡ tasks.old.tasks ++ made.turn.claimed)
            × StaysThere self.old self.new }
        ensures stopped { (fault : TurnFault) → self.old.fault ≡ Some fault → (self.new ≡ self.old)
            × (tasks.new ≡ tasks.old) }
    {
        if let Some(_) = self.progress.fault {
            return;
        }
        let reading = raised_to(self.progress.fields.reading, reading);
        let setup = Setup {
            plan: &self.plan,
            number: self.number,
            closing: self.closing,
        };
        make(
            &mut self.progress,
            &setup,
            reading,
            done,
            taken,
            most,
            tasks,
        );
        self.room.clear();
        self.next = None;
    }
}
