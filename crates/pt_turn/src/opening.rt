//! Opening a platform, and its next reading.

ghost use Rattle.std.specs.Prelude.{◌≡◌, [], None, IfOk, MatchOption, map, true, false};
ghost use Rattle.std.specs.Arc.{arc_value};
ghost use Rattle.pt_semantics.specs.Paced.{IsNextReading};
ghost use Rattle.pt_turn.specs.Handed.{rows_handed, unentered, AreHanded};
ghost use Rattle.pt_turn.specs.Platforms.{rows_at, state_at};

use crate::claim::next_reading;
use crate::close::closing_reading;
use crate::platform::Platform;
use crate::progress::Progress;
use crate::reserved::Reserved;
use crate::taken_ends::TakenEnds;
use crate::{Lists, open_fields};
use pt_history::History;
use pt_offsets::Plan;
use pt_sensors::SensorRows;
use pt_tags::Memory;
use std::alloc::Global;
use std::sync::Arc;

impl Platform {
    /// A platform of a plan, with the rows of its sensors in the order of the graph, each on time and not past the
    /// horizon. Its starting events wait, and it has made no turn.
    pub fn open(
        alloc: Global,
        plan: Arc<Plan>,
        platform: u32,
        rows: Vec<SensorRows>,
    ) -> Result<Platform, Memory>
        requires { AreHanded (arc_value plan).graph platform rows.items }
        ensures plan { IfOk result (λ opened. opened.plan ≡ arc_value plan) }
        ensures number { IfOk result (λ opened. opened.number ≡ platform) }
        ensures rows { IfOk result (λ opened. rows_at opened ≡ rows_handed rows.items) }
        ensures sensors { IfOk result (λ opened. opened.sensors ≡ map unentered rows.items) }
        ensures turns { IfOk result (λ opened. opened.turns ≡ []) }
        ensures new { IfOk result (λ opened. (opened.fault ≡ None) × (opened.room ≡ None)
            × (opened.open_claims ≡ []) × (opened.outbox ≡ []) × (opened.reading ≡ None)) }
    {
        let fields = open_fields(alloc, &plan, platform, rows)?;
        let closing = closing_reading(&plan, platform);
        let ended = TakenEnds::none(alloc, plan.graph().links.as_slice().len())?;
        Ok(Platform {
            plan,
            number: platform,
            closing,
            progress: Progress {
                fields,
                history: History::new(alloc),
                ended,
                lists: Lists {
                    posted: Vec::new(alloc),
                    rows: Vec::new(alloc),
                    taken: Vec::new(alloc),
                    claimed: Vec::new(alloc),
                },
                fault: None,
                next_row: 0,
            },
            room: Reserved::none(),
            next: None,
        })
    }

    /// The least reading, in microseconds, at which something can happen: a row is seen, a unit reaches its paced reading,
    /// or the platform can close. `None` if it is closed.
    pub fn next_reading(&self) -> Option<u64>
        ensures { MatchOption result (self.now.closed ≡ true)
            (λ next. (self.now.closed ≡ false)
            × IsNextReading self.now.plan.graph self.now.number (state_at self.now) next) }
    {
        if self.progress.fields.closed {
            return None;
        }
        match self.next {
            Some(next) => Some(next),
            None => Some(self.search_next()),
        }
    }

    /// The next reading, in microseconds, by a search. Not inlined, since mostly it is known.
    #[inline(never)]
    fn search_next(&self) -> u64
        ensures { IsNextReading self.now.plan.graph self.now.number (state_at self.now) result }
    {
        next_reading(&self.progress.fields, &self.plan, self.number, self.closing)
    }
}
