//! The platform.

ghost use Rattle.std.specs.Prelude.{◌≡◌, MatchOption, None, length, option_map, slice_get};
ghost use Rattle.std.specs.Arc.{arc_value};
ghost use Rattle.pt_semantics.specs.History.{IsLegal, LegalOnTime};
ghost use Rattle.pt_semantics.specs.Platform.{opened};
ghost use Rattle.pt_turn.specs.Laws.{IsRunning};
ghost use Rattle.pt_turn.specs.Platforms.{level_at, rows_at, state_at};
ghost use Rattle.pt_turn.specs.Running.{Shows, last_reading};

use crate::fault::TurnFault;
use crate::progress::Progress;
use crate::reserved::Reserved;
use pt_history::History;
use pt_offsets::Plan;
use pt_types::Task;
use std::marker::Model;
use std::sync::Arc;

/// A platform of a plan.
///
/// Contracts see its plan and number, the rows that it opened with, its recorded turns, the state after them, its open
/// claims, its fault, and what turn it has memory for.
#[derive(Drop)]
pub struct Platform {
    pub(crate) plan: Arc<Plan>,
    pub(crate) number: u32,
    /// The reading from which on it may close, in microseconds.
    pub(crate) closing: u64,
    pub(crate) progress: Progress,
    /// The turn that memory is reserved for.
    pub(crate) room: Reserved,
    /// Its next reading, in microseconds, if it is known.
    pub(crate) next: Option<u64>,
}

impl Model for Platform {
    ghost use Rattle.pt_turn.specs.Platforms.{PlatformView, IsPlatform, view_of};

    ghost Value = { PlatformView };

    ghost view = { view_of };

    ghost invariant = { IsPlatform };
}

impl Platform {
    /// The plan.
    pub fn plan(&self) -> &Arc<Plan>
        ensures { arc_value result.now ≡ self.now.plan }
    {
        &self.plan
    }

    /// The number of the platform in the graph.
    pub fn number(&self) -> u32
        ensures { result ≡ self.now.number }
    {
        self.number
    }

    /// Its recorded turns: a legal history, from its opening to its state.
    pub fn history(&self) -> &History
        ensures turns { result.now.turns ≡ self.now.turns }
        ensures legal { IsLegal self.now.plan.graph (level_at self.now) self.now.number
            (rows_at self.now) self.now.turns (state_at self.now) }
    {
        &self.progress.history
    }

    /// The fault that the last turn had, whose cause the recorded turns show; `None` if it had none.
    pub fn fault(&self) -> Option<TurnFault>
        ensures fault { result ≡ self.now.fault }
        ensures shows { MatchOption result (Unit {0})
            (Shows self.now.plan.graph self.now.turns (state_at self.now)) }
        ensures runs { IsRunning self.now }
        ensures read { self.now.reading ≡ last_reading self.now.turns }
        ensures on_time { result ≡ None →
            LegalOnTime self.now.plan.graph (level_at self.now) self.now.number
            (opened self.now.plan.graph self.now.number (rows_at self.now)) self.now.turns
            (state_at self.now) }
    {
        self.progress.fault
    }

    /// The reading of its last turn, in microseconds; `None` before the first.
    pub fn reading(&self) -> Option<u64>
        ensures { result ≡ self.now.reading }
    {
        self.progress.fields.reading
    }

    /// Whether it is closed.
    pub fn closed(&self) -> bool
        ensures { result ≡ self.now.closed }
    {
        self.progress.fields.closed
    }

    /// The number of open claims.
    pub fn open_claims(&self) -> usize
        ensures { result ≡ length self.now.open_claims }
    {
        self.progress.fields.open_claims.len()
    }

    /// Open claim `number`, from 0; `None` if there is no such claim.
    pub fn open_claim(&self, number: usize) -> Option<&Task>
        ensures { option_map (λ task. task.now) result
            ≡ option_map (λ claim. claim.task) (slice_get self.now.open_claims number) }
    {
        match self.progress.fields.open_claims.get(number) {
            None => None,
            Some(claim) => Some(&claim.task),
        }
    }
}
