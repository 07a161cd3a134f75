//! Calls for proofs alone: they do nothing when the program runs.

ghost use Rattle.std.specs.Prelude.{◌≡◌, None};
ghost use Rattle.pt_semantics.specs.History.{LegalOnTime};
ghost use Rattle.pt_semantics.specs.Platform.{opened};
ghost use Rattle.pt_offsets.specs.Plans.{IsAdmitted};
ghost use Rattle.pt_turn.specs.Laws.{IsRunning};
ghost use Rattle.pt_turn.specs.Platforms.{level_at, rows_at, state_at};
ghost use Rattle.pt_turn.specs.Running.{last_reading};

use pt_turn::Platform;

/// Shows what is true of each platform between two turns.
// Inlined, so that nothing is left of it.
#[inline(always)]
pub(crate) fn show_running(platform: &Platform)
    ensures runs { IsRunning platform.now }
    ensures read { platform.now.reading ≡ last_reading platform.now.turns }
    ensures on_time { platform.now.fault ≡ None →
        LegalOnTime platform.now.plan.graph (level_at platform.now) platform.now.number
        (opened platform.now.plan.graph platform.now.number (rows_at platform.now))
        platform.now.turns (state_at platform.now) }
{
    let _ = platform.fault();
}

/// Shows that the plan of a platform is admitted.
// Inlined, so that nothing is left of it.
#[inline(always)]
pub(crate) fn show_admitted(platform: &Platform)
    ensures { IsAdmitted platform.now.plan }
{
    let _ = platform.plan().graph();
}
