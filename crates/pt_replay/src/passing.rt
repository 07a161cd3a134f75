//! One round.

ghost use Rattle.std.specs.Prelude.{◌≡◌, IfOk, ℕ, List, OnOk, length};
ghost use Rattle.pt_types.specs.declared.rows.Row.{Row};
ghost use Rattle.pt_offsets.specs.Plans.{Parts};
ghost use Rattle.pt_replay.specs.Visits.Visits.{MayBeVisited};
ghost use Rattle.pt_replay.specs.Visits.Moments.{ArriveFrom};
ghost use Rattle.pt_engine.specs.Asked.{result_lists};
ghost use Rattle.pt_replay.specs.Passing.{PipesAreEmpty, WasVisitedInRound, HavePassed, IsBeforeRound};

use crate::airway::Airway;
use crate::visit::visit_at;
use pt_actors::Done;
use pt_blocks::Blocks;
use pt_engine::was_quiet;
use pt_links::Pipe;
use pt_tags::{Memory, TrueTime};
use pt_turn::Platform;
use pt_types::Air;
use pt_visits::Desk;

/// Visits a platform at a true time, and returns whether only its reading changed.
fn visit_one(
    platform: &mut Platform,
    airways: &mut [Airway],
    arrivals: &mut [u64],
    pipes: &mut [Pipe],
    results: &mut Vec<Done>,
    desk: &mut Desk,
    blocks: &Blocks,
    air: &Air,
    now: TrueTime,
) -> Result<bool, Memory>
    requires { MayBeVisited air.now now results.old.items platform.old airways.old arrivals.old
        pipes.old }
    ensures visit { IfOk result (λ still.
        WasVisitedInRound air.now now results.old.items results.new.items platform.old platform.new
        airways.old airways.new still) }
    ensures arrivals { OnOk result (ArriveFrom platform.old.plan.graph arrivals.new airways.new) }
    ensures pipes { OnOk result (pipes.new ≡ pipes.old) }
{
    let closed = platform.closed();
    visit_at(
        platform, airways, arrivals, pipes, results, desk, blocks, air, now,
    )?;
    Ok(platform.closed() == closed && was_quiet(platform))
}

/// A round at a true time, in microseconds: each platform that is not finished is visited, in order. Returns whether the
/// round was quiet. The pipes, which carry messages within a visit, are empty before it and after it. No message arrives at a
/// platform before its time in `arrivals`.
pub fn pass(
    platforms: &mut [Platform],
    airways: &mut [Airway],
    arrivals: &mut [u64],
    pipes: &mut [Pipe],
    results: &mut [Vec<Done>],
    desk: &mut Desk,
    blocks: &Blocks,
    air: &Air,
    now: TrueTime,
) -> Result<bool, Memory>
    requires begun { (plan : Parts) × (rows : ℕ → List Row) × (count : ℕ)
        × IsBeforeRound plan rows air.now count now platforms.old airways.old
        (result_lists results.old) × PipesAreEmpty plan.graph pipes.old
        × ArriveFrom plan.graph arrivals.old airways.old }
    ensures passed { IfOk result (λ quiet.
        (plan : Parts) (rows : ℕ → List Row) (count : ℕ)
        (s : IsBeforeRound plan rows air.now count now platforms.old airways.old
        (result_lists results.old)) →
        HavePassed plan rows air.now now s.state (length platforms.old) platforms.new airways.new
        (result_lists results.new) quiet) }
    ensures arrivals { OnOk result ((plan : Parts) (rows : ℕ → List Row) (count : ℕ) →
        IsBeforeRound plan rows air.now count now platforms.old airways.old
        (result_lists results.old) →
        ArriveFrom plan.graph arrivals.old airways.old →
        ArriveFrom plan.graph arrivals.new airways.new) }
    ensures pipes { OnOk result (pipes.new ≡ pipes.old) }
{
    let mut quiet = true;
    for i in 0..platforms.len() {
        if platforms[i].finished() {
            continue;
        }
        let still = visit_one(
            &mut platforms[i],
            airways,
            arrivals,
            pipes,
            &mut results[i],
            desk,
            blocks,
            air,
            now,
        )?;
        quiet &= still;
    }
    Ok(quiet)
}
