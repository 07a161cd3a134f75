//! Rounds, until the platforms are finished.

ghost use Rattle.std.specs.Prelude.{◌≡◌, IfOk, ℕ, List, Some};
ghost use Rattle.pt_types.specs.declared.rows.Row.{Row};
ghost use Rattle.pt_causality.specs.Ranked.{level_of};
ghost use Rattle.pt_offsets.specs.Plans.{Parts};
ghost use Rattle.pt_replay.specs.Visits.Moments.{ArriveFrom, IsLeastNumber, IsMoment};
ghost use Rattle.pt_engine.specs.Asked.{result_lists};
ghost use Rattle.pt_replay.specs.Outcome.{IsOutcome};
ghost use Rattle.pt_replay.specs.Passing.{PipesAreEmpty, IsBeforeRound};

use crate::airway::Airway;
use crate::passing::pass;
use crate::visit::next_time;
use pt_actors::Done;
use pt_blocks::Blocks;
use pt_engine::{are_finished, first_fault};
use pt_links::Pipe;
use pt_tags::Memory;
use pt_turn::{Platform, TurnFault};
use pt_types::Air;
use pt_visits::Desk;

/// No replayed run has this many rounds: of three in a row at least one changes a platform, and 16 platforms, with at most one
/// row for each microsecond up to 10^15 from each of 1,024 sensors, change fewer than 2 * 10^19 times.
const MOST_ROUNDS: u128 = 1_000_000_000_000_000_000_000;

/// Runs rounds, the first at true time `begins`, until all platforms are finished or one has a fault after a round; returns the
/// first fault, with the number of its platform.
pub fn go_on(
    platforms: &mut [Platform],
    airways: &mut [Airway],
    arrivals: &mut [u64],
    pipes: &mut [Pipe],
    results: &mut [Vec<Done>],
    desk: &mut Desk,
    blocks: &Blocks,
    air: &Air,
    begins: u64,
) -> Result<Option<(u32, TurnFault)>, Memory>
    requires begun { (plan : Parts) × (rows : ℕ → List Row)
        × IsBeforeRound plan rows air.now 0 begins platforms.old airways.old
        (result_lists results.old) × PipesAreEmpty plan.graph pipes.old
        × ArriveFrom plan.graph arrivals.old airways.old }
    ensures outcome { IfOk result (λ fault. (plan : Parts) (rows : ℕ → List Row) →
        IsBeforeRound plan rows air.now 0 begins platforms.old airways.old
        (result_lists results.old) →
        IsOutcome plan (level_of plan.ranks) rows air.now platforms.new fault) }
{
    let mut now = begins;
    for _round in 0..MOST_ROUNDS {
        let quiet = pass(
            platforms, airways, arrivals, pipes, results, desk, blocks, air, now,
        )?;
        if let Some(fault) = first_fault(platforms) {
            return Ok(Some(fault));
        }
        if are_finished(platforms) {
            return Ok(None);
        }
        if quiet {
            now = time_after(platforms, airways, air)?;
        }
    }
    unreachable!()
}

/// The least true time, in microseconds, at which something can happen; there is one.
pub fn time_after(platforms: &[Platform], airways: &[Airway], air: &Air) -> Result<u64, Memory>
    requires some { ((time : ℕ) → IsMoment air.now platforms.now airways.now time → ⊥) → ⊥ }
    ensures { IfOk result (λ time. IsLeastNumber (IsMoment air.now platforms.now airways.now)
        (Some time)) }
{
    match next_time(platforms, airways, air)? {
        None => unreachable!(),
        Some(time) => Ok(time),
    }
}
