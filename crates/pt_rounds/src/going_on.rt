//! Rounds, until the platforms are finished.

ghost use Rattle.std.specs.Prelude.{◌≡◌, IfOk, ℕ, List};
ghost use Rattle.pt_types.specs.declared.rows.Row.{Row};
ghost use Rattle.pt_causality.specs.Ranked.{level_of};
ghost use Rattle.pt_offsets.specs.Plans.{Parts};
ghost use Rattle.pt_rounds.specs.Outcome.{IsOutcome};
ghost use Rattle.pt_engine.specs.Asked.{result_lists};
ghost use Rattle.pt_rounds.specs.Passing.{IsBeforeRound};

use crate::asking::{fault_of, next_reading};
use crate::passing::pass;
use pt_actors::Done;
use pt_blocks::Blocks;
use pt_engine::are_finished;
use pt_links::Pipe;
use pt_tags::Memory;
use pt_turn::{Platform, TurnFault};
use pt_visits::Desk;

/// No paced run has this many rounds: of three in a row at least one changes a platform, and 16 platforms, with at most one
/// row for each microsecond up to 10^15 from each of 1,024 sensors, change fewer than 2 * 10^19 times.
const MOST_ROUNDS: u128 = 1_000_000_000_000_000_000_000;

/// Runs rounds, the first at reading `begins`, until all platforms are finished or one has a fault after a round; returns the
/// first fault, with the number of its platform.
pub fn go_on(
    platforms: &mut [Platform],
    pipes: &mut [Pipe],
    results: &mut [Vec<Done>],
    desk: &mut Desk,
    blocks: &Blocks,
    begins: u64,
) -> Result<Option<(u32, TurnFault)>, Memory>
    requires begun { (plan : Parts) × (rows : ℕ → List Row)
        × IsBeforeRound plan rows 0 begins platforms.old pipes.old (result_lists results.old) }
    ensures outcome { IfOk result (λ fault. (plan : Parts) (rows : ℕ → List Row) →
        IsBeforeRound plan rows 0 begins platforms.old pipes.old (result_lists results.old) →
        IsOutcome plan (level_of plan.ranks) rows platforms.new fault) }
{
    let mut reading = begins;
    let mut under_way = true;
    for _round in 0..MOST_ROUNDS {
        let mut faulty = false;
        let quiet = pass(
            platforms,
            pipes,
            results,
            desk,
            blocks,
            reading,
            &mut under_way,
            &mut faulty,
        )?;
        if let Some(fault) = fault_of(platforms, faulty) {
            return Ok(Some(fault));
        }
        if are_finished(platforms) {
            return Ok(None);
        }
        if quiet {
            reading = next_reading(platforms);
        }
    }
    unreachable!()
}
