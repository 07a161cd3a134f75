//! One round.

ghost use Rattle.std.specs.Prelude.{◌≡◌, IfOk, OnOk, ℕ, List, None, false, length, true};
ghost use Rattle.std.specs.List.{list_all};
ghost use Rattle.pt_types.specs.declared.rows.Row.{Row};
ghost use Rattle.pt_offsets.specs.Plans.{Parts};
ghost use Rattle.pt_turn.specs.Posts.Posted.{AreDone};
ghost use Rattle.pt_semantics.specs.Turn.{is_empty};
ghost use Rattle.pt_turn.specs.Platforms.{level_at, state_at};
ghost use Rattle.pt_turn.specs.Turned.{MayCome};
ghost use Rattle.pt_visits.specs.Pipes.{arriving};
ghost use Rattle.pt_engine.specs.Asked.{HaveNoFault, result_lists};
ghost use Rattle.pt_rounds.specs.Passing.{HavePassed, IsBeforeRound, WasVisitedInRound};

use pt_actors::Done;
use pt_blocks::Blocks;
use pt_engine::{CLAIMS_A_TURN, was_quiet};
use pt_links::Pipe;
use pt_tags::{Memory, Reading};
use pt_turn::Platform;
use pt_visits::{Desk, visit_knowing};

/// Visits a platform, and returns whether only its reading changed. Unless a message may be `under_way`, all links are empty.
fn visit_one(
    platform: &mut Platform,
    pipes: &mut [Pipe],
    results: &mut Vec<Done>,
    desk: &mut Desk,
    blocks: &Blocks,
    reading: Reading,
    under_way: &mut bool,
) -> Result<bool, Memory>
    requires no_fault { platform.old.fault ≡ None }
    requires links { length pipes.old ≡ length platform.old.plan.graph.links }
    requires done { AreDone platform.old.plan.graph results.old.items }
    requires taken { MayCome platform.old.plan.graph (level_at platform.old) platform.old.number
        (state_at platform.old)
        (arriving platform.old.plan.graph platform.old.number 0 pipes.old) }
    requires none { under_way.old ≡ false → list_all is_empty pipes.old ≡ true }
    ensures visited { IfOk result (λ still.
        WasVisitedInRound reading results.old.items results.new.items platform.old platform.new
        pipes.old pipes.new still) }
    ensures none { OnOk result (under_way.new ≡ false → list_all is_empty pipes.new ≡ true) }
{
    let closed = platform.closed();
    visit_knowing(
        platform,
        pipes,
        results,
        desk,
        blocks,
        reading,
        CLAIMS_A_TURN,
        under_way,
    )?;
    Ok(platform.closed() == closed && was_quiet(platform))
}

/// Whether a platform has a fault, or another one had.
#[inline(always)]
fn or_faulty(faulty: bool, platform: &Platform) -> bool
    ensures { result ≡ false → (faulty ≡ false) × (platform.now.fault ≡ None) }
{
    faulty || platform.fault().is_some()
}

/// A round at a common reading, in microseconds: visits each platform that is not finished, in order. Returns whether the
/// round was quiet. Unless a message may be `under_way`, all links are empty. Unless one is `faulty`, no platform has a fault.
pub fn pass(
    platforms: &mut [Platform],
    pipes: &mut [Pipe],
    results: &mut [Vec<Done>],
    desk: &mut Desk,
    blocks: &Blocks,
    reading: Reading,
    under_way: &mut bool,
    faulty: &mut bool,
) -> Result<bool, Memory>
    requires begun { (plan : Parts) × (rows : ℕ → List Row) × (count : ℕ)
        × IsBeforeRound plan rows count reading platforms.old pipes.old (result_lists results.old) }
    requires none { under_way.old ≡ false → list_all is_empty pipes.old ≡ true }
    ensures passed { IfOk result (λ quiet.
        (plan : Parts) (rows : ℕ → List Row) (count : ℕ)
        (s : IsBeforeRound plan rows count reading platforms.old pipes.old
        (result_lists results.old)) →
        HavePassed plan rows reading s.together (length platforms.old) platforms.new pipes.new
        (result_lists results.new) quiet) }
    ensures none { OnOk result (under_way.new ≡ false → list_all is_empty pipes.new ≡ true) }
    ensures faults { OnOk result (faulty.new ≡ false → HaveNoFault platforms.new) }
{
    let mut quiet = true;
    for i in 0..platforms.len() {
        if platforms[i].finished() {
            continue;
        }
        let still = visit_one(
            &mut platforms[i],
            pipes,
            &mut results[i],
            desk,
            blocks,
            reading,
            under_way,
        )?;
        *faulty = or_faulty(*faulty, &platforms[i]);
        quiet = quiet && still;
    }
    Ok(quiet)
}
