//! One visit.

ghost use Rattle.std.specs.Prelude.{◌≡◌, ◌<◌, ◌≤◌, ℕ, List, OnOk, length};
ghost use Rattle.pt_io.specs.Clocks.{ClockView, viewed};
ghost use Rattle.pt_types.specs.declared.rows.Row.{Row};
ghost use Rattle.pt_offsets.specs.Plans.{Parts};
ghost use Rattle.pt_engine.specs.Asked.{result_lists};
ghost use Rattle.pt_fixed_order.specs.Between.{BeforeVisit, AfterVisit};

use pt_actors::Done;
use pt_blocks::Blocks;
use pt_io::Clock;
use pt_links::Pipe;
use pt_tags::Memory;
use pt_turn::Platform;
use pt_visits::{Desk, visit};

/// Visits a platform at the next reading of its clock.
pub fn visit_at<C: Clock>(
    platforms: &mut [Platform],
    clocks: &mut [C],
    pipes: &mut [Pipe],
    results: &mut [Vec<Done>],
    desk: &mut Desk,
    blocks: &Blocks,
    most: usize,
    number: usize,
) -> Result<(), Memory>
    requires most { (1 ≤ most) × (most ≤ 64) }
    requires within { (number < length platforms.old) × (number < length clocks.old)
        × (number < length results.old) }
    requires begun { (plan : Parts) × (rows : ℕ → List Row) × (began : List ClockView)
        × BeforeVisit plan rows most number began
        (viewed C.readings C.ahead clocks.old) platforms.old pipes.old (result_lists results.old) }
    ensures visited { OnOk result ((plan : Parts) (rows : ℕ → List Row) (began : List ClockView) →
        BeforeVisit plan rows most number began
        (viewed C.readings C.ahead clocks.old) platforms.old pipes.old (result_lists results.old) →
        AfterVisit plan rows most number began
        (viewed C.readings C.ahead clocks.new) platforms.new pipes.new (result_lists results.new)) }
{
    let reading = clocks[number].read();
    visit(
        &mut platforms[number],
        pipes,
        &mut results[number],
        desk,
        blocks,
        reading,
        most,
    )
}
