//! Visits, one after another.

ghost use Rattle.std.specs.Prelude.{◌≡◌, ◌≤◌, ℕ, List, IfOk};
ghost use Rattle.pt_io.specs.Clocks.{ClockView, viewed};
ghost use Rattle.pt_types.specs.declared.rows.Row.{Row};
ghost use Rattle.pt_offsets.specs.Plans.{Parts};
ghost use Rattle.pt_fixed_order.specs.Outcome.{IsOutcome};
ghost use Rattle.pt_engine.specs.Asked.{result_lists};
ghost use Rattle.pt_fixed_order.specs.Between.{BeforeVisit};

use crate::asking::{after, fault_of, rest};
use crate::visiting::visit_at;
use pt_actors::Done;
use pt_blocks::Blocks;
use pt_engine::{Rests, are_finished};
use pt_io::Clock;
use pt_links::Pipe;
use pt_tags::Memory;
use pt_turn::{Platform, TurnFault};
use pt_visits::Desk;
use std::sync::Wait;

/// Visits platform after platform, beginning with the first, until one has a fault or all are finished; returns the fault with
/// the number of its platform.
pub fn go_on<C: Clock, R: Wait>(
    rt: &R,
    platforms: &mut [Platform],
    clocks: &mut [C],
    pipes: &mut [Pipe],
    results: &mut [Vec<Done>],
    desk: &mut Desk,
    blocks: &Blocks,
    most: usize,
) -> Result<Option<(u32, TurnFault)>, Memory>
    requires most { (1 ≤ most) × (most ≤ 64) }
    requires begun { (plan : Parts) × (rows : ℕ → List Row) × (began : List ClockView)
        × BeforeVisit plan rows most 0 began
        (viewed C.readings C.ahead clocks.old) platforms.old pipes.old (result_lists results.old) }
    ensures outcome { IfOk result (λ fault.
        (plan : Parts) (rows : ℕ → List Row) (began : List ClockView) →
        BeforeVisit plan rows most 0 began
        (viewed C.readings C.ahead clocks.old) platforms.old pipes.old (result_lists results.old) →
        IsOutcome plan rows most began (viewed C.readings C.ahead clocks.new) platforms.new fault) }
{
    let mut number = 0;
    let mut rests = Rests::new();
    for _ in rt.forever() {
        visit_at(
            platforms, clocks, pipes, results, desk, blocks, most, number,
        )?;
        if let Some(fault) = fault_of(platforms, number) {
            return Ok(Some(fault));
        }
        if are_finished(platforms) {
            return Ok(None);
        }
        number = after(platforms.len(), number);
        rest(platforms, pipes, clocks, &mut rests, number);
    }
    unreachable!()
}
