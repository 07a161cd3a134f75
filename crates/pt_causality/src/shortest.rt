//! The least delays from one unit, by Dijkstra's search.

ghost use Rattle.std.specs.Prelude.{◌≡◌, ◌<◌, ◌≤◌, ◌^◌, ◌++◌, ◌∷◌, [], IfOk, OnOk, filter, length, map};
ghost use Rattle.std.specs.List.Sorted.{IsPermutation};
ghost use Rattle.pt_semantics.specs.Lists.{IsIn};
ghost use Rattle.pt_causality.specs.declared.arcs.Arc.{Arc};
ghost use Rattle.pt_causality.specs.Arcs.{AreFit, HasLeastDelays, IsSmallRow};
ghost use Rattle.pt_causality.specs.Waits.{is_open, reached};

use crate::arcs::{Arc, Leaving};
use crate::frontier::{FoundUnit, Frontier};
use crate::row::DelayRow;
use pt_tags::Delay;
use std::alloc::{AllocError, Global};

/// Makes all units pending to which arcs lead from a place at delay `at`, except those that are settled.
fn reach(frontier: &mut Frontier, row: &DelayRow, at: Delay, arcs: &[Arc]) -> Result<(), AllocError>
    requires small { (at.time < 2 ^ 62) × (at.step < 2 ^ 62) }
    requires fit { (a : Arc) → IsIn a arcs.now → (a.weight.time ≤ 1000000000000000)
        × (a.weight.step ≤ 1) }
    ensures { OnOk result (IsPermutation
        (map (reached at) (filter (is_open row.now) arcs.now) ++ frontier.old) frontier.new) }
{
    for arc in arcs {
        let is_open = row.get(arc.to as usize).is_none();
        if is_open {
            let time = at.time + arc.weight.time;
            let step = at.step + arc.weight.step;
            frontier.push(FoundUnit {
                at: Delay { time, step },
                unit: arc.to,
            })?;
        }
    }
    Ok(())
}

/// The least delays from place `start` to each place.
pub fn row_from(alloc: Global, arcs: &[Leaving], start: u32) -> Result<DelayRow, AllocError>
    requires start { start < length arcs.now }
    requires few { length arcs.now ≤ 2048 }
    requires fit { AreFit arcs.now }
    ensures row { IfOk result (HasLeastDelays arcs.now start) }
    ensures small { IfOk result IsSmallRow }
{
    let mut row = DelayRow::new(alloc, arcs.len())?;
    let mut frontier = Frontier::new(alloc);
    frontier.push(FoundUnit {
        at: Delay { time: 0, step: 0 },
        unit: start,
    })?;
    while let Some(next) = frontier.pop() {
        let place = next.unit as usize;
        if row.get(place).is_none() {
            row.set(place, next.at);
            reach(&mut frontier, &row, next.at, arcs[place].as_slice())?;
        }
    }
    Ok(row)
}
