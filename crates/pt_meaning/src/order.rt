//! The order in which the actors of one tag fire.

ghost use Rattle.std.specs.Prelude.{◌≡◌, IfOk, OnOk, slice_index_or};
ghost use Rattle.std.specs.List.Sorted.{IsSortedByKey};
ghost use Rattle.pt_meaning.specs.Current.{own_standing, standing_cmp, StandingsRise};

use crate::moments::number;
use pt_tags::Memory;
use std::alloc::Global;

/// An actor and its rank: actors of one tag fire by rank, then number.
#[derive(Clone, Copy, Debug, PartialEq, Eq, PartialOrd, Ord)]
pub struct Standing {
    pub rank: u32,
    pub actor: u32,
}

/// Sorts actors into the order in which they fire.
fn sort_standings(order: &mut Vec<Standing>) -> Result<(), Memory>
    ensures { OnOk result (IsSortedByKey own_standing standing_cmp order.new.items) }
{
    order.sort_by_key(|standing| *standing)?;
    Ok(())
}

/// The actors with these ranks, in the order in which they fire.
pub fn firing_order(alloc: Global, ranks: &[u32]) -> Result<Vec<Standing>, Memory>
    ensures { IfOk result (λ order. StandingsRise order.items) }
{
    let mut order = Vec::new(alloc);
    for (actor, rank) in ranks.iter().enumerate() {
        order.push(Standing {
            rank: *rank,
            actor: number(actor)?,
        })?;
    }
    sort_standings(&mut order)?;
    Ok(order)
}

/// The position of each actor in an order, by its number. Who uses one looks at the actor there, so no clause says which it is.
pub fn positions_in(alloc: Global, order: &[Standing]) -> Result<Vec<u32>, Memory> {
    let mut positions = vec![in alloc; 0u32; order.len()]?;
    for (position, standing) in order.iter().enumerate() {
        if (standing.actor as usize) < positions.len() {
            positions[standing.actor as usize] = number(position)?;
        }
    }
    Ok(positions)
}

/// The position of an actor; `none` if there is none.
#[inline(always)]
pub(crate) fn position_of(positions: &[u32], actor: u32, none: usize) -> usize
    ensures { result ≡ slice_index_or positions.now actor none }
{
    match positions.get(actor as usize) {
        Some(position) => *position as usize,
        None => none,
    }
}
