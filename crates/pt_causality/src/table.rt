//! All rows of the table.

ghost use Rattle.std.specs.Prelude.{◌≡◌, ◌<◌, ◌≤◌, ℕ, IfOk, length};
ghost use Rattle.pt_causality.specs.Arcs.{AreFit, HasLeastDelays, IsSmallRow};
ghost use Rattle.pt_causality.specs.Cells.{delay_row_at};

use crate::arcs::Leaving;
use crate::row::DelayRow;
use crate::shortest::row_from;
use std::alloc::{AllocError, Global};

/// The least delays from each place to each other.
pub fn all_rows(alloc: Global, arcs: &[Leaving]) -> Result<Vec<DelayRow>, AllocError>
    requires few { length arcs.now ≤ 2048 }
    requires fit { AreFit arcs.now }
    ensures len { IfOk result (λ rows. length rows.items ≡ length arcs.now) }
    ensures rows { IfOk result (λ rows. (s : ℕ) → s < length arcs.now →
        HasLeastDelays arcs.now s (delay_row_at rows.items s)) }
    ensures small { IfOk result (λ rows. (s : ℕ) → IsSmallRow (delay_row_at rows.items s)) }
{
    let mut rows = Vec::new(alloc);
    for start in 0..arcs.len() {
        rows.push(row_from(alloc, arcs, start as u32)?)?;
    }
    Ok(rows)
}
