//! From which reading on an entered row may be claimed.

ghost use Rattle.std.specs.Prelude.{◌≡◌, ◌≤◌};
ghost use Rattle.pt_types.specs.declared.graph.Graph.{Graph};
ghost use Rattle.pt_types.specs.declared.rows.RowAt.{RowAt as Entered};
ghost use Rattle.pt_semantics.specs.Lists.{IsIn};
ghost use Rattle.pt_offsets.specs.Plans.{AreOffsets};
ghost use Rattle.pt_turn.specs.Enters.{IsNotDueBefore};

use pt_offsets::Offsets;
use pt_tags::Reading;
use pt_types::RowAt;

/// The lesser of `so_far` and the first reading past a row's time and its sensor's bound; 0 if the actor has no bound. All are
/// microseconds.
fn sooner_due(offsets: &Offsets, row: RowAt, so_far: u64) -> u64
    ensures no_later { result ≤ so_far }
    ensures due { (g : Graph) → AreOffsets g offsets.now → IsNotDueBefore g result row }
{
    match offsets.bound(row.sensor) {
        None => 0,
        Some(bound) => so_far.min(row.row.time.saturating_add(bound).saturating_add(1)),
    }
}

/// The least of `so_far` and the readings from which on these rows are due at their sensors. All are microseconds.
#[inline(never)]
fn due_from(offsets: &Offsets, rows: &[RowAt], so_far: u64) -> u64
    ensures no_later { result ≤ so_far }
    ensures due { (g : Graph) → AreOffsets g offsets.now → (row : Entered) → IsIn row rows.now →
        IsNotDueBefore g result row }
{
    let mut least = so_far;
    for row in rows {
        least = sooner_due(offsets, *row, least);
    }
    least
}

/// A reading before which no unit is safe after these rows entered, if none was safe before `before`; 0 if that isn't past the
/// reading of the turn, since it says nothing of later turns. All are microseconds.
#[inline(always)]
pub fn none_safe_with(offsets: &Offsets, rows: &[RowAt], before: u64, reading: Reading) -> u64
    ensures no_later { result ≤ before }
    ensures due { (g : Graph) → AreOffsets g offsets.now → (row : Entered) → IsIn row rows.now →
        IsNotDueBefore g result row }
{
    if before <= reading {
        return 0;
    }
    due_from(offsets, rows, before)
}
