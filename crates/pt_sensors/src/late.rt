//! Rows that are seen past their sensor's bound.

ghost use Rattle.std.specs.Prelude.{◌≡◌, ◌^◌, ◌<◌, length, position};
ghost use Rattle.pt_sensors.specs.Late.{is_late_row, late_row};
ghost use Rattle.pt_types.specs.declared.rows.Row.{Row};

use pt_tags::Time;
use pt_types::Row;

/// The number, from 1, of the first row with a time up to `until` that is seen more than `bound` microseconds
/// after its time. A row of time 50 with bound 10 is late if it is seen at 61, and not if it is seen at 60.
///
/// That the rows of a sensor are seen within a stated bound is this project's own rule.
pub fn first_late(rows: &[Row], bound: u64, until: Time) -> Option<u32>
    requires { length rows.now < 2 ^ 32 }
    ensures { result ≡ late_row bound until rows.now }
{
    match late_index(rows, bound, until) {
        Some(index) => Some(index as u32 + 1),
        None => None,
    }
}

/// The index of the first late row, from 0.
fn late_index(rows: &[Row], bound: u64, until: Time) -> Option<usize>
    ensures { result ≡ position (λ (row : Row). is_late_row bound until row) rows.now }
{
    rows.iter().position(|row| is_late(row, bound, until))
}

/// Whether a row of the run is seen past its sensor's bound.
fn is_late(row: &Row, bound: u64, until: Time) -> bool
    ensures { result ≡ is_late_row bound until row.now }
{
    row.time <= until && u128::from(row.seen) > u128::from(row.time) + u128::from(bound)
}
