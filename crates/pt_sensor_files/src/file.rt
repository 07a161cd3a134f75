//! The rows of one sensor's file, and whether one of them is late.

ghost use Rattle.std.specs.Prelude.{◌≡◌, ◌<◌, ◌≤◌, ◌+◌, ◌^◌, [], ◌∷◌, Ok, None, IfOk, IfErr, IfNone, IfSome, OnOk, length};
ghost use Rattle.pt_io.specs.Calls.{reading};
ghost use Rattle.pt_sensors.specs.Late.{late_row};
ghost use Rattle.pt_sensors.specs.Order.{RowsAreInOrder};
ghost use Rattle.pt_sensors.specs.RowsOf.{rows_of};
ghost use Rattle.pt_sensor_files.specs.declared.recorded_fault.LateRows.TheVariants.{Refused};
ghost use Rattle.pt_sensor_files.specs.Asked.{Asks, AsksBy};
ghost use Rattle.pt_sensor_files.specs.Bytes.{OfBytes};
ghost use Rattle.pt_sensor_files.specs.Counts.{LeavesCount};
ghost use Rattle.pt_sensor_files.specs.Files.{CauseOfFile, IsLateFault};

use crate::recorded_fault::{LateRows, RecordedFault, fault_of_rows};
use pt_io::{FetchFault, Source};
use pt_sensors::{FileLimits, first_late, read_rows};
use pt_tags::{List, Time};
use pt_types::Row;
use std::alloc::Global;

/// The rows of a sensor from its file, within these limits.
pub fn rows_of_file<S: Source>(
    alloc: Global,
    source: &mut S,
    limits: FileLimits,
    actor: u32,
    name: &str,
) -> Result<List<Row>, RecordedFault>
    ensures rows { IfOk result (λ rows.
        OfBytes (S.contents source.old name.now) (λ bytes. rows_of limits bytes ≡ Ok rows)) }
    ensures order { IfOk result (RowsAreInOrder limits) }
    ensures fault { IfErr result (λ f. CauseOfFile limits actor f (S.contents source.old)
        name.now (reading S.Source source.old source.new)) }
    ensures keeps { S.contents source.new ≡ S.contents source.old }
    ensures grows { S.faults source.old ≤ S.faults source.new }
    ensures quiet { OnOk result (S.faults source.new ≡ S.faults source.old) }
    ensures counted { IfErr result (λ f.
        LeavesCount f (S.faults source.old) (S.faults source.new)) }
    ensures asks { IfOk result (λ rows.
        Asks (S.asked source.old) (S.asked source.new) (name.now ∷ [])) }
    ensures asks_by { IfErr result (λ f.
        AsksBy f (S.asked source.old) (S.asked source.new) (name.now ∷ [])) }
{
    let bytes = match source.fetch(alloc, name, limits.bytes) {
        Ok(bytes) => bytes,
        Err(FetchFault::Failed) => return Err(RecordedFault::Read { sensor: actor }),
        Err(FetchFault::Memory) => return Err(RecordedFault::Memory),
    };
    match read_rows(alloc, limits, bytes.as_slice()) {
        Ok(rows) => Ok(rows),
        Err(fault) => Err(fault_of_rows(actor, fault)),
    }
}

/// The fault for the first late row: its time is at most `until`, and it is seen more than `bound` after its time.
fn late_fault(actor: u32, rows: &[Row], bound: u64, until: Time) -> Option<RecordedFault>
    requires { length rows.now < 2 ^ 32 }
    ensures none { IfNone result (late_row bound until rows.now ≡ None) }
    ensures some { IfSome result (λ f. IsLateFault f actor rows.now bound until) }
{
    let number = first_late(rows, bound, until)?;
    let row = rows[number as usize - 1];
    Some(RecordedFault::Late {
        actor,
        row: number,
        seen: row.seen,
        limit: limit(row, bound),
    })
}

/// The reading by which a late row should have been seen.
fn limit(row: Row, bound: u64) -> u64
    requires { row.time + bound < row.seen }
    ensures { result ≡ row.time + bound }
{
    row.time + bound
}

/// Checks the rows of a sensor: if late rows are refused, none of them may be late.
pub fn judged(
    late: LateRows,
    actor: u32,
    rows: &[Row],
    bound: u64,
    until: Time,
) -> Result<(), RecordedFault>
    requires { length rows.now < 2 ^ 32 }
    ensures passes { OnOk result (late ≡ Refused → late_row bound until rows.now ≡ None) }
    ensures fault { IfErr result (λ f. (late ≡ Refused)
        × IsLateFault f actor rows.now bound until) }
{
    match late {
        LateRows::Taken => Ok(()),
        LateRows::Refused => match late_fault(actor, rows, bound, until) {
            Some(fault) => Err(fault),
            None => Ok(()),
        },
    }
}
