//! The lines that report faults of sensor files and late rows.

ghost use Rattle.std.specs.Prelude.{◌≡◌, ◌++◌, string_bytes, OnOk};
ghost use Rattle.pt_sensors.specs.Lines.{sensor_fault_line, row_fault_text, late_line};

use crate::fault::RowFault;
use pt_tags::Reading;
use std::alloc::AllocError;
use std::error::Error;
use std::fmt;

impl fmt::Display for RowFault {
    ghost use Rattle.std.specs.Prelude.{Some};
    ghost use Rattle.pt_sensors.specs.Lines.{row_fault_text};

    ghost output = { λ e. Some (row_fault_text e) };

    fn fmt<W: fmt::Write>(&self, f: &mut fmt::Formatter<W>) -> fmt::Result {
        match *self {
            RowFault::Memory => write!(f, "memory"),
            RowFault::TooLong => write!(f, "too long"),
            RowFault::Header => write!(f, "header"),
            RowFault::Fields(row) => write!(f, "fields at row {row}"),
            RowFault::Number(row) => write!(f, "number at row {row}"),
            RowFault::TimeOrder(row) => write!(f, "time order at row {row}"),
            RowFault::SeenOrder(row) => write!(f, "seen order at row {row}"),
            RowFault::SeenEarly(row) => write!(f, "seen early at row {row}"),
            RowFault::TooManyRows => write!(f, "too many rows"),
        }
    }
}

impl Error for RowFault {}

/// Appends the line for a fault of a sensor's file, as `sensor s: time order at row 2`.
pub fn fault_line(text: &mut String, name: &str, fault: &RowFault) -> Result<(), AllocError>
    ensures { OnOk result (string_bytes text.new
        ≡ string_bytes text.old ++ sensor_fault_line name.now fault.now) }
{
    write!(text, "sensor {name}: {fault}\n")
}

/// Appends the line for a late row, as `late s row 1, seen 61 past 60`. Times are in microseconds.
pub fn late_line(
    text: &mut String,
    name: &str,
    row: u32,
    seen: Reading,
    limit: u64,
) -> Result<(), AllocError>
    ensures { OnOk result (string_bytes text.new
        ≡ string_bytes text.old ++ late_line name.now row seen limit) }
{
    write!(text, "late {name} row {row}, seen {seen} past {limit}\n")
}
