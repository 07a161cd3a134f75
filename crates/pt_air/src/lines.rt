//! The lines that report faults of air files.

ghost use Rattle.std.specs.Prelude.{◌≡◌, ◌++◌, string_bytes, OnOk};
ghost use Rattle.pt_air.specs.Lines.{air_fault_line, air_fault_text};

use crate::fault::AirFault;
use std::alloc::AllocError;
use std::error::Error;
use std::fmt;

impl fmt::Display for AirFault {
    ghost use Rattle.std.specs.Prelude.{Some};
    ghost use Rattle.pt_air.specs.Lines.{air_fault_text};

    ghost output = { λ e. Some (air_fault_text e) };

    fn fmt<W: fmt::Write>(&self, f: &mut fmt::Formatter<W>) -> fmt::Result {
        match *self {
            AirFault::Memory => write!(f, "memory"),
            AirFault::TooLong => write!(f, "too long"),
            AirFault::Header => write!(f, "header"),
            AirFault::Form(row) => write!(f, "form at row {row}"),
            AirFault::Unknown(row) => write!(f, "unknown at row {row}"),
            AirFault::Number(row) => write!(f, "number at row {row}"),
            AirFault::Repeated(row) => write!(f, "repeated at row {row}"),
            AirFault::TooManyRows => write!(f, "too many rows"),
        }
    }
}

impl Error for AirFault {}

/// Appends the line for a fault of an air file, as `air: unknown at row 3`.
pub fn fault_line(text: &mut String, fault: &AirFault) -> Result<(), AllocError>
    ensures { OnOk result (string_bytes text.new
        ≡ string_bytes text.old ++ air_fault_line fault.now) }
{
    write!(text, "air: {fault}\n")
}
