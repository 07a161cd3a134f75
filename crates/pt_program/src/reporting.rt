//! The line of a file of formulas that is refused.

ghost use Rattle.std.specs.Prelude.{◌≡◌, ◌⊎◌};
ghost use Rattle.pt_formula_file.specs.Lines.{fault_line, status_of};
ghost use Rattle.pt_io.specs.Calls.{writing};
ghost use Rattle.pt_run.specs.Reporting.{IsPut};

use crate::program::NO_MEMORY;
use pt_formula_file::{FormulaFault, status_of};
use pt_io::Sink;
use std::alloc::Global;

/// Puts the line of a fault on `notes`, and returns its status, or 9 if there is no memory for the line. A failed put has no other effect.
pub fn report<E: Sink>(alloc: Global, notes: &mut E, fault: &FormulaFault) -> u8
    ensures { (result ≡ 9) ⊎ ((result ≡ status_of fault.now)
        × IsPut (fault_line fault.now) (writing E.Sink notes.old notes.new)) }
{
    match format!(in alloc; "{fault}") {
        Ok(line) => {
            let _ = notes.put(line.as_str().as_bytes());
            status_of(fault)
        }
        Err(_) => no_memory(notes),
    }
}

/// Puts the line for a call without memory on `notes`, and returns its status. This needs no memory.
pub fn no_memory<E: Sink>(notes: &mut E) -> u8
    ensures { result ≡ 9 }
{
    let _ = notes.put(b"memory\n");
    NO_MEMORY
}
