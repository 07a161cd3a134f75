//! The line that reports a fault, put on `notes`.

ghost use Rattle.std.specs.Prelude.{◌≡◌, ◌⊎◌, [], IfOk, None, Some, option_map, string_bytes};
ghost use Rattle.pt_io.specs.Calls.{writing};
ghost use Rattle.pt_run.specs.declared.fault.Fault.TheVariants.{Memory, Write};
ghost use Rattle.pt_run.specs.Notes.{note_line};
ghost use Rattle.pt_run.specs.Reporting.{Reports};

use crate::fault::Fault;
use crate::fault_line::FaultLine;
use pt_io::Sink;
use pt_types::Graph;
use std::alloc::{AllocError, Global};

/// Puts the line of a fault on `notes`, and returns the fault; if there is no memory for the line, that becomes the fault.
/// A failed put has no other effect.
pub fn report<E: Sink>(alloc: Global, notes: &mut E, fault: Fault, graph: Option<&Graph>) -> Fault
    ensures fault { (result ≡ fault) ⊎ (result ≡ Memory) }
    ensures reported { Reports (Some result) [] (option_map (λ g. g.now) graph.entry)
        (writing E.Sink notes.old notes.new) }
{
    match line_of(alloc, &fault, graph) {
        Ok(line) => {
            let _ = notes.put(line.as_str().as_bytes());
            fault
        }
        Err(_) => {
            let _ = notes.put(b"memory\n");
            Fault::Memory
        }
    }
}

/// Puts the line for an output that could not be written. This needs no memory.
pub fn report_write<E: Sink>(notes: &mut E)
    ensures { Reports (Some Write) [] None
        (writing E.Sink notes.old notes.new) }
{
    let _ = notes.put(b"write fault\n");
}

/// The line of a fault.
fn line_of(alloc: Global, fault: &Fault, graph: Option<&Graph>) -> Result<String, AllocError>
    ensures { IfOk result
        (λ line. string_bytes line ≡ note_line fault.now (option_map (λ g. g.now) graph.entry)) }
{
    let line = FaultLine { fault, graph };
    format!(in alloc; "{line}")
}
