//! The command `check`.

ghost use Rattle.std.specs.Prelude.{[], string_bytes};
ghost use Rattle.pt_types.specs.Lawful.{IsLawful};
ghost use Rattle.pt_io.specs.Calls.{Contents, SourceCall};
ghost use Rattle.pt_words.specs.declared.orders.Command.TheVariants.{Check};
ghost use Rattle.pt_run.specs.Due.{AfterOffsets, AnswersAsDue, IsDueFor, OnlyPuts};
ghost use Rattle.pt_run.specs.Written.{IsChecked};

use crate::fault::{Fault, fault_of_cycle, fault_of_offset};
use pt_causality::{least_delays, ranks_of};
use pt_offsets::offsets;
use pt_tables::margins;
use pt_types::Graph;
use std::alloc::Global;

/// The text that `check` writes: the offset and the margin of each actor of a graph.
pub fn check_answer(alloc: Global, graph: &Graph) -> Result<String, Fault>
    requires { IsLawful graph.now }
    ensures { (contents : Contents) (r : SourceCall) →
        AnswersAsDue string_bytes result r (IsDueFor Check contents graph.now []) }
{
    match ranks_of(alloc, graph) {
        Ok(_ranks) => check_text(alloc, graph),
        Err(fault) => Err(fault_of_cycle(fault)),
    }
}

/// The offset and the margin of each actor of a graph without a cycle that takes no time.
fn check_text(alloc: Global, graph: &Graph) -> Result<String, Fault>
    requires { IsLawful graph.now }
    ensures { (r : SourceCall) →
        AnswersAsDue string_bytes result r
        (λ a. AfterOffsets graph.now a (OnlyPuts a (IsChecked graph.now))) }
{
    let least = least_delays(alloc, graph)?;
    let offsets = match offsets(alloc, graph, &least) {
        Ok(offsets) => offsets,
        Err(fault) => return Err(fault_of_offset(fault)),
    };
    let text = margins(alloc, graph, &offsets)?;
    Ok(text)
}
