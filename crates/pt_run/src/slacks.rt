//! The command `slacks`.

ghost use Rattle.std.specs.Prelude.{[], string_bytes};
ghost use Rattle.pt_types.specs.Lawful.{IsLawful};
ghost use Rattle.pt_io.specs.Calls.{Contents, SourceCall};
ghost use Rattle.pt_words.specs.declared.orders.Command.TheVariants.{Slacks};
ghost use Rattle.pt_run.specs.Due.{AnswersAsDue, IsDueFor, IsSlackedBy};

use crate::fault::{Fault, fault_of_cycle, fault_of_slacks};
use pt_causality::{least_delays, ranks_of};
use pt_slacks::{slacks, slacks_text};
use pt_types::Graph;
use std::alloc::Global;

/// The text that `slacks` writes: the least slacks of a graph's senders, and the slacks that its actuators then need. The
/// slacks in the graph are not used.
pub fn slacks_answer(alloc: Global, graph: &Graph) -> Result<String, Fault>
    requires { IsLawful graph.now }
    ensures { (contents : Contents) (r : SourceCall) →
        AnswersAsDue string_bytes result r (IsDueFor Slacks contents graph.now []) }
{
    match ranks_of(alloc, graph) {
        Ok(_ranks) => least_text(alloc, graph),
        Err(fault) => Err(fault_of_cycle(fault)),
    }
}

/// The least slacks of a graph without a cycle that takes no time.
fn least_text(alloc: Global, graph: &Graph) -> Result<String, Fault>
    requires { IsLawful graph.now }
    ensures { (r : SourceCall) → AnswersAsDue string_bytes result r (IsSlackedBy graph.now) }
{
    let least = least_delays(alloc, graph)?;
    let slacks = match slacks(alloc, graph, &least) {
        Ok(slacks) => slacks,
        Err(fault) => return Err(fault_of_slacks(fault)),
    };
    let text = slacks_text(alloc, graph, slacks.as_slice())?;
    Ok(text)
}
