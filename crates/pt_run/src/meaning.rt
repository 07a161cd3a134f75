//! The command `meaning`.

ghost use Rattle.std.specs.Prelude.{◌≡◌, ◌*◌, [], length, string_bytes};
ghost use Rattle.pt_io.specs.Calls.{SourceCall, reading};
ghost use Rattle.pt_types.specs.Lawful.{IsLawful};
ghost use Rattle.pt_semantics.specs.Lists.{Each};
ghost use Rattle.pt_semantics.specs.Ranks.{AreRanks};
ghost use Rattle.pt_sensors.specs.Listed.{rows_for, IsOfActors};
ghost use Rattle.pt_causality.specs.Ranked.{rank_of};
ghost use Rattle.pt_sensor_files.specs.declared.recorded_fault.LateRows.TheVariants.{Taken};
ghost use Rattle.pt_words.specs.declared.orders.Command.TheVariants.{Meaning};
ghost use Rattle.pt_run.specs.Asks.{AsksOver};
ghost use Rattle.pt_run.specs.Due.{AfterRows, AnswersAsDue, IsDueFor, IsMeantBy};
ghost use Rattle.pt_run.specs.Texts.{fault_in};
ghost use Rattle.pt_run.specs.Counts.{LeavesReads};

use crate::fault::{Fault, fault_of_cycle, fault_of_rows};
use pt_causality::{Ranks, ranks_of};
use pt_io::Source;
use pt_meaning::MeaningFault;
use pt_sensor_files::{LateRows, recorded};
use pt_sensors::SensorRows;
use pt_tables::tables_of_meaning;
use pt_types::Graph;
use std::alloc::Global;

/// The text that `meaning` writes: the tables of the meaning of a graph and the rows of its sensors' files.
pub fn meaning_answer<S: Source>(
    alloc: Global,
    source: &mut S,
    graph: &Graph,
) -> Result<String, Fault>
    requires { IsLawful graph.now }
    ensures due { AnswersAsDue string_bytes result
        (reading S.Source source.old source.new)
        (IsDueFor Meaning (S.contents source.old) graph.now []) }
    ensures asks { AsksOver (fault_in result) [] graph.now.actors [] (S.asked source.old)
        (S.asked source.new) }
    ensures reads { LeavesReads (fault_in result) (S.faults source.old) (S.faults source.new) }
{
    match ranks_of(alloc, graph) {
        Ok(ranks) => meaning_text(alloc, source, graph, &ranks),
        Err(fault) => Err(fault_of_cycle(fault)),
    }
}

/// The tables of the meaning of a graph without a cycle that takes no time.
fn meaning_text<S: Source>(
    alloc: Global,
    source: &mut S,
    graph: &Graph,
    ranks: &Ranks,
) -> Result<String, Fault>
    requires lawful { IsLawful graph.now }
    requires ranks { AreRanks graph.now (rank_of ranks.now) }
    ensures due { AnswersAsDue string_bytes result
        (reading S.Source source.old source.new)
        (λ a. AfterRows Taken (S.contents source.old) graph.now [] a
        (λ rows. IsMeantBy graph.now rows a)) }
    ensures asks { AsksOver (fault_in result) [] graph.now.actors [] (S.asked source.old)
        (S.asked source.new) }
    ensures reads { LeavesReads (fault_in result) (S.faults source.old) (S.faults source.new) }
{
    let sensors = match recorded(alloc, source, graph, LateRows::Taken) {
        Ok(sensors) => sensors,
        Err(fault) => return Err(fault_of_rows(fault)),
    };
    meaning_tables(alloc, graph, ranks, sensors.as_slice())
}

/// The tables of the meaning of a graph and these rows, if it has no more firings than `most_firings` allows.
fn meaning_tables(
    alloc: Global,
    graph: &Graph,
    ranks: &Ranks,
    sensors: &[SensorRows],
) -> Result<String, Fault>
    requires lawful { IsLawful graph.now }
    requires ranks { AreRanks graph.now (rank_of ranks.now) }
    requires sensors { Each (IsOfActors (length graph.now.actors)) sensors.now }
    ensures { (r : SourceCall) →
        AnswersAsDue string_bytes result r (IsMeantBy graph.now (rows_for sensors.now)) }
{
    match tables_of_meaning(alloc, graph, ranks.ranks(), sensors, most_firings(graph)) {
        Ok(text) => Ok(text),
        Err(MeaningFault::Long) => Err(Fault::Long { platform: None }),
        Err(MeaningFault::Memory) => Err(Fault::Memory),
    }
}

/// The most firings for which a meaning is written: the graph's number of claims for each of its platforms.
#[tactic(auto, using(crate::proofs::MostFirings::few_products))]
fn most_firings(graph: &Graph) -> usize
    requires { IsLawful graph.now }
    ensures { result ≡ graph.now.claims * length graph.now.platforms }
{
    graph.claims as usize * graph.platforms.as_slice().len()
}
