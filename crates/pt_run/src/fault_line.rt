//! The line that reports a fault, with the names of the graph.

ghost use Rattle.std.specs.Prelude.{◌≡◌, option_map};
ghost use Rattle.pt_run.specs.Notes.{actor_name_in, platform_name_in, sender_name_in};

use crate::fault::Fault;
use pt_audit::Verdict;
use pt_graph::GraphFault;
use pt_tags::{Reading, Tag};
use pt_types::Graph;
use std::fmt;

/// Shows the line of a fault, with its line feed. The names of actors and platforms are those of the graph; without one they are empty.
///
/// Over the basic graph, whose actor 0 is `s`, row 1 of actor 0, seen at 61 past 60, gives `late s row 1, seen 61 past 60`.
#[derive(Drop)]
pub struct FaultLine<'a> {
    pub fault: &'a Fault,
    pub graph: Option<&'a Graph>,
}

impl<'a> fmt::Display for FaultLine<'a> {
    ghost use Rattle.std.specs.Prelude.{Some, option_map};
    ghost use Rattle.pt_run.specs.Notes.{note_line};

    ghost output = { λ l. Some (note_line l.fault.now (option_map (λ g. g.now) l.graph)) };

    fn fmt<W: fmt::Write>(&self, f: &mut fmt::Formatter<W>) -> fmt::Result {
        let graph = self.graph;
        match self.fault {
            Fault::Usage => write!(
                f,
                "usage: ptides run GRAPH [--workers N] [--clock paced|step:START:STEP|machine] [--log] | check GRAPH | meaning GRAPH | make NUMBER [--workers N] | migrate GRAPH | audit GRAPH LOG | slacks GRAPH | replay GRAPH AIR [--workers N] [--log]\n"
            ),
            Fault::Graph(GraphFault::Memory) => write!(f, "memory\n"),
            Fault::Graph(fault) => write!(f, "graph: {fault}\n"),
            Fault::Cycle(actors) => {
                let names = Names {
                    actors: actors.as_slice(),
                    graph,
                };
                write!(f, "graph: cycle{names}\n")
            }
            Fault::Infeasible {
                send,
                offset,
                slack,
            } => {
                let name = actor_name(graph, *send);
                write!(
                    f,
                    "graph: infeasible {name}, offset {offset}, slack {slack}\n"
                )
            }
            Fault::Ring { sends, gain } => {
                let names = Names {
                    actors: sends.as_slice(),
                    graph,
                };
                write!(f, "graph: ring{names}, gain {gain}\n")
            }
            Fault::Sensor { actor, fault } => {
                let name = actor_name(graph, *actor);
                write!(f, "sensor {name}: {fault}\n")
            }
            Fault::LateRow {
                actor,
                row,
                seen,
                limit,
            } => {
                let name = actor_name(graph, *actor);
                write!(f, "late {name} row {row}, seen {seen} past {limit}\n")
            }
            Fault::LateMessage {
                platform: _,
                actor,
                tag,
                reading,
                limit,
            } => {
                let name = actor_name(graph, *actor);
                let past = Past {
                    tag: *tag,
                    reading: *reading,
                    limit: *limit,
                };
                write!(f, "late {name}{past}\n")
            }
            Fault::LateAir {
                platform: _,
                actor,
                tag,
                reading,
                limit,
                row,
            } => {
                let name = actor_name(graph, *actor);
                let past = Past {
                    tag: *tag,
                    reading: *reading,
                    limit: *limit,
                };
                write!(f, "late {name}{past}, air row {row}\n")
            }
            Fault::Long {
                platform: Some(platform),
            } => {
                let name = platform_name(graph, *platform);
                write!(f, "long {name}\n")
            }
            Fault::Long { platform: None } => write!(f, "long meaning\n"),
            Fault::Read {
                sensor: Some(actor),
            } => {
                let name = actor_name(graph, *actor);
                write!(f, "read fault: sensor {name}\n")
            }
            Fault::Read { sensor: None } => write!(f, "read fault: graph\n"),
            Fault::ReadLog => write!(f, "read fault: log\n"),
            Fault::Air(fault) => write!(f, "air: {fault}\n"),
            Fault::ReadAir => write!(f, "read fault: air\n"),
            Fault::Unlawful(verdict) => {
                let cause = Cause { verdict, graph };
                write!(f, "unlawful: {cause}\n")
            }
            Fault::Write => write!(f, "write fault\n"),
            Fault::Memory => write!(f, "memory\n"),
        }
    }
}

/// Shows the names of actors, each after a space.
#[derive(Drop)]
struct Names<'a> {
    actors: &'a [u32],
    graph: Option<&'a Graph>,
}

impl<'a> fmt::Display for Names<'a> {
    ghost use Rattle.std.specs.Prelude.{Some, flat_map, option_map};
    ghost use Rattle.pt_run.specs.Notes.{name_after_space};

    ghost output = { λ l. Some (flat_map (name_after_space (option_map (λ g. g.now) l.graph)) l.actors.now) };

    fn fmt<W: fmt::Write>(&self, f: &mut fmt::Formatter<W>) -> fmt::Result {
        for actor in self.actors {
            let name = actor_name(self.graph, *actor);
            write!(f, " {name}")?;
        }
        Ok(())
    }
}

/// Shows where a message was late: its tag, the last reading of its platform, and by when it should have come.
#[derive(Clone, Copy)]
struct Past {
    tag: Tag,
    reading: Reading,
    limit: u64,
}

impl fmt::Display for Past {
    ghost use Rattle.std.specs.Prelude.{Some};
    ghost use Rattle.pt_run.specs.Notes.{past_text};

    ghost output = { λ p. Some (past_text p.tag p.reading p.limit) };

    fn fmt<W: fmt::Write>(&self, f: &mut fmt::Formatter<W>) -> fmt::Result {
        let time = self.tag.time;
        let step = self.tag.step;
        let reading = self.reading;
        let limit = self.limit;
        write!(f, " at {time}.{step}, reading {reading} past {limit}")
    }
}

/// Shows why a log is refused.
#[derive(Drop)]
struct Cause<'a> {
    verdict: &'a Verdict,
    graph: Option<&'a Graph>,
}

impl<'a> fmt::Display for Cause<'a> {
    ghost use Rattle.std.specs.Prelude.{Some, option_map};
    ghost use Rattle.pt_run.specs.Notes.{verdict_text};

    ghost output = { λ l. Some (verdict_text l.verdict.now (option_map (λ g. g.now) l.graph)) };

    fn fmt<W: fmt::Write>(&self, f: &mut fmt::Formatter<W>) -> fmt::Result {
        match self.verdict {
            Verdict::TooLong => write!(f, "too long"),
            Verdict::NoLog => write!(f, "no log"),
            Verdict::Turn { line } => write!(f, "turn at line {line}"),
            Verdict::Unfinished { platform } => {
                let name = platform_name(self.graph, *platform);
                write!(f, "unfinished {name}")
            }
            Verdict::Unlinked { link } => {
                let name = sender_name(self.graph, *link);
                write!(f, "link {name}")
            }
            Verdict::Table => write!(f, "table"),
            Verdict::Fine => write!(f, "fine"),
        }
    }
}

/// The name of an actor of the graph; empty without a graph.
fn actor_name(graph: Option<&Graph>, actor: u32) -> &str
    ensures { result.now ≡ actor_name_in (option_map (λ g. g.now) graph.entry) actor }
{
    let Some(graph) = graph else {
        return "";
    };
    graph.actor_name(actor)
}

/// The name of the sender of a link of the graph; empty without a graph, and if the graph has no such link.
fn sender_name(graph: Option<&Graph>, link: u32) -> &str
    ensures { result.now ≡ sender_name_in (option_map (λ g. g.now) graph.entry) link }
{
    let Some(of) = graph else {
        return "";
    };
    match of.links.as_slice().get(link as usize) {
        Some(link) => of.actor_name(link.from),
        None => "",
    }
}

/// The name of a platform of the graph; empty without a graph.
fn platform_name(graph: Option<&Graph>, platform: u32) -> &str
    ensures { result.now ≡ platform_name_in (option_map (λ g. g.now) graph.entry) platform }
{
    let Some(graph) = graph else {
        return "";
    };
    graph.platform_name(platform)
}
