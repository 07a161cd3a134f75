//! Why a call did not write its whole answer.

ghost use Rattle.std.specs.Prelude.{◌≡◌};
ghost use Rattle.pt_run.specs.Statuses.{status_of_fault};
ghost use Rattle.pt_run.specs.Faults.{fault_of_air, fault_of_cycle, fault_of_graph, fault_of_offset, fault_of_plan, fault_of_rows, fault_of_slacks, fault_of_turn};

use pt_air::AirFault;
use pt_audit::Verdict;
use pt_causality::CycleFault;
use pt_graph::GraphFault;
use pt_offsets::{OffsetFault, PlanFault};
use pt_sensor_files::RecordedFault;
use pt_sensors::RowFault;
use pt_slacks::SlackFault;
use pt_tags::{List, Memory, Reading, Tag};
use pt_turn::TurnFault;
use std::alloc::AllocError;

/// Why a call did not write its whole answer. Actors are numbered as in the graph, from 0; times are microseconds. `notes` has the
/// line that reports it, with the names of the graph.
#[derive(Debug, Drop)]
pub enum Fault {
    /// The command line is not valid.
    Usage,
    /// The graph file has this fault.
    Graph(GraphFault),
    /// These actors form a cycle that takes no time, in its order; the first has the least number.
    Cycle(List<u32>),
    /// What reaches this sender may come too late for it to send within its slack: `offset + 1 > slack`.
    Infeasible {
        send: u32,
        offset: i64,
        slack: u64,
    },
    /// However great the slacks are, one of these senders can't send in time: from each to the next, and from the last to the
    /// first, the slack that is needed grows, by `gain` in all. The first has the least number.
    Ring {
        sends: List<u32>,
        gain: u64,
    },
    /// The sensor's file has this fault.
    Sensor {
        actor: u32,
        fault: RowFault,
    },
    /// Row `row`, from 1, of the sensor is seen at `seen`, past `limit`, its time plus the sensor's bound.
    LateRow {
        actor: u32,
        row: u32,
        seen: Reading,
        limit: u64,
    },
    /// A message for this receiver at this tag was late on this platform: its last reading was `reading`, past `limit`, the
    /// tag's time plus the receiver's bound. Its recorded turns end with it. Never in a paced run.
    LateMessage {
        platform: u32,
        actor: u32,
        tag: Tag,
        reading: Reading,
        limit: u64,
    },
    /// In a replay a message for this receiver at this tag was late on this platform: its last reading was `reading`, past
    /// `limit`, the tag's time plus the receiver's bound. Its recorded turns end with it. Row `row`, from 1, of the recording is the
    /// first that breaks a stated bound.
    LateAir {
        platform: u32,
        actor: u32,
        tag: Tag,
        reading: Reading,
        limit: u64,
        row: u32,
    },
    /// This platform made all its claims and needed more: in a paced run, the meaning has more firings of units on it. For
    /// `None`, the meaning has more firings than all platforms may claim.
    Long {
        platform: Option<u32>,
    },
    /// The graph file, for `None`, or the file of this sensor could not be read.
    Read {
        sensor: Option<u32>,
    },
    /// The log to be audited could not be read.
    ReadLog,
    /// The recording of a network has this fault.
    Air(AirFault),
    /// The recording of a network could not be read.
    ReadAir,
    /// The log to be audited is not what a run of the graph writes: this is the verdict on it, never `Verdict::Fine`.
    Unlawful(Verdict),
    /// The output could not be written in full.
    Write,
    /// Memory ran out.
    Memory,
}

impl From<AllocError> for Fault {
    ghost use Rattle.std.specs.Prelude.{◌≡◌};
    ghost use Rattle.pt_run.specs.declared.fault.Fault.TheVariants as fault;

    ghost from_gives = { λ _ given. given ≡ fault.Memory };

    fn from(_error: AllocError) -> Fault {
        Fault::Memory
    }
}

impl From<Memory> for Fault {
    ghost use Rattle.std.specs.Prelude.{◌≡◌};
    ghost use Rattle.pt_run.specs.declared.fault.Fault.TheVariants as fault;

    ghost from_gives = { λ _ given. given ≡ fault.Memory };

    fn from(_error: Memory) -> Fault {
        Fault::Memory
    }
}

/// The status of a fault.
pub fn status_of(fault: &Fault) -> u8
    ensures { result ≡ status_of_fault fault.now }
{
    match fault {
        Fault::Usage => 1,
        Fault::Graph(_) => 2,
        Fault::Cycle(_) => 2,
        Fault::Infeasible { .. } => 2,
        Fault::Ring { .. } => 2,
        Fault::Sensor { .. } => 3,
        Fault::LateRow { .. } => 4,
        Fault::LateMessage { .. } => 4,
        Fault::LateAir { .. } => 4,
        Fault::Long { .. } => 6,
        Fault::Read { .. } => 7,
        Fault::ReadLog => 7,
        Fault::Air(_) => 3,
        Fault::ReadAir => 7,
        Fault::Unlawful(_) => 10,
        Fault::Write => 8,
        Fault::Memory => 9,
    }
}

/// The fault of a call, from that of the graph file.
pub fn fault_of_graph(fault: GraphFault) -> Fault
    ensures { result ≡ fault_of_graph fault }
{
    match fault {
        GraphFault::Memory => Fault::Memory,
        _ => Fault::Graph(fault),
    }
}

/// The fault of a call, from that of a graph with a cycle.
pub fn fault_of_cycle(fault: CycleFault) -> Fault
    ensures { result ≡ fault_of_cycle fault }
{
    match fault {
        CycleFault::Memory => Fault::Memory,
        CycleFault::Cycle { actors } => Fault::Cycle(actors),
    }
}

/// The fault of a call, from that of a graph whose offsets were computed.
pub fn fault_of_offset(fault: OffsetFault) -> Fault
    ensures { result ≡ fault_of_offset fault }
{
    match fault {
        OffsetFault::Memory => Fault::Memory,
        OffsetFault::Infeasible {
            send,
            offset,
            slack,
        } => Fault::Infeasible {
            send,
            offset,
            slack,
        },
    }
}

/// The fault of a call, from that of a graph without least slacks.
pub fn fault_of_slacks(fault: SlackFault) -> Fault
    ensures { result ≡ fault_of_slacks fault }
{
    match fault {
        SlackFault::Memory => Fault::Memory,
        SlackFault::Ring { sends, gain } => Fault::Ring { sends, gain },
    }
}

/// The fault of a call, from that of a graph without a plan.
pub fn fault_of_plan(fault: PlanFault) -> Fault
    ensures { result ≡ fault_of_plan fault }
{
    match fault {
        PlanFault::Memory => Fault::Memory,
        PlanFault::Cycle(fault) => fault_of_cycle(fault),
        PlanFault::Offset(fault) => fault_of_offset(fault),
    }
}

/// The fault of a call, from that of the sensors' files.
pub fn fault_of_rows(fault: RecordedFault) -> Fault
    ensures { result ≡ fault_of_rows fault }
{
    match fault {
        RecordedFault::Memory => Fault::Memory,
        RecordedFault::Read { sensor } => Fault::Read {
            sensor: Some(sensor),
        },
        RecordedFault::Sensor { actor, fault } => Fault::Sensor { actor, fault },
        RecordedFault::Late {
            actor,
            row,
            seen,
            limit,
        } => Fault::LateRow {
            actor,
            row,
            seen,
            limit,
        },
    }
}

/// The fault of a call, from that of the recording of a network.
pub fn fault_of_air(fault: AirFault) -> Fault
    ensures { result ≡ fault_of_air fault }
{
    match fault {
        AirFault::Memory => Fault::Memory,
        _ => Fault::Air(fault),
    }
}

/// The fault of a call whose run this platform stopped with this fault. In a replay `breach` is the first row of its recording that
/// breaks a stated bound.
pub fn fault_of_turn(platform: u32, breach: Option<u32>, fault: TurnFault) -> Fault
    ensures { result ≡ fault_of_turn platform breach fault }
{
    match fault {
        TurnFault::Long => Fault::Long {
            platform: Some(platform),
        },
        TurnFault::Late {
            actor,
            tag,
            reading,
            limit,
        } => match breach {
            None => Fault::LateMessage {
                platform,
                actor,
                tag,
                reading,
                limit,
            },
            Some(row) => Fault::LateAir {
                platform,
                actor,
                tag,
                reading,
                limit,
                row,
            },
        },
    }
}
