//! What an audit or a replay reads after the graph file: the rows of all sensors, and then one last file.

ghost use Rattle.std.specs.Prelude.{◌≡◌, ◌≤◌, [], ◌∷◌, IfErr, IfOk};
ghost use Rattle.std.specs.Arc.{arc_value};
ghost use Rattle.pt_io.specs.Calls.{reading};
ghost use Rattle.pt_types.specs.Limits.{greatest_claims};
ghost use Rattle.pt_run.specs.Asks.{AsksOver};
ghost use Rattle.pt_run.specs.Due.{RefusesAsDue};
ghost use Rattle.pt_run.specs.LastFiles.{HasAllRows, HasFetched, IsUnread, most_of, unread_of};
ghost use Rattle.pt_run.specs.Texts.{fault_in};
ghost use Rattle.pt_run.specs.Counts.{LeavesReads};

use crate::fault::{Fault, fault_of_rows};
use pt_audit::log_limit;
use pt_io::{FetchFault, Source};
use pt_offsets::Plan;
use pt_sensor_files::{LateRows, recorded};
use pt_sensors::{SensorRows, file_limits};
use std::alloc::Global;
use std::sync::Arc;

/// The file that is read last.
#[derive(Clone, Copy)]
pub enum LastFile {
    /// The log of an audit.
    Log,
    /// The recording of a network, for a replay.
    Air,
}

impl LastFile {
    /// The most bytes that the file may have, by the most claims of a platform.
    fn most_bytes(self, claims: u64) -> usize
        requires { claims ≤ greatest_claims }
        ensures { result ≡ most_of self claims }
    {
        match self {
            LastFile::Log => log_limit(claims),
            LastFile::Air => file_limits(claims).bytes,
        }
    }

    /// The fault if the file can't be read.
    fn unread(self) -> Fault
        ensures { result ≡ unread_of self }
    {
        match self {
            LastFile::Log => Fault::ReadLog,
            LastFile::Air => Fault::ReadAir,
        }
    }
}

/// The rows of a plan's sensors, and the bytes of the last file: all, or one more than it may have.
#[derive(Drop)]
pub struct RowsAndBytes {
    pub entries: Vec<SensorRows>,
    pub bytes: Vec<u8>,
}

/// Reads the rows of a plan's sensors, none of which may be late, and then the last file, which has this name.
pub fn fetched<S: Source>(
    alloc: Global,
    plan: &Arc<Plan>,
    last: LastFile,
    name: &str,
    source: &mut S,
) -> Result<RowsAndBytes, Fault>
    ensures rows { IfOk result
        (λ found. HasAllRows (S.contents source.old) (arc_value plan.now) found.entries.items) }
    ensures bytes { IfOk result
        (λ found. HasFetched last (arc_value plan.now).graph.claims (S.contents source.old) name.now
        found.bytes.items) }
    ensures refused { IfErr result (λ f. RefusesAsDue f
        (reading S.Source source.old source.new)
        (IsUnread last name.now (S.contents source.old) (arc_value plan.now).graph)) }
    ensures asks { AsksOver (fault_in result) [] (arc_value plan.now).graph.actors (name.now ∷ [])
        (S.asked source.old) (S.asked source.new) }
    ensures reads { LeavesReads (fault_in result) (S.faults source.old) (S.faults source.new) }
{
    let entries = match recorded(alloc, source, plan.graph(), LateRows::Refused) {
        Ok(entries) => entries,
        Err(fault) => return Err(fault_of_rows(fault)),
    };
    match source.fetch(alloc, name, last.most_bytes(plan.graph().claims)) {
        Ok(bytes) => Ok(RowsAndBytes { entries, bytes }),
        Err(FetchFault::Failed) => Err(last.unread()),
        Err(FetchFault::Memory) => Err(Fault::Memory),
    }
}
