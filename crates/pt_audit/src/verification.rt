//! The verification of a log: its platforms make each logged turn again.

ghost use Rattle.std.specs.Prelude.{◌≡◌, [], IfOk};
ghost use Rattle.std.specs.Arc.{arc_value};
ghost use Rattle.pt_semantics.specs.Rows.{FitRows};
ghost use Rattle.pt_sensors.specs.Listed.{rows_for};
ghost use Rattle.pt_sensors.specs.Places.{StandInPlace, of_run};
ghost use Rattle.pt_confluence.specs.Gathered.{HaveFinished};
ghost use Rattle.pt_audit.specs.Verdicts.{BeginsAt, IsVerdict};
ghost use Rattle.pt_audit.specs.declared.verdict.Verdict.TheVariants.{Fine};

use crate::limits::log_limit;
use crate::log::verify_log;
use crate::parse::{Cursor, log_at};
use crate::verdict::Verdict;
use pt_blocks::Blocks;
use pt_offsets::Plan;
use pt_sensors::SensorRows;
use pt_tags::Memory;
use pt_turn::{Platform, open_all};
use std::alloc::Global;
use std::sync::Arc;

/// What a file is found to be, and the platforms after its turns.
#[derive(Drop)]
pub struct Verification {
    pub verdict: Verdict,
    /// The place of the first byte of the first line `log`; 0 if there is none, or if the file is too long.
    pub log_at: usize,
    /// If the log is fine, the platforms after its turns; else none.
    pub platforms: Vec<Platform>,
}

/// Verifies a log and says what the file is: no other verdict is right, by `verdicts_are_one`. Only its head, the lines before
/// `log`, is not looked at.
///
/// `entries` has one entry for each actor, without late rows.
pub fn verify(
    alloc: Global,
    plan: &Arc<Plan>,
    entries: Vec<SensorRows>,
    blocks: &Blocks,
    bytes: &[u8],
) -> Result<Verification, Memory>
    requires places { StandInPlace (arc_value plan.now).graph entries.items }
    requires fit { FitRows (arc_value plan.now).graph
        (of_run (arc_value plan.now).graph (rows_for entries.items)) }
    ensures verdict { IfOk result
        (λ r. IsVerdict (arc_value plan.now)
        (of_run (arc_value plan.now).graph (rows_for entries.items)) bytes.now r.verdict) }
    ensures fine { IfOk result
        (λ r. r.verdict ≡ Fine →
        HaveFinished (arc_value plan.now)
        (of_run (arc_value plan.now).graph (rows_for entries.items)) r.platforms.items) }
    ensures none { IfOk result (λ r. (r.verdict ≡ Fine → ⊥) → r.platforms.items ≡ []) }
    ensures log_at { IfOk result (λ r. BeginsAt bytes.now r.verdict r.log_at) }
{
    if bytes.len() > log_limit(plan.graph().claims) {
        return Ok(unlawful(alloc, Verdict::TooLong, 0));
    }
    let Some(at) = log_at(bytes) else {
        return Ok(unlawful(alloc, Verdict::NoLog, 0));
    };
    let platforms = open_all(alloc, plan, entries)?;
    let log = Cursor::new(&bytes[at.place + 4..], at.line + 1);
    let ended = verify_log(alloc, plan, platforms, blocks, log)?;
    if ended.verdict != Verdict::Fine {
        return Ok(unlawful(alloc, ended.verdict, at.place));
    }
    Ok(Verification {
        verdict: Verdict::Fine,
        log_at: at.place,
        platforms: ended.platforms,
    })
}

/// A file that is no lawful log.
fn unlawful(alloc: Global, verdict: Verdict, log_at: usize) -> Verification
    ensures verdict { result.verdict ≡ verdict }
    ensures none { result.platforms.items ≡ [] }
    ensures log_at { result.log_at ≡ log_at }
{
    Verification {
        verdict,
        log_at,
        platforms: Vec::new(alloc),
    }
}
