//! The offsets of a graph in which each sender can send in time.

ghost use Rattle.std.specs.Prelude.{◌≡◌, ◌<◌, ◌^◌, ℕ, IfOk, IfErr, MatchResult, ◌≤ℤ◌, ◌<ℤ◌, ◌+ℤ◌, true};
ghost use Rattle.pt_types.specs.declared.graph.Unit.{Unit};
ghost use Rattle.pt_types.specs.Kinds.{kind_is_lawful};
ghost use Rattle.pt_types.specs.declared.kind.Kind.TheVariants.{Send};
ghost use Rattle.pt_types.specs.Lawful.{IsLawful};
ghost use Rattle.pt_semantics.specs.Bounds.{bound_of};
ghost use Rattle.pt_semantics.specs.Offsets.{HasOffset, IsFeasible};
ghost use Rattle.pt_causality.specs.Delays.{AreLeast, AreSmall, least_of};
ghost use Rattle.pt_offsets.specs.Faults.{CauseOfOffset, Names};
ghost use Rattle.pt_offsets.specs.Margins.{HasActorOffset, HasMargin, SendsInTime};
ghost use Rattle.pt_offsets.specs.Timings.{AreTimings, CanSendInTime, SendsLate, timing_at, actor_offset_of, bound_in, least_offset_in, margin_in, offset_of};
ghost use Rattle.pt_offsets.specs.Words.{IsLeastInWord};

use crate::fault::OffsetFault;
use crate::table::{Offsets, Timing};
use crate::timing::timings;
use pt_causality::Least;
use pt_types::{Graph, Kind};
use std::alloc::Global;

/// The offsets of a graph, from its least delays; a fault if a sender can't send within its slack.
///
/// Only sensors and receivers have a bound, and only senders and actuators
/// a margin. A unit that no sensor and no receiver leads to has no offset.
///
/// A sensor of bound 10 us, a delay of 100 us and an actuator of slack 0 us, wired in a row, have offsets 10, 10 and -90: an
/// event for the actuator is complete 90 us before its time. Its margin is 0 - (-90 + 1) = 89.
pub fn offsets(alloc: Global, graph: &Graph, least: &Least) -> Result<Offsets, OffsetFault>
    requires lawful { IsLawful graph.now }
    requires least { AreLeast graph.now (least_of least.now) }
    requires small { AreSmall (least_of least.now) }
    ensures offsets { IfOk result (λ o. (u : Unit) → HasOffset graph.now u (offset_of o u)) }
    ensures actors { IfOk result (λ o. (a : ℕ) → HasActorOffset graph.now a (actor_offset_of o a)) }
    ensures words { IfOk result (λ o. (word : ℕ) →
        IsLeastInWord graph.now word (least_offset_in o word)) }
    ensures bounds { IfOk result (λ o. (a : ℕ) → bound_in o a ≡ bound_of graph.now a) }
    ensures margins { IfOk result (λ o. (a : ℕ) → HasMargin graph.now a (margin_in o a)) }

    // Each sender can send in time, or the fault names the first one that cannot.
    ensures feasible { IfOk result (λ _. IsFeasible graph.now) }
    ensures infeasible { IfErr result (λ f. CauseOfOffset f graph.now) }
{
    let actors = timings(alloc, graph, least)?;
    admit_all(graph, actors.as_slice())?;
    Ok(Offsets::new(alloc, actors)?)
}

/// Checks that each sender can send in time.
fn admit_all(graph: &Graph, timings: &[Timing]) -> Result<(), OffsetFault>
    requires lawful { IsLawful graph.now }
    requires timings { AreTimings graph.now timings.now }
    ensures { MatchResult result (λ _. (a : ℕ) → SendsInTime graph.now a)
        (λ f. CauseOfOffset f graph.now) }
{
    let count = graph.actors.as_slice().len();
    for number in 0..count {
        admit_at(graph, timings, number as u32)?;
    }
    Ok(())
}

/// Checks that the actor with this number can send in time, if it is a sender.
fn admit_at(graph: &Graph, timings: &[Timing], number: u32) -> Result<(), OffsetFault>
    requires lawful { IsLawful graph.now }
    requires timings { AreTimings graph.now timings.now }
    ensures { MatchResult result (λ _. SendsInTime graph.now number)
        (λ f. Names f graph.now number) }
{
    match graph.actors.as_slice().get(number as usize) {
        Some(actor) => admit(number, &actor.kind, offset_at(timings, number)),
        None => Ok(()),
    }
}

/// The offset of an actor; `None` past the last actor.
fn offset_at(timings: &[Timing], number: u32) -> Option<i64>
    ensures { result ≡ (timing_at timings.now number).offset }
{
    timings.get(number as usize)?.offset
}

/// Checks that an actor can send in time, if it is a sender.
fn admit(number: u32, kind: &Kind, offset: Option<i64>) -> Result<(), OffsetFault>
    requires { kind_is_lawful kind.now ≡ true }
    ensures { MatchResult result (λ _. CanSendInTime kind.now offset)
        (SendsLate number kind.now offset) }
{
    match kind {
        Kind::Send { slack } => admit_sender(number, *slack, offset),
        _ => Ok(()),
    }
}

/// Checks that a sender can send in time.
fn admit_sender(send: u32, slack: u64, offset: Option<i64>) -> Result<(), OffsetFault>
    requires { slack < 2 ^ 62 }
    ensures { MatchResult result (λ _. CanSendInTime (Send slack) offset)
        (SendsLate send (Send slack) offset) }
{
    match offset {
        Some(offset) if offset >= slack as i64 => Err(OffsetFault::Infeasible {
            send,
            offset,
            slack,
        }),
        _ => Ok(()),
    }
}
