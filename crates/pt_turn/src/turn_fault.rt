//! The fault of a turn.

ghost use Rattle.std.specs.Prelude.{◌≡◌, ◌+◌, ◌<◌, Some};
ghost use Rattle.pt_turn.specs.declared.claim_step.TurnEnd.TheVariants.{Late};
ghost use Rattle.pt_turn.specs.Faults.{IsFaultOf, NamesLate, SomeIsLate};

use crate::TurnEnd;
use crate::fault::TurnFault;
use pt_offsets::Plan;
use pt_tags::Message;
use pt_types::OnLink;

/// The fault of a turn with this ending, given the last reading before it (in microseconds) and the messages that it took.
pub fn fault_of(
    plan: &Plan,
    ending: TurnEnd,
    last: Option<u64>,
    taken: &[OnLink],
) -> Option<TurnFault>
    requires late { ending ≡ Late → SomeIsLate plan.now.graph last taken.now }
    ensures { IsFaultOf plan.now.graph last taken.now ending result }
{
    match ending {
        TurnEnd::On => None,
        TurnEnd::Long => Some(TurnFault::Long),
        TurnEnd::Late => Some(late_fault(plan, last, taken)),
    }
}

/// The fault for the last message, which is late.
fn late_fault(plan: &Plan, last: Option<u64>, taken: &[OnLink]) -> TurnFault
    requires late { SomeIsLate plan.now.graph last taken.now }
    ensures { NamesLate plan.now.graph last taken.now result }
{
    let Some(reading) = last else {
        unreachable!();
    };
    let message = taken[taken.len() - 1];
    let Message::Event { tag, value: _ } = message.message else {
        unreachable!();
    };
    let actor = plan.graph().links.as_slice()[message.link as usize].to;
    let Some(bound) = plan.offsets().bound(actor) else {
        unreachable!();
    };
    TurnFault::Late {
        actor,
        tag,
        reading,
        limit: sum_below(tag.time, bound, reading),
    }
}

/// `a + b`, which is less than `above`, so that it does not overflow.
fn sum_below(a: u64, b: u64, above: u64) -> u64
    requires { a + b < above }
    ensures { result ≡ a + b }
{
    a + b
}
