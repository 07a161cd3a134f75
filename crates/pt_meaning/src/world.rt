//! The events that wait: those known at the start, and those sent since.

ghost use Rattle.std.specs.Prelude.{◌≡◌, IfSome, IfNone, None};
ghost use Rattle.pt_tags.specs.declared.tag.Tag.{Tag};
ghost use Rattle.pt_meaning.specs.Both.{FiresFirstOfAll, GivesAllInputs, HasAnyInput, IsSoundPlace, NoneWaitsAtAll, StaySound, TakesFirstOfAll, with_first};

use crate::early::EarlyList;
use crate::late::Late;
use crate::place::{EventPlace, sooner};
use pt_tags::Tag;
use pt_types::Ports;

/// The events that wait: `early` were known at the start, `late` were sent since. If both have one at a place, the early
/// one counts.
#[derive(Drop)]
pub struct WaitingEvents {
    pub early: EarlyList,
    pub late: Late,
}

impl WaitingEvents {
    /// The place of the first event.
    pub fn first(&self) -> Option<EventPlace>
        ensures first { IfSome result (FiresFirstOfAll self.now) }
        ensures present { IfSome result (HasAnyInput self.now) }
        ensures within { IfSome result (IsSoundPlace self.now) }
        ensures empty { IfNone result (NoneWaitsAtAll self.now) }
    {
        let Some(early) = self.early.first() else {
            return self.late.first();
        };
        let Some(late) = self.late.first() else {
            return Some(early);
        };
        Some(sooner(early, late))
    }

    /// Takes an actor's events of a tag, which must be the first, and writes their values at its inputs.
    pub fn take(&mut self, tag: Tag, actor: u32, inputs: &mut Ports)
        ensures inputs { GivesAllInputs self.old actor tag inputs.new }
        ensures waits { TakesFirstOfAll actor tag self.old self.new }
        ensures sound { StaySound self.old self.new }
    {
        let early = self.early.take(tag, actor);
        self.late.take(tag, actor, inputs);
        put_first(inputs, early);
    }
}

/// Puts a value, if it is one, at port 0.
fn put_first(ports: &mut Ports, value: Option<i64>)
    ensures { ports.new ≡ with_first value ports.old }
{
    match value {
        Some(value) => ports.put(0, value),
        None => (),
    }
}
