//! Taking events from the front of those that wait.

ghost use Rattle.std.specs.Prelude.{◌≡◌, ◌<◌, ℕ, ℤ, Option, IfSome, IfNone, Some, length, nat_lt, slice_set, if◌then◌else◌};
ghost use Rattle.pt_meaning.specs.declared.place.EventPlace.{EventPlace};
ghost use Rattle.pt_meaning.specs.Placed.{PutsFirstInputs, StayPlaced, TakesFirst};
ghost use Rattle.pt_meaning.specs.Front.{TakesOne, NoneInFront};

use pt_tags::Tag;
use pt_types::Ports;

/// Events that wait, the first of which can be taken.
pub trait TakeFirst {
    /// The value that waits at each place.
    ghost held: { Self → EventPlace → Option ℤ };

    /// The number of events.
    ghost count: { Self → ℕ };

    /// Takes the first event if it is of this tag and actor, and returns its input and value.
    fn take_first(&mut self, tag: Tag, actor: u32) -> Option<(u32, i64)>
        ensures some { IfSome result (λ taken.
            TakesOne tag actor taken.0 taken.1 (held self.old) (held self.new)) }
        ensures fewer { IfSome result (λ _. count self.new < count self.old) }
        ensures none { IfNone result (NoneInFront tag actor (held self.old)
            × (held self.new ≡ held self.old)) };
}

/// Takes an actor's events of a tag, which must be the first, and writes their values at its inputs.
pub fn take_all<F: TakeFirst>(front: &mut F, tag: Tag, actor: u32, inputs: &mut Ports)
    requires { length inputs.old ≡ 8 }
    ensures inputs { PutsFirstInputs (F.held front.old) actor tag inputs.old inputs.new }
    ensures waits { TakesFirst actor tag (F.held front.old) (F.held front.new) }
    ensures sound { StayPlaced (F.held front.old) (F.held front.new) }
    ensures len { length inputs.new ≡ 8 }
{
    while let Some((port, value)) = front.take_first(tag, actor) {
        put_at(inputs, port, value);
    }
}

/// Writes a value at a port; does nothing if there is no such port.
fn put_at(values: &mut Ports, port: u32, value: i64)
    ensures { values.new ≡ (if nat_lt port 8 then slice_set values.old port
        (Some value) else values.old) }
{
    if port < 8 {
        values.put(port, value);
    }
}
