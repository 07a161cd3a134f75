//! The closing reading of a platform.

ghost use Rattle.std.specs.Prelude.{◌≡◌, ◌<◌};
ghost use Rattle.pt_semantics.specs.Paced.{IsClosing};
ghost use Rattle.pt_turn.specs.Closes.Reading.{closes_after};

use pt_offsets::Plan;

/// The first reading past the horizon plus an actor's bound; 0 if it has none.
fn closes_after(plan: &Plan, actor: u32) -> u64
    ensures { result ≡ closes_after plan.now.graph actor }
{
    match plan.offsets().bound(actor) {
        None => 0,
        Some(bound) => plan.graph().until + bound + 1,
    }
}

/// The first reading, in microseconds, past the horizon plus the bound of each sensor and receiver of a platform; 0 if it
/// has none of them. With horizon 1000 and one sensor, of bound 10, it is 1011.
pub fn closing_reading(plan: &Plan, platform: u32) -> u64
    ensures { IsClosing plan.now.graph platform result }
{
    let mut closing = 0u64;
    for (number, actor) in plan.graph().actors.as_slice().iter().enumerate() {
        if actor.platform == platform {
            closing = closing.max(closes_after(plan, number as u32));
        }
    }
    closing
}
