//! What the engine asks the platforms between visits.

ghost use Rattle.std.specs.Prelude.{◌≡◌, ◌<◌, ◌+◌, ◌⊎◌, MatchOption, length};
ghost use Rattle.pt_io.specs.Clocks.{viewed};
ghost use Rattle.pt_fixed_order.specs.Asked.{HasNone, HasOne};

use pt_engine::{Rests, all_idle_until};
use pt_io::Clock;
use pt_links::Pipe;
use pt_tags::Reading;
use pt_turn::{Platform, TurnFault};
use std::thread::yield_now;

/// The number of the platform that is visited after this one: the next, or after the last the first.
pub fn after(count: usize, number: usize) -> usize
    requires within { number < count }
    ensures { ((number + 1 ≡ count) × (result ≡ 0))
        ⊎ ((number + 1 < count) × (result ≡ number + 1)) }
{
    if number + 1 == count { 0 } else { number + 1 }
}

/// The fault of this platform, with the platform's number; `None` if it has no fault.
pub fn fault_of(platforms: &[Platform], place: usize) -> Option<(u32, TurnFault)>
    requires within { place < length platforms.now }
    ensures { MatchOption result (HasNone platforms.now place) (HasOne platforms.now place) }
{
    let platform = &platforms[place];
    match platform.fault() {
        Some(fault) => Some((platform.number(), fault)),
        None => None,
    }
}

/// The reading of the last turn of a platform; 0 if there is none.
fn reading_of(platform: Option<&Platform>) -> Reading {
    match platform {
        Some(platform) => platform.reading().unwrap_or(0),
        None => 0,
    }
}

/// Before the first platform is visited again, if the clocks rise by themselves: lets time pass until something can happen on a
/// platform, or, where that is soon, lets other processes run.
pub fn rest<C: Clock>(
    platforms: &[Platform],
    pipes: &[Pipe],
    clocks: &mut [C],
    rests: &mut Rests,
    next: usize,
)
    ensures { viewed C.readings C.ahead clocks.new ≡ viewed C.readings C.ahead clocks.old }
{
    if next != 0 || clocks.is_empty() || !clocks[0].rises_by_itself() {
        return;
    }
    rests.visited(reading_of(platforms.first()));
    let Some(until) = all_idle_until(platforms, pipes) else {
        return;
    };
    if let Some(awaited) = rests.begin(reading_of(platforms.last()), until) {
        clocks[0].wait(awaited);
    }
    yield_now();
}
