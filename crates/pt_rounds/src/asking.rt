//! What the engine asks the platforms between rounds.

ghost use Rattle.std.specs.Prelude.{◌≡◌, MatchOption, false, length};
ghost use Rattle.pt_rounds.specs.Asked.{IsLeastOf, NoneIsOpen};
ghost use Rattle.pt_engine.specs.Asked.{HaveNoFault, IsFirstFault};

use pt_engine::first_fault;
use pt_turn::{Platform, TurnFault};
use pt_visits::lesser;

/// The first fault, with the number of its platform; there is none unless one is `faulty`.
#[inline(always)]
pub fn fault_of(platforms: &[Platform], faulty: bool) -> Option<(u32, TurnFault)>
    requires { faulty ≡ false → HaveNoFault platforms.now }
    ensures { MatchOption result (HaveNoFault platforms.now) (IsFirstFault platforms.now) }
{
    if !faulty {
        return None;
    }
    first_fault(platforms)
}

/// The least next reading of the platforms that are not closed, in microseconds; `None` if all are closed.
pub fn least_next(platforms: &[Platform]) -> Option<u64>
    ensures { MatchOption result (NoneIsOpen (length platforms.now) platforms.now)
        (IsLeastOf (length platforms.now) platforms.now) }
{
    let mut least = None;
    for i in 0..platforms.len() {
        least = lesser(least, platforms[i].next_reading());
    }
    least
}

/// The least next reading of the platforms that are not closed, in microseconds; at least one is not.
pub fn next_reading(platforms: &[Platform]) -> u64
    requires some_open { NoneIsOpen (length platforms.now) platforms.now → ⊥ }
    ensures { IsLeastOf (length platforms.now) platforms.now result }
{
    match least_next(platforms) {
        None => unreachable!(),
        Some(next) => next,
    }
}
