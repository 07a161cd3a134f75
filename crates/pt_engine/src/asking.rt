//! What an engine asks all platforms.

ghost use Rattle.std.specs.Prelude.{◌≡◌, ◌<◌, ◌↔◌, ◌∷◌, ◌++◌, [], List, MatchOption, length, true};
ghost use Rattle.pt_semantics.specs.Turn.{Turn, is_quiet};
ghost use Rattle.pt_engine.specs.Asked.{AreAllFinished, HaveNoFault, IsFirstFault};

use pt_turn::{Platform, TurnFault};

/// The first fault, with the number of its platform; `None` if no platform has one.
// Not inlined, since mostly there is none.
#[inline(never)]
pub fn first_fault(platforms: &[Platform]) -> Option<(u32, TurnFault)>
    ensures { MatchOption result (HaveNoFault platforms.now) (IsFirstFault platforms.now) }
{
    for i in 0..platforms.len() {
        let platform = &platforms[i];
        if let Some(fault) = platform.fault() {
            return Some((platform.number(), fault));
        }
    }
    None
}

/// Whether all platforms are finished.
pub fn are_finished(platforms: &[Platform]) -> bool
    ensures { (result ≡ true) ↔ AreAllFinished platforms.now }
{
    for i in 0..platforms.len() {
        if !platforms[i].finished() {
            return false;
        }
    }
    true
}

/// Whether nothing was posted, entered, taken, claimed or sent in the last turn.
pub fn was_quiet(platform: &Platform) -> bool
    requires begun { 0 < length platform.now.turns }
    ensures { (before : List Turn) (turn : Turn) → platform.now.turns ≡ before ++ turn ∷ [] →
        result ≡ is_quiet turn }
{
    platform.history().was_quiet()
}
