//! How long an engine may rest.

ghost use Rattle.std.specs.Prelude.{◌≡◌, ◌+◌, ◌<◌, [], ℕ, IfSome, Some, slice_index_or, true};
ghost use Rattle.pt_engine.specs.Idle.{AreIdleUntil, IsIdleUntil};

use pt_links::Pipe;
use pt_tags::Reading;
use pt_turn::Platform;

/// Whether no pipe has a message.
pub fn are_empty(pipes: &[Pipe]) -> bool
    ensures { result ≡ true → (l : ℕ) → slice_index_or pipes.now l [] ≡ [] }
{
    for l in 0..pipes.len() {
        if pipes[l].peek().is_some() {
            return false;
        }
    }
    true
}

/// The reading, in microseconds, before which nothing can happen on a platform unless a result or a message comes: its next
/// one, or the greatest number if it is closed. `None` if a message is still to be sent.
fn idle_until(platform: &Platform) -> Option<Reading>
    ensures { IfSome result (λ until. IsIdleUntil until platform.now) }
{
    if !platform.sent_all() {
        return None;
    }
    match platform.next_reading() {
        Some(next) => Some(next),
        None => Some(Reading::MAX),
    }
}

/// For how many microseconds after its last turn nothing can happen on a platform unless a result or a message comes. 0 if it
/// made no turn, or if a message is still to be sent.
///
/// If the last turn was at 500 and the next row is seen at 2,500, these are 2,000.
pub fn idle_time(platform: &Platform) -> u64
    ensures { 0 < result → (r : ℕ) → platform.now.reading ≡ Some r →
        IsIdleUntil (r + result) platform.now }
{
    let Some(reading) = platform.reading() else {
        return 0;
    };
    let Some(until) = idle_until(platform) else {
        return 0;
    };
    until.saturating_sub(reading)
}

/// The reading, in microseconds, before which nothing can happen on any platform: the least next reading of those that aren't
/// closed. `None` if a claim is open, or if a message is to be sent or under way.
pub fn all_idle_until(platforms: &[Platform], pipes: &[Pipe]) -> Option<Reading>
    ensures { IfSome result (λ until. AreIdleUntil until platforms.now pipes.now) }
{
    if !are_empty(pipes) {
        return None;
    }
    let mut least = Reading::MAX;
    for i in 0..platforms.len() {
        let platform = &platforms[i];
        if platform.open_claims() != 0 {
            return None;
        }
        least = least.min(idle_until(platform)?);
    }
    Some(least)
}
