//! Whether messages are on time.

ghost use Rattle.std.specs.Prelude.{◌≡◌, MatchBool, unwrap_or};
ghost use Rattle.pt_semantics.specs.Taking.{IsOnTime};
ghost use Rattle.pt_offsets.specs.Timings.{bound_in};

use pt_offsets::Offsets;
use pt_tags::Message;

/// The bound of a receiver, in microseconds; 0 if it has none.
pub fn bound(offsets: &Offsets, receiver: u32) -> u64
    ensures { result ≡ unwrap_or (bound_in offsets.now receiver) 0 }
{
    match offsets.bound(receiver) {
        Some(bound) => bound,
        None => 0,
    }
}

/// Whether a message is on time, by the last reading before the turn and its receiver's bound, in microseconds.
///
/// A message of time 50 to a receiver with bound 10 is late if that reading is 61 or more. `End` is never late.
pub fn is_on_time(last: Option<u64>, bound: u64, message: Message) -> bool
    ensures { MatchBool result (IsOnTime last bound message) (IsOnTime last bound message → ⊥) }
{
    match message {
        Message::End => true,
        Message::Event { tag, value: _ } => match last {
            None => true,
            Some(last) => last as u128 <= tag.time as u128 + bound as u128,
        },
    }
}
