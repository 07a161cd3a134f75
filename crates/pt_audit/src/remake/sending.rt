//! The messages that are sent after a turn.

ghost use Rattle.std.specs.Prelude.{◌≡◌, ◌<◌, ◌≤◌, ◌∷◌, [], Some, false, length, slice_get, true};
ghost use Rattle.pt_semantics.specs.Closing.{on_link};
ghost use Rattle.pt_turn.specs.Gone.{last_sent};
ghost use Rattle.pt_visits.specs.Visited.{HasSent};
ghost use Rattle.pt_audit.specs.Remaking.Steps.{AreCounts, CanSend, OnlyLinks};

use pt_turn::Platform;
use pt_types::OnLink;

/// The most messages sent on a link after one turn.
const MESSAGES_A_TURN: u8 = 64;

/// Sends a message if it is the next one on its link, of which fewer than 64 were sent. `counts` has, by link, how many
/// messages were sent since the last turn. Returns whether it was sent.
fn send(platform: &mut Platform, next: &OnLink, counts: &mut [u8; 64]) -> bool
    requires begun { 0 < length platform.old.turns }
    requires few_links { length platform.old.plan.graph.links ≤ 64 }
    requires only_links { OnlyLinks platform.old.plan.graph platform.old.outbox }
    requires counts { AreCounts (last_sent platform.old.turns) counts.old }
    ensures sent { result ≡ true → HasSent platform.old platform.new (next.now ∷ []) }
    ensures few { result ≡ true →
        length (on_link next.now.link (last_sent platform.old.turns)) < 64 }
    ensures counts { result ≡ true → AreCounts (last_sent platform.new.turns) counts.new }
    ensures never { result ≡ false →
        slice_get (on_link next.now.link platform.old.outbox) 0 ≡ Some next.now.message →
        length (on_link next.now.link (last_sent platform.old.turns)) < 64 → ⊥ }
{
    if platform.outgoing(next.link) != Some(next.message) {
        return false;
    }
    if counts[next.link as usize] >= MESSAGES_A_TURN {
        return false;
    }
    counts[next.link as usize] += 1;
    platform.went(next.link);
    true
}

/// Sends these messages after the last turn, in order, and returns whether the platform could send them.
pub fn send_all(platform: &mut Platform, messages: &[OnLink]) -> bool
    requires begun { 0 < length platform.old.turns }
    requires nothing_sent { last_sent platform.old.turns ≡ [] }
    requires few_links { length platform.old.plan.graph.links ≤ 64 }
    requires only_links { OnlyLinks platform.old.plan.graph platform.old.outbox }
    ensures sent { result ≡ true →
        HasSent platform.old platform.new messages.now × CanSend platform.old.outbox messages.now }
    ensures never { result ≡ false → CanSend platform.old.outbox messages.now → ⊥ }
{
    let mut counts = [0; 64];
    for message in messages {
        if !send(platform, message, &mut counts) {
            return false;
        }
    }
    true
}
