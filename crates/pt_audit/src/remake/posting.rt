//! The results that a turn posts.

ghost use Rattle.std.specs.Prelude.{◌≡◌, ◌≤◌, ℕ, IfOk, false, length, true};
ghost use Rattle.std.specs.List.{flat_map};
ghost use Rattle.pt_turn.specs.Posts.Posted.{AreDone};
ghost use Rattle.pt_semantics.specs.Lists.{IsIn};
ghost use Rattle.pt_audit.specs.Remaking.Steps.{AreOf};

use pt_actors::Done;
use pt_blocks::Blocks;
use pt_tags::Memory;
use pt_turn::Platform;
use pt_visits::fire_one;

/// Fires the claims with these numbers, in order, and replaces `dones` by their results. Returns whether all numbers are of
/// claims that the platform made. Whether these are still open is seen in the turn, which posts only results of open claims.
pub fn fire_claims(
    platform: &Platform,
    numbers: &[u64],
    blocks: &Blocks,
    dones: &mut Vec<Done>,
) -> Result<bool, Memory>
    ensures done { IfOk result (λ all. AreDone platform.now.plan.graph dones.new.items) }
    ensures all { IfOk result
        (λ all. all ≡ true →
        AreOf (flat_map (λ turn. turn.claimed) platform.now.turns) numbers.now dones.new.items) }
    ensures unknown { IfOk result
        (λ all. all ≡ false →
        (number : ℕ) × IsIn number numbers.now
        × (length (flat_map (λ turn. turn.claimed) platform.now.turns) ≤ number)) }
{
    dones.clear();
    let history = platform.history();
    for number in numbers {
        if *number >= history.claims() {
            return Ok(false);
        }
        let task = history.task(*number as usize);
        if dones
            .push(fire_one(blocks, platform.plan().graph(), &task))
            .is_err()
        {
            return Err(Memory);
        }
    }
    Ok(true)
}
