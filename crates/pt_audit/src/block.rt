//! One block of a log, verified.

ghost use Rattle.std.specs.Prelude.{◌≡◌, ◌++◌, ◌∷◌, [], ℕ, IfOk, List, false, true};
ghost use Rattle.pt_types.specs.declared.rows.Row.{Row};
ghost use Rattle.pt_causality.specs.Ranked.{level_of};
ghost use Rattle.pt_offsets.specs.Plans.{IsAdmitted};
ghost use Rattle.pt_audit.specs.Parsing.Lines.{Block};
ghost use Rattle.pt_audit.specs.Verifying.{AreVerified};
ghost use Rattle.pt_audit.specs.Logged.{BlocksAreLawful};

use crate::matching::are_loggable;
use crate::order::Order;
use crate::parse::read_hints;
use crate::turn::{Tools, quiet_count, verify_turn};
use pt_offsets::Plan;
use pt_tags::{Memory, Message};
use pt_turn::Platform;

/// Verifies one more block, and returns whether it describes a turn that may follow. `last` has, by link, the last message taken.
pub(crate) fn verify_block(
    plan: &Plan,
    platforms: &mut [Platform],
    order: &mut Order,
    last: &mut [Option<Message>],
    tools: &mut Tools<'_>,
    block: &[u8],
) -> Result<bool, Memory>
    requires begun { (rows : ℕ → List Row) × (before : List Block)
        × AreVerified plan.now rows before order.old last.old platforms.old }
    ensures verified { (rows : ℕ → List Row) (before : List Block) (line : ℕ) →
        AreVerified plan.now rows before order.old last.old platforms.old →
        IfOk result (λ verified. verified ≡ true →
        AreVerified plan.now rows
        (before ++ record { line = line; text = block.now } ∷
        []) order.new last.new platforms.new) }
    ensures none { (rows : ℕ → List Row) (before : List Block) (line : ℕ) →
        AreVerified plan.now rows before order.old last.old platforms.old →
        IfOk result (λ verified. verified ≡ false →
        BlocksAreLawful plan.now.graph (level_of plan.now.ranks) rows
        (before ++ record { line = line; text = block.now } ∷ []) → ⊥) }
{
    let graph = plan.graph();
    if !read_hints(graph, block, &mut tools.hints)? {
        return Ok(false);
    }
    if !are_loggable(graph, &tools.hints) {
        return Ok(false);
    }
    let number = tools.hints.platform;
    let Some(entered) = order.entered(number) else {
        return Ok(false);
    };
    let platform = &mut platforms[number as usize];
    if !verify_turn(
        platform,
        &tools.hints,
        last,
        &mut tools.buffers,
        &mut tools.text,
        tools.blocks,
        block,
    )? {
        return Ok(false);
    }
    *order = entered.with_turn(quiet_count(platform.history(), tools.hints.count));
    Ok(true)
}
