//! All blocks of a log, verified.

ghost use Rattle.std.specs.Prelude.{◌≡◌, [], ℕ, IfOk, List, MatchOption};
ghost use Rattle.pt_types.specs.declared.rows.Row.{Row};
ghost use Rattle.pt_causality.specs.Ranked.{level_of};
ghost use Rattle.pt_audit.specs.Verifying.{AreVerified};
ghost use Rattle.pt_audit.specs.Verdicts.{StopsAt};

use crate::block::verify_block;
use crate::order::Order;
use crate::parse::Cursor;
use crate::turn::Tools;
use pt_offsets::Plan;
use pt_tags::{Memory, Message};
use pt_turn::Platform;

/// Verifies a log, block by block. Returns the line of the first block that describes no turn that may follow those before.
pub(crate) fn verify_blocks(
    plan: &Plan,
    platforms: &mut [Platform],
    order: &mut Order,
    last: &mut [Option<Message>],
    tools: &mut Tools<'_>,
    log: Cursor,
) -> Result<Option<u64>, Memory>
    requires begun { (rows : ℕ → List Row)
        × AreVerified plan.now rows [] order.old last.old platforms.old }
    ensures { (rows : ℕ → List Row) →
        AreVerified plan.now rows [] order.old last.old platforms.old →
        IfOk result (λ stop.
        MatchOption stop (AreVerified plan.now rows log.entry order.new last.new platforms.new)
        (λ line. StopsAt plan.now.graph (level_of plan.now.ranks) rows line log.entry)) }
{
    let mut rest = log;
    while let Some(block) = rest.next() {
        if !verify_block(plan, platforms, order, last, tools, block.text)? {
            return Ok(Some(block.line));
        }
    }
    Ok(None)
}
