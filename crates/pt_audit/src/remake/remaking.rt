//! A turn from its hints.

ghost use Rattle.std.specs.Prelude.{◌≡◌, ◌++◌, IfOk, false, true};
ghost use Rattle.pt_semantics.specs.Closing.{on_link};
ghost use Rattle.pt_turn.specs.Platforms.{state_at};
ghost use Rattle.pt_audit.specs.Remaking.Lasts.{AreLast, KeepOthers};
ghost use Rattle.pt_audit.specs.Remaking.Remade.{HasRemade, IsOnly, NoneFollows};
ghost use Rattle.pt_audit.specs.Remaking.Steps.{HasMade};

use crate::parse::Hints;
use crate::remake::coming::may_come;
use crate::remake::form::is_in_form;
use crate::remake::posting::fire_claims;
use crate::remake::sending::send_all;
use crate::remake::turning::{has_counts, make_turn};
use pt_actors::{Done, Tasks};
use pt_blocks::Blocks;
use pt_tags::{Memory, Message};
use pt_turn::Platform;
use std::alloc::Global;

/// The results and the tasks of the current turn. All turns reuse its memory.
#[derive(Drop)]
pub struct TurnBuffers {
    pub(crate) dones: Vec<Done>,
    pub(crate) tasks: Tasks,
}

impl TurnBuffers {
    /// Empty. Allocates nothing.
    pub fn new(alloc: Global) -> TurnBuffers {
        TurnBuffers {
            dones: Vec::new(alloc),
            tasks: Tasks::new(alloc),
        }
    }
}

/// Makes the turn that has these hints, and returns whether there is one. The platform records it as one turn at its last
/// reading. `last` has the last message taken on each link; those of the links that lead to this platform are updated.
///
/// The hints leave out the rows, and the tags and actors of the claims, and a count above 1 needs a quiet turn: the caller
/// compares these. If it returns `false`, or runs out of memory, the platform and `last` may be left anywhere, and no turn
/// may follow.
pub fn remake_turn(
    platform: &mut Platform,
    hints: &Hints,
    last: &mut [Option<Message>],
    buffers: &mut TurnBuffers,
    blocks: &Blocks,
) -> Result<bool, Memory>
    requires named { hints.now.platform ≡ platform.old.number }
    requires last { AreLast platform.old.plan.graph platform.old.number
        (state_at platform.old).taken last.old }
    ensures made { IfOk result
        (λ made. made ≡ true → HasRemade hints.now platform.old platform.new) }
    ensures one { IfOk result (λ made. made ≡ true → IsOnly hints.now platform.old platform.new) }
    ensures never { IfOk result (λ made. made ≡ false → NoneFollows hints.now platform.old) }
    ensures last { IfOk result
        (λ made. made ≡ true →
        AreLast platform.old.plan.graph platform.old.number
        (state_at platform.new).taken last.new) }
    ensures others { IfOk result
        (λ made. made ≡ true →
        KeepOthers platform.old.plan.graph platform.old.number last.old last.new) }
{
    if !make_again(platform, hints, last, buffers, blocks)? {
        return Ok(false);
    }
    if !has_counts(platform.history(), hints) {
        return Ok(false);
    }
    Ok(send_all(platform, hints.sent.as_slice()))
}

/// Makes a turn from these hints, without its sent messages, and returns whether there can be one. Whether it has the counts of
/// the hints is not looked at.
fn make_again(
    platform: &mut Platform,
    hints: &Hints,
    last: &mut [Option<Message>],
    buffers: &mut TurnBuffers,
    blocks: &Blocks,
) -> Result<bool, Memory>
    requires named { hints.now.platform ≡ platform.old.number }
    requires last { AreLast platform.old.plan.graph platform.old.number
        (state_at platform.old).taken last.old }
    ensures made { IfOk result (λ can. can ≡ true → HasMade hints.now platform.old platform.new) }
    ensures never { IfOk result (λ can. can ≡ false → NoneFollows hints.now platform.old) }
    ensures last { IfOk result
        (λ can. can ≡ true →
        AreLast platform.old.plan.graph platform.old.number
        (λ l. (state_at platform.old).taken l ++ on_link l hints.now.taken.items) last.new) }
    ensures others { IfOk result
        (λ can. can ≡ true →
        KeepOthers platform.old.plan.graph platform.old.number last.old last.new) }
{
    if platform.fault().is_some() {
        return Ok(false);
    }
    if !is_in_form(platform.reading(), hints) {
        return Ok(false);
    }
    if !may_come(platform, hints.taken.as_slice(), last) {
        return Ok(false);
    }
    if !fire_claims(platform, hints.posts.as_slice(), blocks, &mut buffers.dones)? {
        return Ok(false);
    }
    make_turn(
        platform,
        hints,
        buffers.dones.as_slice(),
        &mut buffers.tasks,
    )?;
    Ok(true)
}
