//! One logged turn, made again.

ghost use Rattle.std.specs.Prelude.{◌≡◌, ◌<◌, ◌↔◌, ◌-◌, ◌^◌, IfOk, Some, false, length, option_map, slice_get, true};
ghost use Rattle.pt_semantics.specs.Turn.{Turn, is_quiet};
ghost use Rattle.pt_tables.specs.Log.{turn_lines};
ghost use Rattle.pt_turn.specs.Platforms.{state_at};
ghost use Rattle.pt_audit.specs.Parsing.Hints.{AreHints};
ghost use Rattle.pt_audit.specs.Remaking.Following.{CanFollow};
ghost use Rattle.pt_audit.specs.Remaking.Lasts.{AreLast, KeepOthers};
ghost use Rattle.pt_audit.specs.FromText.{HasMadeFromText, NoneFromText};
ghost use Rattle.pt_audit.specs.Verifying.{quiet_count};

use crate::matching::is_text_of;
use crate::parse::Hints;
use crate::remake::{TurnBuffers, remake_turn};
use pt_blocks::Blocks;
use pt_history::History;
use pt_tags::{Memory, Message};
use pt_turn::Platform;
use std::alloc::Global;

/// What serves all turns: the blocks, and memory that each turn uses again.
#[derive(Drop)]
pub(crate) struct Tools<'a> {
    pub blocks: &'a Blocks,
    pub hints: Hints,
    pub buffers: TurnBuffers,
    pub text: String,
}

impl<'a> Tools<'a> {
    /// With these blocks. Allocates nothing.
    pub fn new(alloc: Global, blocks: &'a Blocks) -> Tools<'a> {
        Tools {
            blocks,
            hints: Hints::new(alloc),
            buffers: TurnBuffers::new(alloc),
            text: String::new(alloc),
        }
    }
}

/// Makes the turn of this block, whose hints are given, and returns whether there is one that may follow.
pub(crate) fn verify_turn(
    platform: &mut Platform,
    hints: &Hints,
    last: &mut [Option<Message>],
    buffers: &mut TurnBuffers,
    text: &mut String,
    blocks: &Blocks,
    block: &[u8],
) -> Result<bool, Memory>
    requires named { hints.now.platform ≡ platform.old.number }
    requires last { AreLast platform.old.plan.graph platform.old.number
        (state_at platform.old).taken last.old }
    ensures made { IfOk result
        (λ made. made ≡ true → HasMadeFromText block.now hints.now platform.old platform.new) }
    ensures none { IfOk result
        (λ made. made ≡ false → NoneFromText block.now hints.now platform.old) }
    ensures last { IfOk result
        (λ made. made ≡ true →
        AreLast platform.old.plan.graph platform.old.number
        (state_at platform.new).taken last.new) }
    ensures others { IfOk result
        (λ made. made ≡ true →
        KeepOthers platform.old.plan.graph platform.old.number last.old last.new) }
{
    if !remake_turn(platform, hints, last, buffers, blocks)? {
        return Ok(false);
    }
    let graph = platform.plan().graph();
    let history = platform.history();
    if !is_counted(hints.last, hints.count, history.was_quiet()) {
        return Ok(false);
    }
    let same = is_text_of(text, graph, hints, history, block)?;
    Ok(same)
}

/// Whether a turn may have this count: one in which something happened counts once.
fn is_counted(last: u64, count: u64, quiet: bool) -> bool
    ensures fits { (last < 2 ^ 64) × (count < 2 ^ 64) }
    ensures counted { (result ≡ true) ↔ (quiet ≡ false → count ≡ 1) }
{
    quiet || count == 1
}

/// The count of the last recorded turn, if it is quiet; the count is given.
pub(crate) fn quiet_count(history: &History, count: u64) -> Option<u64>
    requires { 0 < length history.now.turns }
    ensures { (turn : Turn) →
        slice_get history.now.turns (length history.now.turns - 1) ≡ Some turn →
        result ≡ quiet_count (record turn { count = count }) }
{
    if history.was_quiet() {
        Some(count)
    } else {
        None
    }
}
