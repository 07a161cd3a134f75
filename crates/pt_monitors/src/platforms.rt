//! The misses of platforms.

ghost use Rattle.std.specs.Prelude.{◌≡◌, ◌++◌, IfOk, OnOk, flat_map};
ghost use Rattle.pt_monitors.specs.Platforms.{missed_by};

use crate::turns::missed_until;
use pt_history::Miss;
use pt_tags::Memory;
use pt_turn::Platform;
use std::alloc::Global;

/// All misses of some platforms, each with the graph of its plan: platform by platform, turn by turn, and in a turn the
/// results before the messages.
pub fn missed(alloc: Global, platforms: &[Platform]) -> Result<Vec<Miss>, Memory>
    ensures { IfOk result (λ misses. misses.items ≡ flat_map missed_by platforms.now) }
{
    let mut misses = Vec::new(alloc);
    for platform in platforms {
        missed_by(platform, &mut misses)?;
    }
    Ok(misses)
}

/// Appends the misses of a platform. Its readings never fall, so no turn ends after its reading.
fn missed_by(platform: &Platform, misses: &mut Vec<Miss>) -> Result<(), Memory>
    ensures { OnOk result (misses.new.items ≡ misses.old.items ++ missed_by platform.now) }
{
    let graph = platform.plan().graph();
    let history = platform.history();
    missed_until(graph, history, platform.reading(), misses)
}
