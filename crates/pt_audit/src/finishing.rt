//! The verdict after all turns of a log.

ghost use Rattle.std.specs.Prelude.{◌≡◌, ◌<◌, ℕ, IfOk, MatchOption, Some, length, slice_get};
ghost use Rattle.pt_types.specs.Lawful.{IsLawful};
ghost use Rattle.pt_turn.specs.Platforms.{PlatformView};
ghost use Rattle.pt_audit.specs.Finishing.{AreAtEnd, IsAtEnd, IsFirstOpen, IsFinalVerdict};

use crate::linking::first_unlinked;
use crate::verdict::Verdict;
use pt_tags::Memory;
use pt_turn::Platform;
use pt_types::Graph;
use std::alloc::Global;

/// The verdict if the verification stopped at this line, or else on the platforms, which have made all turns of the log.
pub(crate) fn verdict_after(
    alloc: Global,
    graph: &Graph,
    platforms: &[Platform],
    stop: Option<u64>,
) -> Result<Verdict, Memory>
    requires lawful { IsLawful graph.now }
    requires all { length platforms.now ≡ length graph.now.platforms }
    ensures { IfOk result
        (λ verdict. MatchOption stop (IsFinalVerdict graph.now platforms.now verdict)
        (λ line. verdict ≡ Verdict.Turn line)) }
{
    match stop {
        Some(line) => Ok(Verdict::Turn { line }),
        None => verdict_of(alloc, graph, platforms),
    }
}

/// The verdict on platforms that have made all turns of a log.
fn verdict_of(alloc: Global, graph: &Graph, platforms: &[Platform]) -> Result<Verdict, Memory>
    requires lawful { IsLawful graph.now }
    requires all { length platforms.now ≡ length graph.now.platforms }
    ensures { IfOk result (IsFinalVerdict graph.now platforms.now) }
{
    if let Some(platform) = first_unfinished(platforms) {
        return Ok(Verdict::Unfinished { platform });
    }
    match first_unlinked(alloc, graph, platforms)? {
        Some(link) => Ok(Verdict::Unlinked { link }),
        None => Ok(Verdict::Fine),
    }
}

/// The number of the first platform that is not finished.
fn first_unfinished(platforms: &[Platform]) -> Option<u32>
    ensures { MatchOption result (AreAtEnd platforms.now)
        (λ number. IsFirstOpen platforms.now number) }
{
    for i in 0..platforms.len() {
        if !platforms[i].finished() {
            return Some(platforms[i].number());
        }
    }
    None
}
