//! The first line of a turn.

ghost use Rattle.std.specs.Prelude.{◌≡◌, ◌<◌, ◌^◌, ◌++◌, ◌∷◌, [], ℕ, IsSomeAnd, length};
ghost use Rattle.pt_types.specs.Lawful.{IsLawful};
ghost use Rattle.pt_types.specs.Lookups.{platform_name};
ghost use Rattle.pt_tables.specs.Log.{turn_line};
ghost use Rattle.pt_audit.specs.Parsing.Heads.{IsTurnHead};

use crate::parse::fields::cut;
use crate::parse::names::platform_named;
use crate::parse::numbers::number;
use pt_types::Graph;

/// What the first line of a turn says of it.
#[derive(Clone, Copy)]
pub(crate) struct Head {
    pub(crate) platform: u32,
    pub(crate) first: u64,
    pub(crate) last: u64,
    pub(crate) count: u64,
}

/// Reads the first line of a turn, without its line feed: `turn,PLATFORM,FIRST,LAST,COUNT`.
pub(crate) fn read_head(graph: &Graph, line: &[u8]) -> Option<Head>
    requires lawful { IsLawful graph.now }
    ensures { (p first last count : ℕ) → p < length graph.now.platforms → first < 2 ^ 64 →
        last < 2 ^ 64 → count < 2 ^ 64 →
        line.now ++ 10 ∷ [] ≡ turn_line (platform_name graph.now p) first last count →
        IsSomeAnd result (IsTurnHead p first last count) }
{
    let (_, rest) = cut(line, b',');
    let (platform, rest) = cut(rest, b',');
    let (first, rest) = cut(rest, b',');
    let (last, count) = cut(rest, b',');
    Some(Head {
        platform: platform_named(graph, platform)?,
        first: number(first)?,
        last: number(last)?,
        count: number(count)?,
    })
}
