//! All lines of a turn after its first.

ghost use Rattle.std.specs.Prelude.{◌≡◌, ◌<◌, ◌+◌, ◌^◌, IfOk, List, flat_map, length, map, true};
ghost use Rattle.pt_types.specs.Lawful.{IsLawful};
ghost use Rattle.pt_semantics.specs.Lists.{Each};
ghost use Rattle.pt_audit.specs.Parsing.Items.{IsLoggableItem, Item, entry_of, item_line, tally, with_entries};

use crate::parse::entries::read_entry;
use crate::parse::fields::cut;
use crate::parse::hints::Hints;
use pt_tags::Memory;
use pt_types::Graph;

/// Reads the lines of a turn after its first, and adds what they say to the hints. False for a text that is not of their
/// form.
pub(crate) fn read_entries(graph: &Graph, text: &[u8], hints: &mut Hints) -> Result<bool, Memory>
    requires lawful { IsLawful graph.now }
    requires room { hints.old.claims + length text.now < 2 ^ 64 }
    ensures { IfOk result
        (λ given. (items : List Item) → Each (IsLoggableItem graph.now) items →
        text.now ≡ flat_map (item_line graph.now) items →
        (given ≡ true) × (tally hints.new ≡ with_entries (tally hints.old) (map entry_of items))) }
{
    let mut rest = text;
    while !rest.is_empty() {
        let (line, more) = cut(rest, b'\n');
        let Some(entry) = read_entry(graph, line) else {
            return Ok(false);
        };
        hints.add(entry)?;
        rest = more;
    }
    Ok(true)
}
