//! Whether hints can be those of a turn, and whether a turn has the text that it was read from.

ghost use Rattle.std.specs.Prelude.{◌≡◌, ◌<◌, ◌≤◌, ◌↔◌, ◌-◌, ◌^◌, ◌++◌, ℕ, IfOk, Some, false, length, slice_get, true};
ghost use Rattle.pt_types.specs.Lawful.{IsLawful};
ghost use Rattle.pt_types.specs.Lookups.{platform_name};
ghost use Rattle.pt_semantics.specs.Lists.{Each};
ghost use Rattle.pt_semantics.specs.Turn.{Turn};
ghost use Rattle.pt_tables.specs.Log.{list_lines, turn_line};
ghost use Rattle.pt_audit.specs.Parsing.Hints.{AreHints, IsLoggable, IsLoggableOn};

use crate::parse::Hints;
use pt_history::History;
use pt_tables::{holds, push_lists, push_turn_line};
use pt_types::{Graph, OnLink};
use std::alloc::AllocError;

/// Whether the hints are of a platform of the graph, with messages on its links alone.
pub(crate) fn are_loggable(graph: &Graph, hints: &Hints) -> bool
    ensures platform { result ≡ true → hints.now.platform < length graph.now.platforms }
    ensures yes { result ≡ true → (p : ℕ) (turn : Turn) → AreHints p turn hints.now →
        IsLoggable graph.now p turn }
    ensures no { result ≡ false → (p : ℕ) (turn : Turn) → AreHints p turn hints.now →
        IsLoggable graph.now p turn → ⊥ }
{
    numbers_fit(hints.first, hints.last, hints.count);
    all_fit(hints.posts.as_slice());
    if hints.platform as usize >= graph.platforms.as_slice().len() {
        return false;
    }
    if !are_on_links(graph, hints.taken.as_slice()) {
        return false;
    }
    are_on_links(graph, hints.sent.as_slice())
}

/// That 64 bits hold these numbers, as their types say.
fn numbers_fit(first: u64, last: u64, count: u64)
    ensures { (first < 2 ^ 64) × (last < 2 ^ 64) × (count < 2 ^ 64) }
{}

/// That 64 bits hold each of these numbers, as their type says.
fn all_fit(numbers: &[u64])
    ensures { Each (λ n. n < 2 ^ 64) numbers.now }
{}

/// Whether each of these messages is on a link of the graph.
fn are_on_links(graph: &Graph, messages: &[OnLink]) -> bool
    ensures { (result ≡ true) ↔ Each (IsLoggableOn graph.now) messages.now }
{
    let links = graph.links.as_slice().len();
    for message in messages {
        if message.link as usize >= links {
            return false;
        }
        holds(message.message);
    }
    true
}

/// Whether the last recorded turn, with the readings and the count of the hints, has this text. `text` is memory to print in.
pub(crate) fn is_text_of(
    text: &mut String,
    graph: &Graph,
    hints: &Hints,
    history: &History,
    block: &[u8],
) -> Result<bool, AllocError>
    requires lawful { IsLawful graph.now }
    requires some { 0 < length history.now.turns }
    ensures { (turn : Turn) →
        slice_get history.now.turns (length history.now.turns - 1) ≡ Some turn →
        IfOk result (λ same.
        (same ≡ true) ↔ (block.now ≡ turn_line
        (platform_name graph.now hints.now.platform) hints.now.first hints.now.last hints.now.count
        ++ list_lines graph.now turn)) }
{
    text.clear();
    push_turn_line(
        text,
        graph.platform_name(hints.platform),
        hints.first,
        hints.last,
        hints.count,
    )?;
    push_lists(text, graph, history, history.turns() - 1)?;
    Ok(text.as_bytes() == block)
}
