//! Which of the units that have events hold up another unit, where the bits of all units are a few words.

ghost use Rattle.std.specs.Prelude.{◌≡◌, ◌≢◌, ◌+◌, ◌*◌, ◌<◌, ◌≤◌, ℕ, true, false};
ghost use Rattle.std.specs.Int.{bit_at};
ghost use Rattle.pt_types.specs.declared.graph.Unit.{Unit};
ghost use Rattle.pt_causality.specs.Delays.{HasAllBefore, least_of};
ghost use Rattle.pt_queue.specs.Tagged.{SomeHoldsUp, unit_holds_up};
ghost use Rattle.pt_queue.specs.Marks.{IsHolder, IsHolderIn, most_places, unit_with};

use crate::blocked::{holder_in_word, word_before};
use crate::groups::Groups;
use crate::least_tags::{LeastTags, place_of};
use pt_causality::Least;
use pt_tags::Tag;
use pt_types::Unit;

/// Up to this many words are a few.
const FEW_WORDS: usize = 4;

/// Whether the bits of all units are a few words. To look at all of these takes less than to ask first which unit held up
/// another one last.
#[inline(always)]
pub fn are_few_words(tags: &LeastTags) -> bool {
    tags.marks().len() <= FEW_WORDS
}

/// The bits of a word, without that of a unit.
#[inline(always)]
fn without_own(word: u64, index: usize, unit: Unit) -> u64
    ensures { (i : ℕ) → i < 64 → unit_with (64 * index + i) ≢ unit → bit_at word i ≡ 1 →
        bit_at result i ≡ 1 }
{
    let place = place_of(unit);
    if unit.group >= 8 || place / 64 != index {
        return word;
    }
    word & !(1 << (place % 64))
}

/// As `holder_in_word`. Mostly no bit but that of the unit itself is set.
#[inline(always)]
fn other_in_word(
    table: &[Groups],
    tags: &LeastTags,
    unit: Unit,
    tag: Tag,
    least: &Least,
    index: usize,
    word: u64,
) -> Option<Unit>
    requires { 64 * index ≤ most_places }
    ensures { IsHolderIn table.now (least_of least.now) unit tag tags.now index word result }
{
    let others = without_own(word, index, unit);
    if others == 0 {
        return None;
    }
    holder_in_word(table, tags, unit, tag, least, index, others)
}

/// A unit that holds up this one; `None` if there is none. `before` has all units from which a path leads here.
fn holder_in_few(
    table: &[Groups],
    tags: &LeastTags,
    unit: Unit,
    tag: Tag,
    least: &Least,
    before: &[u64],
) -> Option<Unit>
    requires { HasAllBefore least.now unit before.now }
    ensures { IsHolder table.now (least_of least.now) unit tag tags.now result }
{
    let marks = tags.marks();
    let mut left = marks.len();
    while left > 0 {
        let index = left - 1;
        let word = marks[index] & word_before(before, index);
        let found = other_in_word(table, tags, unit, tag, least, index, word);
        if found.is_some() {
            return found;
        }
        left = index;
    }
    None
}

/// Whether a unit that has events holds up this one. It asks every word of bits.
pub fn is_held_in_few(
    table: &[Groups],
    tags: &LeastTags,
    unit: Unit,
    tag: Tag,
    least: &Least,
) -> bool
    ensures held { result ≡ true → SomeHoldsUp table.now (least_of least.now) unit tag tags.now }
    ensures free { result ≡ false → (x : Unit) →
        unit_holds_up table.now (least_of least.now) unit tag tags.now x ≡ false }
{
    let holder = match least.before(unit) {
        None => holder_in_few(table, tags, unit, tag, least, &[]),
        Some(before) => holder_in_few(table, tags, unit, tag, least, before),
    };
    holder.is_some()
}
