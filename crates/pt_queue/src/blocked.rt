//! Which of the units that have events hold up another unit.

ghost use Rattle.std.specs.Prelude.{◌≡◌, ◌≢◌, ◌+◌, ◌*◌, ◌/◌, ◌%◌, ◌<◌, ◌≤◌, ℕ, true, false, length, slice_index_or};
ghost use Rattle.std.specs.Int.{bit_at};
ghost use Rattle.std.specs.Int.RustNames.{bit_and};
ghost use Rattle.pt_types.specs.declared.graph.Unit.{Unit};
ghost use Rattle.pt_causality.specs.Before.{MayHave};
ghost use Rattle.pt_causality.specs.Delays.{HasAllBefore, least_of};
ghost use Rattle.pt_queue.specs.Events.{unit_place};
ghost use Rattle.pt_queue.specs.Tagged.{SomeHoldsUp, holds_up, unit_holds_up};
ghost use Rattle.pt_queue.specs.Marks.{IsHolder, IsHolderAmong, IsHolderIn, most_places};

use crate::events::reaches;
use crate::few_words::{are_few_words, is_held_in_few};
use crate::groups::{Groups, count_at};
use crate::holders::Holders;
use crate::least_tags::{LeastTags, place_of, unit_at};
use crate::marks::last_bit;
use crate::waiting::Waiting;
use pt_causality::Least;
use pt_tags::Tag;
use pt_types::Unit;

/// Whether a unit that has events differs from this one, and its least tag leads here at the tag or before.
///
/// The least tag is enough: the unit's later events lead here later.
fn other_holds_up(table: &[Groups], least: &Least, unit: Unit, tag: Tag, other: &Waiting) -> bool
    ensures { result ≡ holds_up table.now (least_of least.now) unit tag other.now }
{
    if tag.is_before(other.tag) || other.unit == unit {
        return false;
    }
    reaches(least.get(other.unit, unit), other.tag, tag)
        && other.unit.group < count_at(table, other.unit.actor)
}

/// As `other_holds_up`. Inlined, because the other unit is often this one itself.
#[inline(always)]
fn holds_up(table: &[Groups], least: &Least, unit: Unit, tag: Tag, other: &Waiting) -> bool
    ensures { result ≡ holds_up table.now (least_of least.now) unit tag other.now }
{
    if other.unit == unit {
        return false;
    }
    other_holds_up(table, least, unit, tag, other)
}

/// Whether `other` has events and holds up this unit.
fn unit_holds_up(
    table: &[Groups],
    tags: &LeastTags,
    unit: Unit,
    tag: Tag,
    least: &Least,
    other: Unit,
) -> bool
    ensures { result ≡ unit_holds_up table.now (least_of least.now) unit tag tags.now other }
{
    match tags.of(other) {
        None => false,
        Some(from) => holds_up(
            table,
            least,
            unit,
            tag,
            &Waiting {
                unit: other,
                tag: from,
            },
        ),
    }
}

/// The last unit that holds up this one, of those with a bit in `word`: bit `n` is that of the unit with place
/// `64 * index + n`. `None` if none of these holds it up.
///
/// It stays apart from the loop over all words, most of which are 0, so that this one is short.
#[inline(never)]
pub fn holder_in_word(
    table: &[Groups],
    tags: &LeastTags,
    unit: Unit,
    tag: Tag,
    least: &Least,
    index: usize,
    word: u64,
) -> Option<Unit>
    requires { 64 * index ≤ most_places }
    ensures { IsHolderIn table.now (least_of least.now) unit tag tags.now index word result }
{
    let mut left = word;
    while let Some(bit) = last_bit(left) {
        let other = unit_at(64 * index + bit as usize);
        if unit_holds_up(table, tags, unit, tag, least, other) {
            return Some(other);
        }
        left -= 1 << bit;
    }
    None
}

/// A word of `before`; all bits are set in a word past its end, since of the units there nothing is known.
pub fn word_before(before: &[u64], index: usize) -> u64
    ensures { (x : Unit) → MayHave before.now x → x.group < 8 → unit_place x / 64 ≡ index →
        bit_at result (unit_place x % 64) ≡ 1 }
{
    match before.get(index) {
        None => u64::MAX,
        Some(word) => *word,
    }
}

/// The number of words up to the last one, of those from number `from` up to number `end`, without that, where a bit is set
/// both in `marks` and in `before`; `from` if there is none. Words past the end of `before` are not looked at.
///
/// Most words share no bit, so this loop is apart, and short.
fn shared_end(marks: &[u64], before: &[u64], from: usize, end: usize) -> usize
    requires order { from ≤ end }
    requires marks { end ≤ length marks.now }
    ensures few { result ≤ end }
    ensures none { (n : ℕ) → from ≤ n → result ≤ n → n < end → (n < length before.now)
        × (bit_and (slice_index_or marks.now n 0) (slice_index_or before.now n 0) ≡ 0) }
{
    if end > before.len() {
        return end;
    }
    for index in (from..end).rev() {
        if marks[index] & before[index] != 0 {
            return index + 1;
        }
    }
    from
}

/// The bits that are set both in `marks` and in `before`, in any of the words from number `from` up to number `end`, without that.
///
/// It doesn't stop at the first such bit, so that one instruction joins several words.
#[inline(always)]
fn shared_bits(marks: &[u64], before: &[u64], from: usize, end: usize) -> u64
    requires marks { end ≤ length marks.now }
    requires before { end ≤ length before.now }
    ensures { (n i : ℕ) → from ≤ n → n < end → bit_at result i ≡ 0 →
        bit_at (bit_and (slice_index_or marks.now n 0) (slice_index_or before.now n 0)) i ≡ 0 }
{
    let mut shared = 0u64;
    for index in from..end {
        shared |= marks[index] & before[index];
    }
    shared
}

/// Whether the words from number `from` up to number `end`, without that, share no bit but that of this unit. If so, no other
/// unit holds it up.
///
/// Not inlined, so that its loops have all registers.
#[inline(never)]
fn shares_none(marks: &[u64], before: &[u64], from: usize, end: usize, unit: Unit) -> bool
    ensures group { result ≡ true → unit.group < 8 }
    ensures none { result ≡ true → (n : ℕ) → from ≤ n / 64 → n / 64 < end → n ≢ unit_place unit →
        (n / 64 < length before.now) × (bit_at
        (bit_and (slice_index_or marks.now (n / 64) 0) (slice_index_or before.now (n / 64) 0))
        (n % 64) ≡ 0) }
{
    let place = place_of(unit);
    let own = place / 64;
    if unit.group >= 8 {
        return false;
    }
    if own < from || own >= end {
        return false;
    }
    if end > before.len() || end > marks.len() {
        return false;
    }
    if shared_bits(marks, before, from, own) != 0 {
        return false;
    }
    if shared_bits(marks, before, own + 1, end) != 0 {
        return false;
    }
    let shared = marks[own] & before[own];
    if shared == 0 {
        return true;
    }
    shared == 1 << (place % 64)
}

/// A unit that holds up this one, of those with a bit in the words from number `from` up to number `end`, without that; the
/// last words come first. `None` if none of these holds it up. `before` has all units from which a path leads here.
fn holder_in_words(
    table: &[Groups],
    tags: &LeastTags,
    unit: Unit,
    tag: Tag,
    least: &Least,
    before: &[u64],
    from: usize,
    end: usize,
) -> Option<Unit>
    requires { HasAllBefore least.now unit before.now }
    ensures { IsHolderAmong table.now (least_of least.now) unit tag tags.now from end result }
{
    let marks = tags.marks();
    let last = end.min(marks.len());
    if last <= from {
        return None;
    }
    let mut left = shared_end(marks, before, from, last);
    while left > from {
        let index = left - 1;
        let word = marks[index] & word_before(before, index);
        let found = holder_in_word(table, tags, unit, tag, least, index, word);
        if found.is_some() {
            return found;
        }
        left = shared_end(marks, before, from, index);
    }
    None
}

/// How many words to search first: those up to the word of this unit, or all if there is no such unit.
fn words_up_to(near: Option<Unit>, words: usize) -> usize {
    match near {
        None => words,
        Some(unit) => place_of(unit) / 64 + 1,
    }
}

/// Whether the next holder may well be in the word of the unit `near`: a unit there has events and a path to this one. The
/// word of this unit itself doesn't count.
fn is_near(marks: &[u64], before: &[u64], unit: Unit, near: Option<Unit>) -> bool {
    let Some(near) = near else {
        return false;
    };
    let index = place_of(near) / 64;
    if index == place_of(unit) / 64 {
        return false;
    }
    match marks.get(index) {
        None => false,
        Some(word) => *word & word_before(before, index) != 0,
    }
}

/// A unit that holds up this one, by the bits of all units that have events; `None` if there is none. `before` has all units
/// from which a path leads here.
///
/// Often there is none, which a first pass over the words finds, unless there may well be one near. Else it begins at the
/// word of the unit `near`, where the next holder often is, and comes to the words behind that one last.
fn holder_marked(
    table: &[Groups],
    tags: &LeastTags,
    unit: Unit,
    tag: Tag,
    least: &Least,
    before: &[u64],
    near: Option<Unit>,
) -> Option<Unit>
    requires { HasAllBefore least.now unit before.now }
    ensures { IsHolder table.now (least_of least.now) unit tag tags.now result }
{
    let marks = tags.marks();
    let span = tags.span();
    if !is_near(marks, before, unit, near)
        && shares_none(marks, before, span.from, span.end, unit)
    {
        return None;
    }
    let middle = words_up_to(near, span.end).max(span.from);
    let found = holder_in_words(table, tags, unit, tag, least, before, span.from, middle);
    if found.is_some() {
        return found;
    }
    holder_in_words(table, tags, unit, tag, least, before, middle, span.end)
}

/// A unit that has events and holds up this one; `None` if there is none.
fn holder(
    table: &[Groups],
    tags: &LeastTags,
    holders: &Holders,
    unit: Unit,
    tag: Tag,
    least: &Least,
) -> Option<Unit>
    ensures { IsHolder table.now (least_of least.now) unit tag tags.now result }
{
    let near = holders.near(unit);
    match least.before(unit) {
        None => holder_marked(table, tags, unit, tag, least, &[], near),
        Some(before) => holder_marked(table, tags, unit, tag, least, before, near),
    }
}

/// Whether the unit that took the place of this one's last holder holds it up. If so, that is remembered.
fn is_held_by_successor(
    table: &[Groups],
    tags: &LeastTags,
    holders: &Holders,
    unit: Unit,
    tag: Tag,
    least: &Least,
    last: Unit,
) -> bool
    ensures { result ≡ true → SomeHoldsUp table.now (least_of least.now) unit tag tags.now }
{
    match holders.successor(last) {
        None => false,
        Some(next) => {
            if !unit_holds_up(table, tags, unit, tag, least, next) {
                return false;
            }
            holders.keep(unit, next);
            true
        }
    }
}

/// Whether the unit that last held up this one still does, or else the one that took its place.
fn is_held_still(
    table: &[Groups],
    tags: &LeastTags,
    holders: &Holders,
    unit: Unit,
    tag: Tag,
    least: &Least,
) -> bool
    ensures { result ≡ true → SomeHoldsUp table.now (least_of least.now) unit tag tags.now }
{
    match holders.of(unit) {
        None => false,
        Some(last) => {
            if unit_holds_up(table, tags, unit, tag, least, last) {
                return true;
            }
            is_held_by_successor(table, tags, holders, unit, tag, least, last)
        }
    }
}

/// Whether a unit that has events holds up this one.
///
/// Where the bits of all units are more than a few words, the unit that held it up last is tried first, and one found by a search
/// is remembered.
pub fn is_blocked(
    table: &[Groups],
    tags: &LeastTags,
    holders: &Holders,
    unit: Unit,
    tag: Tag,
    least: &Least,
) -> bool
    ensures held { result ≡ true → SomeHoldsUp table.now (least_of least.now) unit tag tags.now }
    ensures free { result ≡ false → (x : Unit) →
        unit_holds_up table.now (least_of least.now) unit tag tags.now x ≡ false }
{
    if are_few_words(tags) {
        return is_held_in_few(table, tags, unit, tag, least);
    }
    if is_held_still(table, tags, holders, unit, tag, least) {
        return true;
    }
    match holder(table, tags, holders, unit, tag, least) {
        None => false,
        Some(holder) => {
            holders.keep(unit, holder);
            true
        }
    }
}
