//! The least tag of each unit's events, by unit.

ghost use Rattle.std.specs.Prelude.{◌≡◌, ◌+◌, ◌*◌, ◌/◌, ◌<◌, ◌≤◌, ℕ, IfOk, IsSome, None, Some, true, false, length, replicate, slice_index_or, slice_set, if◌then◌else◌};
ghost use Rattle.pt_tags.specs.declared.tag.Tag.{Tag};
ghost use Rattle.pt_types.specs.declared.graph.Unit.{Unit};
ghost use Rattle.pt_semantics.specs.Units.{same_part};
ghost use Rattle.pt_queue.specs.Events.{unit_place};
ghost use Rattle.pt_queue.specs.Tagged.{FitsIn, IsFirstTag, IsOnlyTag, tag_in};
ghost use Rattle.pt_queue.specs.Marks.{AreMarks, IsWaitingAt, most_places, one_if, unit_with};
ghost use Rattle.pt_queue.specs.Scans.{sooner};

use crate::marks::{Span, first_from, is_only, span_of, without_word, word_at};
use crate::waiting::Waiting;
use pt_causality::{clear_bit, set_bit};
use pt_tags::{Memory, Tag, Time};
use pt_types::Unit;
use std::alloc::{AllocError, Global};
use std::marker::Model;

/// Up to this many units with events are few.
const FEW: usize = 8;

/// The place of a unit, eight for each actor: `8 * actor + group`.
pub fn place_of(unit: Unit) -> usize
    ensures { result ≡ 8 * unit.actor + unit.group }
{
    8 * unit.actor as usize + unit.group as usize
}

/// The unit with a place.
pub fn unit_at(place: usize) -> Unit
    requires { place < 64 + most_places }
    ensures { result ≡ unit_with place }
{
    Unit {
        actor: (place / 8) as u32,
        group: (place % 8) as u32,
    }
}

/// `count` places without a tag.
fn no_tags(alloc: Global, count: usize) -> Result<Vec<Option<Tag>>, AllocError>
    ensures { IfOk result (λ tags. tags.items ≡ replicate count None) }
{
    let mut tags = Vec::with_capacity(alloc, count)?;
    for _ in 0..count {
        tags.push(None)?;
    }
    Ok(tags)
}

/// Whether another tag doesn't lower the least tag so far.
fn is_least(so_far: Option<Tag>, tag: Tag) -> bool
    ensures stays { result ≡ true → sooner so_far tag ≡ so_far }
    ensures less { result ≡ false → sooner so_far tag ≡ Some tag }
{
    match so_far {
        None => false,
        Some(least) => !tag.is_before(least),
    }
}

/// Lowers the time of a word to this one, if it is greater.
#[inline(always)]
fn lower_time(times: &mut Vec<u64>, index: usize, time: Time)
    requires { index < length times.old.items }
    ensures here { slice_index_or times.new.items index 0 ≤ time }
    ensures all { (n : ℕ) → slice_index_or times.new.items n 0
        ≤ slice_index_or times.old.items n 0 }
    ensures len { length times.new.items ≡ length times.old.items }
{
    if time < times[index] {
        times[index] = time;
    }
}

/// The least tag of each unit's events, where it has events. Contracts see a list with the tag at each place: unit
/// `8 * actor + group`.
#[derive(Drop)]
pub struct LeastTags {
    tags: Vec<Option<Tag>>,
    /// A bit for each place, 64 in a word: it is set where there is a tag.
    marks: Vec<u64>,
    /// A bit for each two words of `marks`: it is set if one of them isn't 0. So a search passes over the others.
    summary: u64,
    /// For each word of `marks` a time in microseconds that no tag of its places is before. It can be less than the least of their
    /// times: setting a tag only lowers it, and it rises, to `u64::MAX`, when the last bit of the word is cleared.
    times: Vec<u64>,
    /// How many places have a tag; at most `most_places`, so it never wraps. No contract mentions it: it only says which way is
    /// faster.
    count: usize,
}

impl Model for LeastTags {
    ghost use Rattle.std.specs.Prelude.{List, Option};
    ghost use Rattle.pt_tags.specs.declared.tag.Tag.{Tag};
    ghost use Rattle.pt_queue.specs.Marks.{AreMarked, AreSummed};
    ghost use Rattle.pt_queue.specs.Tagged.{AreFloors};

    ghost Value = { List (Option Tag) };

    ghost view = { λ l. l.tags.items };

    ghost invariant = { λ l. AreMarked l.tags.items l.marks.items
        × AreSummed l.marks.items l.summary × AreFloors l.tags.items l.times.items };
}

impl LeastTags {
    /// `count` places without a tag.
    pub fn new(alloc: Global, count: usize) -> Result<LeastTags, Memory>
        requires { count ≤ most_places }
        ensures { IfOk result (λ tags. tags ≡ replicate count None) }
    {
        let tags = no_tags(alloc, count)?;
        let marks = vec![in alloc; 0u64; count / 64 + 1]?;
        let times = vec![in alloc; u64::MAX; count / 64 + 1]?;
        Ok(LeastTags {
            tags,
            marks,
            summary: 0,
            times,
            count: 0,
        })
    }

    /// The least tag of a unit's events; `None` if it has none, or no place.
    pub fn of(&self, unit: Unit) -> Option<Tag>
        ensures { result ≡ tag_in self.now unit }
    {
        if unit.group >= 8 {
            return None;
        }
        self.tags.get(place_of(unit)).copied().unwrap_or(None)
    }

    /// Sets the tag at a place.
    #[inline(always)]
    fn fill(&mut self, place: usize, tag: Tag)
        requires { place < length self.old }
        ensures { self.new ≡ slice_set self.old place (Some tag) }
    {
        let had = self.tags[place].is_some();
        self.tags[place] = Some(tag);
        lower_time(&mut self.times, place / 64, tag.time);
        if had {
            return;
        }
        set_bit(&mut self.marks, place);
        self.summary |= 1 << (place / 128);
        self.count = self.count.wrapping_add(1);
    }

    /// Removes the tag at a place, if there is one.
    #[inline(always)]
    fn clear(&mut self, place: usize)
        requires { place < length self.old }
        ensures { self.new ≡ slice_set self.old place None }
    {
        let had = self.tags[place].is_some();
        self.tags[place] = None;
        if !had {
            return;
        }
        let index = place / 64;
        self.count = self.count.wrapping_sub(1);
        clear_bit(&mut self.marks, place);
        if self.marks[index] != 0 {
            return;
        }
        self.times[index] = u64::MAX;
        self.summary = without_word(self.summary, self.marks.as_slice(), index);
    }

    /// Sets the tag at a place, or removes it.
    #[inline(always)]
    fn put(&mut self, place: usize, tag: Option<Tag>)
        requires { place < length self.old }
        ensures { self.new ≡ slice_set self.old place tag }
    {
        match tag {
            None => self.clear(place),
            Some(tag) => self.fill(place, tag),
        }
    }

    /// Sets the tag of a unit. A unit without a place can only have no tag.
    #[inline(always)]
    pub fn set(&mut self, unit: Unit, tag: Option<Tag>)
        requires { IsSome tag → FitsIn (length self.old) unit }
        ensures tags { (x : Unit) → tag_in self.new x
            ≡ (if same_part unit x then tag else tag_in self.old x) }
        ensures len { length self.new ≡ length self.old }
    {
        if unit.group >= 8 {
            return;
        }
        let place = place_of(unit);
        if place >= self.tags.len() {
            return;
        }
        self.put(place, tag);
    }

    /// Sets the tag of a unit to this one, if it has none or a greater one.
    pub fn lower(&mut self, unit: Unit, tag: Tag)
        requires { FitsIn (length self.old) unit }
        ensures tags { (x : Unit) → tag_in self.new x
            ≡ (if same_part unit x then sooner (tag_in self.old unit) tag else tag_in self.old x) }
        ensures len { length self.new ≡ length self.old }
    {
        if is_least(self.of(unit), tag) {
            return;
        }
        self.set(unit, Some(tag));
    }

    /// The unit with a place, with its tag, if it has one.
    #[inline(always)]
    fn waiting_at(&self, place: usize) -> Option<Waiting>
        requires { place < length self.now }
        ensures { IsWaitingAt self.now place result }
    {
        match self.tags[place] {
            None => None,
            Some(tag) => Some(Waiting {
                unit: unit_at(place),
                tag,
            }),
        }
    }

    /// The first unit that has a tag, of those whose place isn't before `from`.
    #[inline(always)]
    pub fn first_waiting(&self, from: usize) -> Option<Waiting>
        ensures { IsFirstTag self.now from result }
    {
        match first_from(self.marks.as_slice(), self.summary, from) {
            None => None,
            Some(place) => self.waiting_at(place),
        }
    }

    /// A time in microseconds that no tag with its place in this word is before.
    #[inline(always)]
    pub fn not_before(&self, word: usize) -> u64
        ensures { (u : Unit) (t : Tag) → tag_in self.now u ≡ Some t → unit_place u / 64 ≡ word →
            result ≤ t.time }
    {
        word_at(self.times.as_slice(), word)
    }

    /// Whether no other unit than this one has a tag. It says `false` of a unit without a place.
    pub fn is_only(&self, unit: Unit) -> bool
        ensures { result ≡ true → IsOnlyTag self.now unit }
    {
        if unit.group >= 8 {
            return false;
        }
        is_only(self.marks.as_slice(), self.summary, place_of(unit))
    }

    /// Whether more than a few units have a tag.
    pub fn are_many(&self) -> bool {
        self.count > FEW
    }

    /// A bit for each place, set where there is a tag.
    pub fn marks(&self) -> &[u64]
        ensures marks { AreMarks self.now result.now }
        ensures few { 64 * length result.now ≤ 64 + most_places }
    {
        self.marks.as_slice()
    }

    /// Words of `marks` outside of which no bit is set.
    pub fn span(&self) -> Span
        ensures { (n : ℕ) → one_if (slice_index_or self.now n None) ≡ 1 → (result.from ≤ n / 64)
            × (n / 64 < result.end) }
    {
        span_of(self.marks.as_slice(), self.summary)
    }
}
