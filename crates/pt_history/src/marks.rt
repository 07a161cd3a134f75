//! Claims without their inputs and their states, stored flat.

ghost use Rattle.std.specs.Prelude.{◌≡◌, ◌+◌, ◌<◌, ◌≤◌, ◌++◌, ◌∷◌, [], OnOk, Some, length, slice_get, slice_index_or, vec_len, vec_capacity};
ghost use Rattle.pt_history.specs.Marks.{mark_numbers};

use crate::claims::Mark;
use crate::pieces::widened;
use crate::repeats::Repeats;
use pt_tags::{Memory, Tag};
use std::alloc::Global;
use std::marker::Model;

/// A list of marks, and room reserved for more. Contracts see `items` and `spare`.
///
/// The number of a claim is its index, in each history that a platform makes. So numbers are stored only from the first
/// one on that is another: the numbers 0, 1, 7 and 8 are stored as 7 and 8. Neighbouring claims mostly have the same tag,
/// which is stored once. So a mark mostly takes 4 bytes and a few bits, and 16 bytes more where the tag is another one than
/// before.
#[derive(Drop)]
pub(crate) struct Marks {
    tags: Repeats<Tag>,
    actors: Vec<u32>,
    /// The numbers of the last marks.
    numbers: Vec<u64>,
    spare: usize,
}

impl Model for Marks {
    ghost use Rattle.std.specs.Prelude.{length};
    ghost use Rattle.pt_history.specs.declared.claims.Mark.{Mark};
    ghost use Rattle.pt_history.specs.Indices.{RoomyItems};
    ghost use Rattle.pt_history.specs.Marks.{marks_of, mark_numbers};
    ghost use Rattle.pt_history.specs.MarksWhole.{AreFlatMarks};

    ghost Value = { RoomyItems Mark };

    ghost view = { λ m. record {
      items = marks_of m.tags.items m.actors.items
          (mark_numbers (length m.tags.items) m.numbers.items);
      spare = m.spare;
    } };

    ghost invariant = { AreFlatMarks };
}

impl Marks {
    /// No marks and no room.
    pub fn new(alloc: Global) -> Marks
        ensures items { result.items ≡ [] }
        ensures spare { result.spare ≡ 0 }
    {
        Marks {
            tags: Repeats::new(alloc),
            actors: Vec::new(alloc),
            numbers: Vec::new(alloc),
            spare: 0,
        }
    }

    /// Reserves room for at least `marks` more marks. It fails if memory runs out, or if the number of different tags could
    /// reach 2^32.
    pub fn reserve(&mut self, marks: usize) -> Result<(), Memory>
        ensures items { self.new.items ≡ self.old.items }
        ensures kept { self.old.spare ≤ self.new.spare }
        ensures room { OnOk result (marks ≤ self.new.spare) }
    {
        self.tags.reserve(marks)?;
        widened(&mut self.actors, self.spare, marks)?;
        widened(&mut self.numbers, self.spare, marks)?;
        self.spare = self.spare.max(marks);
        Ok(())
    }

    /// Appends a mark. Allocates nothing.
    pub fn add(&mut self, mark: Mark)
        requires { 0 < self.old.spare }
        ensures items { self.new.items ≡ self.old.items ++ mark ∷ [] }
        ensures room { self.new.spare + 1 ≡ self.old.spare }
    {
        store_number(&mut self.numbers, self.tags.len(), mark.number);
        store_tag(&mut self.tags, mark.tag);
        self.actors.push_reserved(mark.actor);
        self.spare -= 1;
    }

    /// The number of marks.
    pub fn len(&self) -> usize
        ensures { result ≡ length self.now.items }
    {
        self.tags.len()
    }

    /// Mark `index`, counted from 0.
    pub fn at(&self, index: usize) -> Mark
        requires { index < length self.now.items }
        ensures { slice_get self.now.items index ≡ Some result }
    {
        Mark {
            tag: self.tags.get(index),
            number: number_at(self.numbers.as_slice(), self.tags.len(), index),
            actor: self.actors[index],
        }
    }
}

/// Appends a tag. That one which equals the last is only counted saves memory.
#[inline(always)]
fn store_tag(tags: &mut Repeats<Tag>, tag: Tag)
    requires { 0 < tags.old.spare }
    ensures items { tags.new.items ≡ tags.old.items ++ tag ∷ [] }
    ensures room { tags.new.spare + 1 ≡ tags.old.spare }
{
    if let Some(last) = tags.last() {
        if last == tag {
            tags.again();
            return;
        }
    }
    tags.push(tag);
}

/// Appends the number of a mark before which there are `count`, unless it is its index and so are all before it.
fn store_number(numbers: &mut Vec<u64>, count: usize, number: u64)
    requires room { vec_len numbers.old < vec_capacity numbers.old }
    requires few { length numbers.old.items ≤ count }
    ensures numbers { mark_numbers (count + 1) numbers.new.items
        ≡ mark_numbers count numbers.old.items ++ number ∷ [] }
    ensures few { length numbers.new.items ≤ count + 1 }
    ensures one { vec_len numbers.new ≤ vec_len numbers.old + 1 }
    ensures room { vec_capacity numbers.old ≤ vec_capacity numbers.new }
{
    if numbers.is_empty() && number == count as u64 {
        return;
    }
    numbers.push_reserved(number);
}

/// The number of mark `index` of `count` marks, of which the last numbers are stored: mostly none.
#[inline(always)]
fn number_at(numbers: &[u64], count: usize, index: usize) -> u64
    requires few { length numbers.now ≤ count }
    requires inside { index < count }
    ensures { result ≡ slice_index_or (mark_numbers count numbers.now) index 0 }
{
    if numbers.is_empty() {
        return index as u64;
    }
    found_number(numbers, count, index)
}

/// Does the same as `number_at`, where numbers are stored. Not inlined, since this is rare.
#[inline(never)]
fn found_number(numbers: &[u64], count: usize, index: usize) -> u64
    requires few { length numbers.now ≤ count }
    requires inside { index < count }
    ensures { result ≡ slice_index_or (mark_numbers count numbers.now) index 0 }
{
    let in_order = count - numbers.len();
    if index < in_order {
        index as u64
    } else {
        numbers[index - in_order]
    }
}
