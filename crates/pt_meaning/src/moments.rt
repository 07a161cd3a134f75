//! The tags of successive firings; a run of equal tags is stored once.

ghost use Rattle.std.specs.Prelude.{◌≡◌, ◌<◌, ◌-◌, IfOk, IsTrue, length, slice_index_or};
ghost use Rattle.pt_meaning.specs.Flat.{StandsAt, no_tag};

use pt_tags::{Memory, Tag};

/// The index of a tag in `tags`; the tag is appended unless it equals the last one.
pub(crate) fn moment_of(tags: &mut Vec<Tag>, tag: Tag) -> Result<u32, Memory>
    ensures { IfOk result (λ moment. StandsAt moment tag tags.old.items tags.new.items) }
{
    if is_last(tags.as_slice(), tag) {
        return number(tags.len() - 1);
    }
    let moment = number(tags.len())?;
    tags.push(tag)?;
    Ok(moment)
}

/// Whether the last of the tags is this one.
fn is_last(tags: &[Tag], tag: Tag) -> bool
    ensures { IsTrue result → (0 < length tags.now)
        × (slice_index_or tags.now (length tags.now - 1) no_tag ≡ tag) }
{
    match tags.last() {
        Some(last) => *last == tag,
        None => false,
    }
}

/// A count as a `u32`; `Memory` if 32 bits do not hold it.
pub(crate) fn number(count: usize) -> Result<u32, Memory>
    ensures { IfOk result (λ number. number ≡ count) }
{
    if count <= u32::MAX as usize {
        Ok(count as u32)
    } else {
        Err(Memory)
    }
}

/// The tag at an index.
pub(crate) fn tag_at(tags: &[Tag], moment: u32) -> Tag
    ensures { result ≡ slice_index_or tags.now moment no_tag }
{
    match tags.get(moment as usize) {
        Some(tag) => *tag,
        None => Tag { time: 0, step: 0 },
    }
}
