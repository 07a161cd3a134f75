//! The end of a claim's line, which many claims have in common.

ghost use Rattle.std.specs.Prelude.{◌≡◌, ◌≤◌, length};
ghost use Rattle.pt_tables.specs.Log.{claim_end};

use crate::line::LineBuffer;
use pt_tags::Tag;
use std::marker::Model;

/// The end of the line of a claim with some tag: `,TIME,STEP`. Most claims have the tag of the claim before, so that this end is
/// copied as a whole. Contracts see the tag.
#[derive(Drop)]
pub(crate) struct ClaimEnd {
    tag: Tag,
    line: LineBuffer,
}

impl Model for ClaimEnd {
    ghost use Rattle.std.specs.Prelude.{◌≡◌, ◌≤◌, length};
    ghost use Rattle.pt_tags.specs.declared.tag.Tag.{Tag};
    ghost use Rattle.pt_tables.specs.Log.{claim_end};

    ghost Value = { Tag };

    ghost view = { λ e. e.tag };

    ghost invariant = { λ e. (e.line ≡ claim_end e.tag) × (length e.line ≤ 43) };
}

impl ClaimEnd {
    /// The end for tag 0.0.
    pub(crate) fn new() -> ClaimEnd {
        let tag = Tag { time: 0, step: 0 };
        let mut line = LineBuffer::empty();
        write_claim_end(&mut line, tag);
        ClaimEnd { tag, line }
    }

    /// Becomes the end for a tag.
    #[inline(always)]
    pub(crate) fn renew(&mut self, tag: Tag)
        ensures { self.new ≡ tag }
    {
        if self.tag.time != tag.time || self.tag.step != tag.step {
            self.tag = tag;
            write_claim_end(&mut self.line, tag);
        }
    }

    /// The end, as a line.
    #[inline(always)]
    pub(crate) fn line(&self) -> &LineBuffer
        ensures line { result.now ≡ claim_end self.now }
        ensures length { length result.now ≤ 43 }
    {
        &self.line
    }
}

/// Writes the end for a tag.
#[inline(always)]
fn write_claim_end(line: &mut LineBuffer, tag: Tag)
    ensures line { line.new ≡ claim_end tag }
    ensures length { length line.new ≤ 43 }
{
    line.end();
    line.field(tag.step);
    line.field(tag.time);
}
