//! What the lines of a log are written with.

use crate::claim_end::ClaimEnd;
use crate::line::LineBuffer;

/// What the lines of a log are written with. It is used again for each line, since to make it costs time.
#[derive(Drop)]
pub(crate) struct Pen {
    /// The line that is being written.
    pub line: LineBuffer,
    /// The end of the last claim's line.
    pub end: ClaimEnd,
}

impl Pen {
    /// A pen that has written nothing.
    pub(crate) fn new() -> Pen {
        Pen {
            line: LineBuffer::empty(),
            end: ClaimEnd::new(),
        }
    }
}
