//! A unit that has events, with its least tag.

use pt_tags::Tag;
use pt_types::Unit;

/// A unit that has events, and the least of their tags.
#[derive(Clone, Copy, Debug, PartialEq, Eq)]
pub struct Waiting {
    pub unit: Unit,
    pub tag: Tag,
}

impl Default for Waiting {
    fn default() -> Waiting {
        Waiting {
            unit: Unit { actor: 0, group: 0 },
            tag: Tag { time: 0, step: 0 },
        }
    }
}
