//! A theorem about the order of linked platforms.

ghost use Rattle.pt_workers.specs.LinkEnds.Numbered.{NumberedInOrder};

/// The linked platforms that a threaded run returns are in the order that settling requires.
pub fn numbered_are_in_order()
    ensures { NumberedInOrder }
{}
