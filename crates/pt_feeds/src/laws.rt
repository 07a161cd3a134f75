//! A theorem on what lines say.

ghost use Rattle.pt_feeds.specs.AsInFiles.{SaysAsInFiles};

/// Three fields say what they say in a sensor file.
pub fn says_as_in_files()
    ensures { SaysAsInFiles }
{}
