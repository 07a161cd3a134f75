//! Theorems about platforms.

ghost use Rattle.pt_turn.specs.Laws.{PlatformsMove, PlatformsWait};

/// At its next reading or later, a platform does something, once all results are posted and all messages are sent.
pub fn platforms_move()
    ensures { PlatformsMove }
{}

/// Before its next reading, a platform has nothing to do.
pub fn platforms_wait()
    ensures { PlatformsWait }
{}
