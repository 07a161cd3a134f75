//! Theorems on runs over rows that come later.

ghost use Rattle.pt_live_laws.specs.Between.{GoingGrows, SoundGrows};
ghost use Rattle.pt_live_laws.specs.Meant.{LiveIsMeant};
ghost use Rattle.pt_live_laws.specs.Written.{LinesInOrder};

/// The visits so far are the same visits over more rows that are still to come.
pub fn going_grows()
    ensures { GoingGrows }
{}

/// And what is sound stays sound.
pub fn sound_grows()
    ensures { SoundGrows }
{}

/// What a live run writes of an actor is in the order in which the actor's platform claimed it.
pub fn lines_in_order()
    ensures { LinesInOrder }
{}

/// The claims of a live run that finished are those of the meaning of the rows that it was given, and each actor's lines were written
/// in the order of its claims.
pub fn live_is_meant()
    ensures { LiveIsMeant }
{}
