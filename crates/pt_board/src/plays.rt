//! The steps of a seat: each type names one, and says what the seat knows after it. No value of these types is made.
ghost use Rattle.pt_board.specs.Plays.{took_free, put_ready, with_load, tried, put_done, looked_done, put_free, gave_back, took_again};

use crate::rule::View;
use crate::table::Item;
use atomic_table::{Join, Play, Split};

/// The keeper takes the content of a free slot out: a load.
pub struct TakeFree;

impl Play<Item, View> for TakeFree {
    ghost then = { took_free };
}

/// The keeper puts a task in: the store of a ready word.
pub struct PutReady;

impl Play<Item, View> for PutReady {
    ghost then = { λ s m r n. put_ready s m n };
}

/// A hand checks whether a slot is ready: a load.
pub struct Look;

impl Play<Item, View> for Look {
    ghost then = { with_load };
}

/// A hand claims a ready slot: an exchange, won or lost.
pub struct Try;

impl Play<Item, View> for Try {
    ghost then = { tried };
}

/// A hand puts a result in: the store of a done word.
pub struct PutDone;

impl Play<Item, View> for PutDone {
    ghost then = { λ s m r n. put_done s m n };
}

/// The keeper checks whether a slot is done, and if so takes the result out: a load.
pub struct LookDone;

impl Play<Item, View> for LookDone {
    ghost then = { looked_done };
}

/// The keeper frees a slot: the store of a free word.
pub struct PutFree;

impl Play<Item, View> for PutFree {
    ghost then = { λ s m r n. put_free s m n };
}

/// A hand puts the content back after it read the task: a load.
pub struct GiveBack;

impl Play<Item, View> for GiveBack {
    ghost then = { gave_back };
}

/// A hand takes the content out before it writes the result: a load.
pub struct TakeAgain;

impl Play<Item, View> for TakeAgain {
    ghost then = { took_again };
}

/// A new hand, which has claimed nothing: a split of the keeper's seat.
pub struct NewHand;

impl Split<View> for NewHand {
    ghost use Rattle.pt_board.specs.Rule.{hand_first};

    ghost left = { λ v. v };

    ghost right = { λ v. hand_first v.graph };
}

/// A hand that leaves: a join to the keeper's seat.
pub struct Leaves;

impl Join<View> for Leaves {
    ghost use Rattle.std.specs.Prelude.{None};
    ghost use Rattle.pt_board.specs.Rule.{hand_first};

    ghost both = { λ v w. v };

    ghost spent = { hand_first None };
}
