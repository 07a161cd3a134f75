//! The rule of a link: what was sent is what was taken and then what the queue holds.
use crossbeam_queue::protocol::{Join, Lesson, Outcome, Protocol, Split};
use crossbeam_queue::{Pass, RuledArrayQueue};
use pt_tags::{Message, Time};
use std::collections::LinkedList;
use std::marker::{Brand, PhantomData};

/// What bounds the messages of a link: the horizon (microseconds), the number of actors, and the level of its receiver.
#[derive(Clone, Copy, Debug, PartialEq, Eq)]
pub struct Bounds {
    pub until: Time,
    pub actors: u64,
    pub level: u64,
}

/// Names the bounds of a link.
pub trait Bounded {
    ghost use Rattle.pt_links.specs.declared.rule.Bounds.{Bounds as Limits};

    ghost limits: { Limits };
}

impl Bounded for Brand {
    ghost limits = { record { until = 0; actors = 0; level = 0 } };
}

/// What a pass may do, what it has sent and what it has taken. Only contracts speak of it: no value of it is made.
pub struct Log {
    pub sends: bool,
    pub takes: bool,
    pub limits: Option<Bounds>,
    pub sent: LinkedList<Message>,
    pub taken: LinkedList<Message>,
}

pub struct InOrder;

impl Protocol<Message, Log> for InOrder {
    ghost use Rattle.std.specs.Prelude.{true, [], None};
    ghost use Rattle.pt_links.specs.Line.{log, LineInOrder};

    ghost holds = { LineInOrder };

    ghost first = { log true true None [] [] };
}

/// Splits the first pass into one that sends and one that takes.
pub struct Ends<J: Bounded> {
    of: PhantomData<J>,
}

impl<J: Bounded> Split<Log> for Ends<J> {
    ghost use Rattle.std.specs.Prelude.{true, false, [], Some};
    ghost use Rattle.pt_links.specs.Line.{log};

    ghost left = { λ v. log true false (Some J.limits) v.sent [] };

    ghost right = { λ v. log false true (Some J.limits) [] v.taken };
}

/// Joins the two passes into one.
pub struct Together;

impl Join<Log> for Together {
    ghost use Rattle.std.specs.Prelude.{true, false, [], None};
    ghost use Rattle.pt_links.specs.Line.{log};

    ghost both = { λ v w. log true true v.limits v.sent w.taken };

    ghost spent = { log false false None [] [] };
}

/// A push, or a queue that was found full.
pub struct Sends;

impl Outcome<Message, Log> for Sends {
    ghost use Rattle.std.specs.Prelude.{◌≡◌, ◌++◌, ◌∷◌, []};
    ghost use Rattle.pt_links.specs.Line.{log};

    ghost then = { λ v x w. w ≡ log v.sends v.takes v.limits (v.sent ++ x ∷ []) v.taken };
}

impl Lesson<Message, Log> for Sends {
    ghost use Rattle.std.specs.Prelude.{◌≤◌, length};

    ghost fact = { λ v items. length items ≤ length v.sent };
}

/// A pop, or a queue that was found empty.
pub struct Takes;

impl Outcome<Message, Log> for Takes {
    ghost use Rattle.std.specs.Prelude.{◌≡◌, ◌++◌, ◌∷◌, []};
    ghost use Rattle.pt_links.specs.Line.{IsOrderlyBy, log};

    ghost then = { λ v x w. (w ≡ log v.sends v.takes v.limits v.sent (v.taken ++ x ∷ [])) × IsOrderlyBy v.limits (v.taken ++ x ∷ []) };
}

impl Lesson<Message, Log> for Takes {
    ghost fact = { λ v items. Unit {0} };
}

/// What the joined pass shows: what was sent is what was taken, and then what the queue holds.
pub struct Whole;

impl Lesson<Message, Log> for Whole {
    ghost use Rattle.std.specs.Prelude.{◌≡◌, ◌++◌};

    ghost fact = { λ v items. v.sent ≡ v.taken ++ items };
}

pub type Line = RuledArrayQueue<Message, Log, InOrder>;

pub type LinePass = Pass<Message, Log>;
