//! A link's two ends.
ghost use Rattle.std.specs.Prelude.{◌≡◌, ◌≤◌, ◌++◌, ◌∷◌, [], length, IfOk, IfErr, IfNone, IfSome, MatchResult, MatchOption, Some};
ghost use Rattle.pt_links.specs.Ends.{SentBy, TakenBy, Parted};
ghost use Rattle.pt_links.specs.Line.{IsOrderlyBy};

use crate::rule::{Bounded, Bounds, Ends, Line, LinePass, Sends, Takes, Together, Whole};
use pt_tags::{Memory, Message};
use std::alloc::Global;
use std::marker::{Brand, Model};
use std::sync::{Arc, Wait};

const CAPACITY: usize = 64;

/// The end that sends. Contracts see which link it belongs to and what was sent.
#[derive(Drop)]
pub struct Outlet {
    line: Arc<Line>,
    pass: LinePass,
}

impl Model for Outlet {
    ghost use Rattle.std.specs.Prelude.{◌≡◌, true};
    ghost use Rattle.std.specs.Arc.{arc_value};
    ghost use Rattle.crossbeam_queue.specs.Passes.{view as known, IsPassOf, ruled_capacity};
    ghost use Rattle.pt_links.specs.Ends.{SentBy};

    ghost Value = { SentBy };

    ghost view = { λ o. record {
      link = (arc_value o.line).table.shared.table_id;
      limits = (known o.pass).limits;
      sent = (known o.pass).sent;
    } };

    ghost invariant = { λ o. IsPassOf (arc_value o.line) o.pass × ((known o.pass).sends ≡ true)
        × (ruled_capacity (arc_value o.line) ≡ 64) };
}

/// The end that takes. Contracts see which link it belongs to and what was taken.
#[derive(Drop)]
pub struct Inlet {
    line: Arc<Line>,
    pass: LinePass,
}

impl Model for Inlet {
    ghost use Rattle.std.specs.Prelude.{◌≡◌, true};
    ghost use Rattle.std.specs.Arc.{arc_value};
    ghost use Rattle.crossbeam_queue.specs.Passes.{view as known, IsPassOf, ruled_capacity};
    ghost use Rattle.pt_links.specs.Ends.{TakenBy};

    ghost Value = { TakenBy };

    ghost view = { λ o. record {
      link = (arc_value o.line).table.shared.table_id;
      limits = (known o.pass).limits;
      taken = (known o.pass).taken;
    } };

    ghost invariant = { λ o. IsPassOf (arc_value o.line) o.pass × ((known o.pass).takes ≡ true)
        × (ruled_capacity (arc_value o.line) ≡ 64) };
}

/// What a settled link shows: what was sent, what was taken, and what is left.
#[derive(Drop)]
pub struct Settled {
    pass: LinePass,
    left: usize,
}

impl Model for Settled {
    ghost use Rattle.std.specs.Prelude.{◌≡◌, ◌++◌, length, drop};
    ghost use Rattle.crossbeam_queue.specs.Passes.{view as known};
    ghost use Rattle.pt_links.specs.Ends.{Parted};

    ghost Value = { Parted };

    ghost view = { λ s. record {
      sent = (known s.pass).sent;
      taken = (known s.pass).taken;
      left = drop (length (known s.pass).taken) (known s.pass).sent;
    } };

    ghost invariant = { λ s. ((known s.pass).sent
        ≡ (known s.pass).taken ++ drop (length (known s.pass).taken) (known s.pass).sent)
        × (s.left ≡ length (drop (length (known s.pass).taken) (known s.pass).sent)) };
}

/// A new link of 64 places, whose receiver has these bounds.
pub fn link(alloc: Global, bounds: Bounds) -> Result<(Outlet, Inlet), Memory>
    ensures one { IfOk result (λ r. r.1.link ≡ r.0.link) }
    ensures limits { IfOk result (λ r. (r.0.limits ≡ Some bounds) × (r.1.limits ≡ Some bounds)) }
    ensures new { IfOk result (λ r. (r.0.sent ≡ []) × (r.1.taken ≡ [])) }
{
    link_by::<Brand>(alloc, bounds)
}

fn link_by<J: Bounded>(alloc: Global, bounds: Bounds) -> Result<(Outlet, Inlet), Memory>
    requires { J.limits ≡ bounds }
    ensures limits { IfOk result (λ r. (r.0.limits ≡ Some bounds) × (r.1.limits ≡ Some bounds)) }
    ensures one { IfOk result (λ r. r.1.link ≡ r.0.link) }
    ensures new { IfOk result (λ r. (r.0.sent ≡ []) × (r.1.taken ≡ [])) }
{
    let (line, mut pass) = Line::ruled(alloc, CAPACITY)?;
    let other = line.another::<Ends<J>>(&mut pass);
    let line = Arc::new(alloc, line)?;
    let also = Arc::try_clone(&line)?;
    Ok((
        Outlet { line, pass },
        Inlet {
            line: also,
            pass: other,
        },
    ))
}

impl Outlet {
    /// Sends a message. It is returned only if at least 64 messages were sent before.
    pub fn push<R: Wait>(&mut self, rt: &R, message: Message) -> Result<(), Message>
        requires orderly { IsOrderlyBy self.old.limits (self.old.sent ++ message ∷ []) }
        ensures link { (self.new.link ≡ self.old.link) × (self.new.limits ≡ self.old.limits) }
        ensures sent { MatchResult result (λ _. self.new.sent ≡ self.old.sent ++ message ∷ [])
            (λ x. (x ≡ message) × (self.new.sent ≡ self.old.sent) × (64 ≤ length self.old.sent)) }
    {
        self.line.push_as::<Sends, R>(rt, &mut self.pass, message)
    }
}

impl Inlet {
    /// Takes the oldest message; `None` if none is found.
    pub fn take<R: Wait>(&mut self, rt: &R) -> Option<Message>
        ensures link { (self.new.link ≡ self.old.link) × (self.new.limits ≡ self.old.limits) }
        ensures taken { MatchOption result (self.new.taken ≡ self.old.taken)
            (λ x. self.new.taken ≡ self.old.taken ++ x ∷ []) }
        ensures orderly { IfSome result (λ x. IsOrderlyBy self.old.limits self.new.taken) }
    {
        self.line.pop_as::<Takes, R>(rt, &mut self.pass)
    }
}

/// Joins the two ends of a link, and shows what was sent, what was taken and what is left.
pub fn settle<R: Wait>(rt: &R, outlet: Outlet, inlet: Inlet) -> Settled
    requires { inlet.link ≡ outlet.link }
    ensures sent { result.sent ≡ outlet.sent }
    ensures taken { result.taken ≡ inlet.taken }
    ensures whole { result.sent ≡ result.taken ++ result.left }
{
    let Outlet { line, mut pass } = outlet;
    let Inlet {
        line: _,
        pass: other,
    } = inlet;
    line.absorb::<Together>(&mut pass, other);
    let left = line.len_as::<Whole, R>(rt, &mut pass);
    Settled { pass, left }
}

impl Settled {
    /// How many messages are left in the link.
    pub fn left(&self) -> usize
        ensures { result ≡ length self.now.left }
    {
        self.left
    }
}
