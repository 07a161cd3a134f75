//! Whether a platform is finished.

ghost use Rattle.std.specs.Prelude.{◌≡◌, ◌↔◌, length, true};
ghost use Rattle.pt_types.specs.Lookups.{platform_of};
ghost use Rattle.pt_semantics.specs.Linked.{IsFinished};
ghost use Rattle.pt_turn.specs.Finished.{HaveEnded};
ghost use Rattle.pt_turn.specs.Platforms.{state_at};

use crate::platform::Platform;
use crate::taken_ends::TakenEnds;
use pt_types::Graph;

/// Whether `End` was taken on each link that leads to this platform.
fn have_ended(graph: &Graph, number: u32, ended: &TakenEnds) -> bool
    requires { length ended.now ≡ length graph.now.links }
    ensures { (result ≡ true) ↔ HaveEnded graph.now number ended.now }
{
    let links = graph.links.as_slice();
    for l in 0..links.len() {
        if graph.platform_of(links[l].to) != number {
            continue;
        }
        if !ended.has(l) {
            return false;
        }
    }
    true
}

impl Platform {
    /// Whether it is finished: closed, all messages sent, and `End` taken on each incoming link.
    pub fn finished(&self) -> bool
        ensures { (result ≡ true) ↔ IsFinished self.now.plan.graph self.now.number
            (state_at self.now) }
    {
        if !self.progress.fields.closed {
            return false;
        }
        if !self.progress.fields.outbox.is_empty() {
            return false;
        }
        have_ended(self.plan.graph(), self.number, &self.progress.ended)
    }
}
