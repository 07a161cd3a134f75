//! Results of a run's tasks.

ghost use Rattle.std.specs.Prelude.{◌≡◌};
ghost use Rattle.pt_pool.specs.LinkedPlatform.{plan_graph};
ghost use Rattle.pt_turn.specs.Posts.Posted.{AreDone, IsDone};

use pt_actors::Done;
use pt_pool::Run;
use std::alloc::Global;
use std::marker::{Model, PhantomData};

/// Results, each of which is what the kind of its task's actor computes. Contracts see them as a list.
#[derive(Drop)]
pub(crate) struct Results<J: Run> {
    items: Vec<Done>,
    of: PhantomData<J>,
}

impl<J: Run> Model for Results<J> {
    ghost use Rattle.std.specs.Prelude.{List};
    ghost use Rattle.pt_types.specs.declared.firing.Done.{Done as Whole};
    ghost use Rattle.pt_pool.specs.LinkedPlatform.{plan_graph};
    ghost use Rattle.pt_turn.specs.Posts.Posted.{AreDone};

    ghost Value = { List Whole };

    ghost view = { λ r. r.items.items };

    ghost invariant = { λ r. AreDone (plan_graph J.plan) r.items.items };
}

impl<J: Run> Results<J> {
    /// An empty list. Allocates nothing.
    pub(crate) fn new(alloc: Global) -> Results<J> {
        Results {
            items: Vec::new(alloc),
            of: PhantomData,
        }
    }

    /// Adds a result. `false` if memory ran out.
    pub(crate) fn keep(&mut self, done: Done) -> bool
        requires { IsDone (plan_graph J.plan) done }
    {
        match self.items.push(done) {
            Ok(()) => true,
            Err(_) => false,
        }
    }

    /// All results, in the order in which they were added.
    pub(crate) fn as_slice(&self) -> &[Done]
        ensures { AreDone (plan_graph J.plan) result.now }
    {
        self.items.as_slice()
    }
}
