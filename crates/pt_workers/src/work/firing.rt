//! Fires the tasks of a run.

ghost use Rattle.pt_pool.specs.LinkedPlatform.{plan_graph};
ghost use Rattle.std.specs.Prelude.{◌≡◌, Some};
ghost use Rattle.std.specs.Arc.{arc_value};
ghost use Rattle.pt_turn.specs.Posts.Posted.{IsDone};

use pt_actors::Done;
use pt_blocks::Blocks;
use pt_offsets::Plan;
use pt_pool::Run;
use pt_types::{Graph, Task};
use pt_visits::fire_one;
use std::marker::PhantomData;
use std::sync::Arc;

/// The plan of a run, by which any worker fires tasks without a lock.
#[derive(Drop)]
pub struct Firing<J: Run> {
    plan: Arc<Plan>,
    of: PhantomData<J>,
    ghost is_of: { J.plan ≡ Some (arc_value plan) },
}

impl<J: Run> Firing<J> {
    /// For the run of this plan.
    pub fn new(plan: Arc<Plan>) -> Firing<J>
        requires { J.plan ≡ Some (arc_value plan) }
    {
        Firing {
            plan,
            of: PhantomData,
        }
    }

    /// The run's graph.
    pub(crate) fn graph(&self) -> &Graph
        ensures { result.now ≡ plan_graph J.plan }
    {
        self.plan.graph()
    }

    /// Fires a task.
    pub fn fire(&self, blocks: &Blocks, task: &Task) -> Done
        ensures task { result.task ≡ task.now }
        ensures done { IsDone (plan_graph J.plan) result }
    {
        fire_one(blocks, self.plan.graph(), task)
    }
}
