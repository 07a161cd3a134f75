//! A task and the result of its firing.

ghost use Rattle.std.specs.Prelude.{◌≡◌};

use pt_types::{Done as Record, Fired, Ports, Task};
use std::marker::Model;

/// A task and the result of its firing. Contracts see the plain record of both.
///
/// Only `fire` makes one, so the result is that of `fire`: its clauses say what it is for the kind it was given. That this
/// is the kind of the task's actor is up to the caller, who has the graph.
#[derive(Clone, Copy, Debug, PartialEq, Eq)]
pub struct Done {
    pub(crate) both: Record,
}

impl Model for Done {
    ghost use Rattle.pt_types.specs.declared.firing.Done.{Done as Whole};

    ghost Value = { Whole };

    ghost view = { λ d. d.both };

    ghost inverse = { λ d. record { both = d } };
}

impl Done {
    /// A task that is still to be fired: its state, and no outputs.
    #[inline(always)]
    pub(crate) fn new(task: &Task) -> Done
        ensures { result.task ≡ task.now }
    {
        Done {
            both: Record {
                task: *task,
                fired: Fired {
                    state: task.state,
                    outputs: Ports::new(),
                },
            },
        }
    }

    /// The task.
    pub fn task(&self) -> &Task
        ensures { result.now ≡ self.now.task }
    {
        &self.both.task
    }

    /// The result of its firing.
    pub fn fired(&self) -> &Fired
        ensures { result.now ≡ self.now.fired }
    {
        &self.both.fired
    }

    /// The plain record of both, by reference.
    pub fn as_record(&self) -> &Record
        ensures { result.now ≡ self.now }
    {
        &self.both
    }

    /// A copy of the plain record of both.
    pub fn record(&self) -> Record
        ensures { result ≡ self.now }
    {
        self.both
    }
}
