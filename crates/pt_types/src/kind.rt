//! The kinds of actors.

ghost use Rattle.std.specs.Prelude.{◌≡◌, IfOk};

use pt_formula::Step;
use pt_tags::{List, Name, Time};
use std::alloc::{AllocError, Global};

/// The kind of an actor, with its parameters. Times are whole microseconds.
#[derive(Drop)]
pub enum Kind {
    /// Gives the rows of a file. A row that is seen later than `bound` after its time is late.
    Sensor {
        file: Name,
        bound: u64,
    },
    /// Gives the events that come over its link.
    Receive,
    /// Sends its input over its link. It is missed if it is sent later than `slack` after the event's time.
    Send {
        slack: u64,
    },
    /// Acts on its input. It is missed if it acts later than `slack` after the event's time.
    Actuator {
        slack: u64,
    },
    /// Gives its input times `num`, divided by `den` and cut toward zero. With `num` 3 and `den` 2, -5 gives -7.
    Scale {
        num: i64,
        den: i64,
    },
    /// Gives its input plus `by`.
    Shift {
        by: i64,
    },
    /// Gives the sum of its two inputs; an absent one counts as 0.
    Add,
    /// Gives input 0 minus input 1; an absent one counts as 0.
    Sub,
    /// Gives its input if it is greater than `limit`, and else nothing.
    Above {
        limit: i64,
    },
    /// Gives the value of the first of its `n` inputs that has one.
    Merge {
        n: u32,
    },
    /// Gives its input `d` later, or one step later if `d` is 0.
    Delay {
        d: u64,
    },
    /// Gives the number of events so far.
    Count,
    /// Gives the sum of all values so far.
    Sum,
    /// Stores the value of input 0, and gives the stored value when an event comes at input 1.
    Latch,
    /// A state machine: takes the first row that fits the state and the input.
    Machine {
        start: i64,
        outputs: u32,
        rows: List<MachineRow>,
    },
    /// Gives 0, 1, 2 and so on, at `start` and then every `period`.
    Every {
        start: Time,
        period: u64,
    },
    /// Gives the value that block number `block` computes, by its law.
    Block {
        block: u32,
        law: Law,
    },
    /// Gives, for each cell, the sum of its inputs that are present. `cells` has the number of inputs of each cell.
    Lanes {
        cells: List<u32>,
    },
}

/// A row of a machine: it fits if the state is `state`, the input is from `low` to `high`, and the guard holds.
#[derive(Drop)]
pub struct MachineRow {
    pub state: i64,
    pub low: i64,
    pub high: i64,
    /// The state after the row is taken.
    pub next: i64,
    /// An output and the value that it gets.
    pub emit: Option<(u32, i64)>,
    /// A block's number and law. The guard holds if the law's value of the input and the state is greater than 0.
    pub guard: Option<(u32, Law)>,
}

/// The law of a block: what it computes of two values a and b.
#[derive(Drop)]
pub enum Law {
    /// The lesser of a and b.
    Least,
    /// The greater of a and b.
    Greatest,
    /// a, raised to `low` or lowered to `high` if it is outside.
    Middle { low: i64, high: i64 },
    /// 0 if a and b are at most `width` apart, else a minus b.
    Deadband { width: i64 },
    /// (a * num + b * (den - num)) / den, cut toward zero.
    Weighted { num: i64, den: i64 },
    /// The value of this formula, of at most 64 steps.
    Formula(List<Step>),
}

impl Law {
    /// A copy.
    pub fn copy(&self, alloc: Global) -> Result<Law, AllocError>
        ensures { IfOk result (λ law. law ≡ self.now) }
    {
        let law = match self {
            Law::Least => Law::Least,
            Law::Greatest => Law::Greatest,
            Law::Middle { low, high } => Law::Middle {
                low: *low,
                high: *high,
            },
            Law::Deadband { width } => Law::Deadband { width: *width },
            Law::Weighted { num, den } => Law::Weighted {
                num: *num,
                den: *den,
            },
            Law::Formula(steps) => Law::Formula(List::new(Vec::from_slice(
                alloc,
                steps.as_slice(),
            )?)),
        };
        Ok(law)
    }
}
