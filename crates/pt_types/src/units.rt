//! The ports of each kind, the units of an actor, and the clock error of two platforms.

ghost use Rattle.std.specs.Prelude.{◌≡◌, option_map, sum, length, nat_lt, if◌then◌else◌, Some, None};
ghost use Rattle.pt_types.specs.Groups.{held, actor_at, groups_of, cell_at, group_at, error_between};
ghost use Rattle.pt_types.specs.Kinds.{visible_inputs, visible_outputs};

use crate::graph::Graph;
use crate::kind::Kind;

impl Graph {
    /// The number of units of an actor: one for each cell of `lanes`, 1 for other kinds or if there is no such actor.
    pub fn groups(&self, actor: u32) -> u32
        ensures { result ≡ held (groups_of (actor_at self.now.actors actor).kind) }
    {
        match self.actors.as_slice().get(actor as usize) {
            Some(actor) => groups_of(&actor.kind),
            None => 1,
        }
    }

    /// The group of an actor's input, hidden inputs counted; `None` if the actor has no such input.
    pub fn group(&self, actor: u32, input: u32) -> Option<u32>
        ensures { result ≡ option_map held (group_at (actor_at self.now.actors actor).kind input) }
    {
        match self.actors.as_slice().get(actor as usize) {
            Some(actor) => group_at(&actor.kind, input),
            None => one_group(input, 1),
        }
    }

    /// The clock error of two platforms: the greatest difference between their clocks, in microseconds.
    ///
    /// It is the error that their pair states, or else the clock error of the graph.
    pub fn error(&self, a: u32, b: u32) -> u64
        ensures { result ≡ error_between self.now a b }
    {
        let pairs = self.clock_errors.as_slice();
        pairs
            .iter()
            .find(|pair| pair.is_of(a, b))
            .map(|pair| pair.error)
            .unwrap_or(self.clock_error)
    }
}

impl crate::graph::PairError {
    ghost use Rattle.pt_types.specs.Groups.{is_pair_of};

    /// Whether the pair is of these two platforms, in either order.
    pub fn is_of(&self, a: u32, b: u32) -> bool
        ensures { result ≡ is_pair_of a b self.now }
    {
        (self.a == a && self.b == b) || (self.a == b && self.b == a)
    }
}

impl Kind {
    /// The number of inputs that wires of the file can lead to.
    pub fn visible_inputs(&self) -> u32
        ensures { result ≡ held (visible_inputs self.now) }
    {
        match self {
            Kind::Sensor { .. } | Kind::Receive | Kind::Every { .. } => 0,
            Kind::Add | Kind::Sub | Kind::Latch | Kind::Block { .. } => 2,
            Kind::Merge { n } => *n,
            Kind::Lanes { cells } => total(cells.as_slice()),
            _ => 1,
        }
    }

    /// The number of outputs that wires of the file can leave.
    pub fn visible_outputs(&self) -> u32
        ensures { result ≡ held (visible_outputs self.now) }
    {
        match self {
            Kind::Send { .. } | Kind::Actuator { .. } => 0,
            Kind::Machine { outputs, .. } => *outputs,
            Kind::Lanes { cells } => count(cells.as_slice()),
            _ => 1,
        }
    }
}

fn groups_of(kind: &Kind) -> u32
    ensures { result ≡ held (groups_of kind.now) }
{
    match kind {
        Kind::Lanes { cells } => count(cells.as_slice()),
        _ => 1,
    }
}

fn count(cells: &[u32]) -> u32
    ensures { result ≡ held (length cells.now) }
{
    cells.len().min(u32::MAX as usize) as u32
}

fn total(cells: &[u32]) -> u32
    ensures { result ≡ held (sum cells.now) }
{
    let mut total: u32 = 0;
    for n in cells {
        total = total.saturating_add(*n);
    }
    total
}

fn group_at(kind: &Kind, input: u32) -> Option<u32>
    ensures { result ≡ option_map held (group_at kind.now input) }
{
    match kind {
        Kind::Lanes { cells } => cell_at(cells.as_slice(), input),
        Kind::Merge { n } => one_group(input, *n),
        Kind::Add | Kind::Sub | Kind::Latch | Kind::Block { .. } => one_group(input, 2),
        _ => one_group(input, 1),
    }
}

/// Group 0 if the input is one of these `inputs`, else `None`.
fn one_group(input: u32, inputs: u32) -> Option<u32>
    ensures { result ≡ (if nat_lt input inputs then Some 0 else None) }
{
    if input < inputs { Some(0) } else { None }
}

fn cell_at(cells: &[u32], input: u32) -> Option<u32>
    ensures { result ≡ option_map held (cell_at cells.now input) }
{
    let mut left = input;
    for (cell, n) in cells.iter().enumerate() {
        if left < *n {
            return Some(cell.min(u32::MAX as usize) as u32);
        }
        left -= *n;
    }
    None
}
