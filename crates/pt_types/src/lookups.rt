//! What a graph says about an actor or a platform, by its number.

ghost use Rattle.std.specs.Prelude.{◌≡◌};
ghost use Rattle.pt_types.specs.Groups.{cell_of, input_group, output_group};
ghost use Rattle.pt_types.specs.Lookups.{actor_name, kind_of, platform_name, platform_of, slack_of};

use crate::graph::Graph;
use crate::kind::Kind;

impl Graph {
    /// The number of an actor's platform; 0 if there is no such actor.
    pub fn platform_of(&self, actor: u32) -> u32
        ensures { result ≡ platform_of self.now actor }
    {
        match self.actors.as_slice().get(actor as usize) {
            Some(actor) => actor.platform,
            None => 0,
        }
    }

    /// The name of an actor; empty if there is no such actor.
    pub fn actor_name(&self, actor: u32) -> &str
        ensures { result.now ≡ actor_name self.now actor }
    {
        match self.actors.as_slice().get(actor as usize) {
            Some(actor) => actor.name.as_str(),
            None => "",
        }
    }

    /// The name of a platform; empty if there is no such platform.
    pub fn platform_name(&self, platform: u32) -> &str
        ensures { result.now ≡ platform_name self.now platform }
    {
        match self.platforms.as_slice().get(platform as usize) {
            Some(name) => name.as_str(),
            None => "",
        }
    }

    /// How long after its tag's time a sender or an actuator may act, in microseconds; 0 for other actors.
    pub fn slack_of(&self, actor: u32) -> u64
        ensures { result ≡ slack_of (kind_of self.now actor) }
    {
        match self.actors.as_slice().get(actor as usize) {
            Some(actor) => actor.kind.slack(),
            None => 0,
        }
    }
}

impl Kind {
    /// How long after its tag's time a sender or an actuator may act, in microseconds; 0 for other kinds.
    pub fn slack(&self) -> u64
        ensures { result ≡ slack_of self.now }
    {
        match self {
            Kind::Send { slack } | Kind::Actuator { slack } => *slack,
            _ => 0,
        }
    }

    /// The group of an input, hidden inputs counted: its cell in `lanes`, 0 for other kinds.
    pub fn input_group(&self, input: u32) -> usize
        ensures { result ≡ input_group self.now input }
    {
        match self {
            Kind::Lanes { cells } => cell_of(cells.as_slice(), input),
            _ => 0,
        }
    }

    /// The group of an output: its cell in `lanes`, 0 for other kinds.
    pub fn output_group(&self, output: u32) -> u32
        ensures { result ≡ output_group self.now output }
    {
        match self {
            Kind::Lanes { .. } => output,
            _ => 0,
        }
    }
}

/// The cell of an input: cells have the inputs in order. Past all inputs, the number of cells.
fn cell_of(cells: &[u32], input: u32) -> usize
    ensures { result ≡ cell_of cells.now input }
{
    let mut left = input;
    for (cell, count) in cells.iter().enumerate() {
        if left < *count {
            return cell;
        }
        left -= *count;
    }
    cells.len()
}
