//! Events, and what an actor takes and gives when it fires.

use crate::ports::Ports;
use pt_tags::{Message, Tag};

/// A pending event: a value that waits at an input of an actor.
#[derive(Clone, Copy, Debug, PartialEq, Eq)]
pub struct Event {
    pub tag: Tag,
    pub actor: u32,
    pub port: u32,
    pub value: i64,
}

/// A claim: the events of a unit at one tag, taken together to be fired.
#[derive(Clone, Copy, Debug, PartialEq, Eq)]
pub struct Task {
    /// The number of claims that its platform made before it.
    pub number: u64,
    pub actor: u32,
    pub tag: Tag,
    pub inputs: Ports,
    /// The actor's state before the firing.
    pub state: i64,
}

/// The result of a firing.
#[derive(Clone, Copy, Debug, PartialEq, Eq)]
pub struct Fired {
    /// The actor's state after the firing.
    pub state: i64,
    pub outputs: Ports,
}

/// A task and the result of its firing.
#[derive(Clone, Copy, Debug, PartialEq, Eq)]
pub struct Done {
    pub task: Task,
    pub fired: Fired,
}

/// One firing of an actor in the meaning: all its events of a tag, and their result.
#[derive(Clone, Copy, Debug, PartialEq, Eq)]
pub struct ActorFiring {
    pub actor: u32,
    pub tag: Tag,
    pub inputs: Ports,
    /// The actor's state before the firing.
    pub before: i64,
    /// The actor's state after the firing.
    pub after: i64,
    pub outputs: Ports,
}

/// A message and the number of its link.
#[derive(Clone, Copy, Debug, PartialEq, Eq)]
pub struct OnLink {
    pub link: u32,
    pub message: Message,
}
