//! The graph of actors.

use crate::kind::Kind;
use pt_tags::{Delay, List, Name, Time};

/// A program: a graph of actors on platforms with synchronised clocks (RTAS 2007).
#[derive(Drop)]
pub struct Graph {
    /// The horizon in microseconds of model time: no event is later.
    pub until: Time,
    /// The greatest difference between the clocks of two platforms, in microseconds, unless `clock_errors` states another.
    pub clock_error: u64,
    /// The most claims that a platform makes in a run: 200,000, unless the command states another number.
    pub claims: u64,
    /// The names of the platforms, in file order.
    pub platforms: List<Name>,
    /// The actors, in file order.
    pub actors: List<Actor>,
    /// The wires of the file in file order, then one hidden wire for each `every`, in actor order.
    pub wires: List<Wire>,
    /// The links between platforms, in file order.
    pub links: List<Link>,
    /// The pairs of platforms that state a clock error of their own.
    pub clock_errors: List<PairError>,
}

/// An actor: it reacts to events in tag order.
#[derive(Drop)]
pub struct Actor {
    pub name: Name,
    /// The number of its platform.
    pub platform: u32,
    pub kind: Kind,
    /// The number of inputs that wires of the file can lead to.
    pub inputs: u32,
    /// The number of outputs that wires of the file can leave.
    pub outputs: u32,
}

/// A wire from an output of an actor to an input of an actor on the same platform.
#[derive(Clone, Copy, Debug, PartialEq, Eq)]
pub struct Wire {
    pub from: u32,
    pub output: u32,
    pub to: u32,
    pub input: u32,
}

/// A link from a sender to a receiver on another platform.
#[derive(Clone, Copy, Debug, PartialEq, Eq)]
pub struct Link {
    pub from: u32,
    pub to: u32,
    /// The longest time that the network takes for a message, in microseconds.
    pub delay: u64,
}

/// A wire or a link, with the delay that it adds to a tag.
#[derive(Clone, Copy, Debug, PartialEq, Eq)]
pub struct Edge {
    pub from: u32,
    pub output: u32,
    pub to: u32,
    pub input: u32,
    pub weight: Delay,
}

/// The clock error of two platforms: the greatest difference between their clocks, in microseconds.
#[derive(Clone, Copy, Debug, PartialEq, Eq)]
pub struct PairError {
    pub a: u32,
    pub b: u32,
    pub error: u64,
}

/// A unit: the inputs of an actor that react together, one cell of `lanes`, or all inputs of an actor of another kind.
///
/// Groups are numbered from 0. (This project's own choice.)
#[derive(Clone, Copy, Debug, PartialEq, Eq)]
pub struct Unit {
    pub actor: u32,
    pub group: u32,
}
