//! The faults of a graph file.

use std::alloc::AllocError;

/// The parts of the file that a fault can name.
#[derive(Clone, Copy, Debug, PartialEq, Eq)]
pub enum Part {
    /// The top object.
    Top,
    Platform,
    Actor,
    Wire,
    Link,
    /// A clock error of two platforms.
    Pair,
}

/// The place of a fault: a part and its index in the file, from 0.
#[derive(Clone, Copy, Debug, PartialEq, Eq)]
pub struct Place {
    pub part: Part,
    pub index: u32,
}

/// The entries that can be too many.
#[derive(Clone, Copy, Debug, PartialEq, Eq)]
pub enum What {
    Platforms,
    Actors,
    Wires,
    Links,
    /// Clock errors of two platforms.
    Pairs,
    /// Rows of one machine.
    Rows,
    /// Cells of all lanes together.
    Cells,
}

/// The first fault of a graph file, in the order of the checks.
///
/// Each check goes over the whole file. The fault names the first place at which it fails: top, platforms,
/// actors, wires, links, pairs, each by index.
#[derive(Clone, Copy, Debug, PartialEq, Eq)]
pub enum GraphFault {
    /// Out of memory. The file may have any fault or none.
    Memory,
    /// The file has more than 1,048,576 bytes.
    TooLong,
    /// The file is not UTF-8 or not JSON, or it nests more than 127 deep, or it has a number that is too large.
    NotJson,
    /// A member is missing, is too many, or is not of its JSON type; or a kind is unknown.
    Member(Place),
    /// An array has more entries than its limit.
    TooMany(What),
    /// A number is out of its range, or there is no platform.
    Range(Place),
    /// A name or a file name is not valid.
    Name(Place),
    /// A platform or an actor has the name of an earlier one, or a pair names the platforms of an earlier one.
    Repeated(Place),
    /// There is no platform or no actor with the name.
    Unknown(Place),
    /// There is no visible output or no visible input with the wire's number.
    WireEnd(Place),
    /// A wire joins actors on two platforms.
    CrossWire(Place),
    /// A wire leads to the same input as an earlier one.
    FedTwice(Place),
    /// A visible input has no wire.
    Unfed {
        /// The actor's index in the file, from 0.
        actor: u32,
        port: u32,
    },
    /// A link does not lead from a `send` to a `receive` on another
    /// platform, or one of these does not have exactly one link.
    LinkEnd(Place),
    /// There is no block with the name that an actor gives.
    Block(Place),
}

impl From<AllocError> for GraphFault {
    ghost use Rattle.std.specs.Prelude.{◌≡◌};
    ghost use Rattle.pt_graph_text.specs.declared.fault.GraphFault.TheVariants.{Memory};

    ghost from_gives = { λ _ fault. fault ≡ Memory };

    fn from(_refused: AllocError) -> GraphFault {
        GraphFault::Memory
    }
}
