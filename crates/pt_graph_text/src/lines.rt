//! The texts of faults, and the line that reports one.

ghost use Rattle.std.specs.Prelude.{◌≡◌, ◌++◌, OnOk, string_bytes};
ghost use Rattle.pt_graph_text.specs.Lines.{fault_line};

use crate::fault::{GraphFault, Part, Place, What};
use std::alloc::AllocError;
use std::error::Error;
use std::fmt;

impl fmt::Display for Place {
    ghost use Rattle.std.specs.Prelude.{Some};
    ghost use Rattle.pt_graph_text.specs.Lines.{part_text};

    ghost output = { λ p. Some (part_text p.part p.index) };

    fn fmt<W: fmt::Write>(&self, f: &mut fmt::Formatter<W>) -> fmt::Result {
        let index = self.index;
        match self.part {
            Part::Top => write!(f, "top"),
            Part::Platform => write!(f, "platform {index}"),
            Part::Actor => write!(f, "actor {index}"),
            Part::Wire => write!(f, "wire {index}"),
            Part::Link => write!(f, "link {index}"),
            Part::Pair => write!(f, "clock error {index}"),
        }
    }
}

impl fmt::Display for What {
    ghost use Rattle.std.specs.Prelude.{Some};
    ghost use Rattle.pt_graph_text.specs.Lines.{what_text};

    ghost output = { λ w. Some (what_text w) };

    fn fmt<W: fmt::Write>(&self, f: &mut fmt::Formatter<W>) -> fmt::Result {
        match self {
            What::Platforms => write!(f, "platforms"),
            What::Actors => write!(f, "actors"),
            What::Wires => write!(f, "wires"),
            What::Links => write!(f, "links"),
            What::Pairs => write!(f, "clock errors"),
            What::Rows => write!(f, "rows"),
            What::Cells => write!(f, "cells"),
        }
    }
}

impl fmt::Display for GraphFault {
    ghost use Rattle.std.specs.Prelude.{Some};
    ghost use Rattle.pt_graph_text.specs.Lines.{fault_text};

    ghost output = { λ e. Some (fault_text e) };

    fn fmt<W: fmt::Write>(&self, f: &mut fmt::Formatter<W>) -> fmt::Result {
        match *self {
            GraphFault::Memory => write!(f, "memory"),
            GraphFault::TooLong => write!(f, "too long"),
            GraphFault::NotJson => write!(f, "not json"),
            GraphFault::Member(place) => write!(f, "member at {place}"),
            GraphFault::TooMany(what) => write!(f, "too many {what}"),
            GraphFault::Range(place) => write!(f, "range at {place}"),
            GraphFault::Name(place) => write!(f, "name at {place}"),
            GraphFault::Repeated(place) => write!(f, "repeated at {place}"),
            GraphFault::Unknown(place) => write!(f, "unknown at {place}"),
            GraphFault::WireEnd(place) => write!(f, "wire end at {place}"),
            GraphFault::CrossWire(place) => write!(f, "cross wire at {place}"),
            GraphFault::FedTwice(place) => write!(f, "fed twice at {place}"),
            GraphFault::Unfed { actor, port } => write!(f, "unfed actor {actor} input {port}"),
            GraphFault::LinkEnd(place) => write!(f, "link end at {place}"),
            GraphFault::Block(place) => write!(f, "block at {place}"),
        }
    }
}

impl Error for GraphFault {}

/// Appends the line of a fault, with its line feed, as `graph: block at actor 2`.
pub fn fault_line(text: &mut String, fault: &GraphFault) -> Result<(), AllocError>
    ensures { OnOk result (string_bytes text.new ≡ string_bytes text.old ++ fault_line fault.now) }
{
    match fault {
        GraphFault::Memory => text.push_str("memory\n"),
        _ => write!(text, "graph: {fault}\n"),
    }
}
