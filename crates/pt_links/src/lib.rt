//! Links between platforms: they carry the messages of a sender to its receiver, in order.
//!
//! A `Pipe` is a link whose two ends have the same owner. It is a ring buffer of 64 places, and allocates nothing. An `Outlet`
//! and an `Inlet` are the two ends of a link between threads: a queue of 64 places, whose rule says that the messages sent are
//! orderly.
//!
//! Read first: `Pipe`, `Outlet` and `Inlet`.
#![tactic(auto)]

mod ends;
mod pipe;
mod rule;

pub use ends::{Inlet, Outlet, Settled, link, settle};
pub use pipe::{PLACES, Pipe};
pub use rule::Bounds;
