//! Taking: messages arrive on incoming links, and the events that they carry wait at their receivers.
//!
//! Messages are taken in order, up to and including the first that is late, which is recorded but has no effect. A message is
//! late if the last reading before the turn is past its time plus the bound of its receiver.
//!
//! Read first: `takes`, then `Takes` in `specs/Taking.antt` of pt_semantics.

mod on_time;
mod taking;

pub use taking::takes;
