//! The state of a platform: plain fields, and the abstract state that they represent.
//!
//! Each part of a turn is a function over `Fields`, and its contract says how `state_of` changes. The messages that a
//! platform took from its links are not a field, since its history has them; so `state_of` takes them as an argument.
//!
//! Read first: `Fields`, then `specs/Fields/State.antt`.

mod fields;
mod open_claims;
mod outbox;
mod same;
mod slots;
mod states;

pub use fields::{Fields, OpenClaim, Sensor};
pub use open_claims::OpenClaims;
pub use outbox::Outbox;
pub use same::{same_task, same_unit};
pub use states::set_state;
