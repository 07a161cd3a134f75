//! Arriving: a platform gets one more row of a sensor, which enters in a later turn.
//!
//! Read first: `append` and `test`, then `specs/Arrived.antt`.

mod appending;
mod testing;
mod unfit;

pub use appending::{append, place_of};
pub use testing::test;
pub use unfit::Unfit;
