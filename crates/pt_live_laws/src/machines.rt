//! Platforms in processes of their own: what their histories together mean.
//!
//! Read first: `specs/Joining/Machines.antt`.

mod laws;

pub use laws::machines_join;
