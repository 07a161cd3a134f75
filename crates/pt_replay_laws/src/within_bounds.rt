//! Replayed runs whose recorded network keeps to the stated bounds: no message is late, the paced schedule is kept, and what is
//! done is what the paced run does. This crate has no code that runs: each function has a theorem as its contract.

mod laws;

pub use laws::{
    faults_in_bounds_are_long, no_message_is_late_in_bounds, replays_in_bounds_are_as_paced,
    replays_in_bounds_keep_pace,
};
