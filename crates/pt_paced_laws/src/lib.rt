//! What holds of every paced run: no message is late, each claim is made at its paced
//! reading, the run ends, and its claims are the meaning. Also: every graph that can run has
//! a meaning, and a run in fixed order depends on its clocks alone. This crate has no code that runs: each function has a theorem as its contract.
//!
//! Read first: `specs/PacedTheorems.antt` for the rounds as they are made, `specs/Schedule.antt` and `specs/WholeRuns.antt`
//! for the histories that record them.
#![tactic(auto)]

mod fixed_order;
mod paced;
mod whole_runs;

pub use fixed_order::fixed_order_is_one;
pub use paced::{
    long_runs_are_in_the_meaning, missed_entries_are_in_the_meaning, no_message_is_late_when_paced,
    only_actuators_miss_when_paced, paced_claims_are_a_front_of_the_meaning,
    paced_histories_are_legal, paced_histories_are_one, quiet_rounds_end_runs,
    quiet_rounds_stand_alone, turns_are_timely_when_paced,
};
pub use whole_runs::{
    kept_claims_are_as_meant, kept_claims_are_on_schedule, kept_messages_are_within_slack,
    kept_misses_are_as_meant, meanings_exist, no_kept_turn_is_late, paced_runs_end,
    whole_runs_are_one,
};
