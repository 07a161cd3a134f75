//! The theorems about the meaning, about turns, and about legal histories of any engine. This crate has no code that runs:
//! each function has a theorem as its contract, over the definitions of pt_semantics.
//!
//! Read first: `specs/MeaningTheorems.antt`, `specs/HistoryTheorems.antt`, `specs/TurnTheorems.antt`.
#![tactic(auto)]

mod histories;
mod meaning;
mod readings;
mod turns;

pub use histories::{
    confluence_by_actor, confluence_of_histories, confluence_where_settled, floor_of_claims,
    floor_of_claims_in_time, histories_are_a_behaviour, histories_are_read_on,
    kept_turns_are_legal, no_port_has_two_events, outgoing_lists_are_orderly,
    outgoing_lists_stay_orderly, settled_histories_stay_legal, steps_are_bounded,
};
pub use meaning::{
    meaning_is_a_behaviour, meaning_is_unique, one_behaviour, sorted_behaviour_is_the_meaning,
};
pub use readings::{
    near_readings_are_closed, paced_readings_are_closed, paced_readings_rise_along_paths,
};
pub use turns::{
    claims_are_fronts, claims_stand_apart, cut_candidates_are_claims, idle_before_the_next_reading,
    quiet_turns_are_joined, safe_units_stay_safe, safe_units_stay_safe_in_a_turn, turns_move,
};
