//! Theorems on visits in fixed order: all platforms in the order of the graph, again and again, each at the next reading of
//! its own clock.
//!
//! Read first: `specs/SoFar.antt`.
#![tactic(auto)]

mod laws;

pub use laws::{
    fixed_order_is_legal, fronts_are_by_link, linked_if_finished, links_are_free, links_stay_free,
    matched_is_linked, visits_end, visits_go_on,
};
