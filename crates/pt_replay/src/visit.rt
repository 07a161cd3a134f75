//! Visits of platforms whose messages travel with recorded transit times and whose clocks lag behind true time.
//!
//! A visit moves the messages that have arrived at a platform from the airways into the pipes of their links, visits the
//! platform, and puts the messages in the pipes on their way. Between visits all pipes are empty. A list with a time for each
//! platform, before which no message arrives there, spares most visits in which nothing happens all of this.
//!
//! Read first: `visit_at` and `next_time`, then `specs/Visits/Visits.antt` and `specs/Visits/Moments.antt`.

mod arrivals;
mod delivering;
mod moments;
mod sending;
mod visiting;

pub use moments::next_time;
pub use visiting::visit_at;
