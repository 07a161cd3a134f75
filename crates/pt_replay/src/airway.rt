//! The messages of a link on their way, each with the true time at which it arrives.
//!
//! A message takes its recorded transit, or the delay of the link if none is recorded, and never arrives before the message
//! that was put before it. The rule is `airway_with` in `specs/Arrivals.antt` of pt_semantics.
//!
//! Read first: `Airway::put`, then `Airway::arrived`.

mod airway;

pub use airway::Airway;
