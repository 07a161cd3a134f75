//! Claiming: which units of a platform are safe to process, their events as open claims, and the next reading at which
//! something can happen.
//!
//! A unit is safe when nothing earlier can still come to it (RTAS 2007): no row or message from outside, which its paced
//! reading decides, and nothing from events that wait or tasks being fired on the platform, which the least delays decide.
//! Safe units are claimed one by one in the order of tag, actor and group. A claim makes no other unit safe or unsafe, so one
//! search through the units that have events finds all of them, or the first 64.
//!
//! The next reading is the least at which a row is seen, a unit reaches its paced reading, or the platform can close. Before
//! it, a turn without results and messages changes nothing.
//!
//! Read first: `claims`, `is_safe` and `next_reading`, then `IsNextReading` in `specs/Paced.antt` of pt_semantics.

mod ahead;
mod asked;
mod claiming;
mod cut;
mod early;
mod front;
mod none_safe;
mod order;
mod paced;
mod safe;
mod seen;
mod waking;

pub use claiming::{claim, claims};
pub use front::next_safe;
pub use safe::is_safe;
pub use waking::next_reading;
