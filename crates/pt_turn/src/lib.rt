//! A platform: its state, and what it does in a turn.
//!
//! `open_all` opens all platforms of a plan with the rows of a run: the starting events of its actors wait, no row has
//! entered, and nothing is claimed, sent or taken. A turn has five steps in this order: results are posted, rows enter,
//! messages are taken, safe units are claimed, and the platform closes if nothing is left to do.
//!
//! Read first: `Platform` and `open_all`, then `specs/Platforms.antt`, `specs/Turned.antt`, `specs/Steps.antt` and
//! `specs/All.antt`.
#![tactic(auto)]

mod all_platforms;
pub mod arrive;
mod arriving;
pub mod claim;
mod claim_step;
pub mod close;
pub mod enter;
mod fault;
mod finished;
mod idle;
mod kept_turn;
mod laws;
mod live_entries;
mod made_turn;
mod memory;
mod opened_fields;
mod opening;
mod opening_live;
mod outgoing;
mod pending_rows;
mod platform;
pub mod post;
mod progress;
mod reserved;
mod room;
mod rows_by_platform;
mod starting_events;
mod starting_states;
pub mod state;
mod steps;
pub mod take;
mod taken_ends;
mod turn_fault;
mod turn_of;

pub use all_platforms::open_all;
pub use claim_step::TurnEnd;
pub use fault::TurnFault;
pub use laws::{platforms_move, platforms_wait};
pub use opened_fields::open_fields;
pub use opening_live::open_live;
pub use platform::Platform;
pub use progress::Setup;
pub use room::Room;
pub use steps::{Lists, turn};
