//! The least slacks with which a graph can run, or a ring of senders that makes that impossible.
//!
//! A greater slack of a sender raises the bound of its receiver, and with it the offset of each sender that the receiver
//! leads to. So slacks are raised in rounds, from what the sensors alone ask for. If they don't settle, a ring of senders
//! raises itself.
//!
//! Read first: `slacks`, then `specs/Slacks.antt` and `specs/Rings.antt`; `slacks_text` writes the answer.
#![tactic(auto)]

mod answer;
mod hop;
mod impossible;
mod needs;
mod ring;
mod rows;
mod settled;
mod slack;
mod text;

pub use answer::slacks;
pub use impossible::rings_admit_nothing;
pub use slack::{Slack, SlackFault};
pub use text::slacks_text;
