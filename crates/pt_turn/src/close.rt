//! Closing: once a platform has nothing left to do and nothing can still arrive, it closes, and sends `End` on its links.
//!
//! A platform can close at a reading past the horizon plus the bound of each of its sensors and receivers, if no event waits,
//! no claim is open and no message is left to send. Then `End` is put into the outbox of each outgoing link.
//!
//! Read first: `close`, then `CanClose` in `specs/Closing.antt` of pt_semantics.

mod closing;
mod ends;
mod reading;

pub use closing::close;
pub use reading::closing_reading;
