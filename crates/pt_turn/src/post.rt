//! Posting: results of claimed tasks arrive, and their outputs are sent on.
//!
//! The result of an open claim closes it, sets the actor's state, and sends the outputs along wires into the queue and along
//! links into the outbox. Any other result is ignored. Nothing is allocated.
//!
//! Read first: `post`, then `after_post` in `specs/Posting.antt` of pt_semantics.

mod emit;
mod fits;
mod links;
mod result;
mod results;

pub use fits::open_claims_fit;
pub use result::post;
pub use results::posts;
