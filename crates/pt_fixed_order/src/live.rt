//! A theorem on visits in fixed order, of rows that arrive while a run goes on.

mod laws;

pub use laws::before_grows;
