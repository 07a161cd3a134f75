//! The readings and the count of a recorded turn.

ghost use Rattle.std.specs.Prelude.{◌≡◌};

use pt_tags::Reading;

/// The first and the last reading of a recorded turn, and the number of turns it stands for: 1, or more for a run of quiet
/// turns that are recorded as one.
#[derive(Clone, Copy, Debug, PartialEq, Eq)]
pub struct Head {
    /// The first reading, in microseconds.
    pub first: u64,
    /// The last reading, in microseconds; of a single turn it is the first one too.
    pub last: u64,
    pub count: u64,
}

impl Head {
    /// The head of a single turn at a reading, in microseconds.
    pub(crate) fn single(reading: Reading) -> Head
        ensures { result ≡ record { first = reading; last = reading; count = 1 } }
    {
        Head {
            first: reading,
            last: reading,
            count: 1,
        }
    }
}
