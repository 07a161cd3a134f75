//! Why a row may not come.

/// Why a row may not come next.
#[derive(Clone, Copy, Debug, PartialEq, Eq)]
pub enum Unfit {
    /// The platform has no such sensor.
    NoSensor,
    /// Its time isn't past that of the row before.
    NotAfter,
    /// It is seen before its time.
    SeenEarly,
    /// Its time is past the horizon.
    PastHorizon,
    /// It is seen past `limit`, where its sensor's bound ends, in microseconds.
    Late { limit: u64 },
    /// It is seen before the row before it, or not after the platform's last reading.
    NotSeenNext,
    Memory,
}
