//! What every sink of bytes promises.

ghost use Rattle.std.specs.Prelude.{◌≡◌, ◌≤◌, ℕ, List, Option, OnOk, OnErr};
ghost use Rattle.pt_io.specs.Causes.{Rose, Appends, AppendsPart, Keeps};

use thiserror::Error;

/// Why a put or a flush failed.
#[derive(Clone, Copy, Debug, PartialEq, Eq, Error)]
pub enum PutFault {
    /// A put took only a prefix of the bytes, maybe none, and perhaps only a prefix of the buffer was written. The sink's
    /// count of faults rose in that call.
    #[error("the bytes could not be written in full")]
    Failed,
}

/// Takes bytes: a page, or the standard output.
///
/// A sink counts its faults. It may report the bytes that it took: then clauses can name them, and else
/// they say nothing about them. It may buffer bytes until it is flushed.
pub trait Sink {
    /// The bytes taken so far, if the sink reports them.
    ghost written: { Self → Option (List ℕ) };

    /// The number of calls that failed. The count stays at the greatest `u64`.
    ghost faults: { Self → ℕ };

    /// The buffer is empty: all bytes that were put are written.
    ghost flushed: { Self → Type 0 };

    /// Appends all of the bytes, or a prefix of them if it fails. What
    /// fails may be the write of bytes that were put before and buffered.
    fn put(&mut self, bytes: &[u8]) -> Result<(), PutFault>
        ensures all { OnOk result (Appends (written self.old) (written self.new) bytes.now) }
        ensures part { OnErr result (AppendsPart (written self.old) (written self.new) bytes.now) }
        ensures grows { faults self.old ≤ faults self.new }
        ensures uncounted { OnOk result (faults self.new ≡ faults self.old) }
        ensures failed { OnErr result (Rose (faults self.old) (faults self.new)) };

    /// Writes the buffer.
    fn flush(&mut self) -> Result<(), PutFault>
        ensures all { OnOk result (flushed self.new) }
        ensures keeps { Keeps (written self.old) (written self.new) }
        ensures grows { faults self.old ≤ faults self.new }
        ensures uncounted { OnOk result (faults self.new ≡ faults self.old) }
        ensures failed { OnErr result (Rose (faults self.old) (faults self.new)) };
}
