//! What every source of named contents promises.

ghost use Rattle.std.specs.Prelude.{◌≡◌, ◌+◌, ◌≤◌, ℕ, List, Option, IfOk, OnOk, IsErrOf, IfSome, take};
ghost use Rattle.pt_io.specs.Causes.{Rose, AddsName};

use std::alloc::Global;
use thiserror::Error;

/// Why a fetch gave no bytes.
#[derive(Clone, Copy, Debug, PartialEq, Eq, Error)]
pub enum FetchFault {
    /// The content couldn't be read. The source's count of faults rose in that call.
    #[error("the content could not be read")]
    Failed,
    /// Out of memory.
    #[error("memory")]
    Memory,
}

/// Named contents: a shelf, or files by their paths.
///
/// A source counts its faults. It may report its contents and the names it was asked for: then clauses can name
/// them, and else they say nothing about them.
pub trait Source {
    /// The content of a name, if the source reports it.
    ghost contents: { Self → List ℕ → Option (List ℕ) };

    /// The names asked for so far, if the source reports them.
    ghost asked: { Self → Option (List (List ℕ)) };

    /// The number of calls that failed. The count stays at the greatest `u64`.
    ghost faults: { Self → ℕ };

    /// The first `most + 1` bytes of the named content, or all if it is shorter.
    ///
    /// The byte past `most` lets the caller see that the content is too long. A call that fails with `Memory`
    /// isn't counted, and its name isn't recorded.
    fn fetch(&mut self, alloc: Global, name: &str, most: usize) -> Result<Vec<u8>, FetchFault>
        ensures bytes { IfOk result (λ v.
            IfSome (contents self.old name.now) (λ bytes. v.items ≡ take (most + 1) bytes)) }
        ensures keeps { contents self.new ≡ contents self.old }
        ensures grows { faults self.old ≤ faults self.new }
        ensures uncounted { OnOk result (faults self.new ≡ faults self.old) }
        ensures failed { IsErrOf result FetchFault.Failed →
            Rose (faults self.old) (faults self.new) }
        ensures names { OnOk result (AddsName (asked self.old) (asked self.new) name.now) }
        ensures names_failed { IsErrOf result FetchFault.Failed →
            AddsName (asked self.old) (asked self.new) name.now }
        ensures names_memory { IsErrOf result FetchFault.Memory → asked self.new ≡ asked self.old };
}
