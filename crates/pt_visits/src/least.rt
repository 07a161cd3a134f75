//! The lesser of two readings or times.

ghost use Rattle.std.specs.Prelude.{◌≡◌};
ghost use Rattle.pt_visits.specs.Least.{lesser};

/// The lesser of two numbers, or the one that is there.
pub fn lesser(a: Option<u64>, b: Option<u64>) -> Option<u64>
    ensures { result ≡ lesser a b }
{
    match (a, b) {
        (None, b) => b,
        (a, None) => a,
        (Some(a), Some(b)) => Some(if a < b { a } else { b }),
    }
}
