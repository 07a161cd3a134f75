//! The greatest of some optional numbers.

ghost use Rattle.std.specs.Prelude.{◌≡◌, slice_index_or, length, None};
ghost use Rattle.pt_offsets.specs.Greatest.{greater, HasGreatest};

/// The greater of two optional numbers.
pub fn greater(a: Option<i64>, b: Option<i64>) -> Option<i64>
    ensures { result ≡ greater a b }
{
    match (a, b) {
        (Some(x), Some(y)) => Some(x.max(y)),
        (Some(x), None) => Some(x),
        (None, y) => y,
    }
}

/// The greatest of the numbers that are present; `None` if none is.
pub fn greatest(numbers: &[Option<i64>]) -> Option<i64>
    ensures { HasGreatest (length numbers.now) (λ k. slice_index_or numbers.now k None) result }
{
    let mut found = None;
    for number in numbers {
        found = greater(found, *number);
    }
    found
}
