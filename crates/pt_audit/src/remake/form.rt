//! What the hints of a turn must be like.

ghost use Rattle.std.specs.Prelude.{◌≡◌, ◌↔◌, true};
ghost use Rattle.pt_audit.specs.Remaking.Steps.{IsInForm};

use crate::parse::Hints;
use pt_tags::Reading;

/// Whether readings never fall, the count fits the readings, and the claims are at most 64.
pub fn is_in_form(reading: Option<Reading>, hints: &Hints) -> bool
    ensures { (result ≡ true) ↔ IsInForm reading hints.now }
{
    if let Some(before) = reading
        && hints.first < before
    {
        return false;
    }
    if hints.last < hints.first || hints.count == 0 {
        return false;
    }
    if hints.count == 1 && hints.first != hints.last {
        return false;
    }
    hints.claims <= 64
}
