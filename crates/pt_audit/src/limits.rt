//! The limit of a log (this project's own choice).

ghost use Rattle.std.specs.Prelude.{◌≡◌, ◌≤◌};
ghost use Rattle.pt_types.specs.Limits.{greatest_claims};
ghost use Rattle.pt_audit.specs.Limits.{log_limit};

use pt_types::{MOST_LOG_BYTES, USUAL_CLAIMS};

/// The most bytes of a log that is judged, by the most claims of a platform: 67,108,864 for up to 200,000 claims, and else 1,024 for
/// each claim.
#[tactic(auto, unfolding(crate::specs::Limits::log_limit))]
pub fn log_limit(claims: u64) -> usize
    requires { claims ≤ greatest_claims }
    ensures { result ≡ log_limit claims }
{
    if claims <= USUAL_CLAIMS {
        MOST_LOG_BYTES
    } else {
        claims as usize * 1024
    }
}
