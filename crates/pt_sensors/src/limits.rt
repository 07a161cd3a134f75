//! The limits of the files of sensors and of the network (this project's own choice).

ghost use Rattle.std.specs.Prelude.{◌≡◌, ◌≤◌};
ghost use Rattle.pt_types.specs.Limits.{greatest_claims};
ghost use Rattle.pt_sensors.specs.Limits.{file_limits};

use pt_types::USUAL_CLAIMS;

/// The limits of a file.
#[derive(Clone, Copy, Debug, PartialEq, Eq)]
pub struct FileLimits {
    /// The most rows after the header.
    pub rows: u32,
    /// The most bytes.
    pub bytes: usize,
}

/// The limits of a file, by the most claims of a platform: 100,000 rows and 8,388,608 bytes for up to 200,000 claims, and else as
/// many rows as claims, and 64 bytes for each.
#[tactic(auto, unfolding(crate::specs::Limits::file_limits))]
pub fn file_limits(claims: u64) -> FileLimits
    requires { claims ≤ greatest_claims }
    ensures { result ≡ file_limits claims }
{
    if claims <= USUAL_CLAIMS {
        FileLimits {
            rows: 100_000,
            bytes: 8_388_608,
        }
    } else {
        FileLimits {
            rows: claims as u32,
            bytes: claims as usize * 64,
        }
    }
}
