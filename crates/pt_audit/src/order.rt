//! The order of logged turns: platform after platform, and no third turn after two quiet ones.

ghost use Rattle.std.specs.Prelude.{◌≡◌};
ghost use Rattle.pt_audit.specs.Verifying.{entered, is_joined, with_turn};

/// The platform of the last logged turn, and of its last two logged turns the count of each that is quiet.
#[derive(Clone, Copy, Debug, PartialEq, Eq)]
pub struct Order {
    pub platform: u32,
    pub before: Option<u64>,
    pub last: Option<u64>,
}

impl Order {
    /// The order when a turn of this platform follows; `None` if none may.
    pub fn entered(self, platform: u32) -> Option<Order>
        ensures { result ≡ entered platform self }
    {
        if platform < self.platform {
            return None;
        }
        if self.platform < platform {
            return Some(Order {
                platform,
                before: None,
                last: None,
            });
        }
        if is_joined(self.before, self.last) {
            Some(self)
        } else {
            None
        }
    }

    /// The order after one more turn, with its count if it is quiet.
    pub fn with_turn(self, quiet: Option<u64>) -> Order
        ensures { result ≡ with_turn quiet self }
    {
        Order {
            platform: self.platform,
            before: self.last,
            last: quiet,
        }
    }
}

/// Whether a third turn may stand after two, with their counts if they are quiet: two quiet turns are recorded as one unless
/// the first has the greatest count.
fn is_joined(before: Option<u64>, last: Option<u64>) -> bool
    ensures { result ≡ is_joined before last }
{
    match (before, last) {
        (Some(count), Some(_)) => count == u64::MAX,
        _ => true,
    }
}
