//! A link whose two ends have the same owner.

ghost use Rattle.std.specs.Prelude.{◌≡◌, ◌≤◌, ◌↔◌, ◌++◌, ◌∷◌, [], IfErr, IsErr, IsNone, OnErr, OnOk, length, option_map, option_to_list, slice_get};

use pt_tags::Message;
use std::marker::Model;

/// The greatest number of messages that a link holds.
pub const PLACES: usize = 64;

/// The messages pushed and not taken yet. Contracts see them as a list, the oldest first.
#[derive(Drop)]
pub struct Pipe {
    places: [Message; PLACES],
    /// The index of the oldest message.
    oldest: usize,
    count: usize,
}

impl Model for Pipe {
    ghost use Rattle.std.specs.Prelude.{◌<◌, ◌≤◌, List};
    ghost use Rattle.pt_tags.specs.declared.message.Message.{Message as Sent};
    ghost use Rattle.pt_links.specs.declared.pipe.TheConstants.{PLACES};
    ghost use Rattle.pt_links.specs.Ring.{window};

    ghost Value = { List Sent };

    ghost view = { λ p. window p.oldest p.count p.places };

    ghost invariant = { λ p. (p.oldest < PLACES) × (p.count ≤ PLACES) };
}

impl Pipe {
    /// An empty pipe.
    pub fn new() -> Pipe
        ensures { result ≡ [] }
    {
        Pipe {
            places: [Message::End; PLACES],
            oldest: 0,
            count: 0,
        }
    }

    /// Appends a message, or returns it if the pipe is full. Allocates nothing.
    pub fn push(&mut self, message: Message) -> Result<(), Message>
        ensures ok { OnOk result (self.new ≡ self.old ++ message ∷ []) }
        ensures given_back { IfErr result (λ back. back ≡ message) }
        ensures unchanged { OnErr result (self.new ≡ self.old) }
        ensures full { IsErr result ↔ (length self.old ≡ PLACES) }
        ensures at_most { length self.new ≤ PLACES }
    {
        if self.count == PLACES {
            return Err(message);
        }
        self.places[(self.oldest + self.count) % PLACES] = message;
        self.count += 1;
        Ok(())
    }

    /// The oldest message, which stays in the pipe; `None` if there is none.
    pub fn peek(&self) -> Option<&Message>
        ensures { option_map (λ message. message.now) result ≡ slice_get self.now 0 }
    {
        if self.count == 0 {
            return None;
        }
        Some(&self.places[self.oldest])
    }

    /// Removes and returns the oldest message. Allocates nothing.
    pub fn take(&mut self) -> Option<Message>
        ensures oldest { self.old ≡ option_to_list result ++ self.new }
        ensures none { IsNone result ↔ (self.old ≡ []) }
    {
        if self.count == 0 {
            return None;
        }
        let message = self.places[self.oldest];
        self.oldest = (self.oldest + 1) % PLACES;
        self.count -= 1;
        Some(message)
    }
}
