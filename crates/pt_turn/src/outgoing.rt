//! The messages that a platform sends.

ghost use Rattle.std.specs.Prelude.{◌≡◌, ◌==◌, ◌<◌, length, slice_get};
ghost use Rattle.pt_semantics.specs.Closing.{on_link};
ghost use Rattle.pt_turn.specs.Gone.{FirstHasGone, last_sent};

use crate::platform::Platform;
use pt_tags::Message;
use pt_types::OnLink;

impl Platform {
    /// Whether all messages are sent.
    pub fn sent_all(&self) -> bool
        ensures { result ≡ (length self.now.outbox == 0) }
    {
        self.progress.fields.outbox.is_empty()
    }

    /// The next message to send on a link; `None` if there is none.
    pub fn outgoing(&self, link: u32) -> Option<Message>
        ensures { result ≡ slice_get (on_link link self.now.outbox) 0 }
    {
        self.progress.fields.outbox.first(link)
    }

    /// Moves the next message of a link from the outbox to the messages sent since the last turn, of which there are at most
    /// 64 for each link. Allocates nothing.
    pub fn went(&mut self, link: u32)
        requires begun { 0 < length self.old.turns }
        requires waits { 0 < length (on_link link self.old.outbox) }
        requires few { length (on_link link (last_sent self.old.turns)) < 64 }
        ensures { FirstHasGone self.old self.new link }
    {
        let Some(message) = self.progress.fields.outbox.pop(link) else {
            unreachable!();
        };
        self.progress
            .history
            .send([OnLink { link, message }].as_slice());
    }
}
