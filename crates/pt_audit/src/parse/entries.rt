//! The lines of a turn after its first.

ghost use Rattle.std.specs.Prelude.{◌≡◌, ◌++◌, ◌∷◌, [], Some, slice_get};
ghost use Rattle.pt_tags.specs.declared.message.Message.{Message};
ghost use Rattle.pt_types.specs.declared.firing.OnLink.{OnLink};
ghost use Rattle.pt_types.specs.Lawful.{IsLawful};
ghost use Rattle.pt_tables.specs.Held.{FitsTag, IsHeld};
ghost use Rattle.pt_tables.specs.Names.{receiver_name, sender_name};
ghost use Rattle.pt_audit.specs.Parsing.Hints.{IsLoggableOn};
ghost use Rattle.pt_audit.specs.Parsing.Items.{IsLoggableItem, Item, entry_of, item_line, message_fields, message_text, word_is};

use crate::parse::fields::cut;
use crate::parse::names::{link_from, link_to};
use crate::parse::numbers::{number, signed};
use pt_tags::{Message, Tag};
use pt_types::{Graph, OnLink};

/// What a line of a turn after its first says of it.
#[derive(Clone, Copy)]
pub(crate) enum Entry {
    /// The number of a result posted.
    Post(u64),
    /// A row entered.
    Row,
    /// A message taken.
    Take(OnLink),
    /// A task claimed.
    Claim,
    /// A message sent.
    Sent(OnLink),
}

/// The first word of such a line.
#[derive(Clone, Copy)]
enum Word {
    Post,
    Row,
    Take,
    Claim,
    Sent,
}

/// Reads one of these lines, without its line feed.
pub(crate) fn read_entry(graph: &Graph, line: &[u8]) -> Option<Entry>
    requires lawful { IsLawful graph.now }
    ensures { (item : Item) → IsLoggableItem graph.now item →
        line.now ++ 10 ∷ [] ≡ item_line graph.now item → result ≡ Some (entry_of item) }
{
    let (word, fields) = cut(line, b',');
    match word_of(word)? {
        Word::Post => Some(Entry::Post(number(fields)?)),
        Word::Row => Some(Entry::Row),
        Word::Take => Some(Entry::Take(read_taken(graph, fields)?)),
        Word::Claim => Some(Entry::Claim),
        Word::Sent => Some(Entry::Sent(read_sent(graph, fields)?)),
    }
}

/// The word with this spelling, if there is one.
fn word_of(text: &[u8]) -> Option<Word>
    ensures { result ≡ word_is text.now }
{
    if text == b"post".as_slice() {
        Some(Word::Post)
    } else if text == b"row".as_slice() {
        Some(Word::Row)
    } else if text == b"take".as_slice() {
        Some(Word::Take)
    } else if text == b"claim".as_slice() {
        Some(Word::Claim)
    } else if text == b"sent".as_slice() {
        Some(Word::Sent)
    } else {
        None
    }
}

/// Reads a message taken, from the receiver's name on.
fn read_taken(graph: &Graph, fields: &[u8]) -> Option<OnLink>
    requires lawful { IsLawful graph.now }
    ensures { (x : OnLink) → IsLoggableOn graph.now x →
        fields.now ≡ message_fields
        (receiver_name graph.now (slice_get graph.now.links x.link)) x.message → result ≡ Some x }
{
    let (name, fields) = cut(fields, b',');
    Some(OnLink {
        link: link_to(graph, name)?,
        message: read_message(fields)?,
    })
}

/// Reads a message sent, from the sender's name on.
fn read_sent(graph: &Graph, fields: &[u8]) -> Option<OnLink>
    requires lawful { IsLawful graph.now }
    ensures { (x : OnLink) → IsLoggableOn graph.now x →
        fields.now ≡ message_fields
        (sender_name graph.now (slice_get graph.now.links x.link)) x.message → result ≡ Some x }
{
    let (name, fields) = cut(fields, b',');
    Some(OnLink {
        link: link_from(graph, name)?,
        message: read_message(fields)?,
    })
}

/// Reads a message: `TIME,STEP,VALUE` or `end`.
fn read_message(fields: &[u8]) -> Option<Message>
    ensures { (message : Message) → FitsTag message → IsHeld message →
        fields.now ≡ message_text message → result ≡ Some message }
{
    if fields == b"end".as_slice() {
        return Some(Message::End);
    }
    let (time, fields) = cut(fields, b',');
    let (step, value) = cut(fields, b',');
    let tag = Tag {
        time: number(time)?,
        step: number(step)?,
    };
    Some(Message::Event {
        tag,
        value: signed(value)?,
    })
}
