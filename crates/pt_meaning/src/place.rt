//! Where events wait, in the order in which they fire.

ghost use Rattle.std.specs.Prelude.{◌≡◌, ◌⊎◌};
ghost use Rattle.pt_meaning.specs.Both.{IsUpTo};
ghost use Rattle.pt_meaning.specs.Front.{is_place_of};

use pt_tags::Tag;

/// Where an event waits. Places are ordered as the events fire: by tag, rank, actor and port.
#[derive(Clone, Copy, Debug, PartialEq, Eq, PartialOrd, Ord)]
pub struct EventPlace {
    pub tag: Tag,
    pub rank: u32,
    pub actor: u32,
    pub port: u32,
}

/// Whether a place is of this tag and actor.
pub(crate) fn is_of(tag: Tag, actor: u32, place: &EventPlace) -> bool
    ensures { result ≡ is_place_of tag actor place.now }
{
    place.actor == actor && tag == place.tag
}

/// The one of two places that comes first.
pub(crate) fn sooner(x: EventPlace, y: EventPlace) -> EventPlace
    ensures one { (result ≡ x) ⊎ (result ≡ y) }
    ensures first { IsUpTo result x × IsUpTo result y }
{
    if x <= y { x } else { y }
}
