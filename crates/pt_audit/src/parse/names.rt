//! Platforms and links by their names.

ghost use Rattle.std.specs.Prelude.{◌≡◌, ◌<◌, ℕ, Some, length, slice_get};
ghost use Rattle.pt_types.specs.Lawful.{IsLawful};
ghost use Rattle.pt_types.specs.Lookups.{platform_name};
ghost use Rattle.pt_tables.specs.Names.{receiver_name, sender_name};

use pt_types::Graph;

/// The number of the platform with this name, if there is one.
pub(crate) fn platform_named(graph: &Graph, name: &[u8]) -> Option<u32>
    requires lawful { IsLawful graph.now }
    ensures { (p : ℕ) → p < length graph.now.platforms → name.now ≡ platform_name graph.now p →
        result ≡ Some p }
{
    for (number, platform) in graph.platforms.as_slice().iter().enumerate() {
        if platform.as_str().as_bytes() == name {
            return Some(number as u32);
        }
    }
    None
}

/// The number of the link that leads to the actor with this name, if there is one.
pub(crate) fn link_to(graph: &Graph, name: &[u8]) -> Option<u32>
    requires lawful { IsLawful graph.now }
    ensures { (l : ℕ) → l < length graph.now.links →
        name.now ≡ receiver_name graph.now (slice_get graph.now.links l) → result ≡ Some l }
{
    for (number, link) in graph.links.as_slice().iter().enumerate() {
        if graph.actor_name(link.to).as_bytes() == name {
            return Some(number as u32);
        }
    }
    None
}

/// The number of the link that leads from the actor with this name, if there is one.
pub(crate) fn link_from(graph: &Graph, name: &[u8]) -> Option<u32>
    requires lawful { IsLawful graph.now }
    ensures { (l : ℕ) → l < length graph.now.links →
        name.now ≡ sender_name graph.now (slice_get graph.now.links l) → result ≡ Some l }
{
    for (number, link) in graph.links.as_slice().iter().enumerate() {
        if graph.actor_name(link.from).as_bytes() == name {
            return Some(number as u32);
        }
    }
    None
}
