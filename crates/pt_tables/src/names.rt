//! The names of the two ends of a link.

ghost use Rattle.std.specs.Prelude.{◌≡◌, slice_get};
ghost use Rattle.pt_tables.specs.Names.{receiver_name, sender_name};

use pt_types::Graph;

/// The name of the actor that a link leads to; empty if there is no such link.
pub(crate) fn receiver_name(graph: &Graph, link: u32) -> &str
    ensures { result.now ≡ receiver_name graph.now (slice_get graph.now.links link) }
{
    match graph.links.as_slice().get(link as usize) {
        Some(link) => graph.actor_name(link.to),
        None => "",
    }
}

/// The name of the actor that a link leads from; empty if there is no such link.
pub(crate) fn sender_name(graph: &Graph, link: u32) -> &str
    ensures { result.now ≡ sender_name graph.now (slice_get graph.now.links link) }
{
    match graph.links.as_slice().get(link as usize) {
        Some(link) => graph.actor_name(link.from),
        None => "",
    }
}
