//! Taking the messages that have arrived at a platform.

ghost use Rattle.std.specs.Prelude.{◌≡◌, ◌++◌, [], OnOk, false, length, map, true};
ghost use Rattle.std.specs.List.{list_all};
ghost use Rattle.pt_semantics.specs.Turn.{is_empty};
ghost use Rattle.pt_types.specs.Lawful.{IsLawful};
ghost use Rattle.pt_types.specs.Lookups.{platform_of};
ghost use Rattle.pt_visits.specs.Pipes.{arriving, emptied, put_on};

use pt_links::Pipe;
use pt_tags::Memory;
use pt_types::{Graph, OnLink};

/// Takes all messages from the pipe of a link.
fn take_from(pipe: &mut Pipe, link: u32, taken: &mut Vec<OnLink>) -> Result<(), Memory>
    ensures taken { OnOk result (taken.new.items ≡ taken.old.items ++ map (put_on link) pipe.old) }
    ensures pipe { OnOk result (pipe.new ≡ []) }
{
    while let Some(message) = pipe.take() {
        if taken.push(OnLink { link, message }).is_err() {
            return Err(Memory);
        }
    }
    Ok(())
}

/// Whether a pipe has no message.
fn is_empty(pipe: &Pipe) -> bool
    ensures { result ≡ is_empty pipe.now }
{
    pipe.peek().is_none()
}

/// Whether no pipe has a message.
fn are_empty(pipes: &[Pipe]) -> bool
    ensures { result ≡ list_all is_empty pipes.now }
{
    pipes.iter().all(|pipe| is_empty(pipe))
}

/// Takes all messages from the links that lead to a platform, link by link in graph order. Mostly no link has a message, so
/// the caller only looks for one, and not even that unless a message may be `under_way`, which then says what it found.
#[inline(always)]
pub fn take_all(
    graph: &Graph,
    number: u32,
    pipes: &mut [Pipe],
    taken: &mut Vec<OnLink>,
    under_way: &mut bool,
) -> Result<(), Memory>
    requires lawful { IsLawful graph.now }
    requires links { length pipes.old ≡ length graph.now.links }
    requires none { under_way.old ≡ false → list_all is_empty pipes.old ≡ true }
    ensures taken { OnOk result (taken.new.items
        ≡ taken.old.items ++ arriving graph.now number 0 pipes.old) }
    ensures pipes { OnOk result (pipes.new ≡ emptied graph.now number 0 pipes.old) }
    ensures none { OnOk result (under_way.new ≡ false → list_all is_empty pipes.new ≡ true) }
{
    if !*under_way {
        return Ok(());
    }
    if are_empty(pipes) {
        *under_way = false;
        return Ok(());
    }
    take_each(graph, number, pipes, taken)
}

/// The same, link by link. Not inlined, since at most visits no message is under way.
#[inline(never)]
fn take_each(
    graph: &Graph,
    number: u32,
    pipes: &mut [Pipe],
    taken: &mut Vec<OnLink>,
) -> Result<(), Memory>
    requires lawful { IsLawful graph.now }
    requires links { length pipes.old ≡ length graph.now.links }
    ensures taken { OnOk result (taken.new.items
        ≡ taken.old.items ++ arriving graph.now number 0 pipes.old) }
    ensures pipes { OnOk result (pipes.new ≡ emptied graph.now number 0 pipes.old) }
{
    let links = graph.links.as_slice();
    for l in 0..links.len() {
        if pipes[l].peek().is_none() {
            continue;
        }
        if graph.platform_of(links[l].to) == number {
            take_from(&mut pipes[l], l as u32, taken)?;
        }
    }
    Ok(())
}
