//! Pushing the messages of a platform.

ghost use Rattle.std.specs.Prelude.{◌≡◌, ◌<◌, ◌≤◌, [], false, length, true};
ghost use Rattle.std.specs.List.{list_all};
ghost use Rattle.pt_semantics.specs.Turn.{is_empty};
ghost use Rattle.pt_semantics.specs.Closing.{on_link};
ghost use Rattle.pt_turn.specs.Gone.{last_sent};
ghost use Rattle.pt_visits.specs.Pushing.{ArePushed, IsPushed};

use pt_links::Pipe;
use pt_turn::Platform;

/// Pushes the messages of a link's outbox into its pipe, until the outbox is empty or the pipe is full.
fn push_from(platform: &mut Platform, link: u32, pipe: &mut Pipe)
    requires begun { 0 < length platform.old.turns }
    requires nothing_sent { on_link link (last_sent platform.old.turns) ≡ [] }
    ensures { IsPushed link platform.old platform.new pipe.old pipe.new }
{
    while let Some(message) = platform.outgoing(link) {
        if pipe.push(message).is_err() {
            return;
        }
        platform.went(link);
    }
}

/// Pushes the messages of a platform's outboxes into the pipes, link by link in graph order, each until its outbox is empty
/// or its pipe is full. Mostly there are none, so the caller only looks for them. If there are, messages may be `under_way`.
#[inline(always)]
pub fn push_all(platform: &mut Platform, pipes: &mut [Pipe], under_way: &mut bool)
    requires begun { 0 < length platform.old.turns }
    requires nothing_sent { last_sent platform.old.turns ≡ [] }
    requires few { length pipes.old ≤ 64 }
    requires none { under_way.old ≡ false → list_all is_empty pipes.old ≡ true }
    ensures pushed { ArePushed platform.old platform.new pipes.old pipes.new }
    ensures none { under_way.new ≡ false → list_all is_empty pipes.new ≡ true }
{
    if platform.sent_all() {
        return;
    }
    *under_way = true;
    push_each(platform, pipes);
}

/// The same, link by link. Not inlined, since most turns send nothing.
#[inline(never)]
fn push_each(platform: &mut Platform, pipes: &mut [Pipe])
    requires begun { 0 < length platform.old.turns }
    requires nothing_sent { last_sent platform.old.turns ≡ [] }
    requires few { length pipes.old ≤ 64 }
    ensures { ArePushed platform.old platform.new pipes.old pipes.new }
{
    for l in 0..pipes.len() {
        push_from(platform, l as u32, &mut pipes[l]);
    }
}
