//! The queue of a platform.

ghost use Rattle.std.specs.Prelude.{◌≡◌, ◌↔◌, ℕ, ◌+◌, ◌/◌, ◌<◌, ◌≤◌, true, false, None, [], length, IfOk, IsOk, OnOk, OnErr};
ghost use Rattle.pt_tags.specs.declared.tag.Tag.{Tag};
ghost use Rattle.pt_types.specs.declared.graph.Graph.{Graph};
ghost use Rattle.pt_types.specs.declared.graph.Unit.{Unit};
ghost use Rattle.pt_types.specs.Lawful.{IsLawful};
ghost use Rattle.pt_semantics.specs.Claiming.{without_unit};
ghost use Rattle.pt_semantics.specs.Lists.{Each};
ghost use Rattle.pt_semantics.specs.Meaning.{added};
ghost use Rattle.pt_semantics.specs.Units.{HasEvent, unit_inputs};
ghost use Rattle.pt_causality.specs.Delays.{AreLeast, IsUnit, least_of};
ghost use Rattle.pt_queue.specs.Groups.{AreGroups};
ghost use Rattle.pt_queue.specs.Events.{waiting_in, value_in, IsPlaced, IsLeastTag, IsFirstWaiting, IsOnlyUnit, IsBlocked, IsClear, unit_place};

use crate::blocked::is_blocked;
use crate::events::unit_of;
use crate::groups::{Groups, all_groups};
use crate::holders::Holders;
use crate::least_tags::LeastTags;
use crate::lines::{Lines, line_number};
use crate::loose::{remember, settle, widen};
use crate::taking::take_events;
use crate::waiting::Waiting;
use pt_causality::Least;
use pt_tags::{Memory, Tag};
use pt_types::{Event, Graph, Ports, Unit};
use std::alloc::Global;
use std::collections::VecDeque;
use std::marker::Model;

/// How many events memory is reserved for beyond a request.
const AHEAD: usize = 256;

/// How many refused events are remembered from one `reserve` to the next, to grow their lines.
const REFUSED: usize = 64;

/// The pending events of a platform.
///
/// Contracts see the groups of the actors' inputs, the list of events, and `spare`: how many more events fit in memory.
/// What they say of a graph holds for each graph whose actors have these groups.
///
/// An event joins the line of its input. If that needs memory, or if the event comes out of order, it is loose until
/// `reserve` moves it into its line, or until it is taken.
#[derive(Drop)]
pub struct Queue {
    groups: Vec<Groups>,
    /// The least tag of each unit that has events.
    tags: LeastTags,
    holders: Holders,
    lines: Lines,
    loose: VecDeque<Event>,
    spare: usize,
    /// The lines that refused an event since the last `reserve`, to grow at the next one, as far as there is room here. A line
    /// stays here if the event is taken before it joins its line.
    short: Vec<usize>,
}

impl Model for Queue {
    ghost use Rattle.std.specs.Prelude.{◌+◌, ◌≤◌};
    ghost use Rattle.std.specs.VecDeque.{deque_len, deque_capacity};
    ghost use Rattle.pt_queue.specs.Events.{Queued};
    ghost use Rattle.pt_queue.specs.Lines.{AreKept, all_of, with_events};
    ghost use Rattle.pt_queue.specs.Tagged.{AreTags};

    ghost Value = { Queued };

    ghost view = { λ q. record {
      groups = q.groups.items;
      events = all_of (with_events q.lines q.loose.items);
      spare = q.spare;
    } };

    ghost invariant = { λ q. AreKept q.groups.items q.lines q.loose.items
        × (q.spare + deque_len q.loose ≤ deque_capacity q.loose)
        × AreTags q.groups.items (all_of (with_events q.lines q.loose.items)) q.tags };
}

impl Queue {
    /// An empty queue for the units of a graph.
    pub fn new(alloc: Global, graph: &Graph) -> Result<Queue, Memory>
        requires lawful { IsLawful graph.now }
        ensures empty { IfOk result (λ queue. queue.events ≡ []) }
        ensures groups { IfOk result (λ queue. AreGroups graph.now queue.groups) }
    {
        let groups = all_groups(alloc, graph)?;
        let lines = Lines::new(alloc, 8 * groups.len())?;
        let tags = LeastTags::new(alloc, 8 * groups.len())?;
        let holders = Holders::new(alloc, 8 * groups.len())?;
        let short = Vec::with_capacity(alloc, REFUSED)?;
        Ok(Queue {
            groups,
            tags,
            holders,
            lines,
            loose: VecDeque::new(alloc),
            spare: 0,
            short,
        })
    }

    /// Whether there is memory for `count` more events, and each line has room for the event that it refused.
    #[inline(always)]
    fn has_room(&self, count: usize) -> bool
        ensures { result ≡ true → count ≤ self.now.spare }
    {
        self.spare >= count && self.short.is_empty() && self.loose.is_empty()
    }

    /// Reserves memory for at least `count` more events. An error leaves the events and `spare` as they were.
    ///
    /// Inlined up to the test whether anything is to be done: mostly nothing is.
    #[inline(always)]
    pub fn reserve(&mut self, count: usize) -> Result<(), Memory>
        ensures spare { OnOk result (count ≤ self.new.spare) }
        ensures no_less { self.old.spare ≤ self.new.spare }
        ensures events { self.new.events ≡ self.old.events }
        ensures groups { self.new.groups ≡ self.old.groups }
        ensures refused { OnErr result (self.new ≡ self.old) }
        ensures there { count ≤ self.old.spare → IsOk result }
    {
        if self.has_room(count) {
            return Ok(());
        }
        self.make_room(count)
    }

    /// As `reserve`. Moves loose events into their lines, and makes room in the lines that refused events. Memory for `AHEAD`
    /// more events is reserved, so that most turns reserve none.
    #[inline(never)]
    fn make_room(&mut self, count: usize) -> Result<(), Memory>
        ensures spare { OnOk result (count ≤ self.new.spare) }
        ensures no_less { self.old.spare ≤ self.new.spare }
        ensures events { self.new.events ≡ self.old.events }
        ensures groups { self.new.groups ≡ self.old.groups }
        ensures refused { OnErr result (self.new ≡ self.old) }
        ensures there { count ≤ self.old.spare → IsOk result }
    {
        settle(&mut self.lines, &mut self.loose);
        widen(&mut self.lines, self.short.as_slice());
        self.short.clear();
        if self.spare >= count {
            return Ok(());
        }
        let ahead = count.saturating_add(AHEAD);
        self.loose.reserve(ahead)?;
        self.spare = ahead;
        Ok(())
    }

    /// Inserts an event at an input and tag where none waits. Allocates nothing.
    #[inline(always)]
    pub fn insert(&mut self, event: Event)
        requires spare { 0 < self.old.spare }
        requires actor { event.actor < length self.old.groups }
        requires port { event.port < 8 }
        requires absent { waiting_in self.old.events event.actor event.port event.tag ≡ None }
        ensures waits { waiting_in self.new.events
            ≡ added (waiting_in self.old.events) (value_in event) }
        ensures spare { self.new.spare + 1 ≡ self.old.spare }
        ensures groups { self.new.groups ≡ self.old.groups }
    {
        self.spare -= 1;
        let unit = unit_of(self.groups.as_slice(), &event);
        self.tags.lower(unit, event.tag);
        let line = line_number(event.actor, event.port);
        if !self.lines.push(line, event) {
            remember(&mut self.short, line);
            match self.loose.push_back(event) {
                Ok(()) => (),
                Err(_) => unreachable!(),
            }
        }
    }

    /// The least tag of the events at a unit's inputs; `None` if there are none.
    pub fn least(&self, unit: Unit) -> Option<Tag>
        ensures { (g : Graph) → AreGroups g self.now.groups →
            IsLeastTag g (waiting_in self.now.events) unit result }
    {
        self.tags.of(unit)
    }

    /// The first unit that has events, of those whose place isn't before `from`, with its least tag.
    ///
    /// The places of units rise by actor and group. So the next unit is the first from `place_of` of this one plus 1 on.
    #[inline(always)]
    pub fn first_waiting(&self, from: usize) -> Option<Waiting>
        ensures { (g : Graph) → AreGroups g self.now.groups →
            IsFirstWaiting g (waiting_in self.now.events) from result }
    {
        self.tags.first_waiting(from)
    }

    /// A time in microseconds that no event of a unit with its place in this word of 64 places is before. It can be less than the
    /// least of their times. If none of these units has events it is `u64::MAX`, or 0 for a word past the last one.
    #[inline(always)]
    pub fn not_before(&self, word: usize) -> u64
        ensures { (g : Graph) → AreGroups g self.now.groups → (u : Unit) (t : Tag) →
            HasEvent g (waiting_in self.now.events) u t → unit_place u / 64 ≡ word →
            result ≤ t.time }
    {
        self.tags.not_before(word)
    }

    /// Whether this is the only unit that has events.
    #[inline(always)]
    pub fn is_only(&self, unit: Unit) -> bool
        ensures { (g : Graph) → AreGroups g self.now.groups → result ≡ true →
            IsOnlyUnit g (waiting_in self.now.events) unit }
    {
        self.tags.is_only(unit)
    }

    /// Whether many units have events. Nothing is proved of it: it only says which way is faster.
    pub fn are_many(&self) -> bool {
        self.tags.are_many()
    }

    /// Removes the events of a tag at a unit's inputs, and returns their values by input.
    pub fn take(&mut self, unit: Unit, tag: Tag) -> Ports
        ensures inputs { (g : Graph) → AreGroups g self.old.groups →
            result ≡ unit_inputs g (waiting_in self.old.events) unit tag }
        ensures waits { (g : Graph) → AreGroups g self.old.groups →
            waiting_in self.new.events ≡ without_unit g (waiting_in self.old.events) unit tag }
        ensures spare { self.new.spare ≡ self.old.spare }
        ensures groups { self.new.groups ≡ self.old.groups }
    {
        let mut inputs = Ports::new();
        let least = take_events(
            &mut self.lines,
            &mut self.loose,
            self.groups.as_slice(),
            unit,
            tag,
            &mut inputs,
        );
        self.tags.set(unit, least);
        inputs
    }

    /// Whether an event that waits for another unit can lead to this one at the tag or before.
    ///
    /// It can if the event's tag plus the least delay from its unit to this one is at most `tag`, provided that `least` gives
    /// the least delays of a lawful graph with these groups. (That such an event holds up a unit is from RTAS 2007.)
    pub fn blocked(&self, unit: Unit, tag: Tag, least: &Least) -> bool
        ensures blocked { (g : Graph) → IsLawful g → AreGroups g self.now.groups →
            AreLeast g (least_of least.now) → IsUnit g unit
            → (result ≡ true) ↔ IsBlocked g (waiting_in self.now.events) unit tag }
        ensures clear { (g : Graph) → IsLawful g → AreGroups g self.now.groups →
            AreLeast g (least_of least.now) → IsUnit g unit
            → (result ≡ false) ↔ IsClear g (waiting_in self.now.events) unit tag }
    {
        is_blocked(
            self.groups.as_slice(),
            &self.tags,
            &self.holders,
            unit,
            tag,
            least,
        )
    }

    /// The unit that was last found to hold up this one; `None` if none ever was. It may have let go since.
    pub fn last_holder(&self, unit: Unit) -> Option<Unit> {
        self.holders.of(unit)
    }

    /// The number of actors of the graph. Each event waits at one of them, at one of eight inputs.
    pub fn actors(&self) -> usize
        ensures actors { result ≡ length self.now.groups }
        ensures placed { Each (IsPlaced self.now.groups) self.now.events }
    {
        self.groups.len()
    }

    /// Whether no event waits.
    pub fn is_empty(&self) -> bool
        ensures { (result ≡ true) ↔ ((a p : ℕ) (t : Tag) →
            waiting_in self.now.events a p t ≡ None) }
    {
        self.tags.first_waiting(0).is_none()
    }
}
