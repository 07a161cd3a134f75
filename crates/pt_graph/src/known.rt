//! Repeated names and unknown names.

ghost use Rattle.std.specs.Prelude.{◌≡◌, ◌&&◌, ℕ, [], List, position, not, is_some, IfOk};
ghost use Rattle.std.specs.List.{list_any};
ghost use Rattle.pt_graph.specs.Index.{at_name};
ghost use Rattle.pt_graph.specs.Chains.{found, first_index, ◌<|>◌};
ghost use Rattle.pt_graph_text.specs.declared.fault.Part.TheVariants as part;
ghost use Rattle.pt_graph_text.specs.declared.document.ActorText.{ActorText};
ghost use Rattle.pt_graph_text.specs.declared.document.LinkText.{LinkText};
ghost use Rattle.pt_graph_text.specs.declared.document.WireText.{WireText};
ghost use Rattle.pt_graph_text.specs.declared.document.PairText.{PairText};
ghost use Rattle.pt_graph.specs.Known.{first_named, itself, name_of_actor, same_pair, pair_again_from, repeated_place, is_platform, is_known, unknown_by};

use crate::index::repeated;
use crate::ranges::found;
use pt_graph_text::{ActorText, Document, LinkText, PairText, Part, Place, WireText, Word};
use pt_tags::List;
use std::alloc::{AllocError, Global};
use std::collections::BTreeMap;

/// Something with a name.
pub trait HasName {
    ghost name_of: { Self → List ℕ };

    fn name(&self) -> &str
        ensures { result.now ≡ name_of self.now };
}

impl HasName for Word {
    ghost use Rattle.pt_graph.specs.Known.{itself};

    ghost name_of = { itself };

    fn name(&self) -> &str {
        self.as_str()
    }
}

impl HasName for ActorText {
    ghost use Rattle.pt_graph.specs.Known.{name_of_actor};

    ghost name_of = { name_of_actor };

    fn name(&self) -> &str {
        self.name.as_str()
    }
}

/// The first place that has the name of an earlier one, or the platforms of an earlier pair.
#[tactic(auto, unfolding(crate::specs::Known::repeated_place))]
pub fn repeated_place(alloc: Global, document: &Document) -> Result<Option<Place>, AllocError>
    ensures { IfOk result (λ p. p ≡ repeated_place document.now) }
{
    let platforms = repeated(alloc, document.platforms.as_slice())?;
    let actors = repeated(alloc, document.actors.as_slice())?;
    let pairs = pair_again(document.pairs.as_slice());
    Ok(first_place(platforms, actors, pairs))
}

fn first_place(
    platforms: Option<usize>,
    actors: Option<usize>,
    pairs: Option<usize>,
) -> Option<Place>
    ensures { result ≡ found part.Platform platforms <|> found part.Actor actors <|> found part.Pair
        pairs }
{
    found(Part::Platform, platforms)
        .or(found(Part::Actor, actors))
        .or(found(Part::Pair, pairs))
}

/// The index of the first pair that names the two platforms of an earlier pair.
fn pair_again(pairs: &[PairText]) -> Option<usize>
    ensures { result ≡ pair_again_from [] 0 pairs.now }
{
    for (i, pair) in pairs.iter().enumerate() {
        if has_pair(&pairs[..i], pair) {
            return Some(i);
        }
    }
    None
}

fn has_pair(pairs: &[PairText], pair: &PairText) -> bool
    ensures { result ≡ list_any (same_pair pair.now) pairs.now }
{
    pairs.iter().any(|other| same_pair(pair, other))
}

fn same_pair(pair: &PairText, other: &PairText) -> bool
    ensures { result ≡ same_pair pair.now other.now }
{
    (pair.a.as_str() == other.a.as_str() && pair.b.as_str() == other.b.as_str())
        || (pair.a.as_str() == other.b.as_str() && pair.b.as_str() == other.a.as_str())
}

/// The first place that names an unknown platform or actor; `numbers` has the numbers of the actors.
#[tactic(auto, unfolding(crate::specs::Known::unknown_by))]
pub fn unknown_place<'a>(
    document: &'a Document,
    numbers: &BTreeMap<&'a str, usize>,
) -> Option<Place>
    ensures { result ≡ unknown_by (at_name numbers.now) document.now }
{
    found(Part::Actor, lost_actor(document))
        .or(found(Part::Wire, lost_wire(numbers, document.wires.as_slice())))
        .or(found(Part::Link, lost_link(numbers, document.links.as_slice())))
        .or(found(Part::Pair, lost_pair(document)))
}

fn lost_actor(document: &Document) -> Option<usize>
    ensures { result ≡ position (λ (a : ActorText). not
        (is_platform document.now.platforms a.platform)) document.now.actors }
{
    let platforms = &document.platforms;
    let actors = document.actors.as_slice();
    actors
        .iter()
        .position(|a| !is_platform(platforms, &a.platform))
}

fn lost_pair(document: &Document) -> Option<usize>
    ensures { result ≡ position (λ (p : PairText). not
        (is_platform document.now.platforms p.a && is_platform document.now.platforms p.b))
        document.now.pairs }
{
    let platforms = &document.platforms;
    let pairs = document.pairs.as_slice();
    pairs.iter().position(|p| !(is_platform(platforms, &p.a) && is_platform(platforms, &p.b)))
}

fn lost_wire<'a>(numbers: &BTreeMap<&'a str, usize>, wires: &'a [WireText]) -> Option<usize>
    ensures { result ≡ first_index (λ (w : WireText). not
        (is_known (at_name numbers.now) w.from w.to)) wires.now }
{
    for (i, wire) in wires.iter().enumerate() {
        if !is_known(numbers, &wire.from, &wire.to) {
            return Some(i);
        }
    }
    None
}

fn lost_link<'a>(numbers: &BTreeMap<&'a str, usize>, links: &'a [LinkText]) -> Option<usize>
    ensures { result ≡ first_index (λ (l : LinkText). not
        (is_known (at_name numbers.now) l.from l.to)) links.now }
{
    for (i, link) in links.iter().enumerate() {
        if !is_known(numbers, &link.from, &link.to) {
            return Some(i);
        }
    }
    None
}

fn is_known<'a>(numbers: &BTreeMap<&'a str, usize>, from: &'a Word, to: &'a Word) -> bool
    ensures { result ≡ is_known (at_name numbers.now) from.now to.now }
{
    number_at(numbers, from).is_some() && number_at(numbers, to).is_some()
}

/// The number of a name.
pub fn number_at<'a>(numbers: &BTreeMap<&'a str, usize>, name: &'a Word) -> Option<usize>
    ensures { result ≡ at_name numbers.now name.now }
{
    let name = name.as_str();
    numbers.get(&name).copied()
}

fn is_platform(platforms: &List<Word>, name: &Word) -> bool
    ensures { result ≡ is_platform platforms.now name.now }
{
    index_of(platforms.as_slice(), name.as_str()).is_some()
}

/// The index of the first item with this name.
pub fn index_of<T: HasName>(items: &[T], name: &str) -> Option<usize>
    ensures { result ≡ first_named T.name_of items.now name.now }
{
    items.iter().position(|item| item.name() == name)
}
