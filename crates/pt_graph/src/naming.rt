//! Which names of a file are valid.

ghost use Rattle.std.specs.Prelude.{◌≡◌, ◌&&◌, position, not};
ghost use Rattle.std.specs.List.{list_all};
ghost use Rattle.pt_types.specs.Names.{is_name, is_file, is_letter, in_name, in_file};
ghost use Rattle.pt_graph_text.specs.declared.document.WireText.{WireText};
ghost use Rattle.pt_graph_text.specs.declared.document.LinkText.{LinkText};
ghost use Rattle.pt_graph_text.specs.declared.document.PairText.{PairText};
ghost use Rattle.pt_graph_text.specs.declared.document.RowText.{RowText};
ghost use Rattle.pt_graph.specs.Naming.{name_place, actor_is_named, kind_is_named, guard_is_named};

use crate::ranges::found;
use pt_graph_text::{
    ActorText, Document, KindText, LinkText, PairText, Part, Place, RowText, WireText, Word,
};
use pt_tags::List;

/// The first place with a name that is not valid.
#[tactic(auto, unfolding(crate::specs::Naming::name_place))]
pub fn name_place(document: &Document) -> Option<Place>
    ensures { result ≡ name_place document.now }
{
    found(Part::Platform, unnamed_platform(&document.platforms))
        .or(found(Part::Actor, unnamed_actor(&document.actors)))
        .or(found(Part::Wire, unnamed_wire(&document.wires)))
        .or(found(Part::Link, unnamed_link(&document.links)))
        .or(found(Part::Pair, unnamed_pair(&document.pairs)))
}

fn unnamed_platform(platforms: &List<Word>) -> Option<usize>
    ensures { result ≡ position (λ n. not (is_name n)) platforms.now }
{
    platforms.as_slice().iter().position(|n| !is_name(n))
}

fn unnamed_actor(actors: &List<ActorText>) -> Option<usize>
    ensures { result ≡ position (λ a. not (actor_is_named a)) actors.now }
{
    actors.as_slice().iter().position(|a| !actor_is_named(a))
}

fn unnamed_wire(wires: &List<WireText>) -> Option<usize>
    ensures { result ≡ position (λ (w : WireText). not (is_name w.from && is_name w.to)) wires.now }
{
    wires
        .as_slice()
        .iter()
        .position(|w| !(is_name(&w.from) && is_name(&w.to)))
}

fn unnamed_link(links: &List<LinkText>) -> Option<usize>
    ensures { result ≡ position (λ (l : LinkText). not (is_name l.from && is_name l.to)) links.now }
{
    links
        .as_slice()
        .iter()
        .position(|l| !(is_name(&l.from) && is_name(&l.to)))
}

fn unnamed_pair(pairs: &List<PairText>) -> Option<usize>
    ensures { result ≡ position (λ (p : PairText). not (is_name p.a && is_name p.b)) pairs.now }
{
    pairs
        .as_slice()
        .iter()
        .position(|p| !(is_name(&p.a) && is_name(&p.b)))
}

fn actor_is_named(actor: &ActorText) -> bool
    ensures { result ≡ actor_is_named actor.now }
{
    is_name(&actor.name) && is_name(&actor.platform) && kind_is_named(&actor.kind)
}

fn kind_is_named(kind: &KindText) -> bool
    ensures { result ≡ kind_is_named kind.now }
{
    match kind {
        KindText::Sensor { file, .. } => is_file(file),
        KindText::Machine { rows, .. } => guards_are_named(rows.as_slice()),
        KindText::Block { block } => is_name(block),
        _ => true,
    }
}

fn guards_are_named(rows: &[RowText]) -> bool
    ensures { result ≡ list_all (λ (r : RowText). guard_is_named r.guard) rows.now }
{
    rows.iter().all(|row| guard_is_named(&row.guard))
}

fn guard_is_named(guard: &Option<Word>) -> bool
    ensures { result ≡ guard_is_named guard.now }
{
    match guard {
        Some(name) => is_name(name),
        None => true,
    }
}

fn is_name(name: &Word) -> bool
    ensures { result ≡ is_name name.now }
{
    is_name_text(name.as_str().as_bytes())
}

fn is_name_text(bytes: &[u8]) -> bool
    ensures { result ≡ is_name bytes.now }
{
    1 <= bytes.len() && bytes.len() <= 32 && is_letter(bytes[0]) && all_in_name(bytes)
}

fn all_in_name(bytes: &[u8]) -> bool
    ensures { result ≡ list_all in_name bytes.now }
{
    bytes.iter().all(|b| in_name(*b))
}

fn is_file(name: &Word) -> bool
    ensures { result ≡ is_file name.now }
{
    is_file_text(name.as_str().as_bytes())
}

fn is_file_text(bytes: &[u8]) -> bool
    ensures { result ≡ is_file bytes.now }
{
    1 <= bytes.len() && bytes.len() <= 120 && all_in_file(bytes)
}

fn all_in_file(bytes: &[u8]) -> bool
    ensures { result ≡ list_all in_file bytes.now }
{
    bytes.iter().all(|b| in_file(*b))
}

fn is_letter(byte: u8) -> bool
    ensures { result ≡ is_letter byte }
{
    (b'A' <= byte && byte <= b'Z') || (b'a' <= byte && byte <= b'z')
}

fn in_name(byte: u8) -> bool
    ensures { result ≡ in_name byte }
{
    is_letter(byte) || (b'0' <= byte && byte <= b'9') || byte == b'_'
}

fn in_file(byte: u8) -> bool
    ensures { result ≡ in_file byte }
{
    in_name(byte) || byte == b'-' || byte == b'.' || byte == b'/'
}
