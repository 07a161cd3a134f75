//! The ranges of the numbers of a file.

ghost use Rattle.std.specs.Prelude.{◌≡◌, ◌-◌, ◌^◌, min, position, not, map, sum, unsigned_abs, nat_le, length, ◌&&◌, pos};
ghost use Rattle.std.specs.List.{list_all};
ghost use Rattle.pt_types.specs.Kinds.{is_between};
ghost use Rattle.pt_graph_text.specs.declared.document.ActorText.{ActorText};
ghost use Rattle.pt_graph_text.specs.declared.document.LinkText.{LinkText};
ghost use Rattle.pt_graph.specs.Chains.{found};
ghost use Rattle.pt_graph.specs.Ranges.{is_time_number, top_range, range_place, head_in_range, kind_in_range, row_in_range, wire_in_range, pair_in_range, sum_is_small};

use pt_graph_text::{
    ActorText, Document, KindText, LinkText, PairText, Part, Place, RowText, TopNumbers, WireText,
    place,
};
use pt_tags::List;
use pt_types::MOST_TIME;

/// The first place with a number out of its range.
#[tactic(auto, unfolding(crate::specs::Ranges::range_place))]
pub fn range_place(document: &Document) -> Option<Place>
    ensures { result ≡ range_place document.now }
{
    top_range(document)
        .or(found(Part::Actor, odd_actor(&document.actors)))
        .or(found(Part::Wire, odd_wire(&document.wires)))
        .or(found(Part::Link, odd_link(&document.links)))
        .or(found(Part::Pair, odd_pair(&document.pairs)))
}

/// The place of a part and an index, if there is an index.
pub fn found(part: Part, index: Option<usize>) -> Option<Place>
    ensures { result ≡ found part index }
{
    index.map(|index| place(part, index))
}

fn top_range(document: &Document) -> Option<Place>
    ensures { result ≡ top_range document.now }
{
    if head_in_range(&document.head) && document.platforms.as_slice().len() != 0 {
        None
    } else {
        Some(place(Part::Top, 0))
    }
}

fn odd_actor(actors: &List<ActorText>) -> Option<usize>
    ensures { result ≡ position (λ (a : ActorText). not (kind_in_range a.kind)) actors.now }
{
    actors
        .as_slice()
        .iter()
        .position(|a| !kind_in_range(&a.kind))
}

fn odd_wire(wires: &List<WireText>) -> Option<usize>
    ensures { result ≡ position (λ w. not (wire_in_range w)) wires.now }
{
    wires.as_slice().iter().position(|w| !wire_in_range(w))
}

fn odd_link(links: &List<LinkText>) -> Option<usize>
    ensures { result ≡ position (λ (l : LinkText). not (is_time_number l.delay)) links.now }
{
    links.as_slice().iter().position(|l| !is_time(l.delay))
}

fn odd_pair(pairs: &List<PairText>) -> Option<usize>
    ensures { result ≡ position (λ p. not (pair_in_range p)) pairs.now }
{
    pairs.as_slice().iter().position(|p| !pair_in_range(p))
}

fn is_between(low: i64, high: i64, number: i64) -> bool
    ensures { result ≡ is_between low high number }
{
    low <= number && number <= high
}

fn is_time(number: i64) -> bool
    ensures { result ≡ is_time_number number }
{
    is_between(0, MOST_TIME as i64, number)
}

fn head_in_range(head: &TopNumbers) -> bool
    ensures { result ≡ head_in_range head.now }
{
    is_between(1, 2, head.version) && is_time(head.until) && is_time(head.clock_error)
}

fn wire_in_range(wire: &WireText) -> bool
    ensures { result ≡ wire_in_range wire.now }
{
    is_between(0, 7, wire.output) && is_between(0, 7, wire.input)
}

fn pair_in_range(pair: &PairText) -> bool
    ensures { result ≡ pair_in_range pair.now }
{
    is_time(pair.error) && pair.a.as_str() != pair.b.as_str()
}

fn kind_in_range(kind: &KindText) -> bool
    ensures { result ≡ kind_in_range kind.now }
{
    match kind {
        KindText::Sensor { bound, .. } => is_time(*bound),
        KindText::Send { slack } => is_time(*slack),
        KindText::Actuator { slack } => is_time(*slack),
        KindText::Scale { num, den } => {
            is_between(-1_000_000_000, 1_000_000_000, *num) && is_between(1, 1_000_000_000, *den)
        }
        KindText::Merge { n } => is_between(2, 8, *n),
        KindText::Delay { d } => is_time(*d),
        KindText::Machine { outputs, rows, .. } => {
            is_between(1, 8, *outputs) && rows_in_range(*outputs, rows.as_slice())
        }
        KindText::Every { start, period } => is_time(*start)
            && is_between(1, MOST_TIME as i64, *period),
        KindText::Lanes { cells } => {
            cells_are_few(cells.as_slice())
                && cells_in_range(cells.as_slice())
                && sum_is_small(cells.as_slice())
        }
        _ => true,
    }
}

fn cells_are_few(cells: &[i64]) -> bool
    ensures { result ≡ nat_le 1 (length cells.now) && nat_le (length cells.now) 8 }
{
    1 <= cells.len() && cells.len() <= 8
}

fn cells_in_range(cells: &[i64]) -> bool
    ensures { result ≡ list_all (is_between (pos 1) (pos 8)) cells.now }
{
    cells.iter().all(|c| is_between(1, 8, *c))
}

fn sum_is_small(cells: &[i64]) -> bool
    ensures { result ≡ sum_is_small cells.now }
{
    sum_of(cells) <= 8
}

/// The sum of the absolute values, at most the greatest `u64`.
fn sum_of(cells: &[i64]) -> u64
    ensures { result ≡ min (sum (map unsigned_abs cells.now)) (2 ^ 64 - 1) }
{
    let mut total: u64 = 0;
    for c in cells {
        total = total.saturating_add(c.unsigned_abs());
    }
    total
}

fn rows_in_range(outputs: i64, rows: &[RowText]) -> bool
    ensures { result ≡ list_all (row_in_range outputs) rows.now }
{
    rows.iter().all(|row| row_in_range(outputs, row))
}

fn row_in_range(outputs: i64, row: &RowText) -> bool
    ensures { result ≡ row_in_range outputs row.now }
{
    row.low <= row.high
        && match row.emit {
            Some((output, _)) => 0 <= output && output < outputs,
            None => true,
        }
}
