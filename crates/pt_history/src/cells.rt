//! Groups of nine optional values, stored flat.

ghost use Rattle.std.specs.Prelude.{◌≡◌, ℕ, ◌+◌, ◌*◌, ◌/◌, ◌%◌, ◌^◌, ◌<◌, ◌≤◌, ◌++◌, ◌∷◌, [], IfSome, OnOk, Some, count_ones, drop, false, length, slice_get, slice_index_or, take, true, vec_len, vec_capacity};
ghost use Rattle.pt_history.specs.Cells.{AreSums, IsNear, bit_of, cell_of, cells_of, group_of, mask_of, nonzero, ones_in, ports_in, six_absent, state_in, value_in, values_in};

use crate::pieces::{MOST_ITEMS, widened};
use pt_tags::Memory;
use pt_types::Ports;
use std::alloc::Global;
use std::marker::Model;

/// The number of groups in a block.
const PER_BLOCK: usize = 8;

/// Groups of nine optional values: those of eight ports, and a state. Contracts see `cells` and the room for more groups.
///
/// Only the values that are there are stored, and a mask of which they are: a group with one value takes 10.5 bytes.
#[derive(Drop)]
pub(crate) struct Cells {
    masks: Vec<u16>,
    values: Vec<i64>,
    /// For each 8 groups, how many values are before them.
    sums: Vec<u32>,
    spare: usize,
    /// The group after the one that was compared last, and how many values are before it. The next comparison is mostly with
    /// that one.
    near_group: usize,
    near_start: usize,
}

impl Model for Cells {
    ghost use Rattle.pt_history.specs.Cells.{RoomyCells, groups_of};
    ghost use Rattle.pt_history.specs.CellsWhole.{AreCells};

    ghost Value = { RoomyCells };

    ghost view = { λ c. record {
      cells = groups_of c.masks.items c.values.items;
      spare = c.spare;
    } };

    ghost invariant = { AreCells };
}

impl Cells {
    /// No groups and no room.
    pub fn new(alloc: Global) -> Cells
        ensures { result ≡ record { cells = []; spare = 0 } }
    {
        Cells {
            masks: Vec::new(alloc),
            values: Vec::new(alloc),
            sums: Vec::new(alloc),
            spare: 0,
            near_group: 0,
            near_start: 0,
        }
    }

    /// Reserves room for at least `groups` more groups. It fails if memory runs out, or if the number of values could reach
    /// 2^32.
    pub fn reserve(&mut self, groups: usize) -> Result<(), Memory>
        ensures cells { self.new.cells ≡ self.old.cells }
        ensures kept { self.old.spare ≤ self.new.spare }
        ensures room { OnOk result (groups ≤ self.new.spare) }
    {
        if groups <= self.spare {
            return Ok(());
        }
        if groups >= (MOST_ITEMS - self.values.len()) / 9 {
            return Err(Memory);
        }
        let (held, wanted) = (9 * self.spare, 9 * groups);
        widened(&mut self.masks, self.spare, groups)?;
        widened(&mut self.values, held, wanted)?;
        widened(&mut self.sums, self.spare, groups)?;
        self.spare = groups;
        Ok(())
    }

    /// Appends the values at eight ports and a state as a group. Allocates nothing.
    #[inline(always)]
    pub fn push(&mut self, ports: &Ports, state: i64)
        requires { 0 < self.old.spare }
        ensures cells { self.new.cells ≡ self.old.cells ++ cells_of ports.now state ∷ [] }
        ensures eight { length ports.now ≡ 8 }
        ensures room { self.new.spare + 1 ≡ self.old.spare }
    {
        begin_block(&mut self.sums, self.masks.len(), self.values.len());
        let low = push_ports(&mut self.values, ports);
        let mask = push_cell(&mut self.values, low, 8, nonzero(state));
        self.masks.push_reserved(mask);
        self.spare -= 1;
    }

    /// Whether group `number` has these values at eight ports and this state. It is cheap for the group after the one that was
    /// compared before.
    pub fn is(&mut self, number: usize, ports: &Ports, state: i64) -> bool
        requires { number < length self.old.cells }
        ensures same { result ≡ true → slice_get self.old.cells number
            ≡ Some (cells_of ports.now state) }
        ensures unchanged { self.new ≡ self.old }
        ensures eight { length ports.now ≡ 8 }
    {
        let start = start_of(
            self.masks.as_slice(),
            self.sums.as_slice(),
            self.near_group,
            self.near_start,
            number,
        );
        let mask = self.masks[number];
        self.near_group = number + 1;
        self.near_start = start + mask.count_ones() as usize;
        are_cells(mask, self.values.as_slice(), start, ports, nonzero(state))
    }

    /// Group `number`, counted from 0.
    pub fn get(&self, number: usize) -> [Option<i64>; 9]
        requires { number < length self.now.cells }
        ensures { slice_get self.now.cells number ≡ Some result }
    {
        let start = values_before(self.masks.as_slice(), self.sums.as_slice(), number);
        group_at(self.masks[number], self.values.as_slice(), start)
    }
}

/// How many values are in the groups before group `number`, where that is known of group `near`.
#[inline(always)]
fn start_of(masks: &[u16], sums: &[u32], near: usize, near_start: usize, number: usize) -> usize
    requires within { number < length masks.now }
    requires sums { AreSums sums.now masks.now }
    requires near { IsNear masks.now near near_start }
    requires fits { ones_in masks.now < 2 ^ 32 }
    ensures { result ≡ ones_in (take number masks.now) }
{
    if number == near {
        return near_start;
    }
    values_before(masks, sums, number)
}

/// Whether a group has exactly the values at these ports and then `last`. Few actors have more than two ports with a value.
#[inline(always)]
fn are_cells(mask: u16, values: &[i64], start: usize, ports: &Ports, last: Option<i64>) -> bool
    requires { start + count_ones mask ≤ length values.now }
    ensures same { result ≡ true → group_of mask (drop start values.now) ≡ ports.now ++ last ∷ [] }
    ensures eight { length ports.now ≡ 8 }
{
    if has_later(ports) {
        return are_all(mask, values, start, ports, last);
    }
    are_three(mask, values, start, ports.get(0), ports.get(1), last)
}

/// Whether a group has exactly these values at port 0 and port 1, and then `last`.
#[inline(always)]
fn are_three(
    mask: u16,
    values: &[i64],
    start: usize,
    first: Option<i64>,
    second: Option<i64>,
    last: Option<i64>,
) -> bool
    requires { start ≤ length values.now }
    ensures { result ≡ true → group_of mask (drop start values.now)
        ≡ first ∷ second ∷ six_absent ++ last ∷ [] }
{
    if flag(first) + 2 * flag(second) + 256 * flag(last) != mask as u32 {
        return false;
    }
    let Some(after_first) = passed(values, start, first) else {
        return false;
    };
    let Some(after_second) = passed(values, after_first, second) else {
        return false;
    };
    let Some(_after_last) = passed(values, after_second, last) else {
        return false;
    };
    true
}

/// The index after the value of a cell, if that is stored at an index; the index itself, if the cell has none; `None` if another
/// value is there.
#[inline(always)]
fn passed(values: &[i64], at: usize, cell: Option<i64>) -> Option<usize>
    requires { at ≤ length values.now }
    ensures next { IfSome result (λ next.
        drop at values.now ≡ value_in cell ++ drop next values.now) }
    ensures within { IfSome result (λ next. next ≤ length values.now) }
{
    match cell {
        None => Some(at),
        Some(value) => {
            if at >= values.len() || values[at] != value {
                return None;
            }
            Some(at + 1)
        }
    }
}

/// Whether a group has exactly the values at these ports and then `last`.
#[inline(never)]
fn are_all(mask: u16, values: &[i64], start: usize, ports: &Ports, last: Option<i64>) -> bool
    requires { start + count_ones mask ≤ length values.now }
    ensures same { result ≡ true → group_of mask (drop start values.now) ≡ ports.now ++ last ∷ [] }
    ensures eight { length ports.now ≡ 8 }
{
    are_eight(ports);
    let cells = group_at(mask, values, start);
    for number in 0..9 {
        if !same_cell(cells[number], cell(ports, last, number as u32)) {
            return false;
        }
    }
    true
}

/// Whether two cells are equal.
fn same_cell(first: Option<i64>, second: Option<i64>) -> bool
    ensures { result ≡ true → first ≡ second }
{
    first == second
}

/// The value at a port, or `last` for number 8.
fn cell(ports: &Ports, last: Option<i64>, number: u32) -> Option<i64>
    requires few { number < 9 }
    requires eight { length ports.now ≡ 8 }
    ensures { result ≡ slice_index_or (ports.now ++ last ∷ []) number None }
{
    if number < 8 { ports.get(number) } else { last }
}

/// The ports and the state of a group.
pub(crate) fn parts_of(cells: &[Option<i64>; 9]) -> (Ports, i64)
    ensures ports { result.0 ≡ ports_in cells.now }
    ensures state { result.1 ≡ state_in cells.now }
{
    let [p0, p1, p2, p3, p4, p5, p6, p7, state] = *cells;
    (
        Ports::from_values([p0, p1, p2, p3, p4, p5, p6, p7]),
        state.unwrap_or(0),
    )
}

/// Stores how many values there are, if a block of 8 groups begins: if `count` groups are there, a multiple of 8. Allocates
/// nothing.
#[inline(always)]
fn begin_block(sums: &mut Vec<u32>, count: usize, values: usize)
    requires room { vec_len sums.old < vec_capacity sums.old }
    requires many { length sums.old.items ≡ (count + 7) / 8 }
    requires fits { values < 2 ^ 32 }
    ensures many { length sums.new.items ≡ (count + 8) / 8 }
    ensures before { (j : ℕ) → j < length sums.old.items →
        slice_index_or sums.new.items j 0 ≡ slice_index_or sums.old.items j 0 }
    ensures last { count % 8 ≡ 0 → slice_index_or sums.new.items (count / 8) 0 ≡ values }
    ensures one { vec_len sums.new ≤ vec_len sums.old + 1 }
    ensures room { vec_capacity sums.old ≤ vec_capacity sums.new }
{
    if count % PER_BLOCK == 0 {
        sums.push_reserved(values as u32);
    }
}

/// How many values are in the groups before group `number`.
fn values_before(masks: &[u16], sums: &[u32], number: usize) -> usize
    requires within { number < length masks.now }
    requires sums { AreSums sums.now masks.now }
    requires fits { ones_in masks.now < 2 ^ 32 }
    ensures { result ≡ ones_in (take number masks.now) }
{
    let mut sum = sums[number / PER_BLOCK] as usize;
    for group in PER_BLOCK * (number / PER_BLOCK)..number {
        sum += masks[group].count_ones() as usize;
    }
    sum
}

/// The group of a mask, whose values begin at index `start`. Few groups have a value at a port after port 1.
#[inline(always)]
fn group_at(mask: u16, values: &[i64], start: usize) -> [Option<i64>; 9]
    requires { start + count_ones mask ≤ length values.now }
    ensures { result ≡ group_of mask (drop start values.now) }
{
    if mask / 4 % 64 == 0 {
        return short_group(mask, values, start);
    }
    whole_group(mask, values, start)
}

/// The group of a mask that has no bit of a port after port 1.
#[inline(always)]
fn short_group(mask: u16, values: &[i64], start: usize) -> [Option<i64>; 9]
    requires fits { start + count_ones mask ≤ length values.now }
    requires short { mask / 4 % 64 ≡ 0 }
    ensures { result ≡ group_of mask (drop start values.now) }
{
    let (first, second) = (mask % 2, mask / 2 % 2);
    let after_first = start + first as usize;
    let after_second = after_first + second as usize;
    [
        cell_at(first, values, start),
        cell_at(second, values, after_first),
        None,
        None,
        None,
        None,
        None,
        None,
        cell_at(mask / 256 % 2, values, after_second),
    ]
}

/// The group of a mask, bit by bit.
#[inline(never)]
fn whole_group(mask: u16, values: &[i64], start: usize) -> [Option<i64>; 9]
    requires { start + count_ones mask ≤ length values.now }
    ensures { result ≡ group_of mask (drop start values.now) }
{
    let mut cells = [None; 9];
    let mut rest = mask;
    let mut at = start;
    for number in 0..9 {
        cells[number] = cell_at(rest % 2, values, at);
        at += (rest % 2) as usize;
        rest /= 2;
    }
    cells
}

/// The value at an index, if the bit is 1; `None` if it is 0.
#[inline(always)]
fn cell_at(bit: u16, values: &[i64], at: usize) -> Option<i64>
    requires { at + bit ≤ length values.now }
    ensures { result ≡ cell_of bit (drop at values.now) }
{
    if bit == 0 {
        return None;
    }
    Some(values[at])
}

/// Appends the value of each port that has one, and returns the mask of the ports. Few actors have more than two such ports.
/// Allocates nothing.
#[inline(always)]
fn push_ports(values: &mut Vec<i64>, ports: &Ports) -> u16
    requires { vec_len values.old + 8 ≤ vec_capacity values.old }
    ensures eight { length ports.now ≡ 8 }
    ensures mask { result ≡ mask_of ports.now }
    ensures values { values.new.items ≡ values.old.items ++ values_in ports.now }
    ensures room { vec_capacity values.old ≤ vec_capacity values.new }
    ensures few { vec_len values.new ≤ vec_len values.old + 8 }
{
    let first = push_cell(values, 0, 0, ports.get(0));
    let both = push_cell(values, first, 1, ports.get(1));
    if !has_later(ports) {
        return both;
    }
    push_later(values, both, ports)
}

/// Appends the value of each port after port 1 that has one, and returns the mask of all ports. Allocates nothing.
#[inline(never)]
fn push_later(values: &mut Vec<i64>, both: u16, ports: &Ports) -> u16
    requires room { vec_len values.old + 6 ≤ vec_capacity values.old }
    requires both { both ≡ mask_of (take 2 ports.now) }
    ensures mask { result ≡ mask_of ports.now }
    ensures values { values.new.items ≡ values.old.items ++ values_in (drop 2 ports.now) }
    ensures room { vec_capacity values.old ≤ vec_capacity values.new }
    ensures few { vec_len values.new ≤ vec_len values.old + 6 }
{
    are_eight(ports);
    let mut mask = both;
    for port in 2..8 {
        mask = push_cell(values, mask, port, ports.get(port));
    }
    mask
}

/// Appends the value of a cell, if it has one, and returns the mask with the bit of that cell. Allocates nothing.
#[inline(always)]
fn push_cell(values: &mut Vec<i64>, mask: u16, place: u32, cell: Option<i64>) -> u16
    requires room { vec_len values.old < vec_capacity values.old }
    requires nine { place < 9 }
    requires low { mask < 2 ^ place }
    ensures mask { result ≡ mask + bit_of cell * 2 ^ place }
    ensures values { values.new.items ≡ values.old.items ++ value_in cell }
    ensures room { vec_capacity values.old ≤ vec_capacity values.new }
    ensures one { vec_len values.new ≤ vec_len values.old + 1 }
{
    match cell {
        None => mask,
        Some(value) => {
            values.push_reserved(value);
            mask + (1 << place)
        }
    }
}

/// Proves that there are eight ports.
fn are_eight(ports: &Ports)
    ensures { length ports.now ≡ 8 }
{
    let _values = ports.values();
}

/// A state, or `None` for 0.
fn nonzero(state: i64) -> Option<i64>
    ensures { result ≡ nonzero state }
{
    if state == 0 { None } else { Some(state) }
}

/// Whether a port after port 1 has a value. The flags of two ports and those of four are added as bytes of a number, so that
/// two comparisons test all six.
#[inline(always)]
fn has_later(ports: &Ports) -> bool
    ensures eight { length ports.now ≡ 8 }
    ensures none { result ≡ false → drop 2 ports.now ≡ six_absent }
{
    are_eight(ports);
    if flag(ports.get(2)) + 256 * flag(ports.get(3)) > 0 {
        return true;
    }
    0 < flag(ports.get(4))
        + 256 * flag(ports.get(5))
        + 65_536 * flag(ports.get(6))
        + 16_777_216 * flag(ports.get(7))
}

/// 1 if there is a value, else 0.
#[inline(always)]
fn flag(value: Option<i64>) -> u32
    ensures none { result ≡ 0 → value ≡ None }
    ensures bit { result ≤ 1 }
    ensures is { result ≡ bit_of value }
{
    if value.is_some() { 1 } else { 0 }
}
