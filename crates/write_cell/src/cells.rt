// A cell.
ghost use Rattle.std.specs.Prelude.{◌≡◌, ◌+◌, ◌-◌, ◌≤◌, ◌++◌, length};
ghost use Rattle.number_varint.specs.Varints.{shortest};
ghost use Rattle.common.specs.Store.{Room, Puts, shown};
ghost use Rattle.write_form.specs.Cells.{same_time, same_expiry, no_value, kind_bits, cell_flags, timestamp_bytes, ttl_bytes, expiry_bytes, value_bytes, last_bytes, tail_bytes, cell_bytes};
ghost use Rattle.write_cell.specs.Sizes.{content_size, cell_size};

use crate::values;
use common::times::Bases;
use data_cell::cells::{Cell, Times};
use data_field::fields::Span;
use write_number::numbers;

// 1 where the row has the cell's timestamp.
fn same_time(row: Times, cell: Cell) -> u8
    ensures { (result ≡ same_time row cell) × (result ≤ 1) }
{
    if row.timed != 1 {
        return 0;
    }
    if row.timestamp != cell.timestamp {
        return 0;
    }
    1
}

// 1 where the cell expires and the row has its TTL and expiry.
fn same_expiry(row: Times, cell: Cell) -> u8
    ensures { (result ≡ same_expiry row cell) × (result ≤ 1) }
{
    if cell.kind != 1 {
        return 0;
    }
    if row.expires != 1 {
        return 0;
    }
    if row.local != cell.local {
        return 0;
    }
    if row.ttl != cell.ttl {
        return 0;
    }
    1
}

// 1 where a cell whose value has n bytes has none to write.
fn no_value(cell: Cell, n: usize) -> u8
    ensures { (result ≡ no_value cell n) × (result ≤ 1) }
{
    if 1 < cell.kind {
        return 1;
    }
    if n == 0 {
        return 1;
    }
    0
}

fn kind_bits(cell: Cell) -> u8
    ensures { (result ≡ kind_bits cell) × (result ≤ 2) }
{
    if cell.kind == 0 {
        return 0;
    }
    if cell.kind == 1 {
        return 2;
    }
    1
}

// The flags of a cell whose value has n bytes.
fn cell_flags(row: Times, cell: Cell, n: usize) -> u8
    ensures { result ≡ cell_flags row cell n }
{
    let kind = kind_bits(cell);
    let empty = no_value(cell, n);
    let timed = same_time(row, cell);
    let expires = same_expiry(row, cell);
    kind + 4 * empty + 8 * timed + 16 * expires
}

fn timestamp_len(b: Bases, row: Times, cell: Cell) -> u64
    ensures { (result ≡ length (timestamp_bytes b row cell)) × (result ≤ 9) }
{
    if same_time(row, cell) == 1 {
        return 0;
    }
    numbers::delta_len(b.timestamp, cell.timestamp)
}

fn put_timestamp(d: &mut [u8], at: usize, b: Bases, row: Times, cell: Cell) -> usize
    requires { Room d.old at (timestamp_bytes b row cell) }
    ensures { Puts d.old d.new at (timestamp_bytes b row cell) result }
{
    if same_time(row, cell) == 1 {
        return at;
    }
    numbers::put_delta(d, at, b.timestamp, cell.timestamp)
}

fn ttl_len(b: Bases, cell: Cell) -> u64
    ensures { (result ≡ length (ttl_bytes b cell)) × (result ≤ 9) }
{
    if cell.kind == 1 {
        return numbers::delta_len(b.ttl, cell.ttl);
    }
    0
}

fn put_ttl(d: &mut [u8], at: usize, b: Bases, cell: Cell) -> usize
    requires { Room d.old at (ttl_bytes b cell) }
    ensures { Puts d.old d.new at (ttl_bytes b cell) result }
{
    if cell.kind == 1 {
        return numbers::put_delta(d, at, b.ttl, cell.ttl);
    }
    at
}

// Local deletion time and TTL that are the cell's own.
fn own_len(b: Bases, cell: Cell) -> u64
    ensures { (result ≡ length (shortest (cell.local - b.local) ++ ttl_bytes b cell)) × (result ≤ 18) }
{
    let local = numbers::delta_len(b.local, cell.local);
    let ttl = ttl_len(b, cell);
    local + ttl
}

fn put_own(d: &mut [u8], at: usize, b: Bases, cell: Cell) -> usize
    requires { Room d.old at (shortest (cell.local - b.local) ++ ttl_bytes b cell) }
    ensures { Puts d.old d.new at (shortest (cell.local - b.local) ++ ttl_bytes b cell) result }
{
    let p = numbers::put_delta(d, at, b.local, cell.local);
    put_ttl(d, p, b, cell)
}

fn expiry_len(b: Bases, row: Times, cell: Cell) -> u64
    ensures { (result ≡ length (expiry_bytes b row cell)) × (result ≤ 18) }
{
    if cell.kind == 0 {
        return 0;
    }
    if same_expiry(row, cell) == 1 {
        return 0;
    }
    own_len(b, cell)
}

fn put_expiry(d: &mut [u8], at: usize, b: Bases, row: Times, cell: Cell) -> usize
    requires { Room d.old at (expiry_bytes b row cell) }
    ensures { Puts d.old d.new at (expiry_bytes b row cell) result }
{
    if cell.kind == 0 {
        return at;
    }
    if same_expiry(row, cell) == 1 {
        return at;
    }
    put_own(d, at, b, cell)
}

fn content_len(width: u8, cell: Cell, n: usize) -> u64
    requires { n ≤ 1073741824 }
    ensures { (result ≡ content_size width cell n) × (result ≤ 1073741833) }
{
    if no_value(cell, n) == 1 {
        return 0;
    }
    values::field_len(width, n)
}

fn put_content(d: &mut [u8], at: usize, width: u8, cell: Cell, bytes: &[u8]) -> usize
    requires { (cell.value.start + cell.value.len ≤ length bytes.now) × Room d.old at (value_bytes width cell (shown bytes.now cell.value.start cell.value.len)) }
    ensures { Puts d.old d.new at (value_bytes width cell (shown bytes.now cell.value.start cell.value.len)) result }
{
    let value = cell.value;
    let start = value.start;
    let n = value.len;
    if no_value(cell, n) == 1 {
        return at;
    }
    values::put_field(d, at, width, bytes, start, n)
}

// How many bytes a cell of a column of this width has in the writer's form, in a row of these times.
// Internal: for the writer, whose values lie in a slice of at most 2^30 bytes.
pub fn cell_len(b: Bases, row: Times, width: u8, cell: Cell) -> u64
    requires { cell.value.len ≤ 1073741824 }
    ensures { (result ≡ cell_size b row width cell) × (result ≤ 1073741861) }
{
    let value = cell.value;
    let n = value.len;
    let timestamp = timestamp_len(b, row, cell);
    let expiry = expiry_len(b, row, cell);
    let content = content_len(width, cell, n);
    1 + (timestamp + (expiry + content))
}

fn put_last(
    d: &mut [u8],
    at: usize,
    b: Bases,
    row: Times,
    width: u8,
    cell: Cell,
    bytes: &[u8],
) -> usize
    requires { (cell.value.start + cell.value.len ≤ length bytes.now) × Room d.old at (last_bytes b row width cell (shown bytes.now cell.value.start cell.value.len)) }
    ensures { Puts d.old d.new at (last_bytes b row width cell (shown bytes.now cell.value.start cell.value.len)) result }
{
    let p = put_expiry(d, at, b, row, cell);
    put_content(d, p, width, cell, bytes)
}

fn put_tail(
    d: &mut [u8],
    at: usize,
    b: Bases,
    row: Times,
    width: u8,
    cell: Cell,
    bytes: &[u8],
) -> usize
    requires { (cell.value.start + cell.value.len ≤ length bytes.now) × Room d.old at (tail_bytes b row width cell (shown bytes.now cell.value.start cell.value.len)) }
    ensures { Puts d.old d.new at (tail_bytes b row width cell (shown bytes.now cell.value.start cell.value.len)) result }
{
    let p = put_timestamp(d, at, b, row, cell);
    put_last(d, p, b, row, width, cell, bytes)
}

// Stores a cell of a column of this width, in a row of these times, whose value lies in bytes: the place after it.
// Internal: for writers that have measured before they store.
pub fn put_cell(
    d: &mut [u8],
    at: usize,
    b: Bases,
    row: Times,
    width: u8,
    cell: Cell,
    bytes: &[u8],
) -> usize
    requires { (cell.value.start + cell.value.len ≤ length bytes.now) × Room d.old at (cell_bytes b row width cell (shown bytes.now cell.value.start cell.value.len)) }
    ensures { Puts d.old d.new at (cell_bytes b row width cell (shown bytes.now cell.value.start cell.value.len)) result }
{
    let value = cell.value;
    let n = value.len;
    let p = numbers::put_byte(d, at, cell_flags(row, cell, n));
    put_tail(d, p, b, row, width, cell, bytes)
}
