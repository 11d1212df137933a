// Clustering values and cells, stored while their records are read again.
ghost use Rattle.std.specs.Prelude.{◌+◌, ◌*◌, ◌≤◌, ◌<◌, length};
ghost use Rattle.common.specs.Store.{Room, Puts};
ghost use Rattle.write_store_parts.specs.Again.{value_again, values_again, cell_again, cells_again, ValuesThere, CellsThere};

use common::times::Bases;
use data_cell::cells::Times;
use write_cell::{cells, values};
use write_record_parts::convert;

// The clustering value whose record stands at at, of the column whose record stands at column.
fn put_value(
    c: &[u8],
    column: usize,
    s: &[u8],
    bytes: &[u8],
    at: usize,
    d: &mut [u8],
    to: usize,
) -> usize
    requires { (column + 3 < length c.now) × ValuesThere bytes.now s.now at 1 × Room d.old to (value_again c.now column bytes.now s.now at) }
    ensures { Puts d.old d.new to (value_again c.now column bytes.now s.now at) result }
{
    let width = c[column + 3];
    let v = convert::span_at(s, at);
    values::put_value(d, to, width, bytes, v.start, v.len)
}

// The clustering values of the first k columns, whose records stand from at on.
pub(crate) fn put_values(
    c: &[u8],
    k: u64,
    s: &[u8],
    bytes: &[u8],
    at: usize,
    d: &mut [u8],
    to: usize,
) -> usize
    requires { (16 + 16 * k ≤ length c.now) × (k ≤ 32) × ValuesThere bytes.now s.now at k × Room d.old to (values_again c.now 16 bytes.now s.now at k) }
    ensures { Puts d.old d.new to (values_again c.now 16 bytes.now s.now at k) result }
{
    let mut column: usize = 16;
    let mut p = at;
    let mut out = to;
    for _ in 0..k {
        out = put_value(c, column, s, bytes, p, d, out);
        column += 16;
        p += 64;
    }
    out
}

// The cell whose record stands at at; the records of the columns stand in the schema from base on.
fn put_cell(
    c: &[u8],
    base: usize,
    b: Bases,
    times: Times,
    s: &[u8],
    bytes: &[u8],
    at: usize,
    d: &mut [u8],
    to: usize,
) -> usize
    requires { CellsThere c.now base bytes.now s.now at 1 × Room d.old to (cell_again b times c.now base bytes.now s.now at) }
    ensures { Puts d.old d.new to (cell_again b times c.now base bytes.now s.now at) result }
{
    let j = s[at + 2] as usize;
    let width = c[base + 16 * j + 3];
    let cell = convert::cell_at(s, at);
    cells::put_cell(d, to, b, times, width, cell, bytes)
}

// Cells, whose k records stand from at on; those of their columns stand in the schema from base on.
pub(crate) fn put_cells(
    c: &[u8],
    base: usize,
    b: Bases,
    times: Times,
    s: &[u8],
    bytes: &[u8],
    at: usize,
    k: usize,
    d: &mut [u8],
    to: usize,
) -> usize
    requires { CellsThere c.now base bytes.now s.now at k × Room d.old to (cells_again b times c.now base bytes.now s.now at k) }
    ensures { Puts d.old d.new to (cells_again b times c.now base bytes.now s.now at k) result }
{
    let mut p = at;
    let mut out = to;
    for _ in 0..k {
        out = put_cell(c, base, b, times, s, bytes, p, d, out);
        p += 64;
    }
    out
}
