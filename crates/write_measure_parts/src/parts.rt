// Clustering values and cells, checked and measured.
ghost use Rattle.std.specs.Prelude.{◌≡◌, ◌+◌, ◌*◌, ◌≤◌, ◌<◌, length, get_or};
ghost use Rattle.common.specs.Got.{said};
ghost use Rattle.data_clustering.specs.Prefixes.{widths_at};
ghost use Rattle.write_accept.specs.Entries.{taken_cells};
ghost use Rattle.write_measure_parts.specs.Lengths.{taken_clustering, is_over, empty_bit, clustering_measured, cell_column, columns_from, cells_measured};

use common::reading::Reading;
use common::times::Bases;
use data_cell::cells::Times;
use write_cell::{cells, values};
use write_record::records;
use write_record_parts::convert;

// The byte at at, 0 past the end.
fn byte_or_zero(s: &[u8], at: usize) -> u8
    ensures { result ≡ get_or s.now at 0 }
{
    if at < s.len() {
        return s[at];
    }
    0
}

// Whether the record at at is not the next clustering value; of a row (whole) each must be there.
pub(crate) fn is_over(whole: bool, s: &[u8], at: usize) -> bool
    ensures { result ≡ is_over whole s.now at }
{
    if whole {
        return false;
    }
    if byte_or_zero(s, at) == 5 {
        return false;
    }
    true
}

// The header's bit of column i, whose value has n bytes.
pub(crate) fn empty_bit(n: usize, i: u64) -> u64
    requires { i < 32 }
    ensures { result ≡ empty_bit n i }
{
    if n == 0 {
        return 1u64 << (2 * i);
    }
    0
}

// The clustering values from at on, of k columns: of a row (whole) all, of a marker the first. How many there are, the header's bits of
// them, and how long they are without the header.
// Internal: for callers that have checked the schema.
pub fn measure_clustering(
    c: &[u8],
    k: u64,
    b: Bases,
    s: &[u8],
    bytes: &[u8],
    at: usize,
    whole: bool,
) -> Reading<(u64, u64, u64)>
    requires { (16 + 16 * k ≤ length c.now) × (k ≤ 32) × (length bytes.now ≤ 1073741824) }
    ensures { said result ≡ clustering_measured bytes.now (widths_at c.now 16 k) (taken_clustering whole b bytes.now 0 (widths_at c.now 16 k) s.now at (length s.now)) }
{
    let mut column: usize = 16;
    let mut p = at;
    let mut header: u64 = 0;
    let mut size: u64 = 0;
    for i in 0..k {
        if is_over(whole, s, p) {
            return Ok(((i, header, size), p));
        }
        let width = c[column + 3];
        let (item, next) = records::read_value(s, p, b, bytes, i, width)?;
        header += empty_bit(item.length, i);
        size += values::value_len(width, item.length);
        p = next;
        column += 16;
    }
    Ok(((k, header, size), p))
}

// The column of the cell at at, 256 where no cell stands there.
pub(crate) fn cell_column(s: &[u8], at: usize) -> u64
    requires { at ≤ 1073741824 }
    ensures { result ≡ cell_column s.now at }
{
    if byte_or_zero(s, at) == 6 {
        return byte_or_zero(s, at + 2) as u64;
    }
    256
}

// The bits of the columns from i up to j.
pub(crate) fn columns_from(i: u64, j: u64) -> u64
    requires { (i ≤ j) × (j ≤ 63) }
    ensures { result ≡ columns_from i j }
{
    (1u64 << j) - (1u64 << i)
}

// The cells from at on, of k columns whose records stand in the schema from base on, in a row of these times. A missing column costs
// nothing: the next cell names its own. A bit for each missing column, and how long the cells are.
// Internal: for callers that have checked the schema.
pub fn measure_cells(
    c: &[u8],
    base: usize,
    k: u64,
    b: Bases,
    row: Times,
    s: &[u8],
    bytes: &[u8],
    at: usize,
) -> Reading<(u64, u64)>
    requires { (base + 16 * k ≤ length c.now) × (k ≤ 63) × (length bytes.now ≤ 1073741824) × (at ≤ length s.now) × (length s.now ≤ 1073741824) }
    ensures { said result ≡ cells_measured b row bytes.now (widths_at c.now base k) (taken_cells b bytes.now 0 (widths_at c.now base k) s.now at (length s.now)) }
{
    let mut i: u64 = 0;
    let mut p = at;
    let mut missing: u64 = 0;
    let mut size: u64 = 0;
    // A step goes to the next column that has a cell, and not over each column.
    loop {
        let j = cell_column(s, p);
        if j < i {
            return Ok(((missing + columns_from(i, k), size), p));
        }
        if k <= j {
            return Ok(((missing + columns_from(i, k), size), p));
        }
        let width = c[base + 16 * (j as usize) + 3];
        let (item, next) = records::read_cell(s, p, b, bytes, j, width)?;
        missing += columns_from(i, j);
        let cell = convert::cell_of(item);
        size += cells::cell_len(b, row, width, cell);
        p = next;
        i = j + 1;
    }
}
