// Clustering values and cells of a record table that was checked, measured without its tests.
ghost use Rattle.std.specs.Prelude.{◌≡◌, ◌+◌, ◌*◌, ◌≤◌, length};
ghost use Rattle.common.specs.Got.{said};
ghost use Rattle.data_clustering.specs.Prefixes.{widths_at};
ghost use Rattle.write_accept.specs.Entries.{taken_cells};
ghost use Rattle.write_measure_parts.specs.Lengths.{taken_clustering, clustering_measured, cells_measured, Known};

use crate::parts;
use common::reading::Reading;
use common::times::Bases;
use data_cell::cells::Times;
use write_cell::{cells, values};
use write_record_parts::convert;

// What measure_clustering answers, where the values are known to be taken under the bases b, with bytes.
// Internal: for callers that have checked the schema and the records.
pub fn size_clustering(
    c: &[u8],
    k: u64,
    b: Bases,
    s: &[u8],
    bytes: &[u8],
    at: usize,
    whole: bool,
) -> Reading<(u64, u64, u64)>
    requires { (16 + 16 * k ≤ length c.now) × (k ≤ 32) × (length bytes.now ≤ 1073741824) × Known (taken_clustering whole b bytes.now 0 (widths_at c.now 16 k) s.now at (length s.now)) }
    ensures { said result ≡ clustering_measured bytes.now (widths_at c.now 16 k) (taken_clustering whole b bytes.now 0 (widths_at c.now 16 k) s.now at (length s.now)) }
{
    let mut column: usize = 16;
    let mut p = at;
    let mut header: u64 = 0;
    let mut size: u64 = 0;
    for i in 0..k {
        if parts::is_over(whole, s, p) {
            return Ok(((i, header, size), p));
        }
        let width = c[column + 3];
        let v = convert::span_at(s, p);
        header += parts::empty_bit(v.len, i);
        size += values::value_len(width, v.len);
        p += 64;
        column += 16;
    }
    Ok(((k, header, size), p))
}

// What measure_cells answers, where the cells are known to be taken with bytes.
// Internal: for callers that have checked the schema and the records.
pub fn size_cells(
    c: &[u8],
    base: usize,
    k: u64,
    b: Bases,
    row: Times,
    s: &[u8],
    bytes: &[u8],
    at: usize,
) -> Reading<(u64, u64)>
    requires { (base + 16 * k ≤ length c.now) × (k ≤ 63) × (length bytes.now ≤ 1073741824) × (at ≤ length s.now) × (length s.now ≤ 1073741824) × Known (taken_cells b bytes.now 0 (widths_at c.now base k) s.now at (length s.now)) }
    ensures { said result ≡ cells_measured b row bytes.now (widths_at c.now base k) (taken_cells b bytes.now 0 (widths_at c.now base k) s.now at (length s.now)) }
{
    let mut i: u64 = 0;
    let mut p = at;
    let mut missing: u64 = 0;
    let mut size: u64 = 0;
    // A step goes to the next column that has a cell, and not over each column.
    loop {
        let j = parts::cell_column(s, p);
        if j < i {
            return Ok(((missing + parts::columns_from(i, k), size), p));
        }
        if k <= j {
            return Ok(((missing + parts::columns_from(i, k), size), p));
        }
        let width = c[base + 16 * (j as usize) + 3];
        let cell = convert::cell_at(s, p);
        missing += parts::columns_from(i, j);
        size += cells::cell_len(b, row, width, cell);
        p += 64;
        i = j + 1;
    }
}
