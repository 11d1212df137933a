// A row, from its flags to its first cell.
ghost use Rattle.std.specs.Prelude.{◌≡◌, ◌+◌, ◌*◌, ◌≤◌, length};
ghost use Rattle.common.specs.Got.{got, Took};
ghost use Rattle.data_clustering.specs.Prefixes.{widths_at};
ghost use Rattle.data_row.specs.Flags.{extended_at};
ghost use Rattle.data_row.specs.Rows.{rest_at, row_at};

use crate::{bodies, prefixes};
use common::times::Bases;
use data_cell_reread::fields;
use data_row::rows;
use data_row::rows::Row;

// The extended byte that follows the flags f, 0 where there is none: 1 for a static row.
fn known_extended(s: &[u8], at: usize, end: usize, f: u64, first: u8, statics: u64) -> (u64, usize)
    requires { Took (extended_at f first statics s.now at end) }
    ensures { got result.0 result.1 ≡ extended_at f first statics s.now at end }
{
    if f / 128 % 2 == 1 {
        return fields::known_byte(s, at, end);
    }
    (0, at)
}

// What follows the flags f that stand at start, and the extended byte x: `count` clustering columns, whose records stand behind the key's,
// and the cells of k columns.
fn known_rest(
    s: &[u8],
    at: usize,
    end: usize,
    schema: &[u8],
    count: u64,
    b: Bases,
    k: u64,
    start: usize,
    f: u64,
    x: u64,
) -> (Row, usize)
    requires { (16 + 16 * count ≤ length schema.now) × (k ≤ 63) × Took (rest_at b (widths_at schema.now 16 count) k start f x s.now at end) }
    ensures { got result.0 result.1 ≡ rest_at b (widths_at schema.now 16 count) k start f x s.now at end }
{
    let (prefix, next) = prefixes::known_prefix(s, at, end, schema, 16, count);
    let (body, next) = bodies::known_body(s, next, end, b, k, f);
    (
        Row {
            start,
            flags: f,
            extended: x,
            prefix,
            body,
        },
        next,
    )
}

// The row at at, before end: `count` clustering columns, whose records stand behind the key's, and so many static and regular columns;
// `first` is 1 right behind the partition's header, else 0. The place after it is that of its first cell.
// Internal: for code that has read the same before.
pub fn known_row(
    s: &[u8],
    at: usize,
    end: usize,
    schema: &[u8],
    count: u64,
    statics: u64,
    regulars: u64,
    first: u8,
    b: Bases,
) -> (Row, usize)
    requires { (16 + 16 * count ≤ length schema.now) × (statics ≤ 63) × (regulars ≤ 63) × Took (row_at b (widths_at schema.now 16 count) statics regulars first s.now at end) }
    ensures { got result.0 result.1 ≡ row_at b (widths_at schema.now 16 count) statics regulars first s.now at end }
{
    let (flags, next) = fields::known_byte(s, at, end);
    let (x, next) = known_extended(s, next, end, flags, first, statics);
    let values = rows::clustering_of(x, count);
    let cells = rows::cells_of(x, statics, regulars);
    known_rest(s, next, end, schema, values, b, cells, at, flags, x)
}
