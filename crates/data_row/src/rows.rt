// A row, from its flags to its first cell.
ghost use Rattle.std.specs.Prelude.{◌≡◌, ◌+◌, ◌*◌, ◌≤◌, length};
ghost use Rattle.common.specs.Got.{said};
ghost use Rattle.data_clustering.specs.Prefixes.{widths_at};
ghost use Rattle.data_row.specs.Rows.{rest_at, clustering_in, cells_in, static_in, row_at};

use crate::bodies::Body;
use crate::{bodies, flags};
use common::reading::Reading;
use common::times::Bases;
use data_clustering::prefixes;
use data_clustering::prefixes::Prefix;

// A row: where its flags stand, the flags, the extended byte (1 for a static row, else 0), the clustering, the body.
#[derive(Clone, Copy)]
pub struct Row {
    pub start: usize,
    pub flags: u64,
    pub extended: u64,
    pub prefix: Prefix,
    pub body: Body,
}

// What follows the flags f that stand at start, and the extended byte x: `count` clustering columns, whose records stand behind the key's,
// and the cells of k columns.
fn read_rest(
    s: &[u8],
    at: usize,
    end: usize,
    schema: &[u8],
    count: u64,
    b: Bases,
    k: u64,
    start: usize,
    f: u64,
    x: u64,
) -> Reading<Row>
    requires { (16 + 16 * count ≤ length schema.now) × (k ≤ 63) }
    ensures { said result ≡ rest_at b (widths_at schema.now 16 count) k start f x s.now at end }
{
    let (prefix, next) = prefixes::read_prefix(s, at, end, schema, 16, count)?;
    let (body, cells) = bodies::read_body(s, next, end, b, k, f)?;
    Ok((
        Row {
            start,
            flags: f,
            extended: x,
            prefix,
            body,
        },
        cells,
    ))
}

// How many clustering columns a row with the extended byte x has.
// Internal, as the next: for code that reads rows.
pub fn clustering_of(x: u64, count: u64) -> u64
    ensures { result ≡ clustering_in x count }
{
    if x == 1 {
        return 0;
    }
    count
}

// How many columns a row may have cells of.
// Internal: for the crates above.
pub fn cells_of(x: u64, statics: u64, regulars: u64) -> u64
    ensures { result ≡ cells_in x statics regulars }
{
    if x == 1 {
        return statics;
    }
    regulars
}

// 1 for a static row, else 0.
fn static_of(x: u64) -> u64
    ensures { result ≡ static_in x }
{
    if x == 1 {
        return 1;
    }
    0
}

// The row at at, before end: `count` clustering columns, whose records stand behind the key's, and so many static and regular columns;
// `first` is 1 right behind the partition's header, else 0. The place after it is that of its first cell.
// Internal: for callers that have checked the schema.
pub fn read_row(
    s: &[u8],
    at: usize,
    end: usize,
    schema: &[u8],
    count: u64,
    statics: u64,
    regulars: u64,
    first: u8,
    b: Bases,
) -> Reading<Row>
    requires { (16 + 16 * count ≤ length schema.now) × (statics ≤ 63) × (regulars ≤ 63) }
    ensures { said result ≡ row_at b (widths_at schema.now 16 count) statics regulars first s.now at end }
{
    let (f, next) = flags::read_row_flags(s, at, end)?;
    let (x, next) = flags::read_extended(s, next, end, f, first, statics)?;
    let values = clustering_of(x, count);
    let cells = cells_of(x, statics, regulars);
    let extended = static_of(x);
    read_rest(s, next, end, schema, values, b, cells, at, f, extended)
}
