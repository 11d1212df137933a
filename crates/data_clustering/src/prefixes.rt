// The clustering of a row, or of a marker: a header and values.
ghost use Rattle.std.specs.Prelude.{◌≡◌, ◌+◌, ◌*◌, ◌≤◌, length};
ghost use Rattle.common.specs.Got.{said, said_place};
ghost use Rattle.data_clustering.specs.Prefixes.{bad_header, header_at, clustering_at, values_at, prefix_at, widths_at, skipped};

use common::reading::{Bad, Reading};
use common::refusal::Fault;
use data_field::fields;
use data_field::fields::Span;

// The header, and the place of the first value.
#[derive(Clone, Copy)]
pub struct Prefix {
    pub header: u64,
    pub values: usize,
}

// Whether the header of k columns is refused.
// Internal: for the crates above.
pub fn bad_header(k: u64, header: u64) -> bool
    ensures { result ≡ bad_header k header }
{
    // Most headers have no empty value.
    if header == 0 {
        return false;
    }
    let mut h = header;
    for _ in 0..k {
        if h / 2 % 2 == 1 {
            return true;
        }
        h = h / 4;
    }
    0 < h
}

// The header of k columns.
fn read_header(s: &[u8], at: usize, end: usize, k: u64) -> Reading<u64>
    ensures { said result ≡ header_at k s.now at end }
{
    if k == 0 {
        return Ok((0, at));
    }
    let (value, next) = number_varint::read(s, at, end)?;
    if bad_header(k, value) {
        return Err(Fault::BadFlags.at(at));
    }
    Ok((value, next))
}

// The value of a column of the width, whose bits are the lowest of the header.
// Internal: for the crates above.
pub fn read_clustering(s: &[u8], at: usize, end: usize, width: u8, header: u64) -> Reading<Span>
    ensures { said result ≡ clustering_at width header s.now at end }
{
    if header % 2 == 1 {
        return Ok((Span { start: 0, len: 0 }, at));
    }
    fields::read_value(s, at, end, width)
}

// The place behind the values of `count` columns, whose records stand in the schema from `first` on.
fn skip_values(
    s: &[u8],
    at: usize,
    end: usize,
    schema: &[u8],
    first: usize,
    count: u64,
    header: u64,
) -> Result<usize, Bad>
    requires { first + 16 * count ≤ length schema.now }
    ensures { said_place result ≡ skipped (values_at (widths_at schema.now first count) header s.now at end) }
{
    let mut column = first;
    let mut h = header;
    let mut p = at;
    for _ in 0..count {
        let width = schema[column + 3];
        let (_, next) = read_clustering(s, p, end, width, h)?;
        p = next;
        h = h / 4;
        column += 16;
    }
    Ok(p)
}

// The clustering of `count` columns, whose records stand in the schema from `first` on.
// Internal: for callers that have checked the schema.
pub fn read_prefix(
    s: &[u8],
    at: usize,
    end: usize,
    schema: &[u8],
    first: usize,
    count: u64,
) -> Reading<Prefix>
    requires { first + 16 * count ≤ length schema.now }
    ensures { said result ≡ prefix_at (widths_at schema.now first count) s.now at end }
{
    let (value, next) = read_header(s, at, end, count)?;
    let after = skip_values(s, next, end, schema, first, count, value)?;
    Ok((
        Prefix {
            header: value,
            values: next,
        },
        after,
    ))
}
