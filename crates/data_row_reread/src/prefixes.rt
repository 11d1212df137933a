// The clustering of a row: a header and values.
ghost use Rattle.std.specs.Prelude.{◌≡◌, ◌+◌, ◌*◌, ◌≤◌, length};
ghost use Rattle.common.specs.Got.{got, Took};
ghost use Rattle.data_clustering.specs.Prefixes.{header_at, clustering_at, values_at, prefix_at, widths_at, skipped};

use data_cell_reread::fields;
use data_clustering::prefixes::Prefix;
use data_field::fields::Span;

// The value of a column of the width, whose bits are the lowest of the header.
// Internal: for code that has read the same before.
pub fn known_clustering(s: &[u8], at: usize, end: usize, width: u8, header: u64) -> (Span, usize)
    requires { Took (clustering_at width header s.now at end) }
    ensures { got result.0 result.1 ≡ clustering_at width header s.now at end }
{
    if header % 2 == 1 {
        return (Span { start: 0, len: 0 }, at);
    }
    fields::known_value(s, at, end, width)
}

// The header of k columns.
fn known_header(s: &[u8], at: usize, end: usize, k: u64) -> (u64, usize)
    requires { Took (header_at k s.now at end) }
    ensures { got result.0 result.1 ≡ header_at k s.now at end }
{
    if k == 0 {
        return (0, at);
    }
    number_varint::known(s, at, end)
}

// Past the values of `count` columns, whose records stand in the schema from `first` on: the place after them.
fn skip_known(
    s: &[u8],
    at: usize,
    end: usize,
    schema: &[u8],
    first: usize,
    count: u64,
    header: u64,
) -> usize
    requires { (first + 16 * count ≤ length schema.now) × Took (values_at (widths_at schema.now first count) header s.now at end) }
    ensures { got tt result ≡ skipped (values_at (widths_at schema.now first count) header s.now at end) }
{
    let mut column = first;
    let mut h = header;
    let mut p = at;
    for _ in 0..count {
        let width = schema[column + 3];
        let (_, next) = known_clustering(s, p, end, width, h);
        p = next;
        h = h / 4;
        column += 16;
    }
    p
}

// The clustering of `count` columns, whose records stand in the schema from `first` on.
pub(crate) fn known_prefix(
    s: &[u8],
    at: usize,
    end: usize,
    schema: &[u8],
    first: usize,
    count: u64,
) -> (Prefix, usize)
    requires { (first + 16 * count ≤ length schema.now) × Took (prefix_at (widths_at schema.now first count) s.now at end) }
    ensures { got result.0 result.1 ≡ prefix_at (widths_at schema.now first count) s.now at end }
{
    let (header, values) = known_header(s, at, end, count);
    let next = skip_known(s, values, end, schema, first, count, header);
    (Prefix { header, values }, next)
}
