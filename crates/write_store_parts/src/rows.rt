// Rows and markers, stored from numbers that were measured and from the records of their values and cells.
ghost use Rattle.std.specs.Prelude.{[], ◌∷◌, ◌++◌, ◌+◌, ◌*◌, ◌≤◌, length};
ghost use Rattle.common.specs.Store.{Room, Puts};
ghost use Rattle.write_store_parts.specs.Again.{ValuesThere, CellsThere, prefix_again, content_again, body_again, plain_again, fixed_again, deletions_again, bound_again, Bits};

use crate::parts;
use common::times::Bases;
use data_cell::cells::Times;
use data_field::fields::Deletion;
use data_marker::markers::Deletions;
use write_number::numbers;
use write_row_parts::{heads, markers};
use write_sizes::{prefixes, sizes};

// The clustering values of the first `count` columns, with their header.
fn put_prefix(
    c: &[u8],
    count: u64,
    header: u64,
    s: &[u8],
    bytes: &[u8],
    at: usize,
    d: &mut [u8],
    to: usize,
) -> usize
    requires { (16 + 16 * count ≤ length c.now) × (count ≤ 32) × ValuesThere bytes.now s.now at count × Room d.old to (prefix_again c.now count header bytes.now s.now at) }
    ensures { Puts d.old d.new to (prefix_again c.now count header bytes.now s.now at) result }
{
    let out = prefixes::put_header_of(d, to, count, header);
    parts::put_values(c, count, s, bytes, at, d, out)
}

// What follows a row's sizes: its times, its deletion, the missing columns, its k cells.
fn put_content(
    c: &[u8],
    base: usize,
    b: Bases,
    times: Times,
    deletion: Deletion,
    missing: u64,
    s: &[u8],
    bytes: &[u8],
    at: usize,
    k: usize,
    d: &mut [u8],
    to: usize,
) -> usize
    requires { CellsThere c.now base bytes.now s.now at k × Room d.old to (content_again b times deletion missing c.now base bytes.now s.now at k) }
    ensures { Puts d.old d.new to (content_again b times deletion missing c.now base bytes.now s.now at k) result }
{
    let out = heads::put_head(d, to, b, times, deletion, missing);
    parts::put_cells(c, base, b, times, s, bytes, at, k, d, out)
}

// The same with its sizes, where the cells have size bytes.
fn put_body(
    c: &[u8],
    base: usize,
    b: Bases,
    times: Times,
    deletion: Deletion,
    missing: u64,
    size: u64,
    previous: u64,
    s: &[u8],
    bytes: &[u8],
    at: usize,
    k: usize,
    d: &mut [u8],
    to: usize,
) -> usize
    requires { (size ≤ 1073741824) × CellsThere c.now base bytes.now s.now at k × Room d.old to (body_again previous size b times deletion missing c.now base bytes.now s.now at k) }
    ensures { Puts d.old d.new to (body_again previous size b times deletion missing c.now base bytes.now s.now at k) result }
{
    let n = heads::head_len(b, times, deletion, missing) + size;
    let out = sizes::put_sizes(d, to, previous, n);
    put_content(
        c, base, b, times, deletion, missing, s, bytes, at, k, d, out,
    )
}

// A row behind its flags.
fn put_unflagged(
    c: &[u8],
    count: u64,
    header: u64,
    values: usize,
    base: usize,
    b: Bases,
    times: Times,
    deletion: Deletion,
    missing: u64,
    size: u64,
    previous: u64,
    s: &[u8],
    bytes: &[u8],
    at: usize,
    k: usize,
    d: &mut [u8],
    to: usize,
) -> usize
    requires { (16 + 16 * count ≤ length c.now) × (count ≤ 32) × (size ≤ 1073741824) × ValuesThere bytes.now s.now values count × CellsThere c.now base bytes.now s.now at k × Room d.old to (prefix_again c.now count header bytes.now s.now values ++ body_again previous size b times deletion missing c.now base bytes.now s.now at k) }
    ensures { Puts d.old d.new to (prefix_again c.now count header bytes.now s.now values ++ body_again previous size b times deletion missing c.now base bytes.now s.now at k) result }
{
    let body = put_prefix(c, count, header, s, bytes, values, d, to);
    put_body(
        c, base, b, times, deletion, missing, size, previous, s, bytes, at, k, d, body,
    )
}

// A row: its flags, its clustering values, whose records stand from values on, its body.
// Internal: for the writer, which has checked and measured them.
pub fn put_plain(
    c: &[u8],
    count: u64,
    header: u64,
    values: usize,
    base: usize,
    b: Bases,
    times: Times,
    deletion: Deletion,
    missing: u64,
    size: u64,
    previous: u64,
    s: &[u8],
    bytes: &[u8],
    at: usize,
    k: usize,
    d: &mut [u8],
    to: usize,
) -> usize
    requires { Bits times deletion × (16 + 16 * count ≤ length c.now) × (count ≤ 32) × (size ≤ 1073741824) × ValuesThere bytes.now s.now values count × CellsThere c.now base bytes.now s.now at k × Room d.old to (plain_again times deletion missing (prefix_again c.now count header bytes.now s.now values) (body_again previous size b times deletion missing c.now base bytes.now s.now at k)) }
    ensures { Puts d.old d.new to (plain_again times deletion missing (prefix_again c.now count header bytes.now s.now values) (body_again previous size b times deletion missing c.now base bytes.now s.now at k)) result }
{
    let prefix = sizes::put_flags(d, to, 0, times, deletion, missing);
    put_unflagged(
        c, count, header, values, base, b, times, deletion, missing, size, previous, s, bytes, at,
        k, d, prefix,
    )
}

// A static row behind its flags: the byte that says so, and its body.
fn put_extended(
    c: &[u8],
    base: usize,
    b: Bases,
    times: Times,
    deletion: Deletion,
    missing: u64,
    size: u64,
    s: &[u8],
    bytes: &[u8],
    at: usize,
    k: usize,
    d: &mut [u8],
    to: usize,
) -> usize
    requires { (size ≤ 1073741824) × CellsThere c.now base bytes.now s.now at k × Room d.old to ((1 ∷ []) ++ body_again 0 size b times deletion missing c.now base bytes.now s.now at k) }
    ensures { Puts d.old d.new to ((1 ∷ []) ++ body_again 0 size b times deletion missing c.now base bytes.now s.now at k) result }
{
    let body = numbers::put_byte(d, to, 1);
    put_body(
        c, base, b, times, deletion, missing, size, 0, s, bytes, at, k, d, body,
    )
}

// A static row: its flags, its body.
// Internal: for the writer, which has checked and measured its cells.
pub fn put_fixed(
    c: &[u8],
    base: usize,
    b: Bases,
    times: Times,
    deletion: Deletion,
    missing: u64,
    size: u64,
    s: &[u8],
    bytes: &[u8],
    at: usize,
    k: usize,
    d: &mut [u8],
    to: usize,
) -> usize
    requires { Bits times deletion × (size ≤ 1073741824) × CellsThere c.now base bytes.now s.now at k × Room d.old to (fixed_again times deletion missing (body_again 0 size b times deletion missing c.now base bytes.now s.now at k)) }
    ensures { Puts d.old d.new to (fixed_again times deletion missing (body_again 0 size b times deletion missing c.now base bytes.now s.now at k)) result }
{
    let extended = sizes::put_flags(d, to, 1, times, deletion, missing);
    put_extended(
        c, base, b, times, deletion, missing, size, s, bytes, at, k, d, extended,
    )
}

// The deletions of a marker, with their sizes.
fn put_sized(
    b: Bases,
    kind: u64,
    deletions: Deletions,
    previous: u64,
    d: &mut [u8],
    to: usize,
) -> usize
    requires { Room d.old to (deletions_again b previous kind deletions) }
    ensures { Puts d.old d.new to (deletions_again b previous kind deletions) result }
{
    let n = markers::deletions_len(b, kind, deletions);
    let out = sizes::put_sizes(d, to, previous, n);
    markers::put_deletions(d, out, b, kind, deletions)
}

// A marker behind its count.
fn put_counted(
    c: &[u8],
    count: u64,
    header: u64,
    b: Bases,
    kind: u64,
    deletions: Deletions,
    previous: u64,
    s: &[u8],
    bytes: &[u8],
    at: usize,
    d: &mut [u8],
    to: usize,
) -> usize
    requires { (16 + 16 * count ≤ length c.now) × (count ≤ 32) × ValuesThere bytes.now s.now at count × Room d.old to (prefix_again c.now count header bytes.now s.now at ++ deletions_again b previous kind deletions) }
    ensures { Puts d.old d.new to (prefix_again c.now count header bytes.now s.now at ++ deletions_again b previous kind deletions) result }
{
    let body = put_prefix(c, count, header, s, bytes, at, d, to);
    put_sized(b, kind, deletions, previous, d, body)
}

// A marker of `count` clustering values, whose records stand from at on.
// Internal: for the writer, which has checked and measured them.
pub fn put_bound(
    c: &[u8],
    count: u64,
    header: u64,
    b: Bases,
    kind: u64,
    deletions: Deletions,
    previous: u64,
    s: &[u8],
    bytes: &[u8],
    at: usize,
    d: &mut [u8],
    to: usize,
) -> usize
    requires { (kind ≤ 7) × (16 + 16 * count ≤ length c.now) × (count ≤ 32) × ValuesThere bytes.now s.now at count × Room d.old to (bound_again b previous kind count deletions (prefix_again c.now count header bytes.now s.now at)) }
    ensures { Puts d.old d.new to (bound_again b previous kind count deletions (prefix_again c.now count header bytes.now s.now at)) result }
{
    let prefix = markers::put_bound(d, to, kind, count);
    put_counted(
        c, count, header, b, kind, deletions, previous, s, bytes, at, d, prefix,
    )
}
