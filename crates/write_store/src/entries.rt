// Rows and markers of a record table that was checked, stored while it is read again.
ghost use Rattle.std.specs.Prelude.{◌≡◌, ◌+◌, ◌*◌, ◌≤◌, length};
ghost use Rattle.data_clustering.specs.Prefixes.{widths_at};
ghost use Rattle.call_check.specs.Tables.{Table};
ghost use Rattle.data_contents.specs.Contents.{widths_of};
ghost use Rattle.write_accept.specs.Fields.{item_of};
ghost use Rattle.write_accept.specs.Entries.{taken_cells};
ghost use Rattle.write_store_parts.specs.Again.{ValuesThere, prefix_again, Bits};
ghost use Rattle.write_store.specs.Parts.{head_of, bound_of, static_again, row_again, marker_again, plain_written, entry_written, Fitting, PutsTo};

use common::times::Bases;
use data_cell::cells::Times;
use data_field::fields::Deletion;
use data_marker::markers::Deletions;
use schema_check::records::Counts;
use write_measure_parts::ahead;
use write_record_parts::{convert, fields};
use write_store_parts::rows;

// The places behind what is read and behind what is stored.
#[derive(Clone, Copy)]
pub struct Behind {
    pub next: usize,
    pub out: usize,
}

// What a row's record says.
#[derive(Clone, Copy)]
pub struct Head {
    pub times: Times,
    pub deletion: Deletion,
}

// What a marker's record says.
#[derive(Clone, Copy)]
pub struct Bound {
    pub kind: u64,
    pub deletions: Deletions,
}

// The record of a row.
fn read_head(s: &[u8], at: usize) -> Head
    requires { at + 64 ≤ length s.now }
    ensures { result ≡ head_of (item_of s.now at) }
{
    let item = fields::read_item(s, at);
    let times = convert::times_of(item);
    let deletion = convert::deletion_of(item);
    Head { times, deletion }
}

// The record of a marker.
fn read_bound(s: &[u8], at: usize) -> Bound
    requires { at + 64 ≤ length s.now }
    ensures { result ≡ bound_of (item_of s.now at) }
{
    let item = fields::read_item(s, at);
    let deletions = convert::deletions_of(item);
    Bound {
        kind: item.column,
        deletions,
    }
}

// A row whose cells' records stand from at on, behind those of its clustering values, which stand from values on.
fn put_row_cells(
    c: &[u8],
    k: Counts,
    b: Bases,
    times: Times,
    deletion: Deletion,
    header: u64,
    values: usize,
    back: u64,
    s: &[u8],
    bytes: &[u8],
    at: usize,
    d: &mut [u8],
    to: usize,
) -> Behind
    requires { Table (length c.now) k × (length s.now ≤ 1073741824) × (length bytes.now ≤ 1073741824) × Bits times deletion × ValuesThere bytes.now s.now values k.clustering × (at ≤ length s.now) × Fitting (taken_cells b bytes.now 0 (widths_at c.now (16 + 16 * (k.clustering + k.statics)) k.regulars) s.now at (length s.now)) (plain_written b (widths_at c.now (16 + 16 * (k.clustering + k.statics)) k.regulars) bytes.now back times deletion (prefix_again c.now k.clustering header bytes.now s.now values) (taken_cells b bytes.now 0 (widths_at c.now (16 + 16 * (k.clustering + k.statics)) k.regulars) s.now at (length s.now))) d.old to }
    ensures { PutsTo (taken_cells b bytes.now 0 (widths_at c.now (16 + 16 * (k.clustering + k.statics)) k.regulars) s.now at (length s.now)) (plain_written b (widths_at c.now (16 + 16 * (k.clustering + k.statics)) k.regulars) bytes.now back times deletion (prefix_again c.now k.clustering header bytes.now s.now values) (taken_cells b bytes.now 0 (widths_at c.now (16 + 16 * (k.clustering + k.statics)) k.regulars) s.now at (length s.now))) d.old d.new to result }
{
    let base = (16 + 16 * (k.clustering + k.statics)) as usize;
    let Ok(((missing, size), next)) = ahead::size_cells(c, base, k.regulars, b, times, s, bytes, at)
    else {
        return Behind { next: at, out: to };
    };
    let many = (next - at) / 64;
    let out = rows::put_plain(
        c,
        k.clustering,
        header,
        values,
        base,
        b,
        times,
        deletion,
        missing,
        size,
        back,
        s,
        bytes,
        at,
        many,
        d,
        to,
    );
    Behind { next, out }
}

// The row at at.
pub(crate) fn put_row(
    c: &[u8],
    k: Counts,
    b: Bases,
    back: u64,
    s: &[u8],
    bytes: &[u8],
    at: usize,
    d: &mut [u8],
    to: usize,
) -> Behind
    requires { Table (length c.now) k × (length s.now ≤ 1073741824) × (length bytes.now ≤ 1073741824) × (at + 64 ≤ length s.now) × Fitting (row_again (widths_of c.now k) b bytes.now s.now at (length s.now)) (entry_written b (widths_of c.now k) bytes.now back (row_again (widths_of c.now k) b bytes.now s.now at (length s.now))) d.old to }
    ensures { PutsTo (row_again (widths_of c.now k) b bytes.now s.now at (length s.now)) (entry_written b (widths_of c.now k) bytes.now back (row_again (widths_of c.now k) b bytes.now s.now at (length s.now))) d.old d.new to result }
{
    let head = read_head(s, at);
    let Ok(((_, header, _), next)) = ahead::size_clustering(
        c,
        k.clustering,
        b,
        s,
        bytes,
        at + 64,
        true,
    ) else {
        return Behind { next: at, out: to };
    };
    put_row_cells(
        c,
        k,
        b,
        head.times,
        head.deletion,
        header,
        at + 64,
        back,
        s,
        bytes,
        next,
        d,
        to,
    )
}

// The static row at at.
pub(crate) fn put_static(
    c: &[u8],
    k: Counts,
    b: Bases,
    s: &[u8],
    bytes: &[u8],
    at: usize,
    d: &mut [u8],
    to: usize,
) -> Behind
    requires { Table (length c.now) k × (length s.now ≤ 1073741824) × (length bytes.now ≤ 1073741824) × (at + 64 ≤ length s.now) × Fitting (static_again (widths_of c.now k) b bytes.now s.now at (length s.now)) (entry_written b (widths_of c.now k) bytes.now 0 (static_again (widths_of c.now k) b bytes.now s.now at (length s.now))) d.old to }
    ensures { PutsTo (static_again (widths_of c.now k) b bytes.now s.now at (length s.now)) (entry_written b (widths_of c.now k) bytes.now 0 (static_again (widths_of c.now k) b bytes.now s.now at (length s.now))) d.old d.new to result }
{
    let base = (16 + 16 * k.clustering) as usize;
    let head = read_head(s, at);
    let Ok(((missing, size), next)) = ahead::size_cells(
        c,
        base,
        k.statics,
        b,
        head.times,
        s,
        bytes,
        at + 64,
    ) else {
        return Behind { next: at, out: to };
    };
    let many = (next - (at + 64)) / 64;
    let out = rows::put_fixed(
        c,
        base,
        b,
        head.times,
        head.deletion,
        missing,
        size,
        s,
        bytes,
        at + 64,
        many,
        d,
        to,
    );
    Behind { next, out }
}

// The marker at at.
pub(crate) fn put_marker(
    c: &[u8],
    k: Counts,
    b: Bases,
    back: u64,
    s: &[u8],
    bytes: &[u8],
    at: usize,
    d: &mut [u8],
    to: usize,
) -> Behind
    requires { Table (length c.now) k × (length bytes.now ≤ 1073741824) × (at + 64 ≤ length s.now) × ((item_of s.now at).column ≤ 7) × Fitting (marker_again (widths_of c.now k) b bytes.now s.now at (length s.now)) (entry_written b (widths_of c.now k) bytes.now back (marker_again (widths_of c.now k) b bytes.now s.now at (length s.now))) d.old to }
    ensures { PutsTo (marker_again (widths_of c.now k) b bytes.now s.now at (length s.now)) (entry_written b (widths_of c.now k) bytes.now back (marker_again (widths_of c.now k) b bytes.now s.now at (length s.now))) d.old d.new to result }
{
    let bound = read_bound(s, at);
    let Ok(((count, header, _), next)) = ahead::size_clustering(
        c,
        k.clustering,
        b,
        s,
        bytes,
        at + 64,
        false,
    ) else {
        return Behind { next: at, out: to };
    };
    let out = rows::put_bound(
        c,
        count,
        header,
        b,
        bound.kind,
        bound.deletions,
        back,
        s,
        bytes,
        at + 64,
        d,
        to,
    );
    Behind { next, out }
}
