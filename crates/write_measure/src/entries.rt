// One entry of a partition, checked and measured.
ghost use Rattle.std.specs.Prelude.{◌≡◌, ◌≤◌, length};
ghost use Rattle.common.specs.Got.{said};
ghost use Rattle.call_check.specs.Tables.{Table};
ghost use Rattle.data_contents.specs.Contents.{widths_of};
ghost use Rattle.write_accept.specs.Entries.{taken_static, taken_row, taken_marker, taken_entry};
ghost use Rattle.write_measure.specs.Measured.{sized_length, body_length, static_length, row_length, marker_length, static_behind, row_behind, entry_measured};

use common::reading::Reading;
use common::refusal::Fault;
use common::times::Bases;
use data_field::fields::Deletion;
use data_items::Item;
use data_marker::markers;
use data_marker::markers::Deletions;
use schema_check::records::Counts;
use write_measure_parts::parts;
use write_record::records;
use write_record::tests::Turn;
use write_record_parts::convert;
use write_row_parts::{heads, markers as bounds};
use write_sizes::{prefixes, sizes};

// How long n bytes are with the sizes before them.
fn sized_len(previous: u64, n: u64) -> u64
    requires { n ≤ 288230376151711744 }
    ensures { (result ≡ sized_length previous n) × (result ≤ 288230376151711762) }
{
    sizes::sizes_len(previous, n) + n
}

// What follows a row's sizes, where its cells have n bytes.
fn body_len(b: Bases, i: Item, missing: u64, n: u64) -> u64
    requires { n ≤ 144115188075855872 }
    ensures { result ≡ body_length b i missing n }
{
    let times = convert::times_of(i);
    let deletion = convert::deletion_of(i);
    heads::head_len(b, times, deletion, missing) + n
}

// A static row, where its cells have n bytes.
fn static_len(b: Bases, i: Item, missing: u64, n: u64) -> u64
    requires { n ≤ 36028797018963968 }
    ensures { (result ≡ static_length b i missing n) × (result ≤ 288230376151711764) }
{
    2 + sized_len(0, body_len(b, i, missing, n))
}

// A row: its clustering values have v bytes, its cells n.
fn row_len(
    b: Bases,
    i: Item,
    back: u64,
    count: u64,
    header: u64,
    v: u64,
    missing: u64,
    n: u64,
) -> u64
    requires { (v ≤ 36028797018963968) × (n ≤ 36028797018963968) }
    ensures { result ≡ row_length b i back count header v missing n }
{
    let body = sized_len(back, body_len(b, i, missing, n));
    1 + prefixes::header_len(count, header) + v + body
}

// A marker, whose clustering values have v bytes.
fn marker_len(
    b: Bases,
    kind: u64,
    deletions: Deletions,
    back: u64,
    count: u64,
    header: u64,
    v: u64,
) -> u64
    requires { v ≤ 36028797018963968 }
    ensures { result ≡ marker_length b kind deletions back count header v }
{
    let body = sized_len(back, bounds::deletions_len(b, kind, deletions));
    4 + prefixes::header_len(count, header) + v + body
}

// Here and below an entry begins `back` bytes behind what its previous size counts from, and the answer is the deletion of the range that is
// open behind it, what the next previous size counts, and how long the entry is.
// A static row's cells, behind its record, which says i.
fn measure_static_rest(
    c: &[u8],
    k: Counts,
    b: Bases,
    s: &[u8],
    bytes: &[u8],
    opened: Deletion,
    back: u64,
    i: Item,
    at: usize,
) -> Reading<(Deletion, u64, u64)>
    requires { Table (length c.now) k × (length s.now ≤ 1073741824) × (length bytes.now ≤ 1073741824) × (back ≤ 36028797018963968) × (at ≤ length s.now) }
    ensures { said result ≡ entry_measured b (widths_of c.now k) bytes.now opened back (static_behind (widths_of c.now k) b bytes.now i s.now at (length s.now)) }
{
    let times = convert::times_of(i);
    let base = (16 + 16 * k.clustering) as usize;
    let ((missing, cells), next) = parts::measure_cells(
        c, base, k.statics, b, times, s, bytes, at,
    )?;
    let size = static_len(b, i, missing, cells);
    let behind = back + size;
    Ok(((opened, behind, size), next))
}

// A static row; `first` is 1 right behind the partition's record, else 0.
fn measure_static(
    c: &[u8],
    k: Counts,
    b: Bases,
    s: &[u8],
    bytes: &[u8],
    first: u8,
    opened: Deletion,
    back: u64,
    at: usize,
) -> Reading<(Deletion, u64, u64)>
    requires { Table (length c.now) k × (length s.now ≤ 1073741824) × (length bytes.now ≤ 1073741824) × (back ≤ 36028797018963968) }
    ensures { said result ≡ entry_measured b (widths_of c.now k) bytes.now opened back (taken_static (widths_of c.now k) b bytes.now first s.now at (length s.now)) }
{
    let statics = k.statics;
    let (item, next) = records::read_record(s, at, b, bytes, Turn::Static { first, statics })?;
    measure_static_rest(c, k, b, s, bytes, opened, back, item, next)
}

// A row's values and cells, behind its record, which says i.
fn measure_row_rest(
    c: &[u8],
    k: Counts,
    b: Bases,
    s: &[u8],
    bytes: &[u8],
    opened: Deletion,
    back: u64,
    i: Item,
    at: usize,
) -> Reading<(Deletion, u64, u64)>
    requires { Table (length c.now) k × (length s.now ≤ 1073741824) × (length bytes.now ≤ 1073741824) × (at ≤ length s.now) }
    ensures { said result ≡ entry_measured b (widths_of c.now k) bytes.now opened back (row_behind (widths_of c.now k) b bytes.now i s.now at (length s.now)) }
{
    let ((count, header, values), next) = parts::measure_clustering(
        c,
        k.clustering,
        b,
        s,
        bytes,
        at,
        true,
    )?;
    let times = convert::times_of(i);
    let base = (16 + 16 * (k.clustering + k.statics)) as usize;
    let ((missing, cells), after) = parts::measure_cells(
        c, base, k.regulars, b, times, s, bytes, next,
    )?;
    let size = row_len(b, i, back, count, header, values, missing, cells);
    Ok(((opened, size, size), after))
}

// A row.
fn measure_row(
    c: &[u8],
    k: Counts,
    b: Bases,
    s: &[u8],
    bytes: &[u8],
    opened: Deletion,
    back: u64,
    at: usize,
) -> Reading<(Deletion, u64, u64)>
    requires { Table (length c.now) k × (length s.now ≤ 1073741824) × (length bytes.now ≤ 1073741824) }
    ensures { said result ≡ entry_measured b (widths_of c.now k) bytes.now opened back (taken_row (widths_of c.now k) b bytes.now s.now at (length s.now)) }
{
    let (item, next) = records::read_row(s, at, b)?;
    measure_row_rest(c, k, b, s, bytes, opened, back, item, next)
}

// A marker, where the deletion of the open range is `opened`.
fn measure_marker(
    c: &[u8],
    k: Counts,
    b: Bases,
    s: &[u8],
    bytes: &[u8],
    opened: Deletion,
    back: u64,
    at: usize,
) -> Reading<(Deletion, u64, u64)>
    requires { Table (length c.now) k × (length s.now ≤ 1073741824) × (length bytes.now ≤ 1073741824) }
    ensures { said result ≡ entry_measured b (widths_of c.now k) bytes.now opened back (taken_marker (widths_of c.now k) b bytes.now opened s.now at (length s.now)) }
{
    let (item, next) = records::read_record(s, at, b, bytes, Turn::Marker { opened })?;
    let ((count, header, values), after) = parts::measure_clustering(
        c,
        k.clustering,
        b,
        s,
        bytes,
        next,
        false,
    )?;
    let deletions = convert::deletions_of(item);
    let kind = item.column;
    let size = marker_len(b, kind, deletions, back, count, header, values);
    Ok(((markers::open_after(kind, deletions), size, size), after))
}

// The entry at at, whose record is of the kind.
pub(crate) fn measure_entry(
    c: &[u8],
    k: Counts,
    b: Bases,
    s: &[u8],
    bytes: &[u8],
    first: u8,
    opened: Deletion,
    back: u64,
    kind: u64,
    at: usize,
) -> Reading<(Deletion, u64, u64)>
    requires { Table (length c.now) k × (length s.now ≤ 1073741824) × (length bytes.now ≤ 1073741824) × (back ≤ 36028797018963968) }
    ensures { said result ≡ entry_measured b (widths_of c.now k) bytes.now opened back (taken_entry (widths_of c.now k) b bytes.now first opened kind s.now at (length s.now)) }
{
    if kind == 2 {
        return measure_static(c, k, b, s, bytes, first, opened, back, at);
    }
    if kind == 3 {
        return measure_row(c, k, b, s, bytes, opened, back, at);
    }
    if kind == 4 {
        return measure_marker(c, k, b, s, bytes, opened, back, at);
    }
    Err(Fault::BadRecord.at(at))
}
