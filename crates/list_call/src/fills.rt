// The records of Data's items, stored while Data is read again: it was counted, so that nothing in it is refused, and its records fit.
// Rows, values and cells are read without a test; markers and partitions, which are few, as they were before.
ghost use Rattle.std.specs.Prelude.{◌≡◌, ◌+◌, ◌*◌, ◌≤◌, ◌∷◌, ◌++◌, length};
ghost use Rattle.common.specs.Store.{splice, Puts};
ghost use Rattle.data_field.specs.Fields.{live};
ghost use Rattle.data_clustering.specs.Prefixes.{values_at, widths_at};
ghost use Rattle.data_row.specs.Bodies.{columns};
ghost use Rattle.data_items.specs.Items.{row_item, marker_item};
ghost use Rattle.call_check.specs.Tables.{Table};
ghost use Rattle.data_contents.specs.Contents.{widths_of, row_entry_at, marker_entry_at, entries_at, contents_at};
ghost use Rattle.list_count.specs.Counted.{whole_cells_at};
ghost use Rattle.list_call.specs.Records.{records_of};
ghost use Rattle.list_call.specs.Parts.{cells_of, values_of, entry_of, statics_at, regulars_at, clustering_of, entries_of, contents_items, bound_of, Fitting, FittingStatic, FittingRow, FittingBound, PutsEntry, PutsMarker, PutsEntries};

use crate::records;
use common::times::Bases;
use data_cell::cells::Times;
use data_cell_reread::cells;
use data_field::fields;
use data_field::fields::Deletion;
use data_marker::markers;
use data_marker::markers::Marker;
use data_partition::partitions;
use data_row::rows::Row;
use data_row_reread::{prefixes, rows};
use schema_check::records::Counts;

// Where an entry ends, or entries and their end byte, and the place behind its records.
#[derive(Clone, Copy)]
pub struct Behind {
    pub next: usize,
    pub out: usize,
}

// Where a marker ends, the deletion of the range that is open behind it, and the place behind its records.
#[derive(Clone, Copy)]
pub struct Open {
    pub opened: Deletion,
    pub next: usize,
    pub out: usize,
}

// The cells of k columns, whose records stand in the schema from base on, of which those in present have one.
pub(crate) fn put_cells(
    c: &[u8],
    base: usize,
    k: u64,
    b: Bases,
    s: &[u8],
    times: Times,
    present: u64,
    at: usize,
    stop: usize,
    d: &mut [u8],
    to: usize,
) -> usize
    requires { (base + 16 * k ≤ length c.now) × (k ≤ 63) × (present ≤ columns k) × Fitting (whole_cells_at b times (widths_at c.now base k) present s.now at stop) (cells_of (whole_cells_at b times (widths_at c.now base k) present s.now at stop)) d.old to }
    ensures { Puts d.old d.new to (records_of (cells_of (whole_cells_at b times (widths_at c.now base k) present s.now at stop))) result }
{
    let mut left = present;
    let mut column = base;
    let mut i: u64 = 0;
    let mut p = at;
    let mut out = to;
    // A step goes to the next column that has a cell, and not over each column.
    while 0 < left {
        let skipped = u64::trailing_zeros(left);
        column += 16 * (skipped as usize);
        i += skipped as u64;
        let width = c[column + 3];
        let (cell, next) = cells::known_cell(s, p, stop, width, b, times);
        let item = data_items::cell_item(i, cell);
        p = next;
        column += 16;
        i += 1;
        left = (left >> skipped) / 2;
        out = records::put_record(d, out, item);
    }
    out
}

// The clustering values of k columns, which are not null in the header.
pub(crate) fn put_values(
    c: &[u8],
    k: u64,
    header: u64,
    s: &[u8],
    at: usize,
    d: &mut [u8],
    to: usize,
) -> usize
    requires { (16 + 16 * k ≤ length c.now) × (k ≤ 32) × Fitting (values_at (widths_at c.now 16 k) header s.now at (length s.now)) (values_of (values_at (widths_at c.now 16 k) header s.now at (length s.now))) d.old to }
    ensures { Puts d.old d.new to (records_of (values_of (values_at (widths_at c.now 16 k) header s.now at (length s.now)))) result }
{
    let mut column: usize = 16;
    let mut h = header;
    let mut p = at;
    let mut out = to;
    for i in 0..k {
        let width = c[column + 3];
        let (value, next) = prefixes::known_clustering(s, p, s.len(), width, h);
        let item = data_items::value_item(i, value);
        out = records::put_record(d, out, item);
        p = next;
        column += 16;
        h = h / 4;
    }
    out
}

// A static row, whose first cell stands at next.
fn put_static(
    c: &[u8],
    k: Counts,
    b: Bases,
    s: &[u8],
    row: Row,
    next: usize,
    d: &mut [u8],
    to: usize,
) -> usize
    requires { Table (length c.now) k × FittingStatic c.now k b s.now row next d.old to }
    ensures { Puts d.old d.new to (records_of (row_item 2 row ∷ cells_of (statics_at c.now k b s.now row next))) result }
{
    let y = row.body;
    let times = y.times;
    let base = (16 + 16 * k.clustering) as usize;
    let item = data_items::row_item(2, row);
    let out = records::put_record(d, to, item);
    put_cells(
        c, base, k.statics, b, s, times, y.present, next, y.stop, d, out,
    )
}

// A row that is not static, whose first cell stands at next.
fn put_plain(
    c: &[u8],
    k: Counts,
    b: Bases,
    s: &[u8],
    row: Row,
    next: usize,
    d: &mut [u8],
    to: usize,
) -> usize
    requires { Table (length c.now) k × FittingRow c.now k b s.now row next d.old to }
    ensures { Puts d.old d.new to (records_of (row_item 3 row ∷ (values_of (clustering_of c.now k s.now row) ++ cells_of (regulars_at c.now k b s.now row next)))) result }
{
    let y = row.body;
    let times = y.times;
    let prefix = row.prefix;
    let base = (16 + 16 * (k.clustering + k.statics)) as usize;
    let item = data_items::row_item(3, row);
    let out = records::put_record(d, to, item);
    let cells = put_values(c, k.clustering, prefix.header, s, prefix.values, d, out);
    put_cells(
        c, base, k.regulars, b, s, times, y.present, next, y.stop, d, cells,
    )
}

// The row at at with its values and cells.
fn put_row(
    c: &[u8],
    k: Counts,
    b: Bases,
    s: &[u8],
    first: u8,
    at: usize,
    d: &mut [u8],
    to: usize,
) -> Behind
    requires { Table (length c.now) k × Fitting (row_entry_at (widths_of c.now k) b first s.now at (length s.now)) (entry_of (row_entry_at (widths_of c.now k) b first s.now at (length s.now))) d.old to }
    ensures { PutsEntry (row_entry_at (widths_of c.now k) b first s.now at (length s.now)) d.old d.new to result }
{
    let (row, next) = rows::known_row(
        s,
        at,
        s.len(),
        c,
        k.clustering,
        k.statics,
        k.regulars,
        first,
        b,
    );
    let stop = row.body.stop;
    if row.extended == 1 {
        let out = put_static(c, k, b, s, row, next, d, to);
        return Behind { next: stop, out };
    }
    let out = put_plain(c, k, b, s, row, next, d, to);
    Behind { next: stop, out }
}

// A marker that ends at next, with its values.
fn put_bound(c: &[u8], s: &[u8], marker: Marker, next: usize, d: &mut [u8], to: usize) -> usize
    requires { FittingBound c.now s.now marker next d.old to }
    ensures { Puts d.old d.new to (records_of (marker_item marker next ∷ values_of (bound_of c.now s.now marker))) result }
{
    let prefix = marker.prefix;
    let count = marker.count;
    let item = data_items::marker_item(marker, next);
    let out = records::put_record(d, to, item);
    put_values(c, count, prefix.header, s, prefix.values, d, out)
}

// The marker at at with its values, where the deletion of the open range is `opened`.
fn put_marker(
    c: &[u8],
    k: Counts,
    b: Bases,
    s: &[u8],
    opened: Deletion,
    at: usize,
    d: &mut [u8],
    to: usize,
) -> Open
    requires { Table (length c.now) k × Fitting (marker_entry_at (widths_of c.now k) b opened s.now at (length s.now)) (entry_of (marker_entry_at (widths_of c.now k) b opened s.now at (length s.now))) d.old to }
    ensures { PutsMarker (marker_entry_at (widths_of c.now k) b opened s.now at (length s.now)) opened d.old d.new to result }
{
    let Ok((marker, next)) = markers::read_marker(s, at, s.len(), c, k.clustering, b, opened) else {
        return Open {
            opened,
            next: at,
            out: to,
        };
    };
    let opened = markers::open_after(marker.kind, marker.deletions);
    let out = put_bound(c, s, marker, next, d, to);
    Open { opened, next, out }
}

// The entries from at on, right behind a partition's header, and the end byte.
fn put_entries(
    c: &[u8],
    k: Counts,
    b: Bases,
    s: &[u8],
    at: usize,
    d: &mut [u8],
    to: usize,
) -> Behind
    requires { Table (length c.now) k × Fitting (entries_at (widths_of c.now k) b 1 live s.now at (length s.now)) (entries_of (entries_at (widths_of c.now k) b 1 live s.now at (length s.now))) d.old to }
    ensures { PutsEntries (entries_at (widths_of c.now k) b 1 live s.now at (length s.now)) d.old d.new to result }
{
    let mut first: u8 = 1;
    let mut opened = Deletion {
        deleted: 0,
        mark: 0,
        local: 0,
    };
    let mut p = at;
    let mut out = to;
    // Where the next entry begins stands in this one: no range holds the steps.
    loop {
        let Ok((value, next)) = fields::read_byte(s, p, s.len()) else {
            return Behind { next: p, out };
        };
        if value == 1 {
            let item = data_items::end_item(p);
            out = records::put_record(d, out, item);
            return Behind { next, out };
        }
        if value == 2 {
            let behind = put_marker(c, k, b, s, opened, p, d, out);
            opened = behind.opened;
            p = behind.next;
            out = behind.out;
            first = 0;
            continue;
        }
        let behind = put_row(c, k, b, s, first, p, d, out);
        p = behind.next;
        out = behind.out;
        first = 0;
    }
}

// Stores the records of the Data s, which was counted and whose records fit into d.
pub(crate) fn put_contents(c: &[u8], k: Counts, b: Bases, s: &[u8], d: &mut [u8])
    requires { Table (length c.now) k × Fitting (contents_at (widths_of c.now k) b s.now 0 (length s.now)) (contents_items (contents_at (widths_of c.now k) b s.now 0 (length s.now))) d.old 0 }
    ensures { d.new ≡ splice d.old 0 (records_of (contents_items (contents_at (widths_of c.now k) b s.now 0 (length s.now)))) }
{
    let mut p: usize = 0;
    let mut out: usize = 0;
    // Where the next partition begins stands in this one.
    while p != s.len() {
        let Ok((partition, next)) = partitions::read_partition(s, p, s.len()) else {
            return;
        };
        let item = data_items::partition_item(partition);
        out = records::put_record(d, out, item);
        let behind = put_entries(c, k, b, s, next, d, out);
        p = behind.next;
        out = behind.out;
    }
}
