// The items of Data, counted.
ghost use Rattle.std.specs.Prelude.{◌≡◌, ◌+◌, ◌*◌, ◌≤◌, length};
ghost use Rattle.common.specs.Got.{said};
ghost use Rattle.data_field.specs.Fields.{live};
ghost use Rattle.data_clustering.specs.Prefixes.{widths_at};
ghost use Rattle.data_row.specs.Bodies.{columns};
ghost use Rattle.call_check.specs.Tables.{Table};
ghost use Rattle.data_contents.specs.Contents.{widths_of, row_entry_at, marker_entry_at, closed_at, entries_at, contents_at};
ghost use Rattle.list_count.specs.Counted.{whole_cells_at, cells_counted, entry_counted, marker_counted, entries_counted, contents_counted};

use common::reading::Reading;
use common::refusal::Fault;
use common::times::Bases;
use data_cell::cells;
use data_cell::cells::Times;
use data_field::fields;
use data_field::fields::Deletion;
use data_marker::markers;
use data_partition::partitions;
use data_row::rows;
use schema_check::records::Counts;

// The cells of k columns, whose records stand in the schema from base on, of which those in present have one; with n before them.
fn count_cells(
    c: &[u8],
    base: usize,
    k: u64,
    b: Bases,
    s: &[u8],
    times: Times,
    present: u64,
    at: usize,
    stop: usize,
    n: u64,
) -> Reading<u64>
    requires { (base + 16 * k ≤ length c.now) × (k ≤ 63) × (present ≤ columns k) × (n ≤ 1099511627776) }
    ensures { said result ≡ cells_counted n (whole_cells_at b times (widths_at c.now base k) present s.now at stop) }
{
    let mut left = present;
    let mut column = base;
    let mut p = at;
    let mut count = n;
    // A step goes to the next column that has a cell, and not over each column.
    while 0 < left {
        let skipped = u64::trailing_zeros(left);
        column += 16 * (skipped as usize);
        let width = c[column + 3];
        let (_, next) = cells::read_cell(s, p, stop, width, b, times)?;
        p = next;
        count += 1;
        column += 16;
        left = (left >> skipped) / 2;
    }
    if p < stop {
        return Err(Fault::LeftOver.at(p));
    }
    Ok((count, p))
}

// The row at at with its values and cells, n before it.
fn count_row(c: &[u8], k: Counts, b: Bases, s: &[u8], first: u8, at: usize, n: u64) -> Reading<u64>
    requires { Table (length c.now) k × (n ≤ 274877906944) }
    ensures { said result ≡ entry_counted n (row_entry_at (widths_of c.now k) b first s.now at (length s.now)) }
{
    let (row, next) = rows::read_row(
        s,
        at,
        s.len(),
        c,
        k.clustering,
        k.statics,
        k.regulars,
        first,
        b,
    )?;
    let y = row.body;
    let times = y.times;
    if row.extended == 1 {
        let base = (16 + 16 * k.clustering) as usize;
        return count_cells(
            c,
            base,
            k.statics,
            b,
            s,
            times,
            y.present,
            next,
            y.stop,
            n + 1,
        );
    }
    let base = (16 + 16 * (k.clustering + k.statics)) as usize;
    let values = n + 1 + k.clustering;
    count_cells(
        c, base, k.regulars, b, s, times, y.present, next, y.stop, values,
    )
}

// The marker at at with its values, where the deletion of the open range is `opened`, n before it: the deletion of the range that is open
// behind it, and how many items stand before the next entry.
fn count_marker(
    c: &[u8],
    k: Counts,
    b: Bases,
    s: &[u8],
    opened: Deletion,
    at: usize,
    n: u64,
) -> Reading<(Deletion, u64)>
    requires { Table (length c.now) k × (n ≤ 274877906944) }
    ensures { said result ≡ marker_counted n opened (marker_entry_at (widths_of c.now k) b opened s.now at (length s.now)) }
{
    let (marker, next) = markers::read_marker(s, at, s.len(), c, k.clustering, b, opened)?;
    let deletions = marker.deletions;
    let after = markers::open_after(marker.kind, deletions);
    Ok(((after, n + 1 + marker.count), next))
}

// The end byte at at, n before it.
fn count_end(opened: Deletion, at: usize, n: u64) -> Reading<u64>
    requires { n ≤ 274877906944 }
    ensures { said result ≡ entries_counted n (closed_at opened at) }
{
    if opened.deleted == 0 {
        return Ok((n + 1, at));
    }
    Err(Fault::OutOfTurn.at(at))
}

// The entries from at on, right behind a partition's header, and the end byte, at which they end; with n before them.
// Internal: for callers that have checked the schema.
pub fn count_entries(c: &[u8], k: Counts, b: Bases, s: &[u8], at: usize, n: u64) -> Reading<u64>
    requires { Table (length c.now) k × (n ≤ 128 * at) × (length s.now ≤ 1073741824) × (at ≤ length s.now) }
    ensures { said result ≡ entries_counted n (entries_at (widths_of c.now k) b 1 live s.now at (length s.now)) }
{
    let mut first: u8 = 1;
    let mut opened = Deletion {
        deleted: 0,
        mark: 0,
        local: 0,
    };
    let mut p = at;
    let mut count = n;
    // Where the next entry begins stands in this one: no range holds the steps.
    loop {
        let (value, _) = fields::read_byte(s, p, s.len())?;
        if value == 1 {
            return count_end(opened, p, count);
        }
        if value == 2 {
            let ((after, more), next) = count_marker(c, k, b, s, opened, p, count)?;
            opened = after;
            count = more;
            p = next;
            first = 0;
            continue;
        }
        let (more, next) = count_row(c, k, b, s, first, p, count)?;
        count = more;
        p = next;
        first = 0;
    }
}

// How many items the Data s lists, in a table of the checked schema c.
// Internal: for callers that have checked the schema.
pub fn count_contents(c: &[u8], k: Counts, b: Bases, s: &[u8]) -> Reading<u64>
    requires { Table (length c.now) k × (length s.now ≤ 1073741824) }
    ensures { said result ≡ contents_counted 0 (contents_at (widths_of c.now k) b s.now 0 (length s.now)) }
{
    let mut p: usize = 0;
    let mut count: u64 = 0;
    // Where the next partition begins stands in this one.
    while p != s.len() {
        let (_, next) = partitions::read_partition(s, p, s.len())?;
        let (value, end) = count_entries(c, k, b, s, next, count + 1)?;
        count = value;
        p = end + 1;
    }
    Ok((count, p))
}
