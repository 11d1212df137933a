// Entries and partitions of a record table that was checked, stored one after the other.
ghost use Rattle.std.specs.Prelude.{◌≡◌, ◌+◌, ◌≤◌, length};
ghost use Rattle.common.specs.Store.{splice};
ghost use Rattle.data_field.specs.Fields.{live};
ghost use Rattle.call_check.specs.Tables.{Table};
ghost use Rattle.data_contents.specs.Contents.{widths_of};
ghost use Rattle.write_accept.specs.Fields.{item_of};
ghost use Rattle.write_accept.specs.Entries.{partition_of, taken_entries, taken_at};
ghost use Rattle.write_store.specs.Parts.{entry_again, partition_again, entry_written, entries_written, partition_written, contents_written, Fitting, PutsTo, EntryThere, PutsEntry, KeyThere};

use crate::entries;
use crate::entries::Behind;
use common::times::Bases;
use data_field::fields::Span;
use data_partition::partitions::Partition;
use schema_check::records::Counts;
use write_number::numbers;
use write_record_parts::{convert, fields};
use write_sizes::partitions;

// The places behind an entry that is read and behind what is stored, and how far the next one's previous size counts back.
#[derive(Clone, Copy)]
pub struct Passed {
    pub next: usize,
    pub out: usize,
    pub back: u64,
}

// The entry at at, of which the previous size is back.
fn put_entry(
    c: &[u8],
    k: Counts,
    b: Bases,
    back: u64,
    s: &[u8],
    bytes: &[u8],
    at: usize,
    d: &mut [u8],
    to: usize,
) -> Passed
    requires { Table (length c.now) k × (length s.now ≤ 1073741824) × (length bytes.now ≤ 1073741824) × (back ≤ to) × EntryThere s.now at × Fitting (entry_again (widths_of c.now k) b bytes.now s.now at (length s.now)) (entry_written b (widths_of c.now k) bytes.now back (entry_again (widths_of c.now k) b bytes.now s.now at (length s.now))) d.old to }
    ensures { PutsEntry b (widths_of c.now k) bytes.now back (entry_again (widths_of c.now k) b bytes.now s.now at (length s.now)) d.old d.new to result }
{
    let kind = s[at];
    if kind == 2 {
        let behind = entries::put_static(c, k, b, s, bytes, at, d, to);
        let n = (behind.out - to) as u64;
        return Passed {
            next: behind.next,
            out: behind.out,
            back: back + n,
        };
    }
    if kind == 3 {
        let behind = entries::put_row(c, k, b, back, s, bytes, at, d, to);
        return Passed {
            next: behind.next,
            out: behind.out,
            back: (behind.out - to) as u64,
        };
    }
    let behind = entries::put_marker(c, k, b, back, s, bytes, at, d, to);
    Passed {
        next: behind.next,
        out: behind.out,
        back: (behind.out - to) as u64,
    }
}

// The entries from at on, right behind a partition's header of start bytes, and the end byte.
fn put_entries(
    c: &[u8],
    k: Counts,
    b: Bases,
    start: u64,
    s: &[u8],
    bytes: &[u8],
    at: usize,
    d: &mut [u8],
    to: usize,
) -> Behind
    requires { Table (length c.now) k × (length s.now ≤ 1073741824) × (length bytes.now ≤ 1073741824) × (start ≤ to) × Fitting (taken_entries (widths_of c.now k) b bytes.now 1 live s.now at (length s.now)) (entries_written b (widths_of c.now k) bytes.now start (taken_entries (widths_of c.now k) b bytes.now 1 live s.now at (length s.now))) d.old to }
    ensures { PutsTo (taken_entries (widths_of c.now k) b bytes.now 1 live s.now at (length s.now)) (entries_written b (widths_of c.now k) bytes.now start (taken_entries (widths_of c.now k) b bytes.now 1 live s.now at (length s.now))) d.old d.new to result }
{
    let mut p = at;
    let mut out = to;
    let mut back = start;
    // Where the next entry begins stands in this one: no range holds the steps.
    loop {
        if s[p] == 7 {
            out = numbers::put_byte(d, out, 1);
            return Behind { next: p + 64, out };
        }
        let passed = put_entry(c, k, b, back, s, bytes, p, d, out);
        p = passed.next;
        out = passed.out;
        back = passed.back;
    }
}

// The record of a partition.
fn read_key(s: &[u8], at: usize) -> Partition
    requires { at + 64 ≤ length s.now }
    ensures { result ≡ partition_of (item_of s.now at) }
{
    let item = fields::read_item(s, at);
    let deletion = convert::deletion_of(item);
    let key = Span {
        start: item.offset,
        len: item.length,
    };
    Partition { key, deletion }
}

// The partition at at.
fn put_partition(
    c: &[u8],
    k: Counts,
    b: Bases,
    s: &[u8],
    bytes: &[u8],
    at: usize,
    d: &mut [u8],
    to: usize,
) -> Behind
    requires { Table (length c.now) k × (length s.now ≤ 1073741824) × (length bytes.now ≤ 1073741824) × KeyThere bytes.now s.now at × Fitting (partition_again (widths_of c.now k) b bytes.now s.now at (length s.now)) (partition_written b (widths_of c.now k) bytes.now (partition_again (widths_of c.now k) b bytes.now s.now at (length s.now))) d.old to }
    ensures { PutsTo (partition_again (widths_of c.now k) b bytes.now s.now at (length s.now)) (partition_written b (widths_of c.now k) bytes.now (partition_again (widths_of c.now k) b bytes.now s.now at (length s.now))) d.old d.new to result }
{
    let partition = read_key(s, at);
    let first = partitions::put_header(d, to, bytes, partition.key, partition.deletion);
    put_entries(c, k, b, (first - to) as u64, s, bytes, at + 64, d, first)
}

// Stores the Data of the record table s, whose values lie in bytes; it was checked, and its Data fits into d.
// Internal: for the writer.
pub fn put_contents(c: &[u8], k: Counts, b: Bases, s: &[u8], bytes: &[u8], d: &mut [u8])
    requires { Table (length c.now) k × (length s.now ≤ 1073741824) × (length bytes.now ≤ 1073741824) × Fitting (taken_at (widths_of c.now k) b bytes.now s.now 0 (length s.now)) (contents_written b (widths_of c.now k) bytes.now (taken_at (widths_of c.now k) b bytes.now s.now 0 (length s.now))) d.old 0 }
    ensures { d.new ≡ splice d.old 0 (contents_written b (widths_of c.now k) bytes.now (taken_at (widths_of c.now k) b bytes.now s.now 0 (length s.now))) }
{
    let mut p: usize = 0;
    let mut out: usize = 0;
    // Where the next partition begins stands in this one.
    while p != s.len() {
        let behind = put_partition(c, k, b, s, bytes, p, d, out);
        p = behind.next;
        out = behind.out;
    }
}
