// What a step hands out: the numbers of a record.
#![tactic(auto)]

ghost use Rattle.std.specs.Prelude.{◌≡◌, ◌-◌};
ghost use Rattle.data_items.specs.Items.{mark_of, time_of, partition_flags, cell_flags, partition_item, row_item, marker_item, value_item, cell_item, end_item, shows_value, value_of};

use common::part;
use data_cell::cells::{Cell, Times};
use data_field::fields::{Deletion, Span};
use data_marker::markers::{Deletions, Marker};
use data_partition::partitions::Partition;
use data_row::bodies::Body;
use data_row::rows::Row;

// A record's numbers. Timestamp and marks are the signed number plus 2^63, so that 2^63 stands where there is none.
#[derive(Clone, Copy)]
pub struct Item {
    pub kind: u64,
    pub flags: u64,
    pub column: u64,
    pub ttl: u64,
    pub timestamp: u64,
    pub mark: u64,
    pub local: u64,
    pub expiry: u64,
    pub mark2: u64,
    pub local2: u64,
    pub offset: usize,
    pub length: usize,
}

// The mark of a deletion, if there is one.
fn mark_of(d: Deletion) -> u64
    ensures { result ≡ mark_of d }
{
    if d.deleted == 0 {
        return 9223372036854775808;
    }
    d.mark
}

// The timestamp of a row, if it has one.
fn time_of(t: Times) -> u64
    ensures { result ≡ time_of t }
{
    if t.timed == 0 {
        return 9223372036854775808;
    }
    t.timestamp
}

// How many bytes there are from start to stop.
fn length_to(start: usize, stop: usize) -> usize
    ensures { result ≡ stop - start }
{
    if stop < start {
        return 0;
    }
    stop - start
}

// The flags of a partition's record, with a key of len bytes.
fn partition_flags(deleted: u8, len: usize) -> u64
    ensures { result ≡ partition_flags deleted len }
{
    if deleted == 0 {
        if len == 0 {
            return 8;
        }
        return 0;
    }
    if len == 0 {
        return 12;
    }
    4
}

// The flags of the record of a cell that is no tombstone, with a value of len bytes.
fn cell_flags(kind: u8, len: usize) -> u64
    ensures { result ≡ cell_flags kind len }
{
    if kind == 1 {
        if len == 0 {
            return 11;
        }
        return 3;
    }
    if len == 0 {
        return 9;
    }
    1
}

// A partition's header.
// Internal, as the items below: for callers that read Data.
pub fn partition_item(p: Partition) -> Item
    ensures { result ≡ partition_item p }
{
    let key = p.key;
    let d = p.deletion;
    let flags = partition_flags(d.deleted, key.len);
    let mark = mark_of(d);
    Item {
        kind: 1,
        flags,
        column: 0,
        ttl: 0,
        timestamp: 9223372036854775808,
        mark,
        local: d.local,
        expiry: 0,
        mark2: 9223372036854775808,
        local2: 0,
        offset: key.start,
        length: key.len,
    }
}

// A row, or (kind 2) a static one.
// Internal: for the crates above.
pub fn row_item(kind: u64, row: Row) -> Item
    ensures { result ≡ row_item kind row }
{
    let body = row.body;
    let times = body.times;
    let d = body.deletion;
    let timestamp = time_of(times);
    let mark = mark_of(d);
    let length = length_to(row.start, body.stop);
    Item {
        kind,
        flags: row.flags / 4 % 8,
        column: 0,
        ttl: times.ttl,
        timestamp,
        mark,
        local: d.local,
        expiry: times.local,
        mark2: 9223372036854775808,
        local2: 0,
        offset: row.start,
        length,
    }
}

// A marker that ends at stop.
// Internal: for the crates above.
pub fn marker_item(m: Marker, stop: usize) -> Item
    ensures { result ≡ marker_item m stop }
{
    let both = m.deletions;
    let first = both.first;
    let second = both.second;
    let mark2 = mark_of(second);
    let length = length_to(m.start, stop);
    Item {
        kind: 4,
        flags: 4,
        column: m.kind,
        ttl: 0,
        timestamp: 9223372036854775808,
        mark: first.mark,
        local: first.local,
        expiry: 0,
        mark2,
        local2: second.local,
        offset: m.start,
        length,
    }
}

// A clustering value.
// Internal: for the crates above.
pub fn value_item(column: u64, v: Span) -> Item
    ensures { result ≡ value_item column v }
{
    let flags = partition_flags(0, v.len);
    Item {
        kind: 5,
        flags,
        column,
        ttl: 0,
        timestamp: 9223372036854775808,
        mark: 9223372036854775808,
        local: 0,
        expiry: 0,
        mark2: 9223372036854775808,
        local2: 0,
        offset: v.start,
        length: v.len,
    }
}

// The cell of a column.
// Internal: for the crates above.
pub fn cell_item(column: u64, cell: Cell) -> Item
    ensures { result ≡ cell_item column cell }
{
    if cell.kind == 2 {
        return Item {
            kind: 6,
            flags: 5,
            column,
            ttl: 0,
            timestamp: cell.timestamp,
            mark: 9223372036854775808,
            local: cell.local,
            expiry: 0,
            mark2: 9223372036854775808,
            local2: 0,
            offset: 0,
            length: 0,
        };
    }
    let v = cell.value;
    let flags = cell_flags(cell.kind, v.len);
    Item {
        kind: 6,
        flags,
        column,
        ttl: cell.ttl,
        timestamp: cell.timestamp,
        mark: 9223372036854775808,
        local: 0,
        expiry: cell.local,
        mark2: 9223372036854775808,
        local2: 0,
        offset: v.start,
        length: v.len,
    }
}

// The end byte at at.
// Internal: for the crates above.
pub fn end_item(at: usize) -> Item
    ensures { result ≡ end_item at }
{
    Item {
        kind: 7,
        flags: 0,
        column: 0,
        ttl: 0,
        timestamp: 9223372036854775808,
        mark: 9223372036854775808,
        local: 0,
        expiry: 0,
        mark2: 9223372036854775808,
        local2: 0,
        offset: at,
        length: 1,
    }
}

// Whether an item of the kind shows a key, a clustering value or a cell's value.
fn shows_value(kind: u64) -> bool
    ensures { result ≡ shows_value kind }
{
    if kind == 1 {
        return true;
    }
    if kind == 5 {
        return true;
    }
    kind == 6
}

impl Item {
    // The key, clustering value or cell's value that the item shows, as the part of Data that holds it. The empty part where it shows none,
    // or where its place is outside Data.
    pub fn value(self, data: &[u8]) -> &[u8]
        ensures { result.now ≡ value_of «data».now self }
    {
        if shows_value(self.kind) {
            return part::shown_in(data, self.offset, self.length);
        }
        &data[..0]
    }
}
