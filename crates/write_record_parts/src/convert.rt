// What a record says, as the parts that are written. Internal: for the writer.
ghost use Rattle.std.specs.Prelude.{◌≡◌, ◌+◌, ◌≤◌, length};
ghost use Rattle.write_accept.specs.Fields.{item_of};
ghost use Rattle.write_accept.specs.Entries.{value_of, deletion_of, second_of, deletions_of, times_of, cell_of};

use crate::fields;
use data_cell::cells::{Cell, Times};
use data_field::fields::{Deletion, Span};
use data_items::Item;
use data_marker::markers::Deletions;

// The deletion of a partition or row.
// Internal, as the functions below: for the writer.
pub fn deletion_of(i: Item) -> Deletion
    ensures { result ≡ deletion_of i }
{
    if i.flags / 4 % 2 == 1 {
        return Deletion {
            deleted: 1,
            mark: i.mark,
            local: i.local,
        };
    }
    Deletion {
        deleted: 0,
        mark: 0,
        local: 0,
    }
}

// The second deletion of a marker, of a boundary.
fn second_of(i: Item) -> Deletion
    ensures { result ≡ second_of i }
{
    if i.kind == 4 {
        if data_turns::is_boundary(i.column) {
            return Deletion {
                deleted: 1,
                mark: i.mark2,
                local: i.local2,
            };
        }
    }
    Deletion {
        deleted: 0,
        mark: 0,
        local: 0,
    }
}

// The deletions of a marker.
// Internal: as above.
pub fn deletions_of(i: Item) -> Deletions
    ensures { result ≡ deletions_of i }
{
    let second = second_of(i);
    let first = Deletion {
        deleted: 1,
        mark: i.mark,
        local: i.local,
    };
    Deletions { first, second }
}

// The times of a row.
// Internal: as above.
pub fn times_of(i: Item) -> Times
    ensures { result ≡ times_of i }
{
    if i.flags % 2 == 1 {
        if i.flags / 2 % 2 == 1 {
            return Times {
                timed: 1,
                timestamp: i.timestamp,
                expires: 1,
                local: i.expiry,
                ttl: i.ttl,
            };
        }
        return Times {
            timed: 1,
            timestamp: i.timestamp,
            expires: 0,
            local: 0,
            ttl: 0,
        };
    }
    Times {
        timed: 0,
        timestamp: 0,
        expires: 0,
        local: 0,
        ttl: 0,
    }
}

// A cell, with the place of its value in the lent bytes.
// Internal: as above.
pub fn cell_of(i: Item) -> Cell
    ensures { result ≡ cell_of i }
{
    let flags = i.flags;
    if flags / 4 % 2 == 1 {
        let value = Span { start: 0, len: 0 };
        return Cell {
            kind: 2,
            timestamp: i.timestamp,
            local: i.local,
            ttl: 0,
            value,
        };
    }
    let value = Span {
        start: i.offset,
        len: i.length,
    };
    if flags / 2 % 2 == 1 {
        return Cell {
            kind: 1,
            timestamp: i.timestamp,
            local: i.expiry,
            ttl: i.ttl,
            value,
        };
    }
    Cell {
        kind: 0,
        timestamp: i.timestamp,
        local: 0,
        ttl: 0,
        value,
    }
}

// The place of the value whose record stands at at.
// Internal: for the writer, which has checked that it is there.
pub fn span_at(s: &[u8], at: usize) -> Span
    requires { at + 64 ≤ length s.now }
    ensures { result ≡ value_of (item_of s.now at) }
{
    Span {
        start: fields::long_at(s, at + 48) as usize,
        len: fields::long_at(s, at + 56) as usize,
    }
}

// The cell whose record stands at at, of which only the bytes that a cell uses are read.
// Internal: for the writer, which has checked that it is there.
pub fn cell_at(s: &[u8], at: usize) -> Cell
    requires { at + 64 ≤ length s.now }
    ensures { result ≡ cell_of (item_of s.now at) }
{
    let flags = s[at + 1];
    let timestamp = fields::signed_at(s, at + 8);
    if flags / 4 % 2 == 1 {
        let local = fields::word_at(s, at + 24);
        let value = Span { start: 0, len: 0 };
        return Cell {
            kind: 2,
            timestamp,
            local,
            ttl: 0,
            value,
        };
    }
    let value = span_at(s, at);
    if flags / 2 % 2 == 1 {
        let local = fields::word_at(s, at + 28);
        let ttl = fields::word_at(s, at + 4);
        return Cell {
            kind: 1,
            timestamp,
            local,
            ttl,
            value,
        };
    }
    Cell {
        kind: 0,
        timestamp,
        local: 0,
        ttl: 0,
        value,
    }
}
