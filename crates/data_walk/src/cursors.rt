// The cursor's state, and which states are refused.
ghost use Rattle.std.specs.Prelude.{◌≡◌, ◌≤◌};
ghost use Rattle.data_walk.specs.Cursors.{none, outside, bad_column, bad_values, bad_prefix, bad_cells, at_items, at_cells, behind_value, behind_cell, behind_marker, behind_row};

use data_cell::cells::Times;
use data_clustering::prefixes;
use data_clustering::prefixes::Prefix;
use data_field::fields::Deletion;
use data_marker::markers;
use data_marker::markers::{Deletions, Marker};
use data_row::bodies;
use data_row::bodies::Body;
use data_row::rows::Row;
use schema_check::records::Counts;

// What is due at the cursor's position.
#[derive(Clone, Copy)]
pub enum Phase {
    Partition, // a partition, or the end of Data
    First, // the first item of a partition: the one place for a static row
    Items, // a row, a marker or the end byte
    Values, // a clustering value of the row in hand
    Prefix, // a clustering value of the marker in hand
    Statics, // a cell of the static row in hand, or what follows its last
    Cells, // a cell of the row in hand, or what follows its last
}

// The row or marker in hand: the next value's or cell's column, how many clustering values it has, their header, the place of the first cell,
// the body's end, the columns that have a cell, the row's times.
#[derive(Clone, Copy)]
pub struct Hand {
    pub column: u64,
    pub count: u64,
    pub header: u64,
    pub resume: usize,
    pub stop: usize,
    pub present: u64,
    pub times: Times,
}

// The walk's state, which goes in and comes back by value; `opened` is the deletion of the open range.
#[derive(Clone, Copy)]
pub struct Cursor {
    pub position: usize,
    pub phase: Phase,
    pub opened: Deletion,
    pub hand: Hand,
}

// Nothing in hand.
fn nothing() -> Hand
    ensures { result ≡ none }
{
    Hand {
        column: 0,
        count: 0,
        header: 0,
        resume: 0,
        stop: 0,
        present: 0,
        times: Times {
            timed: 0,
            timestamp: 0,
            expires: 0,
            local: 0,
            ttl: 0,
        },
    }
}

// Whether a position is past its body's end, or that past Data's.
fn is_outside(position: usize, stop: usize, len: usize) -> bool
    ensures { result ≡ outside position stop len }
{
    if len < stop {
        return true;
    }
    stop < position
}

// Whether a clustering column is not below the count, or the header is refused for it.
fn is_bad_column(column: u64, count: u64, header: u64) -> bool
    ensures { result ≡ bad_column column count header }
{
    if count <= column {
        return true;
    }
    prefixes::bad_header(count, header)
}

// Whether a row's values are refused, in a table of k columns, with len bytes of Data.
pub(crate) fn is_bad_values(k: Counts, len: usize, x: Cursor) -> bool
    requires { k.regulars ≤ 63 }
    ensures { result ≡ bad_values k len x }
{
    let hand = x.hand;
    if is_outside(x.position, hand.stop, len) {
        return true;
    }
    if len < hand.resume {
        return true;
    }
    if hand.count == k.clustering {
        if bodies::all_columns(k.regulars) < hand.present {
            return true;
        }
        return is_bad_column(hand.column, hand.count, hand.header);
    }
    true
}

// Whether a marker's values are refused.
pub(crate) fn is_bad_prefix(k: Counts, len: usize, x: Cursor) -> bool
    ensures { result ≡ bad_prefix k len x }
{
    let hand = x.hand;
    if is_outside(x.position, hand.stop, len) {
        return true;
    }
    if k.clustering < hand.count {
        return true;
    }
    is_bad_column(hand.column, hand.count, hand.header)
}

// Whether the cells of n columns are refused.
pub(crate) fn is_bad_cells(n: u64, len: usize, x: Cursor) -> bool
    requires { n ≤ 63 }
    ensures { result ≡ bad_cells n len x }
{
    let hand = x.hand;
    if is_outside(x.position, hand.stop, len) {
        return true;
    }
    if n < hand.column {
        return true;
    }
    bodies::all_columns(n) < hand.present
}

// A cursor with nothing in hand.
pub(crate) fn at_items(position: usize, phase: Phase, opened: Deletion) -> Cursor
    ensures { result ≡ at_items position phase opened }
{
    let hand = nothing();
    Cursor {
        position,
        phase,
        opened,
        hand,
    }
}

// The cursor at the first cell of the row in hand.
pub(crate) fn at_cells(x: Cursor) -> Cursor
    ensures { result ≡ at_cells x }
{
    Cursor {
        position: x.hand.resume,
        phase: Phase::Cells,
        hand: Hand {
            column: 0,
            ..x.hand
        },
        ..x
    }
}

// The cursor behind a clustering value that ends at next: `last` behind the last one.
pub(crate) fn behind_value(x: Cursor, next: usize, last: Cursor) -> Cursor
    ensures { result ≡ behind_value x next last }
{
    let hand = x.hand;
    if hand.count <= hand.column {
        return last;
    }
    let column = hand.column + 1;
    if column == hand.count {
        return last;
    }
    Cursor {
        position: next,
        hand: Hand { column, ..hand },
        ..x
    }
}

// The cursor behind a cell that ends at next; `column` is the next column.
pub(crate) fn behind_cell(x: Cursor, column: u64, next: usize) -> Cursor
    ensures { result ≡ behind_cell x column next }
{
    let hand = x.hand;
    Cursor {
        position: next,
        hand: Hand { column, ..hand },
        ..x
    }
}

// The cursor behind a marker's own record; the marker ends at stop.
pub(crate) fn behind_marker(m: Marker, stop: usize) -> Cursor
    ensures { result ≡ behind_marker m stop }
{
    let both = m.deletions;
    let prefix = m.prefix;
    let opened = markers::open_after(m.kind, both);
    if m.count == 0 {
        return at_items(stop, Phase::Items, opened);
    }
    Cursor {
        position: prefix.values,
        phase: Phase::Prefix,
        opened,
        hand: Hand {
            column: 0,
            count: m.count,
            header: prefix.header,
            resume: 0,
            stop,
            present: 0,
            times: Times {
                timed: 0,
                timestamp: 0,
                expires: 0,
                local: 0,
                ttl: 0,
            },
        },
    }
}

// The cursor behind a row's own record, in the phase, at position; the row has `count` clustering values, and its first cell at cells.
pub(crate) fn behind_row(
    row: Row,
    count: u64,
    cells: usize,
    opened: Deletion,
    phase: Phase,
    position: usize,
) -> Cursor
    ensures { result ≡ behind_row row count cells opened phase position }
{
    let prefix = row.prefix;
    let body = row.body;
    let times = body.times;
    Cursor {
        position,
        phase,
        opened,
        hand: Hand {
            column: 0,
            count,
            header: prefix.header,
            resume: cells,
            stop: body.stop,
            present: body.present,
            times,
        },
    }
}
