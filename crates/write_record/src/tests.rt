// What a record of each kind may be. Each test tells that a record is wrong.
ghost use Rattle.std.specs.Prelude.{◌≡◌};
ghost use Rattle.write_record.specs.Records.{wrong_in};
ghost use Rattle.write_accept.specs.Tests.{bad_place, bad_nowhere, bad_key, bad_width, bad_value, bad_partition_flags, bad_row_flags, bad_value_flags, bad_cell_flags, bad_partition, bad_row, bad_static, bad_first, bad_marker, bad_clustering, bad_cell_place, bad_cell, bad_end};

use crate::fields;
use data_field::fields::Deletion;
use data_items::Item;

// What a record may be where it stands, but for rows, clustering values and cells.
#[derive(Clone, Copy)]
pub enum Turn {
    Partition,
    // `first` is 1 right behind the partition's record, else 0.
    Static { first: u8, statics: u64 },
    // The deletion of the open range.
    Marker { opened: Deletion },
    // The deletion of the open range.
    End { opened: Deletion },
}

// A place that is empty or outside the lent bytes.
fn is_bad_place(bytes: &[u8], i: Item) -> bool
    ensures { result ≡ bad_place bytes.now i }
{
    if i.length == 0 {
        return true;
    }
    if bytes.len() < i.offset {
        return true;
    }
    bytes.len() - i.offset < i.length
}

// A place other than 0, 0.
fn is_bad_nowhere(i: Item) -> bool
    ensures { result ≡ bad_nowhere i }
{
    if i.offset != 0 {
        return true;
    }
    if i.length != 0 {
        return true;
    }
    false
}

// A key's place.
fn is_bad_key(bytes: &[u8], i: Item) -> bool
    ensures { result ≡ bad_key bytes.now i }
{
    if is_bad_place(bytes, i) {
        return true;
    }
    65535 < i.length
}

// A length that is not the width, where there is one.
fn is_bad_width(width: u8, len: usize) -> bool
    ensures { result ≡ bad_width width len }
{
    if width == 255 {
        return false;
    }
    if len != width as usize {
        return true;
    }
    false
}

// A value's place, in a column of the width.
fn is_bad_value(bytes: &[u8], width: u8, i: Item) -> bool
    ensures { result ≡ bad_value bytes.now width i }
{
    if is_bad_place(bytes, i) {
        return true;
    }
    is_bad_width(width, i.length)
}

fn is_bad_partition_flags(f: u64) -> bool
    ensures { result ≡ bad_partition_flags f }
{
    if 15 < f {
        return true;
    }
    0 < f % 4
}

fn is_bad_row_flags(f: u64) -> bool
    ensures { result ≡ bad_row_flags f }
{
    if 7 < f {
        return true;
    }
    f % 4 == 2
}

fn is_bad_value_flags(f: u64) -> bool
    ensures { result ≡ bad_value_flags f }
{
    if f == 0 {
        return false;
    }
    if f != 8 {
        return true;
    }
    false
}

fn is_bad_cell_flags(f: u64) -> bool
    ensures { result ≡ bad_cell_flags f }
{
    if 11 < f {
        return true;
    }
    if f == 7 {
        return true;
    }
    f % 2 == 0
}

// No record of a partition.
fn is_bad_partition(bytes: &[u8], i: Item) -> bool
    ensures { result ≡ bad_partition bytes.now i }
{
    if i.kind != 1 {
        return true;
    }
    if is_bad_partition_flags(i.flags) {
        return true;
    }
    if 7 < i.flags {
        return is_bad_nowhere(i);
    }
    is_bad_key(bytes, i)
}

// No record of a row, or (kind 2) of a static one.
pub(crate) fn is_bad_row(kind: u64, i: Item) -> bool
    ensures { result ≡ bad_row kind i }
{
    if i.kind != kind {
        return true;
    }
    is_bad_row_flags(i.flags)
}

// No record of a static row: `first` is 1 right behind the partition's record, else 0.
fn is_bad_static(first: u8, statics: u64, i: Item) -> bool
    ensures { result ≡ bad_static first statics i }
{
    if data_turns::may_stand(first, statics) {
        return is_bad_row(2, i);
    }
    true
}

// A deletion other than that of the open range, but for a start.
fn is_bad_first(opened: Deletion, i: Item) -> bool
    ensures { result ≡ bad_first opened i }
{
    if data_turns::is_start(i.column) {
        return false;
    }
    let d = Deletion {
        deleted: 1,
        mark: i.mark,
        local: i.local,
    };
    if data_turns::is_same_deletion(opened, d) {
        return false;
    }
    true
}

// No record of a marker, where the deletion of the open range is `opened`.
fn is_bad_marker(opened: Deletion, i: Item) -> bool
    ensures { result ≡ bad_marker opened i }
{
    if i.kind != 4 {
        return true;
    }
    if i.flags != 4 {
        return true;
    }
    if data_turns::bad_kind(i.column) {
        return true;
    }
    if data_turns::out_of_turn(i.column, opened.deleted) {
        return true;
    }
    is_bad_first(opened, i)
}

// No record of the clustering value of a column of the width.
pub(crate) fn is_bad_clustering(bytes: &[u8], column: u64, width: u8, i: Item) -> bool
    ensures { result ≡ bad_clustering bytes.now column width i }
{
    if i.kind != 5 {
        return true;
    }
    if is_bad_value_flags(i.flags) {
        return true;
    }
    if i.column != column {
        return true;
    }
    if i.flags == 8 {
        return is_bad_nowhere(i);
    }
    is_bad_value(bytes, width, i)
}

// The place that a cell shows.
fn is_bad_cell_place(bytes: &[u8], width: u8, i: Item) -> bool
    ensures { result ≡ bad_cell_place bytes.now width i }
{
    if fields::has_local(i) {
        return is_bad_nowhere(i);
    }
    if 8 < i.flags {
        return is_bad_nowhere(i);
    }
    is_bad_value(bytes, width, i)
}

// No record of a cell of a column of the width.
pub(crate) fn is_bad_cell(bytes: &[u8], column: u64, width: u8, i: Item) -> bool
    ensures { result ≡ bad_cell bytes.now column width i }
{
    if i.kind != 6 {
        return true;
    }
    if is_bad_cell_flags(i.flags) {
        return true;
    }
    if i.column != column {
        return true;
    }
    is_bad_cell_place(bytes, width, i)
}

// No record of an end, where the deletion of the open range is `opened`.
fn is_bad_end(opened: Deletion, i: Item) -> bool
    ensures { result ≡ bad_end opened i }
{
    if i.kind != 7 {
        return true;
    }
    if i.flags != 0 {
        return true;
    }
    if opened.deleted != 0 {
        return true;
    }
    false
}

// A record that is none of its turn.
pub(crate) fn is_wrong(bytes: &[u8], turn: Turn, i: Item) -> bool
    ensures { result ≡ wrong_in bytes.now turn i }
{
    match turn {
        Turn::Partition => is_bad_partition(bytes, i),
        Turn::Static { first, statics } => is_bad_static(first, statics, i),
        Turn::Marker { opened } => is_bad_marker(opened, i),
        Turn::End { opened } => is_bad_end(opened, i),
    }
}
