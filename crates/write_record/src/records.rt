// A record of each kind, from a place on in a record table.
ghost use Rattle.std.specs.Prelude.{◌≡◌, ◌-◌, length};
ghost use Rattle.common.specs.Got.{said};
ghost use Rattle.write_accept.specs.Records.{record_at, kind_at};
ghost use Rattle.write_accept.specs.Tests.{bad_row, bad_clustering, bad_cell};
ghost use Rattle.write_record.specs.Records.{plain_at, wrong_in};

use crate::tests::Turn;
use crate::{fields, ranges, tests};
use common::reading::Reading;
use common::refusal::Fault;
use common::times::Bases;
use data_items::Item;

// How many bytes there are from at on.
fn left_of(len: usize, at: usize) -> usize
    ensures { result ≡ len - at }
{
    if len < at {
        return 0;
    }
    len - at
}

// The kind of the record at at.
// Internal, as the functions below: for the loops over a record table.
pub fn kind_at(s: &[u8], at: usize) -> Reading<u64>
    ensures { said result ≡ kind_at s.now at (length s.now) }
{
    if left_of(s.len(), at) < 64 {
        return Err(Fault::BadRecord.at(s.len()));
    }
    let value = fields::wide(s[at]);
    Ok((value, at))
}

// The record at at, nothing stray in it.
fn read_plain(s: &[u8], at: usize) -> Reading<Item>
    ensures { said result ≡ plain_at s.now at (length s.now) }
{
    if left_of(s.len(), at) < 64 {
        return Err(Fault::BadRecord.at(s.len()));
    }
    let item = write_record_parts::fields::read_item(s, at);
    if fields::is_stray_record(s, at, item) {
        return Err(Fault::BadRecord.at(at));
    }
    Ok((item, at))
}

// The record at at, whose turn it is.
// Internal: as above.
pub fn read_record(s: &[u8], at: usize, b: Bases, bytes: &[u8], turn: Turn) -> Reading<Item>
    ensures { said result ≡ record_at b (wrong_in bytes.now turn) s.now at (length s.now) }
{
    let (item, next) = read_plain(s, at)?;
    if tests::is_wrong(bytes, turn, item) {
        return Err(Fault::BadRecord.at(at));
    }
    ranges::read_ranges(b, item, next)
}

// The record at at, of a row. This and the next two are the most frequent: each has its own function, so that only what its kind uses is
// tested; the kind first, which leaves little of the rest.
// Internal: as above.
pub fn read_row(s: &[u8], at: usize, b: Bases) -> Reading<Item>
    ensures { said result ≡ record_at b (bad_row 3) s.now at (length s.now) }
{
    if left_of(s.len(), at) < 64 {
        return Err(Fault::BadRecord.at(s.len()));
    }
    let item = write_record_parts::fields::read_item(s, at);
    if tests::is_bad_row(3, item) {
        return Err(Fault::BadRecord.at(at));
    }
    if fields::is_stray_record(s, at, item) {
        return Err(Fault::BadRecord.at(at));
    }
    ranges::read_own(b, item, at)
}

// The record at at, of the clustering value of a column of the width.
// Internal: as above.
pub fn read_value(
    s: &[u8],
    at: usize,
    b: Bases,
    bytes: &[u8],
    column: u64,
    width: u8,
) -> Reading<Item>
    ensures { said result ≡ record_at b (bad_clustering bytes.now column width) s.now at (length s.now) }
{
    if left_of(s.len(), at) < 64 {
        return Err(Fault::BadRecord.at(s.len()));
    }
    let item = write_record_parts::fields::read_item(s, at);
    if tests::is_bad_clustering(bytes, column, width, item) {
        return Err(Fault::BadRecord.at(at));
    }
    if fields::is_stray_record(s, at, item) {
        return Err(Fault::BadRecord.at(at));
    }
    ranges::read_own(b, item, at)
}

// The record at at, of the cell of a column of the width.
// Internal: as above.
pub fn read_cell(
    s: &[u8],
    at: usize,
    b: Bases,
    bytes: &[u8],
    column: u64,
    width: u8,
) -> Reading<Item>
    ensures { said result ≡ record_at b (bad_cell bytes.now column width) s.now at (length s.now) }
{
    if left_of(s.len(), at) < 64 {
        return Err(Fault::BadRecord.at(s.len()));
    }
    let item = write_record_parts::fields::read_item(s, at);
    if tests::is_bad_cell(bytes, column, width, item) {
        return Err(Fault::BadRecord.at(at));
    }
    if fields::is_stray_record(s, at, item) {
        return Err(Fault::BadRecord.at(at));
    }
    ranges::read_own(b, item, at)
}
