// One step of the walk.
ghost use Rattle.std.specs.Prelude.{◌≡◌, ◌+◌, ◌*◌, ◌≤◌, ◌<◌, length};
ghost use Rattle.data_row.specs.Bodies.{columns};
ghost use Rattle.data_walk.specs.Steps.{partition_step, end_step, marker_step, row_handed, row_step, item_step, value_step, cell_step, cells_step, handed, partition_answer, item_answer, values_answer, prefix_answer, cells_answer, is_static, is_of_cells, columns_at, columns_of, lacking, columns_answer, step_in, step_at, said_moved, said_step};
ghost use Rattle.call_check.specs.Tables.{Table};
ghost use Rattle.data_walk.specs.Walks.{start};

use crate::cursors;
use crate::cursors::{Cursor, Hand, Phase};
use common::reading::Bad;
use common::refusal::{Fault, Refusal, Slice};
use common::times::Bases;
use data_cell::cells;
use data_cell::cells::Times;
use data_clustering::prefixes;
use data_clustering::prefixes::Prefix;
use data_field::fields;
use data_field::fields::Deletion;
use data_items::Item;
use data_marker::markers;
use data_partition::partitions;
use data_row::rows;
use data_row::rows::Row;
use schema_check::records::Counts;

// An item and the cursor behind it, or why it is refused.
type Moved = Result<(Item, Cursor), Bad>;

// An item and the cursor behind it; no item where all of Data is read; or a refusal.
pub type Step = Result<Option<(Item, Cursor)>, Refusal>;

// A partition's header.
fn read_partition(s: &[u8], at: usize) -> Moved
    ensures { said_moved result ≡ partition_step s.now at }
{
    let (partition, next) = partitions::read_partition(s, at, s.len())?;
    let item = data_items::partition_item(partition);
    let opened = Deletion {
        deleted: 0,
        mark: 0,
        local: 0,
    };
    let cursor = cursors::at_items(next, Phase::First, opened);
    Ok((item, cursor))
}

// The end byte at at, before next.
fn read_end(opened: Deletion, at: usize, next: usize) -> Moved
    ensures { said_moved result ≡ end_step opened at next }
{
    if opened.deleted == 0 {
        let item = data_items::end_item(at);
        let none = Deletion {
            deleted: 0,
            mark: 0,
            local: 0,
        };
        let cursor = cursors::at_items(next, Phase::Partition, none);
        return Ok((item, cursor));
    }
    Err(Fault::OutOfTurn.at(at))
}

// A marker, whole.
fn read_marker(c: &[u8], k: Counts, b: Bases, s: &[u8], opened: Deletion, at: usize) -> Moved
    requires { 16 + 16 * k.clustering ≤ length c.now }
    ensures { said_moved result ≡ marker_step c.now k b s.now opened at }
{
    let (marker, next) = markers::read_marker(s, at, s.len(), c, k.clustering, b, opened)?;
    let item = data_items::marker_item(marker, next);
    let cursor = cursors::behind_marker(marker, next);
    Ok((item, cursor))
}

// A row whose first cell stands at next.
fn row_handed(k: Counts, opened: Deletion, row: Row, next: usize) -> Moved
    ensures { said_moved result ≡ row_handed k opened row next }
{
    if row.extended == 1 {
        let item = data_items::row_item(2, row);
        let cursor = cursors::behind_row(row, 0, next, opened, Phase::Statics, next);
        return Ok((item, cursor));
    }
    let item = data_items::row_item(3, row);
    if k.clustering == 0 {
        let cursor = cursors::behind_row(row, 0, next, opened, Phase::Cells, next);
        return Ok((item, cursor));
    }
    let prefix = row.prefix;
    let cursor = cursors::behind_row(
        row,
        k.clustering,
        next,
        opened,
        Phase::Values,
        prefix.values,
    );
    Ok((item, cursor))
}

// A row, up to its first cell.
fn read_row(
    c: &[u8],
    k: Counts,
    b: Bases,
    s: &[u8],
    first: u8,
    opened: Deletion,
    at: usize,
) -> Moved
    requires { (16 + 16 * k.clustering ≤ length c.now) × (k.statics ≤ 63) × (k.regulars ≤ 63) }
    ensures { said_moved result ≡ row_step c.now k b s.now first opened at }
{
    let (row, next) = rows::read_row(
        s,
        at,
        s.len(),
        c,
        k.clustering,
        k.statics,
        k.regulars,
        first,
        b,
    )?;
    row_handed(k, opened, row, next)
}

// An item of a partition: the end byte, a marker or a row.
fn read_item(
    c: &[u8],
    k: Counts,
    b: Bases,
    s: &[u8],
    first: u8,
    opened: Deletion,
    at: usize,
) -> Moved
    requires { (16 + 16 * k.clustering ≤ length c.now) × (k.statics ≤ 63) × (k.regulars ≤ 63) }
    ensures { said_moved result ≡ item_step c.now k b s.now first opened at }
{
    let (value, next) = fields::read_byte(s, at, s.len())?;
    if value == 1 {
        return read_end(opened, at, next);
    }
    if value == 2 {
        return read_marker(c, k, b, s, opened, at);
    }
    read_row(c, k, b, s, first, opened, at)
}

// A clustering value; behind the last one the cursor is last.
fn read_value(c: &[u8], s: &[u8], x: Cursor, last: Cursor) -> Moved
    requires { (16 * x.hand.column + 19 < length c.now) × (x.hand.column < 32) }
    ensures { said_moved result ≡ value_step c.now s.now x last }
{
    let hand = x.hand;
    let i = hand.column as usize;
    let width = c[16 * i + 19];
    let header = hand.header >> (2 * hand.column);
    let (value, next) = prefixes::read_clustering(s, x.position, s.len(), width, header)?;
    let item = data_items::value_item(hand.column, value);
    let cursor = cursors::behind_value(x, next, last);
    Ok((item, cursor))
}

// The cell of column i, where the first column's record stands at base.
fn read_cell(c: &[u8], b: Bases, s: &[u8], x: Cursor, base: usize, i: u64) -> Moved
    requires { (base + 16 * i + 3 < length c.now) × (i < 64) }
    ensures { said_moved result ≡ cell_step c.now b s.now x base i }
{
    let hand = x.hand;
    let times = hand.times;
    let j = i as usize;
    let width = c[base + 16 * j + 3];
    let (cell, next) = cells::read_cell(s, x.position, hand.stop, width, b, times)?;
    let item = data_items::cell_item(i, cell);
    let cursor = cursors::behind_cell(x, i + 1, next);
    Ok((item, cursor))
}

// The next cell of n columns that is there; behind the last one the next item.
fn read_cells(c: &[u8], k: Counts, b: Bases, s: &[u8], x: Cursor, base: usize, n: u64) -> Moved
    requires { (16 + 16 * k.clustering ≤ length c.now) × (k.statics ≤ 63) × (k.regulars ≤ 63) × (base + 16 * n ≤ length c.now) × (n ≤ 63) × (x.hand.column ≤ n) × (x.hand.present ≤ columns n) }
    ensures { said_moved result ≡ cells_step c.now k b s.now x base }
{
    let hand = x.hand;
    let left = hand.present >> hand.column;
    if left == 0 {
        if x.position < hand.stop {
            return Err(Fault::LeftOver.at(x.position));
        }
        let opened = x.opened;
        return read_item(c, k, b, s, 0, opened, x.position);
    }
    let i = hand.column + u64::trailing_zeros(left) as u64;
    read_cell(c, b, s, x, base, i)
}

// What is read, handed out.
fn hand_out(m: Moved) -> Step
    ensures { said_step result ≡ handed (said_moved m) }
{
    match m {
        Ok((item, cursor)) => Ok(Some((item, cursor))),
        Err(bad) => Err(bad.fault.of(Slice::Data, bad.place)),
    }
}

// Between partitions.
fn step_partition(s: &[u8], x: Cursor) -> Step
    ensures { said_step result ≡ partition_answer s.now x }
{
    if s.len() < x.position {
        return Err(Fault::BadRecord.of(Slice::State, 0));
    }
    if x.position == s.len() {
        return Ok(None);
    }
    hand_out(read_partition(s, x.position))
}

// In a partition.
fn step_item(c: &[u8], k: Counts, b: Bases, s: &[u8], first: u8, x: Cursor) -> Step
    requires { (16 + 16 * k.clustering ≤ length c.now) × (k.statics ≤ 63) × (k.regulars ≤ 63) }
    ensures { said_step result ≡ item_answer c.now k b s.now first x }
{
    if s.len() < x.position {
        return Err(Fault::BadRecord.of(Slice::State, 0));
    }
    let opened = x.opened;
    hand_out(read_item(c, k, b, s, first, opened, x.position))
}

// In the clustering values of a row.
fn step_values(c: &[u8], k: Counts, s: &[u8], x: Cursor) -> Step
    requires { (16 + 16 * k.clustering ≤ length c.now) × (k.clustering ≤ 32) × (k.regulars ≤ 63) }
    ensures { said_step result ≡ values_answer c.now k s.now x }
{
    if cursors::is_bad_values(k, s.len(), x) {
        return Err(Fault::BadRecord.of(Slice::State, 0));
    }
    let last = cursors::at_cells(x);
    hand_out(read_value(c, s, x, last))
}

// In the clustering values of a marker.
fn step_prefix(c: &[u8], k: Counts, s: &[u8], x: Cursor) -> Step
    requires { (16 + 16 * k.clustering ≤ length c.now) × (k.clustering ≤ 32) }
    ensures { said_step result ≡ prefix_answer c.now k s.now x }
{
    if cursors::is_bad_prefix(k, s.len(), x) {
        return Err(Fault::BadRecord.of(Slice::State, 0));
    }
    let hand = x.hand;
    let opened = x.opened;
    let last = cursors::at_items(hand.stop, Phase::Items, opened);
    hand_out(read_value(c, s, x, last))
}

// In the cells of n columns, the first of which has its record at base.
fn step_cells(c: &[u8], k: Counts, b: Bases, s: &[u8], x: Cursor, base: usize, n: u64) -> Step
    requires { (16 + 16 * k.clustering ≤ length c.now) × (k.statics ≤ 63) × (k.regulars ≤ 63) × (base + 16 * n ≤ length c.now) × (n ≤ 63) }
    ensures { said_step result ≡ cells_answer c.now k b s.now x base n }
{
    if cursors::is_bad_cells(n, s.len(), x) {
        return Err(Fault::BadRecord.of(Slice::State, 0));
    }
    hand_out(read_cells(c, k, b, s, x, base, n))
}

// Whether the phase is that of a static row's cells.
fn is_static(phase: Phase) -> bool
    ensures { result ≡ is_static phase }
{
    match phase {
        Phase::Partition => false,
        Phase::First => false,
        Phase::Items => false,
        Phase::Values => false,
        Phase::Prefix => false,
        Phase::Statics => true,
        Phase::Cells => false,
    }
}

// Whether the phase is that of a row's cells.
fn is_of_cells(phase: Phase) -> bool
    ensures { result ≡ is_of_cells phase }
{
    match phase {
        Phase::Partition => false,
        Phase::First => false,
        Phase::Items => false,
        Phase::Values => false,
        Phase::Prefix => false,
        Phase::Statics => true,
        Phase::Cells => true,
    }
}

// Where the record of the first static column stands, or that of the first regular one.
fn columns_at(fixed: bool, k: Counts) -> usize
    requires { (k.clustering ≤ 32) × (k.statics ≤ 63) }
    ensures { result ≡ columns_at fixed k }
{
    if fixed {
        return (16 + 16 * k.clustering) as usize;
    }
    (16 + 16 * (k.clustering + k.statics)) as usize
}

// How many static columns there are, or regular ones.
fn columns_of(fixed: bool, k: Counts) -> u64
    ensures { result ≡ columns_of fixed k }
{
    if fixed {
        return k.statics;
    }
    k.regulars
}

// Whether a static row is in hand, in a table without static columns.
fn is_lacking(fixed: bool, k: Counts) -> bool
    ensures { result ≡ lacking fixed k }
{
    if fixed {
        return k.statics == 0;
    }
    false
}

// In the cells of a static row, or of another: one call for both, so that what it calls stands in the code once.
fn step_columns(c: &[u8], k: Counts, b: Bases, s: &[u8], fixed: bool, x: Cursor) -> Step
    requires { Table (length c.now) k }
    ensures { said_step result ≡ columns_answer fixed c.now k b s.now x }
{
    if is_lacking(fixed, k) {
        return Err(Fault::BadRecord.of(Slice::State, 0));
    }
    let base = columns_at(fixed, k);
    let n = columns_of(fixed, k);
    step_cells(c, k, b, s, x, base, n)
}

// One step of the cursor x, where the schema c is checked and has the columns k.
// Internal: for a walk that checks its schema once.
pub fn step_in(c: &[u8], k: Counts, b: Bases, s: &[u8], x: Cursor) -> Step
    requires { Table (length c.now) k }
    ensures { said_step result ≡ step_in x.phase c.now k b s.now x }
{
    let phase = x.phase;
    if is_of_cells(phase) {
        return step_columns(c, k, b, s, is_static(phase), x);
    }
    match phase {
        Phase::Partition => step_partition(s, x),
        Phase::First => step_item(c, k, b, s, 1, x),
        Phase::Items => step_item(c, k, b, s, 0, x),
        Phase::Values => step_values(c, k, s, x),
        Phase::Prefix => step_prefix(c, k, s, x),
        // Both are answered above.
        Phase::Statics => Ok(None),
        Phase::Cells => Ok(None),
    }
}

impl Cursor {
    // The cursor at the start of Data.
    pub fn start() -> Cursor
        ensures { result ≡ start }
    {
        let opened = Deletion {
            deleted: 0,
            mark: 0,
            local: 0,
        };
        cursors::at_items(0, Phase::Partition, opened)
    }

    // One step through Data, in a table of the schema and the bases: the next item, and the cursor behind it.
    pub fn step(self, schema: &[u8], bases: Bases, data: &[u8]) -> Step
        ensures { said_step result ≡ step_at schema.now bases self «data».now }
    {
        let counts = call_check::check(schema, bases, data, 0)?;
        step_in(schema, counts, bases, data, self)
    }
}
