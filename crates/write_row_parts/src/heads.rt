// What stands before the cells of a row, behind its sizes: liveness, deletion, missing columns.
ghost use Rattle.std.specs.Prelude.{◌≡◌, ◌-◌, ◌≤◌, ◌++◌, length};
ghost use Rattle.number_varint.specs.Varints.{shortest};
ghost use Rattle.common.specs.Store.{Room, Puts};
ghost use Rattle.write_form.specs.Rows.{row_expiry_bytes, liveness_bytes, row_deletion_bytes, missing_bytes};
ghost use Rattle.write_row_parts.specs.Parts.{rest_form, head_form};

use crate::pairs;
use common::times::Bases;
use data_cell::cells::Times;
use data_field::fields::Deletion;
use write_number::numbers;

// TTL and local deletion time, where the row has them.
fn expiry_len(b: Bases, row: Times) -> u64
    ensures { (result ≡ length (row_expiry_bytes b row)) × (result ≤ 18) }
{
    if row.expires == 1 {
        return pairs::pair_len(b.ttl, row.ttl, b.local, row.local);
    }
    0
}

fn put_expiry(d: &mut [u8], at: usize, b: Bases, row: Times) -> usize
    requires { Room d.old at (row_expiry_bytes b row) }
    ensures { Puts d.old d.new at (row_expiry_bytes b row) result }
{
    if row.expires == 1 {
        return pairs::put_pair(d, at, b.ttl, row.ttl, b.local, row.local);
    }
    at
}

// The liveness of a row that has a timestamp.
fn timed_len(b: Bases, row: Times) -> u64
    ensures { (result ≡ length (shortest (row.timestamp - b.timestamp) ++ row_expiry_bytes b row)) × (result ≤ 27) }
{
    let timestamp = numbers::delta_len(b.timestamp, row.timestamp);
    let expiry = expiry_len(b, row);
    timestamp + expiry
}

fn put_timed(d: &mut [u8], at: usize, b: Bases, row: Times) -> usize
    requires { Room d.old at (shortest (row.timestamp - b.timestamp) ++ row_expiry_bytes b row) }
    ensures { Puts d.old d.new at (shortest (row.timestamp - b.timestamp) ++ row_expiry_bytes b row) result }
{
    let p = numbers::put_delta(d, at, b.timestamp, row.timestamp);
    put_expiry(d, p, b, row)
}

fn liveness_len(b: Bases, row: Times) -> u64
    ensures { (result ≡ length (liveness_bytes b row)) × (result ≤ 27) }
{
    if row.timed == 1 {
        return timed_len(b, row);
    }
    0
}

fn put_liveness(d: &mut [u8], at: usize, b: Bases, row: Times) -> usize
    requires { Room d.old at (liveness_bytes b row) }
    ensures { Puts d.old d.new at (liveness_bytes b row) result }
{
    if row.timed == 1 {
        return put_timed(d, at, b, row);
    }
    at
}

fn deletion_len(b: Bases, deletion: Deletion) -> u64
    ensures { (result ≡ length (row_deletion_bytes b deletion)) × (result ≤ 18) }
{
    if deletion.deleted == 1 {
        return pairs::deletion_len(b, deletion);
    }
    0
}

fn put_deletion(d: &mut [u8], at: usize, b: Bases, deletion: Deletion) -> usize
    requires { Room d.old at (row_deletion_bytes b deletion) }
    ensures { Puts d.old d.new at (row_deletion_bytes b deletion) result }
{
    if deletion.deleted == 1 {
        return pairs::put_deletion(d, at, b, deletion);
    }
    at
}

fn missing_len(missing: u64) -> u64
    ensures { (result ≡ length (missing_bytes missing)) × (result ≤ 9) }
{
    if missing == 0 {
        return 0;
    }
    number_varint::len(missing) as u64
}

fn put_missing(d: &mut [u8], at: usize, missing: u64) -> usize
    requires { Room d.old at (missing_bytes missing) }
    ensures { Puts d.old d.new at (missing_bytes missing) result }
{
    if missing == 0 {
        return at;
    }
    number_varint::put_in(d, at, missing)
}

fn rest_len(b: Bases, deletion: Deletion, missing: u64) -> u64
    ensures { (result ≡ length (rest_form b deletion missing)) × (result ≤ 27) }
{
    let first = deletion_len(b, deletion);
    let second = missing_len(missing);
    first + second
}

fn put_rest(d: &mut [u8], at: usize, b: Bases, deletion: Deletion, missing: u64) -> usize
    requires { Room d.old at (rest_form b deletion missing) }
    ensures { Puts d.old d.new at (rest_form b deletion missing) result }
{
    let p = put_deletion(d, at, b, deletion);
    put_missing(d, p, missing)
}

// How many bytes stand between a row's sizes and its cells.
// Internal: for the writer, which measures before it stores.
pub fn head_len(b: Bases, times: Times, deletion: Deletion, missing: u64) -> u64
    ensures { (result ≡ length (head_form b times deletion missing)) × (result ≤ 54) }
{
    let first = liveness_len(b, times);
    let second = rest_len(b, deletion, missing);
    first + second
}

// Stores what stands between a row's sizes and its cells: the place after it.
// Internal: for writers that have measured before they store.
pub fn put_head(
    d: &mut [u8],
    at: usize,
    b: Bases,
    times: Times,
    deletion: Deletion,
    missing: u64,
) -> usize
    requires { Room d.old at (head_form b times deletion missing) }
    ensures { Puts d.old d.new at (head_form b times deletion missing) result }
{
    let p = put_liveness(d, at, b, times);
    put_rest(d, p, b, deletion, missing)
}
