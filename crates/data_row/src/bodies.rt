// The body of a row up to its first cell.
ghost use Rattle.std.specs.Prelude.{◌≡◌, ◌≤◌};
ghost use Rattle.common.specs.Got.{said};
ghost use Rattle.data_row.specs.Bodies.{expiry_at, liveness_at, row_deletion_at, columns, present_at, content_at, body_at};

use common::reading::Reading;
use common::refusal::Fault;
use common::times::Bases;
use data_cell::cells::Times;
use data_clustering::sizes;
use data_field::fields;
use data_field::fields::Deletion;

// Where the body ends, the row's times and deletion, and a bit for each column that has a cell, the lowest the first column's.
#[derive(Clone, Copy)]
pub struct Body {
    pub stop: usize,
    pub times: Times,
    pub deletion: Deletion,
    pub present: u64,
}

// The expiry that follows the timestamp.
fn read_expiry(s: &[u8], at: usize, end: usize, b: Bases, timestamp: u64) -> Reading<Times>
    ensures { said result ≡ expiry_at b timestamp s.now at end }
{
    let (ttl, next) = fields::read_ttl(s, at, end, b)?;
    let (local, next) = fields::read_local(s, next, end, b)?;
    Ok((
        Times {
            timed: 1,
            timestamp,
            expires: 1,
            local,
            ttl,
        },
        next,
    ))
}

// The liveness of a row with the flags f.
fn read_liveness(s: &[u8], at: usize, end: usize, b: Bases, f: u64) -> Reading<Times>
    ensures { said result ≡ liveness_at b f s.now at end }
{
    if f / 4 % 2 == 1 {
        let (value, next) = fields::read_timestamp(s, at, end, b)?;
        if f / 8 % 2 == 1 {
            return read_expiry(s, next, end, b, value);
        }
        return Ok((
            Times {
                timed: 1,
                timestamp: value,
                expires: 0,
                local: 0,
                ttl: 0,
            },
            next,
        ));
    }
    Ok((
        Times {
            timed: 0,
            timestamp: 0,
            expires: 0,
            local: 0,
            ttl: 0,
        },
        at,
    ))
}

// The deletion of a row with the flags f.
fn read_row_deletion(s: &[u8], at: usize, end: usize, b: Bases, f: u64) -> Reading<Deletion>
    ensures { said result ≡ row_deletion_at b f s.now at end }
{
    if f / 16 % 2 == 1 {
        return fields::read_deletion(s, at, end, b);
    }
    Ok((
        Deletion {
            deleted: 0,
            mark: 0,
            local: 0,
        },
        at,
    ))
}

// All of k columns, a bit for each.
// Internal: for callers that have checked the schema, which has at most 63 of a role.
pub fn all_columns(k: u64) -> u64
    requires { k ≤ 63 }
    ensures { result ≡ columns k }
{
    (1u64 << k) - 1
}

// Those of k columns that have a cell.
fn read_present(s: &[u8], at: usize, end: usize, k: u64, f: u64) -> Reading<u64>
    requires { k ≤ 63 }
    ensures { said result ≡ present_at k f s.now at end }
{
    let all = all_columns(k);
    if f / 32 % 2 == 1 {
        return Ok((all, at));
    }
    let (value, next) = number_varint::read(s, at, end)?;
    if all < value {
        return Err(Fault::BadFlags.at(at));
    }
    Ok((all - value, next))
}

// What a body that ends at stop holds before the cells of k columns.
fn read_content(s: &[u8], at: usize, stop: usize, b: Bases, k: u64, f: u64) -> Reading<Body>
    requires { k ≤ 63 }
    ensures { said result ≡ content_at b k f stop s.now at stop }
{
    let (times, next) = read_liveness(s, at, stop, b, f)?;
    let (deletion, next) = read_row_deletion(s, next, stop, b, f)?;
    let (present, cells) = read_present(s, next, stop, k, f)?;
    Ok((
        Body {
            stop,
            times,
            deletion,
            present,
        },
        cells,
    ))
}

// The sizes, and the body of a row with the flags f before the cells of k columns: the place after it is that of the first cell.
pub(crate) fn read_body(s: &[u8], at: usize, end: usize, b: Bases, k: u64, f: u64) -> Reading<Body>
    requires { k ≤ 63 }
    ensures { said result ≡ body_at b k f s.now at end }
{
    let (value, next) = sizes::read_sizes(s, at, end)?;
    read_content(s, next, value as usize, b, k, f)
}
