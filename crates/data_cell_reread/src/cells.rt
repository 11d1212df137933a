// One cell.
ghost use Rattle.std.specs.Prelude.{◌≡◌};
ghost use Rattle.common.specs.Got.{got, Took};
ghost use Rattle.data_cell.specs.Cells.{time_at, own_at, lasting_at, last_at, content_at, cell_at};

use crate::fields;
use common::times::Bases;
use data_cell::cells::{Cell, Times};
use data_field::fields::Span;

// The timestamp: the row's, or the cell's own.
fn known_time(s: &[u8], at: usize, end: usize, b: Bases, row: Times, f: u64) -> (u64, usize)
    requires { Took (time_at b row f s.now at end) }
    ensures { got result.0 result.1 ≡ time_at b row f s.now at end }
{
    if f / 8 % 2 == 1 {
        return (row.timestamp, at);
    }
    fields::known_sum(s, at, end, 1, 18446744073709551615, b.timestamp)
}

// The expiry of a cell that has its own: the kind 1, the local deletion time, the TTL.
fn known_own(s: &[u8], at: usize, end: usize, b: Bases) -> ((u8, u64, u64), usize)
    requires { Took (own_at b s.now at end) }
    ensures { got result.0 result.1 ≡ own_at b s.now at end }
{
    let (local, next) = fields::known_sum(s, at, end, 0, 2147483646, b.local);
    let (ttl, next) = fields::known_sum(s, next, end, 1, 2147483647, b.ttl);
    ((1, local, ttl), next)
}

// The expiry of a cell that is no tombstone: its kind, local deletion time and TTL.
fn known_lasting(
    s: &[u8],
    at: usize,
    end: usize,
    b: Bases,
    row: Times,
    f: u64,
) -> ((u8, u64, u64), usize)
    requires { Took (lasting_at b row f s.now at end) }
    ensures { got result.0 result.1 ≡ lasting_at b row f s.now at end }
{
    if f / 2 % 2 == 1 {
        if f / 16 % 2 == 1 {
            return ((1, row.local, row.ttl), at);
        }
        return known_own(s, at, end, b);
    }
    ((0, 0, 0), at)
}

// The value, last.
fn known_last(
    s: &[u8],
    at: usize,
    end: usize,
    width: u8,
    f: u64,
    kind: u8,
    timestamp: u64,
    local: u64,
    ttl: u64,
) -> (Cell, usize)
    requires { Took (last_at width f kind timestamp local ttl s.now at end) }
    ensures { got result.0 result.1 ≡ last_at width f kind timestamp local ttl s.now at end }
{
    if f / 4 % 2 == 1 {
        return (
            Cell {
                kind,
                timestamp,
                local,
                ttl,
                value: Span { start: 0, len: 0 },
            },
            at,
        );
    }
    let (value, next) = fields::known_value(s, at, end, width);
    (
        Cell {
            kind,
            timestamp,
            local,
            ttl,
            value,
        },
        next,
    )
}

// What follows the timestamp.
fn known_content(
    s: &[u8],
    at: usize,
    end: usize,
    width: u8,
    b: Bases,
    row: Times,
    f: u64,
    timestamp: u64,
) -> (Cell, usize)
    requires { Took (content_at b row width f timestamp s.now at end) }
    ensures { got result.0 result.1 ≡ content_at b row width f timestamp s.now at end }
{
    if f % 2 == 1 {
        let (local, next) = fields::known_sum(s, at, end, 0, 2147483646, b.local);
        return (
            Cell {
                kind: 2,
                timestamp,
                local,
                ttl: 0,
                value: Span { start: 0, len: 0 },
            },
            next,
        );
    }
    let ((kind, local, ttl), next) = known_lasting(s, at, end, b, row, f);
    known_last(s, next, end, width, f, kind, timestamp, local, ttl)
}

// The cell at at, before end, of a column of the width, in a row of these times.
// Internal: for code that has read the same before.
pub fn known_cell(s: &[u8], at: usize, end: usize, width: u8, b: Bases, row: Times) -> (Cell, usize)
    requires { Took (cell_at b row width s.now at end) }
    ensures { got result.0 result.1 ≡ cell_at b row width s.now at end }
{
    let (flags, next) = fields::known_byte(s, at, end);
    let (time, next) = known_time(s, next, end, b, row, flags);
    known_content(s, next, end, width, b, row, flags, time)
}
