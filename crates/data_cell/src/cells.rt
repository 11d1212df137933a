// One cell.
ghost use Rattle.std.specs.Prelude.{◌≡◌};
ghost use Rattle.common.specs.Got.{said};
ghost use Rattle.data_cell.specs.Cells.{bad_flags, flags_at, last_at, own_at, lasting_at, content_at, time_at, timed_at, cell_at};

use common::reading::Reading;
use common::refusal::Fault;
use common::times::Bases;
use data_field::fields;
use data_field::fields::Span;

// What a row's liveness gives its cells: 1 where it has a timestamp, else 0, and it plus 2^63; 1 where it expires, else 0, its
// local deletion time and TTL.
#[derive(Clone, Copy)]
pub struct Times {
    pub timed: u8,
    pub timestamp: u64,
    pub expires: u8,
    pub local: u64,
    pub ttl: u64,
}

// A cell: kind 0 a value, 1 an expiring one (local deletion time and TTL), 2 a tombstone (local deletion time, no value).
#[derive(Clone, Copy)]
pub struct Cell {
    pub kind: u8,
    pub timestamp: u64,
    pub local: u64,
    pub ttl: u64,
    pub value: Span,
}

// Whether flags are refused in a row with or without timestamp and expiry.
fn bad_flags(timed: u8, expires: u8, f: u64) -> bool
    ensures { result ≡ bad_flags timed expires f }
{
    if 31 < f {
        return true;
    }
    if f % 4 == 3 {
        return true;
    }
    if f % 8 == 1 {
        return true;
    }
    if (timed as u64) < f / 8 % 2 {
        return true;
    }
    if (expires as u64) < f / 16 % 2 {
        return true;
    }
    f / 2 % 2 < f / 16 % 2
}

// The flags.
fn read_flags(s: &[u8], at: usize, end: usize, row: Times) -> Reading<u64>
    ensures { said result ≡ flags_at row s.now at end }
{
    let (value, next) = fields::read_byte(s, at, end)?;
    if bad_flags(row.timed, row.expires, value) {
        return Err(Fault::BadFlags.at(at));
    }
    Ok((value, next))
}

// The value, last.
fn read_last(
    s: &[u8],
    at: usize,
    end: usize,
    width: u8,
    f: u64,
    kind: u8,
    timestamp: u64,
    local: u64,
    ttl: u64,
) -> Reading<Cell>
    ensures { said result ≡ last_at width f kind timestamp local ttl s.now at end }
{
    if f / 4 % 2 == 1 {
        return Ok((
            Cell {
                kind,
                timestamp,
                local,
                ttl,
                value: Span { start: 0, len: 0 },
            },
            at,
        ));
    }
    // As read_value does, but small enough to be compiled into read_cell.
    if width == 255 {
        let (value, next) = fields::read_variable(s, at, end)?;
        return Ok((
            Cell {
                kind,
                timestamp,
                local,
                ttl,
                value,
            },
            next,
        ));
    }
    let (value, next) = fields::read_fixed(s, at, end, width)?;
    Ok((
        Cell {
            kind,
            timestamp,
            local,
            ttl,
            value,
        },
        next,
    ))
}

// The expiry of a cell that has its own: the kind 1, the local deletion time, the TTL.
fn read_own(s: &[u8], at: usize, end: usize, b: Bases) -> Reading<(u8, u64, u64)>
    ensures { said result ≡ own_at b s.now at end }
{
    let (local, next) = fields::read_local(s, at, end, b)?;
    let (ttl, next) = fields::read_ttl(s, next, end, b)?;
    Ok(((1, local, ttl), next))
}

// The expiry of a cell that is no tombstone: its kind, local deletion time and TTL.
fn read_lasting(
    s: &[u8],
    at: usize,
    end: usize,
    b: Bases,
    row: Times,
    f: u64,
) -> Reading<(u8, u64, u64)>
    ensures { said result ≡ lasting_at b row f s.now at end }
{
    if f / 2 % 2 == 1 {
        if f / 16 % 2 == 1 {
            return Ok(((1, row.local, row.ttl), at));
        }
        return read_own(s, at, end, b);
    }
    Ok(((0, 0, 0), at))
}

// What follows the timestamp: its parts one after the other, so that each is read at one place of the code.
fn read_content(
    s: &[u8],
    at: usize,
    end: usize,
    width: u8,
    b: Bases,
    row: Times,
    f: u64,
    timestamp: u64,
) -> Reading<Cell>
    ensures { said result ≡ content_at b row width f timestamp s.now at end }
{
    if f % 2 == 1 {
        let (local, next) = fields::read_local(s, at, end, b)?;
        return Ok((
            Cell {
                kind: 2,
                timestamp,
                local,
                ttl: 0,
                value: Span { start: 0, len: 0 },
            },
            next,
        ));
    }
    let ((kind, local, ttl), next) = read_lasting(s, at, end, b, row, f)?;
    read_last(s, next, end, width, f, kind, timestamp, local, ttl)
}

// The timestamp: the row's, or the cell's own.
fn read_time(s: &[u8], at: usize, end: usize, b: Bases, row: Times, f: u64) -> Reading<u64>
    ensures { said result ≡ time_at b row f s.now at end }
{
    if f / 8 % 2 == 1 {
        return Ok((row.timestamp, at));
    }
    fields::read_timestamp(s, at, end, b)
}

// What follows the flags.
fn read_timed(
    s: &[u8],
    at: usize,
    end: usize,
    width: u8,
    b: Bases,
    row: Times,
    f: u64,
) -> Reading<Cell>
    ensures { said result ≡ timed_at b row width f s.now at end }
{
    let (value, next) = read_time(s, at, end, b, row, f)?;
    read_content(s, next, end, width, b, row, f, value)
}

// The cell at at, before end, of a column of the width, in a row of these times.
// Internal: for the crates above.
pub fn read_cell(s: &[u8], at: usize, end: usize, width: u8, b: Bases, row: Times) -> Reading<Cell>
    ensures { said result ≡ cell_at b row width s.now at end }
{
    let (value, next) = read_flags(s, at, end, row)?;
    read_timed(s, next, end, width, b, row, value)
}
