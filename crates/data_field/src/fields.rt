// The fields that stand in rows, markers and cells.
ghost use Rattle.std.specs.Prelude.{◌≡◌};
ghost use Rattle.common.specs.Got.{said};
ghost use Rattle.data_field.specs.Fields.{byte_at, in_at, timestamp_at, local_at, ttl_at, deletion_at, variable_at, width_at, value_at};

use common::reading::Reading;
use common::refusal::Fault;
use common::times::Bases;

// A deletion: 1 where there is one, else 0; its mark plus 2^63, its local time.
#[derive(Clone, Copy)]
pub struct Deletion {
    pub deleted: u8,
    pub mark: u64,
    pub local: u64,
}

// A part of the slice read: 0, 0 for an empty value.
#[derive(Clone, Copy)]
pub struct Span {
    pub start: usize,
    pub len: usize,
}

// The byte at at, before end.
// Internal: for the crates above.
pub fn read_byte(s: &[u8], at: usize, end: usize) -> Reading<u64>
    ensures { said result ≡ byte_at s.now at end }
{
    if s.len() < end {
        return Err(Fault::PastEnd.at(at));
    }
    if end <= at {
        return Err(Fault::PastEnd.at(at));
    }
    let b = s[at];
    let value = b as u64;
    Ok((value, at + 1))
}

// A base and the varint at at, from lo to hi.
fn read_in(s: &[u8], at: usize, end: usize, lo: u64, hi: u64, base: u64) -> Reading<u64>
    ensures { said result ≡ in_at lo hi base s.now at end }
{
    let (value, next) = number_varint::read(s, at, end)?;
    if hi < base {
        return Err(Fault::OutOfRange.at(at));
    }
    if hi - base < value {
        return Err(Fault::OutOfRange.at(at));
    }
    let sum = base + value;
    if sum < lo {
        return Err(Fault::OutOfRange.at(at));
    }
    Ok((sum, next))
}

// A timestamp, or the mark of a deletion, plus 2^63.
// Internal: for the crates above.
pub fn read_timestamp(s: &[u8], at: usize, end: usize, b: Bases) -> Reading<u64>
    ensures { said result ≡ timestamp_at b s.now at end }
{
    read_in(s, at, end, 1, 18446744073709551615, b.timestamp)
}

// A local deletion time.
// Internal: for the crates above.
pub fn read_local(s: &[u8], at: usize, end: usize, b: Bases) -> Reading<u64>
    ensures { said result ≡ local_at b s.now at end }
{
    read_in(s, at, end, 0, 2147483646, b.local)
}

// A TTL.
// Internal: for the crates above.
pub fn read_ttl(s: &[u8], at: usize, end: usize, b: Bases) -> Reading<u64>
    ensures { said result ≡ ttl_at b s.now at end }
{
    read_in(s, at, end, 1, 2147483647, b.ttl)
}

// A deletion of a row or a marker.
// Internal: for the crates above.
pub fn read_deletion(s: &[u8], at: usize, end: usize, b: Bases) -> Reading<Deletion>
    ensures { said result ≡ deletion_at b s.now at end }
{
    let (mark, next) = read_timestamp(s, at, end, b)?;
    let (local, next) = read_local(s, next, end, b)?;
    Ok((
        Deletion {
            deleted: 1,
            mark,
            local,
        },
        next,
    ))
}

// A value after its length.
// Internal, as the next: parts of `read_value`, for the cell, which reads its value without a call.
pub fn read_variable(s: &[u8], at: usize, end: usize) -> Reading<Span>
    ensures { said result ≡ variable_at s.now at end }
{
    let (value, next) = number_varint::read(s, at, end)?;
    if value == 0 {
        return Ok((Span { start: 0, len: 0 }, next));
    }
    if ((end - next) as u64) < value {
        return Err(Fault::PastEnd.at(at));
    }
    let len = value as usize;
    Ok((Span { start: next, len }, next + len))
}

// A value of the width.
// Internal: for the crates above.
pub fn read_fixed(s: &[u8], at: usize, end: usize, width: u8) -> Reading<Span>
    ensures { said result ≡ width_at width s.now at end }
{
    if end < at {
        return Err(Fault::PastEnd.at(at));
    }
    let len = width as usize;
    if end - at < len {
        return Err(Fault::PastEnd.at(at));
    }
    Ok((Span { start: at, len }, at + len))
}

// A value of the width, or (255) after its length.
// Internal: for the crates above.
pub fn read_value(s: &[u8], at: usize, end: usize, width: u8) -> Reading<Span>
    ensures { said result ≡ value_at width s.now at end }
{
    if width == 255 {
        return read_variable(s, at, end);
    }
    read_fixed(s, at, end, width)
}
