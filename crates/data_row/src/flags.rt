// The flags of a row and its extended byte.
ghost use Rattle.std.specs.Prelude.{◌≡◌};
ghost use Rattle.common.specs.Got.{said};
ghost use Rattle.data_row.specs.Flags.{bad_row_flags, row_flags_at, extended_of, extended_at};
ghost use Rattle.data_turns.specs.Turns.{may_stand};

use common::reading::Reading;
use common::refusal::Fault;
use data_field::fields;

// Whether flags are not those of a row.
fn bad_row_flags(f: u64) -> bool
    ensures { result ≡ bad_row_flags f }
{
    if 0 < f % 4 {
        return true;
    }
    if f / 4 % 4 == 2 {
        return true;
    }
    f / 64 % 2 == 1
}

// The flags of a row.
pub(crate) fn read_row_flags(s: &[u8], at: usize, end: usize) -> Reading<u64>
    ensures { said result ≡ row_flags_at s.now at end }
{
    let (value, next) = fields::read_byte(s, at, end)?;
    if bad_row_flags(value) {
        return Err(Fault::BadFlags.at(at));
    }
    Ok((value, next))
}

// What the extended byte x says, which stands at at, before next.
fn extended_of(first: u8, statics: u64, x: u64, at: usize, next: usize) -> Reading<u64>
    ensures { said result ≡ extended_of first statics x at next }
{
    if x == 0 {
        return Ok((0, next));
    }
    if x == 1 {
        if data_turns::may_stand(first, statics) {
            return Ok((1, next));
        }
        return Err(Fault::OutOfTurn.at(at));
    }
    if x == 2 {
        return Err(Fault::NotCarried.at(at));
    }
    if x == 128 {
        return Err(Fault::NotCarried.at(at));
    }
    Err(Fault::BadFlags.at(at))
}

// The extended byte that follows the flags f, 0 where there is none: 1 for a static row.
pub(crate) fn read_extended(
    s: &[u8],
    at: usize,
    end: usize,
    f: u64,
    first: u8,
    statics: u64,
) -> Reading<u64>
    ensures { said result ≡ extended_at f first statics s.now at end }
{
    if f / 128 % 2 == 1 {
        let (value, next) = fields::read_byte(s, at, end)?;
        return extended_of(first, statics, value, at, next);
    }
    Ok((0, at))
}
