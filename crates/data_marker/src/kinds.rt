// The flags, the kind and the count of a marker.
ghost use Rattle.std.specs.Prelude.{◌≡◌};
ghost use Rattle.common.specs.Got.{said};
ghost use Rattle.data_marker.specs.Kinds.{marker_flags_at, kind_at, count_at};
ghost use Rattle.data_turns.specs.Turns.{bad_kind, is_start, is_boundary, out_of_turn};

use common::reading::Reading;
use common::refusal::Fault;
use data_field::fields;

// The flags of a marker.
pub(crate) fn read_marker_flags(s: &[u8], at: usize, end: usize) -> Reading<u64>
    ensures { said result ≡ marker_flags_at s.now at end }
{
    let (value, next) = fields::read_byte(s, at, end)?;
    if value == 2 {
        return Ok((value, next));
    }
    Err(Fault::BadFlags.at(at))
}

// The kind of a marker, in turn.
pub(crate) fn read_kind(s: &[u8], at: usize, end: usize, opened: u8) -> Reading<u64>
    ensures { said result ≡ kind_at opened s.now at end }
{
    let (value, next) = fields::read_byte(s, at, end)?;
    if data_turns::bad_kind(value) {
        return Err(Fault::BadFlags.at(at));
    }
    if data_turns::out_of_turn(value, opened) {
        return Err(Fault::OutOfTurn.at(at));
    }
    Ok((value, next))
}

// The count of clustering columns in the prefix, of k.
pub(crate) fn read_count(s: &[u8], at: usize, end: usize, k: u64) -> Reading<u64>
    ensures { said result ≡ count_at k s.now at end }
{
    let (value, next) = number_fixed::read(s, at, end, 2)?;
    if k < value {
        return Err(Fault::OutOfRange.at(at));
    }
    Ok((value, next))
}
