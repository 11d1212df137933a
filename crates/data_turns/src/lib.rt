// What may stand where in Data, for its reader and its writer: kinds of markers and their turns, static rows.
#![tactic(auto)]

ghost use Rattle.std.specs.Prelude.{◌≡◌};
ghost use Rattle.data_turns.specs.Turns.{bad_kind, is_start, is_boundary, out_of_turn, same_deletion, may_stand};

use data_field::fields::Deletion;

// Whether a number is no kind of a marker.
// Internal: for the crates above.
pub fn bad_kind(kind: u64) -> bool
    ensures { result ≡ bad_kind kind }
{
    if 7 < kind {
        return true;
    }
    if kind == 3 {
        return true;
    }
    kind == 4
}

// Whether a kind is a start.
// Internal: for the crates above.
pub fn is_start(kind: u64) -> bool
    ensures { result ≡ is_start kind }
{
    if kind == 1 {
        return true;
    }
    kind == 7
}

// Whether a kind is an end with a start.
// Internal: for the crates above.
pub fn is_boundary(kind: u64) -> bool
    ensures { result ≡ is_boundary kind }
{
    if kind == 2 {
        return true;
    }
    kind == 5
}

// Whether a kind is out of turn; opened is 0 where no range is open.
// Internal: for the crates above.
pub fn out_of_turn(kind: u64, opened: u8) -> bool
    ensures { result ≡ out_of_turn kind opened }
{
    if is_start(kind) {
        return 0 < opened;
    }
    opened == 0
}

// Whether mark and local time are the same.
// Internal: for the crates above.
pub fn is_same_deletion(d: Deletion, e: Deletion) -> bool
    ensures { result ≡ same_deletion d e }
{
    if d.mark == e.mark {
        return d.local == e.local;
    }
    false
}

// Whether a static row may stand here: `first` is 1 right behind the partition's header, else 0.
// Internal: for the crates above.
pub fn may_stand(first: u8, statics: u64) -> bool
    ensures { result ≡ may_stand first statics }
{
    if 0 < first {
        return 0 < statics;
    }
    false
}
