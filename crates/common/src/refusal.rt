// What a refusal says: a fault, the slice that it is about, and a place in that slice.
ghost use Rattle.std.specs.Prelude.{◌≡◌};
ghost use Rattle.common.specs.Refusals.{fault_number, slice_number, refusal_at};

// The faults of document 01, "Numbers given back", in the order of their numbers.
#[derive(Clone, Copy, Debug, PartialEq, Eq)]
pub enum Fault {
    OverLimit, // 1: a slice over the limit
    PastEnd, // 2: a field or region passes the end of its region
    LeftOver, // 3: bytes left over in a region, or after the end
    BadFlags, // 4: bad flags, kind, header or mask
    OutOfRange, // 5: a number outside its range
    OutOfTurn, // 6: an item or marker out of turn
    NotCarried, // 7: a type, token length, entry or column kind that is not carried, or absent
    TooMany, // 8: too many columns or entries, too deep
    Repeated, // 9: named twice, or not in order
    BadRecord, // 10: a bad house record
    Differs, // 11: schemas or keys differ
    RangeMarker, // 12: a range marker in a merge
    NoRoom, // 13: the output is longer than the buffer
}

// The slices that calls are lent. A merge has two of some, and says beside the refusal which.
#[derive(Clone, Copy, Debug, PartialEq, Eq)]
pub enum Slice {
    Statistics,
    Scylla,
    Data,
    Schema,
    Records,
    Bytes,
    Output,
    Bases,
    State,
}

// A refusal. The place is the first byte of the field or record concerned, but for NoRoom the length needed.
#[derive(Clone, Copy, Debug, PartialEq, Eq)]
pub struct Refusal {
    pub fault: Fault,
    pub slice: Slice,
    pub place: usize,
}

impl Fault {
    // The refusal of a slice for the fault.
    // Internal: for the crates above.
    pub fn of(self, slice: Slice, place: usize) -> Refusal
        ensures { result ≡ refusal_at self slice place }
    {
        Refusal {
            fault: self,
            slice,
            place,
        }
    }
}

// Document 01's number of a fault.
impl From<Fault> for u8 {
    ghost from_gives = { λ f n. n ≡ fault_number f };

    fn from(fault: Fault) -> u8 {
        match fault {
            Fault::OverLimit => 1,
            Fault::PastEnd => 2,
            Fault::LeftOver => 3,
            Fault::BadFlags => 4,
            Fault::OutOfRange => 5,
            Fault::OutOfTurn => 6,
            Fault::NotCarried => 7,
            Fault::TooMany => 8,
            Fault::Repeated => 9,
            Fault::BadRecord => 10,
            Fault::Differs => 11,
            Fault::RangeMarker => 12,
            Fault::NoRoom => 13,
        }
    }
}

// The number of a slice in the C interface.
impl From<Slice> for u8 {
    ghost from_gives = { λ z n. n ≡ slice_number z };

    fn from(slice: Slice) -> u8 {
        match slice {
            Slice::Statistics => 1,
            Slice::Scylla => 2,
            Slice::Data => 3,
            Slice::Schema => 4,
            Slice::Records => 5,
            Slice::Bytes => 6,
            Slice::Output => 7,
            Slice::Bases => 8,
            Slice::State => 9,
        }
    }
}
