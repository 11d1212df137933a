// What a call answers that reads at a place: what it read, or why not.
ghost use Rattle.std.specs.Prelude.{◌≡◌};
ghost use Rattle.common.specs.Got.{said, within};
ghost use Rattle.common.specs.Refusals.{bad_at, outcome};

use crate::refusal::{Fault, Refusal, Slice};

// Why nothing was read: the fault, and the first byte of the field concerned.
#[derive(Clone, Copy, Debug, PartialEq, Eq)]
pub struct Bad {
    pub fault: Fault,
    pub place: usize,
}

// What was read and the place after it, or why nothing was.
pub type Reading<T> = Result<(T, usize), Bad>;

impl Fault {
    // The fault at a place of the slice that is read.
    // Internal: for the crates above.
    pub fn at(self, place: usize) -> Bad
        ensures { result ≡ bad_at self place }
    {
        Bad { fault: self, place }
    }
}

// What was read, or the refusal of the slice that was read.
// Internal: for the crates above.
pub fn within<T>(reading: Reading<T>, slice: Slice) -> Result<T, Refusal>
    ensures { outcome result ≡ within slice (said reading) }
{
    match reading {
        Ok((value, _)) => Ok(value),
        Err(bad) => Err(bad.fault.of(slice, bad.place)),
    }
}
