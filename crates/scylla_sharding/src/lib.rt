// Sharding metadata, tag 1 of Scylla.db: the token ranges of a table, in order.
#![tactic(auto)]

ghost use Rattle.std.specs.Prelude.{◌≡◌};
ghost use Rattle.common.specs.Got.{said, said_place};
ghost use Rattle.scylla_sharding.specs.Regions.{times, passed};
ghost use Rattle.scylla_sharding.specs.Ranges.{left_at, right_at, range_after, first, sharding_at};

pub mod region; // region.rt: lengths and what they announce
pub mod bound; // bound.rt: bounds of token ranges

use bound::Bound;
use common::reading::{Bad, Reading};
use common::refusal::Fault;

// A left bound, r the right bound before it.
fn read_left(file: &[u8], at: usize, end: usize, r: Bound) -> Reading<Bound>
    ensures { said result ≡ left_at r file.now at end }
{
    let (bound, next) = bound::read(file, at, end)?;
    if bound::is_next(r, bound) {
        return Ok((bound, next));
    }
    Err(Fault::Repeated.at(at))
}

// The right bound of the range that l begins.
fn read_right(file: &[u8], at: usize, end: usize, l: Bound) -> Reading<Bound>
    ensures { said result ≡ right_at l file.now at end }
{
    let (bound, next) = bound::read(file, at, end)?;
    if bound::is_range(l, bound) {
        return Ok((bound, next));
    }
    Err(Fault::Repeated.at(at))
}

// The right bound of the range at at, r the right bound before it.
fn read_range(file: &[u8], at: usize, end: usize, r: Bound) -> Reading<Bound>
    ensures { said result ≡ range_after r file.now at end }
{
    let (bound, next) = read_left(file, at, end, r)?;
    read_right(file, next, end, bound)
}

// The last right bound of count ranges from at on, before end.
fn read_ranges(file: &[u8], count: u64, at: usize, end: usize) -> Reading<Bound>
    ensures { said result ≡ times range_after count first file.now at end }
{
    let mut p = at;
    let mut before = Bound {
        exclusive: 1,
        token: 0,
    };
    for _ in 0..count {
        let (bound, next) = read_range(file, p, end, before)?;
        before = bound;
        p = next;
    }
    Ok((before, p))
}

// The component's body, from at up to end.
// Internal: for the crates above.
pub fn read(file: &[u8], at: usize, end: usize) -> Result<usize, Bad>
    ensures { said_place result ≡ passed (sharding_at file.now at end) }
{
    let (count, next) = number_fixed::read(file, at, end, 4)?;
    let (_, next) = read_ranges(file, count, next, end)?;
    if next < end {
        return Err(Fault::LeftOver.at(next));
    }
    Ok(next)
}
