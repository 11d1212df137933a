// Entry 0 of Statistics.
#![tactic(auto)]

ghost use Rattle.std.specs.Prelude.{◌≡◌};
ghost use Rattle.common.specs.Got.{said};
ghost use Rattle.stats_validation.specs.Validation.{chance_of, chance_at, validation_at};

use common::reading::Reading;
use common::refusal::Fault;

// The bloom filter's false-positive chance: the double, and its bits as they stand.
#[derive(Clone, Copy)]
pub struct Chance {
    pub value: f64,
    pub bits: u64,
}

// Where the partitioner's name stands, and the chance.
#[derive(Clone, Copy)]
pub struct Validation {
    pub name: usize,
    pub len: usize,
    pub chance: Chance,
}

// The chance of the bits that stand at at, up to next: refused unless it compares between 0 and 1.
fn chance_of(bits: u64, at: usize, next: usize) -> Reading<Chance>
    ensures { said result ≡ chance_of bits at next }
{
    // A NaN has all bits of the exponent set, and some of the rest.
    if 0x7FF0_0000_0000_0000 < bits % 0x8000_0000_0000_0000 {
        return Err(Fault::OutOfRange.at(at));
    }
    let value = f64::from_bits(bits);
    if 0.0 <= value {
        if value <= 1.0 {
            return Ok((Chance { value, bits }, next));
        }
    }
    Err(Fault::OutOfRange.at(at))
}

fn chance_at(s: &[u8], at: usize, end: usize) -> Reading<Chance>
    ensures { said result ≡ chance_at s.now at end }
{
    let (bits, next) = number_fixed::read(s, at, end, 8)?;
    chance_of(bits, at, next)
}

// The whole entry, from at up to end.
// Internal: for the crates above.
pub fn read(s: &[u8], at: usize, end: usize) -> Reading<Validation>
    ensures { said result ≡ validation_at s.now at end }
{
    let (value, name) = number_fixed::read(s, at, end, 2)?;
    let len = value as usize;
    if end - name < len {
        return Err(Fault::PastEnd.at(at));
    }
    let (chance, next) = chance_at(s, name + len, end)?;
    if next < end {
        return Err(Fault::LeftOver.at(next));
    }
    Ok((Validation { name, len, chance }, next))
}
