// The bodies of features, extension attributes and run identifier (tags 2, 3 and 4).
ghost use Rattle.std.specs.Prelude.{◌≡◌};
ghost use Rattle.common.specs.Got.{said, said_place};
ghost use Rattle.scylla_sharding.specs.Regions.{times};
ghost use Rattle.scylla_file.specs.Bodies.{features_at, string_at, attribute_at, attributes_at, run_at};

use common::reading::{Bad, Reading};
use common::refusal::Fault;
use scylla_sharding::region;

#[derive(Clone, Copy)]
pub struct Uuid {
    pub high: u64,
    pub low: u64,
}

// Feature bits.
pub(crate) fn read_features(file: &[u8], at: usize, end: usize) -> Reading<u64>
    ensures { said result ≡ features_at file.now at end }
{
    let (bits, next) = number_fixed::read(file, at, end, 8)?;
    if next < end {
        return Err(Fault::LeftOver.at(next));
    }
    Ok((bits, next))
}

// A string with its length, skipped.
fn skip_string(file: &[u8], at: usize, end: usize) -> Result<usize, Bad>
    ensures { said_place result ≡ string_at file.now at end }
{
    let (len, next) = region::read_length(file, at, end, 4)?;
    Ok(next + len as usize)
}

// An attribute, key and value, skipped.
fn skip_attribute(file: &[u8], at: usize, end: usize) -> Result<usize, Bad>
    ensures { said_place result ≡ attribute_at file.now at end }
{
    let next = skip_string(file, at, end)?;
    skip_string(file, next, end)
}

// count attributes from at on, before end, skipped.
fn skip_each(file: &[u8], count: u64, at: usize, end: usize) -> Result<usize, Bad>
    ensures { said_place result ≡ times (λ u. attribute_at) count tt file.now at end }
{
    let mut p = at;
    for _ in 0..count {
        p = skip_attribute(file, p, end)?;
    }
    Ok(p)
}

// Extension attributes.
pub(crate) fn skip_attributes(file: &[u8], at: usize, end: usize) -> Result<usize, Bad>
    ensures { said_place result ≡ attributes_at file.now at end }
{
    let (count, next) = number_fixed::read(file, at, end, 4)?;
    let next = skip_each(file, count, next, end)?;
    if next < end {
        return Err(Fault::LeftOver.at(next));
    }
    Ok(next)
}

// A run identifier.
pub(crate) fn read_run(file: &[u8], at: usize, end: usize) -> Reading<Uuid>
    ensures { said result ≡ run_at file.now at end }
{
    let (high, next) = number_fixed::read(file, at, end, 8)?;
    let (low, next) = number_fixed::read(file, next, end, 8)?;
    if next < end {
        return Err(Fault::LeftOver.at(next));
    }
    Ok((Uuid { high, low }, next))
}
