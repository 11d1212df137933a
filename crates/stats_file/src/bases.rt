// The base times that the header's three varints give.
ghost use Rattle.std.specs.Prelude.{◌≡◌};
ghost use Rattle.common.specs.Got.{said};
ghost use Rattle.stats_file.specs.Bases.{timestamp_at, local_of, local_at, ttl_at, bases_at};

use common::reading::Reading;
use common::refusal::Fault;
use common::times;
use common::times::Bases;

// The timestamp base, plus 2^63.
fn timestamp(s: &[u8], at: usize, end: usize) -> Reading<u64>
    ensures { said result ≡ timestamp_at s.now at end }
{
    let (value, next) = number_varint::read(s, at, end)?;
    let sum = std::num::wrapping_add_u64(1442880000000000, value);
    Ok((times::biased_of(sum), next))
}

// The local deletion time base, modulo 2^32.
fn local_of(v: u64) -> u64
    ensures { result ≡ local_of v }
{
    (1442880000 + v % 4294967296) % 4294967296
}

fn local(s: &[u8], at: usize, end: usize) -> Reading<u64>
    ensures { said result ≡ local_at s.now at end }
{
    let (value, next) = number_varint::read(s, at, end)?;
    let sum = local_of(value);
    if 2147483647 < sum {
        return Err(Fault::OutOfRange.at(at));
    }
    Ok((sum, next))
}

fn ttl(s: &[u8], at: usize, end: usize) -> Reading<u64>
    ensures { said result ≡ ttl_at s.now at end }
{
    let (value, next) = number_varint::read(s, at, end)?;
    if 2147483647 < value {
        return Err(Fault::OutOfRange.at(at));
    }
    Ok((value, next))
}

// The three bases.
pub(crate) fn read(s: &[u8], at: usize, end: usize) -> Reading<Bases>
    ensures { said result ≡ bases_at s.now at end }
{
    let (timestamp, next) = timestamp(s, at, end)?;
    let (local, next) = local(s, next, end)?;
    let (ttl, next) = ttl(s, next, end)?;
    Ok((
        Bases {
            timestamp,
            local,
            ttl,
        },
        next,
    ))
}
