// Lengths and what they announce.
ghost use Rattle.std.specs.Prelude.{◌≡◌};
ghost use Rattle.common.specs.Got.{said};
ghost use Rattle.scylla_sharding.specs.Regions.{length_at};

use common::reading::Reading;
use common::refusal::Fault;

// A length of `width` bytes, at at, whose bytes lie before end.
// Internal: for the crates above.
pub fn read_length(s: &[u8], at: usize, end: usize, width: usize) -> Reading<u64>
    ensures { said result ≡ length_at width s.now at end }
{
    let (value, next) = number_fixed::read(s, at, end, width)?;
    if ((end - next) as u64) < value {
        return Err(Fault::PastEnd.at(at));
    }
    Ok((value, next))
}
