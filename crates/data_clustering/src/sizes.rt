// The sizes of a row, or of a marker.
ghost use Rattle.std.specs.Prelude.{◌≡◌};
ghost use Rattle.common.specs.Got.{said};
ghost use Rattle.data_clustering.specs.Sizes.{sizes_at};

use common::reading::Reading;
use common::refusal::Fault;

// The end of the body, from the place behind the previous size.
// Internal: for the crates above.
pub fn read_sizes(s: &[u8], at: usize, end: usize) -> Reading<u64>
    ensures { said result ≡ sizes_at s.now at end }
{
    let (value, next) = number_varint::read(s, at, end)?;
    if ((end - next) as u64) < value {
        return Err(Fault::PastEnd.at(at));
    }
    let stop = next + value as usize;
    let (_, next) = number_varint::read(s, next, stop)?;
    Ok((stop as u64, next))
}
