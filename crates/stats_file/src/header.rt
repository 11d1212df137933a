// Entry 3: the serialization header.
ghost use Rattle.std.specs.Prelude.{◌≡◌, ◌≤◌, length};
ghost use Rattle.stats_file.specs.Header.{header_at};
ghost use Rattle.stats_file.specs.Buffer.{FillsHeader};

use crate::columns::Sizes;
use crate::{bases, columns};
use common::reading::Reading;
use common::refusal::Fault;
use common::times::Bases;

// The bases, and how many columns there are.
#[derive(Clone, Copy)]
pub struct Head {
    pub bases: Bases,
    pub sizes: Sizes,
}

// The whole entry, from at up to end; its columns' records are stored at the start of d.
pub(crate) fn read(s: &[u8], at: usize, end: usize, d: &mut [u8]) -> Reading<Head>
    requires { (length d.old ≡ 2544) × (length s.now ≤ 1073741824) }
    ensures { FillsHeader (header_at s.now at end) d.old d.new result }
{
    let (bases, next) = bases::read(s, at, end)?;
    let next = columns::read_columns(s, next, end, d, 0, 1, 0)?;
    let (sizes, next) = columns::read_groups(s, next, end, d)?;
    if next < end {
        return Err(Fault::LeftOver.at(next));
    }
    Ok((Head { bases, sizes }, next))
}
