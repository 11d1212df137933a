// Scylla.db, read in full: feature bits, run identifier and where each known component stands.
#![tactic(auto)]

ghost use Rattle.std.specs.Prelude.{◌≡◌, length};
ghost use Rattle.common.specs.Got.{said};
ghost use Rattle.common.specs.Refusals.{outcome};
ghost use Rattle.scylla_sharding.specs.Regions.{times};
ghost use Rattle.scylla_file.specs.Components.{absent, component_at, file_at, scylla_of};

pub mod body; // body.rt: features, extension attributes, run identifier
pub mod component; // component.rt: one component

use common::reading;
use common::reading::Reading;
use common::refusal::{Fault, Refusal, Slice};
use component::Components;

// count components from at on, before end.
fn read_components(file: &[u8], count: u64, at: usize, end: usize) -> Reading<Components>
    ensures { said result ≡ times component_at count absent file.now at end }
{
    let mut p = at;
    let mut c = component::absent();
    for _ in 0..count {
        let (components, next) = component::read(file, p, end, c)?;
        c = components;
        p = next;
    }
    Ok((c, p))
}

// The whole file.
fn read_file(file: &[u8]) -> Reading<Components>
    ensures { said result ≡ file_at file.now 0 (length file.now) }
{
    let end = file.len();
    let (count, next) = number_fixed::read(file, 0, end, 4)?;
    let (components, next) = read_components(file, count, next, end)?;
    if next < end {
        return Err(Fault::LeftOver.at(next));
    }
    Ok((components, next))
}

// Reads a whole Scylla.db.
pub fn read(file: &[u8]) -> Result<Components, Refusal>
    ensures { outcome result ≡ scylla_of file.now }
{
    if 1073741824 < file.len() {
        return Err(Fault::OverLimit.of(Slice::Scylla, 0));
    }
    reading::within(read_file(file), Slice::Scylla)
}
