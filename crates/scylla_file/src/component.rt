// The components of Scylla.db.
ghost use Rattle.std.specs.Prelude.{◌≡◌, ◌≤◌};
ghost use Rattle.common.specs.Got.{said};
ghost use Rattle.scylla_file.specs.Components.{absent, with_sharding, with_features, with_attributes, with_run, is_seen, tag_at, body_at, component_at};

use crate::body;
use crate::body::Uuid;
use common::reading::Reading;
use common::refusal::Fault;
use scylla_sharding::region;

// Where a component's body stands, behind tag and size.
#[derive(Clone, Copy)]
pub struct Place {
    pub offset: usize,
    pub length: usize,
}

// What the components say; zeros where one is absent.
#[derive(Clone, Copy)]
pub struct Components {
    // The feature bits.
    pub bits: u64,
    // The run identifier.
    pub uuid: Uuid,
    // Tags 1 to 4.
    pub sharding: Place,
    pub features: Place,
    pub attributes: Place,
    pub run: Place,
}

// No component.
pub(crate) fn absent() -> Components
    ensures { result ≡ absent }
{
    let uuid = Uuid { high: 0, low: 0 };
    let place = Place {
        offset: 0,
        length: 0,
    };
    Components {
        bits: 0,
        uuid,
        sharding: place,
        features: place,
        attributes: place,
        run: place,
    }
}

// Whether a body of the tag was found.
fn is_seen(c: Components, tag: u64) -> bool
    ensures { result ≡ is_seen c tag }
{
    match tag {
        1 => 0 < c.sharding.offset,
        2 => 0 < c.features.offset,
        3 => 0 < c.attributes.offset,
        4 => 0 < c.run.offset,
        _ => false,
    }
}

// A tag, and not a known one's second.
fn read_tag(file: &[u8], at: usize, end: usize, c: Components) -> Reading<u64>
    ensures { said result ≡ tag_at c file.now at end }
{
    let (tag, next) = number_fixed::read(file, at, end, 4)?;
    if is_seen(c, tag) {
        return Err(Fault::Repeated.at(at));
    }
    Ok((tag, next))
}

// c with sharding metadata, whose body stands from at up to end.
fn with_sharding(file: &[u8], at: usize, end: usize, mut c: Components) -> Reading<Components>
    requires { at ≤ end }
    ensures { said result ≡ with_sharding c file.now at end }
{
    let next = scylla_sharding::read(file, at, end)?;
    c.sharding = Place {
        offset: at,
        length: end - at,
    };
    Ok((c, next))
}

// c with features, whose body stands from at up to end.
fn with_features(file: &[u8], at: usize, end: usize, mut c: Components) -> Reading<Components>
    requires { at ≤ end }
    ensures { said result ≡ with_features c file.now at end }
{
    let (bits, next) = body::read_features(file, at, end)?;
    c.bits = bits;
    c.features = Place {
        offset: at,
        length: end - at,
    };
    Ok((c, next))
}

// c with extension attributes, whose body stands from at up to end.
fn with_attributes(file: &[u8], at: usize, end: usize, mut c: Components) -> Reading<Components>
    requires { at ≤ end }
    ensures { said result ≡ with_attributes c file.now at end }
{
    let next = body::skip_attributes(file, at, end)?;
    c.attributes = Place {
        offset: at,
        length: end - at,
    };
    Ok((c, next))
}

// c with a run identifier, whose body stands from at up to end.
fn with_run(file: &[u8], at: usize, end: usize, mut c: Components) -> Reading<Components>
    requires { at ≤ end }
    ensures { said result ≡ with_run c file.now at end }
{
    let (uuid, next) = body::read_run(file, at, end)?;
    c.uuid = uuid;
    c.run = Place {
        offset: at,
        length: end - at,
    };
    Ok((c, next))
}

// c with the component of that tag, whose body stands from at up to end.
fn read_body(file: &[u8], tag: u64, at: usize, end: usize, c: Components) -> Reading<Components>
    requires { at ≤ end }
    ensures { said result ≡ body_at tag c file.now at end }
{
    match tag {
        1 => with_sharding(file, at, end, c),
        2 => with_features(file, at, end, c),
        3 => with_attributes(file, at, end, c),
        4 => with_run(file, at, end, c),
        _ => Ok((c, end)),
    }
}

// The component at at, before end, c what those before it gave.
pub(crate) fn read(file: &[u8], at: usize, end: usize, c: Components) -> Reading<Components>
    ensures { said result ≡ component_at c file.now at end }
{
    let (tag, next) = read_tag(file, at, end, c)?;
    let (size, next) = region::read_length(file, next, end, 4)?;
    read_body(file, tag, next, next + size as usize, c)
}
