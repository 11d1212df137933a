// A whole marker.
ghost use Rattle.std.specs.Prelude.{◌≡◌, ◌+◌, ◌*◌, ◌≤◌, length};
ghost use Rattle.common.specs.Got.{said};
ghost use Rattle.data_clustering.specs.Prefixes.{widths_at};
ghost use Rattle.data_marker.specs.Markers.{first_at, second_at, deletions_at, body_at, bound_at, marker_at, open_after};
ghost use Rattle.data_turns.specs.Turns.{same_deletion};

use crate::kinds;
use common::reading::Reading;
use common::refusal::Fault;
use common::times::Bases;
use data_clustering::prefixes::Prefix;
use data_clustering::{prefixes, sizes};
use data_field::fields;
use data_field::fields::Deletion;

// The deletions of a marker: of a boundary the end's and the start's; the second of the others is none.
#[derive(Clone, Copy)]
pub struct Deletions {
    pub first: Deletion,
    pub second: Deletion,
}

// A marker: where its flags stand, its kind, how many clustering columns its prefix has, the prefix, the deletions.
#[derive(Clone, Copy)]
pub struct Marker {
    pub start: usize,
    pub kind: u64,
    pub count: u64,
    pub prefix: Prefix,
    pub deletions: Deletions,
}

// The first deletion: that of the open range, but for a start.
fn read_first(
    s: &[u8],
    at: usize,
    end: usize,
    b: Bases,
    kind: u64,
    opened: Deletion,
) -> Reading<Deletion>
    ensures { said result ≡ first_at b kind opened s.now at end }
{
    let (deletion, next) = fields::read_deletion(s, at, end, b)?;
    if data_turns::is_start(kind) {
        return Ok((deletion, next));
    }
    if data_turns::is_same_deletion(opened, deletion) {
        return Ok((deletion, next));
    }
    Err(Fault::OutOfTurn.at(at))
}

// The second deletion, of a boundary.
fn read_second(s: &[u8], at: usize, end: usize, b: Bases, kind: u64) -> Reading<Deletion>
    ensures { said result ≡ second_at b kind s.now at end }
{
    if data_turns::is_boundary(kind) {
        return fields::read_deletion(s, at, end, b);
    }
    Ok((
        Deletion {
            deleted: 0,
            mark: 0,
            local: 0,
        },
        at,
    ))
}

// What fills the body behind its sizes.
fn read_deletions(
    s: &[u8],
    at: usize,
    end: usize,
    b: Bases,
    kind: u64,
    opened: Deletion,
) -> Reading<Deletions>
    ensures { said result ≡ deletions_at b kind opened s.now at end }
{
    let (first, next) = read_first(s, at, end, b, kind, opened)?;
    let (second, next) = read_second(s, next, end, b, kind)?;
    if next < end {
        return Err(Fault::LeftOver.at(next));
    }
    Ok((Deletions { first, second }, next))
}

// The sizes, and the body.
fn read_body(
    s: &[u8],
    at: usize,
    end: usize,
    b: Bases,
    kind: u64,
    opened: Deletion,
) -> Reading<Deletions>
    ensures { said result ≡ body_at b kind opened s.now at end }
{
    let (value, next) = sizes::read_sizes(s, at, end)?;
    read_deletions(s, next, value as usize, b, kind, opened)
}

// What follows the kind, in a table with k clustering columns, whose records stand behind the key's.
fn read_bound(
    s: &[u8],
    at: usize,
    end: usize,
    schema: &[u8],
    k: u64,
    b: Bases,
    opened: Deletion,
    start: usize,
    kind: u64,
) -> Reading<Marker>
    requires { 16 + 16 * k ≤ length schema.now }
    ensures { said result ≡ bound_at b (widths_at schema.now 16 k) opened start kind s.now at end }
{
    let (count, next) = kinds::read_count(s, at, end, k)?;
    let (prefix, next) = prefixes::read_prefix(s, next, end, schema, 16, count)?;
    let (deletions, stop) = read_body(s, next, end, b, kind, opened)?;
    Ok((
        Marker {
            start,
            kind,
            count,
            prefix,
            deletions,
        },
        stop,
    ))
}

// The marker at at, before end, in a table with k clustering columns, whose records stand behind the key's; `opened` is the deletion of the
// open range.
// Internal: for callers that have checked the schema.
pub fn read_marker(
    s: &[u8],
    at: usize,
    end: usize,
    schema: &[u8],
    k: u64,
    b: Bases,
    opened: Deletion,
) -> Reading<Marker>
    requires { 16 + 16 * k ≤ length schema.now }
    ensures { said result ≡ marker_at b (widths_at schema.now 16 k) opened s.now at end }
{
    let (_, next) = kinds::read_marker_flags(s, at, end)?;
    let (kind, next) = kinds::read_kind(s, next, end, opened.deleted)?;
    read_bound(s, next, end, schema, k, b, opened, at, kind)
}

// The deletion of the range that is open behind a marker of the kind.
// Internal: for the crates above.
pub fn open_after(kind: u64, d: Deletions) -> Deletion
    ensures { result ≡ open_after kind d }
{
    if data_turns::is_start(kind) {
        return d.first;
    }
    d.second
}
