// The header of a partition: key and deletion.
ghost use Rattle.std.specs.Prelude.{◌≡◌};
ghost use Rattle.common.specs.Got.{said};
ghost use Rattle.data_partition.specs.Partitions.{key_of, deleted_by, deleted_at, partition_at};

use common::reading::Reading;
use common::refusal::Fault;
use common::times;
use data_field::fields::{Deletion, Span};

// Where the key lies, and the deletion.
#[derive(Clone, Copy)]
pub struct Partition {
    pub key: Span,
    pub deletion: Deletion,
}

// A key of len bytes from start on.
fn key_of(start: usize, len: usize) -> Span
    ensures { result ≡ key_of start len }
{
    if len == 0 {
        return Span { start: 0, len: 0 };
    }
    Span { start, len }
}

// The deletion of a local time that stands at at and a mark that stands at p, before next.
fn deleted_by(local: u64, mark: u64, at: usize, p: usize, next: usize) -> Reading<Deletion>
    ensures { said result ≡ deleted_by local mark at p next }
{
    if local == 2147483647 {
        if mark == 0 {
            return Ok((
                Deletion {
                    deleted: 0,
                    mark: 0,
                    local: 0,
                },
                next,
            ));
        }
        return Err(Fault::OutOfRange.at(at));
    }
    if mark == 0 {
        return Err(Fault::OutOfRange.at(p));
    }
    Ok((
        Deletion {
            deleted: 1,
            mark,
            local,
        },
        next,
    ))
}

// The deletion of a partition.
fn read_deleted(s: &[u8], at: usize, end: usize) -> Reading<Deletion>
    ensures { said result ≡ deleted_at s.now at end }
{
    let (local, next) = number_fixed::read(s, at, end, 4)?;
    if 2147483647 < local {
        return Err(Fault::OutOfRange.at(at));
    }
    let (value, after) = number_fixed::read(s, next, end, 8)?;
    let mark = times::biased_of(value);
    deleted_by(local, mark, at, next, after)
}

// The header of the partition at at, before end.
// Internal: for the crates above.
pub fn read_partition(s: &[u8], at: usize, end: usize) -> Reading<Partition>
    ensures { said result ≡ partition_at s.now at end }
{
    let (value, next) = number_fixed::read(s, at, end, 2)?;
    let len = value as usize;
    if end - next < len {
        return Err(Fault::PastEnd.at(at));
    }
    let (deletion, after) = read_deleted(s, next + len, end)?;
    let key = key_of(next, len);
    Ok((Partition { key, deletion }, after))
}
