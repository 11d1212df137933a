// The header of a partition.
ghost use Rattle.std.specs.Prelude.{◌≡◌, ◌+◌, ◌≤◌, ◌++◌, length};
ghost use Rattle.common.specs.Store.{Room, Puts, part, shown};
ghost use Rattle.number_fixed.specs.BigEndian.{bytes_of};
ghost use Rattle.common.specs.Times.{biased};
ghost use Rattle.write_form.specs.Partitions.{header_local, deleted_bytes, head_bytes};

use common::{part, times};
use data_field::fields::{Deletion, Span};

fn header_local(deletion: Deletion) -> u64
    ensures { result ≡ header_local deletion }
{
    if deletion.deleted == 0 {
        return 2147483647;
    }
    deletion.local
}

fn put_local(d: &mut [u8], at: usize, deletion: Deletion) -> usize
    requires { Room d.old at (bytes_of (header_local deletion) 4) }
    ensures { Puts d.old d.new at (bytes_of (header_local deletion) 4) result }
{
    number_fixed::put_in(d, at, 4, header_local(deletion))
}

fn put_mark(d: &mut [u8], at: usize, mark: u64) -> usize
    requires { Room d.old at (bytes_of (biased mark) 8) }
    ensures { Puts d.old d.new at (bytes_of (biased mark) 8) result }
{
    number_fixed::put_in(d, at, 8, times::biased_of(mark))
}

// The local deletion time and the mark.
fn put_deleted(d: &mut [u8], at: usize, deletion: Deletion) -> usize
    requires { Room d.old at (deleted_bytes deletion) }
    ensures { Puts d.old d.new at (deleted_bytes deletion) result }
{
    let p = put_local(d, at, deletion);
    put_mark(d, p, deletion.mark)
}

// The key and what follows it.
fn put_key(
    d: &mut [u8],
    at: usize,
    bytes: &[u8],
    start: usize,
    len: usize,
    deletion: Deletion,
) -> usize
    requires { (start + len ≤ length bytes.now) × Room d.old at (part bytes.now start len ++ deleted_bytes deletion) }
    ensures { Puts d.old d.new at (part bytes.now start len ++ deleted_bytes deletion) result }
{
    let p = part::put_part(d, at, bytes, start, len);
    put_deleted(d, p, deletion)
}

// Stores the header of a partition whose key lies in bytes: the place after it.
// Internal: for writers that have measured before they store.
pub fn put_header(d: &mut [u8], at: usize, bytes: &[u8], key: Span, deletion: Deletion) -> usize
    requires { (key.start + key.len ≤ length bytes.now) × Room d.old at (head_bytes (shown bytes.now key.start key.len) deletion) }
    ensures { Puts d.old d.new at (head_bytes (shown bytes.now key.start key.len) deletion) result }
{
    let start = key.start;
    let len = key.len;
    let p = number_fixed::put_in(d, at, 2, len as u64);
    put_key(d, p, bytes, start, len, deletion)
}
