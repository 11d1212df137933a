// Two numbers above their bases, and a deletion.
ghost use Rattle.std.specs.Prelude.{◌≡◌, ◌-◌, ◌≤◌, ◌++◌, length};
ghost use Rattle.number_varint.specs.Varints.{shortest};
ghost use Rattle.common.specs.Store.{Room, Puts};
ghost use Rattle.write_form.specs.Rows.{deletion_bytes};

use common::times::Bases;
use data_field::fields::Deletion;
use write_number::numbers;

pub(crate) fn pair_len(base: u64, x: u64, other: u64, y: u64) -> u64
    ensures { (result ≡ length (shortest (x - base) ++ shortest (y - other))) × (result ≤ 18) }
{
    let first = numbers::delta_len(base, x);
    let second = numbers::delta_len(other, y);
    first + second
}

pub(crate) fn put_pair(d: &mut [u8], at: usize, base: u64, x: u64, other: u64, y: u64) -> usize
    requires { Room d.old at (shortest (x - base) ++ shortest (y - other)) }
    ensures { Puts d.old d.new at (shortest (x - base) ++ shortest (y - other)) result }
{
    let p = numbers::put_delta(d, at, base, x);
    numbers::put_delta(d, p, other, y)
}

pub(crate) fn deletion_len(b: Bases, deletion: Deletion) -> u64
    ensures { (result ≡ length (deletion_bytes b deletion)) × (result ≤ 18) }
{
    pair_len(b.timestamp, deletion.mark, b.local, deletion.local)
}

pub(crate) fn put_deletion(d: &mut [u8], at: usize, b: Bases, deletion: Deletion) -> usize
    requires { Room d.old at (deletion_bytes b deletion) }
    ensures { Puts d.old d.new at (deletion_bytes b deletion) result }
{
    put_pair(d, at, b.timestamp, deletion.mark, b.local, deletion.local)
}
