// A record of 64 bytes.
ghost use Rattle.common.specs.Store.{Room, Puts};
ghost use Rattle.list_call.specs.Records.{signed_bytes, kind_bytes, column_bytes, head_bytes, local_bytes, time_bytes, second_bytes, place_bytes, tail_bytes, record_of};

use common::times;
use data_items::Item;

// Stores a timestamp or mark, which is kept plus 2^63: its signed number's 64 bits.
fn put_signed(d: &mut [u8], at: usize, x: u64) -> usize
    requires { Room d.old at (signed_bytes x) }
    ensures { Puts d.old d.new at (signed_bytes x) result }
{
    number_fixed::put_in(d, at, 8, times::biased_of(x))
}

// Bytes 0 and 1.
fn put_kind(d: &mut [u8], at: usize, item: Item) -> usize
    requires { Room d.old at (kind_bytes item) }
    ensures { Puts d.old d.new at (kind_bytes item) result }
{
    let a = number_fixed::put_in(d, at, 1, item.kind);
    number_fixed::put_in(d, a, 1, item.flags)
}

// Bytes 2 and 3.
fn put_column(d: &mut [u8], at: usize, item: Item) -> usize
    requires { Room d.old at (column_bytes item) }
    ensures { Puts d.old d.new at (column_bytes item) result }
{
    let a = number_fixed::put_in(d, at, 1, item.column);
    number_fixed::put_in(d, a, 1, 0)
}

// Bytes 0 to 7.
fn put_head(d: &mut [u8], at: usize, item: Item) -> usize
    requires { Room d.old at (head_bytes item) }
    ensures { Puts d.old d.new at (head_bytes item) result }
{
    let a = put_kind(d, at, item);
    let b = put_column(d, a, item);
    number_fixed::put_in(d, b, 4, item.ttl)
}

// Bytes 24 to 31.
fn put_locals(d: &mut [u8], at: usize, item: Item) -> usize
    requires { Room d.old at (local_bytes item) }
    ensures { Puts d.old d.new at (local_bytes item) result }
{
    let a = number_fixed::put_in(d, at, 4, item.local);
    number_fixed::put_in(d, a, 4, item.expiry)
}

// Bytes 8 to 31.
fn put_times(d: &mut [u8], at: usize, item: Item) -> usize
    requires { Room d.old at (time_bytes item) }
    ensures { Puts d.old d.new at (time_bytes item) result }
{
    let a = put_signed(d, at, item.timestamp);
    let b = put_signed(d, a, item.mark);
    put_locals(d, b, item)
}

// Bytes 32 to 47.
fn put_second(d: &mut [u8], at: usize, item: Item) -> usize
    requires { Room d.old at (second_bytes item) }
    ensures { Puts d.old d.new at (second_bytes item) result }
{
    let a = put_signed(d, at, item.mark2);
    let b = number_fixed::put_in(d, a, 4, item.local2);
    number_fixed::put_in(d, b, 4, 0)
}

// Bytes 48 to 63.
fn put_place(d: &mut [u8], at: usize, item: Item) -> usize
    requires { Room d.old at (place_bytes item) }
    ensures { Puts d.old d.new at (place_bytes item) result }
{
    let a = number_fixed::put_in(d, at, 8, item.offset as u64);
    number_fixed::put_in(d, a, 8, item.length as u64)
}

// Bytes 32 to 63.
fn put_tail(d: &mut [u8], at: usize, item: Item) -> usize
    requires { Room d.old at (tail_bytes item) }
    ensures { Puts d.old d.new at (tail_bytes item) result }
{
    let a = put_second(d, at, item);
    put_place(d, a, item)
}

// Stores the record of an item: the place after it.
pub(crate) fn put_record(d: &mut [u8], at: usize, item: Item) -> usize
    requires { Room d.old at (record_of item) }
    ensures { Puts d.old d.new at (record_of item) result }
{
    let a = put_head(d, at, item);
    let b = put_times(d, a, item);
    put_tail(d, b, item)
}
